//! The disk as its callers see it: what a read gives, and what a crash at each moment may leave.
ghost use Rattle.std.specs.Prelude.{◌≡◌, ℕ, ◌+◌, ◌≤◌, Bool, List, length, IsTrue, OnOk};
ghost use Rattle.counts.specs.Count.{raised};
ghost use Rattle.disk_model.specs.Disk.{overwrite, part, Torn, WidensBy, Narrows, Only, Elapses, HasCause, passed_after};

/// Why a device call was not done. The call's contract says what it leaves on the disk.
#[derive(Clone, Copy, Debug, PartialEq, Eq)]
pub enum DiskError {
    /// The disk failed in this call.
    Failed,
    /// The disk has stopped, and does nothing until it is restarted.
    Stopped,
}

/// A disk of a fixed number of bytes, which may fail or stop at any call.
///
/// Each disk has a size, an origin and two counts. Of one that is modelled (`tells`), clauses also describe its bytes, and the images that
/// a crash may leave: until a sync, any bytes in the ranges that were written, and the same bytes as before everywhere else.
pub trait Disk {
    /// Whether the disk is modelled: clauses describe its bytes, and it keeps the disk model.
    ghost tells: { Bool };

    /// How many bytes it has.
    ghost extent: { Self → ℕ };

    /// The bytes that a read gives.
    ghost bytes: { Self → List ℕ };

    /// The images that a crash at this moment may leave.
    ghost may_leave: { Self → List ℕ → Type 0 };

    /// The moment, as a number that never falls.
    ghost moment: { Self → ℕ };

    /// The images that a crash at some moment since that one might have left, during a call or between two.
    ghost left_since: { Self → ℕ → List ℕ → Type 0 };

    /// How often a call failed.
    ghost faults: { Self → ℕ };

    /// How often a call found the disk stopped.
    ghost stops: { Self → ℕ };

    /// How many writes and syncs were called and not answered `Stopped`.
    ghost passed: { Self → ℕ };

    /// How often the disk was restarted.
    ghost restarts: { Self → ℕ };

    /// The type of what the disk was made of.
    ghost Origin: { Type 0 };

    /// What the disk was made of, which never changes: by it code that is generic over disks can say that this is still the same disk.
    ghost origin: { Self → Origin };

    /// The number of bytes, which never changes.
    fn size(&self) -> u64
        ensures { result ≡ extent self.now };

    /// Reads the bytes from `at` on into `into`. After an error `into` may hold anything.
    fn read(&mut self, at: u64, into: &mut [u8]) -> Result<(), DiskError>
        requires { at + length into.old ≤ extent self.old }

        ensures read { IsTrue tells → OnOk result (into.new ≡ part (bytes self.old) at (length into.old)) }
        ensures bytes { IsTrue tells → bytes self.new ≡ bytes self.old }
        ensures crash { IsTrue tells → Narrows (may_leave self.old) (may_leave self.new) }
        ensures time { IsTrue tells → Elapses (moment self.old) (moment self.new) (left_since self.old) (left_since self.new) (may_leave self.new) }
        ensures passed { IsTrue tells → passed self.new ≡ passed self.old }
        ensures restarts { IsTrue tells → restarts self.new ≡ restarts self.old }

        ensures extent { extent self.new ≡ extent self.old }
        ensures origin { origin self.new ≡ origin self.old }
        ensures cause { HasCause (faults self.old) (faults self.new) (stops self.old) (stops self.new) result }
        // The first stop is never a read's.
        ensures no_first_stop { stops self.old ≡ 0 → stops self.new ≡ 0 };

    /// Writes the bytes from `at` on. Until a sync a crash may leave any bytes there, also after an error.
    fn write(&mut self, at: u64, piece: &[u8]) -> Result<(), DiskError>
        requires { at + length piece.now ≤ extent self.old }

        ensures written { IsTrue tells → OnOk result (bytes self.new ≡ overwrite (bytes self.old) at piece.now) }
        ensures crash { IsTrue tells → WidensBy (Torn at (length piece.now)) (may_leave self.old) (may_leave self.new) }
        ensures time { IsTrue tells → Elapses (moment self.old) (moment self.new) (left_since self.old) (left_since self.new) (may_leave self.new) }
        ensures passed { IsTrue tells → passed self.new ≡ passed_after (passed self.old) result }
        ensures restarts { IsTrue tells → restarts self.new ≡ restarts self.old }

        ensures extent { extent self.new ≡ extent self.old }
        ensures origin { origin self.new ≡ origin self.old }
        ensures cause { HasCause (faults self.old) (faults self.new) (stops self.old) (stops self.new) result };

    /// Waits until everything written is on the disk: after it a crash leaves what a read gives.
    fn sync(&mut self) -> Result<(), DiskError>
        ensures durable { IsTrue tells → OnOk result (Only (bytes self.old) (may_leave self.new)) }
        ensures bytes { IsTrue tells → bytes self.new ≡ bytes self.old }
        ensures crash { IsTrue tells → Narrows (may_leave self.old) (may_leave self.new) }
        ensures time { IsTrue tells → Elapses (moment self.old) (moment self.new) (left_since self.old) (left_since self.new) (may_leave self.new) }
        ensures passed { IsTrue tells → passed self.new ≡ passed_after (passed self.old) result }
        ensures restarts { IsTrue tells → restarts self.new ≡ restarts self.old }

        ensures extent { extent self.new ≡ extent self.old }
        ensures origin { origin self.new ≡ origin self.old }
        ensures cause { HasCause (faults self.old) (faults self.new) (stops self.old) (stops self.new) result };

    /// Restarts the disk after a crash. It then reads as one of the images that the crash could leave.
    fn restart(&mut self)
        ensures left { IsTrue tells → may_leave self.old (bytes self.new) }
        ensures durable { IsTrue tells → Only (bytes self.new) (may_leave self.new) }
        ensures time { IsTrue tells → Elapses (moment self.old) (moment self.new) (left_since self.old) (left_since self.new) (may_leave self.new) }
        ensures passed { IsTrue tells → passed self.new ≡ passed self.old }
        ensures restarts { IsTrue tells → restarts self.new ≡ raised (restarts self.old) }

        ensures extent { extent self.new ≡ extent self.old }
        ensures origin { origin self.new ≡ origin self.old }
        ensures faults { faults self.new ≡ faults self.old }
        ensures stops { stops self.new ≡ stops self.old };

    /// An image that may be left at this moment may be left since any earlier one.
    ghost counts_now: { IsTrue tells → (disk : Self) (t : ℕ) (c : List ℕ) → t ≤ moment disk → may_leave disk c → left_since disk t c };

    /// An image that may be left since this moment may be left now.
    ghost only_now: { IsTrue tells → (disk : Self) (c : List ℕ) → left_since disk (moment disk) c → may_leave disk c };

    /// What a read gives is one of the images.
    ghost reads_an_image: { IsTrue tells → (disk : Self) → may_leave disk (bytes disk) };

    /// Each image has the disk's size.
    ghost same_size: { IsTrue tells → (disk : Self) (c : List ℕ) → may_leave disk c → length c ≡ extent disk };
}
