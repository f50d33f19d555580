//! A disk that stops after a number of writes and syncs, for trying a crash at each of them.
ghost use Rattle.std.specs.Prelude.{◌≡◌, ◌≢◌, ℕ, ◌≤◌, ◌↔◌, IsTrue};
ghost use Rattle.counts.specs.Count.{counted, Rose};
ghost use Rattle.disk_model.specs.Answer.{as_failure};

use crate::{Disk, DiskError};
use counts::Count;
use std::snapshot::Snapshot;

/// A disk that lets a number of writes and syncs through to the disk inside, and then stops at the next.
///
/// That stop blows the fuse: every read, write and sync from then on answers `Stopped` and does nothing. Until then each
/// read goes through too. Whatever error the disk inside returns, the fuse answers `Failed`.
#[derive(Drop)]
pub struct FuseDisk<D: Disk> {
    inner: D,
    limit: u64,
    passed: u64,
    stops: Count,
    began: Snapshot<D>,
    pub ghost within: { passed ≤ limit },
    pub ghost blown: { stops ≢ 0 → passed ≡ limit },
    pub ghost faults_kept: { D.faults began.value ≤ D.faults inner },
    pub ghost stops_kept: { D.stops began.value ≤ D.stops inner },
    // Unless the disk inside stops, both count the same calls.
    pub ghost tied: { IsTrue D.tells → ¬ Rose (D.stops began.value) (D.stops inner) → D.passed inner ≡ counted passed (D.passed began.value) },
    // Otherwise the disk inside has counted no more of them.
    pub ghost passed_kept: { IsTrue D.tells → D.passed began.value ≤ D.passed inner },
    pub ghost few: { IsTrue D.tells → D.passed inner ≤ counted passed (D.passed began.value) },
}

impl<D: Disk> FuseDisk<D> {
    ghost use Rattle.disk_model.specs.Fuse.{fuse_inner, fuse_origin, fuse_passed, fuse_stops, IsSpent, Stops};

    /// A fuse for `limit` writes and syncs, none of which has passed yet.
    pub fn new(disk: D, limit: u64) -> FuseDisk<D>
        ensures inner { fuse_inner result ≡ disk }
        ensures origin { fuse_origin result ≡ record { disk = disk; inside = D.origin disk; limit = limit } }
        ensures passed { fuse_passed result ≡ 0 }
        ensures stops { fuse_stops result ≡ 0 }
    {
        FuseDisk {
            began: Snapshot::of(&disk),
            inner: disk,
            limit,
            passed: 0,
            stops: Count::new(),
        }
    }

    /// How many writes and syncs it has let through, at most its limit.
    pub fn passed(&self) -> u64
        ensures { result ≡ fuse_passed self.now }
    {
        self.passed
    }

    /// The disk inside, as it is now.
    pub fn into_inner(self) -> D
        ensures { result ≡ fuse_inner self }
    {
        self.inner
    }

    fn is_spent(&self) -> bool
        ensures { IsTrue result ↔ IsSpent self.now }
    {
        self.passed == self.limit
    }

    fn stop(&mut self) -> DiskError
        requires { IsSpent self.old }
        ensures result { result ≡ DiskError.Stopped }
        ensures stops { Stops self.old self.new }
        ensures origin { fuse_origin self.new ≡ fuse_origin self.old }
    {
        self.stops.raise();
        DiskError::Stopped
    }
}

/// The answer of the disk inside as the fuse returns it: only the fuse's own stops are stops.
fn not_stopped(answer: Result<(), DiskError>) -> Result<(), DiskError>
    ensures { result ≡ as_failure answer }
{
    answer.map_err(|_| DiskError::Failed)
}

impl<D: Disk> Disk for FuseDisk<D> {
    ghost use Rattle.std.specs.Prelude.{◌≡◌, ◌≢◌, ◌+◌, ◌<◌, ◌≤◌, ◌↔◌, length, IsTrue, OnOk, Err};
    ghost use Rattle.counts.specs.Count.{raised};
    ghost use Rattle.disk_model.specs.Disk.{overwrite, part, Torn, WidensBy, Narrows, Only, Elapses, HasCause, passed_after};
    ghost use Rattle.disk_model.specs.Fuse.{FuseOrigin, fuse_inner, fuse_origin, fuse_limit, fuse_passed, fuse_stops, IsSpent, IsBlown, Stops, LetsThrough, Reaches};

    ghost tells = { D.tells };

    ghost extent = { λ fuse. D.extent (fuse_inner fuse) };

    ghost bytes = { λ fuse. D.bytes (fuse_inner fuse) };

    ghost may_leave = { λ fuse. D.may_leave (fuse_inner fuse) };

    ghost moment = { λ fuse. D.moment (fuse_inner fuse) };

    ghost left_since = { λ fuse. D.left_since (fuse_inner fuse) };

    ghost faults = { λ fuse. D.faults (fuse_inner fuse) + D.stops (fuse_inner fuse) };

    ghost stops = { fuse_stops };

    ghost passed = { fuse_passed };

    ghost restarts = { λ fuse. D.restarts (fuse_inner fuse) };

    ghost Origin = { FuseOrigin D D.Origin };

    ghost origin = { fuse_origin };

    fn size(&self) -> u64 {
        self.inner.size()
    }

    /// It stops exactly if the fuse is blown.
    fn read(&mut self, at: u64, into: &mut [u8]) -> Result<(), DiskError>
        requires { at + length into.old ≤ D.extent (fuse_inner self.old) }

        ensures stopped { (result ≡ Err DiskError.Stopped) ↔ IsBlown self.old }
        ensures stops { IsBlown self.old → Stops self.old self.new }
        ensures reaches { fuse_stops self.old ≡ 0 → Reaches self.old self.new }
        ensures origin { fuse_origin self.new ≡ fuse_origin self.old }

        ensures read { IsTrue D.tells → OnOk result (into.new ≡ part (D.bytes (fuse_inner self.old)) at (length into.old)) }
        ensures bytes { IsTrue D.tells → D.bytes (fuse_inner self.new) ≡ D.bytes (fuse_inner self.old) }
        ensures crash { IsTrue D.tells → Narrows (D.may_leave (fuse_inner self.old)) (D.may_leave (fuse_inner self.new)) }
        ensures time { IsTrue D.tells → Elapses (D.moment (fuse_inner self.old)) (D.moment (fuse_inner self.new)) (D.left_since (fuse_inner self.old)) (D.left_since (fuse_inner self.new)) (D.may_leave (fuse_inner self.new)) }
        ensures restarts { IsTrue D.tells → D.restarts (fuse_inner self.new) ≡ D.restarts (fuse_inner self.old) }
        ensures extent { D.extent (fuse_inner self.new) ≡ D.extent (fuse_inner self.old) }
        ensures cause { HasCause (D.faults (fuse_inner self.old) + D.stops (fuse_inner self.old)) (D.faults (fuse_inner self.new) + D.stops (fuse_inner self.new)) (fuse_stops self.old) (fuse_stops self.new) result }
    {
        if self.stops.get() != 0 {
            return Err(self.stop());
        }
        not_stopped(self.inner.read(at, into))
    }

    /// It stops exactly if the fuse is spent.
    fn write(&mut self, at: u64, piece: &[u8]) -> Result<(), DiskError>
        requires { at + length piece.now ≤ D.extent (fuse_inner self.old) }

        ensures stopped { (result ≡ Err DiskError.Stopped) ↔ IsSpent self.old }
        ensures stops { IsSpent self.old → Stops self.old self.new }
        ensures passes { fuse_passed self.old < fuse_limit self.old → LetsThrough self.old self.new }
        ensures origin { fuse_origin self.new ≡ fuse_origin self.old }

        ensures written { IsTrue D.tells → OnOk result (D.bytes (fuse_inner self.new) ≡ overwrite (D.bytes (fuse_inner self.old)) at piece.now) }
        ensures crash { IsTrue D.tells → WidensBy (Torn at (length piece.now)) (D.may_leave (fuse_inner self.old)) (D.may_leave (fuse_inner self.new)) }
        ensures time { IsTrue D.tells → Elapses (D.moment (fuse_inner self.old)) (D.moment (fuse_inner self.new)) (D.left_since (fuse_inner self.old)) (D.left_since (fuse_inner self.new)) (D.may_leave (fuse_inner self.new)) }
        ensures passed { fuse_passed self.new ≡ passed_after (fuse_passed self.old) result }
        ensures restarts { IsTrue D.tells → D.restarts (fuse_inner self.new) ≡ D.restarts (fuse_inner self.old) }
        ensures extent { D.extent (fuse_inner self.new) ≡ D.extent (fuse_inner self.old) }
        ensures cause { HasCause (D.faults (fuse_inner self.old) + D.stops (fuse_inner self.old)) (D.faults (fuse_inner self.new) + D.stops (fuse_inner self.new)) (fuse_stops self.old) (fuse_stops self.new) result }
    {
        if self.is_spent() {
            return Err(self.stop());
        }
        let answer = self.inner.write(at, piece);
        self.passed += 1;
        not_stopped(answer)
    }

    /// It stops exactly if the fuse is spent.
    fn sync(&mut self) -> Result<(), DiskError>
        ensures stopped { (result ≡ Err DiskError.Stopped) ↔ IsSpent self.old }
        ensures stops { IsSpent self.old → Stops self.old self.new }
        ensures passes { fuse_passed self.old < fuse_limit self.old → LetsThrough self.old self.new }
        ensures origin { fuse_origin self.new ≡ fuse_origin self.old }

        ensures durable { IsTrue D.tells → OnOk result (Only (D.bytes (fuse_inner self.old)) (D.may_leave (fuse_inner self.new))) }
        ensures bytes { IsTrue D.tells → D.bytes (fuse_inner self.new) ≡ D.bytes (fuse_inner self.old) }
        ensures crash { IsTrue D.tells → Narrows (D.may_leave (fuse_inner self.old)) (D.may_leave (fuse_inner self.new)) }
        ensures time { IsTrue D.tells → Elapses (D.moment (fuse_inner self.old)) (D.moment (fuse_inner self.new)) (D.left_since (fuse_inner self.old)) (D.left_since (fuse_inner self.new)) (D.may_leave (fuse_inner self.new)) }
        ensures passed { fuse_passed self.new ≡ passed_after (fuse_passed self.old) result }
        ensures restarts { IsTrue D.tells → D.restarts (fuse_inner self.new) ≡ D.restarts (fuse_inner self.old) }
        ensures extent { D.extent (fuse_inner self.new) ≡ D.extent (fuse_inner self.old) }
        ensures cause { HasCause (D.faults (fuse_inner self.old) + D.stops (fuse_inner self.old)) (D.faults (fuse_inner self.new) + D.stops (fuse_inner self.new)) (fuse_stops self.old) (fuse_stops self.new) result }
    {
        if self.is_spent() {
            return Err(self.stop());
        }
        let answer = self.inner.sync();
        self.passed += 1;
        not_stopped(answer)
    }

    /// Restarts the disk inside. The fuse stays as it is.
    fn restart(&mut self)
        ensures reaches { Reaches self.old self.new }
        ensures origin { fuse_origin self.new ≡ fuse_origin self.old }

        ensures left { IsTrue D.tells → D.may_leave (fuse_inner self.old) (D.bytes (fuse_inner self.new)) }
        ensures durable { IsTrue D.tells → Only (D.bytes (fuse_inner self.new)) (D.may_leave (fuse_inner self.new)) }
        ensures time { IsTrue D.tells → Elapses (D.moment (fuse_inner self.old)) (D.moment (fuse_inner self.new)) (D.left_since (fuse_inner self.old)) (D.left_since (fuse_inner self.new)) (D.may_leave (fuse_inner self.new)) }
        ensures restarts { IsTrue D.tells → D.restarts (fuse_inner self.new) ≡ raised (D.restarts (fuse_inner self.old)) }
        ensures extent { D.extent (fuse_inner self.new) ≡ D.extent (fuse_inner self.old) }
        ensures faults { D.faults (fuse_inner self.new) ≡ D.faults (fuse_inner self.old) }
        ensures inner_stops { D.stops (fuse_inner self.new) ≡ D.stops (fuse_inner self.old) }
    {
        self.inner.restart();
    }

    ghost counts_now = { λ tells fuse. D.counts_now tells (fuse_inner fuse) };

    ghost only_now = { λ tells fuse. D.only_now tells (fuse_inner fuse) };

    ghost reads_an_image = { λ tells fuse. D.reads_an_image tells (fuse_inner fuse) };

    ghost same_size = { λ tells fuse. D.same_size tells (fuse_inner fuse) };
}
