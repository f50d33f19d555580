//! The heap's words as code that only reads them sees them.
ghost use Rattle.std.specs.Prelude.{◌≡◌, ℕ, ◌<◌, ◌≤◌, ◌-◌, ◌++◌, Bool, List, length, slice_index, take, drop, IsTrue, IfOk, OnErr, OnOk};
ghost use Rattle.object_layout.specs.Read.{HasRunAfter, IsRead, disk_failure};
ghost use Rattle.object_layout.specs.ReadFailure.{read_failure};

use crate::read_error::ReadError;
use disk_model::DiskError;

/// Words by address, which are read, one or several in a row, from a source that may fail as a disk does.
pub trait Words {
    /// Whether the words are modelled, and reads give exactly these.
    ghost tells: { Bool };

    /// How many words there are.
    ghost extent: { Self → ℕ };

    /// The words, by address.
    ghost content: { Self → List ℕ };

    /// How often a call failed.
    ghost faults: { Self → ℕ };

    /// How often a call found the disk stopped.
    ghost stops: { Self → ℕ };

    /// What else reads keep, as words of this kind say it: by it code that is generic over words can say that all else is kept.
    ghost keeps: { Self → Self → Type 0 };

    /// The number of words, which never changes.
    fn size(&self) -> u32
        ensures { result ≡ extent self.now };

    /// The word at an address.
    fn word(&mut self, at: u32) -> Result<u64, DiskError>
        requires { at < extent self.old }
        ensures word { IsTrue tells → IfOk result (λ w. w ≡ slice_index (content self.old) at) }
        ensures read { IsRead tells extent content keeps faults stops self.old self.new (disk_failure result) };

    /// Appends the words from an address up to an end to `into`. After an error what stood there before is kept, with at most as many words after
    /// it.
    fn append_to(&mut self, from: u32, end: u32, into: &mut Vec<u64>) -> Result<(), ReadError>
        requires order { from ≤ end }
        requires within { end ≤ extent self.old }
        ensures run { OnOk result (HasRunAfter into.old.items into.new.items (end - from)) }
        ensures these { IsTrue tells → OnOk result (into.new.items ≡ into.old.items ++ take (end - from) (drop from (content self.old))) }
        ensures err { OnErr result ((n : ℕ) × (n ≤ end - from) × HasRunAfter into.old.items into.new.items n) }
        ensures read { IsRead tells extent content keeps faults stops self.old self.new (read_failure result) }
    {
        into.reserve((end - from) as usize)?;
        for at in from..end {
            let word = self.word(at)?;
            into.push(word)?;
        }
        Ok(())
    }

    /// There are as many words as it has.
    ghost same_size: { IsTrue tells → (words : Self) → length (content words) ≡ extent words };

    /// Without a read everything is kept.
    ghost keeps_itself: { (words : Self) → keeps words words };

    /// One read after another keeps it.
    ghost keeps_on: { (old mid new : Self) → keeps old mid → keeps mid new → keeps old new };
}
