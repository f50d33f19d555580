//! Sources, from which bytes are read.
ghost use Rattle.std.specs.Prelude.{◌≡◌, ℕ, ◌<◌, ◌≤◌, Bool, List, [], ◌++◌, length, take, IsTrue, IfOk, OnErr};
ghost use Rattle.heap_io.specs.Stream.{HasCause};

/// A call of `take` failed. The source is unchanged, and may be read again.
#[derive(Clone, Copy, Debug, PartialEq, Eq)]
pub struct SourceFailed;

/// A stream of bytes to be read.
///
/// Each source counts its faults. Of one that is modelled (`tells`), clauses also describe the bytes that are left.
pub trait Source {
    /// Whether the source is modelled: clauses describe its bytes.
    ghost tells: { Bool };

    /// The bytes that are left.
    ghost left: { Self → List ℕ };

    /// How often a call failed.
    ghost faults: { Self → ℕ };

    /// Takes bytes from the front of the stream into the front of `into`, and returns how many: 0 only for an empty `into` or
    /// at the end of the stream.
    fn take(&mut self, into: &mut [u8]) -> Result<usize, SourceFailed>
        ensures within { IfOk result (λ n. n ≤ length into.old) }
        ensures taken { IsTrue tells → IfOk result (λ n. left self.old ≡ take n into.new ++ left self.new) }
        ensures end { IsTrue tells → IfOk result (λ n. n ≡ 0 → 0 < length into.old → left self.old ≡ []) }
        ensures err { IsTrue tells → OnErr result (left self.new ≡ left self.old) }
        ensures cause { HasCause (faults self.old) (faults self.new) result };
}
