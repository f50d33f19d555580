//! Sinks, to which bytes are written.
ghost use Rattle.std.specs.Prelude.{◌≡◌, ℕ, ◌<◌, ◌≤◌, Bool, false, List, [], ◌++◌, length, take, IsTrue, IfOk, OnErr};
ghost use Rattle.heap_io.specs.Stream.{HasCause};

/// A call of `put` failed. The sink holds what it held.
#[derive(Clone, Copy, Debug, PartialEq, Eq)]
pub struct SinkFailed;

/// A stream of bytes to be written.
///
/// Each sink counts its faults. Of one that is modelled (`tells`), clauses also describe the bytes that were written.
pub trait Sink {
    /// Whether the sink is modelled: clauses describe its bytes.
    ghost tells: { Bool };

    /// The bytes that were written.
    ghost written: { Self → List ℕ };

    /// How often a call failed.
    ghost faults: { Self → ℕ };

    /// Writes bytes from the front of `piece`, and returns how many: 0 only for an empty `piece`.
    fn put(&mut self, piece: &[u8]) -> Result<usize, SinkFailed>
        ensures within { IfOk result (λ n. n ≤ length piece.now) }
        ensures some { IfOk result (λ n. 0 < length piece.now → 0 < n) }
        ensures put { IsTrue tells → IfOk result (λ n. written self.new ≡ written self.old ++ take n piece.now) }
        ensures err { IsTrue tells → OnErr result (written self.new ≡ written self.old) }
        ensures cause { HasCause (faults self.old) (faults self.new) result };

    /// Whether what is written is discarded, so that no text has to be made for it.
    fn discards(&self) -> bool
        ensures { IsTrue result → ¬ IsTrue tells }
    {
        false
    }

    /// Shows how far a long piece of work is: `done` of its `all` parts are done. It writes nothing to the sink, and no clause describes
    /// what is shown.
    fn show_progress(&self, _done: u32, _all: u32) {}
}

/// A sink that accepts everything and keeps nothing.
#[derive(Clone, Copy, Debug, PartialEq, Eq)]
pub struct Discard;

impl Sink for Discard {
    ghost tells = { false };

    ghost written = { λ _. [] };

    ghost faults = { λ _. 0 };

    fn put(&mut self, piece: &[u8]) -> Result<usize, SinkFailed> {
        Ok(piece.len())
    }

    fn discards(&self) -> bool {
        true
    }
}
