//! A source that gives few bytes at once.
ghost use Rattle.std.specs.Prelude.{◌≡◌, ◌<◌, ◌≤◌, [], ◌++◌, true, length, take, IfOk, OnErr};
ghost use Rattle.heap_io.specs.Stream.{HasCause};

use heap_io::{MemorySource, Source, SourceFailed};

/// A source in memory that gives at most `most` bytes a call, and at least one.
#[derive(Drop)]
pub struct Pieces {
    pub inner: MemorySource,
    pub most: usize,
}

impl Source for Pieces {
    ghost tells = { true };

    ghost left = { λ s. s.inner.left };

    ghost faults = { λ s. s.inner.faults };

    fn take(&mut self, into: &mut [u8]) -> Result<usize, SourceFailed>
        ensures within { IfOk result (λ n. n ≤ length into.old) }
        ensures taken { IfOk result (λ n. self.old.inner.left ≡ take n into.new ++ self.new.inner.left) }
        ensures end { IfOk result (λ n. n ≡ 0 → 0 < length into.old → self.old.inner.left ≡ []) }
        ensures err { OnErr result (self.new.inner.left ≡ self.old.inner.left) }
        ensures cause { HasCause self.old.inner.faults self.new.inner.faults result }
    {
        let count = into.len().min(self.most.max(1));
        self.inner.take(&mut into[..count])
    }
}
