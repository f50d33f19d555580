//! A source of bytes in memory, none of whose calls fails.
ghost use Rattle.std.specs.Prelude.{◌≡◌};

use heap_io::{MemorySource, Source, SourceFailed};
use std::alloc::Global;
use std::marker::Model;

/// Bytes in memory. No call fails.
#[derive(Drop)]
pub(crate) struct GivenSource {
    source: MemorySource,
}

impl Model for GivenSource {
    ghost use Rattle.std.specs.Prelude.{◌≡◌, ℕ, List, []};

    ghost Value = { List ℕ };

    ghost view = { λ s. s.source.left };

    ghost invariant = { λ s. s.source.fails ≡ [] };
}

impl GivenSource {
    /// A source of these bytes, none of them taken yet.
    pub(crate) fn of(alloc: Global, bytes: Vec<u8>) -> Self
        ensures { result ≡ bytes.items }
    {
        GivenSource {
            source: MemorySource::of(bytes, Vec::new(alloc)),
        }
    }
}

impl Source for GivenSource {
    ghost use Rattle.std.specs.Prelude.{true};

    ghost tells = { true };

    ghost left = { λ s. s };

    ghost faults = { λ s. 0 };

    fn take(&mut self, into: &mut [u8]) -> Result<usize, SourceFailed> {
        self.source.take(into)
    }
}
