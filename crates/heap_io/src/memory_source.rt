//! A source in memory, whose calls fail on request.
ghost use Rattle.std.specs.Prelude.{◌≡◌, ◌<◌, ◌≤◌, ◌↔◌, [], ◌++◌, true, length, take, drop, min, IfOk, OnErr, IsErr, is_err, Contains, if◌then◌else◌};
ghost use Rattle.counts.specs.Count.{raised};
ghost use Rattle.heap_io.specs.Stream.{HasCause};

use crate::{Source, SourceFailed};
use counts::Count;
use std::marker::Model;

/// Bytes in memory. A call fails if its number, counted from 1, is in a list, and nothing else makes one fail.
#[derive(Drop)]
pub struct MemorySource {
    bytes: Vec<u8>,
    at: usize,
    fails: Vec<u64>,
    calls: Count,
    faults: Count,
}

impl Model for MemorySource {
    ghost use Rattle.std.specs.Prelude.{◌≤◌, length, drop};
    ghost use Rattle.heap_io.specs.Memory.{Supply};

    ghost Value = { Supply };

    ghost view = { λ s. record { left = drop s.at s.bytes.items; fails = s.fails.items; calls = s.calls; faults = s.faults } };

    ghost invariant = { λ s. s.at ≤ length s.bytes.items };
}

impl MemorySource {
    /// A source of these bytes, none of them taken yet. The calls with the numbers in `fails` will fail.
    pub fn of(bytes: Vec<u8>, fails: Vec<u64>) -> Self
        ensures { result ≡ record { left = bytes.items; fails = fails.items; calls = 0; faults = 0 } }
    {
        MemorySource {
            bytes,
            at: 0,
            fails,
            calls: Count::new(),
            faults: Count::new(),
        }
    }
}

impl Source for MemorySource {
    ghost tells = { true };

    ghost left = { λ s. s.left };

    ghost faults = { λ s. s.faults };

    fn take(&mut self, into: &mut [u8]) -> Result<usize, SourceFailed>
        ensures within { IfOk result (λ n. n ≤ length into.old) }
        ensures taken { IfOk result (λ n. self.old.left ≡ take n into.new ++ self.new.left) }
        ensures end { IfOk result (λ n. n ≡ 0 → 0 < length into.old → self.old.left ≡ []) }
        ensures err { OnErr result (self.new.left ≡ self.old.left) }
        ensures cause { HasCause self.old.faults self.new.faults result }

        // It fails exactly if it was asked to, and takes as many bytes as fit.
        ensures fails { IsErr result ↔ Contains self.old.fails (raised self.old.calls) }
        ensures most { IfOk result (λ n. n ≡ min (length into.old) (length self.old.left)) }
        ensures filled { IfOk result (λ n. into.new ≡ take n self.old.left ++ drop n into.old) }
        ensures untouched { OnErr result (into.new ≡ into.old) }
        ensures told { self.new.fails ≡ self.old.fails }
        ensures calls { self.new.calls ≡ raised self.old.calls }
        ensures faults { self.new.faults ≡ (if is_err result then raised self.old.faults else self.old.faults) }
    {
        self.calls.raise();
        if self.fails.contains(&self.calls.get()) {
            self.faults.raise();
            return Err(SourceFailed);
        }
        let count = copy_front(&self.bytes[self.at..], into);
        self.at += count;
        Ok(count)
    }
}

// Copies as many bytes as fit to the start of `into`, and returns how many.
fn copy_front(bytes: &[u8], into: &mut [u8]) -> usize
    ensures most { result ≡ min (length into.old) (length bytes.now) }
    ensures filled { into.new ≡ take result bytes.now ++ drop result into.old }
{
    let count = into.len().min(bytes.len());
    into[..count].copy_from_slice(&bytes[..count]);
    count
}
