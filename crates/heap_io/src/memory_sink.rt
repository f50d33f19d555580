//! A sink in memory, whose calls fail on request.
ghost use Rattle.std.specs.Prelude.{◌≡◌, ◌-◌, ◌<◌, ◌≤◌, ◌⊎◌, ◌↔◌, [], ◌++◌, true, length, take, min, IfOk, OnErr, IsErr, is_err, Contains, if◌then◌else◌};
ghost use Rattle.counts.specs.Count.{raised};
ghost use Rattle.heap_io.specs.Stream.{HasCause};

use crate::{Sink, SinkFailed};
use counts::Count;
use std::alloc::{AllocError, Global};
use std::marker::Model;

/// Bytes in memory, all of it allocated at the start. A call fails if its number, counted from 1, is in a list, or if
/// it has bytes to write and no room is left. Nothing else makes one fail.
#[derive(Drop)]
pub struct MemorySink {
    bytes: Vec<u8>,
    room: usize,
    fails: Vec<u64>,
    calls: Count,
    faults: Count,
}

impl Model for MemorySink {
    ghost use Rattle.std.specs.Prelude.{◌≤◌, length, vec_capacity};
    ghost use Rattle.heap_io.specs.Memory.{Store};

    ghost Value = { Store };

    ghost view = { λ s. record { written = s.bytes.items; room = s.room; fails = s.fails.items; calls = s.calls; faults = s.faults } };

    ghost invariant = { λ s. record { written : length s.bytes.items ≤ s.room; taken : s.room ≤ vec_capacity s.bytes } };
}

impl MemorySink {
    /// An empty sink with room for `room` bytes. The calls with the numbers in `fails` will fail.
    pub fn of(alloc: Global, room: usize, fails: Vec<u64>) -> Result<Self, AllocError>
        ensures { IfOk result (λ sink. sink ≡ record { written = []; room = room; fails = fails.items; calls = 0; faults = 0 }) }
    {
        Ok(MemorySink {
            bytes: Vec::with_capacity(alloc, room)?,
            room,
            fails,
            calls: Count::new(),
            faults: Count::new(),
        })
    }

    /// The bytes that were written.
    pub fn bytes(&self) -> &[u8]
        ensures value { result.now ≡ self.now.written }
        ensures within { length self.now.written ≤ self.now.room }
    {
        &self.bytes
    }
}

impl Sink for MemorySink {
    ghost tells = { true };

    ghost written = { λ s. s.written };

    ghost faults = { λ s. s.faults };

    fn put(&mut self, piece: &[u8]) -> Result<usize, SinkFailed>
        ensures within { IfOk result (λ n. n ≤ length piece.now) }
        ensures some { IfOk result (λ n. 0 < length piece.now → 0 < n) }
        ensures put { IfOk result (λ n. self.new.written ≡ self.old.written ++ take n piece.now) }
        ensures err { OnErr result (self.new.written ≡ self.old.written) }
        ensures cause { HasCause self.old.faults self.new.faults result }

        // It fails exactly if it was asked to or is full, and takes as many bytes as fit.
        ensures fails { IsErr result
            ↔ (Contains self.old.fails (raised self.old.calls)
            ⊎ ((0 < length piece.now) × (self.old.room ≤ length self.old.written))) }
        ensures most { IfOk result (λ n. n ≡ min (length piece.now) (self.old.room - length self.old.written)) }
        ensures told { self.new.fails ≡ self.old.fails }
        ensures room { self.new.room ≡ self.old.room }
        ensures calls { self.new.calls ≡ raised self.old.calls }
        ensures faults { self.new.faults ≡ (if is_err result then raised self.old.faults else self.old.faults) }
    {
        self.calls.raise();
        let room = self.room - self.bytes.len();
        if self.fails.contains(&self.calls.get()) || (room == 0 && !piece.is_empty()) {
            self.faults.raise();
            return Err(SinkFailed);
        }
        let count = piece.len().min(room);
        match self.bytes.extend_from_slice(&piece[..count]) {
            Ok(()) => Ok(count),
            // The room was allocated at the start.
            Err(_) => unreachable!(),
        }
    }
}
