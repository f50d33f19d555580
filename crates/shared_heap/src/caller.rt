//! One caller of a shared heap.
use crate::shared::{Pass, SharedHeap};
use disk_model::Disk;
use graph_model::{Event, Reply};
use heap_workers::HeapCalls;
use std::alloc::AllocError;
use std::sync::Wait;

/// A shared heap with one of its passes. A worker calls it like any heap.
#[derive(Drop)]
pub struct Caller<'a, D: Disk> {
    pub heap: &'a SharedHeap<D>,
    pub pass: Pass<D>,
}

impl<'a, D: Disk> HeapCalls for Caller<'a, D> {
    ghost use Rattle.shared_heap.specs.Callers.{Whose, whose};
    ghost use Rattle.shared_heap.specs.Shared.{IsPass, MaySend};
    ghost use Rattle.turn_lock.specs.Merging as merging;
    ghost use Rattle.turn_lock.specs.Passes.{label_of, mine_of, turns_of};

    ghost takes = { λ c event. IsPass c.heap.now c.pass × MaySend (label_of c.pass) event };

    ghost sent = { λ c. merging.entries_of (mine_of c.pass) };

    ghost asked = { λ c. turns_of c.pass };

    ghost Origin = { Whose D D.Disk };

    ghost origin = { λ c. whose c.heap.now c.pass };

    fn call<R: Wait>(&mut self, rt: &R, event: Event) -> Result<Reply, AllocError> {
        self.heap.call(rt, &mut self.pass, event)
    }
}
