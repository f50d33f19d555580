//! A worker with the heap that it calls.
use crate::calls::HeapCalls;
use crate::gate::Gate;
use crate::worker::Worker;
use std::alloc::AllocError;
use std::sync::Wait;

/// A worker, the heap that it calls, and how its work ended.
#[derive(Drop)]
pub struct Station<C: HeapCalls> {
    pub calls: C,
    pub worker: Worker,
    pub end: Result<(), AllocError>,
}

impl<C: HeapCalls> Station<C> {
    ghost use Rattle.heap_workers.specs.Stations.{IsReady, HasWorked};

    /// Has the worker send its events.
    pub fn work<R: Wait, G: Gate>(&mut self, rt: &R, gate: &G)
        requires { IsReady C.HeapCalls self.old }
        ensures { HasWorked C.HeapCalls self.old self.new }
    {
        self.end = self.worker.work(rt, &mut self.calls, gate);
    }
}
