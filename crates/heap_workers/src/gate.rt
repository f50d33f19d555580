//! The gate that a worker passes before each event.
use std::sync::Wait;

/// What a worker passes before each event of its list. It may wait there for other workers.
pub trait Gate {
    /// Lets a worker make its next event. `turn` is that event's place in the worker's list, from 1.
    fn pass<R: Wait>(&self, rt: &R, worker: u32, turn: u64);
}

/// A gate at which nobody waits.
#[derive(Clone, Copy, Debug)]
pub struct OpenGate;

impl Gate for OpenGate {
    fn pass<R: Wait>(&self, _rt: &R, _worker: u32, _turn: u64) {}
}
