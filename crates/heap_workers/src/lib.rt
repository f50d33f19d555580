//! Workers: each sends its own events, in their order, to a heap that may be shared, and retries an event that is answered busy.
#![tactic(auto)]

mod calls;
mod gate;
mod station;
mod together;
mod worker;

pub use calls::HeapCalls;
pub use gate::{Gate, OpenGate};
pub use station::Station;
pub use together::{MOST_WORKERS, work_all};
pub use worker::{COLLECTOR, FLUSHER, Worker};
