//! A heap that threads share: one history of all their events, each of which is one step, made in a turn of its own.
#![tactic(auto)]

mod caller;
mod shared;
mod together;
mod turned;

pub use caller::Caller;
pub use shared::{Pass, SharedHeap};
pub use together::work_together;
pub use turned::Turned;
