//! The plain model of the heap: objects with ids that never move, values, events and their replies.
#![tactic(auto)]

mod event;
mod id;
mod reply;
mod val;

pub use event::{Event, FIRST_SESSION, LAST_SESSION};
pub use id::{Id, ROOT};
pub use reply::{Entry, Refusal, Reply};
pub use val::Val;
