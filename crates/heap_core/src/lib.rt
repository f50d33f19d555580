//! The stable heap as a library: it is formatted, opened, and changed by events of its sessions, each of them one atomic step.
//!
//! A session is a number from 1 to 32, and has at most one transaction. Those of different sessions run side by side under strict two-phase
//! locking: an event that needs an object on which another transaction holds a conflicting lock is refused as `busy`, and nothing waits.
#![tactic(auto)]

mod errors;
mod formatting;
mod heap;
mod in_memory;

pub use errors::{FormatError, GraphError, OpenError};
pub use heap::Heap;
pub use heap_history::{Entries, History};
pub use heap_recovery::At;
pub use in_memory::HeapCore;
