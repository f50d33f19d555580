//! The engine of an open heap: the log with its pages, the transactions and the locks in memory, and one call, which makes an event on the heap's
//! disk.
//!
//! A session is a number from 1 to 32, and has at most one transaction. The transactions of the sessions are isolated by strict two-phase
//! locking: each locks an object of the current space before it reads or writes it, and keeps its locks until it ends. No event waits for
//! another: if others hold a conflicting lock it is refused as busy, with the least of their numbers.
//!
//! A collection of one space into the other may run beside the transactions: it begins with a flip, each scan copies what one page leads to,
//! and an event on an object in a page that is not scanned yet scans that page first.
//!
//! A change of the current space has records: all are appended to the log, and then each is put on its pages with its LSN. A page is
//! stored only once the log is on the disk up to the page's LSN.
#![tactic(auto)]

mod barrier;
mod carrying;
mod collecting;
mod committed;
mod engine;
mod fields;
mod handles;
mod locking;
mod log_room;
mod planned;
mod seal;
mod step_error;
mod storing;
mod transactions;

pub use engine::Engine;
pub use step_error::StepError;
