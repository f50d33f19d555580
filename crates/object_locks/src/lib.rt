//! Locks on objects, for strict two-phase locking: a transaction locks each object before it reads or writes it, and keeps all
//! its locks until it ends. No call waits: if others hold conflicting locks, the least of their numbers is answered.
#![tactic(auto)]

mod holding;
mod lock_table;

pub use holding::{Holding, Key, Mode};
pub use lock_table::LockTable;
