//! A slow heap that is no more than the definition of the plain model. Tests compare the heap with it.
#![tactic(auto)]

mod active_transaction;
mod graph_text;
mod object_lock;
mod objects;
mod slow_heap;
mod transaction_view;

pub use slow_heap::SlowHeap;
