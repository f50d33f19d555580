//! The graph of what is sealed, from a history alone: the transactions that it says were sealed, run one after another on the graph
//! with which it began.
#![tactic(auto)]

mod active_transaction;
mod plain_graph;
mod reading;
mod registers;
mod view;

pub use plain_graph::PlainGraph;
pub use view::{SealedView, sealed_view};
