//! What is seen in the words of a heap while a collection runs, as they stand: the graph, each object's fields, and where records write. It has
//! definitions and laws alone. Its functions do nothing: each names a law by its contract, since what a contract names can't be lost.
//! Laws that proofs above need can't be lost either, and have none.
#![tactic(auto)]

pub mod born;
pub mod reads;
pub mod records;
pub mod transactions;
