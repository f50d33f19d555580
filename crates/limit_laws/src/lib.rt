//! What the core of a heap is limited to: the room that its log always has, how long a collection lasts, how many bytes it takes, and what it
//! copies. It has definitions and laws alone. Its functions do nothing: each names a law by its contract, since what a contract names can't be
//! lost. Laws that proofs above need can't be lost either, and have none.
#![tactic(auto)]

pub mod collections;
pub mod room;
