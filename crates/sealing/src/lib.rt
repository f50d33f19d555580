//! What a seal appends to the log: the objects that become reachable get words of the current space, and the fields that led to them
//! are updated.
#![tactic(auto)]

mod moves;
mod records;
mod sealing;
mod written;

pub use sealing::Sealing;
