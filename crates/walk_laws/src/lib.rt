//! The walk of a heap's spaces, and a heap within a collection or without one: each follows from the other. It has definitions and laws alone. Its
//! functions do nothing: each names by its contract a law in whose words others are stated. Laws that proofs above use can't be lost.
#![tactic(auto)]

pub mod births;
pub mod records;
pub mod walks;
