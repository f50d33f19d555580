//! The words of a heap as they would be if the collection that runs copied all that is left, and every reference were followed: a graph
//! stands in these. It has definitions and their laws. Three functions, which do nothing, name by their contracts what a relocation keeps
//! and what a flip parts. The other laws are used by proofs above, and so can't be lost.
#![tactic(auto)]

pub mod completing;
pub mod records;
