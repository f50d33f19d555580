//! A flip from roots of a heap keeps its graph: what a flip copies, and what a graph stands in while a collection runs, brought together.
//! Its functions do nothing: they name by their contracts the laws in whose words the others are stated. Laws that proofs above use can't be
//! lost.
#![tactic(auto)]

pub mod flips;
