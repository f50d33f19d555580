//! A seal of a transaction while a collection runs: its records can follow, and after them the words are laid out and each graph stands in
//! the completed words, with what was promoted. It has definitions and laws alone. Its functions do nothing: each names a law by its
//! contract, since what a contract names can't be lost. Laws that proofs above need can't be lost either, and have none.
#![tactic(auto)]

pub mod seals;
pub mod views;
