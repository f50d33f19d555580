//! The words of a heap without what some transactions wrote.
#![tactic(auto)]

mod committed_words;

pub use committed_words::CommittedWords;
