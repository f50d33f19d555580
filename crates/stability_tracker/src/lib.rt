//! Which objects of a transaction its seal promotes.
#![tactic(auto)]

mod search;
mod tracker;

pub use tracker::promotion;
