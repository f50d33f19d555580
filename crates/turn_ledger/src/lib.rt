//! A ledger that threads share, as an example of a value under a turn lock: what it holds at the end follows from the lock's public clauses alone.
#![tactic(auto)]

mod ledger;

pub use ledger::{Ledger, both, post_all, post_four, post_one, post_two};
