//! A journal that threads share with a mirror of it, as an example of a value with a device beside it under a lock with two turns.
#![tactic(auto)]

mod ledger;
mod posting;
mod threads;

pub use ledger::{Journal, Mirror};
pub use posting::{copy, post, post_all, post_through};
pub use threads::{both, post_eight, post_two};
