//! The transactions that have not ended, by their sessions.
#![tactic(auto)]

mod place;
mod roots;
mod transaction;
mod txn_table;

pub use place::Place;
pub use transaction::HANDLES;
pub use txn_table::{SESSIONS, TxnTable};
