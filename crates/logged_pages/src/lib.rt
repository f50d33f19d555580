//! The log of a heap and its pages in memory as one thing, with one way to carry records out.
#![tactic(auto)]

mod logged;
mod records;
mod taken_back;

pub use logged::LoggedPages;
pub use records::{Listed, Records};
pub use taken_back::TakenBack;
