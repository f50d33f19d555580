//! The history of a heap: the list of events and their replies, kept in little memory, and the commits that follow from it.
#![tactic(auto)]

mod commit_list;
mod entries;
mod history;
mod reading;

pub use commit_list::{Commit, CommitList};
pub use entries::Entries;
pub use history::History;
