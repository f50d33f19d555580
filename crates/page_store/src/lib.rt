//! Pages on a disk: an array of pages, each stored in one of two frames in turn, so that a crash leaves the old page or the new one.
#![tactic(auto)]

mod frame;
mod refill;
mod store;

pub use frame::{Frame, PAGE_WORDS, StoredPage};
pub use store::{PageStore, ReadPagesError};
