//! The heap's pages in memory, with their LSNs, over those that are stored on a disk.
#![tactic(auto)]

mod cache;
mod cached;
mod dirty;
mod effect;

pub use cache::PageCache;
pub use effect::Effect;
