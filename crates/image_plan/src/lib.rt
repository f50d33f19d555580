//! Where the parts of an image lie, and the superblock at its front.
#![tactic(auto)]

mod plan;
mod superblock;

pub use plan::{FRAME_BYTES, LEAST_LOG, MOST_LOG, MOST_PAGES, Plan, SUPER_BYTES};
pub use superblock::{Super, read_super, write_super};
