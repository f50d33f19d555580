//! The disk that may stop at any call: the model, a disk in memory that keeps it, and a fuse around any disk.
#![tactic(auto)]

mod disk;
mod fuse;
mod memory;

pub use disk::{Disk, DiskError};
pub use fuse::FuseDisk;
pub use memory::{MemoryDisk, Pick, UnknownPick};
