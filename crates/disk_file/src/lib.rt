//! A disk that is a real file.
#![tactic(auto)]

mod file_disk;
mod real_file;

pub use file_disk::{FileDisk, SIZE};
