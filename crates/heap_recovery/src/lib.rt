//! An image is opened: what its superblock, its log and its pages say, with the writes of unfinished transactions rolled back.
#![tactic(auto)]

mod at;
mod error;
mod read_image;
mod reading;
mod recovery;
mod replaying;

pub use at::At;
pub use error::RecoverError;
pub use recovery::{Recovered, recover};
