//! Objects in words: where they stand, what their fields are, and the walk of a space.
#![tactic(auto)]

mod collection_walk;
mod from_space;
mod object;
mod read_error;
mod space;
mod walk_error;
mod word_slice;
mod words;

pub use collection_walk::walk_beside;
pub use from_space::FromSpace;
pub use object::{fields, object_at, stand};
pub use read_error::ReadError;
pub use space::walk;
pub use walk_error::WalkError;
pub use word_slice::WordSlice;
pub use words::Words;
