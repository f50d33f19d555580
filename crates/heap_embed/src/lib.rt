//! An open heap inside a program that has the file itself: the heap is asked by numbers, and tells each write and sync that its host has to make.
#![tactic(auto)]

mod answer;
mod ask;
mod embedded;
mod host_disk;
mod open_heap;
mod state;

pub use answer::Answer;
pub use ask::{Ask, read_ask};
pub use embedded::Embedded;
pub use host_disk::{HostDisk, host_lags};
pub use open_heap::OpenHeap;
