//! A session with the existing heap: each line that comes is answered before the next one is read. The program over it is
//! `heap_session`.
#![tactic(auto)]

mod answer;
mod ending;
mod parts;
mod serving;

pub use heap_program::{Heap, Status};
pub use serving::serve;
