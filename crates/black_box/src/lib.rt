//! Runs of the program on one disk, with a crash after each of them: what is printed in the end follows from what the runs wrote, and is on the disk.
//! Histories are told in terms of the plain model alone. All clauses follow from the public clauses of `run`.
#![tactic(auto)]

mod asking;
mod given;
mod one_run;
mod threads;
mod told_run;
mod turns;

pub use asking::Unasked;
pub use one_run::play_then_graph;
pub use threads::threads_then_graph;
pub use told_run::{TwoRuns, play_script_then_graph};
pub use turns::{Turn, plays_then_graph};
