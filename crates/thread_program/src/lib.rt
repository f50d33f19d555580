//! The stable heap's one call, `run`: all commands of `heap_program`, and `threads`, whose script is played by a thread for each of its workers. The
//! program over it is `heap_shell`.
#![tactic(auto)]

mod ending;
mod program;
mod threads;
mod writing;

pub use heap_program::Status;
pub use program::run;
