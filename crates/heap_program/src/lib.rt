//! The stable heap's commands but `threads`, as one call, `run_alone`: it makes a heap on a disk, plays a script of transactions on it, answers each
//! event, and prints the graph that is reached from the root. The call of all commands is `run` of `thread_program`.
#![tactic(auto)]

mod again;
mod dispatch;
mod loading;
mod output;
mod play;
mod playing;
mod printing;
mod rounds;
mod status;
mod summary;

pub use dispatch::run_alone;
pub use heap_core::Heap;
pub use output::{WriteError, write_graph, write_line};
pub use play::{Halt, play_ending, play_line};
pub use playing::{FIRST, LOG_BYTES, read_input};
pub use status::{Status, status_after};
