//! The command line: what its words ask the program to do.
#![tactic(auto)]

mod commands;
mod grammar;
mod read;

pub use commands::{Command, CommandError, Numbers, Stop};
pub use read::read_command;
