//! Reads a source one line at a time, and no further than the lines that are requested.
#![tactic(auto)]

mod reader;

pub use reader::{LineError, LineReader, MOST_LINE, Taken};
