//! The state of a heap after the records of its log, what each of them writes, and which writes may be taken back.
#![tactic(auto)]

mod abort;
mod copy_index;
mod log_state;
mod runs;
mod undo_lists;

pub use log_state::{AfterError, LAST_NUMBER, LogState, ROOT_WORDS};
pub use runs::{Run, Runs, forwarding_word};
pub use undo_lists::end_bytes;

/// A write that may be taken back: the field of the object at a word address, and the word that stood there before.
#[derive(Clone, Copy, Debug, PartialEq, Eq)]
pub struct UndoEntry {
    /// The word address of the object.
    pub object: u32,
    /// The number of the field.
    pub field: u16,
    /// The word that stood in the field.
    pub was: u64,
}
