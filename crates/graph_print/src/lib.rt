//! The text of the graph that is seen in words, and how many objects it has.
#![tactic(auto)]

mod count;
mod order;
mod print;
mod print_error;

pub use count::canon_count;
pub use print::canon_text;
pub use print_error::PrintError;
