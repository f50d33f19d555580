//! The text of a run: the scripts that it reads, and the lines that it prints.
#![tactic(auto)]

mod line;
mod load;
mod number;
mod output;
mod script;

pub use line::{Line, read_text};
pub use load::{Draws, Load, Round};
pub use number::read_number;
pub use output::reply_line;
pub use script::{MOST_BYTES, ScriptError, read_script};
