//! What is printed of an event.
ghost use Rattle.std.specs.Prelude.{◌≡◌, IfOk, string_bytes};
ghost use Rattle.graph_model.specs.Text.{line};

use graph_model::Entry;
use std::alloc::{AllocError, Global};

/// More bytes than most lines have, so that a line is allocated at once.
const MOST_LINES: usize = 64;

/// The line of an event and its reply, with its newline.
pub fn reply_line(alloc: Global, entry: &Entry) -> Result<String, AllocError>
    ensures { IfOk result (λ text. string_bytes text ≡ line entry.now) }
{
    let mut text = String::with_capacity(alloc, MOST_LINES)?;
    writeln!(text, "{entry}")?;
    Ok(text)
}
