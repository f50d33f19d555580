//! Scripts: one line after another.
ghost use Rattle.std.specs.Prelude.{◌≡◌, ◌+◌, ◌<◌, ◌^◌, ◌==◌, Ok, fold};
ghost use Rattle.std.specs.List.{position, before_first, after_first};
ghost use Rattle.script_text.specs.Script.{lines, start, read_line, take_line, finish, script, Gives};

use crate::line::{Line, read_text};
use std::alloc::{AllocError, AllocFailed, Global};

/// The most bytes of a script.
pub const MOST_BYTES: usize = 1_048_576;

/// Why a script could not be read.
#[derive(Clone, Copy, Debug, PartialEq, Eq)]
pub enum ScriptError {
    /// Out of memory.
    NoMemory,
    /// The number of the first bad line, from 1; 0 stands for a script that is too long.
    Fault { line: u64 },
}

impl From<AllocError> for ScriptError {
    ghost use Rattle.script_text.specs.declared.script.ScriptError.TheVariants.{NoMemory};

    ghost from_gives = { λ _ e. e ≡ NoMemory };

    fn from(_: AllocError) -> Self {
        ScriptError::NoMemory
    }
}

impl<T: Drop> From<AllocFailed<T>> for ScriptError {
    ghost use Rattle.script_text.specs.declared.script.ScriptError.TheVariants.{NoMemory};

    ghost from_gives = { λ _ e. e ≡ NoMemory };

    fn from(_: AllocFailed<T>) -> Self {
        ScriptError::NoMemory
    }
}

/// How far a script has been read: the number of the next line, and the lines found.
#[derive(Drop)]
struct Reader {
    number: u64,
    found: Vec<Line>,
}

impl Reader {
    ghost use Rattle.script_text.specs.Reader.{reading_of};

    /// Reads one more line.
    fn read_line(&mut self, alloc: Global, text: &[u8]) -> Result<(), ScriptError>
        requires { self.old.number + 1 < 2 ^ 64 }
        ensures { Gives (λ _. reading_of self.new) result (read_line (reading_of self.old) text.now) }
    {
        if !text.is_empty() {
            let found = read_text(alloc, text)?;
            let line = found.ok_or(ScriptError::Fault { line: self.number })?;
            self.found.push(line)?;
        }
        self.number += 1;
        Ok(())
    }
}

/// Where the first newline is.
fn newline(bytes: &[u8]) -> Option<usize>
    ensures { result ≡ position (λ b. b == 10) bytes.now }
{
    bytes.iter().position(|byte| *byte == b'\n')
}

/// The first line and what follows it.
fn cut_line(bytes: &[u8]) -> (&[u8], &[u8])
    ensures line { result.0.now ≡ before_first (λ b. b == 10) bytes.now }
    ensures rest { result.1.now ≡ after_first (λ b. b == 10) bytes.now }
{
    match newline(bytes) {
        None => (bytes, &[]),
        Some(end) => (&bytes[..end], &bytes[end + 1..]),
    }
}

/// The lines of a script that is not too long.
fn read_lines(alloc: Global, bytes: &[u8]) -> Result<Vec<Line>, ScriptError>
    ensures { Gives (λ v. v.items) result (finish (fold take_line (Ok start) (lines bytes.now))) }
{
    let mut reader = Reader {
        number: 1,
        found: Vec::new(alloc),
    };
    let mut rest = bytes;
    while !rest.is_empty() {
        let (text, after) = cut_line(rest);
        reader.read_line(alloc, text)?;
        rest = after;
    }
    Ok(reader.found)
}

/// The lines of a script, or an error: out of memory, or a bad line.
pub fn read_script(alloc: Global, bytes: &[u8]) -> Result<Vec<Line>, ScriptError>
    ensures { Gives (λ v. v.items) result (script bytes.now) }
{
    if bytes.len() > MOST_BYTES {
        return Err(ScriptError::Fault { line: 0 });
    }
    read_lines(alloc, bytes)
}
