//! The reader, which holds the bytes that came after the lines it returned.
ghost use Rattle.std.specs.Prelude.{◌≡◌, ◌≢◌, ◌⊎◌, ◌↔◌, ℕ, ◌+◌, ◌<◌, ◌≤◌, [], ◌∷◌, ◌++◌, false, true, length, take, drop, None, IsTrue, IsFalse, IfOk, IfSome, OnOk, OnErr, IsErrOf};
ghost use Rattle.counts.specs.Count.{Rose};
ghost use Rattle.line_reader.specs.Taking.{IsWithinLine, HasLine, IsTaken, IsLineOf, IsRestOf, Takes};

use heap_io::{Source, SourceFailed};
use std::alloc::{AllocError, Global};
use std::marker::Model;

/// The most bytes of a line without its newline: as many as a script may have.
pub const MOST_LINE: usize = 1_048_576;

/// The most bytes that are read from the source at once.
const PIECE: usize = 8192;

/// What was taken.
#[derive(Drop)]
pub enum Taken {
    /// A line, without its newline.
    Line(Vec<u8>),
    /// The end of a line of more than `MOST_LINE` bytes. Its bytes are gone.
    TooLong,
    /// A part of such a line is gone, and its end is still to come.
    Part,
    /// Nothing: the source is at its end.
    End,
}

/// Why nothing was taken.
#[derive(Clone, Copy, Debug, PartialEq, Eq)]
pub enum LineError {
    /// Out of memory.
    NoMemory,
    /// A call of the source failed.
    SourceFailed,
}

impl From<AllocError> for LineError {
    ghost use Rattle.line_reader.specs.declared.reader.LineError.TheVariants.{NoMemory};

    ghost from_gives = { λ _ e. e ≡ NoMemory };

    fn from(_: AllocError) -> Self {
        LineError::NoMemory
    }
}

/// Reads a source line by line. It allocates all its memory but that of the lines when it is made.
#[derive(Drop)]
pub struct LineReader {
    held: Vec<u8>,
    piece: Vec<u8>,
    passing: bool,
}

impl Model for LineReader {
    ghost use Rattle.std.specs.Prelude.{◌≡◌, ◌≤◌, length, vec_capacity};
    ghost use Rattle.line_reader.specs.Taking.{Holding};

    ghost Value = { Holding };

    ghost view = { λ r. record { held = r.held.items; passing = r.passing } };

    ghost invariant = { λ r. record { piece : length r.piece.items ≡ 8192; held : length r.held.items ≤ 1056768; room : 1056768 ≤ vec_capacity r.held } };
}

/// Where the first newline is.
fn newline(bytes: &[u8]) -> Option<usize>
    ensures found { IfSome result (λ end. (end < length bytes.now) × IsWithinLine (take end bytes.now) × (bytes.now ≡ take end bytes.now ++ 10 ∷ drop (end + 1) bytes.now)) }
    ensures none { result ≡ None → IsWithinLine bytes.now }
{
    bytes.iter().position(|byte| *byte == b'\n')
}

impl LineReader {
    /// A reader that holds nothing yet.
    pub fn new(alloc: Global) -> Result<Self, AllocError>
        ensures { IfOk result (λ reader. reader ≡ record { held = []; passing = false }) }
    {
        Ok(LineReader {
            held: Vec::with_capacity(alloc, MOST_LINE + PIECE)?,
            piece: vec![in alloc; 0u8; PIECE]?,
            passing: false,
        })
    }

    /// Takes the next line. The source is read only while no whole line is held. After an error the stream is unchanged, and may be
    /// read again.
    pub fn next<S: Source>(&mut self, alloc: Global, source: &mut S) -> Result<Taken, LineError>
        ensures takes { IsTrue S.tells → IfOk result (λ taken. Takes taken self.old.passing (self.old.held ++ S.left source.old) self.new.passing (self.new.held ++ S.left source.new)) }
        ensures err { IsTrue S.tells → OnErr result (self.new.held ++ S.left source.new ≡ self.old.held ++ S.left source.old) }
        ensures passing { OnErr result (self.new.passing ≡ self.old.passing) }
        ensures line { IfOk result IsTaken }

        // If a whole line is held the source isn't read.
        ensures held { HasLine self.old.held → source.new ≡ source.old }
        // So none is held if a call of the source failed.
        ensures waits { IsErrOf result LineError.SourceFailed → IsWithinLine self.new.held }
        // However long its lines are, no more bytes are held.
        ensures most { length self.new.held ≤ 1056768 }

        ensures failed { IsErrOf result LineError.SourceFailed → Rose (S.faults source.old) (S.faults source.new) }
        ensures kept { S.faults source.old ≤ S.faults source.new }
    {
        while self.needs_more() {
            if !self.refill(source)? {
                return self.take_rest(alloc);
            }
        }
        match self.line_end() {
            Some(end) => self.take_line(alloc, end),
            None => Ok(self.pass_part()),
        }
    }

    /// Where the first line that is held ends.
    fn line_end(&self) -> Option<usize>
        ensures found { IfSome result (λ end. (end < length self.now.held) × IsWithinLine (take end self.now.held) × (self.now.held ≡ take end self.now.held ++ 10 ∷ drop (end + 1) self.now.held)) }
        ensures none { result ≡ None → IsWithinLine self.now.held }
    {
        newline(&self.held)
    }

    /// Whether neither a whole line is held nor more bytes than one may have.
    fn needs_more(&self) -> bool
        ensures { IsTrue result ↔ ((length self.now.held ≤ 1048576) × IsWithinLine self.now.held) }
    {
        self.held.len() <= MOST_LINE && self.line_end().is_none()
    }

    /// Holds one more piece, and returns whether there was one.
    fn refill<S: Source>(&mut self, source: &mut S) -> Result<bool, LineError>
        requires { length self.old.held ≤ 1048576 }
        ensures moved { IsTrue S.tells → self.new.held ++ S.left source.new ≡ self.old.held ++ S.left source.old }
        ensures end { IfOk result (λ more. IsFalse more → (self.new.held ≡ self.old.held) × (IsTrue S.tells → S.left source.new ≡ [])) }
        ensures same { OnErr result (self.new.held ≡ self.old.held) }
        ensures grew { IfOk result (λ more. IsTrue more → length self.old.held < length self.new.held) }
        ensures most { length self.new.held ≤ 1056768 }
        ensures passing { self.new.passing ≡ self.old.passing }
        ensures failed { IsErrOf result LineError.SourceFailed → Rose (S.faults source.old) (S.faults source.new) }
        ensures kept { S.faults source.old ≤ S.faults source.new }
    {
        let count = match source.take(&mut self.piece) {
            Ok(count) => count,
            Err(SourceFailed) => return Err(LineError::SourceFailed),
        };
        match self.held.extend_from_slice(&self.piece[..count]) {
            Ok(()) => Ok(count > 0),
            // The room was allocated when the reader was made.
            Err(_) => unreachable!(),
        }
    }

    /// The line of the first `end` bytes that are held.
    fn line_of(&self, alloc: Global, end: usize) -> Result<Taken, AllocError>
        requires within { end ≤ length self.now.held }
        requires line { IsWithinLine (take end self.now.held) }
        ensures { IfOk result (λ taken. IsLineOf taken self.now.passing (take end self.now.held)) }
    {
        if self.passing || end > MOST_LINE {
            return Ok(Taken::TooLong);
        }
        Ok(Taken::Line(self.held[..end].to_vec(alloc)?))
    }

    /// Takes the line that ends at the newline there.
    fn take_line(&mut self, alloc: Global, end: usize) -> Result<Taken, LineError>
        requires within { end < length self.old.held }
        requires line { IsWithinLine (take end self.old.held) }
        ensures taken { IfOk result (λ taken. IsLineOf taken self.old.passing (take end self.old.held)) }
        ensures rest { OnOk result (self.new.held ≡ drop (end + 1) self.old.held) }
        ensures done { OnOk result (IsFalse self.new.passing) }
        ensures err { OnErr result (self.new ≡ self.old) }
        ensures cause { ¬ IsErrOf result LineError.SourceFailed }
        ensures most { length self.new.held ≤ 1056768 }
    {
        let taken = self.line_of(alloc, end)?;
        self.held.drain(..=end);
        self.passing = false;
        Ok(taken)
    }

    /// Takes what is held as the last line, which has no newline.
    fn take_rest(&mut self, alloc: Global) -> Result<Taken, LineError>
        requires line { IsWithinLine self.old.held }
        ensures taken { IfOk result (λ taken. IsRestOf taken self.old.passing self.old.held) }
        ensures rest { OnOk result (self.new.held ≡ []) }
        ensures done { OnOk result (IsFalse self.new.passing) }
        ensures err { OnErr result (self.new ≡ self.old) }
        ensures cause { ¬ IsErrOf result LineError.SourceFailed }
        ensures most { length self.new.held ≤ 1056768 }
    {
        if self.held.is_empty() && !self.passing {
            return Ok(Taken::End);
        }
        let taken = self.line_of(alloc, self.held.len())?;
        self.held.clear();
        self.passing = false;
        Ok(taken)
    }

    /// Drops what is held of a line that is too long.
    fn pass_part(&mut self) -> Taken
        ensures part { result ≡ Taken.Part }
        ensures gone { self.new ≡ record { held = []; passing = true } }
    {
        self.held.clear();
        self.passing = true;
        Taken::Part
    }
}
