//! Readers and writers of std, such as standard input and output. Clauses describe their bytes where std models them,
//! which it doesn't for the standard ones.
ghost use Rattle.std.specs.Prelude.{◌≡◌, ◌<◌, ◌≤◌, [], false, length, is_err, IfOk, if◌then◌else◌};
ghost use Rattle.std.specs.Io.KnownBytes.{ReadConsumes, WriteAppends};
ghost use Rattle.counts.specs.Count.{raised};
ghost use Rattle.heap_io.specs.Stream.{HasCause};

use crate::{Sink, SinkFailed, Source, SourceFailed};
use counts::Count;
use std::io::{Read, Write};
use std::marker::Model;

/// A reader as a source, as standard input: `StdSource::new(rt.stdin())`.
#[derive(Drop)]
pub struct StdSource<R: Read> {
    reader: R,
    faults: Count,
}

impl<R: Read> Model for StdSource<R> {
    ghost use Rattle.heap_io.specs.Standard.{Intake};

    ghost Value = { Intake };

    ghost view = { λ s. record { unread = R.remaining s.reader; faults = s.faults } };
}

impl<R: Read> StdSource<R> {
    /// A source of what the reader has left. No call has failed yet.
    pub fn new(reader: R) -> Self
        ensures { result ≡ record { unread = R.remaining reader; faults = 0 } }
    {
        StdSource {
            reader,
            faults: Count::new(),
        }
    }
}

impl<R: Read> Source for StdSource<R> {
    ghost tells = { false };

    ghost left = { λ _. [] };

    ghost faults = { λ s. s.faults };

    fn take(&mut self, into: &mut [u8]) -> Result<usize, SourceFailed>
        ensures within { IfOk result (λ n. n ≤ length into.old) }
        ensures cause { HasCause self.old.faults self.new.faults result }

        // It takes what the reader gives, and each fault is an error that was returned.
        ensures read { ReadConsumes self.old.unread self.new.unread result into.new }
        ensures faults { self.new.faults ≡ (if is_err result then raised self.old.faults else self.old.faults) }
    {
        match self.reader.read(into) {
            Ok(count) => Ok(count),
            Err(_) => {
                self.faults.raise();
                Err(SourceFailed)
            }
        }
    }
}

/// A writer as a sink, as standard output: `StdSink::new(rt.stdout())`. Each piece goes straight to the writer. A call
/// also fails if the writer accepts no byte of a piece.
#[derive(Drop)]
pub struct StdSink<W: Write> {
    writer: W,
    faults: Count,
}

impl<W: Write> Model for StdSink<W> {
    ghost use Rattle.heap_io.specs.Standard.{Outlet};

    ghost Value = { Outlet };

    ghost view = { λ s. record { held = W.contents s.writer; faults = s.faults } };
}

impl<W: Write> StdSink<W> {
    /// A sink into the writer. No call has failed yet.
    pub fn new(writer: W) -> Self
        ensures { result ≡ record { held = W.contents writer; faults = 0 } }
    {
        StdSink {
            writer,
            faults: Count::new(),
        }
    }
}

impl<W: Write> Sink for StdSink<W> {
    ghost tells = { false };

    ghost written = { λ _. [] };

    ghost faults = { λ s. s.faults };

    fn put(&mut self, piece: &[u8]) -> Result<usize, SinkFailed>
        ensures within { IfOk result (λ n. n ≤ length piece.now) }
        ensures some { IfOk result (λ n. 0 < length piece.now → 0 < n) }
        ensures cause { HasCause self.old.faults self.new.faults result }

        // What it reports as written, the writer was given, and each fault is an error that was returned.
        ensures wrote { WriteAppends self.old.held self.new.held result piece.now }
        ensures faults { self.new.faults ≡ (if is_err result then raised self.old.faults else self.old.faults) }
    {
        match self.writer.write(piece) {
            Ok(count) if count > 0 || piece.is_empty() => Ok(count),
            _ => {
                self.faults.raise();
                Err(SinkFailed)
            }
        }
    }

    // Its reader wants all of it.
    fn discards(&self) -> bool
        ensures { result ≡ false }
    {
        false
    }
}
