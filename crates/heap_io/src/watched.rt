//! A writer whose reader waits for it, as standard output, with progress reports on a terminal.
ghost use Rattle.std.specs.Prelude.{◌≡◌, ◌<◌, ◌≤◌, [], false, length, is_err, IfOk, if◌then◌else◌};
ghost use Rattle.std.specs.Io.KnownBytes.{WriteAppends};
ghost use Rattle.counts.specs.Count.{raised};
ghost use Rattle.heap_io.specs.Stream.{HasCause};

use crate::{Sink, SinkFailed, StdSink};
use std::io::{IsTerminal, Stderr, Write};
use std::marker::Model;

/// Work with fewer parts is not reported.
const LONG: u32 = 1_000;

/// A writer as a sink, as standard output: `WatchedSink::new(rt.stdout(), rt.stderr())`. It reports the progress of a long piece of work
/// on standard error, if that is a terminal: a line for each tenth.
#[derive(Drop)]
pub struct WatchedSink<W: Write> {
    sink: StdSink<W>,
    // It can write to no other stream.
    watcher: Stderr,
}

impl<W: Write> Model for WatchedSink<W> {
    ghost use Rattle.heap_io.specs.Standard.{Outlet};

    ghost Value = { Outlet };

    ghost view = { λ s. s.sink };
}

impl<W: Write> WatchedSink<W> {
    /// A sink into the writer. No call has failed yet.
    pub fn new(writer: W, watcher: Stderr) -> Self
        ensures { result ≡ record { held = W.contents writer; faults = 0 } }
    {
        WatchedSink {
            sink: StdSink::new(writer),
            watcher,
        }
    }
}

impl<W: Write> Sink for WatchedSink<W> {
    ghost tells = { false };

    ghost written = { λ _. [] };

    ghost faults = { λ s. s.faults };

    fn put(&mut self, piece: &[u8]) -> Result<usize, SinkFailed>
        ensures within { IfOk result (λ n. n ≤ length piece.now) }
        ensures some { IfOk result (λ n. 0 < length piece.now → 0 < n) }
        ensures cause { HasCause self.old.faults self.new.faults result }

        // What it reports as written, the writer was given, and each fault is an error that was returned.
        ensures wrote { WriteAppends self.old.held self.new.held result piece.now }
        ensures faults { self.new.faults ≡ (if is_err result then raised self.old.faults else self.old.faults) }
    {
        self.sink.put(piece)
    }

    // Its reader wants all of it.
    fn discards(&self) -> bool
        ensures { result ≡ false }
    {
        self.sink.discards()
    }

    fn show_progress(&self, done: u32, all: u32) {
        if all >= LONG && done % (all / 10) == 0 && self.watcher.is_terminal() {
            let mut watcher = self.watcher;
            // Progress that can't be shown is no error.
            let _ = writeln!(watcher, "{done} of {all} rounds");
        }
    }
}
