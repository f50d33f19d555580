//! What is printed: lines, how many commits came back, and the graph.
ghost use Rattle.std.specs.Prelude.{◌≡◌, ◌+◌, ◌-◌, ◌++◌, length, min, None, Err, IsTrue};
ghost use Rattle.counts.specs.Count.{greatest};
ghost use Rattle.graph_model.specs.History.{sealed};
ghost use Rattle.graph_model.specs.Text.{line};
ghost use Rattle.graph_model.specs.Transaction.{serial};
ghost use Rattle.heap_core.specs.HeapState.{failed_at};
ghost use Rattle.heap_core.specs.Refinement.{IsCore};
ghost use Rattle.heap_model.specs.Core.{Core};
ghost use Rattle.core_laws.specs.Valid.{IsReached};
ghost use Rattle.heap_program.specs.declared.output.WriteError.TheVariants.{NoMemory, SinkFailed};
ghost use Rattle.heap_program.specs.Causes.{StreamCause};
ghost use Rattle.heap_program.specs.Headline.{graph_text, recovered_line};
ghost use Rattle.heap_program.specs.Output.{WroteText, commits_since};

use disk_model::Disk;
use graph_model::Entry;
use heap_core::{GraphError, Heap};
use heap_io::{Sink, put_all};
use script_text::reply_line;
use std::alloc::{AllocError, Global};

/// Why a text was not written to its end.
#[derive(Clone, Copy, Debug, PartialEq, Eq)]
pub enum WriteError {
    /// Out of memory.
    NoMemory,
    /// The sink failed.
    SinkFailed,
}

impl From<AllocError> for WriteError {
    ghost from_gives = { λ _ e. e ≡ NoMemory };

    fn from(_: AllocError) -> Self {
        WriteError::NoMemory
    }
}

/// The graph of an open heap fails only for lack of memory.
impl From<GraphError> for WriteError {
    ghost from_gives = { λ _ e. e ≡ NoMemory };

    fn from(_: GraphError) -> Self {
        WriteError::NoMemory
    }
}

impl From<heap_io::SinkFailed> for WriteError {
    ghost from_gives = { λ _ e. e ≡ SinkFailed };

    fn from(_: heap_io::SinkFailed) -> Self {
        WriteError::SinkFailed
    }
}

/// Writes the line of an event and its reply. No line is made for a sink that discards it.
pub fn write_line<K: Sink>(alloc: Global, entry: Entry, sink: &mut K) -> Result<(), WriteError>
    ensures sink { StreamCause (K.faults sink.old) (K.faults sink.new) (result ≡ Err SinkFailed) }
    ensures wrote { IsTrue K.tells → WroteText result (K.written sink.old) (line entry) (K.written sink.new) }
{
    if sink.discards() {
        return Ok(());
    }
    let line = reply_line(alloc, &entry)?;
    Ok(put_all(sink, line.as_bytes())?)
}

/// Writes the text of the heap's graph.
pub fn write_graph<D: Disk, K: Sink>(
    alloc: Global,
    heap: &Heap<D>,
    sink: &mut K,
) -> Result<(), WriteError>
    requires unfailed { failed_at heap.now ≡ None }
    ensures sink { StreamCause (K.faults sink.old) (K.faults sink.new) (result ≡ Err SinkFailed) }
    ensures wrote { IsTrue K.tells → (c : Core) → IsCore c heap.now → IsReached c → WroteText result (K.written sink.old) (graph_text (serial c.g0 (sealed c.history))) (K.written sink.new) }
{
    let text = heap.graph(alloc)?;
    Ok(put_all(sink, &text)?)
}

/// How many of the commits that a log holds now came since it held those `before`: none if that is left out, since no event was made.
fn count_since(before: Option<u64>, now: u64) -> u64
    ensures { result ≡ commits_since before now }
{
    match before {
        Some(before) => now.saturating_sub(before),
        None => 0,
    }
}

/// Writes how many more commits than `before` the heap's log holds, and the graph. If `before` is left out, none were made.
pub fn write_recovered<D: Disk, K: Sink>(
    alloc: Global,
    heap: &Heap<D>,
    before: Option<u64>,
    sink: &mut K,
) -> Result<(), WriteError>
    requires unfailed { failed_at heap.now ≡ None }
    ensures sink { StreamCause (K.faults sink.old) (K.faults sink.new) (result ≡ Err SinkFailed) }
    ensures wrote { IsTrue K.tells → (c : Core) → IsCore c heap.now → IsReached c → WroteText result (K.written sink.old) (recovered_line (commits_since before (min (c.before + length (sealed c.history)) greatest)) ++ graph_text (serial c.g0 (sealed c.history))) (K.written sink.new) }
{
    let commits = count_since(before, heap.commits());
    let line = format!(in alloc; "recovered {commits}\n")?;
    put_all(sink, line.as_bytes())?;
    write_graph(alloc, heap, sink)
}
