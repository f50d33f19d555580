//! What a run of workers writes, once they have ended.
ghost use Rattle.std.specs.Prelude.{◌≡◌, ◌≢◌, None, Err, IsTrue};
ghost use Rattle.core_laws.specs.Valid.{IsReached};
ghost use Rattle.heap_core.specs.HeapState.{failed_at};
ghost use Rattle.heap_core.specs.Refinement.{IsCore};
ghost use Rattle.heap_history.specs.Recorded.{Recorded};
ghost use Rattle.heap_model.specs.Core.{Core};
ghost use Rattle.heap_program.specs.Causes.{StreamCause};
ghost use Rattle.heap_program.specs.Headline.{IsEndOfPlay};
ghost use Rattle.heap_program.specs.Output.{WroteText};
ghost use Rattle.heap_program.specs.Play.{lines_text};
ghost use Rattle.thread_program.specs.Written.{WritesAll};

use disk_model::Disk;
use heap_core::Heap;
use heap_history::History;
use heap_io::Sink;
use heap_program::{Status, WriteError, status_after, write_graph, write_line};
use std::alloc::Global;

/// Writes the lines of the heap's history, in its order, and its graph unless the disk has failed.
pub fn write_all<D: Disk, K: Sink>(alloc: Global, heap: &Heap<D>, sink: &mut K) -> Status
    ensures end { IsEndOfPlay result }
    ensures sink { StreamCause (K.faults sink.old) (K.faults sink.new) (result ≡ Status.WriteFault) }
    ensures failed { result ≡ Status.DiskFault → failed_at heap.now ≢ None }
    ensures done { result ≡ Status.Done → failed_at heap.now ≡ None }
    ensures wrote { IsTrue K.tells → (c : Core) → IsCore c heap.now → IsReached c → WritesAll c result (K.written sink.old) (K.written sink.new) }
{
    if let Err(e) = write_lines(alloc, heap.history(), sink) {
        return Status::from(e);
    }
    if heap.failed().is_some() {
        return Status::DiskFault;
    }
    status_after(write_graph(alloc, heap, sink))
}

/// Writes the lines of a history, in its order.
fn write_lines<K: Sink>(alloc: Global, history: &History, sink: &mut K) -> Result<(), WriteError>
    ensures sink { StreamCause (K.faults sink.old) (K.faults sink.new) (result ≡ Err WriteError.SinkFailed) }
    ensures wrote { IsTrue K.tells → WroteText result (K.written sink.old) (lines_text history.now.entries) (K.written sink.new) }
{
    for entry in history.iter() {
        write_line(alloc, entry, sink)?;
    }
    Ok(())
}
