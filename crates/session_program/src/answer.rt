//! Answers one line.
ghost use Rattle.std.specs.Prelude.{◌≡◌, Some, Ok, Err, IsTrue};
ghost use Rattle.heap_core.specs.HeapState.{heap_disk};
ghost use Rattle.heap_core.specs.Refinement.{IsCore, IsHeap};
ghost use Rattle.heap_model.specs.Core.{Core};
ghost use Rattle.image_plan.specs.declared.superblock.Super.{Super};
ghost use Rattle.heap_program.specs.Causes.{StreamCause, played_device, PlaysDisk};
ghost use Rattle.heap_program.specs.Output.{WroteText};
ghost use Rattle.heap_program.specs.Play.{IsRunning};
ghost use Rattle.heap_program.specs.declared.output.WriteError.TheVariants.{SinkFailed};
ghost use Rattle.session_program.specs.Lines.{fault_line, said_against};
ghost use Rattle.session_program.specs.Session.{Answers, AnswersOn};

use crate::parts::asks_reopen;
use disk_model::Disk;
use heap_core::Heap;
use heap_io::{Sink, put_all};
use heap_program::{Halt, WriteError, play_line};
use script_text::read_text;
use std::alloc::Global;

/// Answers a line: its events are made, and their lines written. An empty line has no answer. One that is not in the grammar is answered
/// so, and so is a `reopen` that was not allowed then.
pub fn answer<D: Disk, K: Sink>(
    alloc: Global,
    heap: &mut Heap<D>,
    number: u64,
    text: &[u8],
    sink: &mut K,
) -> Result<(), Halt>
    ensures disk { PlaysDisk D.Disk (heap_disk heap.old) (heap_disk heap.new) (played_device result) (result ≡ Ok tt) }
    ensures sink { StreamCause (K.faults sink.old) (K.faults sink.new) (result ≡ Err Halt.WriteFault) }
    ensures core { (c : Core) → IsCore c heap.old → IsRunning c → Answers c number (Some text.now) heap.new K.tells (K.written sink.old) (K.written sink.new) result }
    ensures plays { IsTrue D.tells → (of : Super) (c : Core) → IsHeap of c heap.old → IsRunning c → AnswersOn of c number (Some text.now) heap.old heap.new K.tells (K.written sink.old) (K.written sink.new) result }
{
    if text.is_empty() {
        return Ok(());
    }
    match read_text(alloc, text)? {
        Some(line) => play_line(alloc, heap, line, sink),
        None => Ok(object(alloc, number, text, sink)?),
    }
}

/// Writes the answer to a line that is not in the grammar.
fn object<K: Sink>(alloc: Global, number: u64, text: &[u8], sink: &mut K) -> Result<(), WriteError>
    ensures sink { StreamCause (K.faults sink.old) (K.faults sink.new) (result ≡ Err SinkFailed) }
    ensures wrote { IsTrue K.tells → WroteText result (K.written sink.old) (said_against number text.now) (K.written sink.new) }
{
    if asks_reopen(text) {
        return Ok(put_all(sink, b"reopen -> unfinished\n")?);
    }
    refuse(alloc, number, sink)
}

/// Writes that a line is not in the grammar.
pub fn refuse<K: Sink>(alloc: Global, number: u64, sink: &mut K) -> Result<(), WriteError>
    ensures sink { StreamCause (K.faults sink.old) (K.faults sink.new) (result ≡ Err SinkFailed) }
    ensures wrote { IsTrue K.tells → WroteText result (K.written sink.old) (fault_line number) (K.written sink.new) }
{
    let line = format!(in alloc; "script fault at line {number}\n")?;
    Ok(put_all(sink, line.as_bytes())?)
}
