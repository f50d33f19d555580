//! A session from its opening to its end.
ghost use Rattle.std.specs.Prelude.{◌≡◌, ◌≢◌, ◌⊎◌, ℕ, ◌<◌, List, [], ◌++◌, Ok, Err, IsTrue, IsFalse};
ghost use Rattle.counts.specs.Count.{Rose};
ghost use Rattle.heap_core.specs.HeapState.{heap_disk};
ghost use Rattle.heap_core.specs.Refinement.{IsCore, IsHeap};
ghost use Rattle.heap_model.specs.Core.{Core};
ghost use Rattle.image_plan.specs.declared.superblock.Super.{Super};
ghost use Rattle.heap_program.specs.declared.play.Halt.TheVariants as halt;
ghost use Rattle.heap_program.specs.Causes.{DiskRose, StreamCause, RunsDisk, CountsStay, IsFaultless, PlaysDisk};
ghost use Rattle.heap_program.specs.Headline.{OfTold, IsOfImage};
ghost use Rattle.heap_program.specs.Play.{IsRunning};
ghost use Rattle.heap_program.specs.Stored.{IsStored, stored_core, stored_calls};
ghost use Rattle.heap_program.specs.Refusals.{AnswersImage};
ghost use Rattle.session_program.specs.Ending.{IsSessionEnd, session_device, IsUncut, next_of};
ghost use Rattle.session_program.specs.Session.{OfInput, ServesLines, ServesLinesOn, Serves, ServesOn, ServesHeap};
ghost use Rattle.session_program.specs.Parts.{ServesParts};
ghost use Rattle.session_program.specs.Served.{IsServed};

use crate::answer::{answer, refuse};
use crate::ending::{Break, break_status};
use crate::parts::{Next, parts_session};
use disk_model::Disk;
use heap_core::Heap;
use heap_io::{Sink, Source, put_all};
use heap_program::{Halt, Status, play_ending};
use line_reader::{LineReader, Taken};
use std::alloc::Global;

/// More lines than a session can have: so the number of a line can be counted.
const MOST_TURNS: u64 = u64::MAX - 1;

/// Serves a session on the existing heap: answers the lines that `source` gives, each before the next one is read. A line `reopen`
/// divides it: the heap is closed, which is reported, and opened again for the lines that follow. After the last line the sessions that have a
/// transaction abort, ascending, and pending records are forced.
pub fn serve<D: Disk, S: Source, K: Sink>(
    alloc: Global,
    disk: D,
    source: &mut S,
    sink: &mut K,
) -> (Status, D)
    ensures end { IsSessionEnd result.0 }
    // Each fault comes from outside.
    ensures read_fault { StreamCause (S.faults source.old) (S.faults source.new) (result.0 ≡ Status.ReadFault) }
    ensures write_fault { StreamCause (K.faults sink.old) (K.faults sink.new) (result.0 ≡ Status.WriteFault) }
    ensures disk_fault { RunsDisk D.Disk disk result.1 (result.0 ≡ Status.DiskFault) }
    // A session that is done, or was refused by its image, or whose source failed, met no fault of the disk.
    ensures unfaulted { IsFaultless result.0 → CountsStay D.Disk disk result.1 }
    ensures restarts { IsTrue D.tells → D.restarts result.1 ≡ D.restarts disk }

    // Parts were served, each on the disk that the one before it left: what is promised of a session without such a line is promised of each.
    ensures parts { (held : List ℕ) × ServesParts D.Disk S.Source K.Sink (record { disk = disk; held = []; source = source.old; sink = sink.old }) result.0 (record { disk = result.1; held = held; source = source.new; sink = sink.new }) }
{
    let mut reader = match LineReader::new(alloc) {
        Ok(reader) => reader,
        Err(_) => return (Status::NoMemory, disk),
    };
    let mut disk = disk;
    for part in 0..MOST_TURNS {
        let (status, left, next) = serve_part(alloc, disk, &mut reader, source, sink);
        disk = left;
        match next {
            Next::End => return (status, disk),
            Next::Reopen => {
                if put_all(sink, b"reopen -> closed\n").is_err() {
                    return (Status::WriteFault, disk);
                }
            }
        }
    }
    // There are never that many parts either.
    (Status::NoMemory, disk)
}

/// Serves a part of it: opens the heap, and answers lines up to a `reopen` that is allowed, or to the end of the input.
fn serve_part<D: Disk, S: Source, K: Sink>(
    alloc: Global,
    disk: D,
    reader: &mut LineReader,
    source: &mut S,
    sink: &mut K,
) -> (Status, D, Next)
    requires fresh { IsTrue S.tells → IsFalse reader.old.passing }
    ensures fresh { result.2 ≡ Next.Reopen → IsTrue S.tells → IsFalse reader.new.passing }
    ensures done { result.2 ≡ Next.Reopen → result.0 ≡ Status.Done }
    ensures end { IsSessionEnd result.0 }
    // Each fault comes from outside.
    ensures read_fault { StreamCause (S.faults source.old) (S.faults source.new) (result.0 ≡ Status.ReadFault) }
    ensures write_fault { StreamCause (K.faults sink.old) (K.faults sink.new) (result.0 ≡ Status.WriteFault) }
    ensures disk_fault { RunsDisk D.Disk disk result.1 (result.0 ≡ Status.DiskFault) }
    // A session that is done, or was refused by its image, or whose source failed, met no fault of the disk.
    ensures unfaulted { IsFaultless result.0 → CountsStay D.Disk disk result.1 }

    // On any disk: the heap was not opened, and nothing was read or written; or the lines that were taken were answered in their order.
    ensures serves { ((result.0 ≢ Status.Done) × (source.new ≡ source.old) × (sink.new ≡ sink.old)) ⊎ OfInput S.tells result.2 (reader.old.held ++ S.left source.old) (reader.new.held ++ S.left source.new) (S.left source.new) (λ part rest. ServesHeap D.Disk (IsOfImage D.tells (D.bytes disk)) S.tells part rest result.1 result.0 result.2 K.tells (K.written sink.old) (K.written sink.new)) }

    // On a modelled disk, with the existing heap: nothing was done to the disk but in the opening and in events, and each moment of it is described.
    ensures served { OfTold D.tells (D.bytes disk) (D.may_leave disk) ((stored : IsStored (D.bytes disk)) → OfInput S.tells result.2 (reader.old.held ++ S.left source.old) (reader.new.held ++ S.left source.new) (S.left source.new) (λ part rest. IsServed D.Disk (stored_calls stored) S.tells part rest (stored_core stored) disk result.1 result.0 result.2 K.tells (K.written sink.old) (K.written sink.new))) }
    // A status against the image is true of it, and an image that can't be opened gives its own; nothing is read or written then. What becomes of it.
    ensures image { AnswersImage D.Disk (Unit {0}) 0 disk result.1 result.0 ((source.new ≡ source.old) × (sink.new ≡ sink.old)) }
    // Without a fault it is done, if memory suffices.
    ensures complete { OfTold D.tells (D.bytes disk) (D.may_leave disk) (IsStored (D.bytes disk) → ¬ Rose (S.faults source.old) (S.faults source.new) → ¬ Rose (K.faults sink.old) (K.faults sink.new)
        → ¬ DiskRose (D.faults disk) (D.stops disk) (D.faults result.1) (D.stops result.1) → (result.0 ≡ Status.Done) ⊎ (result.0 ≡ Status.NoMemory)) }
{
    let mut heap = match Heap::open(alloc, disk) {
        Ok(heap) => heap,
        Err((e, disk)) => return (Status::from(e), disk, Next::End),
    };
    match serve_all(alloc, &mut heap, reader, source, sink) {
        Ok(next) => (Status::Done, heap.close(), next),
        Err(ended) => (break_status(ended), heap.close(), Next::End),
    }
}

/// Answers lines, and at the end of the input makes the events that end a session.
fn serve_all<D: Disk, S: Source, K: Sink>(
    alloc: Global,
    heap: &mut Heap<D>,
    reader: &mut LineReader,
    source: &mut S,
    sink: &mut K,
) -> Result<Next, Break>
    requires fresh { IsTrue S.tells → IsFalse reader.old.passing }
    ensures fresh { result ≡ Ok Next.Reopen → IsTrue S.tells → IsFalse reader.new.passing }
    ensures disk { PlaysDisk D.Disk (heap_disk heap.old) (heap_disk heap.new) (session_device result) (IsUncut result) }
    ensures source { StreamCause (S.faults source.old) (S.faults source.new) (result ≡ Err Break.ReadFault) }
    ensures sink { StreamCause (K.faults sink.old) (K.faults sink.new) (result ≡ Err (Break.Halted halt.WriteFault)) }
    ensures core { (c : Core) → IsCore c heap.old → IsRunning c → OfInput S.tells (next_of result) (reader.old.held ++ S.left source.old) (reader.new.held ++ S.left source.new) (S.left source.new) (λ part rest. Serves S.tells part rest c heap.new K.tells (K.written sink.old) (K.written sink.new) result) }
    ensures plays { IsTrue D.tells → (of : Super) (c : Core) → IsHeap of c heap.old → IsRunning c → OfInput S.tells (next_of result) (reader.old.held ++ S.left source.old) (reader.new.held ++ S.left source.new) (S.left source.new) (λ part rest. ServesOn of S.tells part rest c heap.old heap.new K.tells (K.written sink.old) (K.written sink.new) result) }
{
    match serve_lines(alloc, heap, reader, source, sink)? {
        Next::Reopen => Ok(Next::Reopen),
        Next::End => {
            play_ending(alloc, heap, sink)?;
            Ok(Next::End)
        }
    }
}

/// Answers one line after another, up to one that divides the session.
fn serve_lines<D: Disk, S: Source, K: Sink>(
    alloc: Global,
    heap: &mut Heap<D>,
    reader: &mut LineReader,
    source: &mut S,
    sink: &mut K,
) -> Result<Next, Break>
    requires fresh { IsTrue S.tells → IsFalse reader.old.passing }
    ensures fresh { result ≡ Ok Next.Reopen → IsTrue S.tells → IsFalse reader.new.passing }
    ensures disk { PlaysDisk D.Disk (heap_disk heap.old) (heap_disk heap.new) (session_device result) (IsUncut result) }
    ensures source { StreamCause (S.faults source.old) (S.faults source.new) (result ≡ Err Break.ReadFault) }
    ensures sink { StreamCause (K.faults sink.old) (K.faults sink.new) (result ≡ Err (Break.Halted halt.WriteFault)) }
    ensures core { (c : Core) → IsCore c heap.old → IsRunning c → OfInput S.tells (next_of result) (reader.old.held ++ S.left source.old) (reader.new.held ++ S.left source.new) (S.left source.new) (λ part rest. ServesLines S.tells part rest c heap.new K.tells (K.written sink.old) (K.written sink.new) result) }
    ensures plays { IsTrue D.tells → (of : Super) (c : Core) → IsHeap of c heap.old → IsRunning c → OfInput S.tells (next_of result) (reader.old.held ++ S.left source.old) (reader.new.held ++ S.left source.new) (S.left source.new) (λ part rest. ServesLinesOn of S.tells part rest c heap.old heap.new K.tells (K.written sink.old) (K.written sink.new) result) }
{
    let mut number = 1;
    for turn in 0..MOST_TURNS {
        match reader.next(alloc, source)? {
            Taken::Line(text) if parts_session(heap, &text) => return Ok(Next::Reopen),
            Taken::Line(text) => answer(alloc, heap, number, &text, sink)?,
            Taken::TooLong => refuse(alloc, number, sink)?,
            Taken::Part => continue,
            Taken::End => return Ok(Next::End),
        }
        number += 1;
    }
    // There are never that many turns; a session that took them would have used up its memory.
    Err(Break::Halted(Halt::NoMemory))
}
