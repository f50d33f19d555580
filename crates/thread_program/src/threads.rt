//! The command that plays a script by its workers, on a new heap or on the existing one.
ghost use Rattle.std.specs.Prelude.{◌≡◌, ◌≢◌, ◌⊎◌, ℕ, ◌<◌, List, [], None, Some, Ok, Err, IfSome, IsTrue};
ghost use Rattle.counts.specs.Count.{Rose};
ghost use Rattle.disk_model.specs.Disk.{Only};
ghost use Rattle.image_plan.specs.declared.superblock.Super.{Super};
ghost use Rattle.image_plan.specs.Plan.{image_size};
ghost use Rattle.command_words.specs.Limits.{IsPages};
ghost use Rattle.heap_core.specs.HeapState.{failed_at, heap_disk};
ghost use Rattle.heap_core.specs.Refinement.{IsCore, IsHeap};
ghost use Rattle.heap_model.specs.Core.{Core};
ghost use Rattle.heap_program.specs.Causes.{DiskRose, StreamCause, RunsDisk, CountsStay, IsFaultless, IsOpenedEnd};
ghost use Rattle.heap_program.specs.Headline.{OfTold, IsEndOfPlay, IsOfImage, IsOfOwnImage, CanPlay, IsUntouching, EndsUnread, EndsUnmade};
ghost use Rattle.heap_program.specs.Play.{IsRunning};
ghost use Rattle.heap_program.specs.Playable.{IsScript, IsReadFrom};
ghost use Rattle.heap_program.specs.Refusals.{AnswersImage};
ghost use Rattle.heap_program.specs.Stored.{IsStored, stored_core, stored_calls};
ghost use Rattle.script_text.specs.declared.line.Line.{Line};
ghost use Rattle.script_text.specs.declared.script.ScriptError.TheVariants.{Fault};
ghost use Rattle.script_text.specs.Script.{script};
ghost use Rattle.thread_play.specs.Follows.{StaysDisk};
ghost use Rattle.thread_program.specs.Together.{RunsByWorkers, StepsTogether, IsPlayedTogether, EndsUnwritten, PrintsTogether, PrintsSomeTogether, RunsTogether};

use crate::ending::make_ending;
use crate::writing::write_all;
use disk_model::Disk;
use heap_core::Heap;
use heap_io::{Sink, Source};
use heap_program::{FIRST, LOG_BYTES, Status, read_input};
use heap_workers::Gate;
use script_text::Line;
use std::alloc::Global;
use std::sync::Wait;
use std::thread::Threads;
use thread_play::play_together;

/// Plays the script that `source` gives with a thread for each of its workers, if one can be started, on a new heap with `fresh` pages in
/// each space, or on the existing one. All is written when the last worker has ended.
pub fn run_threads<D: Disk + Send, S: Source, K: Sink, G: Gate + Sync, R: Threads + Wait + Sync>(
    rt: &R,
    alloc: Global,
    fresh: Option<u32>,
    tries: u32,
    disk: D,
    source: &mut S,
    sink: &mut K,
    gate: &G,
) -> (Status, D)
    requires paged { IfSome fresh IsPages }
    requires tries { 0 < tries }

    ensures usage { result.0 ≢ Status.Usage }
    ensures script_fault { IsTrue S.tells → (line : ℕ) → result.0 ≡ Status.Script line → script (S.left source.old) ≡ Err (Fault line) }
    ensures script_told { IsTrue S.tells → (line : ℕ) → script (S.left source.old) ≡ Err (Fault line) → EndsUnread (Status.Script line) result.0 }
    ensures too_small { (size need : ℕ) → result.0 ≡ Status.TooSmall size need → (pages : ℕ) × (fresh ≡ Some pages) × (size ≡ D.extent disk) × (need ≡ image_size pages LOG_BYTES) × (size < need) }
    ensures small_told { (pages : ℕ) → fresh ≡ Some pages → D.extent disk < image_size pages LOG_BYTES → EndsUnmade (Status.TooSmall (D.extent disk) (image_size pages LOG_BYTES)) result.0 }
    ensures read_fault { StreamCause (S.faults source.old) (S.faults source.new) (result.0 ≡ Status.ReadFault) }
    ensures write_fault { StreamCause (K.faults sink.old) (K.faults sink.new) (result.0 ≡ Status.WriteFault) }
    ensures disk_fault { RunsDisk D.Disk disk result.1 (result.0 ≡ Status.DiskFault) }
    ensures unfaulted { IsFaultless result.0 → CountsStay D.Disk disk result.1 }
    ensures untouched { IsUntouching result.0 → (result.1 ≡ disk) × (sink.new ≡ sink.old) }
    ensures read_whole { IsTrue S.tells → result.0 ≡ Status.Done → S.left source.new ≡ [] }

    ensures headline { OfTold D.tells (D.bytes disk) (D.may_leave disk)
        (RunsTogether D.Disk fresh tries (IsReadFrom S.tells (S.left source.old)) disk result.1 result.0 K.tells (K.written sink.old) (K.written sink.new)) }
    ensures prints { EndsUnwritten result.0 K.tells (K.written sink.old) (K.written sink.new)
        ⊎ ((lines : List Line) × IsReadFrom S.tells (S.left source.old) lines × PrintsTogether (IsOfOwnImage fresh D.tells (D.bytes disk)) (DiskRose (D.faults disk) (D.stops disk) (D.faults result.1) (D.stops result.1)) tries lines result.0 K.tells (K.written sink.old) (K.written sink.new)) }
    // What is said against an image that can't be opened, and becomes of it.
    ensures image { AnswersImage D.Disk (fresh ≡ None) 0 disk result.1 result.0 (sink.new ≡ sink.old) }
    ensures complete { OfTold D.tells (D.bytes disk) (D.may_leave disk) (CanPlay fresh (D.extent disk) (D.bytes disk)
        → IsTrue S.tells → (lines : List Line) → script (S.left source.old) ≡ Ok lines → ¬ Rose (S.faults source.old) (S.faults source.new) → IsEndOfPlay result.0) }
{
    let script = match read_input(alloc, source) {
        Ok(script) => script,
        Err(status) => return (status, disk),
    };
    match fresh {
        None => play_by_workers(rt, alloc, tries, disk, &script, sink, gate),
        Some(pages) => match Heap::format(disk, pages, LOG_BYTES, FIRST) {
            Ok(disk) => play_by_workers(rt, alloc, tries, disk, &script, sink, gate),
            Err((e, disk)) => (Status::from(e), disk),
        },
    }
}

/// Plays a script by its workers on the existing heap.
fn play_by_workers<D: Disk + Send, K: Sink, G: Gate + Sync, R: Threads + Wait + Sync>(
    rt: &R,
    alloc: Global,
    tries: u32,
    disk: D,
    script: &[Line],
    sink: &mut K,
    gate: &G,
) -> (Status, D)
    requires script { IsScript script.now }
    requires tries { 0 < tries }

    ensures end { IsOpenedEnd result.0 }
    ensures disk { RunsDisk D.Disk disk result.1 (result.0 ≡ Status.DiskFault) }
    ensures unfaulted { IsFaultless result.0 → CountsStay D.Disk disk result.1 }
    ensures sink { StreamCause (K.faults sink.old) (K.faults sink.new) (result.0 ≡ Status.WriteFault) }
    ensures image { AnswersImage D.Disk (Unit {0}) 0 disk result.1 result.0 (sink.new ≡ sink.old) }
    ensures prints { PrintsSomeTogether (IsOfImage D.tells (D.bytes disk)) (DiskRose (D.faults disk) (D.stops disk) (D.faults result.1) (D.stops result.1)) tries script.now result.0 K.tells (K.written sink.old) (K.written sink.new) }
    ensures played { IsTrue D.tells → (stored : IsStored (D.bytes disk)) → Only (D.bytes disk) (D.may_leave disk)
        → IsPlayedTogether D.Disk tries script.now (stored_calls stored) (stored_core stored) disk result.1 result.0 K.tells (K.written sink.old) (K.written sink.new) }
{
    match Heap::open(alloc, disk) {
        Ok(heap) => {
            let (status, heap) = play_opened(rt, alloc, tries, heap, script, sink, gate);
            (status, heap.close())
        }
        Err((e, disk)) => (Status::from(e), disk),
    }
}

/// Plays a script by its workers on an open heap, makes the events that end a run, and writes the outcome of all of them. If a worker runs out of memory
/// nothing is written.
fn play_opened<D: Disk + Send, K: Sink, G: Gate + Sync, R: Threads + Wait + Sync>(
    rt: &R,
    alloc: Global,
    tries: u32,
    heap: Heap<D>,
    script: &[Line],
    sink: &mut K,
    gate: &G,
) -> (Status, Heap<D>)
    requires script { IsScript script.now }
    requires tries { 0 < tries }

    ensures end { IsEndOfPlay result.0 }
    ensures disk { StaysDisk D.Disk (heap_disk heap) (heap_disk result.1) }
    ensures sink { StreamCause (K.faults sink.old) (K.faults sink.new) (result.0 ≡ Status.WriteFault) }
    ensures failed { result.0 ≡ Status.DiskFault → failed_at result.1 ≢ None }
    ensures still { (c : Core) → IsCore c heap → IsRunning c → result.0 ≡ Status.Done → CountsStay D.Disk (heap_disk heap) (heap_disk result.1) }
    ensures caused { (c : Core) → IsCore c heap → IsRunning c → failed_at result.1 ≢ None
        → DiskRose (D.faults (heap_disk heap)) (D.stops (heap_disk heap)) (D.faults (heap_disk result.1)) (D.stops (heap_disk result.1)) ⊎ ((result.0 ≡ Status.NoMemory) × (sink.new ≡ sink.old)) }
    ensures core { (c : Core) → IsCore c heap → IsRunning c → c.history ≡ []
        → (runs : RunsByWorkers tries script.now c result.0 K.tells (K.written sink.old) (K.written sink.new)) × IsCore runs.core result.1 }
    ensures holds { IsTrue D.tells → (of : Super) (c : Core) → IsHeap of c heap → IsRunning c → c.history ≡ []
        → StepsTogether tries script.now of c heap result.1 result.0 K.tells (K.written sink.old) (K.written sink.new) }
{
    let (end, mut heap) = play_together(rt, alloc, heap, script, tries, gate);
    if end.is_err() {
        return (Status::NoMemory, heap);
    }
    if make_ending(alloc, &mut heap).is_err() {
        return (Status::NoMemory, heap);
    }
    let status = write_all(alloc, &heap, sink);
    (status, heap)
}
