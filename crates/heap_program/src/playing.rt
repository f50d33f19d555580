//! The command that plays a script, on a new heap or on the existing one.
ghost use Rattle.std.specs.Prelude.{◌≡◌, ◌≢◌, ◌⊎◌, ℕ, ◌<◌, List, [], None, Some, Ok, Err, IfOk, IfErr, IfSome, IsTrue, OnOk};
ghost use Rattle.counts.specs.Count.{Rose};
ghost use Rattle.disk_model.specs.Disk.{Only};
ghost use Rattle.image_plan.specs.Plan.{image_size};
ghost use Rattle.script_text.specs.declared.line.Line.{Line};
ghost use Rattle.script_text.specs.declared.script.ScriptError.TheVariants.{Fault};
ghost use Rattle.command_words.specs.Limits.{IsPages};
ghost use Rattle.heap_program.specs.Causes.{StreamCause, RunsDisk, CountsStay, IsFaultless, IsInputError, IsOpenedEnd, FailsByScript};
ghost use Rattle.heap_program.specs.Headline.{OfTold, IsPlayed, IsEndOfPlay, PrintsRun, PrintsSome, IsOfImage, IsOfOwnImage, Runs, CanPlay, IsUntouching, EndsUnread, EndsUnmade, restarts_asked, starts_asked, stop_after};
ghost use Rattle.heap_program.specs.Playable.{IsScript, IsReadFrom};
ghost use Rattle.heap_program.specs.Refusals.{AnswersImage};
ghost use Rattle.heap_program.specs.Stored.{IsStored, stored_core, stored_calls};
ghost use Rattle.heap_model.specs.Ending.{all_events};
ghost use Rattle.heap_program.specs.Output.{early_end};
ghost use Rattle.script_text.specs.Line.{events};
ghost use Rattle.script_text.specs.Script.{script};

use crate::again::start_again;
use crate::output::write_graph;
use crate::play::{Halt, play_all, play_lines};
use crate::status::{Status, status_after};
use command_words::Stop;
use disk_model::{Disk, FuseDisk};
use heap_core::{Heap, OpenError};
use heap_io::{Sink, Source, take_all};
use script_text::{Line, MOST_BYTES, read_script};
use std::alloc::Global;

/// The bytes of the log of a new heap.
pub const LOG_BYTES: u32 = 1_048_576;

/// The number of its first transaction.
pub const FIRST: u32 = 1;

/// Plays the script that `source` gives, on a new heap with `fresh` pages in each space, or on the existing one.
pub fn run_play<D: Disk, S: Source, K: Sink>(
    alloc: Global,
    fresh: Option<u32>,
    stop: Option<Stop>,
    disk: D,
    source: &mut S,
    sink: &mut K,
) -> (Status, D)
    requires { IfSome fresh IsPages }

    ensures usage { result.0 ≢ Status.Usage }
    ensures script_fault { IsTrue S.tells → (line : ℕ) → result.0 ≡ Status.Script line → script (S.left source.old) ≡ Err (Fault line) }
    ensures script_told { IsTrue S.tells → (line : ℕ) → script (S.left source.old) ≡ Err (Fault line) → EndsUnread (Status.Script line) result.0 }
    ensures too_small { (size need : ℕ) → result.0 ≡ Status.TooSmall size need → (pages : ℕ) × (fresh ≡ Some pages) × (size ≡ D.extent disk) × (need ≡ image_size pages LOG_BYTES) × (size < need) }
    ensures small_told { (pages : ℕ) → fresh ≡ Some pages → D.extent disk < image_size pages LOG_BYTES → EndsUnmade (Status.TooSmall (D.extent disk) (image_size pages LOG_BYTES)) result.0 }
    ensures read_fault { StreamCause (S.faults source.old) (S.faults source.new) (result.0 ≡ Status.ReadFault) }
    ensures write_fault { StreamCause (K.faults sink.old) (K.faults sink.new) (result.0 ≡ Status.WriteFault) }
    ensures disk_fault { RunsDisk D.Disk disk result.1 (result.0 ≡ Status.DiskFault) }
    ensures unfaulted { stop ≡ None → IsFaultless result.0 → CountsStay D.Disk disk result.1 }
    ensures untouched { IsUntouching result.0 → (result.1 ≡ disk) × (sink.new ≡ sink.old) }
    ensures read_whole { IsTrue S.tells → result.0 ≡ Status.Done → S.left source.new ≡ [] }

    ensures headline { OfTold D.tells (D.bytes disk) (D.may_leave disk)
        (Runs D.Disk fresh stop (IsReadFrom S.tells (S.left source.old)) disk result.1 result.0 K.tells (K.written sink.old) (K.written sink.new)) }
    ensures prints { IsTrue K.tells
        → ((result.0 ≢ Status.Done) × (K.written sink.new ≡ K.written sink.old)) ⊎ ((lines : List Line) × IsReadFrom S.tells (S.left source.old) lines × PrintsRun (IsOfOwnImage fresh D.tells (D.bytes disk)) (stop_after stop) lines result.0 (K.written sink.old) (K.written sink.new)) }
    // What is said against an image that can't be opened, and becomes of it.
    ensures image { AnswersImage D.Disk (fresh ≡ None) (restarts_asked stop) disk result.1 result.0 (sink.new ≡ sink.old) }
    // If there is a heap, or one was to be made on a disk that is large enough, and the script is good, the run ends as a play.
    ensures complete { OfTold D.tells (D.bytes disk) (D.may_leave disk) (CanPlay fresh (D.extent disk) (D.bytes disk)
        → IsTrue S.tells → (lines : List Line) → script (S.left source.old) ≡ Ok lines → ¬ Rose (S.faults source.old) (S.faults source.new) → IsEndOfPlay result.0) }
{
    let script = match read_input(alloc, source) {
        Ok(script) => script,
        Err(status) => return (status, disk),
    };
    match fresh {
        None => play_script(alloc, disk, stop, &script, sink),
        Some(pages) => match Heap::format(disk, pages, LOG_BYTES, FIRST) {
            Ok(disk) => play_script(alloc, disk, stop, &script, sink),
            Err((e, disk)) => (Status::from(e), disk),
        },
    }
}

/// Plays a script on the existing heap, on a disk that is to stop or not.
fn play_script<D: Disk, K: Sink>(
    alloc: Global,
    disk: D,
    stop: Option<Stop>,
    script: &[Line],
    sink: &mut K,
) -> (Status, D)
    requires { IsScript script.now }

    ensures end { IsOpenedEnd result.0 }
    ensures disk { RunsDisk D.Disk disk result.1 (result.0 ≡ Status.DiskFault) }
    ensures unfaulted { stop ≡ None → IsFaultless result.0 → CountsStay D.Disk disk result.1 }
    ensures sink { StreamCause (K.faults sink.old) (K.faults sink.new) (result.0 ≡ Status.WriteFault) }
    ensures image { AnswersImage D.Disk (Unit {0}) (restarts_asked stop) disk result.1 result.0 (sink.new ≡ sink.old) }
    ensures prints { IsTrue K.tells → PrintsSome (IsOfImage D.tells (D.bytes disk)) (stop_after stop) script.now result.0 (K.written sink.old) (K.written sink.new) }
    ensures played { IsTrue D.tells → (stored : IsStored (D.bytes disk)) → Only (D.bytes disk) (D.may_leave disk)
        → IsPlayed D.Disk stop (stored_calls stored) (stored_core stored) (all_events (stop_after stop) (stored_core stored) (events script.now)) disk result.1 result.0 K.tells (K.written sink.old) (K.written sink.new) }
{
    match stop {
        None => play_whole(alloc, disk, script, sink),
        Some(stop) => play_stopped(alloc, disk, stop, script, sink),
    }
}

/// The script, read to its end.
pub fn read_input<S: Source>(alloc: Global, source: &mut S) -> Result<Vec<Line>, Status>
    ensures status { IfErr result IsInputError }
    ensures cause { StreamCause (S.faults source.old) (S.faults source.new) (result ≡ Err Status.ReadFault) }
    ensures script { IfOk result (λ lines. (bytes : List ℕ) × (script bytes ≡ Ok lines.items) × (IsTrue S.tells → bytes ≡ S.left source.old)) }
    ensures end { IsTrue S.tells → OnOk result (S.left source.new ≡ []) }
    ensures fault { IsTrue S.tells → IfErr result (FailsByScript (S.left source.old)) }
{
    let bytes = take_all(alloc, source, MOST_BYTES)?;
    Ok(read_script(alloc, &bytes)?)
}

/// Plays a script on a disk that isn't asked to stop, with the events that end a run.
fn play_whole<D: Disk, K: Sink>(
    alloc: Global,
    disk: D,
    script: &[Line],
    sink: &mut K,
) -> (Status, D)
    requires { IsScript script.now }

    ensures end { IsOpenedEnd result.0 }
    ensures disk { RunsDisk D.Disk disk result.1 (result.0 ≡ Status.DiskFault) }
    ensures unfaulted { IsFaultless result.0 → CountsStay D.Disk disk result.1 }
    ensures sink { StreamCause (K.faults sink.old) (K.faults sink.new) (result.0 ≡ Status.WriteFault) }
    ensures image { AnswersImage D.Disk (Unit {0}) 0 disk result.1 result.0 (sink.new ≡ sink.old) }
    ensures prints { IsTrue K.tells → PrintsSome (IsOfImage D.tells (D.bytes disk)) None script.now result.0 (K.written sink.old) (K.written sink.new) }
    ensures played { IsTrue D.tells → (stored : IsStored (D.bytes disk)) → Only (D.bytes disk) (D.may_leave disk)
        → IsPlayed D.Disk None (stored_calls stored) (stored_core stored) (all_events None (stored_core stored) (events script.now)) disk result.1 result.0 K.tells (K.written sink.old) (K.written sink.new) }
{
    let mut heap = match Heap::open(alloc, disk) {
        Ok(heap) => heap,
        Err((e, disk)) => return (Status::from(e), disk),
    };
    match play_all(alloc, &mut heap, script, sink) {
        Ok(()) => {
            let status = status_after(write_graph(alloc, &heap, sink));
            (status, heap.close())
        }
        Err(halt) => (Status::from(halt), heap.close()),
    }
}

/// Plays a script on a disk that stops, and opens the heap again.
fn play_stopped<D: Disk, K: Sink>(
    alloc: Global,
    disk: D,
    stop: Stop,
    script: &[Line],
    sink: &mut K,
) -> (Status, D)
    requires { IsScript script.now }

    ensures end { IsOpenedEnd result.0 }
    ensures disk { RunsDisk D.Disk disk result.1 (result.0 ≡ Status.DiskFault) }
    ensures sink { StreamCause (K.faults sink.old) (K.faults sink.new) (result.0 ≡ Status.WriteFault) }
    ensures image { AnswersImage D.Disk (Unit {0}) (starts_asked stop.again) disk result.1 result.0 (sink.new ≡ sink.old) }
    ensures prints { IsTrue K.tells → PrintsSome (IsOfImage D.tells (D.bytes disk)) (Some stop.after) script.now result.0 (K.written sink.old) (K.written sink.new) }
    ensures played { IsTrue D.tells → (stored : IsStored (D.bytes disk)) → Only (D.bytes disk) (D.may_leave disk)
        → IsPlayed D.Disk (Some stop) (stored_calls stored) (stored_core stored) (events script.now) disk result.1 result.0 K.tells (K.written sink.old) (K.written sink.new) }
{
    let mut heap = match Heap::open(alloc, FuseDisk::new(disk, stop.after)) {
        Ok(heap) => heap,
        Err((e, fuse)) => {
            // No event was made, so nothing was committed since.
            if e == OpenError::Stopped {
                return start_again(alloc, fuse, stop.again, None, sink);
            }
            return (Status::from(e), fuse.into_inner());
        }
    };
    let before = heap.commits();
    let played = play_lines(alloc, &mut heap, script, sink);
    match early_end(played) {
        None => start_again(alloc, heap.close(), stop.again, Some(before), sink),
        Some(status) => (status, heap.close().into_inner()),
    }
}

/// The status of a run that is to stop, if it ends before the disk is restarted.
fn early_end(played: Result<(), Halt>) -> Option<Status>
    ensures { result ≡ early_end played }
{
    match played {
        Ok(()) | Err(Halt::Stopped) => None,
        Err(halt) => Some(Status::from(halt)),
    }
}
