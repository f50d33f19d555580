//! The command that plays a load, on a new heap or on the existing one.
ghost use Rattle.std.specs.Prelude.{◌≡◌, ℕ, ◌<◌, ◌≤◌, ◌^◌, None, Some, IfSome, IsTrue};
ghost use Rattle.disk_model.specs.Disk.{Only};
ghost use Rattle.image_plan.specs.Plan.{image_size};
ghost use Rattle.command_words.specs.Limits.{IsPages};
ghost use Rattle.command_words.specs.declared.commands.Command.TheVariants as asked;
ghost use Rattle.heap_program.specs.Causes.{StreamCause, RunsDisk, CountsStay, IsFaultlessLoad, IsOpenedEnd};
ghost use Rattle.heap_program.specs.Commands.{IsEndOf};
ghost use Rattle.heap_program.specs.Headline.{OfTold, IsEndOfPlay, CanPlay, IsUntouching, EndsUnmade};
ghost use Rattle.heap_program.specs.Load.{PlaysLoad, RunsLoad, SummarizesSome};
ghost use Rattle.heap_program.specs.Refusals.{AnswersImage};
ghost use Rattle.heap_program.specs.Stored.{IsStored, stored_core, stored_calls};

use crate::playing::{FIRST, LOG_BYTES};
use crate::rounds::play_load;
use crate::status::{Status, status_after};
use crate::summary::write_summary;
use disk_model::Disk;
use heap_core::Heap;
use heap_io::{Discard, Sink};
use std::alloc::Global;

/// Plays the load of `count` rounds that is made from `seed`, on a new heap with `fresh` pages in each space, or on the existing one.
pub fn run_load<D: Disk, K: Sink>(
    alloc: Global,
    seed: u32,
    count: u32,
    fresh: Option<u32>,
    disk: D,
    sink: &mut K,
) -> (Status, D)
    requires seeded { seed < 2 ^ 31 }
    requires few { count ≤ 100000 }
    requires paged { IfSome fresh IsPages }

    ensures ends { IsEndOf (asked.Load seed count fresh) result.0 }
    ensures too_small { (size need : ℕ) → result.0 ≡ Status.TooSmall size need → (pages : ℕ) × (fresh ≡ Some pages) × (size ≡ D.extent disk) × (need ≡ image_size pages LOG_BYTES) × (size < need) }
    ensures small_told { (pages : ℕ) → fresh ≡ Some pages → D.extent disk < image_size pages LOG_BYTES → EndsUnmade (Status.TooSmall (D.extent disk) (image_size pages LOG_BYTES)) result.0 }
    ensures write_fault { StreamCause (K.faults sink.old) (K.faults sink.new) (result.0 ≡ Status.WriteFault) }
    ensures disk_fault { RunsDisk D.Disk disk result.1 (result.0 ≡ Status.DiskFault) }
    ensures unfaulted { IsFaultlessLoad result.0 → CountsStay D.Disk disk result.1 }
    ensures untouched { IsUntouching result.0 → (result.1 ≡ disk) × (sink.new ≡ sink.old) }

    ensures loads { OfTold D.tells (D.bytes disk) (D.may_leave disk) (RunsLoad D.Disk fresh seed count disk result.1 result.0 K.tells (K.written sink.old) (K.written sink.new)) }
    ensures prints { IsTrue K.tells → SummarizesSome seed count result.0 (K.written sink.old) (K.written sink.new) }
    // What is said against an image that can't be opened, and becomes of it.
    ensures image { AnswersImage D.Disk (fresh ≡ None) 0 disk result.1 result.0 (sink.new ≡ sink.old) }
    // If there is a heap, or one was to be made on a disk that is large enough, the run ends as a play.
    ensures complete { OfTold D.tells (D.bytes disk) (D.may_leave disk) (CanPlay fresh (D.extent disk) (D.bytes disk) → IsEndOfPlay result.0) }
{
    match fresh {
        None => load_whole(alloc, disk, seed, count, sink),
        Some(pages) => match Heap::format(disk, pages, LOG_BYTES, FIRST) {
            Ok(disk) => load_whole(alloc, disk, seed, count, sink),
            Err((e, disk)) => (Status::from(e), disk),
        },
    }
}

/// Plays it on the existing heap, with the events that end a run, and writes its summary.
fn load_whole<D: Disk, K: Sink>(
    alloc: Global,
    disk: D,
    seed: u32,
    count: u32,
    sink: &mut K,
) -> (Status, D)
    requires seeded { seed < 2 ^ 31 }
    requires few { count ≤ 100000 }

    ensures end { IsOpenedEnd result.0 }
    ensures disk { RunsDisk D.Disk disk result.1 (result.0 ≡ Status.DiskFault) }
    ensures unfaulted { IsFaultlessLoad result.0 → CountsStay D.Disk disk result.1 }
    ensures sink { StreamCause (K.faults sink.old) (K.faults sink.new) (result.0 ≡ Status.WriteFault) }
    ensures image { AnswersImage D.Disk (Unit {0}) 0 disk result.1 result.0 (sink.new ≡ sink.old) }
    ensures prints { IsTrue K.tells → SummarizesSome seed count result.0 (K.written sink.old) (K.written sink.new) }
    ensures played { IsTrue D.tells → (stored : IsStored (D.bytes disk)) → Only (D.bytes disk) (D.may_leave disk)
        → PlaysLoad D.Disk seed count (stored_calls stored) (stored_core stored) disk result.1 result.0 K.tells (K.written sink.old) (K.written sink.new) }
{
    let mut heap = match Heap::open(alloc, disk) {
        Ok(heap) => heap,
        Err((e, disk)) => return (Status::from(e), disk),
    };
    match play_load(alloc, &mut heap, seed, count, &mut Discard, sink) {
        Ok(()) => {
            let status = status_after(write_summary(alloc, seed, count, &heap, sink));
            (status, heap.close())
        }
        Err(halt) => (Status::from(halt), heap.close()),
    }
}
