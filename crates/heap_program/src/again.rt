//! A stopped disk is restarted: the heap is reopened, and what came back is printed.
ghost use Rattle.std.specs.Prelude.{◌≡◌, ℕ, List, MatchResult, IsTrue};
ghost use Rattle.counts.specs.Count.{Rose};
ghost use Rattle.disk_model.specs.Disk.{Only};
ghost use Rattle.disk_model.specs.Fuse.{fuse_inner};
ghost use Rattle.disk_model.specs.Moments.{LeavesOnly};
ghost use Rattle.heap_core.specs.Refinement.{IsLeftByStep};
ghost use Rattle.heap_model.specs.Core.{Core};
ghost use Rattle.heap_model.specs.CoreCrash.{StandsForFirst, IsCommitPrefix};
ghost use Rattle.heap_program.specs.Causes.{StreamCause, RunsDisk, IsOpenedEnd, either_disk};
ghost use Rattle.heap_program.specs.Headline.{OfTold, Restarts, KeepsFirst, Reopens, FailsToOpen, IsCutOff, StartsAgain, EndsUnopened, starts_asked};
ghost use Rattle.heap_program.specs.Refusals.{KeepsFault, AnswersImage, AnswersLeft};
ghost use Rattle.heap_program.specs.Output.{IsBefore, Recovers, WroteAgain};

use crate::output::write_recovered;
use crate::status::{Status, status_after};
use disk_model::{Disk, FuseDisk};
use heap_core::{Heap, OpenError};
use heap_io::Sink;
use std::alloc::Global;

/// Restarts the disk inside the fuse, and prints what came back: how many more commits than `before` the log then holds. `before` is left out if
/// the disk was stopped before the first event. If it is to stop once more, it does so in an earlier opening.
pub fn start_again<D: Disk, K: Sink>(
    alloc: Global,
    fuse: FuseDisk<D>,
    again: Option<u64>,
    before: Option<u64>,
    sink: &mut K,
) -> (Status, D)
    ensures end { IsOpenedEnd result.0 }
    ensures disk { RunsDisk D.Disk (fuse_inner fuse) result.1 (result.0 ≡ Status.DiskFault) }
    ensures sink { StreamCause (K.faults sink.old) (K.faults sink.new) (result.0 ≡ Status.WriteFault) }
    ensures image { IsTrue D.tells → AnswersLeft D.Disk (starts_asked again) (fuse_inner fuse) result.1 result.0 (sink.new ≡ sink.old) }
    ensures started { IsTrue D.tells → Rose (D.restarts (fuse_inner fuse)) (D.restarts result.1) }
    ensures again { IsTrue K.tells → WroteAgain result.0 (K.written sink.old) (K.written sink.new) }
    ensures moments { IsTrue D.tells → (c : Core) (old : List ℕ) → ((image : List ℕ) → D.may_leave (fuse_inner fuse) image → IsLeftByStep c old image) → LeavesOnly D.moment D.left_since (fuse_inner fuse) result.1 (IsLeftByStep c old) }
    ensures recovers { IsTrue D.tells → (c : Core) → ((image : List ℕ) → D.may_leave (fuse_inner fuse) image → IsCommitPrefix c image) → IsBefore before c
        → (k : ℕ) × Recovers c k (StartsAgain D.Disk again c k (Reopens D.Disk c k) (fuse_inner fuse) result.1) (EndsUnopened D.Disk again c k (fuse_inner fuse) result.1 result.0) (D.bytes result.1) (D.may_leave result.1) result.0 K.tells (K.written sink.old) (K.written sink.new) }
{
    let disk = restart(fuse.into_inner());
    match again {
        None => print_recovered(alloc, disk, before, sink),
        Some(calls) => match open_cut_off(alloc, disk, calls) {
            Ok(disk) => print_recovered(alloc, restart(disk), before, sink),
            Err(disk) => (Status::NoMemory, disk),
        },
    }
}

/// The restarted disk.
fn restart<D: Disk>(mut disk: D) -> D
    ensures disk { RunsDisk D.Disk disk result ⊥ }
    ensures restarts { IsTrue D.tells → Restarts D.Disk disk result }
{
    disk.restart();
    disk
}

/// Opens the heap on a disk that stops after that many writes and syncs, and gives the disk back whatever the outcome; as an error
/// if memory ran out.
fn open_cut_off<D: Disk>(alloc: Global, disk: D, calls: u64) -> Result<D, D>
    ensures disk { RunsDisk D.Disk disk (either_disk result) ⊥ }
    ensures cut { IsTrue D.tells → (c : Core) (k : ℕ) → StandsForFirst c k (D.bytes disk) → Only (D.bytes disk) (D.may_leave disk)
        → MatchResult result (λ new. IsCutOff D.Disk calls c k disk new) (λ new. FailsToOpen D.Disk c k Status.NoMemory disk new) }
    ensures restarts { IsTrue D.tells → D.restarts (either_disk result) ≡ D.restarts disk }
    // An image that can't be opened leaves one with the same fault.
    ensures keeps { OfTold D.tells (D.bytes disk) (D.may_leave disk) (KeepsFault D.Disk disk (either_disk result)) }
{
    match Heap::open(alloc, FuseDisk::new(disk, calls)) {
        Ok(heap) => Ok(heap.close().into_inner()),
        Err((e, fuse)) => {
            let disk = fuse.into_inner();
            if e == OpenError::NoMemory {
                return Err(disk);
            }
            Ok(disk)
        }
    }
}

/// Opens the heap again after a restart, and writes how many commits came back, and the graph.
fn print_recovered<D: Disk, K: Sink>(
    alloc: Global,
    disk: D,
    before: Option<u64>,
    sink: &mut K,
) -> (Status, D)
    ensures end { IsOpenedEnd result.0 }
    ensures disk { RunsDisk D.Disk disk result.1 (result.0 ≡ Status.DiskFault) }
    ensures sink { StreamCause (K.faults sink.old) (K.faults sink.new) (result.0 ≡ Status.WriteFault) }
    ensures image { AnswersImage D.Disk (Unit {0}) 0 disk result.1 result.0 (sink.new ≡ sink.old) }
    ensures again { IsTrue K.tells → WroteAgain result.0 (K.written sink.old) (K.written sink.new) }
    ensures keeps { IsTrue D.tells → (c : Core) (k : ℕ) → StandsForFirst c k (D.bytes disk) → Only (D.bytes disk) (D.may_leave disk) → KeepsFirst D.Disk c k disk result.1 }
    ensures recovers { IsTrue D.tells → (c : Core) (k : ℕ) → StandsForFirst c k (D.bytes disk) → Only (D.bytes disk) (D.may_leave disk) → IsBefore before c
        → Recovers c k (Reopens D.Disk c k disk result.1) (FailsToOpen D.Disk c k result.0 disk result.1) (D.bytes result.1) (D.may_leave result.1) result.0 K.tells (K.written sink.old) (K.written sink.new) }
{
    let heap = match Heap::open(alloc, disk) {
        Ok(heap) => heap,
        Err((e, disk)) => return (Status::from(e), disk),
    };
    let status = status_after(write_recovered(alloc, &heap, before, sink));
    (status, heap.close())
}
