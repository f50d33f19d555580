//! The events that end a run of workers.
ghost use Rattle.std.specs.Prelude.{◌≡◌, None, Ok, IsTrue};
ghost use Rattle.core_laws.specs.Valid.{IsReached};
ghost use Rattle.graph_model.specs.declared.event.Event.{Event};
ghost use Rattle.heap_core.specs.HeapState.{failed_at, heap_disk};
ghost use Rattle.heap_core.specs.Refinement.{IsCore, IsHeap};
ghost use Rattle.heap_core.specs.Steps.{HeapStep, AreSteps};
ghost use Rattle.heap_model.specs.Core.{Core, IsRun};
ghost use Rattle.heap_program.specs.Causes.{DiskRose, CountsStay};
ghost use Rattle.image_plan.specs.declared.superblock.Super.{Super};
ghost use Rattle.thread_play.specs.Follows.{StaysDisk};
ghost use Rattle.thread_program.specs.Ended.{EndsBy, is_played_out};

use disk_model::Disk;
use heap_core::Heap;
use heap_io::Discard;
use heap_program::{Halt, play_ending};
use std::alloc::{AllocError, Global};

/// Makes the events that end a run, unless the disk has failed or stopped. If it does so in one of them, the history says so.
pub fn make_ending<D: Disk>(alloc: Global, heap: &mut Heap<D>) -> Result<(), AllocError>
    ensures disk { StaysDisk D.Disk (heap_disk heap.old) (heap_disk heap.new) }
    // Where it has not failed then, no fault of the disk was ignored.
    ensures still { (c : Core) → IsCore c heap.old → IsReached c → result ≡ Ok tt → failed_at heap.new ≡ None → CountsStay D.Disk (heap_disk heap.old) (heap_disk heap.new) }
    ensures core { (c : Core) → IsCore c heap.old → IsReached c
        → EndsBy c result (DiskRose (D.faults (heap_disk heap.old)) (D.stops (heap_disk heap.old)) (D.faults (heap_disk heap.new)) (D.stops (heap_disk heap.new)))
        (λ made core. IsRun c made core × IsCore core heap.new) }
    ensures holds { IsTrue D.tells → (of : Super) (c : Core) → IsHeap of c heap.old → IsReached c
        → EndsBy c result (DiskRose (D.faults (heap_disk heap.old)) (D.stops (heap_disk heap.old)) (D.faults (heap_disk heap.new)) (D.stops (heap_disk heap.new)))
        (λ made core. AreSteps (HeapStep D.Disk) c (heap_disk heap.old) made core (heap_disk heap.new) × IsHeap of core heap.new) }
{
    if heap.failed().is_some() {
        return Ok(());
    }
    if is_played_out(play_ending(alloc, heap, &mut Discard)) {
        return Ok(());
    }
    Err(AllocError)
}

/// Whether a play made all its events, or the disk failed or stopped in the last one. A sink that discards all refuses no line, so else memory ran out.
fn is_played_out(played: Result<(), Halt>) -> bool
    ensures { result ≡ is_played_out played }
{
    matches!(played, Ok(()) | Err(Halt::DiskFault | Halt::Stopped))
}
