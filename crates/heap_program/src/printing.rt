//! The commands that play no script: a heap is made, or its graph is printed.
ghost use Rattle.std.specs.Prelude.{◌≡◌, ◌≢◌, ◌⊎◌, ℕ, ◌<◌, ◌≤◌, Bool, IsTrue};
ghost use Rattle.graph_model.specs.Graph.{Graph};
ghost use Rattle.graph_words.specs.Places.{Places};
ghost use Rattle.image_plan.specs.Plan.{image_size};
ghost use Rattle.heap_core.specs.Format.{heap_of};
ghost use Rattle.heap_model.specs.Image.{StoredHeap, IsShaped};
ghost use Rattle.heap_model.specs.Opening.{IsFound};
ghost use Rattle.command_words.specs.Limits.{AreNumbers};
ghost use Rattle.command_words.specs.declared.commands.Command.TheVariants as asked;
ghost use Rattle.heap_program.specs.Causes.{StreamCause, RunsDisk, CountsStay, IsOpenedEnd};
ghost use Rattle.heap_program.specs.Commands.{IsEndOf, RunsFormat, PrintsGraph, WritesText, formatted_line};
ghost use Rattle.heap_program.specs.Headline.{OfTold, IsEndOfPlay, graph_text};
ghost use Rattle.heap_program.specs.Output.{WroteText};
ghost use Rattle.heap_program.specs.Refusals.{AnswersImage};

use crate::output::{WriteError, write_graph};
use crate::status::{Status, status_after};
use command_words::Numbers;
use disk_model::Disk;
use heap_core::Heap;
use heap_io::{Sink, put_all};
use image_plan::Plan;
use std::alloc::Global;

/// Makes an empty heap with these numbers, and writes the size of its image in bytes.
pub fn run_format<D: Disk, K: Sink>(
    alloc: Global,
    numbers: Numbers,
    disk: D,
    sink: &mut K,
) -> (Status, D)
    requires { AreNumbers numbers }

    ensures disk { RunsDisk D.Disk disk result.1 (result.0 ≡ Status.DiskFault) }
    ensures unfaulted { result.0 ≢ Status.DiskFault → CountsStay D.Disk disk result.1 }
    ensures sink { StreamCause (K.faults sink.old) (K.faults sink.new) (result.0 ≡ Status.WriteFault) }
    ensures too_small { (size need : ℕ) → result.0 ≡ Status.TooSmall size need → (result.1 ≡ disk) × (sink.new ≡ sink.old) × (size ≡ D.extent disk) × (need ≡ image_size numbers.pages numbers.log_bytes) × (size < need) }
    ensures small_told { D.extent disk < image_size numbers.pages numbers.log_bytes → result.0 ≡ Status.TooSmall (D.extent disk) (image_size numbers.pages numbers.log_bytes) }
    ensures ends { IsEndOf (asked.Format numbers) result.0 }
    ensures end { image_size numbers.pages numbers.log_bytes ≤ D.extent disk → IsEndOfPlay result.0 }
    ensures formats { OfTold D.tells (D.bytes disk) (D.may_leave disk) (RunsFormat D.Disk (heap_of numbers.pages numbers.log_bytes numbers.first) disk result.1 result.0 K.tells (K.written sink.old) (K.written sink.new)) }
    ensures prints { IsTrue K.tells → WritesText result.0 (formatted_line (heap_of numbers.pages numbers.log_bytes numbers.first)) (K.written sink.old) (K.written sink.new) }
    ensures restarts { IsTrue D.tells → D.restarts result.1 ≡ D.restarts disk }
{
    match Heap::format(disk, numbers.pages, numbers.log_bytes, numbers.first) {
        Ok(disk) => (status_after(write_size(alloc, numbers, sink)), disk),
        Err((e, disk)) => (Status::from(e), disk),
    }
}

/// Writes the size of the image of a heap with these numbers.
fn write_size<K: Sink>(alloc: Global, numbers: Numbers, sink: &mut K) -> Result<(), WriteError>
    requires { AreNumbers numbers }
    ensures sink { StreamCause (K.faults sink.old) (K.faults sink.new) (result ≡ Err WriteError.SinkFailed) }
    ensures wrote { IsTrue K.tells → WroteText result (K.written sink.old) (formatted_line (heap_of numbers.pages numbers.log_bytes numbers.first)) (K.written sink.new) }
{
    let size = Plan::of(numbers.pages, numbers.log_bytes).size();
    let line = format!(in alloc; "formatted {size}\n")?;
    Ok(put_all(sink, line.as_bytes())?)
}

/// Opens the existing heap, and writes its graph.
pub fn run_graph<D: Disk, K: Sink>(alloc: Global, disk: D, sink: &mut K) -> (Status, D)
    ensures end { IsOpenedEnd result.0 }
    ensures disk { RunsDisk D.Disk disk result.1 (result.0 ≡ Status.DiskFault) }
    ensures unfaulted { result.0 ≢ Status.DiskFault → CountsStay D.Disk disk result.1 }
    ensures sink { StreamCause (K.faults sink.old) (K.faults sink.new) (result.0 ≡ Status.WriteFault) }
    // Of each shaped image, whatever graph stands in it, under whatever names.
    ensures graph { OfTold D.tells (D.bytes disk) (D.may_leave disk) ((stored : StoredHeap) → (shaped : IsShaped stored (D.bytes disk)) → (born : Bool) (places : Places) (g : Graph) → IsFound stored shaped.log born places g
        → PrintsGraph D.Disk stored g disk result.1 result.0 K.tells (K.written sink.old) (K.written sink.new)) }
    ensures prints { IsTrue K.tells → ((result.0 ≢ Status.Done) × (K.written sink.new ≡ K.written sink.old)) ⊎ ((g : Graph) × WritesText result.0 (graph_text g) (K.written sink.old) (K.written sink.new)) }
    ensures image { AnswersImage D.Disk (Unit {0}) 0 disk result.1 result.0 (sink.new ≡ sink.old) }
{
    match Heap::open(alloc, disk) {
        Ok(heap) => {
            let status = status_after(write_graph(alloc, &heap, sink));
            (status, heap.close())
        }
        Err((e, disk)) => (Status::from(e), disk),
    }
}
