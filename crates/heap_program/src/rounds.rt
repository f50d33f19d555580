//! Plays a load round by round, so that no list of all lines is kept.
ghost use Rattle.std.specs.Prelude.{◌≡◌, ◌<◌, ◌^◌, None, Ok, Err, IsTrue};
ghost use Rattle.std.specs.List.{AllByRecursion};
ghost use Rattle.graph_model.specs.History.{IsOfSession};
ghost use Rattle.image_plan.specs.declared.superblock.Super.{Super};
ghost use Rattle.heap_model.specs.Core.{Core};
ghost use Rattle.heap_model.specs.Ending.{all_events};
ghost use Rattle.heap_core.specs.HeapState.{heap_disk};
ghost use Rattle.heap_core.specs.Refinement.{IsCore, IsHeap};
ghost use Rattle.heap_program.specs.Causes.{StreamCause, played_device, PlaysDisk};
ghost use Rattle.heap_program.specs.Play.{IsRunning, PlaysCore, Plays};
ghost use Rattle.script_text.specs.Line.{events};
ghost use Rattle.script_text.specs.Load.{load_lines};
ghost use Rattle.script_text.specs.Loading.{lines_left};

use crate::play::{Halt, play_ending, play_lines};
use disk_model::Disk;
use heap_core::Heap;
use heap_io::Sink;
use script_text::Load;
use std::alloc::Global;

/// Makes the events of the load of `count` rounds that is made from `seed`, and then those that end a run. `watch` shows the progress after each round.
pub fn play_load<D: Disk, K: Sink, W: Sink>(
    alloc: Global,
    heap: &mut Heap<D>,
    seed: u32,
    count: u32,
    sink: &mut K,
    watch: &W,
) -> Result<(), Halt>
    requires { seed < 2 ^ 31 }
    ensures disk { PlaysDisk D.Disk (heap_disk heap.old) (heap_disk heap.new) (played_device result) (result ≡ Ok tt) }
    ensures sink { StreamCause (K.faults sink.old) (K.faults sink.new) (result ≡ Err Halt.WriteFault) }
    ensures core { (c : Core) → IsCore c heap.old → IsRunning c → PlaysCore c (all_events None c (events (load_lines seed count))) heap.new K.tells (K.written sink.old) (K.written sink.new) result }
    ensures plays { IsTrue D.tells → (of : Super) (c : Core) → IsHeap of c heap.old → IsRunning c → Plays of c (all_events None c (events (load_lines seed count))) heap.old heap.new K.tells (K.written sink.old) (K.written sink.new) result }
{
    play_rounds(alloc, heap, Load::new(seed, count), count, sink, watch)?;
    play_ending(alloc, heap, sink)
}

/// Makes the events of the rounds that are left.
fn play_rounds<D: Disk, K: Sink, W: Sink>(
    alloc: Global,
    heap: &mut Heap<D>,
    mut load: Load,
    count: u32,
    sink: &mut K,
    watch: &W,
) -> Result<(), Halt>
    requires { AllByRecursion IsOfSession (events (lines_left load)) }
    ensures disk { PlaysDisk D.Disk (heap_disk heap.old) (heap_disk heap.new) (played_device result) (result ≡ Ok tt) }
    ensures sink { StreamCause (K.faults sink.old) (K.faults sink.new) (result ≡ Err Halt.WriteFault) }
    ensures core { (c : Core) → IsCore c heap.old → IsRunning c → PlaysCore c (events (lines_left load)) heap.new K.tells (K.written sink.old) (K.written sink.new) result }
    ensures plays { IsTrue D.tells → (of : Super) (c : Core) → IsHeap of c heap.old → IsRunning c → Plays of c (events (lines_left load)) heap.old heap.new K.tells (K.written sink.old) (K.written sink.new) result }
{
    let mut done = 0u32;
    'rounds: while let Some(round) = load.next_round(alloc)? {
        play_lines(alloc, heap, &round, sink)?;
        done = done.saturating_add(1);
        watch.show_progress(done, count);
    }
    Ok(())
}
