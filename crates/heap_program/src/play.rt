//! Plays a script: each of its events is made on the heap, and its line is written.
ghost use Rattle.std.specs.Prelude.{◌≡◌, [], ◌∷◌, None, Ok, Err, IsTrue};
ghost use Rattle.std.specs.List.{AllByRecursion};
ghost use Rattle.graph_model.specs.declared.event.Event.TheVariants.{Seal, Force};
ghost use Rattle.graph_model.specs.History.{IsSession, IsOfSession};
ghost use Rattle.image_plan.specs.declared.superblock.Super.{Super};
ghost use Rattle.heap_program.specs.Causes.{StreamCause, played_device, PlaysDisk};
ghost use Rattle.heap_program.specs.declared.play.Halt.TheVariants as halt;
ghost use Rattle.core_laws.specs.Active.{active_in};
ghost use Rattle.heap_model.specs.Core.{Core};
ghost use Rattle.heap_model.specs.Ending.{abort_of, aborting, forcing, ending, all_events};
ghost use Rattle.heap_core.specs.HeapState.{heap_disk};
ghost use Rattle.heap_core.specs.Refinement.{IsCore, IsHeap};
ghost use Rattle.heap_program.specs.Play.{IsRunning, PlaysCore, Plays, ended_by};
ghost use Rattle.heap_program.specs.StatusOf.{write_halt};
ghost use Rattle.script_text.specs.Line.{line_events, events};

use crate::output::{WriteError, write_line};
use disk_model::Disk;
use graph_model::{Entry, Event, FIRST_SESSION, LAST_SESSION, Refusal, Reply};
use heap_core::Heap;
use heap_io::Sink;
use script_text::Line;
use std::alloc::{AllocError, Global};

/// Why a play went no further.
#[derive(Clone, Copy, Debug, PartialEq, Eq)]
pub enum Halt {
    /// Out of memory.
    NoMemory,
    /// A line could not be written.
    WriteFault,
    /// The disk failed in the last event.
    DiskFault,
    /// The disk stopped in it.
    Stopped,
}

impl From<AllocError> for Halt {
    ghost from_gives = { λ _ e. e ≡ halt.NoMemory };

    fn from(_: AllocError) -> Self {
        Halt::NoMemory
    }
}

impl From<WriteError> for Halt {
    ghost from_gives = { λ e halt. halt ≡ write_halt e };

    fn from(e: WriteError) -> Self {
        match e {
            WriteError::NoMemory => Halt::NoMemory,
            WriteError::SinkFailed => Halt::WriteFault,
        }
    }
}

/// Why a play ends at that reply, if it does.
fn ended_by(reply: Reply) -> Result<(), Halt>
    ensures { result ≡ ended_by reply }
{
    match reply {
        Reply::Refused {
            why: Refusal::DiskFault,
        } => Err(Halt::DiskFault),
        Reply::Refused {
            why: Refusal::Stopped,
        } => Err(Halt::Stopped),
        _ => Ok(()),
    }
}

/// Makes the events of the lines in order, up to one at which the disk stops or fails.
pub fn play_lines<D: Disk, K: Sink>(
    alloc: Global,
    heap: &mut Heap<D>,
    lines: &[Line],
    sink: &mut K,
) -> Result<(), Halt>
    requires { AllByRecursion IsOfSession (events lines.now) }
    ensures disk { PlaysDisk D.Disk (heap_disk heap.old) (heap_disk heap.new) (played_device result) (result ≡ Ok tt) }
    ensures sink { StreamCause (K.faults sink.old) (K.faults sink.new) (result ≡ Err Halt.WriteFault) }
    ensures core { (c : Core) → IsCore c heap.old → IsRunning c → PlaysCore c (events lines.now) heap.new K.tells (K.written sink.old) (K.written sink.new) result }
    ensures plays { IsTrue D.tells → (of : Super) (c : Core) → IsHeap of c heap.old → IsRunning c → Plays of c (events lines.now) heap.old heap.new K.tells (K.written sink.old) (K.written sink.new) result }
{
    for line in lines {
        play_line(alloc, heap, *line, sink)?;
    }
    Ok(())
}

/// Makes the events of the lines, and then those that end a run.
pub fn play_all<D: Disk, K: Sink>(
    alloc: Global,
    heap: &mut Heap<D>,
    lines: &[Line],
    sink: &mut K,
) -> Result<(), Halt>
    requires { AllByRecursion IsOfSession (events lines.now) }
    ensures disk { PlaysDisk D.Disk (heap_disk heap.old) (heap_disk heap.new) (played_device result) (result ≡ Ok tt) }
    ensures sink { StreamCause (K.faults sink.old) (K.faults sink.new) (result ≡ Err Halt.WriteFault) }
    ensures core { (c : Core) → IsCore c heap.old → IsRunning c → PlaysCore c (all_events None c (events lines.now)) heap.new K.tells (K.written sink.old) (K.written sink.new) result }
    ensures plays { IsTrue D.tells → (of : Super) (c : Core) → IsHeap of c heap.old → IsRunning c → Plays of c (all_events None c (events lines.now)) heap.old heap.new K.tells (K.written sink.old) (K.written sink.new) result }
{
    play_lines(alloc, heap, lines, sink)?;
    play_ending(alloc, heap, sink)
}

/// Makes the events that end a run: each session that has a transaction aborts, ascending, and then pending records are forced.
pub fn play_ending<D: Disk, K: Sink>(
    alloc: Global,
    heap: &mut Heap<D>,
    sink: &mut K,
) -> Result<(), Halt>
    ensures disk { PlaysDisk D.Disk (heap_disk heap.old) (heap_disk heap.new) (played_device result) (result ≡ Ok tt) }
    ensures sink { StreamCause (K.faults sink.old) (K.faults sink.new) (result ≡ Err Halt.WriteFault) }
    ensures core { (c : Core) → IsCore c heap.old → IsRunning c → PlaysCore c (ending c) heap.new K.tells (K.written sink.old) (K.written sink.new) result }
    ensures plays { IsTrue D.tells → (of : Super) (c : Core) → IsHeap of c heap.old → IsRunning c → Plays of c (ending c) heap.old heap.new K.tells (K.written sink.old) (K.written sink.new) result }
{
    play_aborts(alloc, heap, sink)?;
    play_force(alloc, heap, sink)
}

/// Aborts the transactions of all sessions that have one, ascending.
fn play_aborts<D: Disk, K: Sink>(
    alloc: Global,
    heap: &mut Heap<D>,
    sink: &mut K,
) -> Result<(), Halt>
    ensures disk { PlaysDisk D.Disk (heap_disk heap.old) (heap_disk heap.new) (played_device result) (result ≡ Ok tt) }
    ensures sink { StreamCause (K.faults sink.old) (K.faults sink.new) (result ≡ Err Halt.WriteFault) }
    ensures core { (c : Core) → IsCore c heap.old → IsRunning c → PlaysCore c (aborting c) heap.new K.tells (K.written sink.old) (K.written sink.new) result }
    ensures plays { IsTrue D.tells → (of : Super) (c : Core) → IsHeap of c heap.old → IsRunning c → Plays of c (aborting c) heap.old heap.new K.tells (K.written sink.old) (K.written sink.new) result }
{
    for s in FIRST_SESSION..=LAST_SESSION {
        play_abort(alloc, heap, s, sink)?;
    }
    Ok(())
}

/// Aborts the transaction of session `s`, if it has one.
fn play_abort<D: Disk, K: Sink>(
    alloc: Global,
    heap: &mut Heap<D>,
    s: u32,
    sink: &mut K,
) -> Result<(), Halt>
    requires { IsSession s }
    ensures disk { PlaysDisk D.Disk (heap_disk heap.old) (heap_disk heap.new) (played_device result) (result ≡ Ok tt) }
    ensures sink { StreamCause (K.faults sink.old) (K.faults sink.new) (result ≡ Err Halt.WriteFault) }
    ensures core { (c : Core) → IsCore c heap.old → IsRunning c → PlaysCore c (abort_of s (active_in c s)) heap.new K.tells (K.written sink.old) (K.written sink.new) result }
    ensures plays { IsTrue D.tells → (of : Super) (c : Core) → IsHeap of c heap.old → IsRunning c → Plays of c (abort_of s (active_in c s)) heap.old heap.new K.tells (K.written sink.old) (K.written sink.new) result }
{
    if !heap.active(s) {
        return Ok(());
    }
    play_event(alloc, heap, Event::Abort { s }, sink)
}

/// Forces the pending records, if there are any.
fn play_force<D: Disk, K: Sink>(alloc: Global, heap: &mut Heap<D>, sink: &mut K) -> Result<(), Halt>
    ensures disk { PlaysDisk D.Disk (heap_disk heap.old) (heap_disk heap.new) (played_device result) (result ≡ Ok tt) }
    ensures sink { StreamCause (K.faults sink.old) (K.faults sink.new) (result ≡ Err Halt.WriteFault) }
    ensures core { (c : Core) → IsCore c heap.old → IsRunning c → PlaysCore c (forcing c) heap.new K.tells (K.written sink.old) (K.written sink.new) result }
    ensures plays { IsTrue D.tells → (of : Super) (c : Core) → IsHeap of c heap.old → IsRunning c → Plays of c (forcing c) heap.old heap.new K.tells (K.written sink.old) (K.written sink.new) result }
{
    if !heap.pending() {
        return Ok(());
    }
    play_event(alloc, heap, Event::Force, sink)
}

/// Makes the events of one line, and writes the line of each as soon as it is answered.
pub fn play_line<D: Disk, K: Sink>(
    alloc: Global,
    heap: &mut Heap<D>,
    line: Line,
    sink: &mut K,
) -> Result<(), Halt>
    requires { AllByRecursion IsOfSession (line_events line) }
    ensures disk { PlaysDisk D.Disk (heap_disk heap.old) (heap_disk heap.new) (played_device result) (result ≡ Ok tt) }
    ensures sink { StreamCause (K.faults sink.old) (K.faults sink.new) (result ≡ Err Halt.WriteFault) }
    ensures core { (c : Core) → IsCore c heap.old → IsRunning c → PlaysCore c (line_events line) heap.new K.tells (K.written sink.old) (K.written sink.new) result }
    ensures plays { IsTrue D.tells → (of : Super) (c : Core) → IsHeap of c heap.old → IsRunning c → Plays of c (line_events line) heap.old heap.new K.tells (K.written sink.old) (K.written sink.new) result }
{
    match line {
        Line::One(event) => play_event(alloc, heap, event, sink),
        Line::Commit { s } => play_commit(alloc, heap, s, sink),
    }
}

/// Makes the two events of a commit.
fn play_commit<D: Disk, K: Sink>(
    alloc: Global,
    heap: &mut Heap<D>,
    s: u32,
    sink: &mut K,
) -> Result<(), Halt>
    requires { IsSession s }
    ensures disk { PlaysDisk D.Disk (heap_disk heap.old) (heap_disk heap.new) (played_device result) (result ≡ Ok tt) }
    ensures sink { StreamCause (K.faults sink.old) (K.faults sink.new) (result ≡ Err Halt.WriteFault) }
    ensures core { (c : Core) → IsCore c heap.old → IsRunning c → PlaysCore c (Seal s ∷ Force ∷ []) heap.new K.tells (K.written sink.old) (K.written sink.new) result }
    ensures plays { IsTrue D.tells → (of : Super) (c : Core) → IsHeap of c heap.old → IsRunning c → Plays of c (Seal s ∷ Force ∷ []) heap.old heap.new K.tells (K.written sink.old) (K.written sink.new) result }
{
    play_event(alloc, heap, Event::Seal { s }, sink)?;
    play_event(alloc, heap, Event::Force, sink)
}

/// Makes one event and writes its line.
fn play_event<D: Disk, K: Sink>(
    alloc: Global,
    heap: &mut Heap<D>,
    event: Event,
    sink: &mut K,
) -> Result<(), Halt>
    requires { IsOfSession event }
    ensures disk { PlaysDisk D.Disk (heap_disk heap.old) (heap_disk heap.new) (played_device result) (result ≡ Ok tt) }
    ensures sink { StreamCause (K.faults sink.old) (K.faults sink.new) (result ≡ Err Halt.WriteFault) }
    ensures core { (c : Core) → IsCore c heap.old → IsRunning c → PlaysCore c (event ∷ []) heap.new K.tells (K.written sink.old) (K.written sink.new) result }
    ensures plays { IsTrue D.tells → (of : Super) (c : Core) → IsHeap of c heap.old → IsRunning c → Plays of c (event ∷ []) heap.old heap.new K.tells (K.written sink.old) (K.written sink.new) result }
{
    let reply = heap.step(event)?;
    write_line(alloc, Entry { event, reply }, sink)?;
    ended_by(reply)
}
