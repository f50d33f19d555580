//! Ends transactions and forces commits among other events, up to the first that runs out of memory, and then all that is left to end. Its status says
//! whether an end ran out of memory; `examples/tools/refused.py` runs it with an allocator that refuses everything from some allocation on.
#![tactic(auto)]

use disk_model::{Disk, MemoryDisk, Pick};
use graph_model::{Event, Reply};
use heap_core::Heap;
use script_text::{Line, ScriptError, read_script};
use std::alloc::{AllocError, Global};
use std::process::ExitCode;

/// The statuses but 0: memory ran out where it may, or an event was refused, or an end of a transaction or a force ran out of memory.
const NO_MEMORY: u8 = 1;

const UNDONE: u8 = 2;

/// The sessions of the script.
const SESSIONS: u32 = 2;

/// Transactions that wrote, read, ran into a collection or made objects that stay volatile. The first makes an object stable, so it alone is
/// ended by a `commit`, whose seal may run out of memory.
const SCRIPT: &str = "1 begin\n1 root 0\n1 new 1 2\n1 link 0 0 1\n1 commit\n\
1 begin\n1 root 0\n1 put 0 1 7\n1 seal\nforce\n\
1 begin\n2 begin\n1 root 0\n1 clear 0 0\n2 new 0 100\nflip\n1 abort\n2 abort\n\
1 begin\n1 root 0\n1 get 0 0 1\n1 put 1 0 9\nscan\nscan\n1 seal\nflip\nforce\n\
1 begin\n1 seal\nforce\n";

/// Makes an event, and returns whether it was done: none of these is refused.
fn is_done<D: Disk>(heap: &mut Heap<D>, event: Event) -> Result<bool, AllocError> {
    if !event.is_of_session() {
        return Ok(false);
    }
    Ok(!matches!(heap.step(event)?, Reply::Refused { .. }))
}

/// Whether a line's events were done, or one ran out of memory that may. No end of a transaction may, nor a force.
fn is_made<D: Disk>(heap: &mut Heap<D>, line: &Line) -> Result<bool, AllocError> {
    match line {
        Line::Commit { s } => {
            let sealed = is_done(heap, Event::Seal { s: *s })?;
            Ok(sealed && is_done(heap, Event::Force).unwrap_or(false))
        }
        Line::One(event) => match event {
            Event::Seal { .. } | Event::Abort { .. } | Event::Force => {
                Ok(is_done(heap, *event).unwrap_or(false))
            }
            _ => is_done(heap, *event),
        },
    }
}

/// A new heap of one page in memory, unless memory runs out.
fn new_heap(alloc: Global) -> Option<Heap<MemoryDisk>> {
    let bytes = vec![in alloc; 0u8; 131_072].ok()?;
    let none = Vec::new(alloc);
    let disk = MemoryDisk::of(alloc, bytes, Pick::Newest, 1_048_576, none, Vec::new(alloc)).ok()?;
    let disk = Heap::format(disk, 1, 65_536, 1).ok()?;
    Heap::open(alloc, disk).ok()
}

/// Aborts what is active, and forces what was sealed and not acknowledged, and returns whether none of this ran out of memory.
fn is_ended<D: Disk>(heap: &mut Heap<D>) -> bool {
    for s in 1..=SESSIONS {
        if heap.active(s) && !is_done(heap, Event::Abort { s }).unwrap_or(false) {
            return false;
        }
    }
    let is_forced = heap.commits() == heap.history().acked();
    is_forced || is_done(heap, Event::Force).unwrap_or(false)
}

/// Plays the script on a new heap, up to the first event that was not made, and returns the status.
fn play(alloc: Global) -> Result<u8, ScriptError> {
    let script = read_script(alloc, SCRIPT.as_bytes())?;
    let mut heap = new_heap(alloc).ok_or(ScriptError::NoMemory)?;
    for line in &script {
        match is_made(&mut heap, line) {
            Ok(true) => {}
            Err(_) if is_ended(&mut heap) => return Ok(NO_MEMORY),
            _ => return Ok(UNDONE),
        }
    }
    Ok(0)
}

fn main(rt: HostRuntime) -> ExitCode {
    ExitCode::from(play(rt.alloc()).unwrap_or(NO_MEMORY))
}
