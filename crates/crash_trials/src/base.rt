//! The heap that each run of a script begins with, and what the plain heap says of the script.
use crate::difference::Difference;
use disk_model::{MemoryDisk, Pick};
use graph_model::{Entry, Event, Refusal, Reply};
use heap_core::Heap;
use image_plan::Super;
use script_text::{Line, ScriptError, read_script};
use slow_heap::SlowHeap;
use std::alloc::{AllocError, Global};
use thiserror::Error;

/// What a script is played on.
#[derive(Clone, Copy, Debug, PartialEq, Eq)]
pub struct Settings {
    /// The pages of each space: from 1 to 16384.
    pub pages: u32,
    /// The bytes of the log: from 64 to 1073741824.
    pub log_bytes: u32,
}

/// Why a script was not tried.
#[derive(Clone, Copy, Debug, PartialEq, Eq, Error)]
pub enum TrialError {
    /// Out of memory.
    #[error("memory was refused")]
    NoMemory,
    /// The number of the first bad line, from 1; 0 stands for a script that is too long.
    #[error("bad line {line}")]
    Script { line: u64 },
    /// No heap can be made of these settings.
    #[error("no heap has these pages and this log")]
    Settings,
}

impl From<AllocError> for TrialError {
    fn from(_: AllocError) -> TrialError {
        TrialError::NoMemory
    }
}

impl From<ScriptError> for TrialError {
    fn from(e: ScriptError) -> TrialError {
        match e {
            ScriptError::NoMemory => TrialError::NoMemory,
            ScriptError::Fault { line } => TrialError::Script { line },
        }
    }
}

/// The room of a disk's record of its changes, beside twice the image: scripts write each page and each byte of the log no more often.
const RECORD_BYTES: usize = 1_048_576;

/// The image that each run begins with, and the events of the script.
#[derive(Drop)]
pub(crate) struct Base {
    pub(crate) image: Vec<u8>,
    pub(crate) events: Vec<Event>,
}

impl Base {
    /// An empty heap of these settings, and the events of this script.
    pub(crate) fn of(alloc: Global, settings: Settings, script: &[u8]) -> Result<Base, TrialError> {
        let events = events_of(alloc, script)?;
        let image = image_of(alloc, settings)?;
        Ok(Base { image, events })
    }

    /// A disk with these bytes, on which the writes and syncs of these numbers fail, and these reads.
    pub(crate) fn disk(
        &self,
        alloc: Global,
        bytes: &[u8],
        pick: Pick,
        fail_writes: Vec<u64>,
        fail_reads: Vec<u64>,
    ) -> Result<MemoryDisk, AllocError> {
        let room = RECORD_BYTES.saturating_add(bytes.len().saturating_mul(2));
        MemoryDisk::of(
            alloc,
            bytes.to_vec(alloc)?,
            pick,
            room,
            fail_writes,
            fail_reads,
        )
    }
}

/// The events of a script.
fn events_of(alloc: Global, script: &[u8]) -> Result<Vec<Event>, TrialError> {
    let lines = read_script(alloc, script)?;
    Ok(events_in(alloc, &lines)?)
}

/// The events of these lines, of which a `commit` is a seal and a force.
fn events_in(alloc: Global, lines: &[Line]) -> Result<Vec<Event>, AllocError> {
    let mut events = Vec::new(alloc);
    for line in lines {
        match line {
            Line::One(event) => events.push(*event)?,
            Line::Commit { s } => {
                events.push(Event::Seal { s: *s })?;
                events.push(Event::Force)?;
            }
        }
    }
    Ok(events)
}

/// The image of an empty heap.
fn image_of(alloc: Global, settings: Settings) -> Result<Vec<u8>, TrialError> {
    let of = Super {
        pages: settings.pages,
        log_bytes: settings.log_bytes,
        first: 1,
    };
    if !of.is_within_limits() {
        return Err(TrialError::Settings);
    }
    let size = usize::try_from(of.plan().size()).map_err(|_| TrialError::Settings)?;
    let zeros = vec![in alloc; 0u8; size]?;
    let none = Vec::new(alloc);
    let room = RECORD_BYTES.saturating_add(size.saturating_mul(2));
    let disk = MemoryDisk::of(alloc, zeros, Pick::Newest, room, none, Vec::new(alloc))?;
    match Heap::format(disk, settings.pages, settings.log_bytes, 1) {
        Ok(disk) => Ok(disk.contents().to_vec(alloc)?),
        Err(_) => Err(TrialError::Settings),
    }
}

/// The plain heap beside a run that nothing stops. It knows no spaces, log and pages, so it is not asked what the heap refused for want of room, and its
/// answers to flips, scans and flushes are not compared.
#[derive(Drop)]
pub(crate) struct Plain {
    pub(crate) heap: SlowHeap,
    pub(crate) difference: Option<Difference>,
}

impl Plain {
    pub(crate) fn new(alloc: Global) -> Result<Plain, AllocError> {
        Ok(Plain {
            heap: SlowHeap::new(alloc)?,
            difference: None,
        })
    }

    /// Tells it an event with the heap's reply.
    pub(crate) fn tell(&mut self, event: Event, reply: Reply) -> Result<(), AllocError> {
        if !event.is_of_session() || is_of_room(reply) {
            return Ok(());
        }
        let plain = self.heap.step(event)?;
        if is_compared(event) && plain != reply && self.difference.is_none() {
            let entry = Entry { event, reply };
            self.difference = Some(Difference::Reply { entry, plain });
        }
        Ok(())
    }
}

/// Whether a reply says that a space, an area, the log or the disk could not take an event.
fn is_of_room(reply: Reply) -> bool {
    let Reply::Refused { why } = reply else {
        return false;
    };
    matches!(
        why,
        Refusal::VolatileFull { .. }
            | Refusal::Exhausted { .. }
            | Refusal::LogFull { .. }
            | Refusal::Failed { .. }
            | Refusal::DiskFault
            | Refusal::Stopped
    )
}

fn is_compared(event: Event) -> bool {
    !matches!(event, Event::Flip | Event::Scan | Event::Flush { .. })
}
