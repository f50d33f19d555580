//! What there is of the heap.
ghost use Rattle.std.specs.Prelude.{◌≡◌, ◌≢◌, ◌⊎◌, ◌↔◌, [], ◌<◌, ◌≤◌, None, Some, IfSome, IsSome, IfOk, IfErr, slice_index_or, ℕ, List, length, take, replicate};
ghost use Rattle.std.specs.Int.{w64, to_le_bytes};
ghost use Rattle.disk_model.specs.Memory.{Sync, now_of};
ghost use Rattle.graph_model.specs.History.{IsOfSession};
ghost use Rattle.heap_embed.specs.Told.{bytes_told, change_answer, word_of};
ghost use Rattle.heap_core.specs.Format.{heap_of};
ghost use Rattle.heap_core.specs.Refinement.{IsCoreInMemory};
ghost use Rattle.heap_embed.specs.Figures.{IsFigure, active_upto};
ghost use Rattle.heap_model.specs.Core.{Core};
ghost use Rattle.image_plan.specs.Super.{IsSuper};

use crate::answer::Answer;
use crate::ask::Ask;
use crate::host_disk::{HostDisk, item, word};
use crate::open_heap::OpenHeap;
use disk_model::{Disk, MemoryDisk};
use graph_model::{Event, FIRST_SESSION, LAST_SESSION};
use heap_core::HeapCore;
use image_plan::Super;
use std::alloc::Global;
use std::mem;

/// The heap, so far.
#[derive(Drop)]
pub enum State {
    /// The bytes that were handed in.
    Image(Vec<u8>),
    /// The disk of a heap that is not open.
    Closed(HostDisk),
    /// The open heap on it.
    Open(OpenHeap),
}

impl State {
    ghost use Rattle.heap_embed.specs.Embedding.{disk_of, changes_told, Answers, MakesEvent, Opens, IsRefused, Formats, Forgets, Hands, HasNoDisk, HasDisk, IsFigureOf, IsNotOpen, IsClosedOn, TakesUp};

    /// Answers what is asked of the heap.
    pub fn answer(&mut self, alloc: Global, ask: Ask) -> Answer
        ensures { Answers ⟦<MemoryDisk as Disk>⟧ self.old ask result self.new }
    {
        match ask {
            Ask::More { word, count } => self.take_bytes(word, count),
            Ask::Zeros { count } => self.take_zeros(count),
            Ask::Format {
                pages,
                log_bytes,
                first,
            } => self.format(alloc, pages, log_bytes, first),
            Ask::Open => self.open(alloc),
            Ask::Told => Answer::Number { n: self.told() },
            Ask::Item { k } => self.item(k),
            Ask::Bytes { k, from } => Answer::Number {
                n: self.word(k, from),
            },
            Ask::Done => self.forget(),
            Ask::Figure { i } => Answer::Number { n: self.figure(i) },
            Ask::Close => self.close(alloc),
            Ask::Event { event } => self.step(event),
            Ask::Last { .. } | Ask::Fail => Answer::NotAnAsk,
        }
    }

    /// Makes an event on the open heap. One that has no reply has changed nothing.
    fn step(&mut self, event: Event) -> Answer
        ensures made { (heap : _) → self.old ≡ State.Open heap → IsOfSession event → MakesEvent ⟦<MemoryDisk as Disk>⟧ event result self.new heap }
        ensures stranger { ¬ IsOfSession event → (result ≡ Answer.NotAnAsk) × (self.new ≡ self.old) }
        ensures closed { IsNotOpen self.old → IsOfSession event → (result ≡ Answer.NotNow) × (self.new ≡ self.old) }
    {
        if !event.is_of_session() {
            return Answer::NotAnAsk;
        }
        match self {
            State::Open(heap) => match heap.step(event) {
                Ok(reply) => Answer::Reply { reply },
                Err(_) => Answer::NoMemory,
            },
            _ => Answer::NotNow,
        }
    }

    /// Takes up bytes of the image, which are handed in: at most eight.
    fn take_bytes(&mut self, word: u64, count: u64) -> Answer
        ensures taken { (bytes : _) → self.old ≡ State.Image bytes → count ≤ 8 → TakesUp bytes.items (take count (to_le_bytes w64 word)) result self.new }
        ensures refused { (bytes : _) → self.old ≡ State.Image bytes → 8 < count → (result ≡ Answer.NotAnAsk) × (self.new ≡ self.old) }
        ensures late { HasDisk self.old → (result ≡ Answer.NotNow) × (self.new ≡ self.old) }
    {
        let State::Image(bytes) = self else {
            return Answer::NotNow;
        };
        let word = word.to_le_bytes();
        let Some(more) = word.get(..count as usize) else {
            return Answer::NotAnAsk;
        };
        match bytes.extend_from_slice(more) {
            Ok(()) => Answer::Done,
            Err(_) => Answer::NoMemory,
        }
    }

    /// Takes up that many zeros of the image.
    fn take_zeros(&mut self, count: u64) -> Answer
        ensures taken { (bytes : _) → self.old ≡ State.Image bytes → TakesUp bytes.items (replicate count 0) result self.new }
        ensures late { HasDisk self.old → (result ≡ Answer.NotNow) × (self.new ≡ self.old) }
    {
        let State::Image(bytes) = self else {
            return Answer::NotNow;
        };
        let Some(size) = bytes.len().checked_add(count as usize) else {
            return Answer::NoMemory;
        };
        match bytes.resize(size, 0) {
            Ok(()) => Answer::Done,
            Err(_) => Answer::NoMemory,
        }
    }

    /// The disk of what was handed in, or of the closed heap, which is taken out. What was handed in is let go where memory for its disk is refused.
    fn take_disk(&mut self, alloc: Global) -> Result<HostDisk, Answer>
        ensures hands { IfOk result (λ taken. Hands self.old taken.disk) }
        ensures none { IfErr result (λ answer. HasNoDisk self.old answer self.new) }
        ensures error { IfErr result (λ answer. answer ≢ Answer.Done) }
    {
        match mem::replace(self, State::Image(Vec::new(alloc))) {
            State::Image(bytes) => match HostDisk::of(alloc, bytes) {
                Ok(disk) => Ok(disk),
                Err(_) => Err(Answer::NoMemory),
            },
            State::Closed(disk) => Ok(disk),
            State::Open(heap) => {
                *self = State::Open(heap);
                Err(Answer::NotNow)
            }
        }
    }

    /// Makes an empty heap in what was handed in.
    fn format(&mut self, alloc: Global, pages: u64, log_bytes: u64, first: u64) -> Answer
        ensures limits { ¬ IsSuper (heap_of pages log_bytes first) → (result ≡ Answer.PastLimits) × (self.new ≡ self.old) }
        ensures made { IsSuper (heap_of pages log_bytes first) → HasNoDisk self.old result self.new ⊎ Formats ⟦<MemoryDisk as Disk>⟧ (heap_of pages log_bytes first) self.old result self.new }
    {
        let Some(of) = read_numbers(pages, log_bytes, first) else {
            return Answer::PastLimits;
        };
        match self.take_disk(alloc) {
            Ok(disk) => {
                let (answer, disk) = disk.format(&of);
                *self = State::Closed(disk);
                answer
            }
            Err(answer) => answer,
        }
    }

    fn open(&mut self, alloc: Global) -> Answer
        ensures opened { result ≡ Answer.Done → Opens ⟦<MemoryDisk as Disk>⟧ self.old self.new }
        ensures refused { result ≢ Answer.Done → HasNoDisk self.old result self.new ⊎ IsRefused ⟦<MemoryDisk as Disk>⟧ self.old result self.new }
    {
        let disk = match self.take_disk(alloc) {
            Ok(disk) => disk,
            Err(answer) => return answer,
        };
        match OpenHeap::open(alloc, disk) {
            Ok(heap) => {
                *self = State::Open(heap);
                Answer::Done
            }
            Err((e, disk)) => {
                *self = State::Closed(disk);
                Answer::from(e)
            }
        }
    }

    /// The open heap is closed as it is.
    fn close(&mut self, alloc: Global) -> Answer
        ensures closed { (heap : _) → self.old ≡ State.Open heap → (result ≡ Answer.Done) × IsClosedOn self.new heap.disk }
        ensures none { IsNotOpen self.old → (result ≡ Answer.NotNow) × (self.new ≡ self.old) }
    {
        match mem::replace(self, State::Image(Vec::new(alloc))) {
            State::Open(heap) => {
                *self = State::Closed(heap.close());
                Answer::Done
            }
            other => {
                *self = other;
                Answer::NotNow
            }
        }
    }

    /// What was told is forgotten, where nothing is pending.
    fn forget(&mut self) -> Answer
        ensures forgets { result ≡ Answer.Done → (disk : _) → disk_of self.old ≡ Some disk → Forgets ⟦<MemoryDisk as Disk>⟧ self.old self.new disk }
        ensures kept { result ≢ Answer.Done → self.new ≡ self.old }
        ensures none { disk_of self.old ≡ None → result ≡ Answer.NotNow }
        ensures synced { (disk : _) → disk_of self.old ≡ Some disk → (result ≡ Answer.Done ↔ ((now_of disk).pending ≡ [])) × ((result ≡ Answer.Done) ⊎ (result ≡ Answer.Unsynced)) }
    {
        let forgotten = match self {
            State::Image(_) => return Answer::NotNow,
            State::Closed(disk) => disk.forget(),
            State::Open(heap) => heap.forget(),
        };
        if forgotten {
            Answer::Done
        } else {
            Answer::Unsynced
        }
    }

    /// How many changes are told.
    fn told(&self) -> u64
        ensures { result ≡ length (changes_told self.now) }
    {
        match self {
            State::Image(_) => 0,
            State::Closed(disk) => disk.disk.told() as u64,
            State::Open(heap) => heap.disk().told() as u64,
        }
    }

    fn item(&self, k: u64) -> Answer
        ensures told { k < length (changes_told self.now) → result ≡ change_answer (slice_index_or (changes_told self.now) k Sync) }
        ensures none { length (changes_told self.now) ≤ k → result ≡ Answer.NoItem }
    {
        match self {
            State::Image(_) => Answer::NoItem,
            State::Closed(disk) => item(&disk.disk, k),
            State::Open(heap) => item(heap.disk(), k),
        }
    }

    fn word(&self, k: u64, from: u64) -> u64
        ensures { result ≡ word_of (bytes_told (slice_index_or (changes_told self.now) k Sync)) from }
    {
        match self {
            State::Image(_) => 0,
            State::Closed(disk) => word(&disk.disk, k, from),
            State::Open(heap) => word(heap.disk(), k, from),
        }
    }

    /// Figure `i` of the open heap.
    pub fn figure(&self, i: u64) -> u64
        ensures { IsFigureOf ⟦<MemoryDisk as Disk>⟧ self.now i result }
    {
        match self {
            State::Open(heap) => figure(heap.core(), i),
            _ => 0,
        }
    }
}

/// The numbers of a heap, if they are within their limits.
fn read_numbers(pages: u64, log_bytes: u64, first: u64) -> Option<Super>
    ensures within { IfSome result (λ of. (of ≡ heap_of pages log_bytes first) × IsSuper of) }
    ensures past { IsSuper (heap_of pages log_bytes first) → IsSome result }
{
    let of = Super {
        pages: u32::try_from(pages).ok()?,
        log_bytes: u32::try_from(log_bytes).ok()?,
        first: u32::try_from(first).ok()?,
    };
    if of.is_within_limits() {
        Some(of)
    } else {
        None
    }
}

/// The figures of an open heap, by their numbers: the entries of its history, the commits since it was made, whether records are pending, at which
/// entry it failed, and how many sessions have a transaction.
fn figure(core: &HeapCore, i: u64) -> u64
    ensures { (c : Core) → IsCoreInMemory c core.now → IsFigure c i result }
{
    match i {
        0 => core.history().len() as u64,
        1 => core.commits(),
        2 => u64::from(core.pending()),
        3 => core.failed().unwrap_or(0),
        4 => active(core),
        _ => 0,
    }
}

/// How many sessions have a transaction.
fn active(core: &HeapCore) -> u64
    ensures { (c : Core) → IsCoreInMemory c core.now → result ≡ active_upto c 32 }
{
    let mut count: u64 = 0;
    for s in FIRST_SESSION..=LAST_SESSION {
        count = count.saturating_add(u64::from(core.active(s)));
    }
    count
}
