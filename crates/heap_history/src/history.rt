//! The history of a heap: each event and its reply.
ghost use Rattle.std.specs.Prelude.{◌≡◌, List, ◌+◌, ◌^◌, ◌<◌, ◌≤◌, [], ◌∷◌, ◌++◌, OnOk, OnErr, IfOk, length, slice_get, vec_len, vec_capacity};
ghost use Rattle.brief_entries.specs.Brief.{IsWithin, entry_of};
ghost use Rattle.brief_entries.specs.Ordinary.{IsOrdinary};
ghost use Rattle.heap_history.specs.Kept.{Extends};
ghost use Rattle.graph_model.specs.History.{commits, acknowledged};
ghost use Rattle.graph_model.specs.declared.event.Event.{Event};
ghost use Rattle.graph_model.specs.declared.reply.Entry.{Entry};

use crate::commit_list::CommitList;
use crate::entries::Entries;
use crate::reading::Reading;
use brief_entries::KeptEntry;
use graph_model::{Entry, Event, Reply};
use std::alloc::{AllocError, Global};
use std::marker::Model;

/// The entries since the heap was opened, oldest first. Clauses see them, the number of further ones for which there is room, and how many are kept
/// whole. An entry takes 24 bytes, and one with a number that is not ordinary is kept whole and takes 96.
#[derive(Debug, Drop)]
pub struct History {
    alloc: Global,
    /// How each entry is kept, oldest first.
    kept: Vec<KeptEntry>,
    /// Those that are kept whole.
    whole: Vec<Entry>,
    /// The number of further entries for which both lists have room.
    room: usize,
    /// The greatest number that was answered `durable`.
    durable: u64,
}

impl Model for History {
    ghost use Rattle.std.specs.Prelude.{◌+◌, ◌≤◌, vec_len, vec_capacity};
    ghost use Rattle.heap_history.specs.Kept.{IsKept, entries_in};
    ghost use Rattle.heap_history.specs.Recorded.{Recorded};

    ghost Value = { Recorded };

    ghost view = { λ history. record { entries = entries_in history.whole.items history.kept.items; room = history.room; whole = vec_len history.whole } };

    ghost invariant = { λ history. IsKept history.whole.items history.kept.items history.durable × (history.room + vec_len history.kept ≤ vec_capacity history.kept) × (history.room + vec_len history.whole ≤ vec_capacity history.whole) };
}

/// How an entry is kept. One that is not ordinary is added to those that are kept whole, for which there is room.
fn keep(whole: &mut Vec<Entry>, entry: Entry) -> KeptEntry
    requires { vec_len whole.old < vec_capacity whole.old }
    ensures within { IsWithin whole.new.items result }
    ensures same { entry_of whole.new.items result ≡ entry }
    ensures others { Extends whole.old.items whole.new.items }
    ensures brief { IsOrdinary entry → whole.new ≡ whole.old }
    ensures room { (vec_capacity whole.new ≡ vec_capacity whole.old) × (vec_len whole.new ≤ vec_len whole.old + 1) }
{
    match KeptEntry::brief(&entry) {
        Some(kept) => kept,
        None => {
            let place = whole.len();
            whole.push_reserved(entry);
            KeptEntry::Whole { place }
        }
    }
}

/// The greatest number that was answered `durable`, with one more reply.
fn greatest_durable(durable: u64, reply: Reply) -> u64
    ensures { (before : List Entry) (event : Event) → durable ≡ acknowledged before → result ≡ acknowledged (before ++ record { event = event; reply = reply } ∷ []) }
{
    match reply {
        Reply::Durable { n } => durable.max(n),
        _ => durable,
    }
}

impl History {
    /// An empty history. Does not allocate.
    pub fn new(alloc: Global) -> History
        ensures entries { result.entries ≡ [] }
        ensures room { result.room ≡ 0 }
        ensures whole { result.whole ≡ 0 }
    {
        History {
            alloc,
            kept: Vec::new(alloc),
            whole: Vec::new(alloc),
            room: 0,
            durable: 0,
        }
    }

    /// Makes room for `entries` entries. An error changes nothing.
    pub fn reserve(&mut self, entries: usize) -> Result<(), AllocError>
        ensures same { self.new.entries ≡ self.old.entries }
        ensures room { OnOk result (entries ≤ self.new.room) }
        ensures more { self.old.room ≤ self.new.room }
        ensures whole { self.new.whole ≡ self.old.whole }
        ensures err { OnErr result (self.new ≡ self.old) }
    {
        self.kept.reserve(entries)?;
        self.whole.reserve(entries)?;
        self.room = self.room.max(entries);
        Ok(())
    }

    /// Adds an event and its reply, for which there is room. Does not allocate; only an entry that is not ordinary is kept whole.
    pub fn push(&mut self, event: Event, reply: Reply)
        requires { 0 < self.old.room }
        ensures entries { self.new.entries ≡ self.old.entries ++ record { event = event; reply = reply } ∷ [] }
        ensures room { self.new.room + 1 ≡ self.old.room }
        ensures brief { IsOrdinary (record { event = event; reply = reply }) → self.new.whole ≡ self.old.whole }
        ensures few { self.new.whole ≤ self.old.whole + 1 }
    {
        self.durable = greatest_durable(self.durable, reply);
        let kept = keep(&mut self.whole, Entry { event, reply });
        self.kept.push_reserved(kept);
        self.room -= 1;
    }

    /// How many entries there are.
    pub fn len(&self) -> usize
        ensures value { result ≡ length self.now.entries }
        ensures few { result < 2 ^ 63 }
    {
        self.kept.len()
    }

    /// The entry at a place, from 0.
    pub fn get(&self, place: usize) -> Option<Entry>
        ensures { result ≡ slice_get self.now.entries place }
    {
        let kept = self.kept.get(place)?;
        Some(kept.entry(&self.whole))
    }

    /// The entries, one after another.
    pub fn iter(&self) -> Entries<'_>
        ensures { result ≡ self.now.entries }
    {
        Entries::new(&self.kept, &self.whole)
    }

    /// How many commits were acknowledged: the greatest number that was answered `durable`. It takes constant time.
    pub fn acked(&self) -> u64
        ensures { result ≡ acknowledged self.now.entries }
    {
        self.durable
    }

    /// The commits: the sealed transactions in the order of their seals, and then the one whose seal the disk cut short, if there is one.
    /// It goes through the whole history.
    pub fn commits(&self) -> Result<CommitList, AllocError>
        ensures { IfOk result (λ list. list ≡ commits self.now.entries) }
    {
        let mut reading = Reading::new(self.alloc);
        for entry in self.iter() {
            reading.read(&entry)?;
        }
        reading.into_commits()
    }
}
