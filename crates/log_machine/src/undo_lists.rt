//! The writes of each transaction that may be taken back.
ghost use Rattle.std.specs.Prelude.{◌≡◌, ◌≢◌, ◌+◌, ◌<◌, ◌^◌, ◌∷◌, [], ℕ, true, List, OnOk, OnErr, IfOk, reverse, drop, length};
ghost use Rattle.std.specs.FinMap as map;
ghost use Rattle.log_machine.specs.declared.UndoEntry.{UndoEntry};
ghost use Rattle.log_machine.specs.Machine.{undo_in, with_entries, end_bytes, abort_each};
ghost use Rattle.log_machine.specs.Entries.{bytes_over};
ghost use Rattle.log_machine.specs.Translation.{translated_list};
ghost use Rattle.log_machine.specs.Collecting.{pairs_of, can_translate_all, translated_undo};

use crate::UndoEntry;
use crate::abort::add_abort_records;
use crate::copy_index::CopyIndex;
use log_records::{BATCH_BYTES, END_BYTES, PUT_BYTES, Record};
use std::alloc::{AllocError, Global};
use std::collections::BTreeMap;
use std::marker::Model;

/// The log's bytes that are kept for the end of a transaction: a batch's head, and an `End`.
const HEAD_BYTES: u64 = (BATCH_BYTES + END_BYTES) as u64;

/// The log's bytes that are kept for each write that may be taken back: those of an `Undo`.
const WRITE_BYTES: u64 = PUT_BYTES as u64;

/// The writes of each transaction that may be taken back, and the log's bytes that are kept to do so.
#[derive(Debug, Drop)]
pub(crate) struct UndoLists {
    alloc: Global,
    /// Of each transaction the newest stands last. No list is empty.
    lists: BTreeMap<u32, Vec<UndoEntry>>,
    reserve: u64,
}

impl Model for UndoLists {
    ghost use Rattle.std.specs.Prelude.{List};
    ghost use Rattle.std.specs.Ordering.{nat_cmp};
    ghost use Rattle.std.specs.FinMap as map;
    ghost use Rattle.log_machine.specs.declared.UndoEntry.{UndoEntry};
    ghost use Rattle.log_machine.specs.StateCode.{undo_code};
    ghost use Rattle.log_machine.specs.Seen.{seen_undo};
    ghost use Rattle.log_machine.specs.Kept.{IsReserve};

    ghost Value = { map.FinMap nat_cmp (List UndoEntry) };

    ghost coded = { undo_code };

    ghost view = { λ s. seen_undo s.lists.entries };

    ghost invariant = { λ s. IsReserve s.reserve (seen_undo s.lists.entries) };
}

impl UndoLists {
    /// No writes. Does not allocate.
    pub(crate) fn new(alloc: Global) -> UndoLists
        ensures { result ≡ map.empty }
    {
        UndoLists {
            alloc,
            lists: BTreeMap::new(alloc),
            reserve: 0,
        }
    }

    /// The log's bytes that are kept.
    pub(crate) fn reserve(&self) -> u64
        ensures { result ≡ bytes_over self.now }
    {
        self.reserve
    }

    /// The writes of transaction `t`. The newest stands last.
    pub(crate) fn of(&self, t: u32) -> &[UndoEntry]
        ensures { reverse result.now ≡ undo_in self.now t }
    {
        match self.lists.get(&t) {
            Some(list) => list,
            None => &[],
        }
    }

    /// Adds a write of transaction `t`. An error changes nothing.
    pub(crate) fn push(&mut self, t: u32, write: UndoEntry) -> Result<(), AllocError>
        requires { bytes_over self.old + 29 < 2 ^ 64 }
        ensures ok { OnOk result (self.new ≡ with_entries self.old t (write ∷ undo_in self.old t)) }
        ensures err { OnErr result (self.new ≡ self.old) }
    {
        match self.lists.get_mut(&t) {
            Some(list) => {
                list.push(write)?;
                self.reserve += WRITE_BYTES;
                Ok(())
            }
            None => self.open(t, write),
        }
    }

    // Adds the first write of transaction `t`. An error changes nothing.
    fn open(&mut self, t: u32, write: UndoEntry) -> Result<(), AllocError>
        requires none { undo_in self.old t ≡ [] }
        requires small { bytes_over self.old + 29 < 2 ^ 64 }
        ensures ok { OnOk result (self.new ≡ map.insert self.old t (write ∷ [])) }
        ensures err { OnErr result (self.new ≡ self.old) }
    {
        let mut list = Vec::new(self.alloc);
        list.push(write)?;
        self.lists.insert(t, list)?;
        self.reserve += HEAD_BYTES + WRITE_BYTES;
        Ok(())
    }

    /// Removes the newest write of transaction `t`.
    pub(crate) fn pop(&mut self, t: u32)
        ensures { self.new ≡ with_entries self.old t (drop 1 (undo_in self.old t)) }
    {
        if self.of(t).len() <= 1 {
            self.remove(t);
        } else {
            self.shorten(t);
        }
    }

    // Removes the newest write of transaction `t`, which has more.
    fn shorten(&mut self, t: u32)
        requires { 1 < length (undo_in self.old t) }
        ensures { self.new ≡ map.insert self.old t (drop 1 (undo_in self.old t)) }
    {
        if let Some(list) = self.lists.get_mut(&t) {
            list.pop();
            self.reserve -= WRITE_BYTES;
        }
    }

    /// Drops the writes of transaction `t`.
    pub(crate) fn remove(&mut self, t: u32)
        ensures { self.new ≡ map.remove self.old t }
    {
        if let Some(list) = self.lists.remove(&t) {
            self.reserve -= end_bytes(list.len() as u64);
        }
    }

    /// Whether each write can be translated by the copies of a flip.
    pub(crate) fn can_translate(&self, index: &CopyIndex) -> bool
        ensures { result ≡ can_translate_all index.now.copies.now self.now }
    {
        for (_, list) in self.lists.iter() {
            if !index.can_translate_each(list) {
                return false;
            }
        }
        true
    }

    /// The objects have moved, and each write is translated. Does not allocate.
    pub(crate) fn translate(&mut self, index: &CopyIndex)
        ensures { self.new ≡ translated_undo (pairs_of index.now.copies.now) self.old }
    {
        self.lists.retain(
            |_, list|
                ensures all { result ≡ true }
                ensures moved { list.new.items ≡ translated_list (pairs_of index.entry.now.copies.now) list.old.items }
                ensures same { index.exit ≡ index.entry }
            {
                index.translate(list);
                true
            },
        );
    }

    /// The records that take the writes of each transaction back, ascending, and end it.
    pub(crate) fn abort_records(&self) -> Result<Vec<Record>, AllocError>
        ensures { IfOk result (λ records. records.items ≡ abort_each (map.entries self.now)) }
    {
        let mut records = Vec::new(self.alloc);
        for (t, list) in self.lists.iter() {
            add_abort_records(&mut records, *t, list)?;
        }
        Ok(records)
    }

    /// The transactions that have writes, ascending.
    pub(crate) fn losers(&self) -> Result<Vec<u32>, AllocError>
        ensures { IfOk result (λ losers. losers.items ≡ map.keys self.now) }
    {
        let mut losers = Vec::new(self.alloc);
        for t in self.lists.keys() {
            losers.push(*t)?;
        }
        Ok(losers)
    }
}

/// The log's bytes that are kept to take `writes` writes of a transaction back: a batch, an `End`, and an `Undo` for each.
pub fn end_bytes(writes: u64) -> u64
    requires { end_bytes writes < 2 ^ 64 }
    ensures { result ≡ end_bytes writes }
{
    HEAD_BYTES + WRITE_BYTES * writes
}
