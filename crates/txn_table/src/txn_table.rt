//! The transactions of the sessions.
ghost use Rattle.std.specs.Prelude.{◌≡◌, ◌<◌, ◌≤◌, ◌+◌, ◌↔◌, ◌∷◌, drop, reverse, length, slice_get, slice_set, None, Some, Err, IsTrue, IsSome, IfSome, IsSomeAnd, IfOk, OnOk, OnErr};
ghost use Rattle.std.specs.Option.{option_copied};
ghost use Rattle.heap_words.specs.Word.{IsFieldWord};
ghost use Rattle.volatile_area.specs.Area.{with_object, with_field, HasField};
ghost use Rattle.relocation.specs.Relocation.{IsRelocation};
ghost use Rattle.txn_table.specs.Roots.{AreRoots};
ghost use Rattle.txn_table.specs.Translation.{HaveGoneAlong, HasGoneAlongAt};
ghost use Rattle.txn_table.specs.Table.{new_table, transaction_of, with_begun, with_ended, Changes};

use crate::place::Place;
use crate::transaction::Transaction;
use log_machine::{LAST_NUMBER, UndoEntry};
use object_locks::LockTable;
use std::alloc::{AllocError, Global};
use std::marker::Model;
use volatile_area::{Area, AreaError};

/// How many sessions there are: 1 to 32.
pub const SESSIONS: u32 = 32;

/// The transactions that have not ended, each with its session's number, and the number of the next.
#[derive(Debug, Drop)]
pub struct TxnTable {
    alloc: Global,
    next: u32,
    /// The transaction of each session, the first session's first.
    slots: Vec<Option<Transaction>>,
}

impl Model for TxnTable {
    ghost use Rattle.std.specs.Prelude.{◌≡◌, length};
    ghost use Rattle.txn_table.specs.Table.{TableState};
    ghost use Rattle.txn_table.specs.TableCode.{table_code};

    ghost Value = { TableState };

    ghost coded = { table_code };

    ghost use Rattle.txn_table.specs.Slots.{table_of};

    ghost view = { λ t. table_of t.next t.slots.items };

    ghost invariant = { λ t. length t.slots.items ≡ 32 };
}

impl TxnTable {
    /// No session has a transaction, and none begins before `set_next` has given the number of the first.
    pub fn new(alloc: Global) -> Result<TxnTable, AllocError>
        ensures { IfOk result (λ table. table ≡ new_table (LAST_NUMBER + 1)) }
    {
        let mut slots = Vec::new(alloc);
        for _ in 0..SESSIONS {
            slots.push(None)?;
        }
        let next = LAST_NUMBER + 1;
        Ok(TxnTable { alloc, next, slots })
    }

    /// The number of the next transaction.
    pub fn next(&self) -> u32
        ensures { result ≡ self.now.next }
    {
        self.next
    }

    /// Sets the number of the next transaction.
    pub fn set_next(&mut self, next: u32)
        ensures { self.new ≡ record self.old { next = next } }
    {
        self.next = next;
    }

    /// Whether the session has a transaction.
    pub fn active(&self, s: u32) -> bool
        ensures { IsTrue result ↔ IsSome (transaction_of self.now s) }
    {
        self.slot(s).is_some()
    }

    // The session's transaction, if it has one.
    fn slot(&self, s: u32) -> Option<&Transaction>
        ensures { option_copied result ≡ transaction_of self.now s }
    {
        let slots = self.slots.as_slice();
        match s.checked_sub(1) {
            Some(place) => slots.get(place as usize)?.as_ref(),
            None => None,
        }
    }

    // The session's place among the slots.
    fn place(&self, s: u32) -> usize
        requires { IsSome (transaction_of self.now s) }
        ensures place { result + 1 ≡ s }
        ensures within { result < 32 }
    {
        let sessions = self.slots.len();
        prove!(s >= 1 && s as usize <= sessions);
        (s - 1) as usize
    }

    // The session's transaction.
    fn transaction(&self, s: u32) -> &Transaction
        requires { IsSome (transaction_of self.now s) }
        ensures { transaction_of self.now s ≡ Some result.now }
    {
        self.slot(s).unwrap()
    }

    /// Begins a transaction of the session, and returns its number. Does not allocate.
    pub fn begin(&mut self, s: u32) -> u32
        requires first { 1 ≤ s }
        requires last { s ≤ 32 }
        requires idle { transaction_of self.old s ≡ None }
        requires numbers { self.old.next < 4294967295 }
        ensures number { result ≡ self.old.next }
        ensures begun { self.new ≡ with_begun self.old s }
    {
        let number = self.next;
        self.slots[(s - 1) as usize] = Some(Transaction::new(self.alloc, number));
        self.next += 1;
        number
    }

    /// The number of the session's transaction.
    pub fn number(&self, s: u32) -> u32
        requires { IsSome (transaction_of self.now s) }
        ensures { IfSome (transaction_of self.now s) (λ t. result ≡ t.number) }
    {
        self.transaction(s).number()
    }

    /// The place of the object that a handle of the session's transaction holds, if it holds one.
    pub fn handle(&self, s: u32, h: u32) -> Option<Place>
        requires active { IsSome (transaction_of self.now s) }
        requires within { h < 64 }
        ensures { IfSome (transaction_of self.now s) (λ t. slice_get t.handles h ≡ Some result) }
    {
        self.transaction(s).handle(h)
    }

    /// Sets what a handle of the session's transaction holds: the object at a place, or nothing.
    pub fn set_handle(&mut self, s: u32, h: u32, to: Option<Place>)
        requires active { IsSome (transaction_of self.old s) }
        requires within { h < 64 }
        ensures { Changes self.old self.new s (λ t. record t { handles = slice_set t.handles h to }) }
    {
        let place = self.place(s);
        if let Some(t) = &mut self.slots[place] {
            t.set_handle(h, to);
        }
    }

    /// The words that writes of the session's transaction replaced. The newest stands last.
    pub fn undo(&self, s: u32) -> &[UndoEntry]
        requires { IsSome (transaction_of self.now s) }
        ensures { IfSome (transaction_of self.now s) (λ t. reverse result.now ≡ t.undo) }
    {
        self.transaction(s).undo()
    }

    /// Adds what a write of the session's transaction replaced. An error changes nothing.
    pub fn push_undo(&mut self, s: u32, entry: UndoEntry) -> Result<(), AllocError>
        requires { IsSome (transaction_of self.old s) }
        ensures ok { OnOk result (Changes self.old self.new s (λ t. record t { undo = entry ∷ t.undo })) }
        ensures err { OnErr result (self.new ≡ self.old) }
    {
        let place = self.place(s);
        if let Some(t) = &mut self.slots[place] {
            t.push_undo(entry)?;
        }
        Ok(())
    }

    /// Removes and returns what the newest write of the session's transaction replaced, if there is one.
    pub fn pop_undo(&mut self, s: u32) -> Option<UndoEntry>
        requires { IsSome (transaction_of self.old s) }
        ensures newest { IfSome (transaction_of self.old s) (λ t. result ≡ slice_get t.undo 0) }
        ensures others { Changes self.old self.new s (λ t. record t { undo = drop 1 t.undo }) }
    {
        let place = self.place(s);
        match &mut self.slots[place] {
            Some(t) => t.pop_undo(),
            None => None,
        }
    }

    /// The objects that the session's transaction has made.
    pub fn area(&self, s: u32) -> &Area
        requires { IsSome (transaction_of self.now s) }
        ensures { IfSome (transaction_of self.now s) (λ t. result.now ≡ t.area) }
    {
        self.transaction(s).area()
    }

    /// Makes an object with `fields` fields, at most 510, in the area of the session's transaction, and returns its index. An error changes
    /// nothing.
    pub fn new_object(&mut self, s: u32, fields: u32) -> Result<u32, AreaError>
        requires active { IsSome (transaction_of self.old s) }
        requires few { fields ≤ 510 }
        ensures index { IfOk result (λ object. IfSome (transaction_of self.old s) (λ t. object ≡ length t.area.words)) }
        ensures made { OnOk result (Changes self.old self.new s (λ t. record t { area = with_object t.area fields })) }
        ensures full { (used : _) → (result ≡ Err (AreaError.VolatileFull used)) ↔ IsSomeAnd (transaction_of self.old s) (λ t. (used ≡ length t.area.words) × (4096 < used + 2 + fields)) }
        ensures err { OnErr result (self.new ≡ self.old) }
    {
        let place = self.place(s);
        match &mut self.slots[place] {
            Some(t) => t.new_object(fields),
            None => Err(AreaError::NoMemory),
        }
    }

    /// Puts a field's word into a field of an object of that area.
    pub fn set_field(&mut self, s: u32, object: u32, field: u32, word: u64)
        requires there { IsSomeAnd (transaction_of self.old s) (λ t. HasField t.area object field) }
        requires meant { IsFieldWord word }
        ensures { Changes self.old self.new s (λ t. record t { area = with_field t.area object field word }) }
    {
        let place = self.place(s);
        if let Some(t) = &mut self.slots[place] {
            t.set_field(object, field, word);
        }
    }

    /// Ends the session's transaction.
    pub fn end(&mut self, s: u32)
        requires { IsSome (transaction_of self.old s) }
        ensures { self.new ≡ with_ended self.old s }
    {
        let place = self.place(s);
        self.slots[place] = None;
    }

    /// The word addresses of the stable objects that are locked or that a transaction names, ascending, each once: what a collector keeps
    /// besides the root object.
    pub fn roots(&self, locks: &LockTable) -> Result<Vec<u32>, AllocError>
        ensures { IfOk result (λ roots. AreRoots self.now locks.now roots.items) }
    {
        let mut roots = locks.addresses()?;
        for slot in &self.slots {
            if let Some(t) = slot {
                t.add_roots(&mut roots)?;
            }
        }
        roots.sort_unstable();
        roots.dedup();
        Ok(roots)
    }

    /// Objects have moved, as the pairs say: what the transactions keep is updated, and nothing else changes. Does not allocate.
    pub fn translate(&mut self, pairs: &[(u32, u32)])
        requires { IsRelocation pairs.now }
        ensures { HaveGoneAlong pairs.now self.old self.new }
    {
        for place in 0..self.slots.len() {
            self.translate_slot(place, pairs);
        }
    }

    // The same for one session.
    fn translate_slot(&mut self, place: usize, pairs: &[(u32, u32)])
        requires within { place < 32 }
        requires moves { IsRelocation pairs.now }
        ensures { HasGoneAlongAt pairs.now (place + 1) self.old self.new }
    {
        if let Some(t) = &mut self.slots[place] {
            t.translate(pairs);
        }
    }
}
