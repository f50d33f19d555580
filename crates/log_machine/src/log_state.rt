//! The state of the heap after a list of records.
ghost use Rattle.std.specs.Prelude.{◌≡◌, ◌+◌, ◌<◌, ◌≤◌, ◌^◌, ◌↔◌, ◌⊎◌, ◌∷◌, [], None, Some, IfOk, OnOk, OnErr, IsTrue, is_some, option_map, true, drop, reverse, length, nat_lt};
ghost use Rattle.std.specs.FinMap as map;
ghost use Rattle.log_records.specs.declared.Record.TheVariants.{Update, Base, Fix, Undo, Commit, End, Copy, Scan, Flip, Collected};
ghost use Rattle.log_machine.specs.Machine.{start, undo_of, losers, spaces_of, settled, with_entries, space_words, words_in, field_at, number_of, is_number, is_number_or_none, owed, lies_inside, is_next_free, is_promoted_by, is_born_in, none_volatile, without_newest, has_none, turned, promoted, row_after, after, reserve, rollback};
ghost use Rattle.log_machine.specs.Collecting.{other_base};
ghost use Rattle.log_machine.specs.Effect.{WritesBelow, EachWritesBelow, AddsEntry, IsOfTransaction, ChangesRoles, TakesMemory};
ghost use Rattle.log_machine.specs.UndoEntry.{undo_entry};

mod collecting;

use crate::UndoEntry;
use crate::undo_lists::UndoLists;
use heap_spaces::{Collection, Spaces};
use heap_words::{FIELDS_AT, PAGE_WORDS, ROOT_FIELDS, is_stable, is_volatile};
use log_records::Record;
use std::alloc::{AllocError, Global};
use std::marker::Model;

/// The words of the root object: its header, its birth and its fields.
pub const ROOT_WORDS: u32 = FIELDS_AT + ROOT_FIELDS;

/// The greatest number of a transaction.
pub const LAST_NUMBER: u32 = 4_294_967_294;

/// Why a record was not taken.
#[derive(Clone, Copy, Debug, PartialEq, Eq)]
pub enum AfterError {
    /// An allocation failed for another write that may be taken back.
    NoMemory,
    /// The record can't follow those before it.
    Unshaped,
}

impl From<AllocError> for AfterError {
    ghost use Rattle.std.specs.Prelude.{◌≡◌};
    ghost use Rattle.log_machine.specs.declared.log_state.AfterError.TheVariants.{NoMemory};

    ghost from_gives = { λ _ error. error ≡ NoMemory };

    fn from(_: AllocError) -> AfterError {
        AfterError::NoMemory
    }
}

/// What the records so far say: which collection runs, which writes may be taken back, how many transactions are committed, and the number
/// of the next one.
#[derive(Debug, Drop)]
pub struct LogState {
    pages: u32,
    base: u32,
    used: u32,
    collection: Option<Collection>,
    undo: UndoLists,
    commits: u64,
    next: u32,
}

impl Model for LogState {
    ghost use Rattle.log_machine.specs.Machine.{State};
    ghost use Rattle.log_machine.specs.Sound.{IsConsistent};
    ghost use Rattle.log_machine.specs.StateCode.{state_code};

    ghost Value = { State };

    ghost coded = { state_code };

    ghost view = { λ s. record { pages = s.pages; base = s.base; used = s.used; collection = s.collection; undo = s.undo; commits = s.commits; next = s.next } };

    ghost invariant = { λ s. IsConsistent (record { pages = s.pages; base = s.base; used = s.used; collection = s.collection; undo = s.undo; commits = s.commits; next = s.next }) };
}

impl LogState {
    /// Before the first record, in a heap of two spaces of `pages` pages whose first transaction has the number `first`. Each word
    /// has an address of 32 bits. Does not allocate.
    pub fn start(alloc: Global, pages: u32, first: u32) -> LogState
        requires some { 1 ≤ pages }
        requires addresses { words_in pages ≤ 2097152 }
        ensures { result ≡ start pages first }
    {
        LogState {
            pages,
            base: 0,
            used: ROOT_WORDS,
            collection: None,
            undo: UndoLists::new(alloc),
            commits: 0,
            next: first,
        }
    }

    /// The transactions whose writes may be taken back, ascending.
    pub fn losers(&self) -> Result<Vec<u32>, AllocError>
        ensures { IfOk result (λ found. found.items ≡ losers self.now) }
    {
        self.undo.losers()
    }

    /// How many pages each of the two spaces has.
    pub fn pages(&self) -> u32
        ensures pages { result ≡ self.now.pages }
        ensures addresses { words_in self.now.pages ≤ 2097152 }
    {
        self.pages
    }

    /// The address of the current space's first word.
    pub fn base(&self) -> u32
        ensures { result ≡ self.now.base }
    {
        self.base
    }

    /// The address of the first word of the space that is not current.
    pub fn other_base(&self) -> u32
        ensures { result ≡ other_base self.now }
    {
        PAGE_WORDS * self.pages - self.base
    }

    /// How many words of the current space its objects take.
    pub fn used(&self) -> u32
        ensures used { result ≡ self.now.used }
        ensures room { self.now.used ≤ space_words self.now.pages }
        ensures fits { self.now.base + self.now.used ≤ words_in self.now.pages }
    {
        self.used
    }

    /// Its spaces.
    pub fn spaces(&self) -> Spaces
        ensures { result ≡ spaces_of self.now }
    {
        Spaces::new(self.pages, self.base, self.used, self.owed())
    }

    // How many words of the current space are kept for what a collection has still to copy.
    fn owed(&self) -> u32
        ensures { result ≡ owed self.now }
    {
        match &self.collection {
            Some(collection) => collection.owed(),
            None => 0,
        }
    }

    /// The collection that runs, if one does, from a state that is not needed any more.
    pub fn into_collection(self) -> Option<Collection>
        ensures { result ≡ self.collection }
    {
        self.collection
    }

    /// Nothing may be taken back any more: each transaction has ended.
    pub fn settle(&mut self, alloc: Global)
        ensures { self.new ≡ settled self.old }
    {
        self.undo = UndoLists::new(alloc);
    }

    /// How many transactions are committed.
    pub fn commits(&self) -> u64
        ensures { result ≡ self.now.commits }
    {
        self.commits
    }

    /// The number of the next transaction.
    pub fn next(&self) -> u32
        ensures { result ≡ self.now.next }
    {
        self.next
    }

    /// The log's bytes that are kept to take writes back: a batch, an `End`, and an `Undo` for each write, for each transaction.
    pub fn reserve(&self) -> u64
        ensures { result ≡ reserve self.now }
    {
        self.undo.reserve()
    }

    /// The records that an opening appends: they take back the writes of each transaction that has not ended, ascending.
    pub fn rollback(&self) -> Result<Vec<Record>, AllocError>
        ensures records { IfOk result (λ records. records.items ≡ rollback self.now) }
        ensures inside { IfOk result (λ records. EachWritesBelow (words_in self.now.pages) records.items) }
    {
        self.undo.abort_records()
    }

    /// Takes one more record, or reports that it can't follow. After any error the state is as before. Only an `Update`, a `Copy` and a `Flip`
    /// may run out of memory; whether a `Flip` can follow is not reported then.
    pub fn after(&mut self, alloc: Global, rec: &Record) -> Result<(), AfterError>
        requires commits { self.old.commits + 1 < 2 ^ 64 }
        requires room { reserve self.old + 29 < 2 ^ 64 }
        ensures ok { OnOk result (after self.old rec.now ≡ Some self.new) }
        ensures inside { OnOk result (WritesBelow (words_in self.old.pages) rec.now) }
        ensures unshaped { result ≡ Err AfterError.Unshaped → after self.old rec.now ≡ None }
        ensures exact { after self.old rec.now ≡ None → (result ≡ Err AfterError.Unshaped) ⊎ ChangesRoles rec.now }
        ensures no_memory { result ≡ Err AfterError.NoMemory → TakesMemory rec.now }
        ensures err { OnErr result (self.new ≡ self.old) }
    {
        match rec {
            Record::Copy { .. } | Record::Scan { .. } | Record::Flip { .. } | Record::Collected => {
                self.collecting_after(alloc, rec)
            }
            Record::Update { .. }
            | Record::Base { .. }
            | Record::Fix { .. }
            | Record::Undo { .. }
            | Record::Commit { .. }
            | Record::End { .. } => self.transaction_after(rec),
        }
    }

    // Takes one more record of a transaction, or reports that it can't follow, as no other record can. After any error the state is as before.
    // Only an `Update` may run out of memory.
    fn transaction_after(&mut self, rec: &Record) -> Result<(), AfterError>
        requires transaction { IsOfTransaction rec.now }
        requires commits { self.old.commits + 1 < 2 ^ 64 }
        requires room { reserve self.old + 29 < 2 ^ 64 }
        ensures ok { OnOk result (after self.old rec.now ≡ Some self.new) }
        ensures inside { OnOk result (WritesBelow (words_in self.old.pages) rec.now) }
        ensures unshaped { (result ≡ Err AfterError.Unshaped) ↔ (after self.old rec.now ≡ None) }
        ensures no_memory { result ≡ Err AfterError.NoMemory → AddsEntry rec.now }
        ensures err { OnErr result (self.new ≡ self.old) }
    {
        if !self.can_follow(rec) {
            return Err(AfterError::Unshaped);
        }
        match rec {
            Record::Update {
                t,
                object,
                field,
                was,
                ..
            } => self.add(*t, entry(*object, *field, *was))?,
            Record::Base { t, words, .. } => self.promote(*t, words.as_slice()),
            Record::Undo { t, .. } => self.take_off(*t),
            Record::Commit { t } => self.commit(*t),
            Record::Fix { t, .. } | Record::End { t } => self.raise_next(*t),
            Record::Copy { .. } | Record::Scan { .. } | Record::Flip { .. } | Record::Collected =>
                return Err(AfterError::Unshaped),
        }
        Ok(())
    }

    // Adds a write of transaction `t` that may be taken back.
    fn add(&mut self, t: u32, write: UndoEntry) -> Result<(), AllocError>
        requires number { is_number t ≡ true }
        requires inside { lies_inside self.old write.object write.field ≡ true }
        requires room { reserve self.old + 29 < 2 ^ 64 }
        ensures ok { OnOk result (self.new ≡ turned self.old t (with_entries self.old.undo t (write ∷ undo_of self.old t)) 0) }
        ensures err { OnErr result (self.new ≡ self.old) }
    {
        self.undo.push(t, write)?;
        self.next = self.next.max(t + 1);
        Ok(())
    }

    // An object of transaction `t` has become stable, which has these words.
    fn promote(&mut self, t: u32, words: &[u64])
        requires number { is_number t ≡ true }
        requires room { self.old.used + length words.now + owed self.old ≤ space_words self.old.pages }
        ensures { self.new ≡ promoted self.old t (length words.now) }
    {
        self.next = self.next.max(t + 1);
        self.used += words.len() as u32;
    }

    // Removes the newest write of transaction `t`.
    fn take_off(&mut self, t: u32)
        requires { is_number t ≡ true }
        ensures { self.new ≡ turned self.old t (with_entries self.old.undo t (drop 1 (undo_of self.old t))) 0 }
    {
        self.undo.pop(t);
        self.next = self.next.max(t + 1);
    }

    // Drops the writes of transaction `t`, which is committed.
    fn commit(&mut self, t: u32)
        requires number { is_number t ≡ true }
        requires few { self.old.commits + 1 < 2 ^ 64 }
        ensures { self.new ≡ turned self.old t (with_entries self.old.undo t []) 1 }
    {
        self.undo.remove(t);
        self.commits += 1;
        self.next = self.next.max(t + 1);
    }

    // The number of transaction `t` is taken.
    fn raise_next(&mut self, t: u32)
        requires { is_number t ≡ true }
        ensures { self.new ≡ turned self.old t self.old.undo 0 }
    {
        self.next = self.next.max(t + 1);
    }

    // The record of a transaction can follow those before it.
    fn can_follow(&self, rec: &Record) -> bool
        requires { IsOfTransaction rec.now }
        ensures follows { result ≡ is_some (after self.now rec.now) }
        ensures inside { result ≡ true → WritesBelow (words_in self.now.pages) rec.now }
    {
        has_number(rec) && self.passes(rec)
    }

    // The record of a transaction whose number is one can follow those before it.
    fn passes(&self, rec: &Record) -> bool
        requires { IsOfTransaction rec.now }
        ensures follows { result ≡ is_some (row_after self.now rec.now) }
        ensures inside { result ≡ true → WritesBelow (words_in self.now.pages) rec.now }
    {
        match rec {
            Record::Update { object, field, .. } => self.lies_inside(*object, *field),
            Record::Base { t, address, words } => {
                self.is_next_free(*address, words.as_slice())
                    && is_promoted_by(*t, words.as_slice())
            }
            Record::Fix {
                object,
                field,
                word,
                ..
            } => self.lies_inside(*object, *field) && is_stable(*word),
            Record::Undo {
                t,
                object,
                field,
                word,
            } => self.is_newest(*t, entry(*object, *field, *word)),
            Record::Commit { .. } => true,
            Record::End { t } => self.undo.of(*t).is_empty(),
            Record::Copy { .. } | Record::Scan { .. } | Record::Flip { .. } | Record::Collected =>
                false,
        }
    }

    // The field lies in the used words of the current space.
    fn lies_inside(&self, object: u32, field: u16) -> bool
        ensures answer { result ≡ lies_inside self.now object field }
        ensures inside { result ≡ true → field_at object field < words_in self.now.pages }
    {
        let address = u64::from(object) + u64::from(FIELDS_AT) + u64::from(field);
        object >= self.base && address < u64::from(self.base) + u64::from(self.used)
    }

    // The words are as many as the next ones of the current space, from the address on, that are not used, and none of these is owed to a
    // collection.
    fn is_next_free(&self, address: u32, words: &[u64]) -> bool
        ensures answer { result ≡ is_next_free self.now address (length words.now) }
        ensures inside { result ≡ true → address + length words.now ≤ words_in self.now.pages }
    {
        let end = u64::from(self.base) + u64::from(self.used);
        let taken = u64::from(self.used) + words.len() as u64 + u64::from(self.owed());
        u64::from(address) == end && taken <= u64::from(PAGE_WORDS) * u64::from(self.pages)
    }

    // This is the newest write of transaction `t` that may be taken back.
    fn is_newest(&self, t: u32, write: UndoEntry) -> bool
        ensures answer { result ≡ is_some (without_newest (undo_of self.now t) write) }
        ensures inside { result ≡ true → field_at write.object write.field < words_in self.now.pages }
    {
        ends_with(self.undo.of(t), write)
    }
}

// This is the newest write, which stands last.
fn ends_with(list: &[UndoEntry], write: UndoEntry) -> bool
    ensures { result ≡ is_some (without_newest (reverse list.now) write) }
{
    match list.last() {
        Some(newest) => *newest == write,
        None => false,
    }
}

// The words are of an object that the transaction made, and its fields refer to no volatile object.
fn is_promoted_by(t: u32, words: &[u64]) -> bool
    ensures { result ≡ is_promoted_by t words.now }
{
    match words {
        [_, birth, fields @ ..] => is_born_in(t, *birth) && none_volatile(fields),
        _ => false,
    }
}

// The birth is that of an object that the transaction made.
fn is_born_in(t: u32, birth: u64) -> bool
    ensures { result ≡ is_born_in t birth }
{
    birth >> 32 == u64::from(t) && birth & 0xffff_ffff >= 1
}

// None of the words is a reference to a volatile object.
fn none_volatile(words: &[u64]) -> bool
    ensures { result ≡ none_volatile words.now }
{
    words.iter().all(|word| !is_volatile(*word))
}

// What a write replaced.
fn entry(object: u32, field: u16, was: u64) -> UndoEntry
    ensures { result ≡ undo_entry object field was }
{
    UndoEntry { object, field, was }
}

// A transaction can have this number.
fn is_number(t: u32) -> bool
    ensures { result ≡ is_number t }
{
    1 <= t && t <= LAST_NUMBER
}

// The record's transaction, if it is one's, can have its number.
fn has_number(rec: &Record) -> bool
    ensures { result ≡ is_number_or_none (number_of rec.now) }
{
    match rec {
        Record::Update { t, .. }
        | Record::Base { t, .. }
        | Record::Fix { t, .. }
        | Record::Undo { t, .. }
        | Record::Commit { t }
        | Record::End { t } => is_number(*t),
        Record::Copy { .. } | Record::Scan { .. } | Record::Flip { .. } | Record::Collected => {
            true
        }
    }
}
