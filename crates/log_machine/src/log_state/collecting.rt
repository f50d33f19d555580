//! The records of a collection: which of them can follow, and the state after them.
ghost use Rattle.std.specs.Prelude.{◌≡◌, ◌⊎◌, ◌+◌, ◌-◌, ◌<◌, ◌≤◌, ◌^◌, ◌&&◌, None, Some, option_map, IfOk, IfSome, OnOk, OnErr, is_some, true, length};
ghost use Rattle.std.specs.List.{list_all};
ghost use Rattle.heap_words.specs.Word.{meaning};
ghost use Rattle.heap_spaces.specs.Copying.{with_scanned};
ghost use Rattle.log_machine.specs.Machine.{State, settled, words_in};
ghost use Rattle.log_machine.specs.Effect.{WritesBelow, CopiesObjects, ChangesRoles};
ghost use Rattle.log_machine.specs.Copied.{moved_object};
ghost use Rattle.log_machine.specs.Collecting.{other_base, can_move, can_hold, copy_after, copies_after, begins_at, with_roles_changed, flipped_in, is_used, leads_to_used, is_current_page, can_put, scanned_in, collected_in, collecting_after};

use crate::copy_index::CopyIndex;
use crate::log_state::{AfterError, LogState};
use crate::undo_lists::UndoLists;
use heap_spaces::{Collection, CopiedObject};
use heap_words::{FIELDS_AT, PAGE_WORDS, Word, decode};
use log_records::{ObjectCopy, Record};
use std::alloc::{AllocError, Global};

/// The words of each object before its fields.
const FRONT_WORDS: usize = FIELDS_AT as usize;

impl LogState {
    /// Takes one more record of a collection, or reports that it can't follow, as no other record can. After any error the state is as before.
    /// Only a `Copy` and a `Flip` may run out of memory; whether a `Flip` can follow is not reported then.
    pub fn collecting_after(&mut self, alloc: Global, rec: &Record) -> Result<(), AfterError>
        ensures ok { OnOk result (collecting_after self.old rec.now ≡ Some self.new) }
        ensures inside { OnOk result (WritesBelow (words_in self.old.pages) rec.now) }
        ensures unshaped { result ≡ Err AfterError.Unshaped → collecting_after self.old rec.now ≡ None }
        ensures exact { collecting_after self.old rec.now ≡ None → (result ≡ Err AfterError.Unshaped) ⊎ ChangesRoles rec.now }
        ensures no_memory { result ≡ Err AfterError.NoMemory → CopiesObjects rec.now }
        ensures err { OnErr result (self.new ≡ self.old) }
    {
        let _ = &self.pages;
        match rec {
            Record::Copy { from, to, words } => self.copy(*from, *to, words.as_slice()),
            Record::Scan { page, writes } => self.scan(*page, writes.as_slice()),
            Record::Flip { copies } => self.flip(alloc, copies.as_slice()),
            Record::Collected => self.end_collection(),
            Record::Update { .. }
            | Record::Base { .. }
            | Record::Fix { .. }
            | Record::Undo { .. }
            | Record::Commit { .. }
            | Record::End { .. } => Err(AfterError::Unshaped),
        }
    }

    // Takes the copy of an object.
    fn copy(&mut self, from: u32, to: u32, words: &[u64]) -> Result<(), AfterError>
        ensures ok { OnOk result (copy_after self.old (record { from = from; to = to; words = words.now }) ≡ Some self.new) }
        ensures unshaped { result ≡ Err AfterError.Unshaped → copy_after self.old (record { from = from; to = to; words = words.now }) ≡ None }
        ensures memory { result ≡ Err AfterError.NoMemory → is_some (copy_after self.old (record { from = from; to = to; words = words.now })) ≡ true }
        ensures err { OnErr result (self.new ≡ self.old) }
    {
        if !self.can_copy(from, to, words) {
            return Err(AfterError::Unshaped);
        }
        self.add_copy(from, to, words)?;
        Ok(())
    }

    // The copy of an object can follow.
    fn can_copy(&self, from: u32, to: u32, words: &[u64]) -> bool
        ensures { result ≡ is_some (copy_after self.now (record { from = from; to = to; words = words.now })) }
    {
        match &self.collection {
            Some(collection) => {
                self.can_move(collection, from, words) && self.can_hold(to, words)
            }
            None => false,
        }
    }

    // An object of as many words, at least a header and a birth, at an address of the from-space is left to be copied.
    fn can_move(&self, collection: &Collection, from: u32, words: &[u64]) -> bool
        ensures { result ≡ can_move self.now collection.now from (length words.now) }
    {
        let start = u64::from(self.other_base());
        let used = u64::from(collection.used());
        let end = u64::from(from) + words.len() as u64;
        let copied = u64::from(collection.copied()) + words.len() as u64;
        words.len() >= FRONT_WORDS
            && (start <= u64::from(from) && end <= start + used)
            && copied <= used
            && !collection.has_moved(from)
    }

    // As many words from an address on are the next words of the current space that are not used.
    fn can_hold(&self, to: u32, words: &[u64]) -> bool
        ensures { result ≡ can_hold self.now to (length words.now) }
    {
        let end = u64::from(self.base) + u64::from(self.used);
        let taken = u64::from(self.used) + words.len() as u64;
        u64::from(to) == end && taken <= u64::from(PAGE_WORDS) * u64::from(self.pages)
    }

    /// The collection that runs, if one does.
    pub fn collection(&self) -> Option<&Collection>
        ensures value { option_map (λ c. c.now) result ≡ self.now.collection }
        ensures fits { IfSome result (λ c. other_base self.now + c.now.used ≤ words_in self.now.pages) }
    {
        self.collection.as_ref()
    }

    // Adds the copy of an object, which can follow.
    fn add_copy(&mut self, from: u32, to: u32, words: &[u64]) -> Result<(), AllocError>
        requires { is_some (copy_after self.old (record { from = from; to = to; words = words.now })) ≡ true }
        ensures ok { OnOk result (copy_after self.old (record { from = from; to = to; words = words.now }) ≡ Some self.new) }
        ensures err { OnErr result (self.new ≡ self.old) }
    {
        if let Some(collection) = &mut self.collection {
            collection.add_copies(&[copied_object(from, to, words)])?;
            self.used += words.len() as u32;
        }
        Ok(())
    }

    // Takes the scan of a page.
    fn scan(&mut self, page: u32, writes: &[(u32, u64)]) -> Result<(), AfterError>
        ensures ok { OnOk result (scanned_in self.old page writes.now self.old.collection ≡ Some self.new) }
        ensures unshaped { result ≡ Err AfterError.Unshaped → scanned_in self.old page writes.now self.old.collection ≡ None }
        ensures memory { result ≡ Err AfterError.NoMemory → ⊥ }
        ensures err { OnErr result (self.new ≡ self.old) }
    {
        if !self.is_collecting() || !self.can_scan(page, writes) {
            return Err(AfterError::Unshaped);
        }
        scan_page(&mut self.collection, page);
        Ok(())
    }

    // The page is one of the current space's, and each write puts a reference to a used word into a used word.
    fn can_scan(&self, page: u32, writes: &[(u32, u64)]) -> bool
        ensures { result ≡ (is_current_page self.now page && list_all (can_put self.now) writes.now) }
    {
        self.is_current_page(page) && self.can_put_all(writes)
    }

    // The page is one of the current space's.
    fn is_current_page(&self, page: u32) -> bool
        ensures { result ≡ is_current_page self.now page }
    {
        let first = u64::from(PAGE_WORDS) * u64::from(page);
        let start = u64::from(self.base);
        start <= first && first < start + u64::from(PAGE_WORDS) * u64::from(self.pages)
    }

    // Each write puts a reference to a used word into a used word.
    fn can_put_all(&self, writes: &[(u32, u64)]) -> bool
        ensures { result ≡ list_all (can_put self.now) writes.now }
    {
        writes.iter().all(|write| self.can_put(*write))
    }

    // A write puts a reference to a used word into a used word.
    fn can_put(&self, write: (u32, u64)) -> bool
        ensures { result ≡ can_put self.now write }
    {
        self.is_used(write.0) && self.leads_to_used(write.1)
    }

    // The word address lies in the used words of the current space.
    fn is_used(&self, at: u32) -> bool
        ensures { result ≡ is_used self.now at }
    {
        self.base <= at && u64::from(at) < u64::from(self.base) + u64::from(self.used)
    }

    // The word is a reference to a used word of the current space.
    fn leads_to_used(&self, word: u64) -> bool
        ensures { result ≡ leads_to_used self.now (meaning word) }
    {
        match decode(word) {
            Some(Word::Stable(address)) => self.is_used(address),
            _ => false,
        }
    }

    // Takes the flip: the spaces change their roles, the objects are copied, and the undo entries are translated.
    fn flip(&mut self, alloc: Global, copies: &[ObjectCopy]) -> Result<(), AfterError>
        ensures ok { OnOk result (flipped_in self.old copies.now self.old.collection ≡ Some self.new) }
        ensures unshaped { result ≡ Err AfterError.Unshaped → flipped_in self.old copies.now self.old.collection ≡ None }
        ensures err { OnErr result (self.new ≡ self.old) }
    {
        if self.is_collecting() || !begins_at(self.base, copies) {
            return Err(AfterError::Unshaped);
        }
        let to_space = self.to_space(alloc, copies)?;
        let index = CopyIndex::of(alloc, copies)?;
        if !self.undo.can_translate(&index) {
            return Err(AfterError::Unshaped);
        }
        self.undo.translate(&index);
        self.base = to_space.base;
        self.used = to_space.used;
        self.collection = to_space.collection;
        Ok(())
    }

    // A collection runs.
    fn is_collecting(&self) -> bool
        ensures { result ≡ is_some self.now.collection }
    {
        self.collection.is_some()
    }

    // The state after the spaces have changed their roles and these objects are copied, if nothing may be taken back.
    fn to_space(&self, alloc: Global, copies: &[ObjectCopy]) -> Result<LogState, AfterError>
        ensures ok { IfOk result (λ (next : State). copies_after (settled (with_roles_changed self.now)) copies.now ≡ Some next) }
        ensures unshaped { result ≡ Err AfterError.Unshaped → copies_after (settled (with_roles_changed self.now)) copies.now ≡ None }
    {
        let mut next = self.with_roles_changed(alloc);
        for copy in copies {
            next.copy(copy.from, copy.to, copy.words.as_slice())?;
        }
        Ok(next)
    }

    // The state after the spaces have changed their roles, if nothing is copied yet and nothing may be taken back.
    fn with_roles_changed(&self, alloc: Global) -> LogState
        ensures { result ≡ settled (with_roles_changed self.now) }
    {
        LogState {
            pages: self.pages,
            base: self.other_base(),
            used: 0,
            collection: Some(Collection::begin(alloc, self.used)),
            undo: UndoLists::new(alloc),
            commits: self.commits,
            next: self.next,
        }
    }

    // Takes the end of a collection.
    fn end_collection(&mut self) -> Result<(), AfterError>
        ensures ok { OnOk result (collected_in self.old self.old.collection ≡ Some self.new) }
        ensures unshaped { result ≡ Err AfterError.Unshaped → collected_in self.old self.old.collection ≡ None }
        ensures memory { result ≡ Err AfterError.NoMemory → ⊥ }
        ensures err { OnErr result (self.new ≡ self.old) }
    {
        if !self.is_collected() {
            return Err(AfterError::Unshaped);
        }
        self.collection = None;
        Ok(())
    }

    // A collection runs, and nothing is gray.
    fn is_collected(&self) -> bool
        ensures { result ≡ is_some (collected_in self.now self.now.collection) }
    {
        match &self.collection {
            Some(collection) => collection.is_empty(),
            None => false,
        }
    }
}

// The page is scanned, if a collection runs.
fn scan_page(collection: &mut Option<Collection>, page: u32)
    requires { page < 2 ^ 26 }
    ensures { collection.new ≡ option_map (λ k. with_scanned k page) collection.old }
{
    if let Some(collection) = collection {
        collection.scanned(page);
    }
}

// What a collection keeps of an object of these words that is copied.
fn copied_object(from: u32, to: u32, words: &[u64]) -> CopiedObject
    requires front { 2 ≤ length words.now }
    requires few { length words.now < 2 ^ 32 }
    ensures { result ≡ moved_object (record { from = from; to = to; words = words.now }) }
{
    CopiedObject {
        from,
        to,
        header: words[0],
        words: words.len() as u32,
    }
}

// The first of these copies is of the object at an address.
fn begins_at(base: u32, copies: &[ObjectCopy]) -> bool
    ensures { result ≡ begins_at base copies.now }
{
    match copies {
        [copy, ..] => copy.from == base,
        [] => false,
    }
}
