//! The copies of a flip, indexed by where their objects stood.
ghost use Rattle.std.specs.Prelude.{◌≡◌, ◌<◌, IfOk, option_map};
ghost use Rattle.std.specs.List.{list_all};
ghost use Rattle.heap_words.specs.Word.{meaning};
ghost use Rattle.relocation.specs.Relocation.{moved_to, translated_word};
ghost use Rattle.log_records.specs.declared.copies.ObjectCopy.{ObjectCopy};
ghost use Rattle.log_machine.specs.Collecting.{copy_of, pairs_of, has_field, follows_copies, can_translate};
ghost use Rattle.log_machine.specs.CopyIndex.{AreIndexed, StandInside};
ghost use Rattle.log_machine.specs.Translation.{translated_entry, translated_list};

use crate::UndoEntry;
use heap_words::{Word, decode, encode};
use log_records::ObjectCopy;
use std::alloc::{AllocError, Global};
use std::collections::BTreeMap;

/// The copies of a flip, in any order, and the place of each in the list by the word address at which its object stood.
#[derive(Drop)]
pub(crate) struct CopyIndex<'a> {
    copies: &'a [ObjectCopy],
    places: BTreeMap<u32, usize>,
    ghost indexed: { AreIndexed copies.now copies.now places.entries },
    ghost inside: { StandInside copies.now },
}

impl<'a> CopyIndex<'a> {
    /// Indexes these copies, each of which stands in the words of a heap. It allocates memory for their places.
    pub(crate) fn of(alloc: Global, copies: &'a [ObjectCopy]) -> Result<CopyIndex<'a>, AllocError>
        requires { StandInside copies.now }
        ensures { IfOk result (λ index. index.copies.now ≡ copies.now) }
    {
        let mut places = BTreeMap::new(alloc);
        let mut place = copies.len();
        while place > 0 {
            place -= 1;
            places.insert(copies[place].from, place)?;
        }
        Ok(CopyIndex { copies, places })
    }

    // The copy of the object that stood at an address: of two copies the first.
    fn copy_of(&self, from: u32) -> Option<&'a ObjectCopy>
        ensures { option_map (λ copy. copy.now) result ≡ copy_of self.now.copies.now from }
    {
        self.copies.get(*self.places.get(&from)?)
    }

    /// Whether each entry can be translated by the copies: its object is copied with that field, and so is what the word leads to that it would
    /// put back.
    pub(crate) fn can_translate_each(&self, entries: &[UndoEntry]) -> bool
        ensures { result ≡ list_all (can_translate self.now.copies.now) entries.now }
    {
        entries.iter().all(|entry| self.can_translate(*entry))
    }

    // The entry can be translated by the copies.
    fn can_translate(&self, entry: UndoEntry) -> bool
        ensures { result ≡ can_translate self.now.copies.now entry }
    {
        self.has_field(entry.object, entry.field) && self.follows(entry.was)
    }

    // The object that stood at an address is copied, with such a field.
    fn has_field(&self, object: u32, field: u16) -> bool
        ensures { result ≡ has_field field (copy_of self.now.copies.now object) }
    {
        match self.copy_of(object) {
            Some(copy) => usize::from(field) + 2 < copy.words.as_slice().len(),
            None => false,
        }
    }

    // The word is no reference to a stable object, or one to an object that is copied.
    fn follows(&self, word: u64) -> bool
        ensures { result ≡ follows_copies self.now.copies.now (meaning word) }
    {
        match decode(word) {
            Some(Word::Stable(address)) => self.copy_of(address).is_some(),
            _ => true,
        }
    }

    /// The objects have moved: each entry names its object by its new address, and a reference that it would put back leads to the object's
    /// new address. All else, and the order, stay. Does not allocate.
    pub(crate) fn translate(&self, entries: &mut [UndoEntry])
        ensures { entries.new ≡ translated_list (pairs_of self.now.copies.now) entries.old }
    {
        for entry in entries.iter_mut() {
            *entry = self.translated(*entry);
        }
    }

    // The entry after the move.
    fn translated(&self, entry: UndoEntry) -> UndoEntry
        ensures { result ≡ translated_entry (pairs_of self.now.copies.now) entry }
    {
        UndoEntry {
            object: self.moved_to(entry.object),
            was: self.translated_word(entry.was),
            ..entry
        }
    }

    // The new address of the object that stood at an address.
    fn moved_to(&self, from: u32) -> u32
        ensures to { result ≡ moved_to (pairs_of self.now.copies.now) from }
        ensures inside { from < 2097152 → result < 2097152 }
    {
        match self.copy_of(from) {
            Some(copy) => copy.to,
            None => from,
        }
    }

    // A field's word after the move.
    fn translated_word(&self, word: u64) -> u64
        ensures { result ≡ translated_word (pairs_of self.now.copies.now) word }
    {
        match decode(word) {
            Some(Word::Stable(address)) => encode(Word::Stable(self.moved_to(address))),
            _ => word,
        }
    }
}
