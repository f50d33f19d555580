//! The plan of a scan, as it grows.
ghost use Rattle.std.specs.Prelude.{◌≡◌, ◌+◌, ◌*◌, ◌≤◌, ◌<◌, ◌==◌, ◌||◌, ◌++◌, ℕ, true, false, [], ◌∷◌, length, take, drop, vec_len, IsTrue, IfOk, OnOk, Err, None, Some};
ghost use Rattle.heap_spaces.specs.Addresses.{is_set};
ghost use Rattle.heap_spaces.specs.Collection.{Collection as CollectionState};
ghost use Rattle.heap_words.specs.Word.{meaning};
ghost use Rattle.log_records.specs.declared.Record.TheVariants.{Copy as CopyOf};
ghost use Rattle.object_layout.specs.Layout.{object_at as object_of};
ghost use Rattle.object_layout.specs.Read.{IsRead};
ghost use Rattle.page_scanner.specs.declared.scan_error.ScanError.TheVariants.{Damaged};
ghost use Rattle.page_scanner.specs.Scan as plans;
ghost use Rattle.page_scanner.specs.ScanFailure.{scan_failure};

use crate::destinations::Destinations;
use crate::reading::{field_count, header_at};
use crate::scan_error::ScanError;
use crate::spaces::{is_in_from_space, is_left, space_words};
use heap_spaces::{Collection, CopiedObject, Spaces, first_bit_from, with_bit};
use heap_words::{FIELDS_AT, Header, MOST_FIELDS, PAGE_WORDS, STABLE_WORDS, Word, decode, encode};
use object_layout::{Words, object_at};
use std::alloc::{AllocError, Global};

// The words of a small object.
const FEW_WORDS: usize = 4;

/// What a scan has planned so far.
#[derive(Drop)]
pub(crate) struct Plan {
    /// The objects that are copied, in their order.
    pub(crate) copies: Vec<CopiedObject>,
    /// The words of all copies, one after another.
    pub(crate) words: Vec<u64>,
    /// The fields that are redirected to the current space, each by its address and its new word.
    pub(crate) writes: Vec<(u32, u64)>,
    /// How many words the copies have.
    pub(crate) size: u32,
    /// Where each object that is copied goes.
    pub(crate) destinations: Destinations,
    /// The address of the page's first word.
    pub(crate) first: u32,
    /// Where each copy comes from that stands in the page, by its place there.
    pub(crate) sources: [Option<u32>; PAGE_WORDS as usize],
    /// Which words of the page have such a copy, as its bits.
    pub(crate) placed: u64,
}

impl Plan {
    ghost use Rattle.page_scanner.specs.Plan.{planned, with_source, ArePageBits, IsPlan};

    /// Nothing is planned yet for the page that begins at the address `first`. Does not allocate.
    pub(crate) fn new(alloc: Global, first: u32) -> Plan
        ensures nothing { planned result ≡ plans.nothing }
        ensures empty { vec_len result.writes ≡ 0 }
        ensures first { result.first ≡ first }
        ensures plan { IsPlan result }
    {
        Plan {
            copies: Vec::new(alloc),
            words: Vec::new(alloc),
            writes: Vec::new(alloc),
            size: 0,
            destinations: Destinations::new(alloc),
            first,
            sources: [None; PAGE_WORDS as usize],
            placed: 0,
        }
    }

    /// The first place of the page from this one on at which a gray object stands or one is copied, or the number of a page's words. The gray
    /// objects are given as the page's bits.
    pub(crate) fn next_gray(&self, gray: u64, place: u32) -> u32
        requires plan { IsPlan self.now }
        requires within { place ≤ 64 }
        ensures from { place ≤ result }
        ensures low { result ≤ 64 }
        ensures gray { (k : CollectionState) → ArePageBits gray k self.now.first → result < 64 → plans.is_gray k (planned self.now) (self.now.first + result) ≡ true }
        ensures passed { (k : CollectionState) → ArePageBits gray k self.now.first → (i : ℕ) → place ≤ i → i < result → plans.is_gray k (planned self.now) (self.now.first + i) ≡ false }
    {
        if place >= PAGE_WORDS {
            return PAGE_WORDS;
        }
        match first_bit_from(gray | self.placed, place) {
            Some(found) => found,
            None => PAGE_WORDS,
        }
    }

    /// Follows the fields of the gray object at an address of the page.
    pub(crate) fn visit<W: Words>(
        &mut self,
        words: &mut W,
        spaces: &Spaces,
        collection: &Collection,
        at: u32,
    ) -> Result<(), ScanError>
        requires plan { IsPlan self.old }
        requires low { at < 2147483648 }
        requires from { self.old.first ≤ at }
        requires before { at < self.old.first + 64 }
        requires gray { plans.is_gray collection.now (planned self.old) at ≡ true }
        ensures visited { IsTrue W.tells → OnOk result (plans.visit spaces.now collection.now (W.content words.old) (planned self.old) at ≡ Some (planned self.new)) }
        ensures damaged { IsTrue W.tells → result ≡ Err Damaged → plans.visit spaces.now collection.now (W.content words.old) (planned self.old) at ≡ None }
        ensures plan { OnOk result (IsPlan self.new) }
        ensures first { OnOk result (self.new.first ≡ self.old.first) }
        ensures few { OnOk result (vec_len self.new.writes ≤ vec_len self.old.writes + 510) }
        ensures read { IsRead W.tells W.extent W.content W.keeps W.faults W.stops words.old words.new (scan_failure result) }
    {
        let source = self.source(at);
        let n = field_count(words, source)?;
        self.follow_all(words, spaces, collection, at, source, n)
    }

    // Where the words of the object that is to stand at an address are.
    fn source(&self, at: u32) -> u32
        requires plan { IsPlan self.now }
        requires from { self.now.first ≤ at }
        requires before { at < self.now.first + 64 }
        ensures { result ≡ plans.source (planned self.now) at }
    {
        self.copied_from(at).unwrap_or(at)
    }

    // Where the copy comes from that is to stand at an address of the page, if one is.
    fn copied_from(&self, at: u32) -> Option<u32>
        requires plan { IsPlan self.now }
        requires from { self.now.first ≤ at }
        requires before { at < self.now.first + 64 }
        ensures { result ≡ plans.copied_from (planned self.now).copies at }
    {
        self.sources[(at - self.first) as usize]
    }

    // Follows the `n` fields of the object at an address, whose words stand at the source.
    fn follow_all<W: Words>(
        &mut self,
        words: &mut W,
        spaces: &Spaces,
        collection: &Collection,
        at: u32,
        source: u32,
        n: u32,
    ) -> Result<(), ScanError>
        requires plan { IsPlan self.old }
        requires low { at < 2147483648 }
        requires few { n ≤ 510 }
        requires within { 0 < n → source + 2 + n ≤ W.extent words.old }
        ensures followed { IsTrue W.tells → OnOk result (plans.follow_all spaces.now collection.now (W.content words.old) (planned self.old) (at + 2) (take n (drop (source + 2) (W.content words.old))) ≡ Some (planned self.new)) }
        ensures damaged { IsTrue W.tells → result ≡ Err Damaged → plans.follow_all spaces.now collection.now (W.content words.old) (planned self.old) (at + 2) (take n (drop (source + 2) (W.content words.old))) ≡ None }
        ensures plan { OnOk result (IsPlan self.new) }
        ensures first { OnOk result (self.new.first ≡ self.old.first) }
        ensures few { OnOk result (vec_len self.new.writes ≤ vec_len self.old.writes + n) }
        ensures read { IsRead W.tells W.extent W.content W.keeps W.faults W.stops words.old words.new (scan_failure result) }
    {
        // Fields end within the words, so that an end has 32 bits.
        let _end = words.size();
        for field in FIELDS_AT..FIELDS_AT + n {
            let word = words.word(source + field)?;
            self.follow(words, spaces, collection, at + field, word)?;
        }
        Ok(())
    }

    // Updates a field with that word to the copy, if it leads to the from-space.
    fn follow<W: Words>(
        &mut self,
        words: &mut W,
        spaces: &Spaces,
        collection: &Collection,
        at: u32,
        word: u64,
    ) -> Result<(), ScanError>
        requires plan { IsPlan self.old }
        ensures followed { IsTrue W.tells → OnOk result (plans.follow spaces.now collection.now (W.content words.old) (planned self.old) at (meaning word) ≡ Some (planned self.new)) }
        ensures damaged { IsTrue W.tells → result ≡ Err Damaged → plans.follow spaces.now collection.now (W.content words.old) (planned self.old) at (meaning word) ≡ None }
        ensures plan { OnOk result (IsPlan self.new) }
        ensures first { OnOk result (self.new.first ≡ self.old.first) }
        ensures few { OnOk result (vec_len self.new.writes ≤ vec_len self.old.writes + 1) }
        ensures read { IsRead W.tells W.extent W.content W.keeps W.faults W.stops words.old words.new (scan_failure result) }
    {
        match decode(word) {
            Some(Word::Stable(object)) if is_in_from_space(spaces, object) => {
                self.lead(words, spaces, collection, at, object)
            }
            _ => Ok(()),
        }
    }

    // Redirects a field to the copy of an object of the from-space, which is made here or was made before.
    fn lead<W: Words>(
        &mut self,
        words: &mut W,
        spaces: &Spaces,
        collection: &Collection,
        at: u32,
        object: u32,
    ) -> Result<(), ScanError>
        requires plan { IsPlan self.old }
        ensures led { IsTrue W.tells → OnOk result (plans.led_on spaces.now collection.now (W.content words.old) (planned self.old) at object (plans.copied_to (planned self.old).copies object) ≡ Some (planned self.new)) }
        ensures damaged { IsTrue W.tells → result ≡ Err Damaged → plans.led_on spaces.now collection.now (W.content words.old) (planned self.old) at object (plans.copied_to (planned self.old).copies object) ≡ None }
        ensures plan { OnOk result (IsPlan self.new) }
        ensures first { OnOk result (self.new.first ≡ self.old.first) }
        ensures few { OnOk result (vec_len self.new.writes ≤ vec_len self.old.writes + 1) }
        ensures read { IsRead W.tells W.extent W.content W.keeps W.faults W.stops words.old words.new (scan_failure result) }
    {
        if let Some(to) = self.destination(object) {
            return self.write(spaces, at, to);
        }
        if let Some(Header::Forward(to)) = header_at(words, object)? {
            return self.write(spaces, at, to);
        }
        let to = self.copy(words, spaces, collection, object)?;
        self.write(spaces, at, to)
    }

    // Where an object is copied to, if it is so far.
    fn destination(&self, object: u32) -> Option<u32>
        requires { IsPlan self.now }
        ensures { result ≡ plans.copied_to (planned self.now).copies object }
    {
        self.destinations.get(object)
    }

    // Copies an object to the next words of the current space, and returns where that is.
    fn copy<W: Words>(
        &mut self,
        words: &mut W,
        spaces: &Spaces,
        collection: &Collection,
        object: u32,
    ) -> Result<u32, ScanError>
        requires plan { IsPlan self.old }
        ensures copied { IsTrue W.tells → OnOk result (plans.copied spaces.now collection.now (W.content words.old) (planned self.old) object (object_of (W.content words.old) object) ≡ Some (planned self.new)) }
        ensures place { IfOk result (λ to. to ≡ plans.next_free spaces.now (planned self.old)) }
        ensures damaged { IsTrue W.tells → result ≡ Err Damaged → plans.copied spaces.now collection.now (W.content words.old) (planned self.old) object (object_of (W.content words.old) object) ≡ None }
        ensures plan { OnOk result (IsPlan self.new) }
        ensures first { OnOk result (self.new.first ≡ self.old.first) }
        ensures writes { OnOk result (self.new.writes.items ≡ self.old.writes.items) }
        ensures read { IsRead W.tells W.extent W.content W.keeps W.faults W.stops words.old words.new (scan_failure result) }
    {
        // Objects end within the words, so that an end has 32 bits.
        let _end = words.size();
        let Some(n) = object_at(words, object)? else {
            return Err(ScanError::Damaged);
        };
        let size = FIELDS_AT + n;
        if !self.can_copy(spaces, collection, object, size) {
            return Err(ScanError::Damaged);
        }
        if self.copies.is_empty() {
            self.make_room()?;
        }
        let to = self.next_free(spaces);
        self.append(words, object, to, size)?;
        Ok(to)
    }

    // Allocates memory for as many small copies as an object has fields at most, since a page that leads to one object is likely to lead to many:
    // memory that grows is copied each time.
    fn make_room(&mut self) -> Result<(), AllocError>
        requires plan { IsPlan self.old }
        ensures planned { planned self.new ≡ planned self.old }
        ensures plan { IsPlan self.new }
        ensures first { self.new.first ≡ self.old.first }
    {
        let many = MOST_FIELDS as usize;
        self.copies.reserve(many)?;
        self.words.reserve(FEW_WORDS * many)?;
        self.writes.reserve(many)?;
        self.destinations.reserve(many)
    }

    // Whether an object of `size` words is left to be copied, and there is room for it.
    fn can_copy(&self, spaces: &Spaces, collection: &Collection, object: u32, size: u32) -> bool
        ensures can { result ≡ plans.can_copy spaces.now collection.now (planned self.now) object size }
        ensures small { IsTrue result → self.now.size + size ≤ 1048576 }
    {
        is_left(spaces, collection, object, size) && self.has_room(spaces, collection, size)
    }

    // Whether there is room for a copy of `size` words, and as many are still to be copied.
    fn has_room(&self, spaces: &Spaces, collection: &Collection, size: u32) -> bool
        ensures has { result ≡ plans.has_room spaces.now collection.now (planned self.now) size }
        ensures small { IsTrue result → self.now.size + size ≤ 1048576 }
    {
        let all = u64::from(self.size) + u64::from(size);
        u64::from(collection.copied()) + all <= u64::from(collection.used())
            && u64::from(spaces.used()) + all <= u64::from(space_words(spaces))
    }

    // The address of the next word that no object and no copy takes.
    fn next_free(&self, spaces: &Spaces) -> u32
        requires { IsPlan self.now }
        ensures { result ≡ plans.next_free spaces.now (planned self.now) }
    {
        spaces.next_free() + self.size
    }

    // Appends a copy of the `size` words from an address on.
    fn append<W: Words>(
        &mut self,
        words: &mut W,
        from: u32,
        to: u32,
        size: u32,
    ) -> Result<(), ScanError>
        requires plan { IsPlan self.old }
        requires small { self.old.size + size ≤ 1048576 }
        requires some { 0 < size }
        requires within { from + size ≤ W.extent words.old }
        ensures copies { IsTrue W.tells → OnOk result ((planned self.new).copies ≡ (planned self.old).copies ++ CopyOf from to (take size (drop from (W.content words.old))) ∷ []) }
        ensures writes { OnOk result (self.new.writes.items ≡ self.old.writes.items) }
        ensures size { OnOk result (self.new.size ≡ self.old.size + size) }
        ensures plan { OnOk result (IsPlan self.new) }
        ensures first { OnOk result (self.new.first ≡ self.old.first) }
        ensures possible { result ≡ Err Damaged → ⊥ }
        ensures read { IsRead W.tells W.extent W.content W.keeps W.faults W.stops words.old words.new (scan_failure result) }
    {
        // Words end within 32 bits.
        let _end = words.size();
        let place = self.words.len();
        words.append_to(from, from + size, &mut self.words)?;
        let header = self.words[place];
        self.copies.push(CopiedObject {
            from,
            to,
            header,
            words: size,
        })?;
        self.destinations.add(from, to)?;
        self.note_source(from, to);
        self.size += size;
        Ok(())
    }

    // Notes where a copy comes from, if it stands in the page.
    fn note_source(&mut self, from: u32, to: u32)
        requires { length self.old.sources ≡ 64 }
        ensures noted { self.new ≡ record self.old { sources = with_source self.old.sources self.old.first from to; placed = self.new.placed } }
        ensures placed { (place : ℕ) → place < 64 → is_set self.new.placed place ≡ (to == self.old.first + place || is_set self.old.placed place) }
    {
        if self.first <= to && to - self.first < PAGE_WORDS {
            let place = to - self.first;
            self.sources[place as usize] = Some(from);
            self.placed = with_bit(self.placed, place);
        }
    }

    // Puts a reference to a word address into the field at another.
    fn write(&mut self, spaces: &Spaces, at: u32, to: u32) -> Result<(), ScanError>
        requires plan { IsPlan self.old }
        ensures written { OnOk result (plans.written spaces.now (planned self.old) at to ≡ Some (planned self.new)) }
        ensures damaged { result ≡ Err Damaged → plans.written spaces.now (planned self.old) at to ≡ None }
        ensures plan { OnOk result (IsPlan self.new) }
        ensures first { OnOk result (self.new.first ≡ self.old.first) }
        ensures few { OnOk result (vec_len self.new.writes ≤ vec_len self.old.writes + 1) }
        ensures failure { scan_failure result ≡ None }
    {
        if !self.can_write(spaces, at, to) {
            return Err(ScanError::Damaged);
        }
        self.writes.push((at, encode(Word::Stable(to))))?;
        Ok(())
    }

    // Whether an object or a copy takes both words, and the second has an address to which a reference leads.
    fn can_write(&self, spaces: &Spaces, at: u32, to: u32) -> bool
        requires { IsPlan self.now }
        ensures { result ≡ plans.can_write spaces.now (planned self.now) at to }
    {
        self.is_taken(spaces, at) && (self.is_taken(spaces, to) && to < STABLE_WORDS)
    }

    // Whether an object or a copy takes the word at an address.
    fn is_taken(&self, spaces: &Spaces, at: u32) -> bool
        requires { IsPlan self.now }
        ensures { result ≡ plans.is_taken spaces.now (planned self.now) at }
    {
        spaces.base() <= at && at < self.next_free(spaces)
    }
}
