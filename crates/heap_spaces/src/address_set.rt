//! Sets of word addresses.
ghost use Rattle.std.specs.Prelude.{◌≡◌, ◌+◌, ◌*◌, ◌/◌, ◌%◌, ◌≤◌, ◌<◌, ◌^◌, ◌⊎◌, ◌↔◌, ◌==◌, ◌||◌, ℕ, List, [], true, false, OnOk, IfSome, IfNone, IsTrue};
ghost use Rattle.std.specs.FinSet.{empty, contains, remove};
ghost use Rattle.heap_spaces.specs.Addresses.{AddressState, is_set, without_page};
ghost use Rattle.heap_spaces.specs.Collection.{page_of};
ghost use Rattle.heap_spaces.specs.PageAddresses.{HasRoomFor, waits_in};
ghost use Rattle.heap_spaces.specs.PageTable.{HasRoom};

use crate::page_bits::{first_bit, first_bit_from, has_bit, with_bit, without_bit};
use crate::page_table::PageTable;
use heap_words::PAGE_WORDS;
use std::alloc::{AllocError, Global};
use std::marker::Model;

/// Word addresses, each of them once.
#[derive(Debug, Drop)]
pub(crate) struct AddressSet {
    /// The words of each page that are among them, as its bits.
    pages: PageTable,
    /// Pages before this one have none.
    first: usize,
}

impl Model for AddressSet {
    ghost use Rattle.heap_spaces.specs.Addresses.{AddressState, named, HasPages};
    ghost use Rattle.heap_spaces.specs.CollectionCode.{address_state_code};

    ghost Value = { AddressState };

    ghost coded = { address_state_code };

    ghost view = { λ s. record { set = named s.pages.numbers; room = s.pages.room } };

    ghost invariant = { λ s. HasPages s.pages.numbers s.first };
}

impl AddressSet {
    /// An empty set. Does not allocate.
    pub(crate) fn new(alloc: Global) -> AddressSet
        ensures { result ≡ record { set = empty; room = [] } }
    {
        AddressSet {
            pages: PageTable::new(alloc),
            first: 0,
        }
    }

    /// Whether there is no address.
    pub(crate) fn is_empty(&self) -> bool
        ensures { IsTrue result ↔ (self.now.set ≡ empty) }
    {
        match self.least() {
            Some(_) => false,
            None => true,
        }
    }

    /// Whether the address is one of them.
    pub(crate) fn contains(&self, at: u32) -> bool
        ensures { result ≡ contains self.now.set at }
    {
        has_bit(self.pages.get(page_of(at)), place_of(at))
    }

    /// Allocates the memory for an address. An error adds none.
    pub(crate) fn make_room(&mut self, at: u32) -> Result<(), AllocError>
        ensures room { OnOk result (HasRoom self.new.room (page_of at)) }
        ensures grows { (p : ℕ) → HasRoom self.old.room p → HasRoom self.new.room p }
        ensures only { (p : ℕ) → HasRoom self.new.room p → HasRoom self.old.room p ⊎ (p / 64 ≡ page_of at / 64) }
        ensures same { self.new.set ≡ self.old.set }
    {
        self.pages.make_room(page_of(at))
    }

    /// Adds addresses of one page, for which there is room.
    pub(crate) fn add_all(&mut self, waiting: PageAddresses)
        requires { HasRoomFor self.old.room waiting }
        ensures all { (q : ℕ) → contains self.new.set q ≡ (contains self.old.set q || waits_in waiting q) }
        ensures room { self.new.room ≡ self.old.room }
    {
        if waiting.bits == 0 {
            return;
        }
        self.pages
            .put(waiting.page, self.pages.get(waiting.page) | waiting.bits);
        self.first = self.first.min(waiting.page);
    }

    /// Removes the address. Does not allocate.
    pub(crate) fn remove(&mut self, at: u32)
        ensures { self.new ≡ record self.old { set = remove self.old.set at } }
    {
        let page = page_of(at);
        let bits = self.pages.get(page);
        if bits == 0 {
            return;
        }
        self.pages.put(page, without_bit(bits, place_of(at)));
    }

    /// Removes the addresses of a page. Does not allocate, and visits no other address.
    pub(crate) fn remove_page(&mut self, page: u32)
        ensures { self.new ≡ record self.old { set = without_page self.old.set page } }
    {
        let page = page as usize;
        if self.pages.get(page) == 0 {
            return;
        }
        self.pages.put(page, 0);
        self.skip_empty_pages();
    }

    // Passes the pages that have no address, up to the first that has one.
    fn skip_empty_pages(&mut self)
        ensures { self.new ≡ self.old }
    {
        self.first = match self.pages.next_from(self.first) {
            Some(page) => page,
            None => self.pages.len(),
        };
    }

    /// Which words of a page are among them, as its bits.
    pub(crate) fn bits_in(&self, page: u32) -> u64
        ensures { (place : ℕ) → place < 64 → is_set result place ≡ contains self.now.set (64 * page + place) }
    {
        self.pages.get(page as usize)
    }

    /// The least address in a page.
    pub(crate) fn first_in(&self, page: u32) -> Option<u32>
        requires { page < 2 ^ 26 }
        ensures some { IfSome result (λ at. (contains self.now.set at ≡ true) × (page_of at ≡ page)) }
        ensures none { IfNone result ((q : ℕ) → page_of q ≡ page → contains self.now.set q ≡ false) }
    {
        let place = first_bit(self.pages.get(page as usize))?;
        Some(PAGE_WORDS * page + place)
    }

    /// The least address from this one on.
    pub(crate) fn first_from(&self, from: u32) -> Option<u32>
        ensures some { IfSome result (λ at. (contains self.now.set at ≡ true) × (from ≤ at) × ((q : ℕ) → contains self.now.set q ≡ true → from ≤ q → at ≤ q)) }
        ensures none { IfNone result ((q : ℕ) → from ≤ q → contains self.now.set q ≡ false) }
    {
        let page = page_of(from);
        if let Some(place) = first_bit_from(self.pages.get(page), place_of(from)) {
            return Some(PAGE_WORDS * page as u32 + place);
        }
        let at = self.first_behind(page + 1)?;
        Some(at)
    }

    /// The least address.
    pub(crate) fn least(&self) -> Option<u32>
        ensures some { IfSome result (λ at. (contains self.now.set at ≡ true) × ((q : ℕ) → contains self.now.set q ≡ true → at ≤ q)) }
        ensures none { IfNone result (self.now.set ≡ empty) }
    {
        let at = self.first_behind(self.first)?;
        Some(at)
    }

    // The least address in the pages from this one on.
    fn first_behind(&self, page: usize) -> Option<u32>
        ensures some { IfSome result (λ at. (contains self.now.set at ≡ true) × (64 * page ≤ at) × ((q : ℕ) → contains self.now.set q ≡ true → 64 * page ≤ q → at ≤ q)) }
        ensures none { IfNone result ((q : ℕ) → 64 * page ≤ q → contains self.now.set q ≡ false) }
    {
        let page = self.pages.next_from(page)?;
        let place = first_bit(self.pages.get(page))?;
        Some(PAGE_WORDS * page as u32 + place)
    }
}

/// Addresses of one page that wait to be added to a set together. Small copies that stand end to end mostly lie in the page of the one before: then the
/// set is read and written once for all of them, and else once for each, as without it.
#[derive(Clone, Copy, Debug)]
pub(crate) struct PageAddresses {
    /// The page. It says nothing while no bit is set.
    page: usize,
    /// The words of the page that are among them.
    bits: u64,
}

impl PageAddresses {
    /// No address.
    pub(crate) fn new() -> PageAddresses
        ensures none { (q : ℕ) → waits_in result q ≡ false }
        ensures room { (room : List ℕ) → HasRoomFor room result }
    {
        PageAddresses { page: 0, bits: 0 }
    }

    /// Adds the address. Where it lies in another page, those that wait are added to the set first.
    pub(crate) fn add(&mut self, set: &mut AddressSet, at: u32)
        requires wait { HasRoomFor set.old.room self.old }
        requires room { HasRoom set.old.room (page_of at) }
        ensures all { (q : ℕ) → (contains set.new.set q || waits_in self.new q) ≡ (q == at || (contains set.old.set q || waits_in self.old q)) }
        ensures wait { HasRoomFor set.new.room self.new }
        ensures room { set.new.room ≡ set.old.room }
    {
        let page = page_of(at);
        if page != self.page {
            set.add_all(*self);
            *self = PageAddresses { page, bits: 0 };
        }
        self.bits = with_bit(self.bits, place_of(at));
    }
}

/// The page in which an address lies.
pub(crate) fn page_of(at: u32) -> usize
    ensures page { result ≡ page_of at }
    ensures few { result < 2 ^ 26 }
{
    (at / PAGE_WORDS) as usize
}

/// Where the address lies in its page.
fn place_of(at: u32) -> u32
    ensures place { result ≡ at % 64 }
    ensures low { result < 64 }
{
    at % PAGE_WORDS
}
