//! A collection that runs.
ghost use Rattle.std.specs.List.{list_any};
ghost use Rattle.std.specs.Prelude.{◌≡◌, ◌+◌, ◌*◌, ◌≤◌, ◌<◌, ◌^◌, ◌↔◌, ◌==◌, ◌&&◌, not, ℕ, true, false, sum_by, Some, IfSome, IfNone, OnOk, OnErr, IsTrue};
ghost use Rattle.std.specs.FinSet.{empty, contains};
ghost use Rattle.heap_spaces.specs.Addresses.{is_set};
ghost use Rattle.heap_spaces.specs.Collection.{owed_by, page_of};
ghost use Rattle.heap_spaces.specs.declared.collection.CopiedObject.{CopiedObject};
ghost use Rattle.heap_spaces.specs.Copying.{begun, with_copies, with_scanned, IsLeastGrayPage};

use crate::address_set::{AddressSet, PageAddresses, page_of};
use heap_words::PAGE_WORDS;
use std::alloc::{AllocError, Global};
use std::marker::Model;

/// An object that a collection has copied into the current space.
#[derive(Clone, Copy, Debug, PartialEq, Eq)]
pub struct CopiedObject {
    /// The word address at which it stood.
    pub from: u32,
    /// The word address at which the copy stands.
    pub to: u32,
    /// The header of the copy.
    pub header: u64,
    /// How many words it has.
    pub words: u32,
}

/// What a collection has copied, and which of the copies may still lead to the from-space.
#[derive(Debug, Drop)]
pub struct Collection {
    used: u32,
    copied: u32,
    moved: AddressSet,
    gray: AddressSet,
}

impl Model for Collection {
    ghost use Rattle.std.specs.Prelude.{◌≤◌};
    ghost use Rattle.heap_spaces.specs.Collection.{Collection as Seen};
    ghost use Rattle.heap_spaces.specs.CollectionCode.{collection_code};

    ghost Value = { Seen };

    ghost coded = { collection_code };

    ghost view = { λ s. record { used = s.used; copied = s.copied; moved = s.moved.set; gray = s.gray.set } };

    ghost invariant = { λ s. s.copied ≤ s.used };
}

impl Collection {
    /// A collection whose from-space has objects of `used` words, of which none is copied. Does not allocate.
    pub fn begin(alloc: Global, used: u32) -> Collection
        ensures { result ≡ begun used }
    {
        Collection {
            used,
            copied: 0,
            moved: AddressSet::new(alloc),
            gray: AddressSet::new(alloc),
        }
    }

    /// How many words the objects of the from-space take.
    pub fn used(&self) -> u32
        ensures used { result ≡ self.now.used }
        ensures sound { self.now.copied ≤ self.now.used }
    {
        self.used
    }

    /// How many of these words have been copied.
    pub fn copied(&self) -> u32
        ensures copied { result ≡ self.now.copied }
        ensures sound { self.now.copied ≤ self.now.used }
    {
        self.copied
    }

    /// How many of them have still to be copied.
    pub fn owed(&self) -> u32
        ensures { result ≡ owed_by (Some self.now) }
    {
        self.used - self.copied
    }

    /// Whether the object that stood at the address has been copied.
    pub fn has_moved(&self, from: u32) -> bool
        ensures { result ≡ contains self.now.moved from }
    {
        self.moved.contains(from)
    }

    /// Whether the object at the address is gray.
    pub fn is_gray(&self, at: u32) -> bool
        ensures { result ≡ contains self.now.gray at }
    {
        self.gray.contains(at)
    }

    /// Which words of a page have a gray object, as its bits: the lowest is the page's first word.
    pub fn gray_bits(&self, page: u32) -> u64
        ensures { (place : ℕ) → place < 64 → is_set result place ≡ contains self.now.gray (64 * page + place) }
    {
        self.gray.bits_in(page)
    }

    /// The least address of a gray object from this one on.
    pub fn first_gray_from(&self, from: u32) -> Option<u32>
        ensures some { IfSome result (λ at. (contains self.now.gray at ≡ true) × (from ≤ at) × ((q : ℕ) → contains self.now.gray q ≡ true → from ≤ q → at ≤ q)) }
        ensures none { IfNone result ((q : ℕ) → from ≤ q → contains self.now.gray q ≡ false) }
    {
        self.gray.first_from(from)
    }

    /// Whether no object is gray.
    pub fn is_empty(&self) -> bool
        ensures { IsTrue result ↔ (self.now.gray ≡ empty) }
    {
        self.gray.is_empty()
    }

    /// Whether a gray object starts in the page.
    pub fn gray_in(&self, page: u32) -> bool
        requires { page < 2 ^ 26 }
        ensures { IsTrue result ↔ ((at : ℕ) × (contains self.now.gray at ≡ true) × (page_of at ≡ page)) }
    {
        self.gray.first_in(page).is_some()
    }

    /// The least page in which a gray object starts.
    pub fn least_gray_page(&self) -> Option<u32>
        ensures some { IfSome result (IsLeastGrayPage self.now) }
        ensures none { IfNone result (self.now.gray ≡ empty) }
    {
        Some(self.gray.least()? / PAGE_WORDS)
    }

    /// Objects have been copied, and are gray from now on. An error changes nothing.
    pub fn add_copies(&mut self, copies: &[CopiedObject]) -> Result<(), AllocError>
        requires { self.old.copied + sum_by (λ (c : CopiedObject). c.words) copies.now ≤ self.old.used }
        ensures ok { OnOk result (self.new ≡ with_copies self.old copies.now) }
        ensures err { OnErr result (self.new ≡ self.old) }
    {
        // One more than the numbers of the last copy's pages, which have room, and 0 before the first: small copies mostly lie in the pages of the one before.
        let mut last = (0, 0);
        'room: for copy in copies {
            let pages = (page_of(copy.from) + 1, page_of(copy.to) + 1);
            if pages.0 != last.0 || pages.1 != last.1 {
                self.moved.make_room(copy.from)?;
                self.gray.make_room(copy.to)?;
                last = pages;
            }
        }
        let mut words = 0;
        let mut from = PageAddresses::new();
        let mut to = PageAddresses::new();
        'copies: for copy in copies {
            from.add(&mut self.moved, copy.from);
            to.add(&mut self.gray, copy.to);
            words += copy.words;
        }
        self.moved.add_all(from);
        self.gray.add_all(to);
        self.copied += words;
        Ok(())
    }

    /// Takes back these copies, which were the last ones added: what was not there before them is removed. Does not allocate.
    pub fn take_back(&mut self, copies: &[CopiedObject])
        requires { sum_by (λ (c : CopiedObject). c.words) copies.now ≤ self.old.copied }
        ensures used { self.new.used ≡ self.old.used }
        ensures copied { self.new.copied + sum_by (λ (c : CopiedObject). c.words) copies.now ≡ self.old.copied }
        ensures moved { (q : ℕ) → contains self.new.moved q ≡ (contains self.old.moved q && not (list_any (λ (c : CopiedObject). c.from == q) copies.now)) }
        ensures gray { (q : ℕ) → contains self.new.gray q ≡ (contains self.old.gray q && not (list_any (λ (c : CopiedObject). c.to == q) copies.now)) }
    {
        for copy in copies {
            self.moved.remove(copy.from);
            self.gray.remove(copy.to);
            self.copied -= copy.words;
        }
    }

    /// All objects that start in the page have been scanned, so none of them is gray any more. Does not allocate.
    pub fn scanned(&mut self, page: u32)
        requires { page < 2 ^ 26 }
        ensures { self.new ≡ with_scanned self.old page }
    {
        self.gray.remove_page(page);
    }
}
