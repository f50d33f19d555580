//! The words of the heap's current space: how many are free, and how many are kept for what a collection has still to copy.
#![tactic(auto)]

mod address_set;
mod collection;
mod page_bits;
mod page_table;

ghost use Rattle.std.specs.Prelude.{◌≡◌, ◌+◌, ◌*◌, ◌≤◌, ◌<◌, ◌⊎◌, ◌↔◌, IsErr, IfOk, IfErr, OnOk, OnErr};
ghost use Rattle.heap_spaces.specs.Spaces.{IsSpaces, free_words, open_words, with_taken, flipped, with_copied, with_none_owed};

pub use collection::{Collection, CopiedObject};
use heap_words::PAGE_WORDS;
pub use page_bits::{first_bit_from, with_bit};
use std::marker::Model;

/// Fewer words may be taken than are needed.
#[derive(Clone, Copy, Debug, PartialEq, Eq)]
pub struct Exhausted {
    /// How many words are needed.
    pub need: u64,
    /// How many words of the current space are not taken.
    pub free: u64,
    /// How many of these are kept for what a collection has still to copy.
    pub owed: u64,
}

/// The current space of a heap of two spaces. Its objects take its first words, and what a collection has still to copy always has room
/// after them.
#[derive(Debug, Drop)]
pub struct Spaces {
    pages: u32,
    base: u32,
    used: u32,
    owed: u32,
}

impl Model for Spaces {
    ghost use Rattle.heap_spaces.specs.Spaces.{SpacesState, IsSpaces};

    ghost Value = { SpacesState };

    ghost view = { λ s. record { pages = s.pages; base = s.base; used = s.used; owed = s.owed } };

    ghost invariant = { λ s. IsSpaces (record { pages = s.pages; base = s.base; used = s.used; owed = s.owed }) };
}

impl Spaces {
    /// Two spaces of `pages` pages, of which the current one begins at the word address `base`. Its first `used` words are taken, and `owed`
    /// of the others are owed to a collection.
    pub fn new(pages: u32, base: u32, used: u32, owed: u32) -> Spaces
        requires { IsSpaces (record { pages = pages; base = base; used = used; owed = owed }) }
        ensures { result ≡ record { pages = pages; base = base; used = used; owed = owed } }
    {
        Spaces {
            pages,
            base,
            used,
            owed,
        }
    }

    /// The address of the current space's first word, where the root object stands.
    pub fn base(&self) -> u32
        ensures base { result ≡ self.now.base }
        ensures sound { IsSpaces self.now }
    {
        self.base
    }

    /// How many words of the current space are taken.
    pub fn used(&self) -> u32
        ensures used { result ≡ self.now.used }
        ensures sound { IsSpaces self.now }
    {
        self.used
    }

    /// The address of the next word that is not taken.
    pub fn next_free(&self) -> u32
        ensures address { result ≡ self.now.base + self.now.used }
        ensures sound { IsSpaces self.now }
    {
        self.base + self.used
    }

    /// How many words of the current space are not taken.
    pub fn free(&self) -> u32
        ensures free { result ≡ free_words self.now }
        ensures room { self.now.owed ≤ result }
    {
        PAGE_WORDS * self.pages - self.used
    }

    /// How many of its words are kept for what a collection has still to copy.
    pub fn owed(&self) -> u32
        ensures { result ≡ self.now.owed }
    {
        self.owed
    }

    /// Takes the next `words` words of the current space, and returns the address of the first. It is refused if fewer are free
    /// and not owed, and then changes nothing.
    pub fn take(&mut self, words: u64) -> Result<u32, Exhausted>
        ensures address { IfOk result (λ address. address ≡ self.old.base + self.old.used) }
        ensures taken { OnOk result (self.new ≡ with_taken self.old words) }
        ensures exhausted { IsErr result ↔ (open_words self.old < words) }
        ensures told { IfErr result (λ e. e ≡ record { need = words; free = free_words self.old; owed = self.old.owed }) }
        ensures err { OnErr result (self.new ≡ self.old) }
    {
        let free = self.free();
        if words > u64::from(free - self.owed) {
            return Err(Exhausted {
                need: words,
                free: u64::from(free),
                owed: u64::from(self.owed),
            });
        }
        let address = self.base + self.used;
        self.used += words as u32;
        Ok(address)
    }

    /// The two spaces change their roles: none of the words is taken in the one that is current from now on, and all that were taken are
    /// owed.
    pub fn flip(&mut self)
        ensures { self.new ≡ flipped self.old }
    {
        self.base = PAGE_WORDS * self.pages - self.base;
        self.owed = self.used;
        self.used = 0;
    }

    /// Objects of that many words in all, which were owed, are copied to the next words of the current space.
    pub fn copied(&mut self, words: u32)
        requires { words ≤ self.old.owed }
        ensures { self.new ≡ with_copied self.old words }
    {
        self.used += words;
        self.owed -= words;
    }

    /// The collection is done: no word is owed any more.
    pub fn collected(&mut self)
        ensures { self.new ≡ with_none_owed self.old }
    {
        self.owed = 0;
    }
}
