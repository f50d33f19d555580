//! The search for what is reached.
ghost use Rattle.std.specs.Prelude.{◌≡◌, ℕ, [], Some, IfSome, IfNone, OnOk, OnErr, Contains};
ghost use Rattle.heap_words.specs.declared.Word.TheVariants.{Volatile};
ghost use Rattle.heap_words.specs.Word.{meaning};
ghost use Rattle.volatile_area.specs.Area.{starts_of};
ghost use Rattle.stability_tracker.specs.Search.{IsNamed, Meets, WereFollowed};

use heap_words::{Word, decode};
use std::alloc::{AllocError, Global};
use std::collections::BTreeSet;
use volatile_area::Area;

/// The objects of an area that were found to be reached, and those of them whose fields are still to be followed.
#[derive(Drop)]
pub(crate) struct Search {
    pub found: BTreeSet<u32>,
    pub waiting: Vec<u32>,
}

impl Search {
    /// Nothing was found yet. Does not allocate.
    pub(crate) fn new(alloc: Global) -> Search
        ensures found { result.found.keys ≡ [] }
        ensures waiting { result.waiting.items ≡ [] }
    {
        Search {
            found: BTreeSet::new(alloc),
            waiting: Vec::new(alloc),
        }
    }

    /// Follows these words to the objects of the area to which they refer.
    pub(crate) fn follow(&mut self, area: &Area, words: &[u64]) -> Result<(), AllocError>
        ensures ok { OnOk result (WereFollowed area.now words.now self.old.found.keys self.old.waiting.items self.new.found.keys self.new.waiting.items) }
        ensures err { OnErr result ((at : ℕ) × IsNamed area.now words.now at) }
    {
        for word in words {
            if let Some(at) = referred(area, *word) {
                self.meet(at)?;
            }
        }
        Ok(())
    }

    // Visits an object.
    fn meet(&mut self, at: u32) -> Result<(), AllocError>
        ensures { OnOk result (Meets at self.old.found.keys self.old.waiting.items self.new.found.keys self.new.waiting.items) }
    {
        if self.found.insert(at)? {
            self.waiting.push(at)?;
        }
        Ok(())
    }
}

// The object of the area to which a word refers, if it refers to one.
fn referred(area: &Area, word: u64) -> Option<u32>
    ensures some { IfSome result (λ at. (meaning word ≡ Some (Volatile at)) × Contains (starts_of area.now) at) }
    ensures none { IfNone result ((at : ℕ) → meaning word ≡ Some (Volatile at) → Contains (starts_of area.now) at → ⊥) }
{
    match decode(word) {
        Some(Word::Volatile(at)) if area.is_object(at) => Some(at),
        _ => None,
    }
}
