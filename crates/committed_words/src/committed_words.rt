//! Before-images that are laid over the words of a heap.
ghost use Rattle.std.specs.Prelude.{◌≡◌, ◌<◌, ◌^◌, ℕ, OnErr, OnOk, length, reverse, slice_set, take};
ghost use Rattle.std.specs.List.{AllByRecursion};
ghost use Rattle.log_machine.specs.declared.UndoEntry.{UndoEntry};
ghost use Rattle.log_machine.specs.Machine.{field_at, taken_back, with_word};

use disk_model::DiskError;
use heap_words::FIELDS_AT;
use log_machine::UndoEntry;
use object_layout::Words;
use std::alloc::{AllocError, Global};
use std::collections::BTreeMap;

/// Words by address, fewer than 2^32 of them, from which writes are taken back while the words themselves stay as they are. Only what is taken back is
/// kept beside them.
#[derive(Drop)]
pub struct CommittedWords<'a> {
    words: &'a [u64],
    /// The words that are laid over them, by address.
    before_images: BTreeMap<u32, u64>,
    ghost few: { length words.now < 2 ^ 32 },
}

impl<'a> CommittedWords<'a> {
    ghost use Rattle.committed_words.specs.Committed.{words_of};

    /// These words, of which nothing is taken back. Does not allocate.
    pub fn of(alloc: Global, words: &'a [u64]) -> CommittedWords<'a>
        requires { length words.now < 2 ^ 32 }
        ensures { words_of result ≡ words.now }
    {
        CommittedWords {
            words,
            before_images: BTreeMap::new(alloc),
        }
    }

    /// Takes these writes back, newest first; the newest is the last in the list. Where an allocation fails, some of the newest of them
    /// are taken back, and nothing else.
    pub fn take_back(&mut self, undo: &[UndoEntry]) -> Result<(), AllocError>
        requires { AllByRecursion (λ (u : UndoEntry). field_at u.object u.field < length (words_of self.old)) undo.now }
        ensures ok { OnOk result (words_of self.new ≡ taken_back (reverse undo.now) (words_of self.old)) }
        ensures err { OnErr result ((n : ℕ) × (n < length undo.now) × (words_of self.new ≡ taken_back (take n (reverse undo.now)) (words_of self.old))) }
    {
        for entry in undo.iter().rev() {
            self.put(entry.object, entry.field, entry.was)?;
        }
        Ok(())
    }

    // Lays one word over a field of the object at a word address.
    fn put(&mut self, object: u32, field: u16, word: u64) -> Result<(), AllocError>
        requires { field_at object field < length (words_of self.old) }
        ensures ok { OnOk result (words_of self.new ≡ with_word (words_of self.old) object field word) }
        ensures err { OnErr result (words_of self.new ≡ words_of self.old) }
    {
        let address = object + FIELDS_AT + u32::from(field);
        self.before_images.insert(address, word)?;
        Ok(())
    }
}

impl<'a> Words for CommittedWords<'a> {
    ghost use Rattle.std.specs.Prelude.{◌≡◌, length, true, refl};
    ghost use Rattle.std.proofs.Common.{◌∙◌};
    ghost use Rattle.committed_words.specs.Committed.{words_of};

    ghost tells = { true };

    ghost extent = { λ all. length (words_of all) };

    ghost content = { words_of };

    ghost faults = { λ all. 0 };

    ghost stops = { λ all. 0 };

    ghost keeps = { λ old new. new ≡ old };

    fn size(&self) -> u32 {
        self.words.len() as u32
    }

    fn word(&mut self, at: u32) -> Result<u64, DiskError> {
        match self.before_images.get(&at) {
            Some(word) => Ok(*word),
            None => Ok(self.words[at as usize]),
        }
    }

    ghost same_size = { λ tells words. refl };

    ghost keeps_itself = { λ words. refl };

    ghost keeps_on = { λ old mid new one two. two ∙ one };
}
