//! Words in memory.
ghost use Rattle.std.specs.Prelude.{◌≡◌, ◌<◌, ◌^◌, length};

use crate::read_error::ReadError;
use crate::words::Words;
use disk_model::DiskError;

/// Words in memory, less than 2^32 of them. They are modelled, no read fails, and reads change nothing.
#[derive(Drop)]
pub struct WordSlice<'a> {
    words: &'a [u64],
    ghost few: { length words.now < 2 ^ 32 },
}

impl<'a> WordSlice<'a> {
    /// These words.
    pub fn of(words: &'a [u64]) -> WordSlice<'a>
        requires { length words.now < 2 ^ 32 }
        ensures { ⟦<WordSlice<'a> as Words>⟧.content result ≡ words.now }
    {
        WordSlice { words }
    }
}

impl<'a> Words for WordSlice<'a> {
    ghost use Rattle.std.specs.Prelude.{◌≡◌, length, true, refl};
    ghost use Rattle.std.proofs.Common.{◌∙◌};

    ghost tells = { true };

    ghost extent = { λ all. length all.words.now };

    ghost content = { λ all. all.words.now };

    ghost faults = { λ all. 0 };

    ghost stops = { λ all. 0 };

    ghost keeps = { λ old new. new ≡ old };

    fn size(&self) -> u32 {
        self.words.len() as u32
    }

    fn word(&mut self, at: u32) -> Result<u64, DiskError> {
        Ok(self.words[at as usize])
    }

    // All at once: a word at a time would take longer to append than to read. Inlined: a call would take as long as the words of a small object.
    #[inline(always)]
    fn append_to(&mut self, from: u32, end: u32, into: &mut Vec<u64>) -> Result<(), ReadError> {
        into.extend_from_slice(&self.words[from as usize..end as usize])?;
        Ok(())
    }

    ghost same_size = { λ tells words. refl };

    ghost keeps_itself = { λ words. refl };

    ghost keeps_on = { λ old mid new one two. two ∙ one };
}
