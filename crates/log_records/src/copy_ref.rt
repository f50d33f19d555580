//! The record of a copy whose words lie elsewhere.
ghost use Rattle.std.specs.Prelude.{◌≡◌, ◌+◌, ◌<◌, ◌^◌, length};
ghost use Rattle.log_records.specs.Record.{spelling, copy_record};

use crate::{COPY_HEAD_BYTES, WORD_BYTES};
use std::marker::Model;

/// An object's words, moved to another place, as an `ObjectCopy` has them, but borrowed: they may lie among those of other objects.
#[derive(Debug, Drop)]
pub struct CopyRef<'a> {
    from: u32,
    to: u32,
    words: &'a [u64],
}

impl<'a> Model for CopyRef<'a> {
    ghost use Rattle.log_records.specs.declared.copies.ObjectCopy.{ObjectCopy};

    ghost Value = { ObjectCopy };

    ghost view = { λ c. record { from = c.from; to = c.to; words = c.words.now } };
}

impl<'a> CopyRef<'a> {
    /// The copy at word address `to` of the object of these words that stood at `from`.
    pub fn new(from: u32, to: u32, words: &'a [u64]) -> CopyRef<'a>
        ensures { result ≡ record { from = from; to = to; words = words.now } }
    {
        CopyRef { from, to, words }
    }

    /// The word address at which the object stood.
    pub fn from(&self) -> u32
        ensures { result ≡ self.now.from }
    {
        self.from
    }

    /// The word address at which its copy stands.
    pub fn to(&self) -> u32
        ensures { result ≡ self.now.to }
    {
        self.to
    }

    /// The words of the copy.
    pub fn words(&self) -> &[u64]
        ensures { result.now ≡ self.now.words }
    {
        self.words
    }
}

/// The bytes of the spelling of its `Copy`.
#[tactic(auto, using(crate::proofs::Words::length_word_bytes))]
pub fn copy_length(copy: &CopyRef<'_>) -> u64
    ensures value { result ≡ length (spelling (copy_record copy.now)) }
    ensures small { result < 2 ^ 63 + 9 }
{
    (1 + COPY_HEAD_BYTES + WORD_BYTES * copy.words().len()) as u64
}
