//! The copies of objects that a record lists.
ghost use Rattle.std.specs.Prelude.{◌≡◌, ◌==◌, ◌<◌, ◌^◌, length};
ghost use Rattle.std.specs.List.{flat_map};
ghost use Rattle.std.specs.Cmp.Rules.{comparing};
ghost use Rattle.std.proofs.Common.{rules};
ghost use Rattle.std.specs.Cmp.Lexicographic.{pointwise};
ghost use Rattle.std.specs.Ordering.{eq_of_both, on};
ghost use Rattle.log_records.specs.Copies.{AreFew, copy_bytes};

use crate::{COPY_HEAD_BYTES, ObjectWords, WORD_BYTES};
use std::marker::Model;

/// An object's words, moved to another place.
#[derive(Debug, Drop, PartialEq, Eq)]
pub struct ObjectCopy {
    /// The word address at which the object stood.
    pub from: u32,
    /// The word address at which its copy stands.
    pub to: u32,
    /// The words of the copy.
    pub words: ObjectWords,
}

/// Copies of objects, in their order: few and small enough to have a spelling.
#[derive(Debug, Drop)]
pub struct Copies {
    copies: Vec<ObjectCopy>,
}

impl Model for Copies {
    ghost use Rattle.std.specs.Prelude.{List};
    ghost use Rattle.log_records.specs.declared.copies.ObjectCopy.{ObjectCopy};
    ghost use Rattle.log_records.specs.CopiesCode.{copies_code};
    ghost use Rattle.log_records.specs.Copies.{AreFew};

    ghost Value = { List ObjectCopy };

    ghost coded = { copies_code };

    ghost view = { λ s. s.copies.items };

    ghost invariant = { λ s. AreFew s.copies.items };
}

impl Copies {
    /// These copies. Does not allocate.
    pub fn new(copies: Vec<ObjectCopy>) -> Copies
        requires { AreFew copies.items }
        ensures { result ≡ copies.items }
    {
        Copies { copies }
    }

    /// The copies.
    pub fn as_slice(&self) -> &[ObjectCopy]
        ensures copies { result.now ≡ self.now }
        ensures few { AreFew self.now }
    {
        &self.copies
    }

    /// The copies, without copying them.
    pub fn into_vec(self) -> Vec<ObjectCopy>
        ensures { result.items ≡ self }
    {
        self.copies
    }

    /// How many bytes the copies take in a record.
    pub(crate) fn bytes(&self) -> usize
        ensures bytes { result ≡ length (flat_map copy_bytes self.now) }
        ensures small { result < 2 ^ 62 }
    {
        let mut bytes = 0;
        for copy in &self.copies {
            bytes += COPY_HEAD_BYTES + WORD_BYTES * copy.words.as_slice().len();
        }
        bytes
    }
}

impl PartialEq for Copies {
    ghost use Rattle.log_records.specs.declared.copies.ObjectCopy.{ObjectCopy};

    ghost eq = { pointwise (eq_of_both (on (λ (k : ObjectCopy). k.from) ◌==◌) (eq_of_both (on (λ (k : ObjectCopy). k.to) ◌==◌) (on (λ (k : ObjectCopy). k.words) (pointwise ◌==◌)))) };

    ghost laws = { Prim.search (comparing, rules) depth 9 };

    fn eq(&self, other: &Copies) -> bool {
        self.as_slice() == other.as_slice()
    }
}

impl Eq for Copies {
    ghost laws = { Prim.search (comparing, rules) depth 9 };
}
