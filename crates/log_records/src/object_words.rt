//! The words of an object in a record.
ghost use Rattle.std.specs.Prelude.{◌≡◌, ◌==◌};
ghost use Rattle.std.specs.Cmp.Rules.{comparing};
ghost use Rattle.std.proofs.Common.{rules};
ghost use Rattle.std.specs.Cmp.Lexicographic.{pointwise};

use std::marker::Model;

/// The words of an object, from its header on.
#[derive(Debug, Drop)]
pub struct ObjectWords {
    words: Vec<u64>,
}

impl Model for ObjectWords {
    ghost use Rattle.std.specs.Prelude.{ℕ, List};

    ghost Value = { List ℕ };

    ghost view = { λ s. s.words.items };
}

impl ObjectWords {
    /// These words. Does not allocate.
    pub fn new(words: Vec<u64>) -> ObjectWords
        ensures { result ≡ words.items }
    {
        ObjectWords { words }
    }

    /// The words.
    pub fn as_slice(&self) -> &[u64]
        ensures { result.now ≡ self.now }
    {
        &self.words
    }

    /// The words, without copying them.
    pub fn into_vec(self) -> Vec<u64>
        ensures { result.items ≡ self }
    {
        self.words
    }
}

impl PartialEq for ObjectWords {
    ghost eq = { pointwise ◌==◌ };

    ghost laws = { Prim.search (comparing, rules) };

    fn eq(&self, other: &ObjectWords) -> bool {
        self.as_slice() == other.as_slice()
    }
}

impl Eq for ObjectWords {
    ghost laws = { Prim.search (comparing, rules) };
}
