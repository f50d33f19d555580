//! The writes that a record lists.
ghost use Rattle.std.specs.Prelude.{◌≡◌, ◌==◌, ◌<◌, ◌^◌, ℕ, length};
ghost use Rattle.std.specs.Cmp.Rules.{comparing};
ghost use Rattle.std.proofs.Common.{rules};
ghost use Rattle.std.specs.Cmp.Lexicographic.{pointwise};
ghost use Rattle.std.specs.Ordering.{eq_of_both, on};

use std::marker::Model;

/// Words and the addresses at which they are put, in their order: few enough that their count has 16 bits.
#[derive(Debug, Drop)]
pub struct Writes {
    writes: Vec<(u32, u64)>,
}

impl Model for Writes {
    ghost use Rattle.std.specs.Prelude.{ℕ, List, ◌<◌, ◌^◌, length};
    ghost use Rattle.std.specs.Coded.{coded_ℕ, coded_list, coded×};

    ghost Value = { List (ℕ × ℕ) };

    ghost coded = { coded_list (coded× coded_ℕ coded_ℕ) };

    ghost view = { λ s. s.writes.items };

    ghost invariant = { λ s. length s.writes.items < 2 ^ 16 };
}

impl Writes {
    /// These writes. Does not allocate.
    pub fn new(writes: Vec<(u32, u64)>) -> Writes
        requires { length writes.items < 2 ^ 16 }
        ensures { result ≡ writes.items }
    {
        Writes { writes }
    }

    /// The writes.
    pub fn as_slice(&self) -> &[(u32, u64)]
        ensures writes { result.now ≡ self.now }
        ensures few { length self.now < 2 ^ 16 }
    {
        &self.writes
    }

    /// The writes, without copying them.
    pub fn into_vec(self) -> Vec<(u32, u64)>
        ensures { result.items ≡ self }
    {
        self.writes
    }
}

impl PartialEq for Writes {
    ghost eq = { pointwise (eq_of_both (on (λ (w : ℕ × ℕ). w.0) ◌==◌) (on (λ (w : ℕ × ℕ). w.1) ◌==◌)) };

    ghost laws = { Prim.search (comparing, rules) };

    fn eq(&self, other: &Writes) -> bool {
        self.as_slice() == other.as_slice()
    }
}

impl Eq for Writes {
    ghost laws = { Prim.search (comparing, rules) };
}
