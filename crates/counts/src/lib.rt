//! A saturating count of events: it stays at the largest number of its type.
#![tactic(auto)]

ghost use Rattle.std.specs.Prelude.{◌≡◌, ℕ};
ghost use Rattle.counts.specs.Count.{raised, Rose};

use std::marker::Model;

/// How often something happened. Clauses see the number.
#[derive(Clone, Copy, Debug, PartialEq, Eq)]
pub struct Count {
    times: u64,
}

impl Model for Count {
    ghost Value = { ℕ };

    ghost view = { λ c. c.times };

    ghost inverse = { λ n. record { times = n } };
}

impl Count {
    /// A count of 0.
    pub fn new() -> Self
        ensures { result ≡ 0 }
    {
        Count { times: 0 }
    }

    /// The count; `u64::MAX` also stands for more.
    pub fn get(&self) -> u64
        ensures { result ≡ self.now }
    {
        self.times
    }

    /// Counts one more.
    pub fn raise(&mut self)
        ensures raised { self.new ≡ raised self.old }
        ensures rose { Rose self.old self.new }
    {
        self.times = self.times.saturating_add(1);
    }
}
