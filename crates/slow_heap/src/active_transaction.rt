//! A transaction that has not ended, as the slow heap keeps it.
ghost use Rattle.std.specs.Prelude.{◌≡◌, [], ◌∷◌, ◌++◌, IfOk};

use graph_model::Event;
use std::alloc::{AllocError, Global};
use std::marker::Model;

/// An active transaction: its number, and its calls that were not refused, in order. Clauses see just that.
#[derive(Drop)]
pub struct ActiveTransaction {
    number: u32,
    calls: Vec<Event>,
}

impl Model for ActiveTransaction {
    ghost use Rattle.graph_model.specs.Transaction.{Transaction};

    ghost Value = { Transaction };

    ghost view = { λ transaction. record { number = transaction.number; calls = transaction.calls.items } };
}

impl ActiveTransaction {
    ghost use Rattle.graph_model.specs.Transaction.{Transaction};

    /// A transaction that has just begun. Does not allocate.
    pub fn begin(alloc: Global, number: u32) -> ActiveTransaction
        ensures { result ≡ record { number = number; calls = [] } }
    {
        ActiveTransaction {
            number,
            calls: Vec::new(alloc),
        }
    }

    /// Its number.
    pub fn number(&self) -> u32
        ensures { result ≡ self.now.number }
    {
        self.number
    }

    /// Its calls.
    pub fn calls(&self) -> &[Event]
        ensures { result.now ≡ self.now.calls }
    {
        &self.calls
    }

    /// The same with one more call. It fails only when out of memory.
    pub fn with_call(&self, alloc: Global, call: Event) -> Result<ActiveTransaction, AllocError>
        ensures { IfOk result (λ transaction. transaction ≡ record { number = self.now.number; calls = self.now.calls ++ call ∷ [] }) }
    {
        let mut calls = Vec::from_slice(alloc, &self.calls)?;
        calls.push(call)?;
        Ok(ActiveTransaction {
            number: self.number,
            calls,
        })
    }
}
