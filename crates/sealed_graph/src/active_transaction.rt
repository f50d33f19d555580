//! A transaction that has not ended, as a history has it.
ghost use Rattle.std.specs.Prelude.{◌≡◌, [], ◌∷◌, ◌++◌, OnOk};

use graph_model::Event;
use std::alloc::{AllocError, Global};
use std::marker::Model;

/// An active transaction: its number, and its calls that were not refused, in order. Clauses see just that.
#[derive(Debug, Drop)]
pub(crate) struct ActiveTransaction {
    number: u64,
    calls: Vec<Event>,
}

impl Model for ActiveTransaction {
    ghost use Rattle.graph_model.specs.Transaction.{Transaction};

    ghost Value = { Transaction };

    ghost view = { λ transaction. record { number = transaction.number; calls = transaction.calls.items } };
}

impl ActiveTransaction {
    ghost use Rattle.graph_model.specs.Transaction.{Transaction};

    /// A transaction that has just begun. Does not allocate.
    pub(crate) fn begin(alloc: Global, number: u64) -> ActiveTransaction
        ensures { result ≡ record { number = number; calls = [] } }
    {
        ActiveTransaction {
            number,
            calls: Vec::new(alloc),
        }
    }

    /// Its number.
    pub(crate) fn number(&self) -> u64
        ensures { result ≡ self.now.number }
    {
        self.number
    }

    /// Its calls.
    pub(crate) fn calls(&self) -> &[Event]
        ensures { result.now ≡ self.now.calls }
    {
        &self.calls
    }

    /// One more call.
    pub(crate) fn push(&mut self, call: Event) -> Result<(), AllocError>
        ensures { OnOk result (self.new ≡ record { number = self.old.number; calls = self.old.calls ++ call ∷ [] }) }
    {
        self.calls.push(call)?;
        Ok(())
    }
}
