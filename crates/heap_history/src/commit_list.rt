//! The commits of a history.
ghost use Rattle.std.specs.Prelude.{◌≡◌, [], ◌∷◌, ◌++◌, OnOk, IfOk};

use graph_model::Event;
use std::alloc::{AllocError, Global};
use std::marker::Model;

/// A transaction: its number, and its calls that were not refused, in order. Clauses see just that.
#[derive(Debug, Drop)]
pub struct Commit {
    number: u64,
    calls: Vec<Event>,
}

impl Model for Commit {
    ghost use Rattle.graph_model.specs.Transaction.{Transaction};

    ghost Value = { Transaction };

    ghost view = { λ commit. record { number = commit.number; calls = commit.calls.items } };
}

impl Commit {
    ghost use Rattle.graph_model.specs.Transaction.{Transaction};

    /// A transaction that has just begun. Does not allocate.
    pub(crate) fn begin(alloc: Global, number: u64) -> Commit
        ensures { result ≡ record { number = number; calls = [] } }
    {
        Commit {
            number,
            calls: Vec::new(alloc),
        }
    }

    /// Its number.
    pub fn number(&self) -> u64
        ensures { result ≡ self.now.number }
    {
        self.number
    }

    /// Its calls.
    pub fn calls(&self) -> &[Event]
        ensures { result.now ≡ self.now.calls }
    {
        &self.calls
    }

    /// Adds a call.
    pub(crate) fn push(&mut self, call: Event) -> Result<(), AllocError>
        ensures number { self.new.number ≡ self.old.number }
        ensures calls { OnOk result (self.new.calls ≡ self.old.calls ++ call ∷ []) }
    {
        self.calls.push(call)?;
        Ok(())
    }

    /// The same once more.
    pub(crate) fn copied(&self, alloc: Global) -> Result<Commit, AllocError>
        ensures { IfOk result (λ commit. commit ≡ self.now) }
    {
        Ok(Commit {
            number: self.number,
            calls: Vec::from_slice(alloc, &self.calls)?,
        })
    }
}

/// Commits, in the order of their seals. Clauses see the list of the transactions.
#[derive(Debug, Drop)]
pub struct CommitList {
    commits: Vec<Commit>,
}

impl Model for CommitList {
    ghost use Rattle.std.specs.Prelude.{List};
    ghost use Rattle.graph_model.specs.Transaction.{Transaction};

    ghost Value = { List Transaction };

    ghost view = { λ list. list.commits.items };
}

impl CommitList {
    /// The list of these commits. Does not allocate.
    pub fn from_vec(commits: Vec<Commit>) -> CommitList
        ensures { result ≡ commits.items }
    {
        CommitList { commits }
    }

    /// The commits.
    pub fn as_slice(&self) -> &[Commit]
        ensures { result.now ≡ self.now }
    {
        &self.commits
    }
}
