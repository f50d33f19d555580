//! The table of the locks that are held.
//!
//! A lock, or a test for one, takes time logarithmic in what is held, times what is held of that object. `release` takes that logarithm
//! times what the transaction holds, and `rekey` the time to rebuild the table and to look each lock's object up.
ghost use Rattle.std.specs.Prelude.{◌≡◌, OnOk, OnErr, IfOk, MatchOption, find};
ghost use Rattle.std.specs.BTreeSet.{IsOrdered};
ghost use Rattle.std.specs.FinSet as set;
ghost use Rattle.object_locks.specs.Holdings.{holding_cmp, MayHold, IsLeastInConflict, without, rekeyed, AreLocked};
ghost use Rattle.object_locks.specs.Table.{owned, on_object, IsOf, HasNone};
ghost use Rattle.object_locks.specs.Conflict.{conflicts};
ghost use Rattle.relocation.specs.Relocation.{IsRelocation};

use crate::holding::{Holding, Key, Mode};
use relocation::moved_to;
use std::alloc::{AllocError, Global};
use std::collections::BTreeSet;
use std::marker::Model;

/// A holding, by its transaction.
#[derive(Clone, Copy, Debug, PartialEq, Eq, PartialOrd, Ord)]
struct Owned {
    transaction: u32,
    key: Key,
    mode: Mode,
}

/// The locks that are held. Clauses see the set of the holdings.
#[derive(Debug, Drop)]
pub struct LockTable {
    alloc: Global,
    by_object: BTreeSet<Holding>,
    /// The same holdings, ordered so that those of one transaction stand together.
    by_transaction: BTreeSet<Owned>,
}

impl Model for LockTable {
    ghost use Rattle.object_locks.specs.Holdings.{Holdings};
    ghost use Rattle.object_locks.specs.Table.{holdings_code, IsTable};
    ghost use Rattle.std.specs.FinSet as set;

    ghost Value = { Holdings };

    ghost coded = { holdings_code };

    ghost view = { λ table. set.from_list table.by_object.keys };

    ghost invariant = { λ table. IsTable table.by_object table.by_transaction };
}

impl LockTable {
    /// No locks. Does not allocate.
    pub fn new(alloc: Global) -> LockTable
        ensures { result ≡ set.empty }
    {
        LockTable {
            alloc,
            by_object: BTreeSet::new(alloc),
            by_transaction: BTreeSet::new(alloc),
        }
    }

    /// The transaction that holds a lock in conflict with `asked`, if one does; if several do, the one with the least number.
    pub fn conflict(&self, asked: Holding) -> Option<u32>
        ensures { MatchOption result (MayHold self.now asked) (IsLeastInConflict self.now asked) }
    {
        let held = find_conflict(&self.by_object, asked)?;
        Some(held.transaction)
    }

    /// Takes a lock with which no other transaction's conflicts, as `conflict` says. An error changes nothing.
    pub fn take(&mut self, lock: Holding) -> Result<(), AllocError>
        requires { MayHold self.old lock }
        ensures taken { OnOk result (self.new ≡ set.insert self.old lock) }
        ensures err { OnErr result (self.new ≡ self.old) }
    {
        self.add(lock)
    }

    // Adds a holding. An error changes nothing.
    fn add(&mut self, holding: Holding) -> Result<(), AllocError>
        ensures ok { OnOk result (self.new ≡ set.insert self.old holding) }
        ensures err { OnErr result (self.new ≡ self.old) }
    {
        self.by_object.insert(holding)?;
        if let Err(refused) = self.by_transaction.insert(by_transaction(holding)) {
            self.by_object.remove(&holding);
            return Err(refused.into());
        }
        Ok(())
    }

    /// Frees all that transaction `t` holds, which it does when it ends. Does not allocate.
    pub fn release(&mut self, t: u32)
        ensures { self.new ≡ without self.old t }
    {
        while let Some(holding) = self.first_of(t) {
            self.remove(holding);
        }
    }

    // The first holding of transaction `t`, if it has one.
    fn first_of(&self, t: u32) -> Option<Holding>
        ensures { MatchOption result (HasNone self.now t) (IsOf self.now t) }
    {
        let first = Owned {
            transaction: t,
            key: Key { address: 0 },
            mode: Mode::Shared,
        };
        let found = self.by_transaction.range(first..).next()?;
        if found.transaction != t {
            return None;
        }
        Some(Holding {
            key: found.key,
            transaction: t,
            mode: found.mode,
        })
    }

    // Removes a holding.
    fn remove(&mut self, held: Holding)
        ensures { self.new ≡ set.remove self.old held }
    {
        self.by_object.remove(&held);
        self.by_transaction.remove(&by_transaction(held));
    }

    /// The word addresses of the objects that are locked, ascending, each once. It takes linear time.
    pub fn addresses(&self) -> Result<Vec<u32>, AllocError>
        ensures { IfOk result (λ addresses. AreLocked self.now addresses.items) }
    {
        let mut addresses = Vec::new(self.alloc);
        for holding in &self.by_object {
            addresses.push(holding.key.address)?;
        }
        // The holdings of one object stand together.
        addresses.dedup();
        Ok(addresses)
    }

    /// The objects have moved, as these pairs say, and the locks on them move along. It fails only if memory runs out, and then nothing has
    /// changed: a caller who moves more than the locks should call it first, and then do what can't fail.
    pub fn rekey(&mut self, pairs: &[(u32, u32)]) -> Result<(), AllocError>
        requires { IsRelocation pairs.now }
        ensures ok { OnOk result (self.new ≡ rekeyed pairs.now self.old) }
        ensures err { OnErr result (self.new ≡ self.old) }
    {
        let mut table = LockTable::new(self.alloc);
        for holding in &self.by_object {
            let address = moved_to(pairs, holding.key.address);
            table.add(Holding {
                key: Key { address },
                ..*holding
            })?;
        }
        *self = table;
        Ok(())
    }
}

// The first of the object's holdings that conflicts with `asked`.
fn find_conflict(held: &BTreeSet<Holding>, asked: Holding) -> Option<Holding>
    ensures found { result ≡ find (λ h. conflicts h asked) (on_object held.now asked.key) }
    ensures ordered { IsOrdered holding_cmp held.now }
{
    let first = Holding {
        key: asked.key,
        transaction: 0,
        mode: Mode::Shared,
    };
    let last = Holding {
        key: asked.key,
        transaction: u32::MAX,
        mode: Mode::Exclusive,
    };
    held.range(first..=last)
        .find(|h| h.conflicts_with(asked))
        .copied()
}

// The holding, by its transaction.
fn by_transaction(holding: Holding) -> Owned
    ensures { result ≡ owned holding }
{
    Owned {
        transaction: holding.transaction,
        key: holding.key,
        mode: holding.mode,
    }
}
