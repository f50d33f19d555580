//! The locks that a transaction takes on objects of the current space. An object of its own area needs none: no other transaction
//! reaches it.
ghost use Rattle.std.specs.Prelude.{◌≡◌, ◌∷◌, None, OnOk, OnErr, IsSome};
ghost use Rattle.std.specs.FinSet as set;
ghost use Rattle.graph_model.specs.Plain.{busy_with};
ghost use Rattle.object_locks.specs.Holdings.{MayHold};
ghost use Rattle.txn_table.specs.Table.{transaction_of, Changes};
ghost use Rattle.heap_memory.specs.Refusals.{holder_of, asked};

use graph_model::Refusal;
use log_machine::UndoEntry;
use object_locks::{Holding, Key, LockTable, Mode};
use std::alloc::AllocError;
use txn_table::TxnTable;

/// The refusal that names the transaction with the lock.
fn busy(holder: u32) -> Refusal
    ensures { result ≡ Refusal.Busy holder }
{
    Refusal::Busy {
        holder: u64::from(holder),
    }
}

/// The lock by which transaction `t` uses the object at an address in that mode.
pub(crate) fn lock_of(t: u32, mode: Mode, at: u32) -> Holding
    ensures { result ≡ asked t mode at }
{
    Holding {
        key: Key { address: at },
        transaction: t,
        mode,
    }
}

/// Why a lock can't be taken: others hold conflicting locks on the object.
pub(crate) fn lock_refusal(locks: &LockTable, lock: Holding) -> Option<Refusal>
    ensures why { result ≡ busy_with (holder_of locks.now lock) }
    ensures free { result ≡ None → MayHold locks.now lock }
{
    let holder = locks.conflict(lock)?;
    Some(busy(holder))
}

/// Keeps what a write of the session's transaction replaces, and takes the lock of the object that it writes, with which no other transaction's
/// lock conflicts. An error changes nothing.
pub(crate) fn keep_write(
    table: &mut TxnTable,
    locks: &mut LockTable,
    session: u32,
    entry: UndoEntry,
    lock: Holding,
) -> Result<(), AllocError>
    requires active { IsSome (transaction_of table.old session) }
    requires free { MayHold locks.old lock }
    ensures kept { OnOk result (Changes table.old table.new session (λ t. record t { undo = entry ∷ t.undo })) }
    ensures locked { OnOk result (locks.new ≡ set.insert locks.old lock) }
    ensures err { OnErr result ((table.new ≡ table.old) × (locks.new ≡ locks.old)) }
{
    table.push_undo(session, entry)?;
    if let Err(e) = locks.take(lock) {
        let _entry = table.pop_undo(session);
        return Err(e);
    }
    Ok(())
}
