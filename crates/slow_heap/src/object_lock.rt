//! Locks on objects, and which of them conflict.
ghost use Rattle.std.specs.Prelude.{◌≡◌};
ghost use Rattle.graph_model.specs.Locking.{Shared, Exclusive, locks_conflict};

use graph_model::Id;
use std::marker::Model;

/// An object, and how it is held. Clauses see the model's lock.
#[derive(Drop)]
pub struct ObjectLock {
    id: Id,
    /// Whether no other transaction may hold it meanwhile.
    exclusive: bool,
}

impl Model for ObjectLock {
    ghost use Rattle.std.specs.Prelude.{if◌then◌else◌};
    ghost use Rattle.graph_model.specs.Locking.{Shared, Exclusive, Lock};

    ghost Value = { Lock };

    ghost view = { λ lock. (lock.id, (if lock.exclusive then Exclusive else Shared)) };
}

impl ObjectLock {
    /// The lock of one that reads the object.
    pub fn shared(id: Id) -> ObjectLock
        ensures { result ≡ (id, Shared) }
    {
        ObjectLock {
            id,
            exclusive: false,
        }
    }

    /// The lock of one that writes it.
    pub fn exclusive(id: Id) -> ObjectLock
        ensures { result ≡ (id, Exclusive) }
    {
        ObjectLock {
            id,
            exclusive: true,
        }
    }

    /// Whether it conflicts with one that is held.
    pub fn conflicts_with(&self, held: &ObjectLock) -> bool
        ensures { result ≡ locks_conflict self.now held.now }
    {
        held.id == self.id && (held.exclusive || self.exclusive)
    }
}
