//! What is held: an object, by a transaction, in a mode.
ghost use Rattle.std.specs.Prelude.{◌≡◌};

/// An object as locks name it: its word address. It changes when the object moves.
#[derive(Clone, Copy, Debug, PartialEq, Eq, PartialOrd, Ord)]
pub struct Key {
    pub address: u32,
}

/// How a transaction uses an object.
#[derive(Clone, Copy, Debug, PartialEq, Eq, PartialOrd, Ord)]
pub enum Mode {
    /// It reads the object; others may read it too.
    Shared,
    /// It writes the object, and no other transaction uses it.
    Exclusive,
}

/// A lock: the transaction of that number uses the object in this mode.
#[derive(Clone, Copy, Debug, PartialEq, Eq, PartialOrd, Ord)]
pub struct Holding {
    pub key: Key,
    pub transaction: u32,
    pub mode: Mode,
}

impl Holding {
    ghost use Rattle.object_locks.specs.Conflict.{conflicts};

    /// Whether two transactions can't hold these together.
    pub fn conflicts_with(self, other: Holding) -> bool
        ensures { result ≡ conflicts self other }
    {
        self.key == other.key
            && self.transaction != other.transaction
            && (self.mode == Mode::Exclusive || other.mode == Mode::Exclusive)
    }
}
