//! The names of objects.

/// An object's name, which it keeps for good: the transaction that made it and its index there, both from 1.
#[derive(Clone, Copy, Debug, PartialEq, Eq, PartialOrd, Ord)]
pub struct Id {
    /// The number of the transaction that made the object.
    pub t: u32,
    /// Which of the objects that the transaction made, from 1.
    pub k: u32,
}

/// The root object, from which all others are reached. No transaction made it.
pub const ROOT: Id = Id { t: 0, k: 0 };
