//! What a pass knows: plain data that exists in proofs alone.
use std::collections::LinkedList;

/// The stage of a pass in its turn.
pub enum Stage {
    /// It has no ticket.
    Resting,
    /// It has a ticket that is not served yet.
    Waiting,
    /// Its ticket is served, and the value is out with it.
    Turn,
    /// The same, and the front is raised to that of the value that is put back.
    Raised,
}

/// What a pass knows. No value of this type is ever made.
pub struct View<T, E> {
    /// The value that was handed to the lock, as it was then. `None` in the view that a joined pass leaves behind.
    pub first: Option<T>,
    /// Its number and those of the passes that were joined into it.
    pub numbers: LinkedList<u64>,
    pub stage: Stage,
    /// The whole number of its ticket, if it has one.
    pub ticket: u64,
    /// The history as far as it was seen.
    pub seen: LinkedList<E>,
    /// The same of each pass that was joined into it, and of itself before.
    pub parts: LinkedList<LinkedList<E>>,
    /// The empty turns of the value that is out with it.
    pub empty: u64,
    /// The entries of its own turns, each with its place in the history.
    pub mine: LinkedList<(u64, E)>,
    /// How many turns it has made.
    pub turns: u64,
    /// The greatest front that it knows.
    pub front: u64,
}
