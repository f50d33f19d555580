//! What a caller of the lock holds between its turns.
ghost use Rattle.std.specs.Prelude.{◌≡◌};

use crate::law::Place;
use crate::turns::Turns;

/// One caller's part of a lock, and what it knows of the turns: what it saw of the history, the entries of its own turns, the
/// greatest front. It may be sent between threads if the value may.
#[derive(Drop)]
pub struct Pass<T: Turns> {
    pub(crate) label: u32,
    pub(crate) seat: Place<T, T::Entry>,
}

impl<T: Turns> Pass<T> {
    ghost use Rattle.turn_lock.specs.Passes.{label_of};

    /// The label that it was made with.
    pub fn label(&self) -> u32
        ensures { result ≡ label_of self.now }
    {
        self.label
    }
}
