//! What a caller of a lock with two turns holds between its turns.
ghost use Rattle.std.specs.Prelude.{◌≡◌};

use crate::twin_law::TwinPlace;
use crate::twins::Twins;

/// One caller's part of a lock with two turns, and what it knows of them. It may be sent between threads if the value and the device may.
#[derive(Drop)]
pub struct TwinPass<T: Twins> {
    pub(crate) label: u32,
    pub(crate) seat: TwinPlace<T, T::Entry, T::Device>,
}

impl<T: Twins> TwinPass<T> {
    /// The label that it was made with.
    pub fn label(&self) -> u32
        ensures { result ≡ self.now.label }
    {
        self.label
    }
}
