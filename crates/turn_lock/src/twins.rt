//! What a value and a device under one lock are to each other.
ghost use Rattle.std.specs.Prelude.{ℕ};

use crate::turns::Turns;

/// A value with a device beside it, each of which has turns of its own.
pub trait Twins: Turns {
    /// What lies beside the value, as a disk beside what is known of it.
    type Device;

    /// What the value that was handed in, the value now and the device are to each other.
    ghost beside: { Self → Self → Self.Device → Type 0 };

    /// What is known of a device stays true of a later one.
    ghost later: { Self.Device → Self.Device → Type 0 };

    /// How many failures of the device the value does not tell yet.
    ghost owed: { Self → Self.Device → ℕ };

    /// A device is as late as itself.
    ghost later_itself: { (device : Self.Device) → later device device };

    /// What is known of a device stays true of one that is later than a later one.
    ghost later_on: { (old mid new : Self.Device) → later old mid → later mid new → later old new };
}
