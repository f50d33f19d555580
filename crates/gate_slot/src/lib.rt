//! Bytes behind a gate: a crash at any moment leaves them closed off, or whole.
#![tactic(auto)]

ghost use Rattle.std.specs.Prelude.{◌≡◌, ℕ, ◌+◌, ◌<◌, ◌≤◌, ◌⊎◌, ◌==◌, List, length, IsTrue, OnOk, slice_index, if◌then◌else◌};
ghost use Rattle.disk_model.specs.Disk.{Only};
ghost use Rattle.disk_model.specs.Keeps.{KeepsDisk, OnlyReads};
ghost use Rattle.disk_model.specs.Moments.{LeavesOnly};
ghost use Rattle.gate_slot.specs.Gate.{IsGateClosed, IsClosedInEach, IsSettled, closed, filled, IsOutside, SameButGate, IsFilling};
ghost use Rattle.gate_slot.specs.Passing.{Passes};

use disk_model::{Disk, DiskError};

/// The byte of an open gate. Any other byte is a closed one.
pub const OPEN: u8 = 1;

/// The byte that closes an open gate.
pub const CLOSED: u8 = 0;

/// Closes the gate at byte `gate` of the disk, if it is open, and syncs. A gate that isn't open is never written, since a
/// crash may leave any byte where something was written, also 1. After an error an open gate may hold any byte.
pub fn close_gate<D: Disk>(disk: &mut D, gate: u64) -> Result<(), DiskError>
    requires { gate < D.extent disk.old }

    ensures disk { KeepsDisk D.Disk disk.old disk.new result }
    ensures closed { IsTrue D.tells → OnOk result (D.bytes disk.new ≡ closed gate (D.bytes disk.old)) }
    ensures each { IsTrue D.tells → IsSettled gate (D.bytes disk.old) (D.may_leave disk.old) → OnOk result (IsClosedInEach gate (D.may_leave disk.new)) }
    ensures durable { IsTrue D.tells → Only (D.bytes disk.old) (D.may_leave disk.old) → OnOk result (Only (D.bytes disk.new) (D.may_leave disk.new)) }
    // A crash at any moment leaves all but the gate as it was.
    ensures moments { IsTrue D.tells → LeavesOnly D.moment D.left_since disk.old disk.new (λ c. (d : List ℕ) × D.may_leave disk.old d × SameButGate gate d c) }
    // A closed gate is only read.
    ensures left_alone { IsTrue D.tells → IsGateClosed gate (D.bytes disk.old) → OnlyReads D.Disk disk.old disk.new result }
    ensures passes { IsTrue D.tells → Passes (if slice_index (D.bytes disk.old) gate == 1 then 2 else 0) (D.passed disk.old) (D.passed disk.new) result }
{
    let mut byte = [CLOSED];
    disk.read(gate, &mut byte)?;
    if byte[0] == OPEN {
        disk.write(gate, &[CLOSED])?;
        disk.sync()?;
    }
    Ok(())
}

/// Puts bytes behind a closed gate, from byte `at` of the disk on, and opens it, in four device calls: the bytes, a sync,
/// the gate, a sync. After an error the gate is closed, or open with all of the bytes.
pub fn fill_and_open<D: Disk>(
    disk: &mut D,
    gate: u64,
    at: u64,
    bytes: &[u8],
) -> Result<(), DiskError>
    requires gate_inside { gate < D.extent disk.old }
    requires bytes_inside { at + length bytes.now ≤ D.extent disk.old }
    requires apart { IsOutside at (length bytes.now) gate }

    ensures disk { KeepsDisk D.Disk disk.old disk.new result }
    ensures filled { IsTrue D.tells → OnOk result (D.bytes disk.new ≡ filled gate at bytes.now (D.bytes disk.old)) }
    ensures durable { IsTrue D.tells → OnOk result (Only (D.bytes disk.new) (D.may_leave disk.new)) }
    // A crash at any moment leaves the gate closed, or open in the image as it was read, with all of the bytes.
    ensures moments { IsTrue D.tells → IsClosedInEach gate (D.may_leave disk.old) → LeavesOnly D.moment D.left_since disk.old disk.new (λ c. (d : List ℕ) × D.may_leave disk.old d × IsFilling gate at bytes.now (D.bytes disk.old) d c) }
    ensures passes { IsTrue D.tells → Passes 4 (D.passed disk.old) (D.passed disk.new) result }
{
    disk.write(at, bytes)?;
    disk.sync()?;
    disk.write(gate, &[OPEN])?;
    disk.sync()
}
