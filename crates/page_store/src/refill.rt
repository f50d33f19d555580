//! Replaces the bytes behind a gate.
ghost use Rattle.std.specs.Prelude.{◌≡◌, ◌+◌, ◌^◌, ◌<◌, ◌≤◌, ◌==◌, length, slice_index, IsTrue, OnOk, if◌then◌else◌};
ghost use Rattle.disk_model.specs.Disk.{Only};
ghost use Rattle.disk_model.specs.Keeps.{KeepsDisk};
ghost use Rattle.disk_model.specs.Moments.{LeavesOnly};
ghost use Rattle.gate_slot.specs.Gate.{filled, closed};
ghost use Rattle.gate_slot.specs.Passing.{Passes};
ghost use Rattle.page_store.specs.Refill.{IsRefilling};

use disk_model::{Disk, DiskError};
use gate_slot::{close_gate, fill_and_open};

/// Closes the gate at byte `gate` of the disk if it is open, writes the body behind it, and opens it: in four device calls,
/// and two more to close it. After an error the gate is closed, or open with the old bytes behind it or with all of the body.
pub(crate) fn refill<D: Disk>(disk: &mut D, gate: u64, body: &[u8]) -> Result<(), DiskError>
    requires inside { gate + 1 + length body.now ≤ D.extent disk.old }
    requires small { gate + 1 < 2 ^ 64 }

    ensures disk { KeepsDisk D.Disk disk.old disk.new result }
    ensures written { IsTrue D.tells → OnOk result (D.bytes disk.new ≡ filled gate (gate + 1) body.now (closed gate (D.bytes disk.old))) }
    ensures durable { IsTrue D.tells → OnOk result (Only (D.bytes disk.new) (D.may_leave disk.new)) }
    ensures moments { IsTrue D.tells → Only (D.bytes disk.old) (D.may_leave disk.old) → LeavesOnly D.moment D.left_since disk.old disk.new (IsRefilling gate body.now (D.bytes disk.old)) }
    ensures passes { IsTrue D.tells → Passes (if slice_index (D.bytes disk.old) gate == 1 then 6 else 4) (D.passed disk.old) (D.passed disk.new) result }
{
    close_gate(disk, gate)?;
    fill_and_open(disk, gate, gate + 1, body)
}
