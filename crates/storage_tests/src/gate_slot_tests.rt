//! The device calls that the two functions make, over a disk that stops after some of them.
ghost use Rattle.std.specs.Prelude.{[], false};
ghost use Rattle.std.proofs.Common.{rules};
ghost use Rattle.disk_model.specs.Disk.{HasCause};

use crate::compare::same;
use counts::Count;
use disk_model::{Disk, DiskError};
use gate_slot::{close_gate, fill_and_open};

/// Eight bytes that are not modelled. They stop once `left` writes and syncs are done.
#[derive(Drop)]
struct Stopping {
    bytes: [u8; 8],
    left: u8,
    stops: Count,
}

impl Stopping {
    fn pass(&mut self) -> Result<(), DiskError>
        ensures { HasCause 0 0 self.old.stops self.new.stops result }
    {
        if self.left == 0 {
            self.stops.raise();
            return Err(DiskError::Stopped);
        }
        self.left -= 1;
        Ok(())
    }
}

impl Disk for Stopping {
    ghost tells = { false };

    ghost extent = { λ disk. 8 };

    ghost bytes = { λ disk. [] };

    ghost may_leave = { λ disk c. ⊥ };

    ghost moment = { λ disk. 0 };

    ghost left_since = { λ disk t c. ⊥ };

    ghost faults = { λ disk. 0 };

    ghost stops = { λ disk. disk.stops };

    ghost passed = { λ disk. 0 };

    ghost restarts = { λ disk. 0 };

    ghost Origin = { Unit {0} };

    ghost origin = { λ disk. tt };

    fn size(&self) -> u64 {
        8
    }

    fn read(&mut self, at: u64, into: &mut [u8]) -> Result<(), DiskError> {
        let at = at as usize;
        into.copy_from_slice(&self.bytes[at..at + into.len()]);
        Ok(())
    }

    fn write(&mut self, at: u64, piece: &[u8]) -> Result<(), DiskError> {
        self.pass()?;
        let at = at as usize;
        self.bytes[at..at + piece.len()].copy_from_slice(piece);
        Ok(())
    }

    fn sync(&mut self) -> Result<(), DiskError> {
        self.pass()
    }

    fn restart(&mut self) {}

    ghost counts_now = { Prim.search rules };

    ghost only_now = { Prim.search rules };

    ghost reads_an_image = { Prim.search rules };

    ghost same_size = { Prim.search rules };
}

/// A disk that stops after that many calls, and has this gate.
fn make_stopping(left: u8, gate: u8) -> Stopping {
    Stopping {
        bytes: [9, gate, 9, 9, 9, 9, 9, 9],
        left,
        stops: Count::new(),
    }
}

/// How many calls are done, and the bytes that they leave. Only the last row has all of them.
const FILLED: [(u8, [u8; 8]); 5] = [
    (0, [9, 0, 9, 9, 9, 9, 9, 9]),
    (1, [9, 0, 9, 5, 6, 7, 9, 9]),
    (2, [9, 0, 9, 5, 6, 7, 9, 9]),
    (3, [9, 1, 9, 5, 6, 7, 9, 9]),
    (4, [9, 1, 9, 5, 6, 7, 9, 9]),
];

#[test]
fn a_stop_after_each_call(rt: HostRuntime) {
    for (left, want) in FILLED {
        let mut disk = make_stopping(left, 0);
        let filled = fill_and_open(&mut disk, 1, 3, &[5, 6, 7]).is_ok();
        same(&rt, (left, filled, disk.bytes), (left, left == 4, want));
    }
}

/// How many calls are done, the gate before them, and the gate that they leave.
const CLOSED: [(u8, u8, u8); 3] = [(2, 1, 0), (0, 0, 0), (0, 7, 7)];

#[test]
fn closes_an_open_gate_alone(rt: HostRuntime) {
    for (left, before, after) in CLOSED {
        let mut disk = make_stopping(left, before);
        let result = close_gate(&mut disk, 1);
        let want = [9, after, 9, 9, 9, 9, 9, 9];
        same(&rt, (before, result, disk.bytes), (before, Ok(()), want));
    }
}
