//! A disk in memory for tests, whose size its callers can tell.
ghost use Rattle.std.specs.Prelude.{◌≡◌, length, IfOk};
ghost use Rattle.disk_model.specs.Memory.{now_of};

use disk_model::{MemoryDisk, Pick};
use std::alloc::{AllocError, Global};

/// A disk with these bytes and nothing pending, whose record has room for that many bytes. The writes and syncs of the first
/// list fail, and the reads of the second.
pub fn disk_of(
    alloc: Global,
    bytes: Vec<u8>,
    pick: Pick,
    room: usize,
    fails: (&[u64], &[u64]),
) -> Result<MemoryDisk, AllocError>
    ensures { IfOk result (λ disk. length (now_of disk).newest ≡ length bytes.items) }
{
    let writes = fails.0.to_vec(alloc)?;
    MemoryDisk::of(alloc, bytes, pick, room, writes, fails.1.to_vec(alloc)?)
}
