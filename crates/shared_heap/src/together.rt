//! Workers on one shared heap, each in a thread of its own.
ghost use Rattle.std.specs.Prelude.{◌≡◌, ◌<◌, ℕ, All, length, slice_index_or};
ghost use Rattle.shared_heap.specs.Workers.{HasPass, HasSent};

use crate::caller::Caller;
use disk_model::Disk;
use heap_workers::{Gate, Station, work_all};
use std::sync::Wait;
use std::thread::Threads;

/// Each worker sends its events with its own pass, in a thread of its own if one can be started.
pub fn work_together<D: Disk + Send, G: Gate + Sync, R: Threads + Wait + Sync>(
    rt: &R,
    stations: &mut [Station<Caller<'_, D>>],
    gate: &G,
)
    requires { All HasPass stations.old }
    ensures { (i : ℕ) (d : _) → i < length stations.old → HasSent (slice_index_or stations.old i d) (slice_index_or stations.new i d) }
{
    work_all(rt, stations, gate);
}
