//! All workers, each in a thread of its own.
ghost use Rattle.std.specs.Prelude.{◌≡◌, ◌<◌, ℕ, All, length, slice_index_or};
ghost use Rattle.heap_workers.specs.Stations.{IsReady, HasWorked};

use crate::calls::HeapCalls;
use crate::gate::Gate;
use crate::station::Station;
use std::sync::Wait;
use std::thread;
use std::thread::Threads;

/// The greatest number of workers: one for each session, the collector and the flusher.
pub const MOST_WORKERS: usize = 34;

/// Each worker sends its events in a thread of its own, if one can be started: at most 34 run at once.
pub fn work_all<C: HeapCalls + Send, G: Gate + Sync, R: Threads + Wait + Sync>(
    rt: &R,
    stations: &mut [Station<C>],
    gate: &G,
)
    requires { All (IsReady C.HeapCalls) stations.old }
    ensures { (i : ℕ) (d : _) → i < length stations.old → HasWorked C.HeapCalls (slice_index_or stations.old i d) (slice_index_or stations.new i d) }
{
    thread::for_each_mut(
        rt,
        stations,
        MOST_WORKERS,
        &|_, station| station.work(rt, gate),
    );
}
