//! A script's workers send their events to one heap that they share, each in a thread of its own.
ghost use Rattle.std.specs.Prelude.{◌≡◌, ◌<◌, ◌≤◌, ◌↔◌, [], All, IfErr, IfOk, IsOk, length, vec_capacity, vec_len};
ghost use Rattle.std.specs.List.{AllByRecursion};
ghost use Rattle.graph_model.specs.History.{IsOfSession};
ghost use Rattle.heap_core.specs.HeapState.{history_of};
ghost use Rattle.script_text.specs.Line.{events};
ghost use Rattle.shared_heap.specs.Follows.{Follows};
ghost use Rattle.thread_play.specs.Worked.{IsWorked};
ghost use Rattle.thread_play.specs.Stationed.{AreWorkers, AreNew, ArePlayed, AreStations, passes_back};

use disk_model::Disk;
use heap_core::Heap;
use heap_workers::{Gate, MOST_WORKERS, Station, Worker};
use script_text::Line;
use script_workers::workers_of;
use shared_heap::{Caller, Pass, SharedHeap, work_together};
use std::alloc::{AllocError, Global};
use std::sync::Wait;
use std::thread::Threads;

/// The labels of the workers' passes: the sessions, and 0 for the collector and the flusher.
const LABELS: [u32; 34] = [
    1, 2, 3, 4, 5, 6, 7, 8, 9, 10, 11, 12, 13, 14, 15, 16, 17, 18, 19, 20, 21, 22, 23, 24, 25, 26,
    27, 28, 29, 30, 31, 32, 0, 0,
];

/// Plays a script on a heap with a thread for each worker, if one can be started. The heap comes back however it ends: with all that the workers have
/// sent, or with a prefix of that if memory ran out.
pub fn play_together<D: Disk + Send, G: Gate + Sync, R: Threads + Wait + Sync>(
    rt: &R,
    alloc: Global,
    heap: Heap<D>,
    lines: &[Line],
    tries: u32,
    gate: &G,
) -> (Result<(), AllocError>, Heap<D>)
    requires tries { 0 < tries }
    requires sessions { AllByRecursion IsOfSession (events lines.now) }
    ensures follows { Follows heap result.1 }
    ensures worked { IsWorked tries lines.now (length (history_of heap)) (history_of result.1) result.0 }
{
    let workers = match workers_of(alloc, lines, tries) {
        Ok(workers) => workers,
        Err(e) => return (Err(e), heap),
    };
    match SharedHeap::new(alloc, heap, &LABELS) {
        Ok((shared, mut passes)) => {
            let end = work_by(rt, alloc, &shared, workers, &mut passes, gate);
            (end, shared.close(passes))
        }
        Err((e, heap)) => (Err(e), heap),
    }
}

// Each pass goes to the worker of its number, and comes back with what that has sent. If memory runs out at once nothing was sent.
fn work_by<D: Disk + Send, G: Gate + Sync, R: Threads + Wait + Sync>(
    rt: &R,
    alloc: Global,
    shared: &SharedHeap<D>,
    workers: Vec<Worker>,
    passes: &mut Vec<Pass<D>>,
    gate: &G,
) -> Result<(), AllocError>
    requires workers { AreWorkers workers.items }
    requires passes { AreNew shared.now passes.old.items }
    ensures { ArePlayed shared.now result workers.items passes.new.items }
{
    let mut stations = stations_of(alloc, shared, workers, passes)?;
    work_together(rt, stations.as_mut_slice(), gate);
    give_back(stations, passes)
}

// A station for each worker with its pass, the last first.
fn stations_of<'a, D: Disk>(
    alloc: Global,
    shared: &'a SharedHeap<D>,
    mut workers: Vec<Worker>,
    passes: &mut Vec<Pass<D>>,
) -> Result<Vec<Station<Caller<'a, D>>>, AllocError>
    requires workers { vec_len workers ≡ 34 }
    requires passes { vec_len passes.old ≡ 34 }
    ensures ok { IfOk result (λ stations. AreStations shared.now workers.items passes.old.items stations.items) }
    ensures empty { IfOk result (λ _. (passes.new.items ≡ []) × (34 ≤ vec_capacity passes.new)) }
    ensures err { IfErr result (λ _. passes.new ≡ passes.old) }
{
    let mut stations = Vec::with_capacity(alloc, MOST_WORKERS)?;
    while let Some(worker) = workers.pop() {
        let pass = passes.pop().unwrap();
        stations.push_reserved(Station {
            calls: Caller { heap: shared, pass },
            worker,
            end: Ok(()),
        });
    }
    Ok(stations)
}

// The passes of the stations, in their first order, and whether one of them ran out of memory.
fn give_back<D: Disk>(
    mut stations: Vec<Station<Caller<'_, D>>>,
    passes: &mut Vec<Pass<D>>,
) -> Result<(), AllocError>
    requires room { (passes.old.items ≡ []) × (vec_len stations ≤ vec_capacity passes.old) }
    ensures passes { passes.new.items ≡ passes_back stations.entry.items }
    ensures end { IsOk result ↔ All (λ station. IsOk station.end) stations.entry.items }
{
    let mut end = Ok(());
    while let Some(station) = stations.pop() {
        let Station {
            calls: Caller { heap: _, pass },
            worker: _,
            end: own,
        } = station;
        end = end.and(own);
        passes.push_reserved(pass);
    }
    end
}
