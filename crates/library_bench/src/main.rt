//! Plays a load on a heap in memory, or collects a heap in a file, through the library's calls, with no text made and nothing printed but how many events
//! or collections there were.
#![tactic(auto)]

mod collecting;

use anyhow::Error;
use collecting::collect_file;
use disk_model::{Disk, MemoryDisk, Pick};
use graph_model::Event;
use heap_core::Heap;
use script_text::{Line, Load};
use std::alloc::{AllocError, Global};
use std::env;

/// How many pages each space has, as in the loads that `bench/peers.py` compares.
const PAGES: u32 = 64;

/// The bytes of the log that a round takes at most, and those of the image without its log.
const ROUND_BYTES: u32 = 400;

const HEAP_BYTES: usize = 200_000;

/// Makes an event, whatever the reply.
fn make<D: Disk>(heap: &mut Heap<D>, event: Event) -> Result<(), AllocError> {
    if event.is_of_session() {
        heap.step(event)?;
    }
    Ok(())
}

fn make_line<D: Disk>(heap: &mut Heap<D>, line: &Line) -> Result<(), AllocError> {
    match line {
        Line::One(event) => make(heap, *event),
        Line::Commit { s } => {
            make(heap, Event::Seal { s: *s })?;
            make(heap, Event::Force)
        }
    }
}

fn play<D: Disk>(
    alloc: Global,
    heap: &mut Heap<D>,
    mut load: Load,
    count: u32,
) -> Result<(), AllocError> {
    for _ in 0..count {
        let Some(round) = load.next_round(alloc)? else {
            return Ok(());
        };
        for line in &round {
            make_line(heap, line)?;
        }
    }
    Ok(())
}

/// A new heap in memory, with a log for `count` rounds. Its disk keeps what was written, so it has room for that twice.
fn new_heap(alloc: Global, count: u32) -> Result<Heap<MemoryDisk>, Error> {
    let log_bytes = count
        .saturating_mul(ROUND_BYTES)
        .clamp(65_536, 1_073_741_824);
    let bytes = vec![in alloc; 0u8; log_bytes as usize + HEAP_BYTES]?;
    let room = 2 * log_bytes as usize + HEAP_BYTES;
    let none = Vec::new(alloc);
    let disk = MemoryDisk::of(alloc, bytes, Pick::Newest, room, none, Vec::new(alloc))?;
    let disk = Heap::format(disk, PAGES, log_bytes, 1).map_err(|e| e.0)?;
    Ok(Heap::open(alloc, disk).map_err(|e| e.0)?)
}

/// Plays a load on a new heap, and prints how many events and commits there were.
fn play_load(rt: &HostRuntime, alloc: Global, seed: u32, count: u32) -> Result<(), Error> {
    let mut heap = new_heap(alloc, count)?;
    play(
        alloc,
        &mut heap,
        Load::new(seed % 2_147_483_648, count),
        count,
    )?;
    let (events, commits) = (heap.history().len(), heap.commits());
    println!(rt; "events {events} commits {commits}")?;
    Ok(())
}

fn main(rt: HostRuntime) -> Result<(), Error> {
    let alloc = rt.alloc();
    let words: Vec<String> = env::args(&rt)?.collect(alloc)?;
    match words.as_slice() {
        [_, verb, path, rounds] if verb.as_str() == "collect" => {
            let collected = collect_file(&rt, alloc, path, rounds.parse::<u32>()?)?;
            println!(rt; "collected {collected}")?;
        }
        [_, seed, count] => play_load(&rt, alloc, seed.parse::<u32>()?, count.parse::<u32>()?)?,
        _ => {
            println!(rt; "library_bench SEED COUNT: a load on a heap in memory")?;
            println!(rt;
                "library_bench collect FILE ROUNDS: rounds of six collections and a force of the heap in FILE"
            )?;
        }
    }
    Ok(())
}
