//! A heap that is kept from one run to the next, with a collection that continues from crash to crash, or that the log has no room for.
use crate::playing::{Played, disk_of, expect_done, image_of, new_image, play_on, same};
use disk_model::{MemoryDisk, Pick};
use heap_program::Status;
use std::alloc::{AllocError, Global};
use std::process::Abort;
use std::test::Fail;

const FORMAT: &str = "heap format 4 32768 1";

/// A list of objects of which each takes most of a page, and one that is garbage.
const MADE: &str =
    "1 begin\n1 root 0\n1 new 1 60\n1 new 2 60\n1 new 3 60\n1 new 4 1\n1 new 5 9\n1 put 4 0 9\n1 link 1 0 2\n1 link 2 0 3\n1 link 3 0 4\n1 link 0 0 1\n1 link 0 1 5\n1 commit\n1 begin\n1 root 0\n1 clear 0 1\n1 commit\n";

/// One run: a transaction that is never sealed, and a collection that is forced step by step.
const ROUND: &str =
    "1 begin\n1 root 0\n1 get 0 0 1\n1 put 1 1 5\n1 new 2 1\n1 link 0 3 2\nflip\nforce\nscan\nforce\nflush 4\n1 get 1 0 1\n1 put 1 2 6\nscan\nforce\nflush 1\nscan\nforce\nscan\nforce\n";

/// More calls than it makes.
const ROUND_CALLS: usize = 37;

/// Enough scans to end any collection.
const ENDING: &str = "scan\nscan\nscan\nscan\nscan\nscan\nscan\nscan\n";

/// What a run leaves of a heap in which nothing is sealed any more: the graph is the last that it prints.
fn expect_kept(rt: &impl Abort, line: &str, played: &Played, graph: &[u8]) {
    same(rt, (line, played.status), (line, Status::Done));
    assert!(rt; played.output.ends_with(graph), "{line}");
}

/// A run stops after that many calls, and its recovery too.
fn go_round(
    rt: &impl Abort,
    alloc: Global,
    stop: usize,
    graph: &[u8],
    disk: MemoryDisk,
) -> Result<MemoryDisk, AllocError> {
    let again = stop % 5;
    let line = format!(in alloc; "heap play --stop {stop} --again {again}")?;
    let (played, disk) = play_on(alloc, line.as_str(), ROUND, disk)?;
    expect_kept(rt, line.as_str(), &played, graph);
    Ok(disk)
}

/// Three runs of a heap are cut off, one after another, at calls that depend on the first; then the collection ends.
fn go_through(
    rt: &impl Abort,
    alloc: Global,
    first: usize,
    graph: &[u8],
    mut disk: MemoryDisk,
) -> Result<(), AllocError> {
    for round in 0..3usize {
        let stop = first.saturating_add(round.saturating_mul(11)) % ROUND_CALLS;
        disk = go_round(rt, alloc, stop, graph, disk)?;
    }
    let (played, _) = play_on(alloc, "heap play", ENDING, disk)?;
    expect_kept(rt, "the end", &played, graph);
    Ok(())
}

/// The graph of a heap.
fn graph_of(alloc: Global, image: &[u8], pick: Pick) -> Result<Vec<u8>, AllocError> {
    let disk = disk_of(alloc, image.to_vec(alloc)?, pick)?;
    Ok(play_on(alloc, "heap graph", "", disk)?.0.output)
}

fn check_rounds(rt: &impl Abort, alloc: Global, pick: Pick) -> Result<(), AllocError> {
    let image = image_of(alloc, "heap play", MADE, new_image(alloc, FORMAT)?)?;
    let graph = graph_of(alloc, &image, pick)?;
    for first in 0..ROUND_CALLS {
        let disk = disk_of(alloc, image.to_vec(alloc)?, pick)?;
        go_through(rt, alloc, first, &graph, disk)?;
    }
    Ok(())
}

#[test]
fn a_collection_goes_on_through_crashes_that_lose_bytes(rt: HostRuntime) -> Result<(), Fail> {
    check_rounds(&rt, rt.alloc(), Pick::Synced)?;
    Ok(())
}

#[test]
fn a_collection_goes_on_through_crashes_that_keep_bytes(rt: HostRuntime) -> Result<(), Fail> {
    check_rounds(&rt, rt.alloc(), Pick::Newest)?;
    Ok(())
}

#[test]
fn a_collection_goes_on_through_crashes_that_fill_bytes(rt: HostRuntime) -> Result<(), Fail> {
    check_rounds(&rt, rt.alloc(), Pick::AllOnes)?;
    Ok(())
}

#[test]
fn a_collection_goes_on_through_crashes_that_open_gates(rt: HostRuntime) -> Result<(), Fail> {
    check_rounds(&rt, rt.alloc(), Pick::AllOpen)?;
    Ok(())
}

/// Runs on one heap whose log is too short for the scan that a read needs: each line, its script and its output. A refused event scans
/// nothing, and an abort makes room.
const REFUSED: [(&str, &str, &str); 3] = [
    ("heap format 1 214 1", "", "formatted 2390\n"),
    (
        "heap play",
        "1 begin\n1 root 0\n1 new 1 1\n1 put 1 0 9\n1 link 0 0 1\n1 commit\n1 begin\n1 root 0\n1 get 0 0 1\nflip\n1 get 0 0 2\nscan\n1 put 1 0 8\n1 same 0 1\n1 abort\nscan\nscan\n",
        "1 begin -> begun 1\n1 root 0 -> done\n1 new 1 1 -> done\n1 put 1 0 9 -> done\n1 link 0 0 1 -> done\n1 seal -> sealed 1\nforce -> durable 1\n1 begin -> begun 2\n1 root 0 -> done\n1 get 0 0 1 -> ref\nflip -> flipped 2 9\n1 get 0 0 2 -> logfull 188 19 10\nscan -> logfull 188 19 10\n1 put 1 0 8 -> logfull 188 46 29\n1 same 0 1 -> no\n1 abort -> aborted\nscan -> scanned 1 0 0\nscan -> collected 9\nforce -> durable 1\ngraph 2\n0: @1 - - -\n1: 9\n",
    ),
    ("heap graph", "", "graph 2\n0: @1 - - -\n1: 9\n"),
];

fn expect_refused(rt: &impl Abort, alloc: Global, mut disk: MemoryDisk) -> Result<(), AllocError> {
    for (line, script, output) in &REFUSED {
        let (played, left) = play_on(alloc, line, script, disk)?;
        expect_done(rt, &played, output);
        disk = left;
    }
    Ok(())
}

#[test]
fn a_read_has_no_room_for_its_scan(rt: HostRuntime) -> Result<(), Fail> {
    let alloc = rt.alloc();
    let disk = disk_of(alloc, new_image(alloc, FORMAT)?, Pick::Newest)?;
    expect_refused(&rt, alloc, disk)?;
    Ok(())
}
