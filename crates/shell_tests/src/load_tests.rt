//! Loads: what they print, that equal ones print the same, and how they end on disks and sinks that fail.
use crate::playing::{PICKS, Played, RECORD_BYTES, disk_of, expect_played, make_disk, run_failing};
use disk_model::{Disk, FuseDisk, MemoryDisk, Pick};
use heap_program::Status;
use std::alloc::{AllocError, Global};
use std::process::Abort;
use std::test::Fail;

/// More bytes than a heap of one page a space takes, and than one of 64 pages.
const SMALL_DISK: usize = 1_050_752;

const LARGE_DISK: usize = 1_183_808;

const TWO_ROUNDS: &str =
    "load 1 2\nevents 17\nsealed 1\naborted 1\nrefused 0\ncollected 0\nobjects 2\n";

const NO_ROUND: &str =
    "load 1 0\nevents 0\nsealed 0\naborted 0\nrefused 0\ncollected 0\nobjects 1\n";

/// Runs a command line on a disk, with a source that would fail if it were read.
fn load_on(
    alloc: Global,
    line: &str,
    disk: MemoryDisk,
) -> Result<(Played, MemoryDisk), AllocError> {
    run_failing(alloc, line, b"no script", disk, (Some(1), None))
}

/// Runs a command line on a new disk of that many bytes, which prints a summary.
fn expect_summary(
    rt: &impl Abort,
    alloc: Global,
    bytes: usize,
    line: &str,
    summary: &str,
) -> Result<(), Fail> {
    let disk = make_disk(alloc, bytes, Pick::Newest)?;
    let played = load_on(alloc, line, disk)?.0;
    expect_played(rt, &played, Status::Done, summary.as_bytes());
    Ok(())
}

/// The most that a model of the rounds says of this load: 18,217 events before the force that ends it, of which 109 link what was not read; and as
/// many collections as flips, but for the last one.
const MANY_ROUNDS: &str =
    "load 1 2000\nevents 18218\nsealed 1749\naborted 251\nrefused 109\ncollected 124\nobjects 8\n";

/// Loads on new disks of given sizes, of which the last two are equal.
const LOADS: [(usize, &str, &str); 4] = [
    (SMALL_DISK, "heap load 1 2 --fresh 1", TWO_ROUNDS),
    (SMALL_DISK, "heap load 1 0 --fresh 1", NO_ROUND),
    (LARGE_DISK, "heap load 1 2000 --fresh 64", MANY_ROUNDS),
    (LARGE_DISK, "heap load 1 2000 --fresh 64", MANY_ROUNDS),
];

#[test]
fn a_load_prints_its_summary_and_equal_ones_print_the_same(rt: HostRuntime) -> Result<(), Fail> {
    for (bytes, line, summary) in &LOADS {
        expect_summary(&rt, rt.alloc(), *bytes, line, summary)?;
    }
    Ok(())
}

/// How many writes and syncs the load of two rounds makes on a new heap, with those that make the heap.
const ALL_CALLS: u64 = 25;

/// A load of two rounds on a disk whose write or sync of that number fails.
fn expect_failing(
    rt: &impl Abort,
    alloc: Global,
    call: u64,
    (status, output): (Status, &str),
) -> Result<(), Fail> {
    let zeros = vec![in alloc; 0u8; SMALL_DISK]?;
    let disk = disk_of(alloc, zeros, Pick::Newest, RECORD_BYTES, Some(call))?;
    let played = load_on(alloc, "heap load 1 2 --fresh 1", disk)?.0;
    expect_played(rt, &played, status, output.as_bytes());
    Ok(())
}

#[test]
fn a_failing_call_ends_a_load_without_a_summary(rt: HostRuntime) -> Result<(), Fail> {
    for call in 1..=ALL_CALLS {
        expect_failing(&rt, rt.alloc(), call, (Status::DiskFault, ""))?;
    }
    expect_failing(&rt, rt.alloc(), ALL_CALLS + 1, (Status::Done, TWO_ROUNDS))
}

/// Runs a command line on a disk that passes that many writes and syncs and then stops, and returns the disk as it is after a restart.
fn load_stopped(
    alloc: Global,
    disk: MemoryDisk,
    passes: u64,
) -> Result<(Played, MemoryDisk), AllocError> {
    let fuse = FuseDisk::new(disk, passes);
    let (played, fuse) = run_failing(alloc, "heap load 1 2", b"", fuse, (None, None))?;
    let mut disk = fuse.into_inner();
    disk.restart();
    Ok((played, disk))
}

/// The graph of a heap on which a load of two rounds was stopped, without its commit and with it.
const LOST: &str = "graph 1\n0: - - - -\n";

const KEPT: &str = "graph 2\n0: - - - @1\n1: 2 - -\n";

/// How a load ends with a stop after that many calls, and which graph is there then.
fn check_stopped(
    rt: &impl Abort,
    alloc: Global,
    pick: Pick,
    stop: &Stop,
    graph: &str,
) -> Result<(), AllocError> {
    let made = load_on(
        alloc,
        "heap format 1 65536 1",
        make_disk(alloc, SMALL_DISK, pick)?,
    )?
    .1;
    let (played, disk) = load_stopped(alloc, made, stop.passes)?;
    expect_played(rt, &played, stop.status, stop.output.as_bytes());
    let printed = load_on(alloc, "heap graph", disk)?.0;
    expect_played(rt, &printed, Status::Done, graph.as_bytes());
    Ok(())
}

/// After how many calls a load stops, how it ends, and which graph is there then, by each pick.
#[derive(Clone, Copy)]
struct Stop {
    passes: u64,
    status: Status,
    output: &'static str,
    graphs: [&'static str; 4],
}

/// The commit is in doubt in the last sync, and behind that no stop comes.
const STOPS: [Stop; 5] = [
    Stop {
        passes: 0,
        status: Status::DiskFault,
        output: "",
        graphs: [LOST; 4],
    },
    Stop {
        passes: 1,
        status: Status::DiskFault,
        output: "",
        graphs: [LOST; 4],
    },
    Stop {
        passes: 2,
        status: Status::DiskFault,
        output: "",
        graphs: [LOST; 4],
    },
    Stop {
        passes: 3,
        status: Status::DiskFault,
        output: "",
        graphs: [LOST, KEPT, LOST, KEPT],
    },
    Stop {
        passes: 4,
        status: Status::Done,
        output: TWO_ROUNDS,
        graphs: [KEPT; 4],
    },
];

fn check_stop(rt: &impl Abort, alloc: Global, stop: &Stop) -> Result<(), AllocError> {
    for i in 0..4usize {
        check_stopped(rt, alloc, PICKS[i], stop, stop.graphs[i])?;
    }
    Ok(())
}

#[test]
fn a_stopped_load_leaves_its_commit_or_not(rt: HostRuntime) -> Result<(), Fail> {
    for stop in &STOPS {
        check_stop(&rt, rt.alloc(), stop)?;
    }
    Ok(())
}

#[test]
fn a_failing_sink_ends_a_load(rt: HostRuntime) -> Result<(), Fail> {
    let alloc = rt.alloc();
    let disk = make_disk(alloc, SMALL_DISK, Pick::Newest)?;
    let line = "heap load 1 2 --fresh 1";
    let played = run_failing(alloc, line, b"", disk, (None, Some(1)))?.0;
    expect_played(&rt, &played, Status::WriteFault, b"");
    Ok(())
}
