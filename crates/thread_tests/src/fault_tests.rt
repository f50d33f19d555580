//! Drawn scripts on a disk that fails at a drawn call: all lines are written and no graph, and a commit prefix comes back that has all that were
//! acknowledged.
use crate::drawn::{SHARED, draw_call, draw_script};
use crate::playing::{
    FRESH_BYTES, Faults, Played, count_lines, expect_again, image_of, opened, run_on, run_well,
    same,
};
use disk_model::{Disk, MemoryDisk, Pick};
use heap_workers::OpenGate;
use std::alloc::{AllocError, Global};
use std::process::Abort;
use std::sync::Wait;
use std::test::Fail;
use std::thread::Threads;
use thread_program::Status;

/// How many scripts a test draws: few enough for its minute. Code that is only tried is a hundred times slower.
const SCRIPTS: u64 = 50;

const LINE: &str = "heap threads --tries 3";

/// The commits of the image that the scripts are played on.
const BEFORE: u64 = 1;

/// The workers of a drawn script but for the one that meets the fault.
const OTHERS: usize = 9;

/// The entry that a refusal after a fault names.
fn failed_entry(line: &str) -> Option<usize> {
    let (_, entry) = line.split_once(" -> failed ")?;
    entry.parse::<usize>().ok()
}

/// Whether one event met the fault, and each one after it was answered so.
fn has_one_fault(text: &str) -> bool {
    let mut fault = None;
    for (place, line) in text.lines().enumerate() {
        if fault.is_some() && failed_entry(line) != fault {
            return false;
        }
        if line.ends_with(" -> diskfault") {
            fault = Some(place.saturating_add(1));
        }
    }
    fault.is_some()
}

/// What a run whose disk failed wrote: no graph, and after the fault at most one line of each other worker.
fn check_failed(rt: &impl Abort, played: &Played, seed: u64) {
    let text = played.text();
    let ended = count_lines(text, " -> failed ") <= OTHERS;
    let holds = [has_one_fault(text), text.contains("graph"), ended];
    let found = (seed, text, played.status, holds);
    same(
        rt,
        found,
        (seed, text, Status::DiskFault, [true, false, true]),
    );
}

/// How many commits the lines acknowledge.
fn acknowledged(text: &str) -> u64 {
    let mut known: u64 = 0;
    for line in text.lines() {
        if let Some(count) = line.strip_prefix("force -> durable ") {
            known = known.max(count.parse::<u64>().unwrap_or(0));
        }
    }
    known
}

/// The printed events up to that of a commit.
fn events_to(alloc: Global, text: &str, commits: u64) -> Result<String, AllocError> {
    let mut events = String::new(alloc);
    let mut left = commits;
    for line in text.lines() {
        if left == 0 {
            break;
        }
        if let Some((event, reply)) = line.split_once(" -> ") {
            writeln!(events, "{event}")?;
            if reply.starts_with("sealed ") {
                left = left.saturating_sub(1);
            }
        }
    }
    Ok(events)
}

/// The printed graph, without its first word.
fn graph_in(text: &str) -> &str {
    match text.split_once("graph ") {
        Some((_, graph)) => graph,
        None => "no graph",
    }
}

/// How many commits an image has.
fn commits_of(rt: &impl Abort, alloc: Global, disk: MemoryDisk) -> (u64, MemoryDisk) {
    let heap = opened(rt, alloc, disk);
    let commits = heap.commits();
    (commits, heap.close())
}

/// Whether the graph of what was left is the one after that many commits, which a play of the events up to the last of them makes.
fn is_graph_behind<R: Threads + Wait + Sync>(
    rt: &R,
    alloc: Global,
    image: &[u8],
    (text, commits): (&str, u64),
    left: &MemoryDisk,
) -> Result<bool, AllocError> {
    let (found, _) = run_well(rt, alloc, "heap graph", "", left.contents())?;
    let events = events_to(alloc, text, commits)?;
    let (want, _) = run_well(rt, alloc, "heap play", events.as_str(), image)?;
    Ok(found.status == Status::Done && graph_in(found.text()) == graph_in(want.text()))
}

/// The commits that come back are at least those that were acknowledged, and at most those that were sealed.
fn check_commits(rt: &impl Abort, text: &str, commits: u64, seed: u64) {
    let sealed = count_lines(text, " seal -> sealed ") as u64;
    let known = acknowledged(text) <= commits && commits <= sealed;
    same(rt, (seed, commits, known), (seed, commits, true));
}

/// A disk that fails at a call.
fn failing(call: u64, pick: Pick) -> Faults {
    Faults {
        disk: call,
        source: 0,
        sink: 0,
        pick,
    }
}

/// Runs a seed's script by threads on a disk that fails at a call.
fn run_faulty<R: Threads + Wait + Sync>(
    rt: &R,
    alloc: Global,
    image: &[u8],
    (seed, call, pick): (u64, u64, Pick),
) -> Result<(Played, MemoryDisk), AllocError> {
    let script = draw_script(alloc, seed)?;
    let faults = failing(call, pick);
    run_on(
        rt,
        alloc,
        (LINE, script.as_str()),
        (image, &faults),
        &OpenGate,
    )
}

/// Compares what a crash after a run leaves.
fn check_left<R: Threads + Wait + Abort + Sync>(
    rt: &R,
    alloc: Global,
    image: &[u8],
    (seed, text): (u64, &str),
    mut left: MemoryDisk,
) -> Result<(), Fail> {
    left.restart();
    let (commits, left) = commits_of(rt, alloc, left);
    let commits = commits.saturating_sub(BEFORE);
    check_commits(rt, text, commits, seed);
    let behind = is_graph_behind(rt, alloc, image, (text, commits), &left)?;
    same(rt, (seed, behind), (seed, true));
    Ok(())
}

/// Runs a seed's script on a disk that fails at a call, and returns whether that call was made.
fn check_script<R: Threads + Wait + Abort + Sync>(
    rt: &R,
    alloc: Global,
    image: &[u8],
    (seed, call, pick): (u64, u64, Pick),
) -> Result<bool, Fail> {
    let (played, left) = run_faulty(rt, alloc, image, (seed, call, pick))?;
    let failed = played.status != Status::Done;
    if failed {
        check_failed(rt, &played, seed);
    } else {
        expect_again(rt, alloc, image, (seed, &played), &left)?;
    }
    check_left(rt, alloc, image, (seed, played.text()), left)?;
    Ok(failed)
}

/// Runs the scripts of that many seeds from this one on. Each of them flips, so in the first one the first call is made whatever the order.
fn check_scripts<R: Threads + Wait + Abort + Sync>(
    rt: &R,
    alloc: Global,
    pick: Pick,
    first: u64,
) -> Result<(), Fail> {
    let image = image_of(rt, alloc, SHARED)?;
    same(rt, check_script(rt, alloc, &image, (first, 1, pick))?, true);
    for place in 1..SCRIPTS {
        let seed = first.wrapping_add(place);
        check_script(rt, alloc, &image, (seed, draw_call(seed), pick))?;
    }
    Ok(())
}

#[test]
fn commits_come_back_from_synced_bytes(rt: HostRuntime) -> Result<(), Fail> {
    check_scripts(&rt, rt.alloc(), Pick::Synced, 0)
}

#[test]
fn commits_come_back_from_newest_bytes(rt: HostRuntime) -> Result<(), Fail> {
    check_scripts(&rt, rt.alloc(), Pick::Newest, 1000)
}

#[test]
fn commits_come_back_from_bytes_of_ones(rt: HostRuntime) -> Result<(), Fail> {
    check_scripts(&rt, rt.alloc(), Pick::AllOnes, 2000)
}

#[test]
fn commits_come_back_from_open_gates(rt: HostRuntime) -> Result<(), Fail> {
    check_scripts(&rt, rt.alloc(), Pick::AllOpen, 3000)
}

/// A session that commits alone: the order of its lines is known.
const ALONE: &str = "1 begin\n1 root 0\n1 put 0 0 7\n1 commit\n";

const ALONE_FAILED: &str =
    "1 begin -> begun 1\n1 root 0 -> done\n1 put 0 0 7 -> done\n1 seal -> sealed 1\nforce -> diskfault\n";

/// The writes and syncs of a force.
const FORCE_CALLS: u64 = 4;

/// A run of `ALONE` whose disk fails at a call wrote this, and ends so.
fn check_alone<R: Threads + Wait + Abort + Sync>(
    rt: &R,
    alloc: Global,
    line: &str,
    (image, call, pick): (&[u8], u64, Pick),
    text: &str,
) -> Result<(), Fail> {
    let faults = failing(call, pick);
    let (played, _) = run_on(rt, alloc, (line, ALONE), (image, &faults), &OpenGate)?;
    let found = (call, played.status, played.text());
    same(rt, found, (call, Status::DiskFault, text));
    Ok(())
}

#[test]
fn a_fault_at_each_call_of_a_force_ends_the_run(rt: HostRuntime) -> Result<(), Fail> {
    let image = image_of(&rt, rt.alloc(), "")?;
    for call in 1..=FORCE_CALLS {
        let fault = (image.as_slice(), call, Pick::Synced);
        check_alone(&rt, rt.alloc(), LINE, fault, ALONE_FAILED)?;
    }
    Ok(())
}

#[test]
fn a_fault_before_the_workers_leaves_nothing_to_write(rt: HostRuntime) -> Result<(), Fail> {
    let alloc = rt.alloc();
    let zeros = vec![in alloc; 0u8; FRESH_BYTES]?;
    let fault = (zeros.as_slice(), 2, Pick::Newest);
    check_alone(&rt, alloc, "heap threads --fresh 1", fault, "")
}
