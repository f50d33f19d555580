//! A heap that is kept from one run to the next: made, played on, printed, and refused where it can't be opened.
use crate::playing::{ONE_COMMIT, PICKS, disk_of, expect_played, make_disk, play_on, same};
use disk_model::{MemoryDisk, Pick};
use graph_model::{Event, Refusal, Reply};
use heap_program::{Heap, Status};
use heap_recovery::At;
use std::alloc::{AllocError, Global};
use std::process::Abort;
use std::test::Fail;

/// The bytes of the image of a heap of one page a space and a log of 65,536 bytes.
const SMALL_IMAGE: usize = 67_712;

const SMALL_FORMAT_LINE: &str = "heap format 1 65536 1";

const RECORD_BYTES: usize = 1_048_576;

/// A command line, its script, and the status and the output of its run.
type Run = (&'static str, &'static str, Status, &'static str);

/// Runs command lines one after the other on a disk, with streams that don't fail.
fn expect_runs(
    rt: &impl Abort,
    alloc: Global,
    mut disk: MemoryDisk,
    runs: &[Run],
) -> Result<MemoryDisk, Fail> {
    for (line, script, status, output) in runs {
        let (played, left) = play_on(alloc, line, script, disk)?;
        expect_played(rt, &played, *status, output.as_bytes());
        disk = left;
    }
    Ok(disk)
}

/// A disk with these bytes, whose write or sync of that number fails.
fn disk_with(alloc: Global, image: &[u8], fails: Option<u64>) -> Result<MemoryDisk, AllocError> {
    disk_of(
        alloc,
        image.to_vec(alloc)?,
        Pick::Newest,
        RECORD_BYTES,
        fails,
    )
}

/// The bytes that these runs leave of a disk that is as large as a small heap.
fn image_of(rt: &impl Abort, alloc: Global, runs: &[Run]) -> Result<Vec<u8>, Fail> {
    let disk = make_disk(alloc, SMALL_IMAGE, Pick::Newest)?;
    Ok(
        expect_runs(rt, alloc, disk, runs)?
            .contents()
            .to_vec(alloc)?,
    )
}

const FORMATTED: Run = (SMALL_FORMAT_LINE, "", Status::Done, "formatted 67712\n");

/// The smallest logs. What is refused leaves room for the end of each transaction, which is computed to the byte, and so each one ends.
const FULL_LOG_RUNS: [Run; 4] = [
    ("heap format 1 128 1", "", Status::Done, "formatted 2304\n"),
    (
        "heap play",
        "1 begin\n1 root 0\n1 put 0 0 1\n1 put 0 0 2\n1 put 0 0 3\n1 abort\n1 begin\n1 root 0\n1 put 0 0 1\n1 seal\nforce\n1 begin\n1 seal\n2 begin\n1 begin\n",
        Status::Done,
        "1 begin -> begun 1\n1 root 0 -> done\n1 put 0 0 1 -> done\n1 put 0 0 2 -> done\n1 put 0 0 3 -> logfull 60 27 67\n1 abort -> aborted\n1 begin -> begun 2\n1 root 0 -> done\n1 put 0 0 1 -> logfull 103 27 29\n1 seal -> sealed 1\nforce -> durable 1\n1 begin -> begun 3\n1 seal -> sealed 2\n2 begin -> begun 4\n1 begin -> logfull 118 0 20\n2 abort -> aborted\nforce -> durable 2\ngraph 1\n0: - - - -\n",
    ),
    ("heap format 1 64 1", "", Status::Done, "formatted 2240\n"),
    (
        "heap play",
        "1 begin\n1 root 0\n1 put 0 0 1\n1 commit\n1 begin\n1 root 0\n1 put 0 0 2\n1 seal\n2 begin\n2 seal\n3 begin\n4 begin\n",
        Status::Done,
        "1 begin -> begun 1\n1 root 0 -> done\n1 put 0 0 1 -> done\n1 seal -> sealed 1\nforce -> durable 1\n1 begin -> begun 2\n1 root 0 -> done\n1 put 0 0 2 -> logfull 38 32 29\n1 seal -> sealed 2\n2 begin -> begun 3\n2 seal -> sealed 3\n3 begin -> begun 4\n4 begin -> logfull 53 0 20\n3 abort -> aborted\nforce -> durable 3\ngraph 1\n0: 1 - - -\n",
    ),
];

/// A heap is made, played on and printed. The next number follows the log's greatest, and seals are counted from the opening on.
const KEPT_RUNS: [Run; 8] = [
    FORMATTED,
    ("heap graph", "", Status::Done, "graph 1\n0: - - - -\n"),
    (
        "heap play",
        ONE_COMMIT,
        Status::Done,
        "1 begin -> begun 1\n1 root 0 -> done\n1 put 0 0 7 -> done\n1 seal -> sealed 1\nforce -> durable 1\ngraph 1\n0: 7 - - -\n",
    ),
    (
        "heap graph",
        "no script",
        Status::Done,
        "graph 1\n0: 7 - - -\n",
    ),
    (
        "heap play",
        "1 begin\n1 root 0\n1 put 0 1 8\n1 commit\n",
        Status::Done,
        "1 begin -> begun 2\n1 root 0 -> done\n1 put 0 1 8 -> done\n1 seal -> sealed 1\nforce -> durable 1\ngraph 1\n0: 7 8 - -\n",
    ),
    (
        "heap play --stop 1",
        "1 begin\n1 root 0\n1 put 0 2 9\n1 commit\n",
        Status::Done,
        "1 begin -> begun 3\n1 root 0 -> done\n1 put 0 2 9 -> done\n1 seal -> sealed 1\nforce -> stopped\nrecovered 0\ngraph 1\n0: 7 8 - -\n",
    ),
    (
        "heap play --again 2 --stop 4",
        "1 begin\n1 root 0\n1 put 0 2 9\nforce\n",
        Status::Done,
        "1 begin -> begun 3\n1 root 0 -> done\n1 put 0 2 9 -> done\nforce -> durable 0\nrecovered 0\ngraph 1\n0: 7 8 - -\n",
    ),
    ("heap graph", "", Status::Done, "graph 1\n0: 7 8 - -\n"),
];

/// The last number is not begun.
const LAST_NUMBER_RUNS: [Run; 2] = [
    (
        "heap format 1 65536 4294967295",
        "",
        Status::Done,
        "formatted 67712\n",
    ),
    (
        "heap play",
        "1 begin\n",
        Status::Done,
        "1 begin -> numbersspent\ngraph 1\n0: - - - -\n",
    ),
];

/// The runs of one heap each.
const HEAPS: [&[Run]; 3] = [&FULL_LOG_RUNS, &KEPT_RUNS, &LAST_NUMBER_RUNS];

#[test]
fn heaps_are_made_played_on_and_printed(rt: HostRuntime) -> Result<(), Fail> {
    for runs in &HEAPS {
        image_of(&rt, rt.alloc(), runs)?;
    }
    Ok(())
}

/// Runs on one heap whose page is stored with a write that is never sealed, and then after commits: each by each pick.
const STORED_RUNS: [Run; 7] = [
    (
        "heap play --stop 8",
        "1 begin\n1 root 0\n1 put 0 0 7\nflush 0\n",
        Status::Done,
        "1 begin -> begun 1\n1 root 0 -> done\n1 put 0 0 7 -> done\nflush 0 -> flushed 0\nrecovered 0\ngraph 1\n0: - - - -\n",
    ),
    ("heap graph", "", Status::Done, "graph 1\n0: - - - -\n"),
    // The page is dirty, since the opening redoes on it what took the write back.
    (
        "heap play",
        "flush 0\nflush 0\n1 begin\n1 root 0\n1 get 0 0 1\n1 put 0 1 8\n1 seal\nflush 0\n",
        Status::Done,
        "flush 0 -> flushed 0\nflush 0 -> clean 0\n1 begin -> begun 2\n1 root 0 -> done\n1 get 0 0 1 -> null\n1 put 0 1 8 -> done\n1 seal -> sealed 1\nflush 0 -> flushed 0\ngraph 1\n0: - 8 - -\n",
    ),
    ("heap graph", "", Status::Done, "graph 1\n0: - 8 - -\n"),
    // Both writes are stored, and the force of their commit is cut off before its gate is written.
    (
        "heap play --stop 12",
        "flush 0\n1 begin\n1 root 0\n1 put 0 0 9\n1 put 0 1 9\nflush 0\n1 commit\n",
        Status::Done,
        "flush 0 -> clean 0\n1 begin -> begun 3\n1 root 0 -> done\n1 put 0 0 9 -> done\n1 put 0 1 9 -> done\nflush 0 -> flushed 0\n1 seal -> sealed 1\nforce -> stopped\nrecovered 0\ngraph 1\n0: - 8 - -\n",
    ),
    (
        "heap play",
        "1 begin\n1 root 0\n1 get 0 1 1\n1 put 0 2 5\n1 commit\nflush 0\n",
        Status::Done,
        "1 begin -> begun 4\n1 root 0 -> done\n1 get 0 1 1 -> int 8\n1 put 0 2 5 -> done\n1 seal -> sealed 1\nforce -> durable 1\nflush 0 -> flushed 0\ngraph 1\n0: - 8 5 -\n",
    ),
    ("heap graph", "", Status::Done, "graph 1\n0: - 8 5 -\n"),
];

/// Runs command lines on a heap.
fn expect_runs_on(
    rt: &impl Abort,
    alloc: Global,
    image: &[u8],
    pick: Pick,
    runs: &[Run],
) -> Result<(), Fail> {
    let disk = disk_of(alloc, image.to_vec(alloc)?, pick, RECORD_BYTES, None)?;
    expect_runs(rt, alloc, disk, runs)?;
    Ok(())
}

#[test]
fn a_stored_page_is_gone_on_with_in_the_next_run(rt: HostRuntime) -> Result<(), Fail> {
    let image = image_of(&rt, rt.alloc(), &[FORMATTED])?;
    for pick in &PICKS {
        expect_runs_on(&rt, rt.alloc(), &image, *pick, &STORED_RUNS)?;
    }
    Ok(())
}

const COMMITTED_RUNS: [Run; 2] = [
    FORMATTED,
    (
        "heap play",
        ONE_COMMIT,
        Status::Done,
        "1 begin -> begun 1\n1 root 0 -> done\n1 put 0 0 7 -> done\n1 seal -> sealed 1\nforce -> durable 1\ngraph 1\n0: 7 - - -\n",
    ),
];

/// A loser is left in the log: a fault ends a run after its force.
const LOSER_RUNS: [Run; 1] = [(
    "heap play",
    "1 begin\n1 root 0\n1 put 0 0 8\nforce\n1 put 0 0 9\nforce\n",
    Status::DiskFault,
    "1 begin -> begun 2\n1 root 0 -> done\n1 put 0 0 8 -> done\nforce -> durable 0\n1 put 0 0 9 -> done\nforce -> diskfault\n",
)];

fn heap_with_a_loser(rt: &impl Abort, alloc: Global) -> Result<Vec<u8>, Fail> {
    let image = image_of(rt, alloc, &COMMITTED_RUNS)?;
    let disk = disk_with(alloc, &image, Some(5))?;
    Ok(
        expect_runs(rt, alloc, disk, &LOSER_RUNS)?
            .contents()
            .to_vec(alloc)?,
    )
}

/// Runs that are stopped in their opening, and again in the one after it, each before one that prints the graph.
const CUT_OFF: [[Run; 2]; 4] = [
    [
        ("heap play --stop 0", ONE_COMMIT, Status::Done, TAKEN_BACK),
        AS_COMMITTED,
    ],
    [
        ("heap play --stop 1", ONE_COMMIT, Status::Done, TAKEN_BACK),
        AS_COMMITTED,
    ],
    [
        ("heap play --stop 2", ONE_COMMIT, Status::Done, TAKEN_BACK),
        AS_COMMITTED,
    ],
    [
        (
            "heap play --stop 3 --again 1",
            ONE_COMMIT,
            Status::Done,
            TAKEN_BACK,
        ),
        AS_COMMITTED,
    ],
];

const TAKEN_BACK: &str = "recovered 0\ngraph 1\n0: 7 - - -\n";

const AS_COMMITTED: Run = ("heap graph", "", Status::Done, "graph 1\n0: 7 - - -\n");

fn expect_cut_off(rt: &impl Abort, alloc: Global, image: &[u8], pick: Pick) -> Result<(), Fail> {
    for runs in &CUT_OFF {
        expect_runs_on(rt, alloc, image, pick, runs)?;
    }
    Ok(())
}

#[test]
fn an_opening_that_is_stopped_recovers_none_of_the_run(rt: HostRuntime) -> Result<(), Fail> {
    let image = heap_with_a_loser(&rt, rt.alloc())?;
    for pick in &PICKS {
        expect_cut_off(&rt, rt.alloc(), &image, *pick)?;
    }
    Ok(())
}

/// A disk that is too small by one byte.
const TOO_SMALL: [Run; 1] = [(
    SMALL_FORMAT_LINE,
    "",
    Status::TooSmall {
        size: 67_711,
        need: 67_712,
    },
    "",
)];

#[test]
fn a_disk_has_the_bytes_of_the_image_or_is_left_alone(rt: HostRuntime) -> Result<(), Fail> {
    let alloc = rt.alloc();
    let small = make_disk(alloc, SMALL_IMAGE - 1, Pick::Newest)?;
    let small = expect_runs(&rt, alloc, small, &TOO_SMALL)?;
    let zeros = vec![in alloc; 0u8; SMALL_IMAGE - 1]?;
    same(&rt, small.contents() == zeros.as_slice(), true);
    image_of(&rt, alloc, &[FORMATTED])?;
    Ok(())
}

/// A place in an image, and another byte for it.
type Change = (usize, u8);

/// The image with these bytes changed.
fn spoiled(alloc: Global, image: &[u8], changes: &[Change]) -> Result<Vec<u8>, AllocError> {
    let mut bytes = image.to_vec(alloc)?;
    for (at, byte) in changes {
        if let Some(place) = bytes.get_mut(*at) {
            *place = *byte;
        }
    }
    Ok(bytes)
}

/// What changes of a small heap's image lead to: the gate of the superblock, its letters, its limits, then an open batch of no bytes after which a
/// gate is open that has no batch, the gate of a frame of the first page, in which no root stands, a batch that breaks off, and a page that is
/// ahead of the log.
const SPOILED: [(&[Change], Status); 11] = [
    (&[(0, 0)], Status::NotHeap),
    (&[(0, 2)], Status::NotHeap),
    (&[(1, b'S')], Status::NotHeap),
    (&[(12, 0)], Status::NotHeap),
    (&[(63, 1)], Status::NotHeap),
    (&[(64, 2)], Status::Done),
    (&[(64, 1)], Status::Done),
    (&[(69, 1)], Status::Done),
    (&[(65_600, 1)], Status::Damaged { at: At::Address(0) }),
    (&[(64, 1), (65, 1)], Status::Damaged { at: At::Batch(0) }),
    (
        &[(65_600, 1), (65_608, 9)],
        Status::Damaged { at: At::Page(0) },
    ),
];

/// Commands on the bytes, which write nothing where they refuse them.
const OPENINGS: [&str; 3] = ["heap graph", "heap play", "heap play --stop 0"];

fn expect_opened(
    rt: &impl Abort,
    alloc: Global,
    image: &[u8],
    (changes, status): (&[Change], Status),
) -> Result<(), Fail> {
    for line in &OPENINGS {
        let disk = disk_with(alloc, &spoiled(alloc, image, changes)?, None)?;
        let played = play_on(alloc, line, "", disk)?.0;
        let found = (*line, played.status, played.output.is_empty());
        same(rt, found, (*line, status, status != Status::Done));
    }
    Ok(())
}

#[test]
fn what_is_no_heap_or_damaged_is_refused(rt: HostRuntime) -> Result<(), Fail> {
    let image = image_of(&rt, rt.alloc(), &[FORMATTED])?;
    for case in &SPOILED {
        expect_opened(&rt, rt.alloc(), &image, *case)?;
    }
    Ok(())
}

const FAULT_RUNS: [Run; 1] = [(
    "heap play",
    ONE_COMMIT,
    Status::DiskFault,
    "1 begin -> begun 1\n1 root 0 -> done\n1 put 0 0 7 -> done\n1 seal -> sealed 1\nforce -> diskfault\n",
)];

#[test]
fn a_fault_in_a_force_ends_the_run_and_fails_the_heap(rt: HostRuntime) -> Result<(), Fail> {
    let alloc = rt.alloc();
    let image = image_of(&rt, alloc, &[FORMATTED])?;
    expect_runs(&rt, alloc, disk_with(alloc, &image, Some(2))?, &FAULT_RUNS)?;
    expect_failed(&rt, alloc, disk_with(alloc, &image, Some(2))?)?;
    Ok(())
}

/// Five events of which the last one meets a fault.
const FIVE: [Event; 5] = [
    Event::Begin { s: 1 },
    Event::Root { s: 1, h: 0 },
    Event::Put {
        s: 1,
        h: 0,
        i: 0,
        v: 7,
    },
    Event::Seal { s: 1 },
    Event::Force,
];

fn step(rt: &impl Abort, heap: &mut Heap<MemoryDisk>, event: Event) -> Result<Reply, AllocError> {
    assert!(rt; event.is_of_session());
    heap.step(event)
}

fn open(rt: &impl Abort, alloc: Global, disk: MemoryDisk) -> Heap<MemoryDisk> {
    match Heap::open(alloc, disk) {
        Ok(heap) => heap,
        Err(_) => panic!(rt; "not opened"),
    }
}

/// What a step reports after the fifth entry failed.
const FAILED: Reply = Reply::Refused {
    why: Refusal::Failed { entry: 5 },
};

fn expect_failed(rt: &impl Abort, alloc: Global, disk: MemoryDisk) -> Result<(), AllocError> {
    let mut heap = open(rt, alloc, disk);
    for event in &FIVE {
        step(rt, &mut heap, *event)?;
    }
    same(rt, step(rt, &mut heap, Event::Force)?, FAILED);
    Ok(())
}
