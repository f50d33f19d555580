//! What the program prints of scripts, on disks that stop or fail and with streams that fail.
use crate::playing::{
    DISK_BYTES, ONE_COMMIT, PICKS, Played, RECORD_BYTES, disk_of, expect_played, make_disk, play,
    play_on, run_failing, same, split_restarted,
};
use disk_model::Pick;
use heap_program::Status;
use std::alloc::{AllocError, Global};
use std::process::Abort;
use std::test::Fail;

/// The command that makes a heap of one page a space.
const FRESH: &str = "heap play --fresh 1";

/// Plays a script, and compares what it prints with the lines of its events and what follows them.
fn expect_output(
    rt: &impl Abort,
    alloc: Global,
    (line, script): (&str, &str),
    pick: Pick,
    (lines, end): (&str, &str),
) -> Result<(), AllocError> {
    let output = joined(alloc, lines, end)?;
    let played = play(alloc, line, script, (DISK_BYTES, pick))?;
    expect_played(rt, &played, Status::Done, output.as_bytes());
    Ok(())
}

fn joined(alloc: Global, lines: &str, end: &str) -> Result<String, AllocError> {
    let mut output = String::from_str(alloc, lines)?;
    output.push_str(end)?;
    Ok(output)
}

/// Scripts, each with the lines of its events and what follows them.
const PLAYS: [(&str, &str, &str); 17] = [
    // A new heap is empty, and a commit is printed.
    ("", "", "graph 1\n0: - - - -\n"),
    (
        "1 begin\n1 root 0\n1 put 0 0 7\n1 commit\n",
        "1 begin -> begun 1\n1 root 0 -> done\n1 put 0 0 7 -> done\n1 seal -> sealed 1\n",
        "force -> durable 1\ngraph 1\n0: 7 - - -\n",
    ),
    // A run aborts and forces at its end what was forced, what was not, and what was sealed.
    (
        "1 begin\n1 root 0\n1 put 0 0 7\nforce\n",
        "1 begin -> begun 1\n1 root 0 -> done\n1 put 0 0 7 -> done\nforce -> durable 0\n",
        "1 abort -> aborted\nforce -> durable 0\ngraph 1\n0: - - - -\n",
    ),
    (
        "1 begin\n1 root 0\n1 put 0 0 7\n",
        "1 begin -> begun 1\n1 root 0 -> done\n1 put 0 0 7 -> done\n",
        "1 abort -> aborted\nforce -> durable 0\ngraph 1\n0: - - - -\n",
    ),
    (
        "1 begin\n1 root 0\n1 put 0 0 7\n1 seal\n",
        "1 begin -> begun 1\n1 root 0 -> done\n1 put 0 0 7 -> done\n1 seal -> sealed 1\n",
        "force -> durable 1\ngraph 1\n0: 7 - - -\n",
    ),
    // It aborts its sessions ascending.
    (
        "3 begin\n1 begin\n2 begin\n3 new 0 1\n2 root 0\n2 put 0 0 4\n",
        "3 begin -> begun 1\n1 begin -> begun 2\n2 begin -> begun 3\n3 new 0 1 -> done\n2 root 0 -> done\n2 put 0 0 4 -> done\n",
        "1 abort -> aborted\n2 abort -> aborted\n3 abort -> aborted\nforce -> durable 0\ngraph 1\n0: - - - -\n",
    ),
    // A writer is refused while a reader holds the object.
    (
        "1 begin\n1 root 0\n1 get 0 0 1\n2 begin\n2 root 0\n2 put 0 0 5\n1 abort\n2 put 0 0 5\n2 commit\n",
        "1 begin -> begun 1\n1 root 0 -> done\n1 get 0 0 1 -> null\n2 begin -> begun 2\n2 root 0 -> done\n2 put 0 0 5 -> busy 1\n1 abort -> aborted\n2 put 0 0 5 -> done\n2 seal -> sealed 1\nforce -> durable 1\n",
        "graph 1\n0: 5 - - -\n",
    ),
    (
        "1 begin\n2 begin\n1 root 0\n2 root 0\n1 get 0 0 1\n2 get 0 0 1\n1 put 0 0 3\n2 abort\n1 put 0 0 3\n",
        "1 begin -> begun 1\n2 begin -> begun 2\n1 root 0 -> done\n2 root 0 -> done\n1 get 0 0 1 -> null\n2 get 0 0 1 -> null\n1 put 0 0 3 -> busy 2\n2 abort -> aborted\n1 put 0 0 3 -> done\n1 abort -> aborted\nforce -> durable 0\n",
        "graph 1\n0: - - - -\n",
    ),
    // Lines come in any order.
    (
        "\n1 commit\n",
        "1 seal -> notactive\nforce -> durable 0\n",
        "graph 1\n0: - - - -\n",
    ),
    (
        "1 root 0\n1 abort\n",
        "1 root 0 -> notactive\n1 abort -> notactive\n",
        "graph 1\n0: - - - -\n",
    ),
    (
        "1 begin\n\n1 begin\n1 root 0\n1 put 0 4 1\n1 put 0 0 4611686018427387904\n1 get 0 0 1\n1 len 0\n1 seal\n1 seal\n",
        "1 begin -> begun 1\n1 begin -> alreadyactive\n1 root 0 -> done\n1 put 0 4 1 -> badfield\n1 put 0 0 4611686018427387904 -> range\n1 get 0 0 1 -> null\n1 len 0 -> len 4\n1 seal -> sealed 1\n1 seal -> notactive\nforce -> durable 1\n",
        "graph 1\n0: - - - -\n",
    ),
    // Each refusal that a call of a session gives for its words, and those of flushes.
    (
        "1 root 0\n1 begin\n1 begin\n1 root 64\n1 root 0\n1 put 9 4 4611686018427387904\n1 put 0 4 4611686018427387904\n1 put 0 4 1\n1 new 1 511\n1 len 0\n1 drop 0\n1 len 0\nflush 2\nflush 1\n1 root 0\n1 put 0 3 4611686018427387903\n1 commit\n",
        "1 root 0 -> notactive\n1 begin -> begun 1\n1 begin -> alreadyactive\n1 root 64 -> badhandle\n1 root 0 -> done\n1 put 9 4 4611686018427387904 -> badhandle\n1 put 0 4 4611686018427387904 -> range\n1 put 0 4 1 -> badfield\n1 new 1 511 -> range\n1 len 0 -> len 4\n1 drop 0 -> done\n1 len 0 -> badhandle\nflush 2 -> nosuchpage\nflush 1 -> clean 1\n1 root 0 -> done\n1 put 0 3 4611686018427387903 -> done\n1 seal -> sealed 1\nforce -> durable 1\n",
        "graph 1\n0: - - - 4611686018427387903\n",
    ),
    // Flushes of pages that exist and of others, on a heap of two pages, before and after a write into the first.
    (
        "flush 0\nflush 18446744073709551615\nflush 4294967296\n1 begin\n1 root 0\n1 put 0 0 7\nflush 2\nflush 1\nflush 0\nflush 0\n1 clear 0 0\nflush 0\n1 commit\nflush 0\n",
        "flush 0 -> clean 0\nflush 18446744073709551615 -> nosuchpage\nflush 4294967296 -> nosuchpage\n1 begin -> begun 1\n1 root 0 -> done\n1 put 0 0 7 -> done\nflush 2 -> nosuchpage\nflush 1 -> clean 1\nflush 0 -> flushed 0\nflush 0 -> clean 0\n1 clear 0 0 -> done\nflush 0 -> flushed 0\n1 seal -> sealed 1\nforce -> durable 1\nflush 0 -> clean 0\n",
        "graph 1\n0: - - - -\n",
    ),
    // Objects are promoted while there is room.
    (
        "1 begin\n1 root 0\n1 new 1 57\n1 link 0 0 1\n1 commit\n1 abort\n",
        "1 begin -> begun 1\n1 root 0 -> done\n1 new 1 57 -> done\n1 link 0 0 1 -> done\n1 seal -> exhausted 59 58 0\nforce -> durable 0\n1 abort -> aborted\nforce -> durable 0\n",
        "graph 1\n0: - - - -\n",
    ),
    (
        "1 begin\n1 root 0\n1 new 1 56\n1 link 0 0 1\n1 commit\n",
        "1 begin -> begun 1\n1 root 0 -> done\n1 new 1 56 -> done\n1 link 0 0 1 -> done\n1 seal -> sealed 1\nforce -> durable 1\n",
        "graph 2\n0: @1 - - -\n1: - - - - - - - - - - - - - - - - - - - - - - - - - - - - - - - - - - - - - - - - - - - - - - - - - - - - - - - -\n",
    ),
    // A transaction makes what its area has room for.
    (
        "1 begin\n1 new 1 510\n1 new 2 510\n1 new 3 510\n1 new 4 510\n1 new 5 510\n1 new 6 510\n1 new 7 510\n1 new 8 510\n1 new 9 510\n1 commit\n",
        "1 begin -> begun 1\n1 new 1 510 -> done\n1 new 2 510 -> done\n1 new 3 510 -> done\n1 new 4 510 -> done\n1 new 5 510 -> done\n1 new 6 510 -> done\n1 new 7 510 -> done\n1 new 8 510 -> done\n1 new 9 510 -> volatilefull 4096\n1 seal -> sealed 1\nforce -> durable 1\n",
        "graph 1\n0: - - - -\n",
    ),
    // A graph is numbered breadth first.
    (
        "1 begin\n1 root 0\n1 new 1 1\n1 new 2 1\n1 link 0 0 1\n1 link 0 1 2\n1 link 1 0 2\n1 link 2 0 1\n1 commit\n",
        "1 begin -> begun 1\n1 root 0 -> done\n1 new 1 1 -> done\n1 new 2 1 -> done\n1 link 0 0 1 -> done\n1 link 0 1 2 -> done\n1 link 1 0 2 -> done\n1 link 2 0 1 -> done\n1 seal -> sealed 1\nforce -> durable 1\n",
        "graph 3\n0: @1 @2 - -\n1: @2\n2: @1\n",
    ),
];

#[test]
fn plays_print_their_events(rt: HostRuntime) -> Result<(), Fail> {
    for (script, lines, end) in &PLAYS {
        expect_output(
            &rt,
            rt.alloc(),
            (FRESH, *script),
            Pick::Newest,
            (*lines, *end),
        )?;
    }
    Ok(())
}

/// A script whose disk is to stop, the lines of its events, and for each command line what follows them, by each pick of a restart.
#[derive(Clone, Copy)]
struct Stopped {
    script: &'static str,
    lines: &'static str,
    ends: &'static [(&'static str, [&'static str; 4])],
}

fn check_stop(
    rt: &impl Abort,
    alloc: Global,
    stopped: &Stopped,
    line: &str,
    ends: &[&str; 4],
) -> Result<(), AllocError> {
    let words = (line, stopped.script);
    for i in 0..4usize {
        expect_output(rt, alloc, words, PICKS[i], (stopped.lines, ends[i]))?;
    }
    Ok(())
}

fn check_stopped(rt: &impl Abort, alloc: Global, stopped: &Stopped) -> Result<(), AllocError> {
    for (line, ends) in stopped.ends {
        check_stop(rt, alloc, stopped, line, ends)?;
    }
    Ok(())
}

const GONE: &str = "force -> stopped\nrecovered 0\ngraph 1\n0: - - - -\n";

const KEPT: &str = "force -> stopped\nrecovered 1\ngraph 1\n0: 7 - - -\n";

const DURABLE: &str = "force -> durable 1\nrecovered 1\ngraph 1\n0: 7 - - -\n";

const ONE_SEALED: &str =
    "1 begin -> begun 1\n1 root 0 -> done\n1 put 0 0 7 -> done\n1 seal -> sealed 1\n";

/// A commit is in doubt only where the last call of its force stops.
const ONE: Stopped = Stopped {
    script: ONE_COMMIT,
    lines: ONE_SEALED,
    ends: &[
        ("heap play --fresh 1 --stop 2", [GONE; 4]),
        ("heap play --fresh 1 --stop 3", [GONE, KEPT, GONE, KEPT]),
        ("heap play --fresh 1 --stop 4", [DURABLE; 4]),
    ],
};

const BOTH_KEPT: &str = "force -> stopped\nrecovered 2\ngraph 1\n0: 7 8 - -\n";

const BOTH_DURABLE: &str = "force -> durable 2\nrecovered 2\ngraph 1\n0: 7 8 - -\n";

/// Two transactions of different sessions that are sealed one after the other and forced together come back together or not.
const TOGETHER: Stopped = Stopped {
    script: "1 begin\n1 root 0\n1 put 0 0 7\n1 seal\n2 begin\n2 root 0\n2 get 0 0 1\n2 put 0 1 8\n2 seal\nforce\n",
    lines: "1 begin -> begun 1\n1 root 0 -> done\n1 put 0 0 7 -> done\n1 seal -> sealed 1\n2 begin -> begun 2\n2 root 0 -> done\n2 get 0 0 1 -> int 7\n2 put 0 1 8 -> done\n2 seal -> sealed 2\n",
    ends: &[
        ("heap play --fresh 1 --stop 0", [GONE; 4]),
        (
            "heap play --fresh 1 --stop 3",
            [GONE, BOTH_KEPT, GONE, BOTH_KEPT],
        ),
        ("heap play --fresh 1 --stop 4", [BOTH_DURABLE; 4]),
    ],
};

#[test]
fn a_stop_in_a_force_leaves_its_commits_or_not(rt: HostRuntime) -> Result<(), Fail> {
    check_stopped(&rt, rt.alloc(), &ONE)?;
    check_stopped(&rt, rt.alloc(), &TOGETHER)?;
    Ok(())
}

const NONE_LEFT: &str = "recovered 0\ngraph 1\n0: - - - -\n";

/// A transaction that is forced while it is active is taken back by the opening, and if that is stopped by the next one.
const FORCED: Stopped = Stopped {
    script: FORCED_INSIDE,
    lines: FORCED_INSIDE_LINES,
    ends: &[
        ("heap play --fresh 1 --stop 8", [NONE_LEFT; 4]),
        // The first stop never comes, and nothing is ended.
        ("heap play --fresh 1 --again 2", [NONE_LEFT; 4]),
        ("heap play --fresh 1 --stop 8 --again 0", [NONE_LEFT; 4]),
        ("heap play --fresh 1 --stop 8 --again 1", [NONE_LEFT; 4]),
        ("heap play --fresh 1 --stop 8 --again 2", [NONE_LEFT; 4]),
        ("heap play --fresh 1 --stop 8 --again 3", [NONE_LEFT; 4]),
        ("heap play --fresh 1 --stop 8 --again 4", [NONE_LEFT; 4]),
    ],
};

const FORCED_INSIDE: &str = "1 begin\n1 root 0\n1 put 0 0 7\nforce\n";

const FORCED_INSIDE_LINES: &str =
    "1 begin -> begun 1\n1 root 0 -> done\n1 put 0 0 7 -> done\nforce -> durable 0\n";

/// A reference to a volatile object is stored with its page, and the run stops after that.
const VOLATILE: Stopped = Stopped {
    script: "1 begin\n1 root 0\n1 new 1 1\n1 link 0 0 1\nforce\nflush 0\n",
    lines: "1 begin -> begun 1\n1 root 0 -> done\n1 new 1 1 -> done\n1 link 0 0 1 -> done\nforce -> durable 0\nflush 0 -> flushed 0\n",
    ends: &[
        ("heap play --fresh 1 --stop 8", [NONE_LEFT; 4]),
        ("heap play --fresh 1 --stop 8 --again 0", [NONE_LEFT; 4]),
        ("heap play --fresh 1 --stop 8 --again 3", [NONE_LEFT; 4]),
    ],
};

#[test]
fn forced_and_stored_words_are_taken_back(rt: HostRuntime) -> Result<(), Fail> {
    check_stopped(&rt, rt.alloc(), &FORCED)?;
    check_stopped(&rt, rt.alloc(), &VOLATILE)?;
    Ok(())
}

const LOSERS_STOPPED: &str =
    "force -> stopped\nrecovered 1\ngraph 4\n0: @1 @2 @3 -\n1: 11\n2: 12\n3: - 13\n";

const LOSERS_DURABLE: &str =
    "force -> durable 1\nrecovered 1\ngraph 4\n0: @1 @2 @3 -\n1: 11\n2: 12\n3: - 13\n";

/// Three objects are committed, and then three transactions of as many sessions write into one of them each, one of them also a reference to
/// an object that it makes; all of that is forced. The disk stops in that force or after it, and recovery after some number of calls.
const LOSERS: Stopped = Stopped {
    script: "1 begin\n1 root 0\n1 new 1 1\n1 new 2 1\n1 new 3 2\n1 link 0 0 1\n1 link 0 1 2\n1 link 0 2 3\n1 put 1 0 11\n1 put 2 0 12\n1 put 3 1 13\n1 commit\n2 begin\n1 begin\n3 begin\n2 root 0\n1 root 0\n3 root 0\n2 get 0 0 1\n1 get 0 1 1\n3 get 0 2 1\n3 put 1 0 33\n2 put 1 0 22\n1 put 1 0 21\n2 put 1 0 23\n3 new 2 1\n3 link 1 1 2\nforce\n",
    lines: "1 begin -> begun 1\n1 root 0 -> done\n1 new 1 1 -> done\n1 new 2 1 -> done\n1 new 3 2 -> done\n1 link 0 0 1 -> done\n1 link 0 1 2 -> done\n1 link 0 2 3 -> done\n1 put 1 0 11 -> done\n1 put 2 0 12 -> done\n1 put 3 1 13 -> done\n1 seal -> sealed 1\nforce -> durable 1\n2 begin -> begun 2\n1 begin -> begun 3\n3 begin -> begun 4\n2 root 0 -> done\n1 root 0 -> done\n3 root 0 -> done\n2 get 0 0 1 -> ref\n1 get 0 1 1 -> ref\n3 get 0 2 1 -> ref\n3 put 1 0 33 -> done\n2 put 1 0 22 -> done\n1 put 1 0 21 -> done\n2 put 1 0 23 -> done\n3 new 2 1 -> done\n3 link 1 1 2 -> done\n",
    ends: &[
        (
            "heap play --fresh 1 --stop 7 --again 2",
            [LOSERS_STOPPED; 4],
        ),
        (
            "heap play --fresh 1 --stop 8 --again 0",
            [LOSERS_DURABLE; 4],
        ),
        (
            "heap play --fresh 1 --stop 8 --again 1",
            [LOSERS_DURABLE; 4],
        ),
        (
            "heap play --fresh 1 --stop 8 --again 2",
            [LOSERS_DURABLE; 4],
        ),
        (
            "heap play --fresh 1 --stop 8 --again 3",
            [LOSERS_DURABLE; 4],
        ),
        (
            "heap play --fresh 1 --stop 8 --again 4",
            [LOSERS_DURABLE; 4],
        ),
    ],
};

#[test]
fn losers_side_by_side_are_taken_back(rt: HostRuntime) -> Result<(), Fail> {
    check_stopped(&rt, rt.alloc(), &LOSERS)?;
    Ok(())
}

const STOPPED_LOST: &str = "flush 0 -> stopped\nrecovered 0\ngraph 1\n0: - - - -\n";

const STOPPED_KEPT: &str = "flush 0 -> stopped\nrecovered 1\ngraph 1\n0: 7 - - -\n";

const STORED: &str = "flush 0 -> flushed 0\nforce -> durable 1\nrecovered 1\ngraph 1\n0: 7 - - -\n";

/// Only a flush forces what is sealed, and the force after it has nothing to force. The disk stops at each call of the force that the flush
/// makes, at each call of the store after it, and at none.
const SEALED_AND_STORED: Stopped = Stopped {
    script: "1 begin\n1 root 0\n1 put 0 0 7\n1 seal\nflush 0\nforce\n",
    lines: ONE_SEALED,
    ends: &[
        ("heap play --fresh 1 --stop 0", [STOPPED_LOST; 4]),
        ("heap play --fresh 1 --stop 1", [STOPPED_LOST; 4]),
        ("heap play --fresh 1 --stop 2", [STOPPED_LOST; 4]),
        (
            "heap play --fresh 1 --stop 3",
            [STOPPED_LOST, STOPPED_KEPT, STOPPED_LOST, STOPPED_KEPT],
        ),
        ("heap play --fresh 1 --stop 4", [STOPPED_KEPT; 4]),
        ("heap play --fresh 1 --stop 5", [STOPPED_KEPT; 4]),
        ("heap play --fresh 1 --stop 6", [STOPPED_KEPT; 4]),
        ("heap play --fresh 1 --stop 7", [STOPPED_KEPT; 4]),
        ("heap play --fresh 1 --stop 8", [STORED; 4]),
    ],
};

#[test]
fn a_commit_that_a_flush_forces_comes_back(rt: HostRuntime) -> Result<(), Fail> {
    check_stopped(&rt, rt.alloc(), &SEALED_AND_STORED)?;
    Ok(())
}

/// A page is written and stored four times, with a force before each store.
const FORCED_STORES: &str =
    "1 begin\n1 root 0\n1 put 0 0 1\nforce\nflush 0\n1 put 0 0 2\nforce\nflush 0\n1 put 0 0 3\nforce\nflush 0\n1 put 0 0 4\nforce\nflush 0\n";

/// The same, if the flush has to force.
const FORCING_STORES: &str =
    "1 begin\n1 root 0\n1 put 0 0 1\nflush 0\n1 put 0 0 2\nflush 0\n1 put 0 0 3\nflush 0\n1 put 0 0 4\nflush 0\n";

/// After how many writes and syncs a stop is before or after each store of these scripts, and how many stores it leaves: a force makes four calls,
/// the first two stores four each, and the others six.
const STORES_LEFT: [(u64, usize); 8] = [
    (7, 0),
    (8, 1),
    (15, 1),
    (16, 2),
    (25, 2),
    (26, 3),
    (35, 3),
    (36, 4),
];

/// How many stores a play that stopped printed. Its transaction is never sealed, and nothing of it comes back.
fn stores_in(played: &Played) -> Option<usize> {
    let (lines, rest) = split_restarted(&played.output)?;
    if rest != "0\ngraph 1\n0: - - - -\n" {
        return None;
    }
    Some(count_stores(lines))
}

fn count_stores(lines: &str) -> usize {
    let mut count: usize = 0;
    for line in lines.lines() {
        if line == "flush 0 -> flushed 0" {
            count = count.saturating_add(1);
        }
    }
    count
}

/// Stops plays of the script.
fn check_stores(rt: &impl Abort, alloc: Global, script: &str) -> Result<(), Fail> {
    for (stop, stores) in &STORES_LEFT {
        let line = format!(in alloc; "{FRESH} --stop {stop}")?;
        let played = play(alloc, line.as_str(), script, (DISK_BYTES, Pick::Newest))?;
        same(rt, (*stop, stores_in(&played)), (*stop, Some(*stores)));
    }
    Ok(())
}

#[test]
fn a_store_makes_four_calls_and_six_from_the_third_on(rt: HostRuntime) -> Result<(), Fail> {
    check_stores(&rt, rt.alloc(), FORCED_STORES)?;
    check_stores(&rt, rt.alloc(), FORCING_STORES)
}

/// Scripts and the first bad line of each.
const BAD: [(&str, u64); 6] = [
    ("1 begin\n1 root 0\n1 pu", 3),
    ("1 begin\n33 root 0\n", 2),
    ("0 begin\n", 1),
    ("\n\nforce 1\n", 3),
    ("1 begin\n1 root 18446744073709551616\n", 2),
    (" 1 begin\n", 1),
];

/// A bad script leaves a small disk as it is.
fn expect_bad(rt: &impl Abort, alloc: Global, script: &str, line: u64) -> Result<(), Fail> {
    let disk = make_disk(alloc, 64, Pick::Newest)?;
    let (played, disk) = play_on(alloc, FRESH, script, disk)?;
    expect_played(rt, &played, Status::Script { line }, b"");
    same(rt, disk.contents(), [0u8; 64].as_slice());
    Ok(())
}

#[test]
fn a_bad_script_leaves_the_disk(rt: HostRuntime) -> Result<(), Fail> {
    for (script, line) in &BAD {
        expect_bad(&rt, rt.alloc(), script, *line)?;
    }
    Ok(())
}

/// A script of that many empty lines on a disk of that many bytes, the failing calls of the source and of the sink, how its play ends, and whether
/// it writes nothing.
type Play = (usize, usize, (Option<u64>, Option<u64>), (Status, bool));

const PLAYS_OF_EMPTY_LINES: [Play; 5] = [
    // Each fault has its status.
    (0, DISK_BYTES, (Some(1), None), (Status::ReadFault, true)),
    (0, DISK_BYTES, (None, Some(1)), (Status::WriteFault, true)),
    (
        0,
        DISK_BYTES - 1,
        (None, None),
        (
            Status::TooSmall {
                size: 1_050_751,
                need: 1_050_752,
            },
            true,
        ),
    ),
    // A script may have a mebibyte.
    (1_048_576, DISK_BYTES, (None, None), (Status::Done, false)),
    (
        1_048_577,
        DISK_BYTES,
        (None, None),
        (Status::Script { line: 0 }, true),
    ),
];

/// How a play of a row ends, and whether it writes nothing.
fn status_of(alloc: Global, row: &Play) -> Result<(Status, bool), AllocError> {
    let script = vec![in alloc; b'\n'; row.0]?;
    let disk = make_disk(alloc, row.1, Pick::Newest)?;
    let played = run_failing(alloc, FRESH, &script, disk, row.2)?.0;
    Ok((played.status, played.output.is_empty()))
}

#[test]
fn each_fault_and_a_script_that_is_too_long_has_its_status(rt: HostRuntime) -> Result<(), Fail> {
    for row in &PLAYS_OF_EMPTY_LINES {
        same(&rt, status_of(rt.alloc(), row)?, row.3);
    }
    Ok(())
}

/// The writes and syncs of a format and of a force.
const CALLS_BEFORE_OPENING: u64 = 25;

/// Plays a script on a disk that fails in the first call of an opening.
fn expect_fault(
    rt: &impl Abort,
    alloc: Global,
    line: &str,
    (status, end): (Status, &str),
) -> Result<(), Fail> {
    let zeros = vec![in alloc; 0u8; DISK_BYTES]?;
    let fails = Some(CALLS_BEFORE_OPENING + 1);
    let disk = disk_of(alloc, zeros, Pick::Newest, RECORD_BYTES, fails)?;
    let played = play_on(alloc, line, FORCED_INSIDE, disk)?.0;
    let output = joined(alloc, FORCED_INSIDE_LINES, end)?;
    expect_played(rt, &played, status, output.as_bytes());
    Ok(())
}

#[test]
fn a_fault_is_let_go_in_an_opening_that_is_to_stop(rt: HostRuntime) -> Result<(), Fail> {
    let stops = "heap play --fresh 1 --stop 8 --again 4";
    expect_fault(&rt, rt.alloc(), stops, (Status::Done, NONE_LEFT))?;
    let goes_on = "heap play --fresh 1 --stop 8";
    expect_fault(&rt, rt.alloc(), goes_on, (Status::DiskFault, ""))
}

const NO_COMMANDS: [&str; 17] = [
    "heap",
    "heap play --fresh 0",
    "heap play --fresh 16385",
    "heap play --fresh 1 --stop",
    "heap play --stop x",
    "heap play --fresh 1 --stop 18446744073709551616",
    "heap play --fresh 1 --again",
    "heap play --fresh 1 --again 18446744073709551616",
    "heap play --fresh 1 --stop 1 --stop 1",
    "heap play --help",
    "heap format 0 65536 1",
    "heap format 1 65536",
    "heap graph 1",
    "heap load 1",
    "heap load 1 x",
    "heap load 1 2 3",
    "heap load 1 2 --fresh 0",
];

#[test]
fn other_words_are_no_command(rt: HostRuntime) -> Result<(), Fail> {
    for line in &NO_COMMANDS {
        let played = play(rt.alloc(), line, "", (DISK_BYTES, Pick::Newest))?;
        same(&rt, (*line, played.status), (*line, Status::Usage));
    }
    Ok(())
}
