//! Scripts with collections, stopped at each of their calls by each pick of a restart, and once more at each call of the recovery.
use crate::playing::{PICKS, expect_done, play};
use crate::told::{RECOVERY_CALLS, check_stops};
use disk_model::Pick;
use std::alloc::{AllocError, Global};
use std::process::Abort;
use std::test::Fail;

const FORMAT: &str = "heap format 4 8192 1";

/// A transaction writes over the only reference to an object, and never ends.
const CLEARED: &str =
    "1 begin\n1 root 0\n1 new 1 1\n1 put 1 0 9\n1 link 0 0 1\n1 commit\n1 begin\n1 root 0\n1 clear 0 0\nflip\nforce\nscan\nflush 4\nscan\nforce\nflip\nforce\n";

/// Two transactions beside a collection: one drops what it has locked and is taken back, one has volatile objects and is sealed.
const BESIDE: &str =
    "1 begin\n1 root 0\n1 new 1 2\n1 new 2 60\n1 new 3 60\n1 new 4 1\n1 put 4 0 9\n1 link 1 0 2\n1 link 2 0 3\n1 link 3 0 4\n1 link 1 1 4\n1 link 0 0 1\n1 commit\n1 begin\n1 root 0\n1 get 0 0 1\n1 get 1 0 2\n1 get 2 0 2\n1 put 2 1 5\n1 drop 2\n2 begin\n2 root 0\n2 get 0 0 1\n2 get 1 1 3\n2 new 2 1\n2 link 2 0 3\n2 drop 1\n2 drop 3\nflip\nforce\n2 get 2 0 1\n2 get 1 0 4\n2 put 1 0 6\nscan\nflush 4\n1 clear 1 0\n1 get 1 0 2\n1 get 2 0 3\n1 put 3 2 6\nforce\n2 link 1 0 2\n2 seal\nscan\n1 abort\n2 begin\n2 root 0\n2 link 0 1 0\nscan\n2 seal\nflush 5\nforce\n";

// A test for each script and pick, since code that is only tried plays slowly, and each has a minute.
#[test]
fn a_cleared_field_comes_back_from_synced_bytes(rt: HostRuntime) -> Result<(), Fail> {
    check_stops(&rt, rt.alloc(), FORMAT, CLEARED, Pick::Synced)
}

#[test]
fn a_cleared_field_comes_back_from_newest_bytes(rt: HostRuntime) -> Result<(), Fail> {
    check_stops(&rt, rt.alloc(), FORMAT, CLEARED, Pick::Newest)
}

#[test]
fn a_cleared_field_comes_back_from_bytes_of_ones(rt: HostRuntime) -> Result<(), Fail> {
    check_stops(&rt, rt.alloc(), FORMAT, CLEARED, Pick::AllOnes)
}

#[test]
fn a_cleared_field_comes_back_from_open_gates(rt: HostRuntime) -> Result<(), Fail> {
    check_stops(&rt, rt.alloc(), FORMAT, CLEARED, Pick::AllOpen)
}

#[test]
fn two_sessions_come_back_from_synced_bytes(rt: HostRuntime) -> Result<(), Fail> {
    check_stops(&rt, rt.alloc(), FORMAT, BESIDE, Pick::Synced)
}

#[test]
fn two_sessions_come_back_from_newest_bytes(rt: HostRuntime) -> Result<(), Fail> {
    check_stops(&rt, rt.alloc(), FORMAT, BESIDE, Pick::Newest)
}

#[test]
fn two_sessions_come_back_from_bytes_of_ones(rt: HostRuntime) -> Result<(), Fail> {
    check_stops(&rt, rt.alloc(), FORMAT, BESIDE, Pick::AllOnes)
}

#[test]
fn two_sessions_come_back_from_open_gates(rt: HostRuntime) -> Result<(), Fail> {
    check_stops(&rt, rt.alloc(), FORMAT, BESIDE, Pick::AllOpen)
}

/// The only one of these scripts whose whole output is written down: a flip, a force, and then the disk stops.
const FORCED: &str =
    "1 begin\n1 root 0\n1 new 1 1\n1 put 1 0 9\n1 link 0 0 1\n1 commit\n1 begin\n1 root 0\n1 clear 0 0\nflip\nforce\n";

const FORCED_OUTPUT: &str =
    "1 begin -> begun 1\n1 root 0 -> done\n1 new 1 1 -> done\n1 put 1 0 9 -> done\n1 link 0 0 1 -> done\n1 seal -> sealed 1\nforce -> durable 1\n1 begin -> begun 2\n1 root 0 -> done\n1 clear 0 0 -> done\nflip -> flipped 2 9\nforce -> durable 1\nrecovered 1\ngraph 2\n0: @1 - - -\n1: 9\n";

/// After a flip that was forced nothing depends on where the recovery stops, or on what a restart leaves.
#[test]
fn a_crash_in_a_collection_takes_writes_back(rt: HostRuntime) -> Result<(), Fail> {
    for pick in &PICKS {
        for again in 0..=RECOVERY_CALLS {
            expect_forced(&rt, rt.alloc(), *pick, again)?;
        }
    }
    Ok(())
}

fn expect_forced(
    rt: &impl Abort,
    alloc: Global,
    pick: Pick,
    again: usize,
) -> Result<(), AllocError> {
    let line = format!(in alloc; "heap play --fresh 1 --stop 8 --again {again}")?;
    let played = play(alloc, line.as_str(), FORCED, pick)?;
    expect_done(rt, &played, FORCED_OUTPUT);
    Ok(())
}
