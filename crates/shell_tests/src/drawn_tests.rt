//! Drawn scripts of several sessions, played whole, and stopped at each of their device calls, also inside the recovery.
use crate::drawing::{DRAWN, DRAWN_LINES, FOUR, LAST_TWO, ONE, Sessions, draw_script, ending_of};
use crate::playing::same;
use crate::stop_tests::{FORCE_CALLS, Told, check_played, expect_each_same, expect_whole, play_to};
use disk_model::Pick;
use std::alloc::Global;
use std::ops::Range;
use std::process::Abort;
use std::test::Fail;

/// Plays a drawn script of these sessions without a stop.
fn check_drawn(
    rt: &impl Abort,
    alloc: Global,
    script: &str,
    sessions: &Sessions,
) -> Result<(), Fail> {
    let told = Told::of(rt, alloc, script)?;
    let ending = ending_of(alloc, &told, sessions)?;
    expect_whole(rt, alloc, &told, ending.as_str())?;
    Ok(())
}

fn check_whole(rt: &impl Abort, alloc: Global, sessions: &Sessions) -> Result<(), Fail> {
    for seed in 0..DRAWN {
        let script = draw_script(alloc, seed, sessions, DRAWN_LINES)?;
        check_drawn(rt, alloc, script.as_str(), sessions)?;
    }
    Ok(())
}

#[test]
fn drawn_scripts_are_answered_as_by_the_slow_heap(rt: HostRuntime) -> Result<(), Fail> {
    check_whole(&rt, rt.alloc(), &ONE)
}

#[test]
fn four_drawn_sessions_are_answered_as_by_the_slow_heap(rt: HostRuntime) -> Result<(), Fail> {
    check_whole(&rt, rt.alloc(), &FOUR)
}

#[test]
fn the_last_drawn_sessions_are_answered_as_by_the_slow_heap(rt: HostRuntime) -> Result<(), Fail> {
    check_whole(&rt, rt.alloc(), &LAST_TWO)
}

/// Sessions, and a seed by which they commit before and after a force at which two of them are losers, in few forces.
type Table = (Sessions, u64);

const FOUR_LOSERS: Table = (FOUR, 291);

const LAST_LOSERS: Table = (LAST_TWO, 306);

/// How many lines are drawn of a script that is stopped at each of its calls.
const STOPPED_LINES: usize = 24;

/// The forces of these scripts. After the first one there may be losers.
const FORCES: usize = 3;

/// Stops a drawn script after that many calls, and if there may be losers also the recovery at each of its own.
fn check_losers(
    rt: &impl Abort,
    alloc: Global,
    told: &Told<'_>,
    pick: Pick,
    calls: usize,
) -> Result<(), Fail> {
    let once = play_to(alloc, told.script, pick, calls)?;
    let (stopped, _) = check_played(rt, told, &once, pick, calls)?;
    same(rt, (calls, stopped), (calls, calls < FORCES * FORCE_CALLS));
    if calls >= FORCE_CALLS {
        expect_each_same(rt, alloc, told, &once, (pick, calls, FORCE_CALLS))?;
    }
    Ok(())
}

/// Stops a drawn script at each of these calls.
fn check_losers_at(
    rt: &impl Abort,
    alloc: Global,
    told: &Told<'_>,
    pick: Pick,
    stops: Range<usize>,
) -> Result<(), Fail> {
    same(rt, told.forces.len(), FORCES);
    for calls in stops {
        check_losers(rt, alloc, told, pick, calls)?;
    }
    Ok(())
}

fn check_table(
    rt: &impl Abort,
    alloc: Global,
    (sessions, seed): &Table,
    pick: Pick,
    stops: Range<usize>,
) -> Result<(), Fail> {
    let script = draw_script(alloc, *seed, sessions, STOPPED_LINES)?;
    let told = Told::of(rt, alloc, script.as_str())?;
    check_losers_at(rt, alloc, &told, pick, stops)
}

/// The stops in the first two forces.
const EARLY: Range<usize> = 0..2 * FORCE_CALLS;

/// Those in the last force, and after it.
const LATE: Range<usize> = 2 * FORCE_CALLS..FORCES * FORCE_CALLS + 1;

#[test]
fn four_drawn_sessions_stop_early_and_come_back_from_synced_bytes(
    rt: HostRuntime,
) -> Result<(), Fail> {
    check_table(&rt, rt.alloc(), &FOUR_LOSERS, Pick::Synced, EARLY)
}

#[test]
fn four_drawn_sessions_stop_late_and_come_back_from_synced_bytes(
    rt: HostRuntime,
) -> Result<(), Fail> {
    check_table(&rt, rt.alloc(), &FOUR_LOSERS, Pick::Synced, LATE)
}

#[test]
fn four_drawn_sessions_stop_early_and_come_back_from_newest_bytes(
    rt: HostRuntime,
) -> Result<(), Fail> {
    check_table(&rt, rt.alloc(), &FOUR_LOSERS, Pick::Newest, EARLY)
}

#[test]
fn four_drawn_sessions_stop_late_and_come_back_from_newest_bytes(
    rt: HostRuntime,
) -> Result<(), Fail> {
    check_table(&rt, rt.alloc(), &FOUR_LOSERS, Pick::Newest, LATE)
}

#[test]
fn four_drawn_sessions_stop_early_and_come_back_from_bytes_of_ones(
    rt: HostRuntime,
) -> Result<(), Fail> {
    check_table(&rt, rt.alloc(), &FOUR_LOSERS, Pick::AllOnes, EARLY)
}

#[test]
fn four_drawn_sessions_stop_late_and_come_back_from_bytes_of_ones(
    rt: HostRuntime,
) -> Result<(), Fail> {
    check_table(&rt, rt.alloc(), &FOUR_LOSERS, Pick::AllOnes, LATE)
}

#[test]
fn four_drawn_sessions_stop_early_and_come_back_from_open_gates(
    rt: HostRuntime,
) -> Result<(), Fail> {
    check_table(&rt, rt.alloc(), &FOUR_LOSERS, Pick::AllOpen, EARLY)
}

#[test]
fn four_drawn_sessions_stop_late_and_come_back_from_open_gates(
    rt: HostRuntime,
) -> Result<(), Fail> {
    check_table(&rt, rt.alloc(), &FOUR_LOSERS, Pick::AllOpen, LATE)
}

#[test]
fn the_last_drawn_sessions_stop_early_and_come_back_from_synced_bytes(
    rt: HostRuntime,
) -> Result<(), Fail> {
    check_table(&rt, rt.alloc(), &LAST_LOSERS, Pick::Synced, EARLY)
}

#[test]
fn the_last_drawn_sessions_stop_late_and_come_back_from_synced_bytes(
    rt: HostRuntime,
) -> Result<(), Fail> {
    check_table(&rt, rt.alloc(), &LAST_LOSERS, Pick::Synced, LATE)
}

#[test]
fn the_last_drawn_sessions_stop_early_and_come_back_from_newest_bytes(
    rt: HostRuntime,
) -> Result<(), Fail> {
    check_table(&rt, rt.alloc(), &LAST_LOSERS, Pick::Newest, EARLY)
}

#[test]
fn the_last_drawn_sessions_stop_late_and_come_back_from_newest_bytes(
    rt: HostRuntime,
) -> Result<(), Fail> {
    check_table(&rt, rt.alloc(), &LAST_LOSERS, Pick::Newest, LATE)
}

#[test]
fn the_last_drawn_sessions_stop_early_and_come_back_from_bytes_of_ones(
    rt: HostRuntime,
) -> Result<(), Fail> {
    check_table(&rt, rt.alloc(), &LAST_LOSERS, Pick::AllOnes, EARLY)
}

#[test]
fn the_last_drawn_sessions_stop_late_and_come_back_from_bytes_of_ones(
    rt: HostRuntime,
) -> Result<(), Fail> {
    check_table(&rt, rt.alloc(), &LAST_LOSERS, Pick::AllOnes, LATE)
}

#[test]
fn the_last_drawn_sessions_stop_early_and_come_back_from_open_gates(
    rt: HostRuntime,
) -> Result<(), Fail> {
    check_table(&rt, rt.alloc(), &LAST_LOSERS, Pick::AllOpen, EARLY)
}

#[test]
fn the_last_drawn_sessions_stop_late_and_come_back_from_open_gates(
    rt: HostRuntime,
) -> Result<(), Fail> {
    check_table(&rt, rt.alloc(), &LAST_LOSERS, Pick::AllOpen, LATE)
}
