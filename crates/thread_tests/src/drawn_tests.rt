//! Drawn scripts are played by threads, and then what they made is played alone: the same is written, and the same bytes are left.
use crate::drawn::{SESSIONS, SHARED, draw_script};
use crate::playing::{Played, count_lines, expect_again, image_of, run_well, same};
use std::alloc::Global;
use std::process::Abort;
use std::sync::Wait;
use std::test::Fail;
use std::thread::Threads;
use thread_program::Status;

/// How many scripts a test draws: few enough for its minute. Code that is only tried is a hundred times slower.
const SCRIPTS: u64 = 50;

/// A session soon gives up if another one holds its object.
const LINE: &str = "heap threads --tries 3";

/// The run of a seed's script is done, and each of its sessions had a transaction.
fn check_done(rt: &impl Abort, played: &Played, seed: u64) {
    same(rt, (seed, played.status), (seed, Status::Done));
    let begun = count_lines(played.text(), " begin -> begun ");
    same(rt, (seed, SESSIONS as usize <= begun), (seed, true));
}

/// Plays the scripts of that many seeds from this one on.
fn check_scripts<R: Threads + Wait + Abort + Sync>(
    rt: &R,
    alloc: Global,
    first: u64,
) -> Result<(), Fail> {
    let image = image_of(rt, alloc, SHARED)?;
    for place in 0..SCRIPTS {
        let seed = first.wrapping_add(place);
        let script = draw_script(alloc, seed)?;
        let (played, left) = run_well(rt, alloc, LINE, script.as_str(), &image)?;
        check_done(rt, &played, seed);
        expect_again(rt, alloc, &image, (seed, &played), &left)?;
    }
    Ok(())
}

#[test]
fn what_drawn_scripts_made_is_played_again(rt: HostRuntime) -> Result<(), Fail> {
    check_scripts(&rt, rt.alloc(), 0)
}

#[test]
fn what_more_drawn_scripts_made_is_played_again(rt: HostRuntime) -> Result<(), Fail> {
    check_scripts(&rt, rt.alloc(), 1000)
}

#[test]
fn what_still_more_drawn_scripts_made_is_played_again(rt: HostRuntime) -> Result<(), Fail> {
    check_scripts(&rt, rt.alloc(), 2000)
}

#[test]
fn what_the_last_drawn_scripts_made_is_played_again(rt: HostRuntime) -> Result<(), Fail> {
    check_scripts(&rt, rt.alloc(), 3000)
}
