//! Times the turns of `TurnLock` and those of `TwinLock` around the same journal.
ghost use Rattle.std.specs.Prelude.{◌<◌, ◌≤◌, All, length};
ghost use Rattle.turn_lock.specs.Passes.{IsPassOf, IsResting};
ghost use Rattle.twin_ledger.specs.Ready.{IsReady};

use crate::figures::{ROUNDS, all_turns, percent, rate};
use anyhow::Error;
use std::alloc::{AllocError, Global};
use std::sync::Wait;
use std::thread;
use std::thread::Threads;
use std::time::{Clock, Duration, Instant};
use turn_lock::{Pass, TurnLock, TwinLock, TwinPass};
use twin_ledger::{Journal, Mirror, post};

// What the thread of a pass does is said by its label.
const POSTS: u32 = 0;

const TURNS_DEVICE: u32 = 1;

// One who makes turns with the device makes one for so many numbers, as a force is made for many events.
const DEVICE_SHARE: usize = 64;

const ALL_POST: [u32; 9] = [POSTS; 9];

const ONE_TURNS_DEVICE: [u32; 9] = [
    TURNS_DEVICE,
    POSTS,
    POSTS,
    POSTS,
    POSTS,
    POSTS,
    POSTS,
    POSTS,
    POSTS,
];

const ALL_TURN_DEVICE: [u32; 9] = [TURNS_DEVICE; 9];

// The times of all rounds.
#[derive(Drop)]
struct Times {
    /// Turns of a `TurnLock`.
    turn: Duration,
    /// Turns with the value alone, of a `TwinLock`.
    twin: Duration,
    /// The same while one thread more makes turns with the device alone.
    beside: Duration,
    /// Turns with the device alone.
    device: Duration,
}

// Posts in turns of a `TurnLock`, as `post` does in those of a `TwinLock`.
fn post_all<R: Wait>(rt: &R, lock: &TurnLock<Journal>, mut pass: Pass<Journal>, numbers: &[u64])
    requires { IsPassOf lock.now pass × IsResting pass }
{
    for number in numbers {
        let mut held = lock.hold(rt, &mut pass);
        if held.value.post(*number) {
            lock.give(&mut pass, held, *number);
        } else {
            lock.give(&mut pass, held, 0);
        }
    }
}

fn post_each<R: Threads + Wait + Sync>(
    rt: &R,
    lock: &TurnLock<Journal>,
    passes: Vec<Pass<Journal>>,
    numbers: &[u64],
) -> Result<(), AllocError>
    requires { All (λ p. IsPassOf lock.now p × IsResting p) passes.items }
{
    thread::map_vec(rt, passes, &|pass| post_all(rt, lock, pass, numbers))?;
    Ok(())
}

// Each thread posts in turns of a `TurnLock`.
fn turns<R: Threads + Wait + Sync>(
    rt: &R,
    alloc: Global,
    labels: &[u32],
    numbers: &[u64],
) -> Result<(), AllocError>
    requires { 0 < length labels.now }
{
    let Ok((lock, passes)) = TurnLock::new(alloc, Journal::new(alloc, 1), labels) else {
        return Err(AllocError);
    };
    post_each(rt, &lock, passes, numbers)
}

// Posts in turns of a `TwinLock` with the journal alone.
fn post_all_twin<R: Wait>(
    rt: &R,
    lock: &TwinLock<Journal>,
    mut pass: TwinPass<Journal>,
    numbers: &[u64],
)
    requires { IsReady lock.now pass }
{
    for number in numbers {
        post(rt, lock, &mut pass, *number);
    }
}

// Takes the mirror and puts it back, as often as there are numbers.
fn turn_mirror<R: Wait>(
    rt: &R,
    lock: &TwinLock<Journal>,
    mut pass: TwinPass<Journal>,
    numbers: &[u64],
)
    requires { IsReady lock.now pass }
{
    for _number in numbers {
        let ticket = lock.queue_device(&mut pass);
        let held = lock.wait_device(rt, &mut pass, ticket);
        lock.put_device(&mut pass, held, 0);
    }
}

fn work<R: Wait>(rt: &R, lock: &TwinLock<Journal>, pass: TwinPass<Journal>, numbers: &[u64])
    requires { IsReady lock.now pass }
{
    if pass.label() == TURNS_DEVICE {
        turn_mirror(rt, lock, pass, &numbers[..numbers.len() / DEVICE_SHARE]);
    } else {
        post_all_twin(rt, lock, pass, numbers);
    }
}

fn work_each<R: Threads + Wait + Sync>(
    rt: &R,
    lock: &TwinLock<Journal>,
    passes: Vec<TwinPass<Journal>>,
    numbers: &[u64],
) -> Result<(), AllocError>
    requires { All (λ p. IsReady lock.now p) passes.items }
{
    thread::map_vec(rt, passes, &|pass| work(rt, lock, pass, numbers))?;
    Ok(())
}

// Each thread makes turns of a `TwinLock`, as the label of its pass says.
fn twin_turns<R: Threads + Wait + Sync>(
    rt: &R,
    alloc: Global,
    labels: &[u32],
    numbers: &[u64],
) -> Result<(), AllocError>
    requires { 0 < length labels.now }
{
    let Ok((lock, passes)) = TwinLock::new(
        alloc,
        Journal::new(alloc, 1),
        Mirror::new(alloc, 0),
        labels,
    ) else {
        return Err(AllocError);
    };
    work_each(rt, &lock, passes, numbers)
}

// A time, with what has passed since then.
fn with_elapsed<R: Clock>(rt: &R, time: Duration, start: Instant) -> Result<Duration, Error> {
    Ok(time.saturating_add(start.elapsed(rt)?))
}

// Times all four, in turn.
fn measure<R: Threads + Wait + Clock + Sync>(
    rt: &R,
    alloc: Global,
    threads: usize,
    numbers: &[u64],
) -> Result<Times, Error>
    requires { (0 < threads) × (threads ≤ 8) }
{
    let mut times = Times {
        turn: Duration::ZERO,
        twin: Duration::ZERO,
        beside: Duration::ZERO,
        device: Duration::ZERO,
    };
    for _ in 0..ROUNDS {
        let start = Instant::now(rt)?;
        turns(rt, alloc, &ALL_POST[..threads], numbers)?;
        times.turn = with_elapsed(rt, times.turn, start)?;
        let start = Instant::now(rt)?;
        twin_turns(rt, alloc, &ALL_POST[..threads], numbers)?;
        times.twin = with_elapsed(rt, times.twin, start)?;
        let start = Instant::now(rt)?;
        twin_turns(rt, alloc, &ONE_TURNS_DEVICE[..threads + 1], numbers)?;
        times.beside = with_elapsed(rt, times.beside, start)?;
        let start = Instant::now(rt)?;
        twin_turns(rt, alloc, &ALL_TURN_DEVICE[..threads], numbers)?;
        times.device = with_elapsed(rt, times.device, start)?;
    }
    Ok(times)
}

/// Times the turns of so many threads, and says those of a `TwinLock` as percentages of those of a `TurnLock`: with the value alone, the same beside a
/// thread that makes turns with the device, and with the device alone.
pub fn compare<R: Threads + Wait + Clock + Sync>(
    rt: &R,
    alloc: Global,
    threads: usize,
    turns: u32,
    numbers: &[u64],
) -> Result<(u64, [u64; 3]), Error>
    requires { (0 < threads) × (threads ≤ 8) }
{
    let times = measure(rt, alloc, threads, numbers)?;
    let all = all_turns(threads, turns);
    let turn = rate(times.turn, all);
    let of = [
        percent(rate(times.twin, all), turn),
        percent(rate(times.beside, all), turn),
        percent(rate(times.device, all / DEVICE_SHARE as u64), turn),
    ];
    Ok((turn, of))
}
