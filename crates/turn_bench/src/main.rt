//! Times the turns of `turn_lock` in one run: those of `TurnLock` beside those of std's `Mutex`, around the same ledger, and those of `TwinLock` beside those of
//! `TurnLock`, around the same journal.
#![tactic(auto)]

ghost use Rattle.std.specs.Prelude.{◌≡◌, ◌<◌, ◌≤◌, [], All, length};
ghost use Rattle.turn_lock.specs.Passes.{first_of, mine_of, seen_of, IsPassOf, IsResting};

mod figures;
mod twins;

use crate::figures::{ROUNDS, all_turns, percent, rate};
use crate::twins::compare;
use anyhow::Error;
use std::alloc::{AllocError, Global};
use std::sync::{Mutex, Wait};
use std::thread::Threads;
use std::time::{Clock, Duration, Instant};
use std::{env, thread};
use turn_ledger::{Ledger, post_all};
use turn_lock::{Pass, TurnLock};

// A label for each thread, which nothing reads.
const LABELS: [u32; 34] = [0; 34];

// The numbers that a thread posts.
fn numbers(alloc: Global, turns: u32) -> Result<Vec<u64>, Error> {
    let mut all = Vec::new(alloc);
    for turn in 0..turns {
        all.push(u64::from(turn))?;
    }
    Ok(all)
}

// Each pass gets a thread, which posts with it.
fn post_each<R: Threads + Wait + Sync>(
    rt: &R,
    lock: &TurnLock<Ledger>,
    passes: Vec<Pass<Ledger>>,
    posts: &[u64],
) -> Result<(), AllocError>
    requires { All (λ p. IsPassOf lock.now p × IsResting p × (mine_of p ≡ []) × ((first_of lock.now).before ≤ length (seen_of p))) passes.items }
{
    thread::map_vec(rt, passes, &|pass| post_all(rt, lock, pass, posts))?;
    Ok(())
}

// Each thread posts with a pass of its own.
fn lock_turns<R: Threads + Wait + Sync>(
    rt: &R,
    alloc: Global,
    threads: usize,
    posts: &[u64],
) -> Result<Result<(), AllocError>, (AllocError, Ledger)>
    requires { (0 < threads) × (threads ≤ 34) }
{
    let (lock, passes) = TurnLock::new(alloc, Ledger::new(alloc, 1), &LABELS[..threads])?;
    Ok(post_each(rt, &lock, passes, posts))
}

fn mutex_posts<R: Wait>(rt: &R, ledger: &Mutex<Ledger>, posts: &[u64]) {
    for post in posts {
        ledger.lock(rt).post(*post);
    }
}

fn mutex_turns<R: Threads + Wait + Sync>(
    rt: &R,
    alloc: Global,
    threads: usize,
    posts: &[u64],
) -> Result<(), Error> {
    let ledger = Mutex::new(Ledger::new(alloc, 1));
    thread::map_indices(rt, alloc, threads, &|_| mutex_posts(rt, &ledger, posts))?;
    Ok(())
}

// The time of all rounds, for the lock and for the mutex.
fn measure<R: Threads + Wait + Clock + Sync>(
    rt: &R,
    alloc: Global,
    threads: usize,
    posts: &[u64],
) -> Result<(Duration, Duration), Error>
    requires { (0 < threads) × (threads ≤ 34) }
{
    let mut lock = Duration::ZERO;
    let mut mutex = Duration::ZERO;
    for _ in 0..ROUNDS {
        let start = Instant::now(rt)?;
        lock_turns(rt, alloc, threads, posts).map_err(|e| e.0)??;
        lock = lock.saturating_add(start.elapsed(rt)?);
        let start = Instant::now(rt)?;
        mutex_turns(rt, alloc, threads, posts)?;
        mutex = mutex.saturating_add(start.elapsed(rt)?);
    }
    Ok((lock, mutex))
}

// The greatest number of threads whose turns of both locks are compared.
const MOST: usize = 8;

fn main(rt: HostRuntime) -> Result<(), Error> {
    let alloc = rt.alloc();
    let Some(word) = env::args(&rt)?.nth(1) else {
        println!(rt;
            "turn_bench TURNS [THREADS]: turns a second with 1 to 34 threads, or those of both locks with 1 to {MOST}"
        )?;
        return Ok(());
    };
    let turns = word.parse::<u32>()?;
    let posts = numbers(alloc, turns)?;
    if let Some(word) = env::args(&rt)?.nth(2) {
        let threads = word.parse::<usize>()?.clamp(1, MOST);
        let (turn, [twin, beside, device]) = compare(&rt, alloc, threads, turns, posts.as_slice())?;
        println!(rt;
            "{threads} threads: {turn} turns a second, with two turns {twin} %, beside the device's {beside} %, the device's alone {device} %"
        )?;
        return Ok(());
    }
    for threads in [1usize, 2, 4, 8, 16, 34] {
        let (lock, mutex) = measure(&rt, alloc, threads, posts.as_slice())?;
        let all = all_turns(threads, turns);
        let (lock, mutex) = (rate(lock, all), rate(mutex, all));
        let of = percent(lock, mutex);
        println!(rt; "{threads} threads: {lock} turns a second, {mutex} under a Mutex, {of} %")?;
    }
    Ok(())
}
