//! Scripts that are played by threads: sessions and a collection run at the same time, and what they made is replayed.
use crate::meeting::Sign;
use crate::playing::{
    FRESH_BYTES, NO_FAULTS, Played, TWO_OBJECTS, count_lines, events_of, expect_again, image_of,
    lines_of_session, run_on, run_well, same,
};
use heap_workers::{COLLECTOR, FLUSHER, Gate};
use std::alloc::{AllocError, Global};
use std::process::Abort;
use std::sync::Wait;
use std::sync::atomic::{AtomicU64, Ordering};
use std::test::Fail;
use std::thread::Threads;
use thread_program::Status;

/// Two sessions, each of which writes into an object of its own, and a collection, whose scans are left out.
const ONE_EACH: &str =
    "1 begin\n1 root 0\n1 get 0 0 1\n1 put 1 0 5\n1 commit\n2 begin\n2 root 0\n2 get 0 1 1\n2 put 1 0 6\n2 commit\nflip\n";

/// How many scans follow the flip.
const SCANS: usize = 49;

fn script_with_scans(alloc: Global) -> Result<String, AllocError> {
    let mut script = String::from_str(alloc, ONE_EACH)?;
    for _ in 0..SCANS {
        script.push_str("scan\n")?;
    }
    Ok(script)
}

/// Whether all was answered as it has to be in any order of the workers' events.
fn check_each(rt: &impl Abort, played: &Played) {
    let text = played.text();
    let counts = [
        count_lines(text, " -> busy "),
        count_lines(text, " seal -> sealed "),
        count_lines(text, "flip -> flipped "),
        count_lines(text, "scan -> "),
    ];
    let ends = text.ends_with("graph 3\n0: @1 @2 - -\n1: 5\n2: 6\n");
    let found = (text, played.status, counts, ends);
    same(rt, found, (text, Status::Done, [0, 2, 1, SCANS], true));
}

/// Each session's events come in the order of its lines.
fn check_sessions(rt: &impl Abort, alloc: Global, played: &Played) -> Result<(), AllocError> {
    for (start, want) in &[
        (
            "1 ",
            "1 begin\n1 root 0\n1 get 0 0 1\n1 put 1 0 5\n1 seal\n",
        ),
        (
            "2 ",
            "2 begin\n2 root 0\n2 get 0 1 1\n2 put 1 0 6\n2 seal\n",
        ),
    ] {
        let lines = lines_of_session(alloc, played.text(), start)?;
        let events = events_of(alloc, lines.as_str())?;
        same(rt, events.as_str(), *want);
    }
    Ok(())
}

#[test]
fn each_session_writes_its_own_object_beside_a_collection(rt: HostRuntime) -> Result<(), Fail> {
    let alloc = rt.alloc();
    let zeros = vec![in alloc; 0u8; FRESH_BYTES]?;
    let (_, made) = run_well(&rt, alloc, "heap play --fresh 1", TWO_OBJECTS, &zeros)?;
    let image = made.contents();
    let script = script_with_scans(alloc)?;
    let (played, left) = run_well(&rt, alloc, "heap threads", script.as_str(), image)?;
    check_each(&rt, &played);
    check_sessions(&rt, alloc, &played)?;
    expect_again(&rt, alloc, image, (0, &played), &left)?;
    Ok(())
}

/// Two sessions, each of which commits an object of its own that nothing refers to, beside a collection, and the command that plays them.
const APART: (&str, &str) = (
    "heap threads",
    "1 begin\n2 begin\n1 new 0 1\n2 new 0 1\n1 put 0 0 5\n2 put 0 0 6\nflip\nscan\n1 commit\n2 commit\nscan\nforce\n",
);

/// Where the workers 1 and 2 meet: at turn 2 each waits for the other.
#[derive(Drop)]
struct Meeting {
    one: Sign,
    two: Sign,
}

impl Gate for Meeting {
    fn pass<R: Wait>(&self, _rt: &R, worker: u32, turn: u64) {
        if turn == 2 && worker == 1 {
            self.one.give();
            self.two.wait();
        }
        if turn == 2 && worker == 2 {
            self.two.give();
            self.one.wait();
        }
    }
}

/// The first session's events come in the order of its lines.
fn check_own(rt: &impl Abort, alloc: Global, played: &Played) -> Result<(), AllocError> {
    let own = lines_of_session(alloc, played.text(), "1 ")?;
    let events = events_of(alloc, own.as_str())?;
    let want = "1 begin\n1 new 0 1\n1 put 0 0 5\n1 seal\n";
    same(rt, (played.status, events.as_str()), (Status::Done, want));
    Ok(())
}

#[test]
fn two_sessions_meet_and_what_they_made_is_played_again(rt: HostRuntime) -> Result<(), Fail> {
    let alloc = rt.alloc();
    let image = image_of(&rt, alloc, "")?;
    let gate = Meeting {
        one: Sign::new(),
        two: Sign::new(),
    };
    let (played, left) = run_on(&rt, alloc, APART, (&image, &NO_FAULTS), &gate)?;
    same(&rt, (gate.one.came(), gate.two.came()), (true, true));
    check_own(&rt, alloc, &played)?;
    expect_again(&rt, alloc, &image, (0, &played), &left)?;
    Ok(())
}

/// Counts how often each worker passes, and how often with a turn other than its next.
#[derive(Drop)]
struct Counting {
    turns: Vec<AtomicU64>,
    wrong: AtomicU64,
}

impl Counting {
    fn new(alloc: Global) -> Result<Counting, AllocError> {
        let mut turns = Vec::new(alloc);
        for _ in 0..=FLUSHER {
            turns.push(AtomicU64::new(0))?;
        }
        Ok(Counting {
            turns,
            wrong: AtomicU64::new(0),
        })
    }

    fn turns_of(&self, worker: u32) -> u64 {
        match self.turns.get(worker as usize) {
            Some(turns) => turns.load(Ordering::SeqCst),
            None => 0,
        }
    }

    /// How often all workers passed.
    fn all(&self) -> u64 {
        let mut all = 0u64;
        for turns in &self.turns {
            all = all.saturating_add(turns.load(Ordering::SeqCst));
        }
        all
    }
}

impl Gate for Counting {
    fn pass<R: Wait>(&self, _rt: &R, worker: u32, turn: u64) {
        let before = match self.turns.get(worker as usize) {
            Some(turns) => turns.fetch_add(1, Ordering::SeqCst),
            None => 0,
        };
        if before.wrapping_add(1) != turn {
            self.wrong.store(1, Ordering::SeqCst);
        }
    }
}

/// Each worker of `APART` and how many events its lines have.
const TURNS: [(u32, u64); 4] = [(1, 5), (2, 5), (COLLECTOR, 3), (FLUSHER, 1)];

/// Each worker passed that often, always with its next turn, and no other one passed.
fn check_turns(rt: &impl Abort, gate: &Counting) {
    for (worker, turns) in &TURNS {
        same(rt, (*worker, gate.turns_of(*worker)), (*worker, *turns));
    }
    let wrong = gate.wrong.load(Ordering::SeqCst);
    same(rt, (gate.all(), wrong), (14, 0));
}

#[test]
fn each_worker_passes_the_gate_before_each_of_its_events(rt: HostRuntime) -> Result<(), Fail> {
    let alloc = rt.alloc();
    let image = image_of(&rt, alloc, "")?;
    let gate = Counting::new(alloc)?;
    let (played, _) = run_on(&rt, alloc, APART, (&image, &NO_FAULTS), &gate)?;
    same(&rt, played.status, Status::Done);
    check_turns(&rt, &gate);
    Ok(())
}
