//! A session that is answered busy tries again, and gives up after its last try.
use crate::meeting::Sign;
use crate::playing::{NO_FAULTS, Played, expect_again, image_of, lines_of_session, run_on, same};
use disk_model::MemoryDisk;
use heap_workers::Gate;
use std::alloc::{AllocError, Global};
use std::process::Abort;
use std::sync::Wait;
use std::test::Fail;
use std::thread::Threads;
use thread_program::Status;

/// Two sessions that write into one object, of which the second one begins another transaction after that.
const AT_ONCE: &str =
    "1 begin\n1 root 0\n1 put 0 0 5\n1 commit\n2 begin\n2 root 0\n2 put 0 0 6\n2 begin\n2 abort\n";

/// Session 1 has its lock before session 2 begins, and keeps it until session 2 has moved on from its write.
#[derive(Drop)]
struct Keeping {
    locked: Sign,
    went_on: Sign,
}

impl Gate for Keeping {
    fn pass<R: Wait>(&self, _rt: &R, worker: u32, turn: u64) {
        if worker == 1 && turn == 4 {
            self.locked.give();
            self.went_on.wait();
        }
        if worker == 2 && turn == 1 {
            self.locked.wait();
        }
        if worker == 2 && turn == 4 {
            self.went_on.give();
        }
    }
}

/// Runs `AT_ONCE` with that many tries, and returns whether the workers waited for each other as they have to.
fn run_kept<R: Threads + Wait + Sync>(
    rt: &R,
    alloc: Global,
    image: &[u8],
    tries: usize,
) -> Result<(Played, MemoryDisk, bool), AllocError> {
    let gate = Keeping {
        locked: Sign::new(),
        went_on: Sign::new(),
    };
    let line = format!(in alloc; "heap threads --tries {tries}")?;
    let words = (line.as_str(), AT_ONCE);
    let (played, left) = run_on(rt, alloc, words, (image, &NO_FAULTS), &gate)?;
    Ok((played, left, gate.locked.came() && gate.went_on.came()))
}

/// The lines of session 1, which isn't disturbed.
const KEPT: &str =
    "1 begin -> begun 1\n1 root 0 -> done\n1 put 0 0 5 -> done\n1 seal -> sealed 1\n";

/// The lines of session 2: each of its tries is refused, it aborts, and its next line finds no transaction.
fn wanted_lines(alloc: Global, tries: usize) -> Result<String, AllocError> {
    let mut lines = String::from_str(alloc, "2 begin -> begun 2\n2 root 0 -> done\n")?;
    for _ in 0..tries {
        lines.push_str("2 put 0 0 6 -> busy 1\n")?;
    }
    lines.push_str("2 abort -> aborted\n2 begin -> begun 3\n2 abort -> aborted\n")?;
    Ok(lines)
}

/// Both sessions have their lines.
fn check_lines(rt: &impl Abort, alloc: Global, played: &Played, tries: usize) -> Result<(), Fail> {
    let first = lines_of_session(alloc, played.text(), "1 ")?;
    let second = lines_of_session(alloc, played.text(), "2 ")?;
    let wanted = wanted_lines(alloc, tries)?;
    let lines = (first.as_str(), second.as_str());
    let ends = played.text().ends_with("graph 1\n0: 5 - - -\n");
    let found = (tries, played.status, lines, ends);
    same(
        rt,
        found,
        (tries, Status::Done, (KEPT, wanted.as_str()), true),
    );
    Ok(())
}

#[test]
fn a_session_that_is_refused_at_each_try_gives_up(rt: HostRuntime) -> Result<(), Fail> {
    let alloc = rt.alloc();
    let image = image_of(&rt, alloc, "")?;
    for tries in 1..4 {
        let (played, left, kept) = run_kept(&rt, alloc, &image, tries)?;
        same(&rt, (tries, kept), (tries, true));
        check_lines(&rt, alloc, &played, tries)?;
        expect_again(&rt, alloc, &image, (tries as u64, &played), &left)?;
    }
    Ok(())
}
