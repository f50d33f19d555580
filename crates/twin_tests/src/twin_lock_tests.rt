//! Plays of a journal with its mirror.
use crate::gate::{Meanwhile, acts_meanwhile, begin, begin_three, end, settles_behind_two};
use std::alloc::{AllocError, Global};
use std::sync::Wait;
use std::test::Fail;
use std::thread::Threads;
use twin_ledger::{Journal, Mirror, copy, post, post_eight, post_through, post_two};

// How many numbers each thread posts.
const NUMBERS: u64 = 100;

// A number of calls after which no play ends.
const ENOUGH: u64 = 1_000_000;

fn numbers(alloc: Global) -> Result<Vec<u64>, Fail> {
    let mut all = Vec::new(alloc);
    for number in 0..NUMBERS {
        all.push(number + 1)?;
    }
    Ok(all)
}

// Whether these are the numbers from 1 on, each twice or each eight times, in some order.
fn has_each(posts: &Vec<u64>, by_eight: bool) -> Result<bool, Fail> {
    let mut sorted = posts.clone()?;
    sorted.sort()?;
    Ok(
        sorted.iter().enumerate().all(|(i, post)| {
            let before = if by_eight { i / 8 } else { i / 2 };
            *post == (before as u64).wrapping_add(1)
        }),
    )
}

// Whether a play left the first posts in the mirror: all of them where its calls are enough. Else it failed, which the journal was told once, however many
// threads saw it fail, and it has
// what its last calls gave it: each thread makes one call after each of its posts, so that is no less than the calls of one thread, and no more
// than all calls with one post of each thread that made no call yet.
fn is_left(journal: &Journal, mirror: &Mirror, calls: u64, threads: u64) -> bool {
    let copied = mirror.copied.as_slice();
    let posts = journal.posts.as_slice();
    if copied.len() > posts.len() || copied != &posts[..copied.len()] {
        return false;
    }
    if calls == ENOUGH {
        return !mirror.failed && journal.told == 0 && copied.len() == posts.len();
    }
    let many = copied.len() as u64;
    let least = many.wrapping_mul(threads) >= calls;
    let most = many < calls.wrapping_add(threads) && (calls > 0 || many == 0);
    mirror.failed && journal.told == 1 && least && most
}

#[test]
fn two_threads_post_and_copy(rt: HostRuntime) -> Result<(), Fail> {
    let alloc = rt.alloc();
    let posts = numbers(alloc)?;
    for calls in [ENOUGH, 0, 1, 2, 50, 199] {
        let played = post_two(
            &rt,
            alloc,
            Journal::new(alloc, 1),
            Mirror::new(alloc, calls),
            posts.as_slice(),
        );
        let Ok((journal, mirror, first, second)) = played else {
            panic!(rt; "memory was refused")
        };
        assert!(rt;
            journal.posts.len() == 200
                && (first, second) == (100, 100)
                && has_each(&journal.posts, false)?
                && is_left(&journal, &mirror, calls, 2),
            "{calls}"
        );
    }
    Ok(())
}

#[test]
fn eight_threads_post_and_copy(rt: HostRuntime) -> Result<(), Fail> {
    let alloc = rt.alloc();
    let posts = numbers(alloc)?;
    for calls in [ENOUGH, 0, 7, 300] {
        let played = post_eight(
            &rt,
            alloc,
            Journal::new(alloc, 1),
            Mirror::new(alloc, calls),
            posts.as_slice(),
        );
        let Ok((journal, mirror)) = played else {
            panic!(rt; "memory was refused")
        };
        assert!(rt;
            journal.posts.len() == 800
                && has_each(&journal.posts, true)?
                && is_left(&journal, &mirror, calls, 8),
            "{calls}"
        );
    }
    Ok(())
}

// Two passes of one thread post by turns, two posts of them with both; then they are one pass, which posts and copies. The front that the second of them reads
// before its first turn is returned, and a later one.
fn by_turns<R: Wait>(
    rt: &R,
    alloc: Global,
    calls: u64,
) -> Result<(Journal, Mirror, [u64; 2]), AllocError> {
    let (lock, mut one, mut two) = begin(alloc, calls)?;
    lock.settle(rt, &one);
    post(rt, &lock, &mut one, 5);
    let early = lock.front(&mut two);
    post_through(rt, &lock, &mut two, 9);
    post_through(rt, &lock, &mut one, 3);
    let late = lock.front(&mut one);
    post(rt, &lock, &mut two, 4);
    copy(rt, alloc, &lock, &mut one)?;
    lock.join(&mut one, two);
    post(rt, &lock, &mut one, 6);
    copy(rt, alloc, &lock, &mut one)?;
    let (journal, mirror) = end(lock, one);
    Ok((journal, mirror, [early, late]))
}

#[test]
fn a_failure_is_told(rt: HostRuntime) -> Result<(), Fail> {
    for (calls, copied, told) in [
        (ENOUGH, 5, 0),
        (4, 5, 0),
        (3, 4, 1),
        (2, 3, 1),
        (1, 2, 1),
        (0, 0, 1),
    ] {
        let (journal, mirror, fronts) = by_turns(&rt, rt.alloc(), calls)?;
        assert!(rt; journal.posts.as_slice() == [5, 9, 3, 4, 6].as_slice());
        assert!(rt; fronts == [5, 9]);
        assert!(rt;
            mirror.copied.len() == copied && journal.told == told && mirror.failed == (told == 1),
            "{calls}"
        );
    }
    Ok(())
}

// A play of two threads, of which one does this while the other has the mirror.
fn beside_the_mirror<R: Threads + Wait + Sync>(
    rt: &R,
    alloc: Global,
    what: Meanwhile,
) -> Result<(Journal, bool), AllocError> {
    let (lock, one, two) = begin(alloc, ENOUGH)?;
    let (pass, meanwhile) = acts_meanwhile(rt, &lock, one, two, what);
    let (journal, _mirror) = end(lock, pass);
    Ok((journal, meanwhile))
}

#[test]
fn a_post_is_answered_while_another_thread_has_the_mirror(rt: HostRuntime) -> Result<(), Fail> {
    for _ in 0..20 {
        let (journal, meanwhile) = beside_the_mirror(&rt, rt.alloc(), Meanwhile::Posts)?;
        assert!(rt; meanwhile && journal.posts.as_slice() == [7].as_slice());
    }
    Ok(())
}

#[test]
fn who_settles_waits_until_the_mirror_is_put_back(rt: HostRuntime) -> Result<(), Fail> {
    for _ in 0..20 {
        let (_journal, waited) = beside_the_mirror(&rt, rt.alloc(), Meanwhile::Settles)?;
        assert!(rt; waited);
    }
    Ok(())
}

#[test]
fn who_settles_waits_for_all_who_are_ahead(rt: HostRuntime) -> Result<(), Fail> {
    for _ in 0..20 {
        let (lock, ahead, last) = begin_three(rt.alloc(), ENOUGH)?;
        assert!(rt; settles_behind_two(&rt, &lock, ahead, last));
    }
    Ok(())
}
