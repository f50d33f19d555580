//! Turns in threads, and what follows from the clauses alone.
use std::alloc::Global;
use std::test::Fail;
use turn_ledger::{Ledger, both, post_four, post_two};
use turn_lock::TurnLock;

// How many turns each thread makes.
const TURNS: u64 = 1000;

// The numbers that one thread posts.
fn numbers(alloc: Global, thread: u64) -> Result<Vec<u64>, Fail> {
    let mut all = Vec::new(alloc);
    for turn in 0..TURNS {
        all.push(thread % 4 * TURNS + turn + 1)?;
    }
    Ok(all)
}

// Whether the posts are the numbers from 1 on, in some order.
fn has_each_once(posts: &Vec<u64>) -> Result<bool, Fail> {
    let mut sorted = posts.clone()?;
    sorted.sort()?;
    Ok(
        sorted
            .iter()
            .enumerate()
            .all(|(i, post)| *post == i as u64 + 1),
    )
}

#[test]
fn two_threads_post_each_number_once(rt: HostRuntime) -> Result<(), Fail> {
    let alloc = rt.alloc();
    let first = numbers(alloc, 0)?;
    let second = numbers(alloc, 1)?;
    let posted = post_two(
        &rt,
        alloc,
        Ledger::new(alloc, 1),
        first.as_slice(),
        second.as_slice(),
    );
    let Ok((ledger, by_first, by_second)) = posted else {
        panic!(rt; "memory was refused")
    };
    assert!(rt; by_first == 1000 && by_second == 1000);
    assert!(rt; ledger.posts.len() == 2000 && has_each_once(&ledger.posts)?);
    Ok(())
}

#[test]
fn four_threads_post_each_number_once(rt: HostRuntime) -> Result<(), Fail> {
    let alloc = rt.alloc();
    let (a, b) = (numbers(alloc, 0)?, numbers(alloc, 1)?);
    let (c, d) = (numbers(alloc, 2)?, numbers(alloc, 3)?);
    let lists = ((a.as_slice(), b.as_slice()), (c.as_slice(), d.as_slice()));
    let Ok(ledger) = post_four(&rt, alloc, Ledger::new(alloc, 1), lists) else {
        panic!(rt; "memory was refused")
    };
    assert!(rt; ledger.posts.len() == 4000 && has_each_once(&ledger.posts)?);
    Ok(())
}

// Posts in turns of one pass, and reads the front with another that never has a turn.
#[test]
fn a_front_shows_at_once(rt: HostRuntime) -> Result<(), Fail> {
    let Ok((lock, passes)) = TurnLock::new(rt.alloc(), Ledger::new(rt.alloc(), 1), &[7, 0]) else {
        panic!(rt; "memory was refused")
    };
    let (mut writer, mut watcher) = both(passes);
    assert!(rt; writer.label() == 7 && watcher.label() == 0);
    for (number, front) in [(5, 5), (3, 5), (9, 9)] {
        let before = lock.front(&mut watcher);
        let mut held = lock.hold(&rt, &mut writer);
        // The value is out, and the front is still read.
        assert!(rt; lock.front(&mut watcher) == before);
        assert!(rt; held.value.post(number));
        lock.give(&mut writer, held, number);
        assert!(rt; lock.front(&mut watcher) == front && lock.front(&mut writer) == front);
    }
    lock.join(&mut writer, watcher);
    assert!(rt; lock.front(&mut writer) == 9);
    assert!(rt; lock.close(writer).posts.as_slice() == [5, 3, 9].as_slice());
    Ok(())
}
