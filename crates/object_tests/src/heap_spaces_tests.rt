//! Words that are taken of a space while a copy has room.
use crate::compare::same;
use heap_spaces::{Exhausted, Spaces};

#[test]
fn words_are_taken_while_a_copy_has_room(rt: HostRuntime) {
    let mut new = Spaces::new(1, 0, 6, 0);
    let too_many = new.take(59);
    let (need, free, owed) = (59, 58, 0);
    same(&rt, too_many, Err(Exhausted { need, free, owed }));
    same(&rt, (new.take(58), new.take(0)), (Ok(6), Ok(64)));
    let (need, free) = (1 << 63, 0);
    same(&rt, new.take(need), Err(Exhausted { need, free, owed }));
}

/// Of the second space six words are taken, and 52 are still to be copied.
#[test]
fn words_that_wait_are_not_taken(rt: HostRuntime) {
    let mut copying = Spaces::new(1, 64, 6, 52);
    let (need, free, owed) = (58, 58, 52);
    same(&rt, copying.take(need), Err(Exhausted { need, free, owed }));
    same(&rt, copying.take(4), Ok(70));
    let left = (copying.used(), copying.free(), copying.owed());
    same(&rt, left, (10, 54, 52));
}
