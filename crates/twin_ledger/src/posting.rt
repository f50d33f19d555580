//! Threads that post to a journal, and copy its posts into the mirror.
ghost use Rattle.std.specs.Prelude.{◌≡◌, ℕ, ◌+◌, ◌<◌, ◌≤◌, ◌++◌, [], ◌∷◌, length, take, true, false, MatchBool, OnOk, OnErr, IfOk, IfErr, Some, slice_get, vec_len};
ghost use Rattle.turn_lock.specs.Merging.{entries_of};
ghost use Rattle.turn_lock.specs.TwinPasses.{first_of, pass_numbers, mine_of, seen_of, owes_of};
ghost use Rattle.twin_ledger.specs.Ready.{IsReady, IsRisen, IsShowing, IsOwing};
ghost use Rattle.twin_ledger.specs.Mirrored.{flag};
ghost use Rattle.turn_lock.specs.Turning.{IsBeginning};

use crate::ledger::{Journal, Mirror};
use std::alloc::{AllocError, Global};
use std::sync::Wait;
use std::thread::{Threads, join};
use turn_lock::{Ticket, TwinLock, TwinPass};

/// Posts a number in a turn with the journal alone, or makes an empty turn if memory runs out.
pub fn post<R: Wait>(
    rt: &R,
    lock: &TwinLock<Journal>,
    pass: &mut TwinPass<Journal>,
    number: u64,
) -> bool
    requires pass { IsReady lock.now pass.old }
    ensures pass { IsReady lock.now pass.new × (pass_numbers pass.new ≡ pass_numbers pass.old) }
    ensures posted { MatchBool result (entries_of (mine_of pass.new) ≡ entries_of (mine_of pass.old) ++ number ∷ []) (entries_of (mine_of pass.new) ≡ entries_of (mine_of pass.old)) }
    ensures rise { IsRisen lock.now pass.old → IsRisen lock.now pass.new }
{
    let ticket = lock.queue(pass);
    let mut held = lock.wait(rt, pass, ticket);
    if held.value.post(number) {
        lock.raise(pass, &held, number, 0);
        lock.put(pass, held);
        true
    } else {
        lock.raise(pass, &held, 0, 0);
        lock.put(pass, held);
        false
    }
}

/// Copies all posts into the mirror, and tells the journal where it fails. Other threads post while the mirror copies.
pub fn copy<R: Wait>(
    rt: &R,
    alloc: Global,
    lock: &TwinLock<Journal>,
    pass: &mut TwinPass<Journal>,
) -> Result<(), AllocError>
    requires pass { IsReady lock.now pass.old }
    ensures pass { IsReady lock.now pass.new × (pass_numbers pass.new ≡ pass_numbers pass.old) × (entries_of (mine_of pass.new) ≡ entries_of (mine_of pass.old)) }
    ensures rise { IsRisen lock.now pass.old → IsRisen lock.now pass.new }
{
    let (shown, ticket) = show(rt, alloc, lock, pass)?;
    if copy_shown(rt, lock, pass, shown, ticket) > 0 {
        tell(rt, lock, pass);
    }
    Ok(())
}

// Takes a copy of the posts, and a ticket of the mirror's turn while nobody else can post.
fn show<R: Wait>(
    rt: &R,
    alloc: Global,
    lock: &TwinLock<Journal>,
    pass: &mut TwinPass<Journal>,
) -> Result<(Vec<u64>, Ticket), AllocError>
    requires pass { IsReady lock.now pass.old }
    ensures shown { IfOk result (λ r. IsShowing lock.now pass.new r.1.number r.0.items) }
    ensures err { OnErr result (IsReady lock.now pass.new) }
    ensures same { (pass_numbers pass.new ≡ pass_numbers pass.old) × (entries_of (mine_of pass.new) ≡ entries_of (mine_of pass.old)) }
    ensures rise { IsRisen lock.now pass.old → IsRisen lock.now pass.new }
{
    let ticket = lock.queue(pass);
    let mut held = lock.wait(rt, pass, ticket);
    let mut shown = Vec::new(alloc);
    let copied = shown.extend_from_slice(held.value.posts.as_slice());
    held.value.pass();
    match copied {
        Ok(()) => {
            let ticket = lock.queue_device(pass);
            lock.raise(pass, &held, 0, 0);
            lock.put(pass, held);
            Ok((shown, ticket))
        }
        Err(e) => {
            lock.raise(pass, &held, 0, 0);
            lock.put(pass, held);
            Err(e)
        }
    }
}

// Copies what was shown in a turn with the mirror alone, and returns how many failures the pass has to tell then.
fn copy_shown<R: Wait>(
    rt: &R,
    lock: &TwinLock<Journal>,
    pass: &mut TwinPass<Journal>,
    shown: Vec<u64>,
    ticket: Ticket,
) -> u64
    requires shown { IsShowing lock.now pass.old ticket.number shown.items }
    ensures owing { IsOwing lock.now pass.new result × (result ≤ 1) }
    ensures same { (pass_numbers pass.new ≡ pass_numbers pass.old) × (mine_of pass.new ≡ mine_of pass.old) × (seen_of pass.new ≡ seen_of pass.old) }
{
    let mut held = lock.wait_device(rt, pass, ticket);
    if held.device.copy(shown) {
        lock.put_device(pass, held, 0);
        0
    } else {
        lock.put_device(pass, held, 1);
        1
    }
}

// Tells the journal that the mirror failed, unless another pass has told it already.
fn tell<R: Wait>(rt: &R, lock: &TwinLock<Journal>, pass: &mut TwinPass<Journal>)
    requires owing { IsOwing lock.now pass.old 1 }
    ensures pass { IsReady lock.now pass.new × (pass_numbers pass.new ≡ pass_numbers pass.old) × (entries_of (mine_of pass.new) ≡ entries_of (mine_of pass.old)) }
    ensures rise { IsRisen lock.now pass.old → IsRisen lock.now pass.new }
{
    let ticket = lock.queue(pass);
    let mut held = lock.wait(rt, pass, ticket);
    held.value.tell_once();
    lock.raise(pass, &held, 0, 0);
    lock.put(pass, held);
}

/// Posts a number in a turn with both, in which the mirror follows, and tells the journal where it fails. Nobody else posts or copies meanwhile.
/// Where memory runs out the turn posts nothing.
pub fn post_through<R: Wait>(
    rt: &R,
    lock: &TwinLock<Journal>,
    pass: &mut TwinPass<Journal>,
    number: u64,
) -> bool
    requires pass { IsReady lock.now pass.old }
    ensures pass { IsReady lock.now pass.new × (pass_numbers pass.new ≡ pass_numbers pass.old) }
    ensures posted { MatchBool result (entries_of (mine_of pass.new) ≡ entries_of (mine_of pass.old) ++ number ∷ []) (entries_of (mine_of pass.new) ≡ entries_of (mine_of pass.old)) }
    ensures rise { IsRisen lock.now pass.old → IsRisen lock.now pass.new }
{
    let (posted, owes) = post_and_follow(rt, lock, pass, number);
    if owes > 0 {
        tell(rt, lock, pass);
    }
    posted
}

// The turn with both, which returns whether it posted, and how many failures the pass has to tell then.
fn post_and_follow<R: Wait>(
    rt: &R,
    lock: &TwinLock<Journal>,
    pass: &mut TwinPass<Journal>,
    number: u64,
) -> (bool, u64)
    requires pass { IsReady lock.now pass.old }
    ensures owing { IsOwing lock.now pass.new result.1 × (result.1 ≤ 1) }
    ensures same { pass_numbers pass.new ≡ pass_numbers pass.old }
    ensures posted { MatchBool result.0 (entries_of (mine_of pass.new) ≡ entries_of (mine_of pass.old) ++ number ∷ []) (entries_of (mine_of pass.new) ≡ entries_of (mine_of pass.old)) }
    ensures rise { IsRisen lock.now pass.old → IsRisen lock.now pass.new }
{
    let ticket = lock.queue(pass);
    let mut held = lock.wait(rt, pass, ticket);
    let place = lock.queue_device(pass);
    let mut mirror = lock.wait_device(rt, pass, place);
    let (posted, front) = held.value.post_one(number);
    let owes = mirror.device.follow(held.value.posts.as_slice());
    lock.raise_both(pass, &held, &mirror, front, owes);
    lock.put_device(pass, mirror, owes);
    lock.put(pass, held);
    (posted, owes)
}

/// Posts numbers with the journal alone, and copies all posts after each, until memory runs out, and returns how many it posted.
pub fn post_all<R: Wait>(
    rt: &R,
    alloc: Global,
    lock: &TwinLock<Journal>,
    mut pass: TwinPass<Journal>,
    numbers: &[u64],
) -> (TwinPass<Journal>, usize)
    requires pass { IsReady lock.now pass }
    ensures pass { IsReady lock.now result.0 × (pass_numbers result.0 ≡ pass_numbers pass) }
    ensures posted { entries_of (mine_of result.0) ≡ entries_of (mine_of pass) ++ take result.1 numbers.now }
    ensures rise { IsRisen lock.now pass → IsRisen lock.now result.0 }
{
    for (posted, number) in numbers.iter().enumerate() {
        if !post(rt, lock, &mut pass, *number) {
            return (pass, posted);
        }
        if copy(rt, alloc, lock, &mut pass).is_err() {
            return (pass, posted + 1);
        }
    }
    (pass, numbers.len())
}
