//! Two threads, of which one posts or settles while the other has the mirror.
ghost use Rattle.std.specs.Prelude.{◌≡◌, ◌++◌, [], ◌∷◌, IfOk, Some, slice_get, vec_len};
ghost use Rattle.turn_lock.specs.TwinPasses.{pass_numbers, passes_of};
ghost use Rattle.twin_ledger.specs.Ready.{IsReady};

use crossbeam_utils::Backoff;
use std::alloc::{AllocError, Global};
use std::sync::Wait;
use std::sync::atomic::{AtomicU64, Ordering};
use std::thread::{Threads, join};
use turn_lock::{TwinLock, TwinPass};
use twin_ledger::{Journal, Mirror, both, post};

/// A lock with three passes, two of which go before the third.
pub type Three = (
    TwinLock<Journal>,
    (TwinPass<Journal>, TwinPass<Journal>),
    TwinPass<Journal>,
);

// How often a thread looks at most whether the other has come so far.
const LOOKS: u32 = 1_000_000;

// How long a thread keeps the mirror once the other has come.
const PAUSES: u32 = 1_000;

/// What a thread does while another has the mirror.
#[derive(Drop, Clone, Copy)]
pub enum Meanwhile {
    Posts,
    Settles,
}

fn pause() {
    let backoff = Backoff::new();
    for _ in 0..PAUSES {
        backoff.snooze();
    }
}

// Looks until the word is this number, and says whether it came.
fn is_reached(word: &AtomicU64, number: u64) -> bool {
    let backoff = Backoff::new();
    for _ in 0..LOOKS {
        if word.load(Ordering::SeqCst) >= number {
            return true;
        }
        backoff.snooze();
    }
    false
}

// Has the mirror until the other thread has posted, or settles, and some time longer, and says whether it did.
fn hold_mirror<R: Wait>(
    rt: &R,
    lock: &TwinLock<Journal>,
    mut pass: TwinPass<Journal>,
    reached: &AtomicU64,
) -> (TwinPass<Journal>, bool)
    requires pass { IsReady lock.now pass }
    ensures pass { IsReady lock.now result.0 × (pass_numbers result.0 ≡ pass_numbers pass) }
{
    let ticket = lock.queue_device(&mut pass);
    let held = lock.wait_device(rt, &mut pass, ticket);
    reached.store(1, Ordering::SeqCst);
    let came = is_reached(reached, 2);
    pause();
    reached.store(3, Ordering::SeqCst);
    lock.put_device(&mut pass, held, 0);
    (pass, came)
}

// Has the mirror with one pass until the other thread settles, and some time longer, and then as long with another pass, which had a ticket all the while. Says
// whether that thread came.
fn hold_mirror_twice<R: Wait>(
    rt: &R,
    lock: &TwinLock<Journal>,
    passes: (TwinPass<Journal>, TwinPass<Journal>),
    reached: &AtomicU64,
) -> bool
    requires passes { IsReady lock.now passes.0 × IsReady lock.now passes.1 }
{
    let (mut one, mut two) = passes;
    let first = lock.queue_device(&mut one);
    let second = lock.queue_device(&mut two);
    let held = lock.wait_device(rt, &mut one, first);
    reached.store(1, Ordering::SeqCst);
    let came = is_reached(reached, 2);
    pause();
    lock.put_device(&mut one, held, 0);
    let again = lock.wait_device(rt, &mut two, second);
    pause();
    reached.store(3, Ordering::SeqCst);
    lock.put_device(&mut two, again, 0);
    came
}

// Posts once the other thread has the mirror, and says whether it had.
fn post_meanwhile<R: Wait>(
    rt: &R,
    lock: &TwinLock<Journal>,
    mut pass: TwinPass<Journal>,
    reached: &AtomicU64,
) -> (TwinPass<Journal>, bool)
    requires pass { IsReady lock.now pass }
    ensures pass { IsReady lock.now result.0 × (pass_numbers result.0 ≡ pass_numbers pass) }
{
    let held = is_reached(reached, 1);
    let posted = post(rt, lock, &mut pass, 7);
    reached.store(2, Ordering::SeqCst);
    (pass, held && posted)
}

// Settles once the other thread has the mirror, and says whether that one was about to put it back when this returned.
fn settle_meanwhile<R: Wait>(
    rt: &R,
    lock: &TwinLock<Journal>,
    pass: TwinPass<Journal>,
    reached: &AtomicU64,
) -> (TwinPass<Journal>, bool)
    requires pass { IsReady lock.now pass }
    ensures pass { IsReady lock.now result.0 × (pass_numbers result.0 ≡ pass_numbers pass) }
{
    let held = is_reached(reached, 1);
    reached.store(2, Ordering::SeqCst);
    lock.settle(rt, &pass);
    let left = reached.load(Ordering::SeqCst) == 3;
    (pass, held && left)
}

fn act_meanwhile<R: Wait>(
    rt: &R,
    lock: &TwinLock<Journal>,
    pass: TwinPass<Journal>,
    reached: &AtomicU64,
    what: Meanwhile,
) -> (TwinPass<Journal>, bool)
    requires pass { IsReady lock.now pass }
    ensures pass { IsReady lock.now result.0 × (pass_numbers result.0 ≡ pass_numbers pass) }
{
    match what {
        Meanwhile::Posts => post_meanwhile(rt, lock, pass, reached),
        Meanwhile::Settles => settle_meanwhile(rt, lock, pass, reached),
    }
}

/// Whether a thread's post was answered while another thread had the mirror, or whether one that settled waited until it was put back.
pub fn acts_meanwhile<R: Threads + Wait + Sync>(
    rt: &R,
    lock: &TwinLock<Journal>,
    one: TwinPass<Journal>,
    two: TwinPass<Journal>,
    what: Meanwhile,
) -> (TwinPass<Journal>, bool)
    requires one { IsReady lock.now one }
    requires two { IsReady lock.now two }
    ensures pass { IsReady lock.now result.0 }
    ensures numbers { pass_numbers result.0 ≡ pass_numbers one ++ pass_numbers two }
{
    let word = AtomicU64::new(0);
    let reached = &word;
    let ((mut one, saw), (two, had)) = join(
        rt,
        || -> (TwinPass<Journal>, bool)
            requires pass { IsReady lock.now one }
            ensures { IsReady lock.entry.now result.0 × (pass_numbers result.0 ≡ pass_numbers one) }
        { hold_mirror(rt, lock, one, reached) },
        || -> (TwinPass<Journal>, bool)
            requires pass { IsReady lock.now two }
            ensures { IsReady lock.entry.now result.0 × (pass_numbers result.0 ≡ pass_numbers two) }
        { act_meanwhile(rt, lock, two, reached, what) },
    );
    lock.join(&mut one, two);
    (one, saw && had)
}

/// Whether a thread that settled waited until both passes ahead of it had put the mirror back.
pub fn settles_behind_two<R: Threads + Wait + Sync>(
    rt: &R,
    lock: &TwinLock<Journal>,
    ahead: (TwinPass<Journal>, TwinPass<Journal>),
    last: TwinPass<Journal>,
) -> bool
    requires ahead { IsReady lock.now ahead.0 × IsReady lock.now ahead.1 }
    requires last { IsReady lock.now last }
{
    let word = AtomicU64::new(0);
    let reached = &word;
    let (came, (_last, waited)) = join(
        rt,
        || -> bool
            requires passes { IsReady lock.now ahead.0 × IsReady lock.now ahead.1 }
        { hold_mirror_twice(rt, lock, ahead, reached) },
        || -> (TwinPass<Journal>, bool)
            requires pass { IsReady lock.now last }
        { settle_meanwhile(rt, lock, last, reached) },
    );
    came && waited
}

/// A journal and a mirror that fails after so many calls, with two passes.
pub fn begin(
    alloc: Global,
    calls: u64,
) -> Result<(TwinLock<Journal>, TwinPass<Journal>, TwinPass<Journal>), AllocError>
    ensures ready { IfOk result (λ r. IsReady r.0 r.1 × IsReady r.0 r.2) }
    ensures numbers { IfOk result (λ r. (passes_of r.0 ≡ 2) × (pass_numbers r.1 ≡ 0 ∷ []) × (pass_numbers r.2 ≡ 1 ∷ [])) }
{
    let begun = TwinLock::new(
        alloc,
        Journal::new(alloc, 1),
        Mirror::new(alloc, calls),
        &[1, 2],
    );
    let Ok((lock, passes)) = begun else {
        return Err(AllocError);
    };
    let (one, two) = both(passes);
    Ok((lock, one, two))
}

// The three passes of a list.
fn all_three(
    mut passes: Vec<TwinPass<Journal>>,
) -> ((TwinPass<Journal>, TwinPass<Journal>), TwinPass<Journal>)
    requires { vec_len passes ≡ 3 }
    ensures first { slice_get passes.items 0 ≡ Some result.0.0 }
    ensures second { slice_get passes.items 1 ≡ Some result.0.1 }
    ensures third { slice_get passes.items 2 ≡ Some result.1 }
{
    let three = passes.pop().unwrap();
    (both(passes), three)
}

/// A journal and a mirror that fails after so many calls, with three passes.
pub fn begin_three(alloc: Global, calls: u64) -> Result<Three, AllocError>
    ensures ready { IfOk result (λ r. IsReady r.0 r.1.0 × IsReady r.0 r.1.1 × IsReady r.0 r.2) }
{
    let begun = TwinLock::new(
        alloc,
        Journal::new(alloc, 1),
        Mirror::new(alloc, calls),
        &[1, 2, 3],
    );
    let Ok((lock, passes)) = begun else {
        return Err(AllocError);
    };
    let (ahead, last) = all_three(passes);
    Ok((lock, ahead, last))
}

/// Ends the lock, with the pass that both became.
pub fn end(lock: TwinLock<Journal>, pass: TwinPass<Journal>) -> (Journal, Mirror)
    requires ready { IsReady lock pass }
    requires numbers { (passes_of lock ≡ 2) × (pass_numbers pass ≡ 0 ∷ 1 ∷ []) }
{
    lock.close(pass)
}
