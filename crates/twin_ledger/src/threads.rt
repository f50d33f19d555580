//! Threads that post to one journal, and copy into its mirror.
ghost use Rattle.std.specs.Prelude.{◌≡◌, ℕ, ◌+◌, ◌++◌, [], ◌∷◌, length, take, drop, IfOk, IfErr, Some, slice_get, vec_len, false};
ghost use Rattle.turn_ledger.specs.Merged.{IsMerge};
ghost use Rattle.turn_lock.specs.Merging.{entries_of};
ghost use Rattle.turn_lock.specs.TwinPasses.{first_of, pass_numbers, mine_of};
ghost use Rattle.turn_lock.specs.Turning.{IsBeginning};
ghost use Rattle.twin_ledger.specs.Mirrored.{flag};
ghost use Rattle.twin_ledger.specs.Ready.{IsReady, IsRisen};

use crate::ledger::{Journal, Mirror};
use crate::posting::post_all;
use std::alloc::{AllocError, Global};
use std::sync::Wait;
use std::thread::{Threads, join};
use turn_lock::{TwinLock, TwinPass};

/// Two threads post the same numbers, and their passes become one.
fn post_beside<R: Threads + Wait + Sync>(
    rt: &R,
    alloc: Global,
    lock: &TwinLock<Journal>,
    one: TwinPass<Journal>,
    two: TwinPass<Journal>,
    numbers: &[u64],
) -> TwinPass<Journal>
    requires one { IsReady lock.now one }
    requires two { IsReady lock.now two }
    ensures pass { IsReady lock.now result }
    ensures numbers { pass_numbers result ≡ pass_numbers one ++ pass_numbers two }
{
    let (mut one, two) = join(
        rt,
        || -> TwinPass<Journal>
            requires pass { IsReady lock.now one }
            ensures { IsReady lock.entry.now result × (pass_numbers result ≡ pass_numbers one) }
        { post_all(rt, alloc, lock, one, numbers).0 },
        || -> TwinPass<Journal>
            requires pass { IsReady lock.now two }
            ensures { IsReady lock.entry.now result × (pass_numbers result ≡ pass_numbers two) }
        { post_all(rt, alloc, lock, two, numbers).0 },
    );
    lock.join(&mut one, two);
    one
}

/// Four threads post the same numbers, and their passes become one.
fn post_by_four<R: Threads + Wait + Sync>(
    rt: &R,
    alloc: Global,
    lock: &TwinLock<Journal>,
    left: Two,
    right: Two,
    numbers: &[u64],
) -> TwinPass<Journal>
    requires left { IsReady lock.now left.0 × IsReady lock.now left.1 }
    requires right { IsReady lock.now right.0 × IsReady lock.now right.1 }
    ensures pass { IsReady lock.now result }
    ensures numbers { pass_numbers result ≡ (pass_numbers left.0 ++ pass_numbers left.1) ++ (pass_numbers right.0 ++ pass_numbers right.1) }
{
    let (one, two) = left;
    let (three, four) = right;
    let (mut left, right) = join(
        rt,
        || -> TwinPass<Journal>
            requires one { IsReady lock.now one }
            requires two { IsReady lock.now two }
            ensures { IsReady lock.entry.now result × (pass_numbers result ≡ pass_numbers one ++ pass_numbers two) }
        { post_beside(rt, alloc, lock, one, two, numbers) },
        || -> TwinPass<Journal>
            requires three { IsReady lock.now three }
            requires four { IsReady lock.now four }
            ensures { IsReady lock.entry.now result × (pass_numbers result ≡ pass_numbers three ++ pass_numbers four) }
        { post_beside(rt, alloc, lock, three, four, numbers) },
    );
    lock.join(&mut left, right);
    left
}

/// Eight threads post the same numbers, and their passes become one.
fn post_by_eight<R: Threads + Wait + Sync>(
    rt: &R,
    alloc: Global,
    lock: &TwinLock<Journal>,
    left: (Two, Two),
    right: (Two, Two),
    numbers: &[u64],
) -> TwinPass<Journal>
    requires left { (IsReady lock.now left.0.0 × IsReady lock.now left.0.1) × (IsReady lock.now left.1.0 × IsReady lock.now left.1.1) }
    requires right { (IsReady lock.now right.0.0 × IsReady lock.now right.0.1) × (IsReady lock.now right.1.0 × IsReady lock.now right.1.1) }
    ensures pass { IsReady lock.now result }
    ensures numbers { pass_numbers result ≡ ((pass_numbers left.0.0 ++ pass_numbers left.0.1) ++ (pass_numbers left.1.0 ++ pass_numbers left.1.1)) ++ ((pass_numbers right.0.0 ++ pass_numbers right.0.1) ++ (pass_numbers right.1.0 ++ pass_numbers right.1.1)) }
{
    let (a, b) = left;
    let (c, d) = right;
    let (mut left, right) = join(
        rt,
        || -> TwinPass<Journal>
            requires a { IsReady lock.now a.0 × IsReady lock.now a.1 }
            requires b { IsReady lock.now b.0 × IsReady lock.now b.1 }
            ensures { IsReady lock.entry.now result × (pass_numbers result ≡ (pass_numbers a.0 ++ pass_numbers a.1) ++ (pass_numbers b.0 ++ pass_numbers b.1)) }
        { post_by_four(rt, alloc, lock, a, b, numbers) },
        || -> TwinPass<Journal>
            requires c { IsReady lock.now c.0 × IsReady lock.now c.1 }
            requires d { IsReady lock.now d.0 × IsReady lock.now d.1 }
            ensures { IsReady lock.entry.now result × (pass_numbers result ≡ (pass_numbers c.0 ++ pass_numbers c.1) ++ (pass_numbers d.0 ++ pass_numbers d.1)) }
        { post_by_four(rt, alloc, lock, c, d, numbers) },
    );
    lock.join(&mut left, right);
    left
}

type Two = (TwinPass<Journal>, TwinPass<Journal>);

// The two passes of a list.
pub fn both(mut passes: Vec<TwinPass<Journal>>) -> (TwinPass<Journal>, TwinPass<Journal>)
    requires { vec_len passes ≡ 2 }
    ensures first { slice_get passes.items 0 ≡ Some result.0 }
    ensures second { slice_get passes.items 1 ≡ Some result.1 }
{
    let two = passes.pop().unwrap();
    let one = passes.pop().unwrap();
    (one, two)
}

// The four passes of a list.
fn all_four(mut passes: Vec<TwinPass<Journal>>) -> (Two, Two)
    requires { vec_len passes ≡ 4 }
    ensures first { (slice_get passes.items 0 ≡ Some result.0.0) × (slice_get passes.items 1 ≡ Some result.0.1) }
    ensures second { (slice_get passes.items 2 ≡ Some result.1.0) × (slice_get passes.items 3 ≡ Some result.1.1) }
{
    let four = passes.pop().unwrap();
    let three = passes.pop().unwrap();
    (both(passes), (three, four))
}

// The eight passes of a list.
fn all_eight(mut passes: Vec<TwinPass<Journal>>) -> ((Two, Two), (Two, Two))
    requires { vec_len passes ≡ 8 }
    ensures one { (slice_get passes.items 0 ≡ Some result.0.0.0) × (slice_get passes.items 1 ≡ Some result.0.0.1) }
    ensures two { (slice_get passes.items 2 ≡ Some result.0.1.0) × (slice_get passes.items 3 ≡ Some result.0.1.1) }
    ensures three { (slice_get passes.items 4 ≡ Some result.1.0.0) × (slice_get passes.items 5 ≡ Some result.1.0.1) }
    ensures four { (slice_get passes.items 6 ≡ Some result.1.1.0) × (slice_get passes.items 7 ≡ Some result.1.1.1) }
{
    let eight = passes.pop().unwrap();
    let seven = passes.pop().unwrap();
    let six = passes.pop().unwrap();
    let five = passes.pop().unwrap();
    (all_four(passes), ((five, six), (seven, eight)))
}

/// Two threads post the same numbers to one journal, and how many each posted is returned. After what it had, the journal then has the posts
/// of both, each once and in their order. Its mirror has the first of its posts, and where it failed the journal was told.
pub fn post_two<R: Threads + Wait + Sync>(
    rt: &R,
    alloc: Global,
    journal: Journal,
    mirror: Mirror,
    numbers: &[u64],
) -> Result<(Journal, Mirror, usize, usize), (AllocError, (Journal, Mirror))>
    requires journal { (journal.before ≡ length journal.posts.items) × (journal.empty ≡ 0) × (journal.told ≡ 0) }
    requires mirror { (mirror.copied.items ≡ []) × (mirror.failed ≡ false) }
    ensures posts { IfOk result (λ r. IsMerge (take r.2 numbers.now) (take r.3 numbers.now) (drop journal.before r.0.posts.items)) }
    ensures copied { IfOk result (λ r. IsBeginning r.1.copied.items r.0.posts.items) }
    ensures told { IfOk result (λ r. r.0.told ≡ flag r.1.failed) }
    ensures same { IfOk result (λ r. r.0.name ≡ journal.name) }
    ensures err { IfErr result (λ e. e.1 ≡ (journal, mirror)) }
{
    let (lock, passes) = TwinLock::new(alloc, journal, mirror, &[1, 2])?;
    let (one, two) = both(passes);
    let ((mut one, first), (two, second)) = join(
        rt,
        || -> (TwinPass<Journal>, usize)
            requires pass { IsReady lock one × (pass_numbers one ≡ 0 ∷ []) }
            requires new { (mine_of one ≡ []) × IsRisen lock one }
            ensures pass { IsReady lock result.0 × (pass_numbers result.0 ≡ 0 ∷ []) }
            ensures posted { entries_of (mine_of result.0) ≡ take result.1 numbers.entry.now }
            ensures rise { IsRisen lock result.0 }
        { post_all(rt, alloc, &lock, one, numbers) },
        || -> (TwinPass<Journal>, usize)
            requires pass { IsReady lock two × (pass_numbers two ≡ 1 ∷ []) }
            requires new { (mine_of two ≡ []) × IsRisen lock two }
            ensures pass { IsReady lock result.0 × (pass_numbers result.0 ≡ 1 ∷ []) }
            ensures posted { entries_of (mine_of result.0) ≡ take result.1 numbers.entry.now }
            ensures rise { IsRisen lock result.0 }
        { post_all(rt, alloc, &lock, two, numbers) },
    );
    lock.join(&mut one, two);
    let (journal, mirror) = lock.close(one);
    Ok((journal, mirror, first, second))
}

/// The same of eight threads.
pub fn post_eight<R: Threads + Wait + Sync>(
    rt: &R,
    alloc: Global,
    journal: Journal,
    mirror: Mirror,
    numbers: &[u64],
) -> Result<(Journal, Mirror), (AllocError, (Journal, Mirror))>
    requires journal { (journal.before ≡ length journal.posts.items) × (journal.empty ≡ 0) × (journal.told ≡ 0) }
    requires mirror { (mirror.copied.items ≡ []) × (mirror.failed ≡ false) }
    ensures copied { IfOk result (λ r. IsBeginning r.1.copied.items r.0.posts.items) }
    ensures told { IfOk result (λ r. r.0.told ≡ flag r.1.failed) }
    ensures same { IfOk result (λ r. r.0.name ≡ journal.name) }
    ensures err { IfErr result (λ e. e.1 ≡ (journal, mirror)) }
{
    let (lock, passes) = TwinLock::new(alloc, journal, mirror, &[1, 2, 3, 4, 5, 6, 7, 8])?;
    let (left, right) = all_eight(passes);
    let pass = post_by_eight(rt, alloc, &lock, left, right, numbers);
    Ok(lock.close(pass))
}
