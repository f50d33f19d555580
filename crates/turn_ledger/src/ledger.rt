//! The ledger, and threads that post to it.
ghost use Rattle.std.specs.Prelude.{◌≡◌, ℕ, ◌+◌, ◌%◌, ◌^◌, ◌<◌, ◌≤◌, ◌++◌, [], ◌∷◌, length, take, drop, IfOk, IfErr, MatchBool, Some, slice_get, vec_len};
ghost use Rattle.turn_ledger.specs.Merged.{IsMerge};
ghost use Rattle.turn_lock.specs.Merging.{entries_of, Rise};
ghost use Rattle.turn_lock.specs.Passes.{first_of, pass_numbers, seen_of, mine_of, IsPassOf, IsResting};

use std::alloc::{AllocError, Global};
use std::sync::Wait;
use std::thread::{Threads, join};
use turn_lock::{Pass, TurnLock, Turns};

/// Numbers in the order in which they were posted.
#[derive(Drop)]
pub struct Ledger {
    /// Which ledger it is.
    pub name: u64,
    /// All posts.
    pub posts: Vec<u64>,
    /// How many posts there were when it was shared.
    pub before: usize,
    /// How many posts failed for lack of memory, modulo 2^64.
    pub refused: u64,
}

impl Turns for Ledger {
    type Entry = u64;

    ghost entries = { λ l. l.posts.items };

    ghost stood = { λ l. l.before };

    ghost front = { λ number. number };

    ghost empty_turns = { λ l. l.refused };

    ghost follows = { λ first l. l.name ≡ first.name };
}

impl Ledger {
    /// A ledger with no posts.
    pub fn new(alloc: Global, name: u64) -> Ledger
        ensures name { result.name ≡ name }
        ensures empty { (result.posts.items ≡ []) × (result.before ≡ 0) × (result.refused ≡ 0) }
    {
        Ledger {
            name,
            posts: Vec::new(alloc),
            before: 0,
            refused: 0,
        }
    }

    /// Posts a number, or counts that memory ran out.
    pub fn post(&mut self, number: u64) -> bool
        ensures posted { MatchBool result ((self.new.posts.items ≡ self.old.posts.items ++ number ∷ []) × (self.new.refused ≡ self.old.refused)) ((self.new.posts.items ≡ self.old.posts.items) × (self.new.refused ≡ (self.old.refused + 1) % 2 ^ 64)) }
        ensures same { (self.new.before ≡ self.old.before) × (self.new.name ≡ self.old.name) }
    {
        if self.posts.push(number).is_ok() {
            return true;
        }
        self.refused = self.refused.wrapping_add(1);
        false
    }
}

/// Posts a number in a turn of its own, or makes an empty turn if memory runs out.
pub fn post_one<R: Wait>(
    rt: &R,
    lock: &TurnLock<Ledger>,
    pass: &mut Pass<Ledger>,
    number: u64,
) -> bool
    requires pass { IsPassOf lock.now pass.old × IsResting pass.old }
    requires rise { Rise (first_of lock.now).before (mine_of pass.old) × ((first_of lock.now).before ≤ length (seen_of pass.old)) }
    ensures pass { IsPassOf lock.now pass.new × IsResting pass.new × (pass_numbers pass.new ≡ pass_numbers pass.old) }
    ensures posted { MatchBool result (entries_of (mine_of pass.new) ≡ entries_of (mine_of pass.old) ++ number ∷ []) (entries_of (mine_of pass.new) ≡ entries_of (mine_of pass.old)) }
    ensures rise { Rise (first_of lock.now).before (mine_of pass.new) × ((first_of lock.now).before ≤ length (seen_of pass.new)) }
{
    let mut held = lock.hold(rt, pass);
    if held.value.post(number) {
        lock.give(pass, held, number);
        true
    } else {
        lock.give(pass, held, 0);
        false
    }
}

/// Posts numbers, one a turn, until memory runs out, and returns how many it posted.
pub fn post_all<R: Wait>(
    rt: &R,
    lock: &TurnLock<Ledger>,
    mut pass: Pass<Ledger>,
    numbers: &[u64],
) -> (Pass<Ledger>, usize)
    requires pass { IsPassOf lock.now pass × IsResting pass }
    requires new { (mine_of pass ≡ []) × ((first_of lock.now).before ≤ length (seen_of pass)) }
    ensures pass { IsPassOf lock.now result.0 × IsResting result.0 × (pass_numbers result.0 ≡ pass_numbers pass) }
    ensures posted { entries_of (mine_of result.0) ≡ take result.1 numbers.now }
    ensures rise { Rise (first_of lock.now).before (mine_of result.0) × ((first_of lock.now).before ≤ length (seen_of result.0)) }
{
    for (posted, number) in numbers.iter().enumerate() {
        if !post_one(rt, lock, &mut pass, *number) {
            return (pass, posted);
        }
    }
    (pass, numbers.len())
}

// The two passes of a list.
pub fn both(mut passes: Vec<Pass<Ledger>>) -> (Pass<Ledger>, Pass<Ledger>)
    requires { vec_len passes ≡ 2 }
    ensures first { slice_get passes.items 0 ≡ Some result.0 }
    ensures second { slice_get passes.items 1 ≡ Some result.1 }
{
    let two = passes.pop().unwrap();
    let one = passes.pop().unwrap();
    (one, two)
}

/// Two threads post to one ledger. After what it had, it then has the posts of both, each once and in their order.
pub fn post_two<R: Threads + Wait + Sync>(
    rt: &R,
    alloc: Global,
    ledger: Ledger,
    first: &[u64],
    second: &[u64],
) -> Result<(Ledger, usize, usize), (AllocError, Ledger)>
    requires { (ledger.before ≡ length ledger.posts.items) × (ledger.refused ≡ 0) }
    ensures posts { IfOk result (λ r. IsMerge (take r.1 first.now) (take r.2 second.now) (drop ledger.before r.0.posts.items)) }
    ensures same { IfOk result (λ r. r.0.name ≡ ledger.name) }
    ensures err { IfErr result (λ e. e.1 ≡ ledger) }
{
    let (lock, passes) = TurnLock::new(alloc, ledger, &[1, 2])?;
    let (one, two) = both(passes);
    let ((mut one, first_posts), (two, second_posts)) = join(
        rt,
        || -> (Pass<Ledger>, usize)
            requires pass { IsPassOf lock one × IsResting one × (pass_numbers one ≡ 0 ∷ []) }
            requires new { (mine_of one ≡ []) × ((first_of lock).before ≤ length (seen_of one)) }
            ensures pass { IsPassOf lock result.0 × IsResting result.0 × (pass_numbers result.0 ≡ 0 ∷ []) }
            ensures posted { entries_of (mine_of result.0) ≡ take result.1 first.entry.now }
            ensures rise { Rise (first_of lock).before (mine_of result.0) × ((first_of lock).before ≤ length (seen_of result.0)) }
        { post_all(rt, &lock, one, first) },
        || -> (Pass<Ledger>, usize)
            requires pass { IsPassOf lock two × IsResting two × (pass_numbers two ≡ 1 ∷ []) }
            requires new { (mine_of two ≡ []) × ((first_of lock).before ≤ length (seen_of two)) }
            ensures pass { IsPassOf lock result.0 × IsResting result.0 × (pass_numbers result.0 ≡ 1 ∷ []) }
            ensures posted { entries_of (mine_of result.0) ≡ take result.1 second.entry.now }
            ensures rise { Rise (first_of lock).before (mine_of result.0) × ((first_of lock).before ≤ length (seen_of result.0)) }
        { post_all(rt, &lock, two, second) },
    );
    lock.join(&mut one, two);
    Ok((lock.close(one), first_posts, second_posts))
}

/// Two threads post, and their passes become one.
fn post_beside<R: Threads + Wait + Sync>(
    rt: &R,
    lock: &TurnLock<Ledger>,
    one: Pass<Ledger>,
    two: Pass<Ledger>,
    first: &[u64],
    second: &[u64],
) -> Pass<Ledger>
    requires one { IsPassOf lock.now one × IsResting one }
    requires new_one { (mine_of one ≡ []) × ((first_of lock.now).before ≤ length (seen_of one)) }
    requires two { IsPassOf lock.now two × IsResting two }
    requires new_two { (mine_of two ≡ []) × ((first_of lock.now).before ≤ length (seen_of two)) }
    ensures pass { IsPassOf lock.now result × IsResting result }
    ensures numbers { pass_numbers result ≡ pass_numbers one ++ pass_numbers two }
{
    let (mut one, two) = join(
        rt,
        || -> Pass<Ledger>
            requires pass { IsPassOf lock.now one × IsResting one }
            requires new { (mine_of one ≡ []) × ((first_of lock.now).before ≤ length (seen_of one)) }
            ensures { IsPassOf lock.entry.now result × IsResting result × (pass_numbers result ≡ pass_numbers one) }
        { post_all(rt, lock, one, first).0 },
        || -> Pass<Ledger>
            requires pass { IsPassOf lock.now two × IsResting two }
            requires new { (mine_of two ≡ []) × ((first_of lock.now).before ≤ length (seen_of two)) }
            ensures { IsPassOf lock.entry.now result × IsResting result × (pass_numbers result ≡ pass_numbers two) }
        { post_all(rt, lock, two, second).0 },
    );
    lock.join(&mut one, two);
    one
}

// The four passes of a list.
fn all_four(
    mut passes: Vec<Pass<Ledger>>,
) -> ((Pass<Ledger>, Pass<Ledger>), (Pass<Ledger>, Pass<Ledger>))
    requires { vec_len passes ≡ 4 }
    ensures first { (slice_get passes.items 0 ≡ Some result.0.0) × (slice_get passes.items 1 ≡ Some result.0.1) }
    ensures second { (slice_get passes.items 2 ≡ Some result.1.0) × (slice_get passes.items 3 ≡ Some result.1.1) }
{
    let four = passes.pop().unwrap();
    let three = passes.pop().unwrap();
    (both(passes), (three, four))
}

/// Four threads post to one ledger.
pub fn post_four<R: Threads + Wait + Sync>(
    rt: &R,
    alloc: Global,
    ledger: Ledger,
    numbers: ((&[u64], &[u64]), (&[u64], &[u64])),
) -> Result<Ledger, (AllocError, Ledger)>
    requires { (ledger.before ≡ length ledger.posts.items) × (ledger.refused ≡ 0) }
{
    let (lock, passes) = TurnLock::new(alloc, ledger, &[1, 2, 3, 4])?;
    let ((one, two), (three, four)) = all_four(passes);
    let ((a, b), (c, d)) = numbers;
    let (mut left, right) = join(
        rt,
        || -> Pass<Ledger>
            requires one { IsPassOf lock one × IsResting one }
            requires new_one { (mine_of one ≡ []) × ((first_of lock).before ≤ length (seen_of one)) }
            requires two { IsPassOf lock two × IsResting two }
            requires new_two { (mine_of two ≡ []) × ((first_of lock).before ≤ length (seen_of two)) }
            requires numbers { pass_numbers one ++ pass_numbers two ≡ 0 ∷ 1 ∷ [] }
            ensures { IsPassOf lock result × IsResting result × (pass_numbers result ≡ 0 ∷ 1 ∷ []) }
        { post_beside(rt, &lock, one, two, a, b) },
        || -> Pass<Ledger>
            requires one { IsPassOf lock three × IsResting three }
            requires new_one { (mine_of three ≡ []) × ((first_of lock).before ≤ length (seen_of three)) }
            requires two { IsPassOf lock four × IsResting four }
            requires new_two { (mine_of four ≡ []) × ((first_of lock).before ≤ length (seen_of four)) }
            requires numbers { pass_numbers three ++ pass_numbers four ≡ 2 ∷ 3 ∷ [] }
            ensures { IsPassOf lock result × IsResting result × (pass_numbers result ≡ 2 ∷ 3 ∷ []) }
        { post_beside(rt, &lock, three, four, c, d) },
    );
    lock.join(&mut left, right);
    Ok(lock.close(left))
}
