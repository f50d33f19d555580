//! Four threads move money between the accounts of a bank, beside a collector and a flusher. The total of the accounts never changes.
ghost use Rattle.std.specs.Prelude.{◌≡◌, ◌<◌, ℕ, All, length, slice_index_or};
ghost use Rattle.graph_model.specs.History.{IsOfSession, IsSession};
ghost use Rattle.shared_heap.specs.Shared.{IsPass, MaySend};
ghost use Rattle.turn_lock.specs.Passes.{label_of, pass_numbers};

use disk_model::Disk;
use graph_model::{Event, FIRST_SESSION, LAST_SESSION, Refusal, Reply};
use heap_core::Heap;
use shared_heap::{Pass, SharedHeap};
use std::alloc::{AllocError, Global};
use std::sync::Wait;
use std::thread;
use std::thread::Threads;

/// The labels of the threads' passes: four sessions, the collector, and one above all sessions, which may only force.
const LABELS: [u32; 6] = [1, 2, 3, 4, COLLECTOR, 33];

const COLLECTOR: u32 = 0;

/// Field N of the root refers to account N, and handle N holds it. The root is held by the next handle.
const ACCOUNTS: u64 = 4;

const ROOT: u64 = ACCOUNTS;

/// The fields of an account: its balance, and the session that wrote it last.
const MONEY: u64 = 0;

const WRITER: u64 = 1;

/// What an account has at first, and what a transfer moves.
const AT_FIRST: u64 = 100;

const AMOUNT: u64 = 40;

/// How many transfers a session makes, and how many steps the collector and the flusher.
const TRANSFERS: u64 = 25;

const STEPS: u64 = 200;

/// How often an event is made while it is answered busy.
const TRIES: u64 = 100_000;

/// Makes an event, again while it is busy. `None` if it was refused, or memory ran out.
fn ask<D: Disk, R: Wait>(
    rt: &R,
    shared: &SharedHeap<D>,
    pass: &mut Pass<D>,
    event: Event,
) -> Option<Reply>
    requires { IsPass shared.now pass.old × MaySend (label_of pass.old) event }
    ensures { IsPass shared.now pass.new × (label_of pass.new ≡ label_of pass.old) × (pass_numbers pass.new ≡ pass_numbers pass.old) }
{
    for _ in 0..TRIES {
        match shared.call(rt, pass, event).ok()? {
            Reply::Refused {
                why: Refusal::Busy { .. },
            } => thread::yield_now(),
            Reply::Refused { .. } => return None,
            reply => return Some(reply),
        }
    }
    None
}

/// Holds an account, and locks it by a write. Two sessions that only read it first would conflict when they write.
fn hold<D: Disk, R: Wait>(
    rt: &R,
    shared: &SharedHeap<D>,
    pass: &mut Pass<D>,
    account: u64,
) -> Option<Reply>
    requires { IsPass shared.now pass.old × IsSession (label_of pass.old) }
    ensures { IsPass shared.now pass.new × (label_of pass.new ≡ label_of pass.old) × (pass_numbers pass.new ≡ pass_numbers pass.old) }
{
    let s = pass.label();
    let (h, i, h2) = (ROOT, account, account);
    ask(rt, shared, pass, Event::Get { s, h, i, h2 })?;
    let (h, i, v) = (account, WRITER, u64::from(s));
    ask(rt, shared, pass, Event::Put { s, h, i, v })
}

/// Begins a transaction that holds two accounts. All sessions lock them in ascending order, so there is no deadlock.
fn hold_both<D: Disk, R: Wait>(
    rt: &R,
    shared: &SharedHeap<D>,
    pass: &mut Pass<D>,
    from: u64,
    to: u64,
) -> Option<Reply>
    requires { IsPass shared.now pass.old × IsSession (label_of pass.old) }
    ensures { IsPass shared.now pass.new × (label_of pass.new ≡ label_of pass.old) × (pass_numbers pass.new ≡ pass_numbers pass.old) }
{
    let s = pass.label();
    ask(rt, shared, pass, Event::Begin { s })?;
    ask(rt, shared, pass, Event::Root { s, h: ROOT })?;
    hold(rt, shared, pass, from.min(to))?;
    hold(rt, shared, pass, from.max(to))
}

/// The balance of an account that is held.
fn money<D: Disk, R: Wait>(
    rt: &R,
    shared: &SharedHeap<D>,
    pass: &mut Pass<D>,
    account: u64,
) -> Option<u64>
    requires { IsPass shared.now pass.old × IsSession (label_of pass.old) }
    ensures { IsPass shared.now pass.new × (label_of pass.new ≡ label_of pass.old) × (pass_numbers pass.new ≡ pass_numbers pass.old) }
{
    let (s, h, i, h2) = (pass.label(), account, MONEY, account);
    match ask(rt, shared, pass, Event::Get { s, h, i, h2 })? {
        Reply::Int { v } => Some(v),
        _ => None,
    }
}

/// Moves money between accounts. `None` if an event was refused or the balance is too small: then the transaction is to be aborted.
fn transfer<D: Disk, R: Wait>(
    rt: &R,
    shared: &SharedHeap<D>,
    pass: &mut Pass<D>,
    from: u64,
    to: u64,
) -> Option<Reply>
    requires { IsPass shared.now pass.old × IsSession (label_of pass.old) }
    ensures { IsPass shared.now pass.new × (label_of pass.new ≡ label_of pass.old) × (pass_numbers pass.new ≡ pass_numbers pass.old) }
{
    let (s, i) = (pass.label(), MONEY);
    hold_both(rt, shared, pass, from, to)?;
    let (h, v) = (from, money(rt, shared, pass, from)?.checked_sub(AMOUNT)?);
    ask(rt, shared, pass, Event::Put { s, h, i, v })?;
    let (h, v) = (to, money(rt, shared, pass, to)?.checked_add(AMOUNT)?);
    ask(rt, shared, pass, Event::Put { s, h, i, v })?;
    ask(rt, shared, pass, Event::Seal { s })
}

/// A session makes its transfers. One that is aborted leaves nothing.
fn move_money<D: Disk, R: Wait>(rt: &R, shared: &SharedHeap<D>, pass: &mut Pass<D>)
    requires { IsPass shared.now pass.old × IsSession (label_of pass.old) }
    ensures { IsPass shared.now pass.new × (pass_numbers pass.new ≡ pass_numbers pass.old) }
{
    let s = pass.label();
    for n in 0..TRANSFERS {
        let from = n % ACCOUNTS;
        let to = (from + 1 + u64::from(s) % 3) % ACCOUNTS;
        if transfer(rt, shared, pass, from, to).is_none() {
            ask(rt, shared, pass, Event::Abort { s });
        }
    }
}

/// Scans, and begins a collection if none runs.
fn collect<D: Disk, R: Wait>(rt: &R, shared: &SharedHeap<D>, pass: &mut Pass<D>)
    requires { IsPass shared.now pass.old × (label_of pass.old ≡ 0) }
    ensures { IsPass shared.now pass.new × (pass_numbers pass.new ≡ pass_numbers pass.old) }
{
    for _ in 0..STEPS {
        if let Some(Reply::Idle) = ask(rt, shared, pass, Event::Scan) {
            ask(rt, shared, pass, Event::Flip);
        }
    }
}

/// Forces what was sealed so far, again and again.
fn force<D: Disk, R: Wait>(rt: &R, shared: &SharedHeap<D>, pass: &mut Pass<D>)
    requires { IsPass shared.now pass.old }
    ensures { IsPass shared.now pass.new × (pass_numbers pass.new ≡ pass_numbers pass.old) }
{
    for _ in 0..STEPS {
        ask(rt, shared, pass, Event::Force);
    }
}

/// What a thread does, by the label of its pass.
fn work<D: Disk, R: Wait>(rt: &R, shared: &SharedHeap<D>, pass: &mut Pass<D>)
    requires { IsPass shared.now pass.old }
    ensures { IsPass shared.now pass.new × (pass_numbers pass.new ≡ pass_numbers pass.old) }
{
    match pass.label() {
        COLLECTOR => collect(rt, shared, pass),
        FIRST_SESSION..=LAST_SESSION => move_money(rt, shared, pass),
        _ => force(rt, shared, pass),
    }
}

/// Each pass gets a thread, if one can be started.
fn work_each<D: Disk + Send, R: Threads + Wait + Sync>(
    rt: &R,
    shared: &SharedHeap<D>,
    passes: &mut [Pass<D>],
)
    requires { All (IsPass shared.now) passes.old }
    ensures { (i : ℕ) (d : _) → i < length passes.old → IsPass shared.now (slice_index_or passes.new i d) × (pass_numbers (slice_index_or passes.new i d) ≡ pass_numbers (slice_index_or passes.old i d)) }
{
    thread::for_each_mut(rt, passes, LABELS.len(), &|_, pass| work(rt, shared, pass));
}

/// Six threads share a heap. It comes back when all have ended, or if memory ran out.
pub fn work_beside<D: Disk + Send, R: Threads + Wait + Sync>(
    rt: &R,
    alloc: Global,
    heap: Heap<D>,
) -> Result<Heap<D>, (AllocError, Heap<D>)> {
    let (shared, mut passes) = SharedHeap::new(alloc, heap, &LABELS)?;
    work_each(rt, &shared, passes.as_mut_slice());
    Ok(shared.close(passes))
}

/// Makes an event on a heap that nobody shares. `None` if it was refused, or memory ran out.
fn make<D: Disk>(heap: &mut Heap<D>, event: Event) -> Option<Reply>
    requires { IsOfSession event }
{
    match heap.step(event).ok()? {
        Reply::Refused { .. } => None,
        reply => Some(reply),
    }
}

/// Makes the accounts in an empty heap.
pub fn open_accounts<D: Disk>(heap: &mut Heap<D>) -> Option<Reply> {
    let (s, v) = (FIRST_SESSION, AT_FIRST);
    make(heap, Event::Begin { s })?;
    make(heap, Event::Root { s, h: ROOT })?;
    for account in 0..ACCOUNTS {
        let (h, i) = (account, MONEY);
        make(heap, Event::New { s, h, len: 2 })?;
        make(heap, Event::Put { s, h, i, v })?;
        let (h, i, h2) = (ROOT, account, account);
        make(heap, Event::Link { s, h, i, h2 })?;
    }
    make(heap, Event::Seal { s })
}

/// The balance of an account, in a transaction that holds the root.
fn balance<D: Disk>(heap: &mut Heap<D>, account: u64) -> Option<u64> {
    let (s, h, i, h2) = (FIRST_SESSION, ROOT, account, account);
    make(heap, Event::Get { s, h, i, h2 })?;
    let (h, i) = (account, MONEY);
    match make(heap, Event::Get { s, h, i, h2 })? {
        Reply::Int { v } => Some(v),
        _ => None,
    }
}

/// The total of all balances, read in one transaction.
pub fn audit<D: Disk>(heap: &mut Heap<D>) -> Option<u64> {
    let s = FIRST_SESSION;
    make(heap, Event::Begin { s })?;
    make(heap, Event::Root { s, h: ROOT })?;
    let mut sum = 0u64;
    for account in 0..ACCOUNTS {
        sum = sum.checked_add(balance(heap, account)?)?;
    }
    make(heap, Event::Abort { s })?;
    Some(sum)
}
