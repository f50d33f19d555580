//! Times the events of sessions in threads that share one heap in a file, alone and with a flusher, in one run.
#![tactic(auto)]

ghost use Rattle.std.specs.Prelude.{◌≡◌, ◌<◌, ◌≤◌, All, length};
ghost use Rattle.graph_model.specs.History.{IsOfSession, IsSession};
ghost use Rattle.shared_heap.specs.Shared.{IsPass, MaySend};
ghost use Rattle.turn_lock.specs.Passes.{label_of};

use anyhow::{Error, anyhow, bail};
use disk_file::FileDisk;
use disk_model::Disk;
use graph_model::{Event, FIRST_SESSION, LAST_SESSION, Reply};
use heap_core::Heap;
use shared_heap::{Pass, SharedHeap};
use std::alloc::{AllocError, Global};
use std::sync::Wait;
use std::sync::atomic::{AtomicU64, Ordering};
use std::thread::Threads;
use std::time::{Clock, Duration, Instant};
use std::{env, thread};

// The labels of the passes: the flusher's, which may only force, and those of four sessions.
const LABELS: [u32; 5] = [33, 1, 2, 3, 4];

// How many objects there are, one for each session, and the handles that hold the root and a session's object.
const OBJECTS: u64 = 4;

const ROOT: u64 = 0;

const OBJECT: u64 = 1;

// How many reads or writes a transaction makes, besides its begin, its seal and the two calls that reach its object.
const CALLS: u64 = 96;

// The log's size, and so how many writes have room.
const LOG_BYTES: u32 = 16_777_216;

// How many milliseconds the flusher waits between two forces.
const PAUSE: u64 = 5;

// How often each is timed, alternately.
const ROUNDS: u32 = 3;

// What is timed: a number of sessions, each of which makes a number of transactions of reads or of writes.
#[derive(Clone, Copy)]
struct Job {
    sessions: usize,
    transactions: u64,
    writes: bool,
    ghost some: { 0 < sessions },
    ghost few: { sessions ≤ 4 },
}

// How many sessions are not done, and how many transactions were sealed.
#[derive(Drop)]
struct Counts {
    running: AtomicU64,
    sealed: AtomicU64,
}

// Makes an event. `None` if it was refused, or memory ran out.
fn ask<D: Disk, R: Wait>(
    rt: &R,
    shared: &SharedHeap<D>,
    pass: &mut Pass<D>,
    event: Event,
) -> Option<Reply>
    requires { IsPass shared.now pass.old × MaySend (label_of pass.old) event }
    ensures { IsPass shared.now pass.new × (label_of pass.new ≡ label_of pass.old) }
{
    match shared.call(rt, pass, event).ok()? {
        Reply::Refused { .. } => None,
        reply => Some(reply),
    }
}

// Begins a transaction that holds its session's object.
fn begin<D: Disk, R: Wait>(rt: &R, shared: &SharedHeap<D>, pass: &mut Pass<D>) -> Option<Reply>
    requires { IsPass shared.now pass.old × IsSession (label_of pass.old) }
    ensures { IsPass shared.now pass.new × (label_of pass.new ≡ label_of pass.old) }
{
    let s = pass.label();
    let (h, i, h2) = (ROOT, u64::from(s) - 1, OBJECT);
    ask(rt, shared, pass, Event::Begin { s })?;
    ask(rt, shared, pass, Event::Root { s, h })?;
    ask(rt, shared, pass, Event::Get { s, h, i, h2 })
}

// One transaction, of reads or of writes of one object.
fn transact<D: Disk, R: Wait>(
    rt: &R,
    shared: &SharedHeap<D>,
    pass: &mut Pass<D>,
    writes: bool,
) -> Option<Reply>
    requires { IsPass shared.now pass.old × IsSession (label_of pass.old) }
    ensures { IsPass shared.now pass.new × (label_of pass.new ≡ label_of pass.old) }
{
    let (s, h, i, h2) = (pass.label(), OBJECT, 0, OBJECT);
    begin(rt, shared, pass)?;
    for v in 0..CALLS {
        if writes {
            ask(rt, shared, pass, Event::Put { s, h, i, v })?;
        } else {
            ask(rt, shared, pass, Event::Get { s, h, i, h2 })?;
        }
    }
    ask(rt, shared, pass, Event::Seal { s })
}

// Forces now and then until no session runs.
fn force<D: Disk, R: Wait + Clock>(
    rt: &R,
    shared: &SharedHeap<D>,
    pass: &mut Pass<D>,
    running: &AtomicU64,
)
    requires { IsPass shared.now pass.old }
{
    for _ in rt.forever() {
        if running.load(Ordering::SeqCst) == 0 {
            return;
        }
        ask(rt, shared, pass, Event::Force);
        thread::sleep(rt, Duration::from_millis(PAUSE));
    }
}

// A session makes its transactions, and counts those that were sealed.
fn play<D: Disk, R: Wait>(
    rt: &R,
    shared: &SharedHeap<D>,
    pass: &mut Pass<D>,
    job: Job,
    sealed: &AtomicU64,
)
    requires { IsPass shared.now pass.old × IsSession (label_of pass.old) }
{
    for _ in 0..job.transactions {
        if transact(rt, shared, pass, job.writes).is_some() {
            sealed.fetch_add(1, Ordering::SeqCst);
        }
    }
}

// What a thread does, by the label of its pass.
fn work<D: Disk, R: Wait + Clock>(
    rt: &R,
    shared: &SharedHeap<D>,
    pass: &mut Pass<D>,
    job: Job,
    counts: &Counts,
)
    requires { IsPass shared.now pass.old }
{
    match pass.label() {
        FIRST_SESSION..=LAST_SESSION => {
            play(rt, shared, pass, job, &counts.sealed);
            counts.running.fetch_sub(1, Ordering::SeqCst);
        }
        _ => force(rt, shared, pass, &counts.running),
    }
}

// Each pass gets a thread, if one can be started.
fn work_each<D: Disk + Send, R: Threads + Wait + Clock + Sync>(
    rt: &R,
    shared: &SharedHeap<D>,
    passes: &mut [Pass<D>],
    job: Job,
    counts: &Counts,
)
    requires { All (IsPass shared.now) passes.old }
{
    thread::for_each_mut(
        rt,
        passes,
        LABELS.len(),
        &|_, pass| work(rt, shared, pass, job, counts),
    );
}

// How long the threads take.
fn time_each<D: Disk + Send, R: Threads + Wait + Clock + Sync>(
    rt: &R,
    shared: &SharedHeap<D>,
    passes: &mut [Pass<D>],
    job: Job,
) -> Result<Duration, Error>
    requires { All (IsPass shared.now) passes.old }
{
    let counts = Counts {
        running: AtomicU64::new(job.sessions as u64),
        sealed: AtomicU64::new(0),
    };
    let start = Instant::now(rt)?;
    work_each(rt, shared, passes, job, &counts);
    let took = start.elapsed(rt)?;
    if counts.sealed.into_inner() != job.transactions.saturating_mul(job.sessions as u64) {
        bail!("an event was refused");
    }
    Ok(took)
}

// Shares the heap among threads, and times them.
fn time<D: Disk + Drop + Send, R: Threads + Wait + Clock + Sync>(
    rt: &R,
    alloc: Global,
    heap: Heap<D>,
    labels: &[u32],
    job: Job,
) -> Result<Result<Duration, Error>, (AllocError, Heap<D>)>
    requires { 0 < length labels.now }
{
    let (shared, mut passes) = SharedHeap::new(alloc, heap, labels)?;
    Ok(time_each(rt, &shared, passes.as_mut_slice(), job))
}

// Makes an event on a heap that is not shared.
fn make<D: Disk>(heap: &mut Heap<D>, event: Event) -> Option<Reply>
    requires { IsOfSession event }
{
    match heap.step(event).ok()? {
        Reply::Refused { .. } => None,
        reply => Some(reply),
    }
}

// Makes an object for each session.
fn make_objects<D: Disk>(heap: &mut Heap<D>) -> Option<Reply> {
    let (s, h2) = (FIRST_SESSION, OBJECT);
    make(heap, Event::Begin { s })?;
    make(heap, Event::Root { s, h: ROOT })?;
    for i in 0..OBJECTS {
        let h = ROOT;
        make(heap, Event::New { s, h: h2, len: 1 })?;
        make(heap, Event::Link { s, h, i, h2 })?;
    }
    make(heap, Event::Seal { s })
}

// A new heap of one page in the file, with its objects.
fn make_heap<'a>(
    host: &'a HostRuntime,
    alloc: Global,
    path: &str,
) -> Result<Heap<FileDisk<&'a HostRuntime>>, Error> {
    let disk = FileDisk::new(host, String::from_str(alloc, path)?);
    let disk = Heap::format(disk, 1, LOG_BYTES, 1).map_err(|e| e.0)?;
    let mut heap = Heap::open(alloc, disk).map_err(|e| e.0)?;
    make_objects(&mut heap).ok_or(anyhow!("the objects were refused"))?;
    Ok(heap)
}

// How long the sessions take in one round, on a new heap, alone or with the flusher. Threads are started by `rt`, and the file is
// `host`'s.
fn one_round<R: Threads + Wait + Clock + Sync>(
    rt: &R,
    host: &HostRuntime,
    alloc: Global,
    path: &str,
    job: Job,
    flusher: bool,
) -> Result<Duration, Error> {
    let heap = make_heap(host, alloc, path)?;
    let first = if flusher { 0 } else { 1 };
    match time(rt, alloc, heap, &LABELS[first..=job.sessions], job) {
        Ok(took) => took,
        Err((refused, _heap)) => Err(refused.into()),
    }
}

// The time of all rounds, alone and with the flusher.
fn measure<R: Threads + Wait + Clock + Sync>(
    rt: &R,
    host: &HostRuntime,
    alloc: Global,
    path: &str,
    job: Job,
) -> Result<(Duration, Duration), Error> {
    let mut alone = Duration::ZERO;
    let mut beside = Duration::ZERO;
    for _ in 0..ROUNDS {
        alone = alone.saturating_add(one_round(rt, host, alloc, path, job, false)?);
        beside = beside.saturating_add(one_round(rt, host, alloc, path, job, true)?);
    }
    Ok((alone, beside))
}

// Events a second.
fn rate(time: Duration, events: u64) -> u64 {
    let micros = u64::try_from(time.as_micros()).unwrap_or(u64::MAX);
    if micros == 0 {
        return 0;
    }
    events.saturating_mul(1_000_000) / micros
}

// One number as a percentage of another.
fn percent(part: u64, whole: u64) -> u64 {
    if whole == 0 {
        return 0;
    }
    part.saturating_mul(100) / whole
}

// Times a job, and prints events a second.
fn report<R: Threads + Wait + Clock + Sync>(
    rt: &R,
    host: &HostRuntime,
    alloc: Global,
    path: &str,
    job: Job,
) -> Result<(), Error> {
    let (alone, beside) = measure(rt, host, alloc, path, job)?;
    let events = (u64::from(ROUNDS) * (CALLS + 4))
        .saturating_mul(job.sessions as u64)
        .saturating_mul(job.transactions);
    let (alone, beside) = (rate(alone, events), rate(beside, events));
    let of = percent(beside, alone);
    let kind = if job.writes { "writes" } else { "reads" };
    let sessions = job.sessions;
    println!(host;
        "{kind} of {sessions} sessions: {alone} events a second, {beside} beside a flusher, {of} %"
    )?;
    Ok(())
}

fn main(rt: HostRuntime) -> Result<(), Error> {
    let alloc = rt.alloc();
    let words: Vec<String> = env::args(&rt)?.collect(alloc)?;
    let [_, transactions, path] = words.as_slice() else {
        println!(rt; "event_bench TRANSACTIONS FILE: events a second on a new heap in FILE")?;
        return Ok(());
    };
    let transactions = u64::from(transactions.parse::<u32>()?);
    for writes in [false, true] {
        for sessions in [1usize, 2, 4] {
            let job = Job {
                sessions,
                transactions,
                writes,
            };
            report(&rt, &rt, alloc, path, job)?;
        }
    }
    Ok(())
}
