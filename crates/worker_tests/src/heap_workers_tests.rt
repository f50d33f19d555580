//! Workers over a caller that answers from a table, alone and in threads.
ghost use Rattle.std.specs.Prelude.{◌≡◌, ◌+◌};

use crossbeam_utils::Backoff;
use graph_model::{Entry, Event, Refusal, Reply};
use heap_workers::{Gate, HeapCalls, OpenGate, Station, Worker, work_all};
use std::alloc::{AllocError, Global};
use std::sync::Wait;
use std::sync::atomic::{AtomicU64, Ordering};
use std::test::Fail;

// How often a worker looks for the other one before it continues alone.
const LOOKS: u32 = 1_000_000;

// Answers from a table, and `done` after its end.
#[derive(Drop)]
struct Answers {
    replies: Vec<Reply>,
    sent: Vec<Entry>,
    asked: u64,
}

impl HeapCalls for Answers {
    ghost takes = { λ _ _. Unit {0} };

    ghost sent = { λ calls. calls.sent.items };

    ghost asked = { λ calls. calls.asked };

    ghost Origin = { Unit {0} };

    ghost origin = { λ _. tt };

    fn call<R: Wait>(&mut self, rt: &R, event: Event) -> Result<Reply, AllocError> {
        self.asked = one_more(rt, self.asked);
        let reply = match self.replies.get(self.sent.len()) {
            Some(reply) => *reply,
            None => Reply::Done,
        };
        self.sent.push(Entry { event, reply })?;
        Ok(reply)
    }
}

// The next number. At the last one it would wait for ever.
fn one_more<R: Wait>(rt: &R, number: u64) -> u64
    ensures { result ≡ number + 1 }
{
    for _ in rt.forever() {
        if let Some(next) = number.checked_add(1) {
            return next;
        }
    }
    unreachable!()
}

// A worker with events of its own session, that makes each twice at most.
fn station(
    alloc: Global,
    number: u32,
    events: Vec<Event>,
    replies: Vec<Reply>,
) -> Station<Answers> {
    Station {
        calls: Answers {
            replies,
            sent: Vec::new(alloc),
            asked: 0,
        },
        worker: Worker {
            number,
            tries: 2,
            events,
        },
        end: Ok(()),
    }
}

// Counts the turns of one worker, and those that do not come in the order 1, 2 and so on.
#[derive(Drop)]
struct Counts {
    last: AtomicU64,
    wrong: AtomicU64,
}

impl Gate for Counts {
    fn pass<R: Wait>(&self, _rt: &R, worker: u32, turn: u64) {
        let before = self.last.fetch_add(1, Ordering::SeqCst);
        if worker != 3 || Some(turn) != before.checked_add(1) {
            self.wrong.fetch_add(1, Ordering::SeqCst);
        }
    }
}

fn refused(why: Refusal) -> Reply {
    Reply::Refused { why }
}

#[test]
fn busy_events_are_made_again_and_a_failure_ends_all(rt: HostRuntime) -> Result<(), Fail> {
    let alloc = rt.alloc();
    let (begin, root) = (Event::Begin { s: 3 }, Event::Root { s: 3, h: 0 });
    let (seal, abort) = (Event::Seal { s: 3 }, Event::Abort { s: 3 });
    let busy = refused(Refusal::Busy { holder: 8 });
    let failed = refused(Refusal::Failed { entry: 9 });
    let events = vec![in alloc; begin, root, seal, Event::Force]?;
    let replies = vec![in alloc;
        busy,
        Reply::Begun { n: 9 },
        busy,
        busy,
        Reply::Aborted,
        failed,
    ]?;
    let sent = [
        (begin, busy),
        (begin, Reply::Begun { n: 9 }),
        (root, busy),
        (root, busy),
        (abort, Reply::Aborted),
        (seal, failed),
    ];
    let gate = Counts {
        last: AtomicU64::new(0),
        wrong: AtomicU64::new(0),
    };
    let mut station = station(alloc, 3, events, replies);
    station.work(&rt, &gate);
    assert!(rt; station.end.is_ok() && has(&station, &sent) && station.calls.asked == 6);
    // The gate was passed once for each event, and not for each try.
    assert!(rt; gate.last.into_inner() == 3 && gate.wrong.into_inner() == 0);
    Ok(())
}

// Whether these are the events that were sent, with these answers.
fn has(station: &Station<Answers>, sent: &[(Event, Reply)]) -> bool {
    station.calls.sent.len() == sent.len()
        && station.calls.sent.iter().zip(sent).all(|(entry, (event, reply))| entry.event == *event
            && entry.reply == *reply)
}

// Where the workers 1 and 2 meet: at turn 2 each waits for the other.
#[derive(Drop)]
struct Meeting {
    first: AtomicU64,
    second: AtomicU64,
    ran_out: AtomicU64,
}

impl Gate for Meeting {
    fn pass<R: Wait>(&self, _rt: &R, worker: u32, turn: u64) {
        if turn == 2 && worker == 1 {
            self.meet(&self.first, &self.second);
        }
        if turn == 2 && worker == 2 {
            self.meet(&self.second, &self.first);
        }
    }
}

impl Meeting {
    // Arrives, and looks for the other worker.
    fn meet(&self, own: &AtomicU64, other: &AtomicU64) {
        own.store(1, Ordering::SeqCst);
        let backoff = Backoff::new();
        for _ in 0..LOOKS {
            if other.load(Ordering::SeqCst) == 1 {
                return;
            }
            backoff.snooze();
        }
        self.ran_out.fetch_add(1, Ordering::SeqCst);
    }

    fn new() -> Meeting {
        Meeting {
            first: AtomicU64::new(0),
            second: AtomicU64::new(0),
            ran_out: AtomicU64::new(0),
        }
    }
}

// Two workers with two events each.
fn two_stations(alloc: Global) -> Result<Vec<Station<Answers>>, AllocError> {
    let mut stations = Vec::new(alloc);
    for s in 1..3 {
        let events = vec![in alloc; Event::Begin { s }, Event::Seal { s }]?;
        stations.push(station(alloc, s, events, Vec::new(alloc)))?;
    }
    Ok(stations)
}

#[test]
fn two_workers_meet_in_threads(rt: HostRuntime) -> Result<(), Fail> {
    let mut stations = two_stations(rt.alloc())?;
    let gate = Meeting::new();
    work_all(&rt, stations.as_mut_slice(), &gate);
    assert!(rt; gate.ran_out.into_inner() == 0);
    assert!(rt; gate.first.into_inner() == 1 && gate.second.into_inner() == 1);
    assert!(rt;
        stations.iter().all(|station| station.end.is_ok() && station.calls.sent.len() == 2)
    );
    Ok(())
}

// Run one after the other they do not meet: the first waits in vain.
#[test]
fn two_workers_in_turn_do_not_meet(rt: HostRuntime) -> Result<(), Fail> {
    let mut stations = two_stations(rt.alloc())?;
    let gate = Meeting::new();
    for station in stations.iter_mut() {
        station.work(&rt, &gate);
    }
    assert!(rt; gate.ran_out.into_inner() == 1);
    Ok(())
}
