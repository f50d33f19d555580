//! Which entries take 24 bytes, and that all of them come back whatever their numbers.
use crate::compare::same;
use crate::history_tests::told;
use brief_entries::KeptEntry;
use graph_model::{Entry, Event, Refusal, Reply};
use heap_history::History;
use std::alloc::AllocError;
use std::process::Abort;
use std::test::Fail;

/// How many kinds of events have a session.
const OF_A_SESSION: usize = 12;

/// A session, a handle, a field and another number.
type Numbers = (u32, u64, u64, u64);

// Each kind of event, with these numbers.
fn events((s, h, i, n): Numbers) -> [Event; 16] {
    [
        Event::Begin { s },
        Event::Root { s, h },
        Event::New { s, h, len: n },
        Event::Put { s, h, i, v: n },
        Event::Clear { s, h, i },
        Event::Link { s, h, i, h2: 3 },
        Event::Drop { s, h },
        Event::Get { s, h, i, h2: 4 },
        Event::Same { s, h, h2: 5 },
        Event::Len { s, h },
        Event::Seal { s },
        Event::Abort { s },
        Event::Force,
        Event::Flip,
        Event::Scan,
        Event::Flush { p: n },
    ]
}

// Each kind of refusal, with that number.
fn refusals(n: u64) -> [Refusal; 14] {
    [
        Refusal::Failed { entry: n },
        Refusal::AlreadyActive,
        Refusal::NotActive,
        Refusal::NumbersSpent,
        Refusal::BadHandle,
        Refusal::Range,
        Refusal::BadField,
        Refusal::NoSuchPage,
        Refusal::Busy { holder: n },
        Refusal::VolatileFull { used: n },
        Refusal::Exhausted {
            need: n,
            free: 6,
            owed: 7,
        },
        Refusal::LogFull {
            used: n,
            need: 8,
            reserved: 9,
        },
        Refusal::DiskFault,
        Refusal::Stopped,
    ]
}

// Each kind of other reply, with that number.
fn replies(n: u64) -> [Reply; 18] {
    [
        Reply::Begun { n },
        Reply::Done,
        Reply::Null,
        Reply::Int { v: n },
        Reply::Reference,
        Reply::Yes,
        Reply::No,
        Reply::Length { n },
        Reply::Sealed { n },
        Reply::Aborted,
        Reply::Durable { n },
        Reply::Flipped {
            objects: n,
            words: 10,
        },
        Reply::Collecting,
        Reply::Scanned {
            page: n,
            objects: 11,
            words: 12,
        },
        Reply::Collected { used: n },
        Reply::Idle,
        Reply::Flushed { page: n },
        Reply::Clean { page: n },
    ]
}

type Answered = (Event, Reply);

/// Adds each kind of event with these numbers, all with one answer.
fn add_events(
    entries: &mut Vec<Answered>,
    numbers: Numbers,
    reply: Reply,
) -> Result<(), AllocError> {
    for event in events(numbers) {
        entries.push((event, reply))?;
    }
    Ok(())
}

/// Adds an event that was answered by each kind of reply but a refusal.
fn add_replies(entries: &mut Vec<Answered>, event: Event, n: u64) -> Result<(), AllocError> {
    for reply in replies(n) {
        entries.push((event, reply))?;
    }
    Ok(())
}

/// Adds an event that was refused for each kind of reason.
fn add_refusals(entries: &mut Vec<Answered>, event: Event, n: u64) -> Result<(), AllocError> {
    for why in refusals(n) {
        entries.push((event, Reply::Refused { why }))?;
    }
    Ok(())
}

const READ: Event = Event::Get {
    s: 1,
    h: 0,
    i: 0,
    h2: 0,
};

/// Events with these numbers, and a read that was answered in each way.
fn listed(rt: &(impl Abort + AllocGlobal), numbers: Numbers) -> Result<History, AllocError> {
    let mut entries = Vec::new(rt.alloc());
    add_events(&mut entries, numbers, Reply::Idle)?;
    add_replies(&mut entries, READ, numbers.3)?;
    add_refusals(&mut entries, READ, numbers.3)?;
    told(rt, &entries)
}

/// How many entries take the brief form.
fn brief(history: &History) -> usize {
    let mut count = 0usize;
    for entry in history.iter() {
        if KeptEntry::brief(&entry).is_some() {
            count = count.saturating_add(1);
        }
    }
    count
}

/// Numbers, and how many of the 48 entries with them take the brief form: all of them with the largest ordinary numbers. With one more
/// each but for the session, of the events 10 have a handle or a page, of the replies 9 a number that is not the one in a field, of the
/// refusals 5. Then one more for the session alone, and for the field alone, which 4 events have.
const BRIEF: [(Numbers, usize); 4] = [
    ((255, 255, 65_535, 4_294_967_295), 48),
    ((1, 256, 65_536, 4_294_967_296), 48 - 10 - 9 - 5),
    ((256, 0, 0, 0), 48 - OF_A_SESSION),
    ((1, 0, 65_536, 0), 48 - 4),
];

#[test]
fn ordinary_numbers_take_the_brief_form(rt: HostRuntime) -> Result<(), Fail> {
    for (numbers, want) in &BRIEF {
        let history = listed(&rt, *numbers)?;
        same(&rt, (history.len(), brief(&history)), (48, *want));
    }
    Ok(())
}

/// Replies, and whether the number that was put may be any with them.
const PUT: [(Reply, bool); 2] = [
    (Reply::Done, true),
    (
        Reply::Refused {
            why: Refusal::Range,
        },
        false,
    ),
];

#[test]
fn a_number_that_was_put_may_be_any(rt: HostRuntime) {
    let event = Event::Put {
        s: 1,
        h: 0,
        i: 0,
        v: u64::MAX,
    };
    for (reply, want) in &PUT {
        let entry = Entry {
            event,
            reply: *reply,
        };
        same(&rt, KeptEntry::brief(&entry).is_some(), *want);
    }
}

/// The entries come back in their order, from an iterator and by their places.
fn come_back(rt: &impl Abort, history: &History, entries: &[Answered]) {
    let mut found = history.iter();
    for (k, (event, reply)) in entries.iter().enumerate() {
        let want = Some(Entry {
            event: *event,
            reply: *reply,
        });
        same(rt, (found.next(), history.get(k)), (want, want));
    }
    same(rt, (found.next(), history.get(entries.len())), (None, None));
}

/// Entries come back where each of the first list is followed by one of the second: one list has ordinary numbers, the other large ones.
fn check_kept(
    rt: &(impl Abort + AllocGlobal),
    first: &[Answered],
    second: &[Answered],
) -> Result<(), AllocError> {
    same(rt, first.len(), second.len());
    let mut entries = Vec::new(rt.alloc());
    for (one, other) in first.iter().zip(second) {
        entries.push(*one)?;
        entries.push(*other)?;
    }
    come_back(rt, &told(rt, &entries)?, &entries);
    Ok(())
}

#[test]
fn events_come_back_in_their_order(rt: HostRuntime) -> Result<(), Fail> {
    let (mut ordinary, mut large) = (Vec::new(rt.alloc()), Vec::new(rt.alloc()));
    add_events(&mut ordinary, (1, 2, 3, 4), Reply::Done)?;
    let most = Reply::Int { v: u64::MAX };
    add_events(&mut large, (300, 301, 65_537, u64::MAX), most)?;
    Ok(check_kept(&rt, &ordinary, &large)?)
}

#[test]
fn replies_come_back_in_their_order(rt: HostRuntime) -> Result<(), Fail> {
    let (mut large, mut ordinary) = (Vec::new(rt.alloc()), Vec::new(rt.alloc()));
    add_replies(&mut large, Event::Force, u64::MAX)?;
    add_replies(&mut ordinary, Event::Force, 13)?;
    Ok(check_kept(&rt, &large, &ordinary)?)
}

#[test]
fn refusals_come_back_in_their_order(rt: HostRuntime) -> Result<(), Fail> {
    let (mut large, mut ordinary) = (Vec::new(rt.alloc()), Vec::new(rt.alloc()));
    add_refusals(&mut large, Event::Scan, u64::MAX)?;
    add_refusals(&mut ordinary, Event::Scan, 14)?;
    Ok(check_kept(&rt, &large, &ordinary)?)
}
