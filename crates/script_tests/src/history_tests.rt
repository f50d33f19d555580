//! The commits of a history, in the order of their seals.
use crate::compare::same;
use graph_model::{Event, Refusal, Reply};
use heap_history::History;
use std::alloc::{AllocError, Global};
use std::process::Abort;
use std::test::Fail;

/// A history of these entries.
pub(crate) fn told(
    rt: &(impl Abort + AllocGlobal),
    entries: &[(Event, Reply)],
) -> Result<History, AllocError> {
    let mut history = History::new(rt.alloc());
    for (event, reply) in entries {
        history.reserve(1)?;
        history.push(*event, *reply);
    }
    same(rt, history.len(), entries.len());
    Ok(history)
}

/// The commits, by the number of each and how many calls it has.
fn numbers_and_calls(alloc: Global, history: &History) -> Result<Vec<(u64, usize)>, AllocError> {
    let mut found = Vec::new(alloc);
    for commit in history.commits()?.as_slice() {
        found.push((commit.number(), commit.calls().len()))?;
    }
    Ok(found)
}

fn root(s: u32) -> (Event, Reply) {
    (Event::Root { s, h: 0 }, Reply::Done)
}

fn read(s: u32) -> (Event, Reply) {
    let (h, i, h2) = (0, 0, 1);
    (Event::Get { s, h, i, h2 }, Reply::Null)
}

fn put(s: u32, reply: Reply) -> (Event, Reply) {
    let (h, i, v) = (0, 0, 7);
    (Event::Put { s, h, i, v }, reply)
}

/// Three sessions: one is refused a write and seals first, one aborts, and one seals and is then cut short in its next seal.
fn three_sessions(rt: &(impl Abort + AllocGlobal)) -> Result<History, AllocError> {
    let busy = Reply::Refused {
        why: Refusal::Busy { holder: 5 },
    };
    told(
        rt,
        &[
            (Event::Begin { s: 1 }, Reply::Begun { n: 5 }),
            root(1),
            (Event::Begin { s: 2 }, Reply::Begun { n: 6 }),
            root(2),
            read(1),
            put(2, busy),
            (Event::Begin { s: 32 }, Reply::Begun { n: 7 }),
            read(2),
            (Event::Seal { s: 2 }, Reply::Sealed { n: 1 }),
            put(1, Reply::Done),
            (Event::Force, Reply::Durable { n: 1 }),
            (Event::Abort { s: 32 }, Reply::Aborted),
            (Event::Seal { s: 1 }, Reply::Sealed { n: 2 }),
            (Event::Begin { s: 1 }, Reply::Begun { n: 8 }),
            (
                Event::Seal { s: 1 },
                Reply::Refused {
                    why: Refusal::Stopped,
                },
            ),
            (
                Event::Seal { s: 1 },
                Reply::Refused {
                    why: Refusal::Failed { entry: 15 },
                },
            ),
        ],
    )
}

#[test]
fn commits_are_told_in_the_order_of_their_seals(rt: HostRuntime) -> Result<(), Fail> {
    let history = three_sessions(&rt)?;
    let commits = numbers_and_calls(rt.alloc(), &history)?;
    same(&rt, commits.as_slice(), &[(6, 2), (5, 3), (8, 0)]);
    same(&rt, history.acked(), 1);
    Ok(())
}
