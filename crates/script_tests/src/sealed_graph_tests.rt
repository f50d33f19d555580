//! The graph of what a history says is sealed, from the history alone.
use crate::compare::same;
use crate::history_tests::told;
use graph_model::{Event, Id, ROOT, Refusal, Reply, Val};
use heap_history::History;
use sealed_graph::{PlainGraph, SealedView, sealed_view};
use std::alloc::{AllocError, Global};
use std::process::Abort;
use std::test::Fail;

/// A number that no name has room for.
const NO_NAME: u64 = 1 << 32;

fn begin(s: u32, n: u64) -> (Event, Reply) {
    (Event::Begin { s }, Reply::Begun { n })
}

fn root(s: u32) -> (Event, Reply) {
    (Event::Root { s, h: 0 }, Reply::Done)
}

fn new(s: u32, h: u64, len: u64) -> (Event, Reply) {
    (Event::New { s, h, len }, Reply::Done)
}

fn put(s: u32, h: u64, i: u64, v: u64) -> (Event, Reply) {
    (Event::Put { s, h, i, v }, Reply::Done)
}

fn link(s: u32, h: u64, i: u64, h2: u64) -> (Event, Reply) {
    (Event::Link { s, h, i, h2 }, Reply::Done)
}

fn follow(s: u32, h: u64, i: u64, h2: u64) -> (Event, Reply) {
    (Event::Get { s, h, i, h2 }, Reply::Reference)
}

fn refused(event: Event, why: Refusal) -> (Event, Reply) {
    (event, Reply::Refused { why })
}

fn seal(s: u32, n: u64) -> (Event, Reply) {
    (Event::Seal { s }, Reply::Sealed { n })
}

/// An object, and its fields.
type Object = (Id, &'static [Val]);

/// The graph has exactly these objects, in this order.
fn compare(rt: &impl Abort, graph: &PlainGraph, want: &[Object]) -> Result<(), AllocError> {
    let ids = graph.ids()?;
    same(rt, (graph.len(), ids.len()), (want.len(), want.len()));
    for (id, object) in ids.iter().zip(want) {
        same(rt, (*id, graph.fields(*id)), *object);
    }
    Ok(())
}

/// Transactions of two sessions that are sealed in another order than they began; then one that is aborted, one whose seal the disk cut short,
/// and one that is still active.
fn two_sessions(rt: &(impl Abort + AllocGlobal)) -> Result<History, AllocError> {
    told(
        rt,
        &[
            begin(1, 5),
            root(1),
            begin(2, 6),
            root(2),
            new(1, 1, 1),
            put(1, 1, 0, 8),
            link(1, 0, 0, 1),
            put(2, 0, 0, 9),
            new(2, 1, 2),
            link(2, 0, 1, 1),
            refused(
                Event::Put {
                    s: 2,
                    h: 1,
                    i: 0,
                    v: 3,
                },
                Refusal::Busy { holder: 5 },
            ),
            seal(2, 1),
            begin(32, 7),
            root(32),
            put(32, 0, 3, 4),
            (Event::Abort { s: 32 }, Reply::Aborted),
            begin(2, 8),
            root(2),
            follow(2, 0, 1, 5),
            link(2, 5, 1, 0),
            seal(1, 2),
            begin(1, 9),
            root(1),
            put(1, 0, 2, 6),
            seal(2, 3),
            begin(3, 10),
            root(3),
            put(3, 0, 3, 1),
            refused(Event::Seal { s: 1 }, Refusal::Stopped),
        ],
    )
}

/// The objects that the first two transactions made, and the graph after the three that are sealed.
const LINKED: Id = Id { t: 5, k: 1 };

const OTHER: Id = Id { t: 6, k: 1 };

const SEALED: [Object; 3] = [
    (
        ROOT,
        &[Val::Ref(LINKED), Val::Ref(OTHER), Val::Null, Val::Null],
    ),
    (LINKED, &[Val::Int(8)]),
    (OTHER, &[Val::Null, Val::Ref(ROOT)]),
];

#[test]
fn what_is_sealed_is_run_in_the_order_of_the_seals(rt: HostRuntime) -> Result<(), Fail> {
    let first = PlainGraph::new_heap(rt.alloc())?;
    let graph = sealed_view(rt.alloc(), &two_sessions(&rt)?, &first)?;
    compare(&rt, &graph, &SEALED)?;
    compare(&rt, &first, &[(ROOT, &[Val::Null; 4])])?;
    Ok(())
}

/// The object to which the root of a heap refers that is older than its history.
const BEFORE: Id = Id { t: 3, k: 2 };

fn older_heap(alloc: Global) -> Result<PlainGraph, AllocError> {
    let mut graph = PlainGraph::empty(alloc);
    graph.insert(ROOT, vec![in alloc; Val::Ref(BEFORE)]?)?;
    graph.insert(BEFORE, vec![in alloc; Val::Int(1), Val::Int(2)]?)?;
    Ok(graph)
}

/// A transaction changes an object made before, makes two of its own, and drops a handle.
fn one_session(rt: &(impl Abort + AllocGlobal)) -> Result<History, AllocError> {
    told(
        rt,
        &[
            begin(4, 7),
            root(4),
            follow(4, 0, 0, 63),
            new(4, 1, 0),
            new(4, 1, 1),
            link(4, 63, 1, 1),
            (Event::Clear { s: 4, h: 63, i: 0 }, Reply::Done),
            (Event::Drop { s: 4, h: 63 }, Reply::Done),
            (Event::Same { s: 4, h: 0, h2: 1 }, Reply::No),
            (Event::Len { s: 4, h: 1 }, Reply::Length { n: 1 }),
            seal(4, 1),
            (Event::Force, Reply::Durable { n: 1 }),
        ],
    )
}

/// The older heap after it, with the second of the objects that it made.
const MADE: Id = Id { t: 7, k: 2 };

const CHANGED: [Object; 4] = [
    (ROOT, &[Val::Ref(BEFORE)]),
    (BEFORE, &[Val::Null, Val::Ref(MADE)]),
    (Id { t: 7, k: 1 }, &[]),
    (MADE, &[Val::Null]),
];

#[test]
fn a_view_begins_with_the_first_graph(rt: HostRuntime) -> Result<(), Fail> {
    let first = older_heap(rt.alloc())?;
    let graph = one_session(&rt)?.sealed_view(rt.alloc(), &first)?;
    compare(&rt, &graph, &CHANGED)?;
    Ok(())
}

/// The root after a transaction with a number that no heap gives: it is run if it makes no object, and otherwise there is no view.
const UNNAMED: [Object; 1] = [(ROOT, &[Val::Int(7), Val::Null, Val::Null, Val::Null])];

#[test]
fn an_object_without_a_name_has_no_view(rt: HostRuntime) -> Result<(), Fail> {
    let first = PlainGraph::new_heap(rt.alloc())?;
    let unnamed = [begin(1, NO_NAME), root(1), put(1, 0, 0, 7), seal(1, 1)];
    let graph = sealed_view(rt.alloc(), &told(&rt, &unnamed)?, &first)?;
    compare(&rt, &graph, &UNNAMED)?;
    let making = [begin(1, NO_NAME), new(1, 0, 1), seal(1, 1)];
    let view = sealed_view(rt.alloc(), &told(&rt, &making)?, &first);
    same(&rt, view.is_err(), true);
    Ok(())
}
