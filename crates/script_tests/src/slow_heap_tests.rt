//! The slow heap plays lines of scripts: its answers, and the graphs that it leaves.
use crate::compare::same;
use graph_model::{Entry, Event, Refusal, Reply};
use script_text::{Line, ScriptError, read_script, reply_line};
use slow_heap::SlowHeap;
use std::alloc::{AllocError, Global};
use std::process::Abort;
use std::test::Fail;

/// Two transactions, what a force counts before, between and after them, and a flush, which stores the page that it names.
const TWO_SEALED: &str = "\
    force -> durable 0\n1 begin -> begun 1\n1 root 0 -> done\n1 put 0 0 7 -> done\n1 seal -> sealed 1\nforce -> durable 1\n\
    1 begin -> begun 2\n1 root 63 -> done\n1 put 63 0 8 -> done\n1 put 63 0 9 -> done\n1 put 63 3 4611686018427387903 -> done\n\
    force -> durable 1\nflush 1 -> flushed 1\n1 seal -> sealed 2\n";

/// Calls of no transaction, of handles that hold nothing or do not exist, of no field, and with too large a number.
const REFUSED: &str = "\
    1 root 0 -> notactive\n1 put 0 0 7 -> notactive\n1 seal -> notactive\n1 begin -> begun 1\n1 begin -> alreadyactive\n\
    1 root 64 -> badhandle\n1 put 0 0 7 -> badhandle\n1 put 64 0 7 -> badhandle\n1 root 1 -> done\n1 put 1 4 7 -> badfield\n\
    1 put 1 4 4611686018427387904 -> range\n1 seal -> sealed 1\n1 begin -> begun 2\n1 put 1 0 7 -> badhandle\n\
    1 seal -> sealed 2\n";

/// Each call of one transaction on the root.
const CALLED: &str = "\
    1 begin -> begun 1\n1 root 0 -> done\n1 len 0 -> len 4\n1 get 0 0 1 -> null\n1 len 1 -> badhandle\n1 put 0 0 7 -> done\n\
    1 get 0 0 1 -> int 7\n1 len 1 -> badhandle\n1 put 0 1 8 -> done\n1 clear 0 0 -> done\n1 get 0 0 0 -> null\n\
    1 get 0 1 63 -> int 8\n1 same 0 0 -> yes\n1 root 63 -> done\n1 same 0 63 -> yes\n1 drop 0 -> done\n1 drop 0 -> done\n\
    1 len 0 -> badhandle\n1 len 63 -> len 4\n1 seal -> sealed 1\n";

/// Each call in each way in which it is refused, and which refusal comes first.
const REFUSED_IN_ORDER: &str = "\
    1 clear 0 0 -> notactive\n1 drop 0 -> notactive\n1 get 0 0 64 -> notactive\n1 same 0 0 -> notactive\n1 len 0 -> notactive\n\
    1 abort -> notactive\n1 begin -> begun 1\n1 root 0 -> done\n1 get 0 0 64 -> badhandle\n1 get 0 4 64 -> badhandle\n\
    1 get 9 4 0 -> badhandle\n1 get 0 4 0 -> badfield\n1 same 0 64 -> badhandle\n1 same 64 0 -> badhandle\n\
    1 same 0 9 -> badhandle\n1 same 9 0 -> badhandle\n1 len 64 -> badhandle\n1 drop 64 -> badhandle\n1 clear 9 4 -> badhandle\n\
    1 clear 0 4 -> badfield\n1 put 9 4 4611686018427387904 -> badhandle\n1 put 0 4 4611686018427387904 -> range\n\
    1 put 0 4 1 -> badfield\n1 len 0 -> len 4\n1 seal -> sealed 1\n";

/// A transaction that is aborted between two that are sealed.
const ABORTED: &str = "\
    1 begin -> begun 1\n1 root 0 -> done\n1 put 0 0 7 -> done\n1 seal -> sealed 1\n1 begin -> begun 2\n1 root 0 -> done\n\
    1 put 0 0 8 -> done\n1 get 0 0 1 -> int 8\n1 abort -> aborted\n1 abort -> notactive\nforce -> durable 1\n1 begin -> begun 3\n\
    1 len 0 -> badhandle\n1 root 0 -> done\n1 get 0 0 1 -> int 7\n1 seal -> sealed 2\n";

/// Objects that refer to one another, seen by later transactions, and dropped.
const LINKED: &str = "\
    1 begin -> begun 1\n1 root 0 -> done\n1 new 1 1 -> done\n1 new 2 1 -> done\n1 new 3 0 -> done\n1 link 0 0 1 -> done\n\
    1 link 0 1 2 -> done\n1 link 1 0 2 -> done\n1 link 2 0 1 -> done\n1 same 1 1 -> yes\n1 same 1 2 -> no\n1 len 3 -> len 0\n\
    1 get 0 1 4 -> ref\n1 same 4 2 -> yes\n1 get 4 0 4 -> ref\n1 same 4 1 -> yes\n1 get 0 2 4 -> null\n1 same 4 1 -> yes\n\
    1 seal -> sealed 1\n1 begin -> begun 2\n1 root 0 -> done\n1 get 0 1 1 -> ref\n1 new 2 3 -> done\n1 link 2 2 0 -> done\n\
    1 put 2 1 9 -> done\n1 link 1 0 2 -> done\n1 link 0 0 2 -> done\n1 new 2 1 -> done\n1 seal -> sealed 2\n1 begin -> begun 3\n\
    1 root 0 -> done\n1 get 0 0 1 -> ref\n1 get 1 2 2 -> ref\n1 same 0 2 -> yes\n1 clear 0 1 -> done\n1 put 0 0 8 -> done\n\
    1 get 1 1 2 -> int 9\n1 seal -> sealed 3\n";

/// Objects of an aborted transaction, and objects of no field, of the most and of one more.
const NEW: &str = "\
    1 new 0 1 -> notactive\n1 link 0 0 0 -> notactive\n1 begin -> begun 1\n1 root 0 -> done\n1 new 1 1 -> done\n\
    1 link 0 0 1 -> done\n1 abort -> aborted\n1 begin -> begun 2\n1 root 0 -> done\n1 get 0 0 1 -> null\n1 len 1 -> badhandle\n\
    1 new 64 511 -> badhandle\n1 new 63 511 -> range\n1 len 63 -> badhandle\n1 new 63 510 -> done\n1 len 63 -> len 510\n\
    1 get 63 509 1 -> null\n1 link 63 509 64 -> badhandle\n1 link 63 509 1 -> badhandle\n1 link 1 0 63 -> badhandle\n\
    1 link 64 0 63 -> badhandle\n1 link 1 510 2 -> badhandle\n1 link 63 510 0 -> badfield\n1 link 0 3 0 -> done\n\
    1 new 0 1 -> done\n1 len 0 -> len 1\n1 seal -> sealed 1\n";

/// The sessions 32, 2 and 1 begin transactions 1, 2 and 3, so that no number is that of its session. Two of them read the root; a third one
/// and each of them are kept from writing it, until one is aborted. A call's own faults are reported before conflicts; a new object is no one
/// else's; a seal lets others read and write. Then one object is written while another one is read, and what is sealed is seen by a
/// transaction that began before.
const SIDE_BY_SIDE: &str = "\
    32 begin -> begun 1\n2 begin -> begun 2\n1 begin -> begun 3\n2 begin -> alreadyactive\n32 root 0 -> done\n2 root 0 -> done\n\
    1 root 0 -> done\n1 get 0 0 1 -> null\n2 put 0 0 7 -> busy 3\n32 get 0 0 1 -> null\n2 put 0 0 7 -> busy 1\n\
    1 put 0 0 7 -> busy 1\n32 put 0 0 5 -> busy 3\n1 abort -> aborted\n32 put 0 0 5 -> done\n2 get 0 0 1 -> busy 1\n\
    2 get 0 0 64 -> badhandle\n2 get 0 4 1 -> badfield\n2 put 0 4 1 -> badfield\n2 put 0 0 4611686018427387904 -> range\n\
    2 len 0 -> len 4\n2 new 1 1 -> done\n2 put 1 0 9 -> done\n2 same 0 1 -> no\n2 link 0 1 1 -> busy 1\n1 begin -> begun 4\n\
    1 root 0 -> done\n32 seal -> sealed 1\n2 get 0 0 2 -> int 5\n2 link 0 1 1 -> done\n1 put 0 0 6 -> busy 2\n\
    2 seal -> sealed 2\n1 put 0 0 6 -> done\n1 get 0 1 1 -> ref\n1 get 1 0 2 -> int 9\n32 get 0 0 1 -> notactive\n\
    2 begin -> begun 5\n2 root 0 -> done\n2 get 0 1 1 -> busy 4\n1 abort -> aborted\n2 get 0 1 1 -> ref\n1 begin -> begun 6\n\
    1 root 0 -> done\n1 get 0 1 1 -> ref\n1 put 1 0 8 -> done\n2 get 1 0 2 -> busy 6\n2 len 1 -> len 1\n2 get 0 0 2 -> int 5\n\
    1 seal -> sealed 3\n2 get 1 0 2 -> int 8\n2 seal -> sealed 4\nforce -> durable 4\n";

/// Lines of events with their answers, and the graphs after the first k of the sealed transactions, for each k from 0.
const RUNS: [(&str, &str); 8] = [
    (
        TWO_SEALED,
        "graph 1\n0: - - - -\ngraph 1\n0: 7 - - -\ngraph 1\n0: 9 - - 4611686018427387903\n",
    ),
    (
        REFUSED,
        "graph 1\n0: - - - -\ngraph 1\n0: - - - -\ngraph 1\n0: - - - -\n",
    ),
    (CALLED, "graph 1\n0: - - - -\ngraph 1\n0: - 8 - -\n"),
    (
        REFUSED_IN_ORDER,
        "graph 1\n0: - - - -\ngraph 1\n0: - - - -\n",
    ),
    (
        ABORTED,
        "graph 1\n0: - - - -\ngraph 1\n0: 7 - - -\ngraph 1\n0: 7 - - -\n",
    ),
    (
        LINKED,
        "graph 1\n0: - - - -\ngraph 3\n0: @1 @2 - -\n1: @2\n2: @1\ngraph 3\n0: @1 @2 - -\n1: - 9 @0\n2: @1\ngraph 1\n0: 8 - - -\n",
    ),
    (NEW, "graph 1\n0: - - - -\ngraph 1\n0: - - - @0\n"),
    (
        SIDE_BY_SIDE,
        "graph 1\n0: - - - -\ngraph 1\n0: 5 - - -\ngraph 2\n0: 5 @1 - -\n1: 9\ngraph 2\n0: 5 @1 - -\n1: 8\ngraph 2\n0: 5 @1 - -\n1: 8\n",
    ),
];

/// What a line asks, in front of its answer.
fn event_of(rt: &impl Abort, alloc: Global, line: &str) -> Result<Event, ScriptError> {
    let Some((asked, _)) = line.split_once(" -> ") else {
        panic!(rt; "no answer");
    };
    let lines = read_script(alloc, asked.as_bytes())?;
    let [Line::One(event)] = lines.as_slice() else {
        panic!(rt; "no event");
    };
    Ok(*event)
}

fn ask(rt: &impl Abort, heap: &mut SlowHeap, event: Event) -> Result<Reply, AllocError> {
    assert!(rt; event.is_of_session());
    heap.step(event)
}

/// Asks what the line asks, and compares its answer.
fn check_line(rt: &impl Abort, alloc: Global, heap: &mut SlowHeap, line: &str) -> Result<(), Fail> {
    let event = event_of(rt, alloc, line)?;
    let reply = ask(rt, heap, event)?;
    let text = reply_line(alloc, &Entry { event, reply })?;
    same(rt, text.as_str().trim_end(), line);
    Ok(())
}

/// Adds the text of the graph after the first k of the sealed transactions.
fn add_graph(
    rt: &impl Abort,
    heap: &SlowHeap,
    k: usize,
    texts: &mut Vec<u8>,
) -> Result<(), AllocError> {
    assert!(rt; k <= heap.sealed());
    let text = heap.text(k)?;
    texts.extend_from_slice(&text)
}

/// The texts of the graphs, one after another.
fn graphs(rt: &impl Abort, alloc: Global, heap: &SlowHeap) -> Result<Vec<u8>, AllocError> {
    let mut texts = Vec::new(alloc);
    for k in 0..=heap.sealed() {
        add_graph(rt, heap, k, &mut texts)?;
    }
    Ok(texts)
}

/// Asks each line, and compares the texts of the graphs that they leave.
fn check_run(rt: &impl Abort, alloc: Global, lines: &str, texts: &str) -> Result<(), Fail> {
    let mut heap = SlowHeap::new(alloc)?;
    for line in lines.lines() {
        check_line(rt, alloc, &mut heap, line)?;
    }
    same(rt, graphs(rt, alloc, &heap)?.as_slice(), texts.as_bytes());
    Ok(())
}

#[test]
fn events_are_answered_and_leave_graphs(rt: HostRuntime) -> Result<(), Fail> {
    for (lines, texts) in &RUNS {
        check_run(&rt, rt.alloc(), lines, texts)?;
    }
    Ok(())
}

const REPLIES: [(Reply, &str); 23] = [
    (Reply::Begun { n: 12 }, "begun 12"),
    (Reply::Done, "done"),
    (Reply::Null, "null"),
    (Reply::Int { v: 0 }, "int 0"),
    (
        Reply::Int {
            v: 4611686018427387903,
        },
        "int 4611686018427387903",
    ),
    (Reply::Reference, "ref"),
    (Reply::Yes, "yes"),
    (Reply::No, "no"),
    (Reply::Length { n: 4 }, "len 4"),
    (Reply::Sealed { n: 3 }, "sealed 3"),
    (Reply::Aborted, "aborted"),
    (Reply::Durable { n: 0 }, "durable 0"),
    (Reply::Flushed { page: 1 }, "flushed 1"),
    (Reply::Clean { page: 0 }, "clean 0"),
    (
        Reply::Refused {
            why: Refusal::NoSuchPage,
        },
        "nosuchpage",
    ),
    (
        Reply::Refused {
            why: Refusal::NumbersSpent,
        },
        "numbersspent",
    ),
    (
        Reply::Refused {
            why: Refusal::Failed { entry: 30 },
        },
        "failed 30",
    ),
    (
        Reply::Refused {
            why: Refusal::Busy { holder: 12 },
        },
        "busy 12",
    ),
    (
        Reply::Refused {
            why: Refusal::VolatileFull { used: 4096 },
        },
        "volatilefull 4096",
    ),
    (
        Reply::Refused {
            why: Refusal::Exhausted {
                need: 59,
                free: 58,
                owed: 7,
            },
        },
        "exhausted 59 58 7",
    ),
    (
        Reply::Refused {
            why: Refusal::LogFull {
                used: 100,
                need: 20,
                reserved: 3,
            },
        },
        "logfull 100 20 3",
    ),
    (
        Reply::Refused {
            why: Refusal::DiskFault,
        },
        "diskfault",
    ),
    (
        Reply::Refused {
            why: Refusal::Stopped,
        },
        "stopped",
    ),
];

#[test]
fn replies_are_written(rt: HostRuntime) -> Result<(), Fail> {
    for (reply, want) in &REPLIES {
        let text = format!(in rt.alloc(); "{reply}")?;
        same(&rt, text.as_str(), *want);
    }
    Ok(())
}
