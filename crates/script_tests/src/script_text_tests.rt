//! Scripts, good and bad, and a printed line.
use crate::compare::same;
use graph_model::{Entry, Event, Refusal, Reply};
use script_text::{Line, MOST_BYTES, ScriptError, read_script, reply_line};
use std::alloc::{AllocError, Global};
use std::process::Abort;
use std::test::Fail;

/// A line of each form, each of another session, with blank lines, more blanks between words, leading zeros and the
/// greatest number.
const EACH_FORM: &str =
    "1 begin\n2 root 0\n32 new 1  18446744073709551615\n\n31   put 64 4 4611686018427387904\n030 clear 0 3\n4 link 0 3 01\n5 drop 63\n\
    6 get 0 18446744073709551615 64\n7 same 0 00000000000000000001\n8 len 0\n00000000000000000009 seal\n\n10 abort\n11 commit\nforce\n\
    flush 0\nflush  18446744073709551615\nflip\nscan\n";

/// The lines of the script above.
const EACH_LINE: [Line; 18] = [
    Line::One(Event::Begin { s: 1 }),
    Line::One(Event::Root { s: 2, h: 0 }),
    Line::One(Event::New {
        s: 32,
        h: 1,
        len: u64::MAX,
    }),
    Line::One(Event::Put {
        s: 31,
        h: 64,
        i: 4,
        v: 4_611_686_018_427_387_904,
    }),
    Line::One(Event::Clear { s: 30, h: 0, i: 3 }),
    Line::One(Event::Link {
        s: 4,
        h: 0,
        i: 3,
        h2: 1,
    }),
    Line::One(Event::Drop { s: 5, h: 63 }),
    Line::One(Event::Get {
        s: 6,
        h: 0,
        i: u64::MAX,
        h2: 64,
    }),
    Line::One(Event::Same { s: 7, h: 0, h2: 1 }),
    Line::One(Event::Len { s: 8, h: 0 }),
    Line::One(Event::Seal { s: 9 }),
    Line::One(Event::Abort { s: 10 }),
    Line::Commit { s: 11 },
    Line::One(Event::Force),
    Line::One(Event::Flush { p: 0 }),
    Line::One(Event::Flush { p: u64::MAX }),
    Line::One(Event::Flip),
    Line::One(Event::Scan),
];

#[test]
fn each_form_of_a_line_is_read(rt: HostRuntime) -> Result<(), Fail> {
    let lines = read_script(rt.alloc(), EACH_FORM.as_bytes())?;
    same(&rt, lines.as_slice(), &EACH_LINE);
    Ok(())
}

/// Compares how many lines a script has, or the number of its first bad one.
fn check_script(
    rt: &impl Abort,
    alloc: Global,
    script: &[u8],
    want: Result<usize, u64>,
) -> Result<(), AllocError> {
    let found = match read_script(alloc, script) {
        Ok(lines) => Ok(lines.len()),
        Err(ScriptError::Fault { line }) => Err(line),
        Err(ScriptError::NoMemory) => return Err(AllocError),
    };
    same(rt, (script, found), (script, want));
    Ok(())
}

/// A script, and how many lines it has, or the number of its first bad one.
const SCRIPTS: [(&str, Result<usize, u64>); 71] = [
    ("", Ok(0)),
    ("\n\n", Ok(0)),
    ("force", Ok(1)),
    ("1 seal\n1 root 0\n1 begin\n", Ok(3)),
    ("1 commit\n\n1 commit", Ok(2)),
    ("1 begin\n1 root 0\n1 pu", Err(3)),
    ("1 begin\n1 pu\n1 pu\n", Err(2)),
    ("begin", Err(1)),
    ("1", Err(1)),
    ("1 force", Err(1)),
    ("force 1", Err(1)),
    ("flush 00000000000000000001", Ok(1)),
    ("flush 18446744073709551615\nflush 0", Ok(2)),
    ("flush 18446744073709551616", Err(1)),
    ("flush 000000000000000000000", Err(1)),
    ("flush", Err(1)),
    ("flush x", Err(1)),
    ("flush 1 2", Err(1)),
    ("flush 1 ", Err(1)),
    ("Flush 1", Err(1)),
    ("flus 1", Err(1)),
    ("1 flush", Err(1)),
    ("1 Begin", Err(1)),
    (" 1 begin", Err(1)),
    ("1 begin ", Err(1)),
    ("\n\n1 x", Err(3)),
    ("force\n \n", Err(2)),
    ("1\tbegin", Err(1)),
    ("1 begin\r\n", Err(1)),
    ("1 root", Err(1)),
    ("1 root 0 0", Err(1)),
    ("1 get 0 0", Err(1)),
    ("1 new 0", Err(1)),
    ("1 new 0 0 0", Err(1)),
    ("1 new 0 18446744073709551616", Err(1)),
    ("1 link 0 0", Err(1)),
    ("1 link 0 0 0 0", Err(1)),
    ("1 put 0 0 0 0", Err(1)),
    ("1 put 0 0 18446744073709551615", Ok(1)),
    ("1 put 0 0 18446744073709551616", Err(1)),
    ("1 len 000000000000000000000", Err(1)),
    ("1 len -1", Err(1)),
    ("1 len 0x1", Err(1)),
    // Of sessions, which are numbers from 1 to 32, and of some that are none.
    ("1 begin", Ok(1)),
    ("2 begin", Ok(1)),
    ("32 begin", Ok(1)),
    ("032 begin", Ok(1)),
    ("00000000000000000032 begin", Ok(1)),
    ("1 begin\n32 begin\n2 commit\nforce", Ok(4)),
    ("1 begin\n32 begin\n33 commit\nforce", Err(3)),
    ("0 begin", Err(1)),
    ("00 begin", Err(1)),
    ("33 begin", Err(1)),
    ("033 begin", Err(1)),
    ("257 begin", Err(1)),
    ("4294967297 begin", Err(1)),
    ("18446744073709551615 begin", Err(1)),
    ("18446744073709551617 begin", Err(1)),
    ("000000000000000000001 begin", Err(1)),
    ("100000000000000000000 begin", Err(1)),
    ("-1 begin", Err(1)),
    ("+1 begin", Err(1)),
    ("one begin", Err(1)),
    (" 1 begin", Err(1)),
    ("  32 begin", Err(1)),
    ("32", Err(1)),
    ("2 2 begin", Err(1)),
    ("begin 2", Err(1)),
    ("2 force", Err(1)),
    ("33 force", Err(1)),
    ("2 flush 1", Err(1)),
];

#[test]
fn the_first_bad_line_is_told(rt: HostRuntime) -> Result<(), Fail> {
    for (script, want) in &SCRIPTS {
        check_script(&rt, rt.alloc(), script.as_bytes(), *want)?;
    }
    Ok(())
}

#[test]
fn a_long_script_is_a_fault_at_line_0(rt: HostRuntime) -> Result<(), Fail> {
    let mut newlines = vec![in rt.alloc(); b'\n'; MOST_BYTES]?;
    check_script(&rt, rt.alloc(), &newlines, Ok(0))?;
    newlines.push(b'\n')?;
    Ok(check_script(&rt, rt.alloc(), &newlines, Err(0))?)
}

/// An event with its reply, and the line that is printed.
const PRINTED: [(Entry, &str); 10] = [
    (
        Entry {
            event: Event::Put {
                s: 32,
                h: 64,
                i: 0,
                v: 7,
            },
            reply: Reply::Refused {
                why: Refusal::BadHandle,
            },
        },
        "32 put 64 0 7 -> badhandle\n",
    ),
    (
        Entry {
            event: Event::Force,
            reply: Reply::Durable { n: 2 },
        },
        "force -> durable 2\n",
    ),
    (
        Entry {
            event: Event::Flip,
            reply: Reply::Flipped {
                objects: 2,
                words: 9,
            },
        },
        "flip -> flipped 2 9\n",
    ),
    (
        Entry {
            event: Event::Flip,
            reply: Reply::Collecting,
        },
        "flip -> collecting\n",
    ),
    (
        Entry {
            event: Event::Scan,
            reply: Reply::Scanned {
                page: 2,
                objects: 3,
                words: 67,
            },
        },
        "scan -> scanned 2 3 67\n",
    ),
    (
        Entry {
            event: Event::Scan,
            reply: Reply::Collected { used: 73 },
        },
        "scan -> collected 73\n",
    ),
    (
        Entry {
            event: Event::Scan,
            reply: Reply::Idle,
        },
        "scan -> idle\n",
    ),
    (
        Entry {
            event: Event::Flush { p: 1 },
            reply: Reply::Flushed { page: 1 },
        },
        "flush 1 -> flushed 1\n",
    ),
    (
        Entry {
            event: Event::Flush { p: 1 },
            reply: Reply::Clean { page: 1 },
        },
        "flush 1 -> clean 1\n",
    ),
    (
        Entry {
            event: Event::Flush { p: 2 },
            reply: Reply::Refused {
                why: Refusal::NoSuchPage,
            },
        },
        "flush 2 -> nosuchpage\n",
    ),
];

#[test]
fn an_event_is_printed_with_its_reply(rt: HostRuntime) -> Result<(), Fail> {
    for (entry, want) in &PRINTED {
        same(&rt, reply_line(rt.alloc(), entry)?.as_str(), *want);
    }
    Ok(())
}
