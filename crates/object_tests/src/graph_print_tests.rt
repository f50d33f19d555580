//! Texts of small heaps in memory.
use crate::compare::same;
use graph_print::{PrintError, canon_count, canon_text};
use object_layout::WordSlice;
use std::alloc::Global;
use std::process::Abort;

/// Words, and the text of the graph whose root is their first object.
type Case = (&'static [u64], Result<&'static [u8], PrintError>);

const AT_ROOT: PrintError = PrintError::Damaged { address: 0 };

const AT_SECOND: PrintError = PrintError::Damaged { address: 6 };

const CASES: [Case; 8] = [
    // The root alone.
    (&[17, 0, 29, 0, 0, 2], Ok(b"graph 1\n0: 7 - - @0\n")),
    // A list of two, not in the order of their addresses, and an object that nothing refers to.
    (
        &[
            17,
            0,
            4 * 9 + 2,
            0,
            4 * 6 + 2,
            0,
            5,
            5,
            4 * 9 + 2,
            5,
            6,
            4 * 6 + 2,
            1,
            9,
        ],
        Ok(b"graph 3\n0: @1 - @2 -\n1: @2\n2: @1\n"),
    ),
    // Breadth first: the objects that the root refers to before those that they refer to.
    (
        &[17, 0, 26, 38, 0, 0, 5, 1, 50, 5, 2, 1, 1, 3],
        Ok(b"graph 4\n0: @1 @2 - -\n1: @3\n2: 0\n3:\n"),
    ),
    // A forwarding word is followed.
    (
        &[4 * 6 + 2, 0, 0, 0, 0, 0, 17, 0, 2, 0, 0, 0],
        Ok(b"graph 1\n0: @0 - - -\n"),
    ),
    // The root, and a field of its second object, name no object.
    (&[18, 0, 0, 0, 0, 0], Err(AT_ROOT)),
    (&[17, 0, 26, 0, 0, 0, 9, 4, 2, 30], Err(AT_SECOND)),
    (&[17, 0, 0, 0, 0, 3], Err(AT_ROOT)),
    (&[17, 0, 0, 0, 0], Err(AT_ROOT)),
];

fn check_text(rt: &impl Abort, alloc: Global, case: &Case) {
    let (words, want) = *case;
    assert!(rt; words.len() < 99);
    match canon_text(alloc, &mut WordSlice::of(words), 0) {
        Ok(text) => same(rt, Ok(text.as_slice()), want),
        Err(error) => same(rt, Err(error), want),
    }
}

#[test]
fn graphs_are_printed(rt: HostRuntime) {
    for case in &CASES {
        check_text(&rt, rt.alloc(), case);
    }
}

/// How many objects each of these has.
const COUNTED: [(&[u64], Result<u64, PrintError>); 5] = [
    (&[17, 0, 29, 0, 0, 2], Ok(1)),
    (&[17, 0, 26, 38, 0, 0, 5, 1, 50, 5, 2, 1, 1, 3], Ok(4)),
    // A field leads to the old place of an object, and another one to its new place: it is one object.
    (&[17, 0, 26, 38, 0, 0, 38, 0, 0, 5, 2, 0], Ok(2)),
    (&[18, 0, 0, 0, 0, 0], Err(AT_ROOT)),
    (&[17, 0, 26, 0, 0, 0, 9, 4, 2, 30], Err(AT_SECOND)),
];

#[test]
fn objects_are_counted(rt: HostRuntime) {
    for (words, want) in &COUNTED {
        let found = canon_count(rt.alloc(), &mut WordSlice::of(words), 0);
        same(&rt, (words, found), (words, *want));
    }
}
