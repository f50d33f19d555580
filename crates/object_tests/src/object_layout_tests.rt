//! Walks of small spaces in memory, and the objects that are found in them.
use crate::compare::same;
use object_layout::{WalkError, WordSlice, Words, fields, object_at, stand, walk};
use std::alloc::Global;
use std::process::Abort;

/// Words, where a space begins in them, how many of its words are used, and what a walk of it gives.
type Case = (&'static [u64], u32, u32, Result<(), WalkError>);

const AT_ROOT: Result<(), WalkError> = Err(WalkError::Damaged { address: 0 });

const AT_SECOND: Result<(), WalkError> = Err(WalkError::Damaged { address: 6 });

const CASES: [Case; 12] = [
    // The root alone, with a number, a reference to itself and two nulls.
    (&[17, 0, 29, 2, 0, 0], 0, 6, Ok(())),
    // A second object, to which the root refers, and one of no fields that ends the used words.
    (&[17, 0, 26, 0, 0, 0, 5, 1, 2, 1, 2, 9], 0, 11, Ok(())),
    // A space that does not begin the words.
    (&[0, 0, 17, 0, 10, 0, 0, 0], 2, 6, Ok(())),
    // No root: another birth, another length, a header that is a forwarding word.
    (&[17, 1, 0, 0, 0, 0], 0, 6, AT_ROOT),
    (&[13, 0, 0, 0, 0], 0, 5, AT_ROOT),
    (&[18, 0, 0, 0, 0, 0], 0, 6, AT_ROOT),
    // The second object ends past the used words, or has no header; both before a field that leads elsewhere.
    (&[17, 0, 3, 0, 0, 0, 9, 1, 0, 0], 0, 9, AT_SECOND),
    (&[17, 0, 3, 0, 0, 0, 0, 1, 0], 0, 9, AT_SECOND),
    // A field that is no field word, a volatile one, a reference into an object, one past the used words.
    (&[17, 0, 0, 0, 0, 4], 0, 6, AT_ROOT),
    (&[17, 0, 0, 0, 0, 0, 5, 1, 3], 0, 9, AT_SECOND),
    (&[17, 0, 0, 0, 0, 0, 5, 1, 6], 0, 9, AT_SECOND),
    (&[17, 0, 0, 0, 0, 26, 1, 1], 0, 6, AT_ROOT),
];

fn check(rt: &impl Abort, alloc: Global, case: &Case) {
    let (words, base, used, want) = *case;
    assert!(rt; words.len() < 99);
    let mut words = WordSlice::of(words);
    assert!(rt; used <= words.size());
    assert!(rt; base <= words.size() - used);
    same(rt, walk(alloc, &mut words, base, used), want);
}

#[test]
fn spaces_are_walked(rt: HostRuntime) {
    for case in &CASES {
        check(&rt, rt.alloc(), case);
    }
}

/// An object of two fields at address 8, and its old place at 0.
const MOVED: [u64; 12] = [34, 0, 0, 0, 0, 0, 0, 0, 9, 4, 1, 2];

/// Addresses, and how many fields the object there has, if there is one.
const OBJECTS: [(u32, Option<u32>); 3] = [(8, Some(2)), (0, None), (12, None)];

/// Addresses, and where the object to which they lead stands.
const STAND: [(u32, Option<u32>); 3] = [(0, Some(8)), (8, Some(8)), (9, None)];

#[test]
fn objects_are_found(rt: HostRuntime) {
    let mut words = WordSlice::of(&MOVED);
    for (at, want) in &OBJECTS {
        let found = object_at(&mut words, *at);
        same(&rt, (*at, found), (*at, Ok(*want)));
    }
    for (at, want) in &STAND {
        let found = stand(&mut words, *at);
        same(&rt, (*at, found), (*at, Ok(*want)));
    }
}

#[test]
fn fields_are_read(rt: HostRuntime) {
    match fields(rt.alloc(), &mut WordSlice::of(&MOVED), 8) {
        Ok(Some(fields)) => same(&rt, fields.as_slice(), &[1, 2]),
        _ => panic!(rt; "no fields were read"),
    }
}
