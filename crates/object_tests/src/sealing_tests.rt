//! What a seal promotes of two objects, of which the first refers to the second.
ghost use Rattle.std.specs.Prelude.{◌<◌, length, reverse};
ghost use Rattle.std.specs.List.{AllByRecursion};
ghost use Rattle.log_machine.specs.Machine.{field_at};

use crate::areas::{area_of, refer, set};
use crate::compare::same;
use heap_words::{Word, encode};
use log_machine::UndoEntry;
use log_records::{ObjectWords, Record};
use sealing::Sealing;
use std::alloc::{AllocError, Global};
use std::process::Abort;
use std::test::Fail;
use volatile_area::Area;

/// The word address after the root object.
const ADDRESS: u32 = 6;

/// Transaction 2 wrote three fields of the root object, one of them twice.
const UNDO: [UndoEntry; 4] = [
    UndoEntry {
        object: 0,
        field: 3,
        was: 0,
    },
    UndoEntry {
        object: 0,
        field: 1,
        was: 0,
    },
    UndoEntry {
        object: 0,
        field: 0,
        was: 0,
    },
    UndoEntry {
        object: 0,
        field: 1,
        was: 0,
    },
];

/// The words of the root object, and what a seal takes and appends then: objects at addresses, and words in fields of the root
/// object, before the commit.
#[derive(Drop)]
struct Case {
    words: [u64; 6],
    need: u64,
    bases: &'static [(u32, &'static [u64])],
    fixes: &'static [(u16, u64)],
}

/// The births of the root object and of the two that transaction 2 made.
const ROOT: u64 = 1 << 32 | 1;

const FIRST: u64 = 2 << 32 | 1;

const SECOND: u64 = 2 << 32 | 2;

const CASES: [Case; 3] = [
    // A number, and the first object.
    Case {
        words: [17, ROOT, 29, 3, 0, 0],
        need: 7,
        bases: &[(6, &[9, FIRST, 0, 42]), (10, &[5, SECOND, 21])],
        fixes: &[(1, 26)],
    },
    // The second object, twice.
    Case {
        words: [17, ROOT, 0, 19, 0, 19],
        need: 3,
        bases: &[(6, &[5, SECOND, 21])],
        fixes: &[(1, 26), (3, 26)],
    },
    // A number, null, and the root object.
    Case {
        words: [17, ROOT, 29, 0, 0, 2],
        need: 0,
        bases: &[],
        fixes: &[],
    },
];

/// How many words the seal of these writes takes, and its records.
fn promote(
    rt: &impl Abort,
    alloc: Global,
    area: &Area,
    words: &[u64],
    undo: &[UndoEntry],
) -> Result<(u64, Vec<Record>), AllocError>
    requires { AllByRecursion (λ u. field_at u.object u.field < length words.now) (reverse undo.now) }
{
    let sealing = Sealing::new(alloc, area, words, undo)?;
    let need = sealing.need();
    assert!(rt; need < 4096);
    Ok((need, sealing.records(alloc, area, words, ADDRESS)?))
}

fn base(alloc: Global, address: u32, words: &[u64]) -> Result<Record, AllocError> {
    Ok(Record::Base {
        t: 2,
        address,
        words: ObjectWords::new(words.to_vec(alloc)?),
    })
}

fn fix(field: u16, word: u64) -> Record {
    Record::Fix {
        t: 2,
        object: 0,
        field,
        word,
    }
}

fn records(alloc: Global, case: &Case) -> Result<Vec<Record>, AllocError> {
    let mut records = Vec::new(alloc);
    for (address, words) in case.bases {
        records.push(base(alloc, *address, words)?)?;
    }
    for (field, word) in case.fixes {
        records.push(fix(*field, *word))?;
    }
    records.push(Record::Commit { t: 2 })?;
    Ok(records)
}

fn check(rt: &impl Abort, alloc: Global, area: &Area, case: &Case) -> Result<(), AllocError> {
    let (need, found) = promote(rt, alloc, area, &case.words, &UNDO)?;
    same(rt, (case.words, need), (case.words, case.need));
    let want = records(alloc, case)?;
    same(rt, found.as_slice(), want.as_slice());
    Ok(())
}

#[test]
fn reached_objects_get_addresses(rt: HostRuntime) -> Result<(), Fail> {
    let mut area = area_of(&rt, rt.alloc(), 2, &[(2, 0), (1, 4)]);
    refer(&rt, &mut area, 0, 1, 4);
    set(&rt, &mut area, 4, 0, encode(Word::Int(5)));
    for case in &CASES {
        check(&rt, rt.alloc(), &area, case)?;
    }
    Ok(())
}
