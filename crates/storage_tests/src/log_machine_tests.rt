//! Records of several transactions one after another: what each of them leaves, which can't follow, and which take writes back.
use crate::compare::same;
use heap_words::birth;
use log_machine::{LogState, Runs, end_bytes};
use log_records::{ObjectWords, Record};
use std::alloc::{AllocError, Global};
use std::process::Abort;
use std::test::Fail;

/// The greatest number that a transaction can have.
const LAST: u32 = 4_294_967_294;

/// The state after a record: how many writes of transactions 2 and 3 may be taken back, the commits, the next transaction's
/// number, and the bytes that are kept.
type Behind = (usize, usize, u64, u32, u64);

/// A record, whether it can follow those before it, and the state after it.
type Step = (Record, bool, Behind);

fn steps() -> [Step; 18] {
    [
        (update(2, 0, 0, 29), true, (1, 0, 0, 3, 29)),
        (update(3, 1, 0, 37), true, (1, 1, 0, 4, 58)),
        (update(2, 0, 29, 33), true, (2, 1, 0, 4, 77)),
        (update(2, 4, 0, 33), false, (2, 1, 0, 4, 77)),
        (update(0, 2, 0, 33), false, (2, 1, 0, 4, 77)),
        (Record::Commit { t: LAST + 1 }, false, (2, 1, 0, 4, 77)),
        (Record::Commit { t: 0 }, false, (2, 1, 0, 4, 77)),
        (Record::End { t: LAST + 1 }, false, (2, 1, 0, 4, 77)),
        (Record::End { t: 2 }, false, (2, 1, 0, 4, 77)),
        (undo(3, 0, 29), false, (2, 1, 0, 4, 77)),
        (undo(2, 0, 0), false, (2, 1, 0, 4, 77)),
        (undo(2, 0, 29), true, (1, 1, 0, 4, 58)),
        (Record::Commit { t: 3 }, true, (1, 0, 1, 4, 29)),
        (undo(3, 1, 0), false, (1, 0, 1, 4, 29)),
        (Record::End { t: 7 }, true, (1, 0, 1, 8, 29)),
        (update(LAST, 2, 0, 41), true, (1, 0, 1, LAST + 1, 58)),
        (update(9, 3, 0, 45), true, (1, 0, 1, LAST + 1, 87)),
        (update(9, 3, 45, 49), true, (1, 0, 1, LAST + 1, 106)),
    ]
}

fn rolled_back() -> [Record; 7] {
    [
        undo(2, 0, 0),
        Record::End { t: 2 },
        undo(9, 3, 45),
        undo(9, 3, 0),
        Record::End { t: 9 },
        undo(LAST, 2, 0),
        Record::End { t: LAST },
    ]
}

fn update(t: u32, field: u16, was: u64, word: u64) -> Record {
    Record::Update {
        t,
        object: 0,
        field,
        was,
        word,
    }
}

fn undo(t: u32, field: u16, word: u64) -> Record {
    Record::Undo {
        t,
        object: 0,
        field,
        word,
    }
}

// Each test leaves its comparisons to functions of few lines, since a function's proof takes the square of its length.

/// Takes the record if it can follow.
fn take(rt: &impl Abort, alloc: Global, state: &mut LogState, record: &Record) -> bool {
    assert!(rt; state.commits() < 99 && state.reserve() < 999);
    state.after(alloc, record).is_ok()
}

/// How many writes of a transaction are among those that these records take back.
fn writes_of(number: u32, rollback: &[Record]) -> usize {
    let is_one = |rec: &&Record| matches!(rec, Record::Undo { t, .. } if *t == number);
    rollback.iter().filter(is_one).count()
}

fn behind(state: &LogState) -> Result<Behind, AllocError> {
    let rollback = state.rollback()?;
    let of_2 = writes_of(2, &rollback);
    let of_3 = writes_of(3, &rollback);
    Ok((of_2, of_3, state.commits(), state.next(), state.reserve()))
}

/// How many of these records can follow one another, and the state after them.
fn replayed(rt: &impl Abort, alloc: Global, records: &[Record]) -> (usize, LogState) {
    let mut state = LogState::start(alloc, 1, 1);
    for (i, record) in records.iter().enumerate() {
        if !take(rt, alloc, &mut state, record) {
            return (i, state);
        }
    }
    (records.len(), state)
}

fn check_losers(rt: &impl Abort, state: &LogState) -> Result<(), Fail> {
    same(rt, state.losers()?.as_slice(), &[2, 9, LAST]);
    same(rt, state.rollback()?.as_slice(), rolled_back().as_slice());
    Ok(())
}

#[test]
fn record_by_record(rt: HostRuntime) -> Result<(), Fail> {
    let mut state = LogState::start(rt.alloc(), 1, 1);
    for (record, follows, want) in &steps() {
        let takes = take(&rt, rt.alloc(), &mut state, record);
        same(&rt, (takes, behind(&state)?), (*follows, *want));
    }
    check_losers(&rt, &state)
}

#[test]
fn all_at_once(rt: HostRuntime) -> Result<(), Fail> {
    let records = followed(rt.alloc())?;
    let (taken, state) = replayed(&rt, rt.alloc(), &records);
    same(&rt, taken, records.len());
    same(&rt, behind(&state)?, (1, 0, 1, LAST + 1, 106));
    check_losers(&rt, &state)
}

#[test]
fn nothing_is_kept_before_the_first_record(rt: HostRuntime) -> Result<(), Fail> {
    let state = LogState::start(rt.alloc(), 1, 1);
    let records = state.rollback()?.len();
    same(&rt, (records, end_bytes(2)), (0, 48));
    Ok(())
}

/// A `Base` for the table below: its address, the two halves of its birth, how many fields it has and the word of each of them;
/// whether it can follow those before it, as a record of transaction 3; and how many words are used after it.
type Promotion = (u32, u32, u32, u32, u64, bool, u32);

/// An object of two fields is put into a space of one page, and one of 52, which takes all that is left. At an address
/// other than the next free one, with another transaction's birth, with index 0, with references to volatile objects, and without
/// room for it, none can be.
static PROMOTIONS: [Promotion; 13] = [
    (7, 3, 1, 2, 2, false, 6),
    (5, 3, 1, 2, 2, false, 6),
    (0, 3, 1, 2, 2, false, 6),
    (6, 2, 1, 2, 2, false, 6),
    (6, 0, 1, 2, 2, false, 6),
    (6, 3, 0, 2, 2, false, 6),
    (6, 3, 1, 2, 3, false, 6),
    (6, 3, 1, 1, 7, false, 6),
    (6, 3, 1, 2, 2, true, 10),
    (6, 3, 2, 1, 29, false, 10),
    (10, 3, 2, 53, 29, false, 10),
    (10, 3, 2, 52, 29, true, 64),
    (64, 3, 3, 0, 0, false, 64),
];

/// Fields of objects, words, and whether a `Fix` that puts the word there can follow the promotions of the table above.
static FIXES: [(u32, u16, u64, bool); 9] = [
    (0, 1, 26, true),
    (0, 1, 29, false),
    (0, 1, 3, false),
    (0, 1, 0, false),
    (0, 1, 4, false),
    (6, 1, 26, true),
    (10, 51, 26, true),
    (10, 52, 26, false),
    (u32::MAX, u16::MAX, 26, false),
];

fn base(
    alloc: Global,
    address: u32,
    birth: u64,
    fields: u32,
    word: u64,
) -> Result<Record, AllocError> {
    let mut words = Vec::new(alloc);
    words.push(4 * u64::from(fields) + 1)?;
    words.push(birth)?;
    for _ in 0..fields {
        words.push(word)?;
    }
    Ok(Record::Base {
        t: 3,
        address,
        words: ObjectWords::new(words),
    })
}

fn fix(object: u32, field: u16, word: u64) -> Record {
    Record::Fix {
        t: 3,
        object,
        field,
        word,
    }
}

fn promote(
    rt: &impl Abort,
    alloc: Global,
    state: &mut LogState,
    promotion: Promotion,
) -> Result<(), AllocError> {
    let (address, made_in, made_as, fields, word, follows, used) = promotion;
    let record = base(alloc, address, birth(made_in, made_as), fields, word)?;
    same(
        rt,
        (take(rt, alloc, state, &record), state.used()),
        (follows, used),
    );
    Ok(())
}

#[test]
fn objects_become_stable(rt: HostRuntime) -> Result<(), Fail> {
    let mut state = LogState::start(rt.alloc(), 1, 1);
    for promotion in &PROMOTIONS {
        promote(&rt, rt.alloc(), &mut state, *promotion)?;
    }
    same(&rt, (state.pages(), state.base(), state.next()), (1, 0, 4));
    Ok(())
}

/// The records of the table above that can follow.
fn promoted(alloc: Global) -> Result<Vec<Record>, AllocError> {
    let mut records = Vec::new(alloc);
    records.push(base(alloc, 6, birth(3, 1), 2, 2)?)?;
    records.push(base(alloc, 10, birth(3, 2), 52, 29)?)?;
    Ok(records)
}

fn check_fixes(rt: &impl Abort, alloc: Global, mut state: LogState) {
    for (object, field, word, follows) in &FIXES {
        let (object, field, word, follows) = (*object, *field, *word, *follows);
        let taken = take(rt, alloc, &mut state, &fix(object, field, word));
        same(
            rt,
            (object, field, word, taken),
            (object, field, word, follows),
        );
    }
}

#[test]
fn fields_refer_to_stable_objects(rt: HostRuntime) -> Result<(), Fail> {
    let (taken, state) = replayed(&rt, rt.alloc(), &promoted(rt.alloc())?);
    same(&rt, taken, 2);
    check_fixes(&rt, rt.alloc(), state);
    Ok(())
}

/// The records of the first table that can follow.
fn followed(alloc: Global) -> Result<Vec<Record>, AllocError> {
    let mut records = Vec::new(alloc);
    for (record, follows, ..) in steps() {
        if follows {
            records.push(record)?;
        }
    }
    Ok(records)
}

/// An object of one field at address 60.
fn small_object(alloc: Global) -> Result<Record, AllocError> {
    let words = vec![in alloc; 5, 12_884_901_889, 29]?;
    Ok(Record::Base {
        t: 3,
        address: 60,
        words: ObjectWords::new(words),
    })
}

/// The address and the words of each run that a record writes.
type Puts = (Vec<usize>, Vec<u64>);

fn add_runs((addresses, words): &mut Puts, record: &Record) -> Result<(), AllocError> {
    for run in Runs::of(record) {
        addresses.push(run.address())?;
        words.extend_from_slice(run.words())?;
    }
    Ok(())
}

#[test]
fn what_a_record_puts(rt: HostRuntime) -> Result<(), Fail> {
    let mut all = (Vec::new(rt.alloc()), Vec::new(rt.alloc()));
    let undo = Record::Undo {
        t: 9,
        object: 60,
        field: 3,
        word: 45,
    };
    add_runs(&mut all, &undo)?;
    add_runs(&mut all, &Record::End { t: 9 })?;
    same(&rt, all.0.as_slice(), &[65]);
    same(&rt, all.1.as_slice(), &[45]);
    Ok(())
}

#[test]
fn what_an_object_puts(rt: HostRuntime) -> Result<(), Fail> {
    let mut all = (Vec::new(rt.alloc()), Vec::new(rt.alloc()));
    let refers = Record::Fix {
        t: 3,
        object: 0,
        field: 1,
        word: 242,
    };
    add_runs(&mut all, &small_object(rt.alloc())?)?;
    add_runs(&mut all, &refers)?;
    same(&rt, all.0.as_slice(), &[60, 3]);
    same(&rt, all.1.as_slice(), &[5, 12_884_901_889, 29, 242]);
    Ok(())
}

#[test]
fn the_first_that_cant_follow_is_told(rt: HostRuntime) -> Result<(), Fail> {
    let mut records = followed(rt.alloc())?;
    let follow = records.len();
    records.push(Record::End { t: 9 })?;
    records.push(Record::End { t: 0 })?;
    let (taken, _) = replayed(&rt, rt.alloc(), &records);
    same(&rt, taken, follow);
    Ok(())
}
