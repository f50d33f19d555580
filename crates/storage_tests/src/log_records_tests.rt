//! Records byte by byte, one of each kind, and bytes that are none.
ghost use Rattle.std.specs.Prelude.{◌≤◌, length, IfOk};

use crate::compare::same;
use byteorder::{ByteOrder, LittleEndian};
use log_records::{Copies, ObjectCopy, ObjectWords, Record, Writes, decode, encode, length};
use std::alloc::{AllocError, Global};
use std::process::Abort;
use std::test::Fail;

/// Records without words of objects, and their bytes. Transaction 1 writes the number 7 where null stood; a field refers to the
/// object at address 262 from then on; the number is put back into field 2; and transaction 1 is committed, and has ended. Two
/// are of numbers that no transaction has, and the last one is of a collection. The bytes of the `Update`, the `Fix` and the
/// `Commit` stand in `docs/FORMATS.md` too.
const PLAIN: [(Record, &[u8]); 8] = [
    (
        Record::Update {
            t: 1,
            object: 0,
            field: 0,
            was: 0,
            word: 29,
        },
        &[
            1, 1, 0, 0, 0, 0, 0, 0, 0, 0, 0, 0, 0, 0, 0, 0, 0, 0, 0, 29, 0, 0, 0, 0, 0, 0, 0,
        ],
    ),
    (
        Record::Fix {
            t: 1,
            object: 0,
            field: 3,
            word: 1050,
        },
        &[3, 1, 0, 0, 0, 0, 0, 0, 0, 3, 0, 26, 4, 0, 0, 0, 0, 0, 0],
    ),
    (
        Record::Undo {
            t: 1,
            object: 0,
            field: 2,
            word: 29,
        },
        &[4, 1, 0, 0, 0, 0, 0, 0, 0, 2, 0, 29, 0, 0, 0, 0, 0, 0, 0],
    ),
    (Record::Commit { t: 1 }, &[5, 1, 0, 0, 0]),
    (Record::End { t: 1 }, &[6, 1, 0, 0, 0]),
    (Record::Commit { t: 0 }, &[5, 0, 0, 0, 0]),
    (Record::End { t: u32::MAX }, &[6, 255, 255, 255, 255]),
    (Record::Collected, &[10]),
];

/// An object's words, its old address, if it had one, and its address.
type Object = (u32, u32, &'static [u64]);

/// A record with words, as a table can have it.
enum Listed {
    Base(u32, u32, &'static [u64]),
    Copy(Object),
    Scan(u32, &'static [(u32, u64)]),
    Flip(Object, Object),
}

/// Records with words, and their bytes. The second object of transaction 1, of two fields, one null and one a reference to the
/// root, is put at address 262; an object without fields is of a number that no transaction has; the object of two
/// fields, the first of which refers to a transaction's own object, is copied from address 262 to 64; two words of page 1 are
/// set, one to a reference to the object at address 68, the other to null; and an object without fields and one of a field are
/// copied, to addresses 64 and 66. The bytes of the first `Base` stand in `docs/FORMATS.md` too.
static LISTED: [(Listed, &[u8]); 5] = [
    (
        Listed::Base(1, 262, &[9, 1 << 32 | 2, 0, 2]),
        &[
            2, 1, 0, 0, 0, 6, 1, 0, 0, 9, 0, 0, 0, 0, 0, 0, 0, 2, 0, 0, 0, 1, 0, 0, 0, 0, 0, 0, 0,
            0, 0, 0, 0, 2, 0, 0, 0, 0, 0, 0, 0,
        ],
    ),
    (
        Listed::Base(0, u32::MAX, &[1, 0]),
        &[
            2, 0, 0, 0, 0, 255, 255, 255, 255, 1, 0, 0, 0, 0, 0, 0, 0, 0, 0, 0, 0, 0, 0, 0, 0,
        ],
    ),
    (
        Listed::Copy((262, 64, &[9, 1 << 32 | 2, 3, 1050])),
        &[
            7, 6, 1, 0, 0, 64, 0, 0, 0, 9, 0, 0, 0, 0, 0, 0, 0, 2, 0, 0, 0, 1, 0, 0, 0, 3, 0, 0, 0,
            0, 0, 0, 0, 26, 4, 0, 0, 0, 0, 0, 0,
        ],
    ),
    (
        Listed::Scan(1, &[(66, 274), (67, 0)]),
        &[
            8, 1, 0, 0, 0, 2, 0, 66, 0, 0, 0, 18, 1, 0, 0, 0, 0, 0, 0, 67, 0, 0, 0, 0, 0, 0, 0, 0,
            0, 0, 0,
        ],
    ),
    (
        Listed::Flip((0, 64, &[1, 0]), (262, 66, &[5, 1 << 32 | 2, 3])),
        &[
            9, 2, 0, 0, 0, 0, 0, 0, 0, 64, 0, 0, 0, 1, 0, 0, 0, 0, 0, 0, 0, 0, 0, 0, 0, 0, 0, 0, 0,
            6, 1, 0, 0, 66, 0, 0, 0, 5, 0, 0, 0, 0, 0, 0, 0, 2, 0, 0, 0, 1, 0, 0, 0, 3, 0, 0, 0, 0,
            0, 0, 0,
        ],
    ),
];

fn object_words(alloc: Global, words: &[u64]) -> Result<ObjectWords, AllocError> {
    Ok(ObjectWords::new(words.to_vec(alloc)?))
}

fn base(alloc: Global, t: u32, address: u32, words: &[u64]) -> Result<Record, AllocError> {
    let words = object_words(alloc, words)?;
    Ok(Record::Base { t, address, words })
}

fn copy(alloc: Global, (from, to, words): Object) -> Result<Record, AllocError> {
    let words = object_words(alloc, words)?;
    Ok(Record::Copy { from, to, words })
}

fn scan(
    rt: &impl Abort,
    alloc: Global,
    page: u32,
    writes: &[(u32, u64)],
) -> Result<Record, AllocError> {
    let writes = writes.to_vec(alloc)?;
    assert!(rt; writes.len() < 99);
    let writes = Writes::new(writes);
    Ok(Record::Scan { page, writes })
}

fn object_copy(rt: &impl Abort, alloc: Global, object: Object) -> Result<ObjectCopy, AllocError>
    ensures { IfOk result (λ copy. length copy.words ≤ 512) }
{
    let (from, to, words) = object;
    let words = object_words(alloc, words)?;
    assert!(rt; words.as_slice().len() <= 512);
    Ok(ObjectCopy { from, to, words })
}

fn flip(
    rt: &impl Abort,
    alloc: Global,
    first: Object,
    second: Object,
) -> Result<Record, AllocError> {
    let mut copies = Vec::new(alloc);
    copies.push(object_copy(rt, alloc, first)?)?;
    copies.push(object_copy(rt, alloc, second)?)?;
    let copies = Copies::new(copies);
    Ok(Record::Flip { copies })
}

fn made(rt: &impl Abort, alloc: Global, listed: &Listed) -> Result<Record, AllocError> {
    match listed {
        Listed::Base(t, address, words) => base(alloc, *t, *address, words),
        Listed::Copy(object) => copy(alloc, *object),
        Listed::Scan(page, writes) => scan(rt, alloc, *page, writes),
        Listed::Flip(first, second) => flip(rt, alloc, *first, *second),
    }
}

/// Bytes that begin with no record: kinds that are none; and the word 3 * 2^60, which no field has, at each word of an
/// `Update`, at that of an `Undo`, at that of a `Fix`, at a field of a `Base`, and at that of a `Scan`; and a `Base` whose header
/// is one of a moved object, and one of 511 fields; and a `Flip` of one object that counts 4,294,967,295.
static NO_RECORDS: [&[u8]; 13] = [
    &[],
    &[0, 1, 0, 0, 0],
    &[
        11, 1, 0, 0, 0, 1, 0, 0, 0, 1, 0, 0, 0, 0, 0, 0, 0, 0, 0, 0, 0, 0, 0, 0, 0,
    ],
    &[12],
    &[
        1, 1, 0, 0, 0, 0, 0, 0, 0, 0, 0, 0, 0, 0, 0, 0, 0, 0, 48, 29, 0, 0, 0, 0, 0, 0, 0,
    ],
    &[
        1, 1, 0, 0, 0, 0, 0, 0, 0, 0, 0, 0, 0, 0, 0, 0, 0, 0, 0, 0, 0, 0, 0, 0, 0, 0, 48,
    ],
    &[4, 1, 0, 0, 0, 0, 0, 0, 0, 2, 0, 0, 0, 0, 0, 0, 0, 0, 48],
    &[3, 1, 0, 0, 0, 0, 0, 0, 0, 2, 0, 0, 0, 0, 0, 0, 0, 0, 48],
    &[
        2, 1, 0, 0, 0, 6, 0, 0, 0, 5, 0, 0, 0, 0, 0, 0, 0, 2, 0, 0, 0, 1, 0, 0, 0, 0, 0, 0, 0, 0,
        0, 0, 48,
    ],
    &[
        2, 1, 0, 0, 0, 6, 0, 0, 0, 2, 0, 0, 0, 0, 0, 0, 0, 2, 0, 0, 0, 1, 0, 0, 0,
    ],
    &[
        2, 1, 0, 0, 0, 6, 0, 0, 0, 253, 7, 0, 0, 0, 0, 0, 0, 2, 0, 0, 0, 1, 0, 0, 0,
    ],
    &[8, 1, 0, 0, 0, 1, 0, 66, 0, 0, 0, 0, 0, 0, 0, 0, 0, 0, 48],
    &[
        9, 255, 255, 255, 255, 0, 0, 0, 0, 64, 0, 0, 0, 1, 0, 0, 0, 0, 0, 0, 0, 0, 0, 0, 0, 0, 0,
        0, 0,
    ],
];

/// Reads a record, and compares it and how many bytes it takes.
fn read(
    rt: &impl Abort,
    alloc: Global,
    bytes: &[u8],
    record: &Record,
    len: usize,
) -> Result<(), AllocError> {
    let Some((found, taken)) = decode(alloc, bytes)? else {
        panic!(rt; "no record");
    };
    same(rt, (bytes, &found, taken), (bytes, record, len));
    Ok(())
}

/// Bytes that begin with no record.
fn refused(rt: &impl Abort, alloc: Global, bytes: &[u8]) -> Result<(), AllocError> {
    let found = decode(alloc, bytes)?;
    same(rt, (bytes, found.is_none()), (bytes, true));
    Ok(())
}

/// Spells a record, compares the bytes, and spells it once more after them.
fn spell(
    rt: &impl Abort,
    alloc: Global,
    record: &Record,
    bytes: &[u8],
) -> Result<Vec<u8>, AllocError> {
    let mut spelled = Vec::new(alloc);
    encode(record, &mut spelled)?;
    let found = (spelled.as_slice(), length(record));
    same(rt, found, (bytes, bytes.len() as u64));
    encode(record, &mut spelled)?;
    Ok(spelled)
}

/// Spells a record, alone and followed by bytes, and reads it again.
fn spell_and_read(
    rt: &impl Abort,
    alloc: Global,
    record: &Record,
    bytes: &[u8],
) -> Result<(), AllocError> {
    let twice = spell(rt, alloc, record, bytes)?;
    read(rt, alloc, bytes, record, bytes.len())?;
    read(rt, alloc, &twice, record, bytes.len())
}

/// Bytes that are cut off anywhere.
fn cut_off(rt: &impl Abort, alloc: Global, bytes: &[u8]) -> Result<(), AllocError> {
    for end in 0..bytes.len() {
        refused(rt, alloc, &bytes[..end])?;
    }
    Ok(())
}

/// Spells a record and reads it again, and cuts its bytes off anywhere.
fn check(rt: &impl Abort, alloc: Global, record: &Record, bytes: &[u8]) -> Result<(), AllocError> {
    spell_and_read(rt, alloc, record, bytes)?;
    cut_off(rt, alloc, bytes)
}

#[test]
fn plain_records_are_spelled_and_read_again(rt: HostRuntime) -> Result<(), Fail> {
    for (record, bytes) in &PLAIN {
        check(&rt, rt.alloc(), record, bytes)?;
    }
    Ok(())
}

#[test]
fn records_with_words_are_spelled_and_read_again(rt: HostRuntime) -> Result<(), Fail> {
    for (listed, bytes) in &LISTED {
        let record = made(&rt, rt.alloc(), listed)?;
        check(&rt, rt.alloc(), &record, bytes)?;
    }
    Ok(())
}

#[test]
fn bytes_that_begin_with_no_record_are_refused(rt: HostRuntime) -> Result<(), Fail> {
    for bytes in &NO_RECORDS {
        refused(&rt, rt.alloc(), bytes)?;
    }
    Ok(())
}

/// The byte that a `Base` begins with.
const BASE: u8 = 2;

/// Headers of 0, 1, 510, 511 and 600 fields, and the bytes of the `Base` that begins so, if there is one.
static HEADERS: [(u16, Option<usize>); 5] = [
    (1, Some(25)),
    (5, Some(33)),
    (2041, Some(4105)),
    (2045, None),
    (2401, None),
];

/// Compares how many bytes the `Base` with this header takes.
fn check_size(
    rt: &impl Abort,
    alloc: Global,
    header: u16,
    want: Option<usize>,
) -> Result<(), AllocError> {
    let mut bytes = vec![in alloc; 0u8; 5000]?;
    bytes[0] = BASE;
    LittleEndian::write_u16(&mut bytes[9..], header);
    let size = match decode(alloc, &bytes)? {
        Some((_, size)) => Some(size),
        None => None,
    };
    same(rt, (header, size), (header, want));
    Ok(())
}

#[test]
fn as_many_words_as_the_header_tells(rt: HostRuntime) -> Result<(), Fail> {
    for (header, want) in &HEADERS {
        check_size(&rt, rt.alloc(), *header, *want)?;
    }
    Ok(())
}

#[test]
fn the_words_of_an_object(rt: HostRuntime) -> Result<(), Fail> {
    let words = object_words(rt.alloc(), &[5, 2, 0])?;
    same(&rt, words.as_slice(), &[5, 2, 0]);
    same(&rt, words.into_vec().as_slice(), &[5, 2, 0]);
    Ok(())
}
