//! Records on pages some of which are stored in between: an opening and redo give the words that the records leave. And which page has to be
//! stored before another one is written.
ghost use Rattle.std.specs.Prelude.{◌+◌, ◌<◌, length, IfOk};
ghost use Rattle.log_machine.specs.Effect.{WritesBelow, EachWritesBelow};

use crate::compare::same;
use crate::disks::disk_of;
use disk_model::{Disk, DiskError, MemoryDisk, Pick};
use image_plan::Plan;
use log_records::{ObjectWords, Record};
use page_cache::PageCache;
use page_store::ReadPagesError;
use std::alloc::{AllocError, Global};
use std::process::Abort;
use std::test::Fail;

/// A heap of two pages a space, so four pages of 256 words in all, with 64 bytes of log.
const PLAN: Plan = Plan {
    pages: 2,
    log_bytes: 64,
};

fn update(object: u32, field: u16, word: u64) -> Record
    requires { object + 2 + field < 256 }
    ensures { WritesBelow 256 result }
{
    Record::Update {
        t: 1,
        object,
        field,
        was: 0,
        word,
    }
}

fn fix(object: u32, field: u16, word: u64) -> Record
    requires { object + 2 + field < 256 }
    ensures { WritesBelow 256 result }
{
    Record::Fix {
        t: 1,
        object,
        field,
        word,
    }
}

fn undo(object: u32, field: u16, word: u64) -> Record
    requires { object + 2 + field < 256 }
    ensures { WritesBelow 256 result }
{
    Record::Undo {
        t: 1,
        object,
        field,
        word,
    }
}

/// An object whose fields lie on pages 0 and 1.
fn base(alloc: Global, word: u64) -> Result<Record, AllocError>
    ensures { IfOk result (λ rec. WritesBelow 256 rec) }
{
    let words = vec![in alloc; 17, 7, word, word, word, word]?;
    Ok(Record::Base {
        t: 1,
        address: 60,
        words: ObjectWords::new(words),
    })
}

/// Records that touch pages 0, 0 and 1, none, 1, 0, 1, 1, 3 and none.
fn records(alloc: Global) -> Result<Vec<Record>, AllocError>
    ensures { IfOk result (λ found. EachWritesBelow 256 found.items) }
{
    let mut records = Vec::new(alloc);
    records.push(update(0, 0, 5))?;
    records.push(base(alloc, 9)?)?;
    records.push(Record::Commit { t: 1 })?;
    records.push(update(60, 3, 13))?;
    records.push(update(0, 3, 17))?;
    records.push(fix(60, 2, 21))?;
    records.push(undo(60, 3, 9))?;
    records.push(update(200, 53, 25))?;
    records.push(Record::End { t: 1 })?;
    Ok(records)
}

/// After how many records which page is flushed, and the LSNs with which the pages are then stored.
type Row = ([(u64, u32); 3], [u64; 4]);

/// No page is stored; one is, of the two that a record touches; each of them at another time; some after their last record, some
/// before it; all are stored as they are; one is stored twice.
const ROWS: [Row; 6] = [
    ([(0, 0), (0, 0), (0, 0)], [0, 0, 0, 0]),
    ([(2, 0), (0, 0), (0, 0)], [2, 0, 0, 0]),
    ([(2, 1), (5, 0), (0, 0)], [5, 2, 0, 0]),
    ([(1, 0), (4, 1), (9, 3)], [1, 4, 0, 8]),
    ([(9, 0), (9, 1), (9, 3)], [5, 7, 0, 8]),
    ([(2, 0), (5, 0), (7, 1)], [5, 7, 0, 0]),
];

/// A disk of zeros.
fn new_disk(alloc: Global) -> Result<MemoryDisk, AllocError> {
    let bytes = vec![in alloc; 0u8; 4352]?;
    disk_of(alloc, bytes, Pick::AllOnes, 99_999, (&[], &[]))
}

// What follows wraps calls with long contracts, since each of their callers would otherwise prove them anew.

fn open(
    rt: &impl Abort,
    alloc: Global,
    disk: &mut MemoryDisk,
    frames: u32,
) -> Result<PageCache, ReadPagesError> {
    assert!(rt; disk.size() >= PLAN.size());
    PageCache::open(alloc, disk, PLAN, frames)
}

/// Stores page `p` as it is now.
fn flush(
    rt: &impl Abort,
    cache: &mut PageCache,
    disk: &mut MemoryDisk,
    p: u32,
    forced: u64,
) -> Result<(), DiskError> {
    assert!(rt; p < cache.pages() && disk.size() >= cache.plan().size());
    assert!(rt; cache.dirty(p) && !cache.failed());
    assert!(rt; cache.lsn(p) <= forced);
    cache.flush(disk, p, forced)?;
    check_clean(rt, cache, p);
    Ok(())
}

fn check_clean(rt: &impl Abort, cache: &PageCache, p: u32) {
    assert!(rt; p < cache.pages());
    same(rt, cache.dirty(p), false);
}

/// Puts a record, of that LSN, on the pages that lack it.
fn redo_one(rt: &impl Abort, cache: &mut PageCache, lsn: u64, rec: &Record)
    requires { WritesBelow 256 rec.now }
{
    assert!(rt; cache.as_slice().len() == 256);
    cache.redo(lsn, rec);
}

/// Puts what a record writes on page `p`, for which no page has to be stored before.
fn write(rt: &impl Abort, cache: &mut PageCache, lsn: u64, p: u32, rec: &Record)
    requires { WritesBelow 256 rec.now }
{
    assert!(rt; cache.as_slice().len() == 256 && p < cache.pages());
    assert!(rt; cache.lsn(p) < lsn && cache.victim(p).is_none());
    cache.write(lsn, p, rec);
}

fn redo(rt: &impl Abort, cache: &mut PageCache, records: &[Record])
    requires { EachWritesBelow 256 records.now }
{
    assert!(rt; cache.as_slice().len() == 256 && records.len() < 99);
    cache.redo_all(1, records);
}

/// Stores the pages that are flushed after that many records.
fn flush_due(
    rt: &impl Abort,
    cache: &mut PageCache,
    disk: &mut MemoryDisk,
    flushes: &[(u64, u32); 3],
    done: u64,
) -> Result<(), DiskError> {
    for (at, p) in flushes {
        if *at == done {
            flush(rt, cache, disk, *p, done)?;
        }
    }
    Ok(())
}

/// Puts the records on the pages of the disk one after another, and stores some of these pages in between.
fn play(
    rt: &impl Abort,
    alloc: Global,
    disk: &mut MemoryDisk,
    records: &[Record],
    flushes: &[(u64, u32); 3],
) -> Result<(), Fail>
    requires { EachWritesBelow 256 records.now }
{
    let mut cache = open(rt, alloc, disk, 4)?;
    for (i, rec) in records.iter().enumerate() {
        redo_one(rt, &mut cache, i as u64 + 1, rec);
        flush_due(rt, &mut cache, disk, flushes, i as u64 + 1)?;
    }
    Ok(())
}

/// LSNs, and the first page past each of them, with all records on the pages.
const FIRSTS_PAST: [(u64, Option<u32>); 5] = [
    (0, Some(0)),
    (4, Some(0)),
    (6, Some(1)),
    (7, Some(3)),
    (8, None),
];

fn check_firsts_past(rt: &impl Abort, cache: &PageCache) {
    for (lsn, want) in &FIRSTS_PAST {
        same(rt, (*lsn, cache.first_past(*lsn)), (*lsn, *want));
    }
}

/// The LSNs of the four pages.
fn lsns(rt: &impl Abort, cache: &PageCache) -> [u64; 4] {
    assert!(rt; cache.pages() == 4);
    [cache.lsn(0), cache.lsn(1), cache.lsn(2), cache.lsn(3)]
}

/// Opens the pages, which have these LSNs, and redoes the records on them.
fn redone(
    rt: &impl Abort,
    alloc: Global,
    disk: &mut MemoryDisk,
    records: &[Record],
    stored: [u64; 4],
) -> Result<PageCache, ReadPagesError>
    requires { EachWritesBelow 256 records.now }
{
    let mut cache = open(rt, alloc, disk, 4)?;
    same(rt, lsns(rt, &cache), stored);
    redo(rt, &mut cache, records);
    Ok(cache)
}

/// The words after all records, by their addresses: the header of the root at 0, and what the records put. All others are 0.
const WORDS: [(usize, u64); 10] = [
    (0, 17),
    (2, 5),
    (5, 17),
    (60, 17),
    (61, 7),
    (62, 9),
    (63, 9),
    (64, 21),
    (65, 9),
    (255, 25),
];

/// The words of the four pages after all records.
fn words_left(alloc: Global) -> Result<Vec<u64>, AllocError> {
    let mut words = vec![in alloc; 0u64; 256]?;
    for (at, word) in &WORDS {
        if let Some(place) = words.get_mut(*at) {
            *place = *word;
        }
    }
    Ok(words)
}

/// Plays the records, restarts the disk, and compares what redo gives with the words that they leave.
fn check_row(
    rt: &impl Abort,
    alloc: Global,
    records: &[Record],
    row: &Row,
    words: &[u64],
) -> Result<(), Fail>
    requires { EachWritesBelow 256 records.now }
{
    let (flushes, stored) = row;
    let mut disk = new_disk(alloc)?;
    play(rt, alloc, &mut disk, records, flushes)?;
    disk.restart();
    let cache = redone(rt, alloc, &mut disk, records, *stored)?;
    same(rt, (stored, cache.as_slice()), (stored, words));
    same(rt, lsns(rt, &cache), [5, 7, 0, 8]);
    Ok(())
}

#[test]
fn redone_after_a_restart(rt: HostRuntime) -> Result<(), Fail> {
    let records = records(rt.alloc())?;
    let words = words_left(rt.alloc())?;
    for row in &ROWS {
        check_row(&rt, rt.alloc(), &records, row, &words)?;
    }
    Ok(())
}

/// The pages of a new disk with the records on them.
fn redone_on_new(rt: &impl Abort, alloc: Global) -> Result<PageCache, Fail> {
    let mut disk = new_disk(alloc)?;
    let records = records(alloc)?;
    Ok(redone(rt, alloc, &mut disk, &records, [0; 4])?)
}

/// The words at three addresses.
fn three_words(rt: &impl Abort, cache: &PageCache) -> [u64; 3] {
    assert!(rt; cache.as_slice().len() == 256);
    [cache.word(2), cache.word(65), cache.word(255)]
}

#[test]
fn words_by_address_and_pages_ahead_of_a_log(rt: HostRuntime) -> Result<(), Fail> {
    let cache = redone_on_new(&rt, rt.alloc())?;
    same(&rt, three_words(&rt, &cache), [5, 9, 25]);
    check_firsts_past(&rt, &cache);
    Ok(())
}

/// The victims of the four pages.
fn victims(rt: &impl Abort, cache: &PageCache) -> [Option<u32>; 4] {
    assert!(rt; cache.pages() == 4);
    [
        cache.victim(0),
        cache.victim(1),
        cache.victim(2),
        cache.victim(3),
    ]
}

#[test]
fn victims_by_lsn_and_page(rt: HostRuntime) -> Result<(), Fail> {
    let mut disk = new_disk(rt.alloc())?;
    let mut cache = open(&rt, rt.alloc(), &mut disk, 2)?;
    let both = base(rt.alloc(), 9)?;
    write(&rt, &mut cache, 1, 1, &both);
    same(&rt, victims(&rt, &cache), [None; 4]);
    write(&rt, &mut cache, 1, 0, &both);
    same(&rt, victims(&rt, &cache), [None, None, Some(0), Some(0)]);
    write(&rt, &mut cache, 2, 0, &update(0, 0, 5));
    same(&rt, victims(&rt, &cache), [None, None, Some(1), Some(1)]);
    flush(&rt, &mut cache, &mut disk, 1, 2)?;
    same(&rt, victims(&rt, &cache), [None; 4]);
    write(&rt, &mut cache, 3, 3, &update(200, 53, 25));
    same(&rt, victims(&rt, &cache), [None, Some(0), Some(0), None]);
    same(&rt, cache.frames(), 2);
    Ok(())
}

/// Redo asks for no victim: of four pages three are dirty after it, where one may be.
#[test]
fn more_dirty_pages_after_redo(rt: HostRuntime) -> Result<(), Fail> {
    let mut disk = new_disk(rt.alloc())?;
    let records = records(rt.alloc())?;
    let mut cache = open(&rt, rt.alloc(), &mut disk, 1)?;
    redo(&rt, &mut cache, &records);
    same(&rt, victims(&rt, &cache), [None, None, Some(0), None]);
    Ok(())
}

#[test]
fn no_frames(rt: HostRuntime) -> Result<(), Fail> {
    let mut disk = new_disk(rt.alloc())?;
    let cache = open(&rt, rt.alloc(), &mut disk, 0)?;
    same(&rt, victims(&rt, &cache), [None; 4]);
    Ok(())
}
