//! Records that are carried out with forces and stores in between, in a random order and where so many pages may be dirty: memory has the words and the
//! LSNs that they leave, and so have the pages after a restart, once the forced records are redone on the stored ones. And which pages are stored to make
//! way for others, in how many calls.
ghost use Rattle.std.specs.Prelude.{◌≡◌, ◌+◌, ◌<◌, ◌≤◌, length, IfOk};
ghost use Rattle.log_machine.specs.Effect.{WritesBelow, EachWritesBelow};

use crate::compare::same;
use crate::disks::disk_of;
use disk_model::{Disk, FuseDisk, MemoryDisk, Pick};
use gated_log::Log;
use image_plan::Plan;
use log_records::{Copies, ObjectCopy, ObjectWords, Record, Writes, length};
use logged_pages::{Listed, LoggedPages};
use page_cache::PageCache;
use std::alloc::{AllocError, Global};
use std::process::Abort;
use std::test::Fail;

/// A heap of four pages a space, so eight pages of 512 words in all, with 16 KiB of log.
const PLAN: Plan = Plan {
    pages: 4,
    log_bytes: 16_384,
};

/// Writes on pages 2, 1 and 7, in no order, and twice at one address.
const WRITES: [(u32, u64); 5] = [(140, 5), (64, 9), (511, 13), (127, 17), (140, 21)];

/// An object of that many fields, each with that word.
fn object(alloc: Global, fields: u8, word: u64) -> Result<Vec<u64>, AllocError>
    ensures { IfOk result (λ words. length words.items ≡ fields + 2) }
{
    let mut words = vec![in alloc; word; 2 + fields as usize]?;
    words[0] = 4 * u64::from(fields) + 1;
    words[1] = 7;
    Ok(words)
}

/// A promotion of an object of 202 words, so on pages 0 to 4.
fn base(alloc: Global) -> Result<Record, AllocError>
    ensures { IfOk result (λ rec. WritesBelow 512 rec) }
{
    let words = ObjectWords::new(object(alloc, 200, 29)?);
    Ok(Record::Base {
        t: 1,
        address: 60,
        words,
    })
}

/// A copy of an object of so many words from one address to another.
fn copied(alloc: Global, from: u32, to: u32, fields: u8) -> Result<ObjectCopy, AllocError>
    ensures { IfOk result (λ copy. (copy.from ≡ from) × (copy.to ≡ to) × (length copy.words ≡ fields + 2)) }
{
    let words = ObjectWords::new(object(alloc, fields, 33)?);
    Ok(ObjectCopy { from, to, words })
}

fn copy(alloc: Global) -> Result<Record, AllocError>
    ensures { IfOk result (λ rec. WritesBelow 512 rec) }
{
    let words = ObjectWords::new(object(alloc, 100, 37)?);
    Ok(Record::Copy {
        from: 60,
        to: 300,
        words,
    })
}

/// Copies from the second space to the first and back, of which two have words on one page.
fn flip(alloc: Global) -> Result<Record, AllocError>
    ensures { IfOk result (λ rec. WritesBelow 512 rec) }
{
    let mut copies = Vec::new(alloc);
    copies.push(copied(alloc, 300, 130, 3)?)?;
    copies.push(copied(alloc, 5, 135, 70)?)?;
    Ok(Record::Flip {
        copies: Copies::new(copies),
    })
}

fn update(object: u32, field: u16) -> Record
    requires { object + 2 + field < 512 }
    ensures { WritesBelow 512 result }
{
    Record::Update {
        t: 1,
        object,
        field,
        was: 0,
        word: 41,
    }
}

fn scan(alloc: Global) -> Result<Record, AllocError>
    ensures { IfOk result (λ rec. WritesBelow 512 rec) }
{
    Ok(Record::Scan {
        page: 1,
        writes: Writes::new(WRITES.to_vec(alloc)?),
    })
}

/// Records of all kinds. The updates are of a field at the end of page 0, of one on page 1, and of the last word of all.
fn records(alloc: Global) -> Result<Vec<Record>, AllocError>
    ensures { IfOk result (λ found. EachWritesBelow 512 found.items) }
{
    let mut records = Vec::new(alloc);
    records.push(update(40, 21))?;
    records.push(base(alloc)?)?;
    records.push(update(60, 2))?;
    records.push(Record::Commit { t: 1 })?;
    records.push(copy(alloc)?)?;
    records.push(scan(alloc)?)?;
    records.push(flip(alloc)?)?;
    records.push(Record::Collected)?;
    records.push(update(500, 9))?;
    Ok(records)
}

/// What records leave, by the simplest code: the words, and the LSN of each page.
#[derive(Drop)]
struct Plain {
    words: Vec<u64>,
    lsns: [u64; 8],
}

impl Plain {
    /// Before the first record there is the root's header alone.
    fn new(alloc: Global) -> Result<Plain, AllocError> {
        let mut words = vec![in alloc; 0u64; 512]?;
        words[0] = 17;
        Ok(Plain {
            words,
            lsns: [0; 8],
        })
    }

    fn put_word(&mut self, lsn: u64, at: usize, word: u64) {
        if let Some(place) = self.words.get_mut(at) {
            *place = word;
        }
        if let Some(own) = self.lsns.get_mut(at / 64) {
            *own = lsn;
        }
    }

    fn put_words(&mut self, lsn: u64, address: u32, words: &[u64]) {
        for (i, word) in words.iter().enumerate() {
            self.put_word(lsn, (address as usize).saturating_add(i), *word);
        }
    }

    fn put_copy(&mut self, lsn: u64, from: u32, to: u32, words: &ObjectWords) {
        self.put_words(lsn, to, words.as_slice());
        self.put_word(lsn, from as usize, 4 * u64::from(to) + 2);
    }

    /// Puts a record of that LSN.
    fn put(&mut self, lsn: u64, rec: &Record) {
        match rec {
            Record::Update {
                object,
                field,
                word,
                ..
            } => self.put_word(lsn, *object as usize + 2 + *field as usize, *word),
            Record::Base { address, words, .. } => self.put_words(lsn, *address, words.as_slice()),
            Record::Copy { from, to, words } => self.put_copy(lsn, *from, *to, words),
            Record::Scan { writes, .. } => {
                for (at, word) in writes.as_slice() {
                    self.put_word(lsn, *at as usize, *word);
                }
            }
            Record::Flip { copies } => {
                for copy in copies.as_slice() {
                    self.put_copy(lsn, copy.from, copy.to, &copy.words);
                }
            }
            _ => (),
        }
    }
}

/// Numbers that look random: those of a linear congruence.
#[derive(Drop)]
struct Draws {
    state: u64,
}

impl Draws {
    /// A number below 16.
    fn next(&mut self) -> u32
        ensures { result < 16 }
    {
        self.state = self
            .state
            .wrapping_mul(6_364_136_223_846_793_005)
            .wrapping_add(1_442_695_040_888_963_407);
        (self.state >> 60) as u32
    }
}

/// A disk of zeros.
fn new_disk(alloc: Global, pick: Pick) -> Result<MemoryDisk, AllocError> {
    let bytes = vec![in alloc; 0u8; 24_896]?;
    disk_of(alloc, bytes, pick, 400_000, (&[], &[]))
}

// What follows wraps calls with long contracts, since each of their callers would otherwise prove them anew.

fn open_cache(rt: &impl Abort, alloc: Global, disk: &mut MemoryDisk) -> Result<PageCache, Fail> {
    assert!(rt; disk.size() >= PLAN.size());
    Ok(PageCache::open(alloc, disk, PLAN, 8)?)
}

fn open_log(
    rt: &impl Abort,
    alloc: Global,
    disk: &mut MemoryDisk,
) -> Result<(Log, Vec<Record>), Fail> {
    assert!(rt; disk.size() >= PLAN.size());
    Ok(Log::open(alloc, disk, PLAN.log_at(), PLAN.log_bytes)?)
}

/// Opens a disk of zeros: so many of its pages may be dirty.
fn open(
    rt: &impl Abort,
    alloc: Global,
    disk: &mut MemoryDisk,
    frames: u32,
) -> Result<LoggedPages, Fail>
    requires { 0 < frames }
{
    assert!(rt; disk.size() >= PLAN.size());
    let log = Log::open(alloc, disk, PLAN.log_at(), PLAN.log_bytes)?.0;
    let cache = PageCache::open(alloc, disk, PLAN, frames)?;
    assert!(rt; log.records() < 9 && cache.pages() <= 32_768);
    match cache.first_past(log.records()) {
        None => Ok(LoggedPages::new(log, cache)),
        Some(p) => panic!(rt; "page {p} is ahead of the log"),
    }
}

/// Carries a record out, and tells whether the disk has not stopped.
fn carried<D: Disk>(
    rt: &impl Abort,
    pages: &mut LoggedPages,
    disk: &mut D,
    rec: &Record,
) -> Result<bool, Fail>
    requires { WritesBelow 512 rec.now }
{
    let bytes = length(rec);
    assert!(rt; bytes < 99_999 && pages.as_slice().len() == 512);
    pages.reserve(bytes as usize)?;
    assert!(rt; !pages.failed() && disk.size() >= pages.plan().size());
    assert!(rt; pages.used_with(bytes) <= pages.room());
    let records = Listed {
        records: std::slice::from_ref(rec),
    };
    Ok(pages.carry_out(disk, &records).is_ok())
}

fn force(rt: &impl Abort, pages: &mut LoggedPages, disk: &mut MemoryDisk) -> Result<(), Fail> {
    assert!(rt; !pages.failed() && disk.size() >= pages.plan().size());
    pages.force(disk)?;
    same(
        rt,
        (pages.pending(), pages.forced()),
        (false, pages.records()),
    );
    Ok(())
}

/// Stores page `p`, if it is dirty.
fn store(
    rt: &impl Abort,
    pages: &mut LoggedPages,
    disk: &mut MemoryDisk,
    p: u32,
) -> Result<(), Fail> {
    assert!(rt; !pages.failed() && disk.size() >= pages.plan().size());
    assert!(rt; p < pages.pages());
    if pages.dirty(p) {
        pages.store(disk, p)?;
    }
    Ok(())
}

/// Forces, stores a page, or does neither.
fn write_some(
    rt: &impl Abort,
    pages: &mut LoggedPages,
    disk: &mut MemoryDisk,
    draws: &mut Draws,
) -> Result<(), Fail> {
    match draws.next() {
        0 => force(rt, pages, disk),
        p if p <= 8 => store(rt, pages, disk, p - 1),
        _ => Ok(()),
    }
}

/// Carries out each of the records, and compares what is in memory.
fn play_all(
    rt: &impl Abort,
    pages: &mut LoggedPages,
    disk: &mut MemoryDisk,
    records: &[Record],
    plain: &mut Plain,
    draws: &mut Draws,
) -> Result<(), Fail>
    requires { EachWritesBelow 512 records.now }
{
    for rec in records {
        same(rt, carried(rt, pages, disk, rec)?, true);
        plain.put(pages.records(), rec);
        same(rt, pages.as_slice(), plain.words.as_slice());
        write_some(rt, pages, disk, draws)?;
    }
    Ok(())
}

/// Carries all records out three times, and returns how many of them are on the disk.
fn play(
    rt: &impl Abort,
    alloc: Global,
    disk: &mut MemoryDisk,
    records: &[Record],
    draws: &mut Draws,
    frames: u32,
) -> Result<u64, Fail>
    requires inside { EachWritesBelow 512 records.now }
    requires some { 0 < frames }
{
    let mut pages = open(rt, alloc, disk, frames)?;
    let mut plain = Plain::new(alloc)?;
    for _ in 0..3 {
        play_all(rt, &mut pages, disk, records, &mut plain, draws)?;
    }
    for (p, lsn) in plain.lsns.iter().enumerate() {
        same(rt, page_lsn(rt, &pages, p as u32), *lsn);
    }
    Ok(pages.forced())
}

fn page_lsn(rt: &impl Abort, pages: &LoggedPages, p: u32) -> u64 {
    assert!(rt; p < pages.pages());
    pages.lsn(p)
}

/// Redoes the records up to that LSN on stored pages, those of one round after those before it.
fn redo_round(
    rt: &impl Abort,
    cache: &mut PageCache,
    plain: &mut Plain,
    records: &[Record],
    round: u64,
    last: u64,
)
    requires inside { EachWritesBelow 512 records.now }
    requires few { round < 9 }
{
    for (i, rec) in records.iter().enumerate() {
        let lsn = 9 * round + i as u64 + 1;
        assert!(rt; cache.as_slice().len() == 512);
        if lsn <= last {
            cache.redo(lsn, rec);
            plain.put(lsn, rec);
        }
    }
}

/// Redo of so many of the log's records, from the first on, leaves their words.
fn check_reopened(
    rt: &impl Abort,
    alloc: Global,
    disk: &mut MemoryDisk,
    records: &[Record],
    forced: u64,
) -> Result<(), Fail>
    requires { EachWritesBelow 512 records.now }
{
    let mut cache = open_cache(rt, alloc, disk)?;
    let mut plain = Plain::new(alloc)?;
    for round in 0..3u64 {
        redo_round(rt, &mut cache, &mut plain, records, round, forced);
    }
    same(rt, cache.as_slice(), plain.words.as_slice());
    Ok(())
}

/// How many records the log of a disk has.
fn logged(rt: &impl Abort, alloc: Global, disk: &mut MemoryDisk) -> Result<u64, Fail> {
    let (log, found) = open_log(rt, alloc, disk)?;
    same(rt, found.len() as u64, log.records());
    Ok(log.records())
}

#[test]
fn carried_out_with_forces_and_stores_in_between(rt: HostRuntime) -> Result<(), Fail> {
    let records = records(rt.alloc())?;
    for seed in 0..40u32 {
        let mut disk = new_disk(rt.alloc(), Pick::Synced)?;
        let mut draws = Draws {
            state: u64::from(seed),
        };
        let frames = 1 + seed % 8;
        let forced = play(&rt, rt.alloc(), &mut disk, &records, &mut draws, frames)?;
        disk.restart();
        same(&rt, logged(&rt, rt.alloc(), &mut disk)?, forced);
        check_reopened(&rt, rt.alloc(), &mut disk, &records, forced)?;
    }
    Ok(())
}

/// What there is once a record was carried out where two pages may be dirty: how many writes and syncs were made, the last LSN on the disk, and the
/// dirty pages, of which a single one is named twice.
type Step = (u64, u64, [u32; 2]);

/// Once each record was carried out. A force takes four calls and a store four, but six from a page's third store on. The pages that are stored are 0, 1
/// and 2 behind a force; 3; 4, 1 behind a force, 0 and 4; 5, 6, and 1 behind a force; 2, 7, 0 behind a force, and 2; 3.
const STEPS: [Step; 9] = [
    (0, 0, [0, 0]),
    (16, 2, [3, 4]),
    (20, 2, [1, 4]),
    (20, 2, [1, 4]),
    (40, 5, [5, 6]),
    (58, 6, [2, 7]),
    (82, 7, [3, 4]),
    (82, 7, [3, 4]),
    (86, 7, [4, 7]),
];

/// The calls of all of them.
const CALLS: u64 = 86;

/// The LSNs with which the pages are stored then.
const STORED: [u64; 8] = [7, 6, 7, 7, 5, 5, 5, 6];

fn is_dirty(rt: &impl Abort, pages: &LoggedPages, p: u32) -> bool {
    assert!(rt; p < pages.pages());
    pages.dirty(p)
}

fn check_step(rt: &impl Abort, pages: &LoggedPages, passed: u64, step: &Step) {
    let (calls, forced, dirty) = step;
    same(rt, (passed, pages.forced()), (*calls, *forced));
    for p in 0..8 {
        let want = dirty[0] == p || dirty[1] == p;
        same(rt, (passed, p, is_dirty(rt, pages, p)), (passed, p, want));
    }
}

/// Opens the pages, which have these LSNs.
fn check_stored(rt: &impl Abort, alloc: Global, disk: &mut MemoryDisk) -> Result<(), Fail> {
    let cache = open_cache(rt, alloc, disk)?;
    for (p, lsn) in STORED.iter().enumerate() {
        assert!(rt; (p as u32) < cache.pages());
        same(rt, (p, cache.lsn(p as u32)), (p, *lsn));
    }
    Ok(())
}

#[test]
fn stored_to_make_way(rt: HostRuntime) -> Result<(), Fail> {
    let records = records(rt.alloc())?;
    let mut disk = new_disk(rt.alloc(), Pick::Synced)?;
    let mut pages = open(&rt, rt.alloc(), &mut disk, 2)?;
    let mut fuse = FuseDisk::new(disk, CALLS);
    for (i, rec) in records.iter().enumerate() {
        same(&rt, carried(&rt, &mut pages, &mut fuse, rec)?, true);
        assert!(rt; i < 9);
        check_step(&rt, &pages, fuse.passed(), &STEPS[i]);
    }
    check_stored(&rt, rt.alloc(), &mut fuse.into_inner())
}

/// Carries records out until the disk stops, and tells whether it has not.
fn carried_all(
    rt: &impl Abort,
    pages: &mut LoggedPages,
    disk: &mut FuseDisk<MemoryDisk>,
    records: &[Record],
) -> Result<bool, Fail>
    requires { EachWritesBelow 512 records.now }
{
    for rec in records {
        if !carried(rt, pages, disk, rec)? {
            return Ok(false);
        }
    }
    Ok(true)
}

/// The disk stops at that call, and is restarted: its log has the records that were forced, or the pending ones too, and redo leaves their words.
fn check_stop(
    rt: &impl Abort,
    alloc: Global,
    records: &[Record],
    limit: u64,
    pick: Pick,
) -> Result<(), Fail>
    requires { EachWritesBelow 512 records.now }
{
    let mut disk = new_disk(alloc, pick)?;
    let mut pages = open(rt, alloc, &mut disk, 2)?;
    let mut fuse = FuseDisk::new(disk, limit);
    let done = carried_all(rt, &mut pages, &mut fuse, records)?;
    same(rt, (limit, done), (limit, limit == CALLS));
    let mut disk = fuse.into_inner();
    disk.restart();
    let found = logged(rt, alloc, &mut disk)?;
    let either = found == pages.forced() || found == pages.records();
    same(rt, (limit, pick, either), (limit, pick, true));
    check_reopened(rt, alloc, &mut disk, records, found)
}

/// What a restart may leave.
const PICKS: [Pick; 4] = [Pick::Synced, Pick::Newest, Pick::AllOnes, Pick::AllOpen];

#[test]
fn stopped_at_each_call(rt: HostRuntime) -> Result<(), Fail> {
    let records = records(rt.alloc())?;
    for pick in &PICKS {
        for limit in 0..CALLS + 1 {
            check_stop(&rt, rt.alloc(), &records, limit, *pick)?;
        }
    }
    Ok(())
}

/// Where each page may be dirty, the disk is not called.
#[test]
fn no_call_with_a_frame_for_each_page(rt: HostRuntime) -> Result<(), Fail> {
    let records = records(rt.alloc())?;
    let mut disk = new_disk(rt.alloc(), Pick::Synced)?;
    let mut pages = open(&rt, rt.alloc(), &mut disk, 8)?;
    let mut fuse = FuseDisk::new(disk, 0);
    let done = carried_all(&rt, &mut pages, &mut fuse, &records)?;
    same(&rt, (done, fuse.passed(), pages.forced()), (true, 0, 0));
    Ok(())
}
