//! Pages on a disk in memory: frames whose bytes are given, and stores that are stopped at each device call.
use crate::compare::same;
use crate::disks::disk_of;
use disk_model::{Disk, DiskError, FuseDisk, MemoryDisk, Pick};
use image_plan::Plan;
use page_store::{PAGE_WORDS, PageStore, ReadPagesError, StoredPage};
use std::alloc::{AllocError, Global};
use std::process::Abort;
use std::test::Fail;

/// One page a space, so two pages, after a log of 64 bytes.
const PLAN: Plan = Plan {
    pages: 1,
    log_bytes: 64,
};

/// A disk of zeros, on which the listed writes and syncs fail.
fn new_disk(alloc: Global, pick: Pick, fails: &[u64]) -> Result<MemoryDisk, AllocError> {
    let bytes = vec![in alloc; 0u8; 2240]?;
    disk_of(alloc, bytes, pick, 100_000, (fails, &[]))
}

// What follows wraps calls with long contracts, since each of their callers would otherwise prove them anew.

fn open(
    rt: &impl Abort,
    alloc: Global,
    disk: &mut MemoryDisk,
) -> Result<(PageStore, Vec<u64>), ReadPagesError> {
    assert!(rt; disk.size() >= PLAN.size());
    PageStore::open(alloc, disk, PLAN)
}

fn load(
    rt: &impl Abort,
    store: &PageStore,
    disk: &mut MemoryDisk,
    p: u32,
) -> Result<StoredPage, DiskError> {
    assert!(rt; p < store.pages() && !store.failed());
    assert!(rt; disk.size() >= store.plan().size());
    let page = store.load(disk, p)?;
    same(rt, page.lsn, store.stored_lsn(p));
    Ok(page)
}

/// Whether the page is stored.
fn is_stored<D: Disk>(
    rt: &impl Abort,
    store: &mut PageStore,
    disk: &mut D,
    p: u32,
    page: &StoredPage,
) -> bool {
    assert!(rt; p < store.pages() && !store.failed());
    assert!(rt; store.stored_lsn(p) < page.lsn);
    assert!(rt; disk.size() >= store.plan().size());
    store.store(disk, p, page.lsn, &page.words).is_ok()
}

/// Both pages.
type Pages = [StoredPage; 2];

/// The words are those of the pages.
fn check_words(
    rt: &impl Abort,
    alloc: Global,
    words: &[u64],
    pages: &Pages,
) -> Result<(), AllocError> {
    let mut want = pages[0].words.to_vec(alloc)?;
    want.extend_from_slice(&pages[1].words)?;
    same(rt, words, want.as_slice());
    Ok(())
}

/// The pages that loads give, with the words that an opening gives.
fn pages_on(rt: &impl Abort, alloc: Global, disk: &mut MemoryDisk) -> Result<Pages, Fail> {
    let (store, words) = open(rt, alloc, disk)?;
    same(rt, store.pages(), 2);
    let pages = [load(rt, &store, disk, 0)?, load(rt, &store, disk, 1)?];
    check_words(rt, alloc, &words, &pages)?;
    Ok(pages)
}

/// A page that was never stored.
fn first_page(p: u32) -> StoredPage {
    let mut words = [0u64; PAGE_WORDS];
    if p == 0 {
        words[0] = 17;
    }
    StoredPage { lsn: 0, words }
}

#[test]
fn never_stored(rt: HostRuntime) -> Result<(), Fail> {
    let mut disk = new_disk(rt.alloc(), Pick::Newest, &[])?;
    let pages = pages_on(&rt, rt.alloc(), &mut disk)?;
    same(&rt, pages, [first_page(0), first_page(1)]);
    Ok(())
}

/// A frame's gate, its LSN, and the byte that fills its words.
type Frame = (u8, u64, u8);

/// Both frames of page 0, and the one that counts.
static FRAMES: [[Frame; 3]; 7] = [
    [(1, 5, 17), (1, 9, 34), (1, 9, 34)],
    [(1, 9, 17), (1, 5, 34), (1, 9, 17)],
    [(1, 7, 17), (1, 7, 34), (1, 7, 17)],
    [(1, 5, 17), (0, 9, 34), (1, 5, 17)],
    [(255, 9, 17), (1, 5, 34), (1, 5, 34)],
    [(1, 0, 17), (2, 1, 34), (1, 0, 17)],
    [(0, 0, 17), (1, 0, 34), (1, 0, 34)],
];

/// Adds a frame, in whose seven unused bytes something stands.
fn add_frame(bytes: &mut Vec<u8>, (gate, lsn, fill): Frame) -> Result<(), AllocError> {
    bytes.push(gate)?;
    bytes.extend_from_slice(&[9; 7])?;
    bytes.extend_from_slice(&lsn.to_le_bytes())?;
    bytes.extend_from_slice(&[fill; 512])
}

/// An image of these frames.
fn image_of(alloc: Global, frames: [Frame; 4]) -> Result<Vec<u8>, AllocError> {
    let mut bytes = vec![in alloc; 0u8; 128]?;
    for frame in frames {
        add_frame(&mut bytes, frame)?;
    }
    Ok(bytes)
}

/// The page that a frame gives.
fn page_of((_, lsn, fill): Frame) -> StoredPage {
    StoredPage {
        lsn,
        words: [u64::from_le_bytes([fill; 8]); PAGE_WORDS],
    }
}

/// Compares the pages of two frames of page 0, and of two of page 1 that are not open.
fn check_frames(rt: &impl Abort, alloc: Global, frames: &[Frame; 3]) -> Result<(), Fail> {
    let [first, second, counts] = *frames;
    let bytes = image_of(alloc, [first, second, (0, 9, 51), (255, 9, 51)])?;
    let mut disk = disk_of(alloc, bytes, Pick::Newest, 100_000, (&[], &[]))?;
    let pages = pages_on(rt, alloc, &mut disk)?;
    same(rt, pages, [page_of(counts), first_page(1)]);
    Ok(())
}

#[test]
fn the_newest_open_frame_counts(rt: HostRuntime) -> Result<(), Fail> {
    for frames in &FRAMES {
        check_frames(&rt, rt.alloc(), frames)?;
    }
    Ok(())
}

/// Words of which the first and the last are not zero.
fn words_at_both_ends() -> [u64; PAGE_WORDS] {
    let mut words = [0u64; PAGE_WORDS];
    words[0] = 0x0102_0304_0506_0708;
    words[63] = 0x1112_1314_1516_1718;
    words
}

/// An image in which page 1 has these words and the LSN 258.
fn image_with_them(alloc: Global) -> Result<Vec<u8>, AllocError> {
    let mut bytes = vec![in alloc; 0u8; 1184]?;
    bytes.extend_from_slice(b"\x01\0\0\0\0\0\0\0\x02\x01\0\0\0\0\0\0")?;
    bytes.extend_from_slice(b"\x08\x07\x06\x05\x04\x03\x02\x01")?;
    bytes.extend_from_slice(&[0; 496])?;
    bytes.extend_from_slice(b"\x18\x17\x16\x15\x14\x13\x12\x11")?;
    bytes.extend_from_slice(&[0; 528])?;
    Ok(bytes)
}

#[test]
fn a_stored_frame_byte_by_byte(rt: HostRuntime) -> Result<(), Fail> {
    let mut disk = new_disk(rt.alloc(), Pick::Newest, &[])?;
    let mut store = open(&rt, rt.alloc(), &mut disk)?.0;
    let page = StoredPage {
        lsn: 258,
        words: words_at_both_ends(),
    };
    same(&rt, is_stored(&rt, &mut store, &mut disk, 1, &page), true);
    let want = image_with_them(rt.alloc())?;
    same(&rt, disk.contents(), want.as_slice());
    Ok(())
}

/// Stores one after another: the page, its LSN, and its first word.
const SCRIPT: [(u32, u64, u64); 6] = [
    (0, 3, 30),
    (1, 4, 40),
    (0, 6, 60),
    (0, 7, 70),
    (1, 9, 90),
    (0, 12, 120),
];

/// The writes and syncs that the script makes: 4 a store, and 2 more for the third and the fourth store of page 0.
const CALLS: u64 = 28;

/// A page of ascending words.
fn page_from(lsn: u64, first: u64) -> StoredPage {
    let mut words = [first; PAGE_WORDS];
    for (k, word) in words.iter_mut().enumerate() {
        *word = first.wrapping_add(k as u64);
    }
    StoredPage { lsn, words }
}

/// Puts a page into a list.
fn put(rt: &impl Abort, pages: &mut Pages, p: u32, page: &StoredPage) {
    assert!(rt; p < 2);
    pages[p as usize] = *page;
}

/// Plays the script until a store fails: of that page `new` has what was to be stored, and `old` what was there before. Of the
/// other page both have what was stored last. Gives whether no store fails.
fn play<D: Disk>(
    rt: &impl Abort,
    store: &mut PageStore,
    disk: &mut D,
    old: &mut Pages,
    new: &mut Pages,
) -> bool {
    for (p, lsn, first) in &SCRIPT {
        let page = page_from(*lsn, *first);
        put(rt, new, *p, &page);
        if !is_stored(rt, store, disk, *p, &page) {
            return false;
        }
        put(rt, old, *p, &page);
    }
    true
}

/// Opens the pages again, and stores each of them once more.
fn go_on(rt: &impl Abort, alloc: Global, disk: &mut MemoryDisk) -> Result<Pages, Fail> {
    let mut store = open(rt, alloc, disk)?.0;
    let page = page_from(100, 500);
    for p in 0..2 {
        same(rt, is_stored(rt, &mut store, disk, p, &page), true);
    }
    Ok([page; 2])
}

/// Where a disk stops, and what its restart leaves.
type Stop = (u64, Pick);

fn is_either(page: &StoredPage, old: &StoredPage, new: &StoredPage) -> bool {
    page == old || page == new
}

/// Each page is the old one or the new one; then more are stored.
fn check_left(
    rt: &impl Abort,
    alloc: Global,
    disk: &mut MemoryDisk,
    (old, new): (&Pages, &Pages),
    stop: Stop,
) -> Result<(), Fail> {
    let found = pages_on(rt, alloc, disk)?;
    let first = is_either(&found[0], &old[0], &new[0]);
    let second = is_either(&found[1], &old[1], &new[1]);
    same(rt, (stop, first, second), (stop, true, true));
    let stored = go_on(rt, alloc, disk)?;
    same(rt, pages_on(rt, alloc, disk)?, stored);
    Ok(())
}

/// Plays the script on a disk that stops, restarts it, and compares what is left.
fn check_stop(rt: &impl Abort, alloc: Global, (limit, pick): Stop) -> Result<(), Fail> {
    let mut disk = new_disk(alloc, pick, &[])?;
    let mut old = pages_on(rt, alloc, &mut disk)?;
    let mut new = old;
    let mut store = open(rt, alloc, &mut disk)?.0;
    let mut fuse = FuseDisk::new(disk, limit);
    let done = play(rt, &mut store, &mut fuse, &mut old, &mut new);
    same(rt, (limit, done), (limit, limit == CALLS));
    let mut disk = fuse.into_inner();
    disk.restart();
    check_left(rt, alloc, &mut disk, (&old, &new), (limit, pick))
}

/// What a restart may leave.
const PICKS: [Pick; 4] = [Pick::Synced, Pick::Newest, Pick::AllOnes, Pick::AllOpen];

#[test]
fn old_or_new_at_each_stop(rt: HostRuntime) -> Result<(), Fail> {
    for pick in &PICKS {
        for limit in 0..CALLS + 1 {
            check_stop(&rt, rt.alloc(), (limit, *pick))?;
        }
    }
    Ok(())
}

/// Stores page 0 three times, the last time in vain, and gives what was stored last.
fn store_in_vain(rt: &impl Abort, store: &mut PageStore, disk: &mut MemoryDisk) -> StoredPage {
    for lsn in 1..4 {
        let done = is_stored(rt, store, disk, 0, &page_from(lsn, 7 * lsn));
        same(rt, (lsn, done, store.failed()), (lsn, lsn < 3, lsn == 3));
    }
    page_from(2, 14)
}

/// The tenth write or sync fails: the sync after the write by which the third store of a page closes a gate.
fn check_failing(rt: &impl Abort, alloc: Global, pick: Pick) -> Result<(), Fail> {
    let mut disk = new_disk(alloc, pick, &[10])?;
    let second = pages_on(rt, alloc, &mut disk)?[1];
    let mut store = open(rt, alloc, &mut disk)?.0;
    let pages = [store_in_vain(rt, &mut store, &mut disk), second];
    disk.restart();
    same(rt, (pick, pages_on(rt, alloc, &mut disk)?), (pick, pages));
    Ok(())
}

#[test]
fn failed_where_a_gate_closes_in_vain(rt: HostRuntime) -> Result<(), Fail> {
    for pick in &PICKS {
        check_failing(&rt, rt.alloc(), *pick)?;
    }
    Ok(())
}
