//! The pages on a disk, and what is kept of them in memory: which frame of each page counts, and its LSN.
ghost use Rattle.std.specs.Prelude.{◌≡◌, ◌≢◌, ℕ, ◌+◌, ◌*◌, ◌^◌, ◌<◌, ◌≤◌, List, length, vec_len, min, is_err, IsTrue, IsFalse, OnOk, OnErr, IfOk};
ghost use Rattle.disk_model.specs.Disk.{part, Only};
ghost use Rattle.disk_model.specs.Keeps.{KeepsDisk, OnlyReads};
ghost use Rattle.disk_model.specs.Moments.{LeavesOnly};
ghost use Rattle.gate_slot.specs.Passing.{Passes};
ghost use Rattle.image_plan.specs.Plan.{image_size, frame_offset};
ghost use Rattle.page_store.specs.declared.store.ReadPagesError.TheVariants.{NoMemory};
ghost use Rattle.page_store.specs.OpenCause.{open_device_result};
ghost use Rattle.page_store.specs.Frame.{frame_bytes, frame_words, spare};
ghost use Rattle.page_store.specs.Page.{frame_place, frame_of, image_words, HasPage, SamePage, SameButPage, IsStoring, store_calls};
ghost use Rattle.page_store.specs.Gates.{open_gates};
ghost use Rattle.page_store.specs.Reading.{IsReadTo};

use crate::frame::{
    FRAME_BYTES, Frame, PAGE_WORDS, Stored, StoredPage, body_of, first_contents, read_page,
    words_of,
};
use crate::refill::refill;
use disk_model::{Disk, DiskError};
use image_plan::Plan;
use std::alloc::{AllocError, AllocFailed, Global};

/// The bytes of a page's two frames.
const PAGE_BYTES: usize = 2 * FRAME_BYTES;

/// How many pages an opening reads at once, in 32,736 bytes.
const PIECE_PAGES: u32 = 31;

/// Why the pages could not be opened.
#[derive(Clone, Copy, Debug, PartialEq, Eq)]
pub enum ReadPagesError {
    /// Out of memory.
    NoMemory,
    /// The disk failed or stopped.
    Disk(DiskError),
}

impl From<AllocError> for ReadPagesError {
    ghost from_gives = { λ _ e. e ≡ NoMemory };

    fn from(_: AllocError) -> Self {
        ReadPagesError::NoMemory
    }
}

impl<T: Drop> From<AllocFailed<T>> for ReadPagesError {
    ghost from_gives = { λ _ e. e ≡ NoMemory };

    fn from(_: AllocFailed<T>) -> Self {
        ReadPagesError::NoMemory
    }
}

/// The pages that follow the log in an image, those of both spaces, numbered from 0.
#[derive(Debug, Drop)]
pub struct PageStore {
    // Where the frames lie.
    plan: Plan,
    // Of each page, what its frame that counts says.
    table: Vec<Stored>,
    // Whether a store has failed.
    failed: bool,
    ghost few: { plan.pages ≤ 16384 },
    ghost small: { plan.log_bytes < 2 ^ 32 },
    ghost whole: { vec_len table ≡ 2 * plan.pages },
}

impl PageStore {
    ghost use Rattle.page_store.specs.StoreState.{store_plan, store_log, store_pages, store_size, stored_entry, stored_lsn, stored_frame, has_failed, Knows};

    /// Reads all frames, many of them at a time, and returns the words of all pages, one page after another.
    pub fn open<D: Disk>(
        alloc: Global,
        disk: &mut D,
        plan: Plan,
    ) -> Result<(PageStore, Vec<u64>), ReadPagesError>
        requires few { plan.pages ≤ 16384 }
        requires inside { image_size plan.pages plan.log_bytes ≤ D.extent disk.old }

        ensures plan { IfOk result (λ found. store_plan found.0 ≡ plan) }
        ensures size { IfOk result (λ found. vec_len found.1 ≡ 128 * plan.pages) }
        ensures unfailed { IfOk result (λ found. IsFalse (has_failed found.0)) }
        ensures table { IsTrue D.tells → IfOk result (λ found. Knows found.0 (D.bytes disk.old)) }
        ensures words { IsTrue D.tells → IfOk result (λ found. found.1.items ≡ image_words plan.log_bytes (2 * plan.pages) (D.bytes disk.old)) }
        ensures disk { OnlyReads D.Disk disk.old disk.new (open_device_result result) }
    {
        let (table, words) = read_pages(alloc, disk, &plan)?;
        let store = PageStore {
            plan,
            table,
            failed: false,
        };
        Ok((store, words))
    }

    /// The plan of the image that the pages lie in.
    pub fn plan(&self) -> Plan
        ensures { result ≡ store_plan self.now }
    {
        self.plan
    }

    /// How many pages there are, those of both spaces.
    pub fn pages(&self) -> u32
        ensures value { result ≡ store_pages self.now }
        ensures few { result ≤ 32768 }
    {
        2 * self.plan.pages
    }

    /// The LSN with which page `p` was stored, or 0.
    pub fn stored_lsn(&self, p: u32) -> u64
        requires { p < store_pages self.now }
        ensures { result ≡ stored_lsn self.now p }
    {
        self.entry(p).lsn
    }

    /// Whether a store has failed. Then no page is loaded or stored until the disk is restarted and the pages are opened again.
    pub fn failed(&self) -> bool
        ensures { result ≡ has_failed self.now }
    {
        self.failed
    }

    /// What page `p` holds on the disk.
    pub fn load<D: Disk>(&self, disk: &mut D, p: u32) -> Result<StoredPage, DiskError>
        requires page { p < store_pages self.now }
        requires unfailed { IsFalse (has_failed self.now) }
        requires inside { store_size self.now ≤ D.extent disk.old }

        ensures lsn { IfOk result (λ page. page.lsn ≡ stored_lsn self.now p) }
        ensures loaded { IsTrue D.tells → Knows self.now (D.bytes disk.old) → IfOk result (λ page. HasPage (store_log self.now) p page.lsn page.words (D.bytes disk.old)) }
        ensures disk { OnlyReads D.Disk disk.old disk.new result }
    {
        let Stored { lsn, counts } = self.entry(p);
        match counts {
            None => Ok(StoredPage {
                lsn,
                words: first_contents(p),
            }),
            Some(frame) => {
                let words = read_words(disk, self.plan.frame_at(p, frame.number()))?;
                Ok(StoredPage { lsn, words })
            }
        }
    }

    /// Writes page `p` into the frame that doesn't count, which counts from then on, since its LSN is the greater one: in four
    /// device calls, and two more if that frame's gate is open and has to be closed first. After an error the page is the old
    /// one or the new one once the disk is restarted. Until then a gate whose closing failed may read as closed, and no
    /// page may be written behind it: so no other store follows before the disk is restarted and the pages are opened again.
    pub fn store<D: Disk>(
        &mut self,
        disk: &mut D,
        p: u32,
        lsn: u64,
        words: &[u64; PAGE_WORDS],
    ) -> Result<(), DiskError>
        requires page { p < store_pages self.old }
        requires newer { stored_lsn self.old p < lsn }
        requires unfailed { IsFalse (has_failed self.old) }
        requires inside { store_size self.old ≤ D.extent disk.old }

        ensures disk { KeepsDisk D.Disk disk.old disk.new result }

        // What is kept in memory.
        ensures plan { store_plan self.new ≡ store_plan self.old }
        ensures lsn { OnOk result (stored_lsn self.new p ≡ lsn) }
        ensures frame { OnOk result (stored_frame self.new p ≡ Some (spare (stored_frame self.old p))) }
        ensures other_pages { (q : ℕ) → q ≢ p → stored_entry self.new q ≡ stored_entry self.old q }
        ensures failed { has_failed self.new ≡ is_err result }
        ensures err { OnErr result ((q : ℕ) → stored_entry self.new q ≡ stored_entry self.old q) }

        // What is on the disk.
        ensures stored { IsTrue D.tells → Knows self.old (D.bytes disk.old) → OnOk result (HasPage (store_log self.old) p lsn words.now (D.bytes disk.new)) }
        ensures others { IsTrue D.tells → (q : ℕ) → q ≢ p → OnOk result (SamePage (store_log self.old) q (D.bytes disk.old) (D.bytes disk.new)) }
        ensures outside { IsTrue D.tells → OnOk result (SameButPage (store_log self.old) p (D.bytes disk.old) (D.bytes disk.new)) }
        ensures written { IsTrue D.tells → OnOk result (frame_of (store_log self.old) p (D.bytes disk.new) (spare (stored_frame self.old p)) ≡ frame_bytes lsn words.now) }
        ensures gates { IsTrue D.tells → Knows self.old (D.bytes disk.old) → OnOk result (open_gates (store_log self.old) (D.bytes disk.new) p ≡ min 2 (open_gates (store_log self.old) (D.bytes disk.old) p + 1)) }
        ensures other_gates { IsTrue D.tells → (q : ℕ) → q ≢ p → OnOk result (open_gates (store_log self.old) (D.bytes disk.new) q ≡ open_gates (store_log self.old) (D.bytes disk.old) q) }
        ensures known { IsTrue D.tells → Knows self.old (D.bytes disk.old) → OnOk result (Knows self.new (D.bytes disk.new)) }
        ensures durable { IsTrue D.tells → OnOk result (Only (D.bytes disk.new) (D.may_leave disk.new)) }

        // A crash at any moment leaves the page as it was, or as it is stored, and all else as it was.
        ensures moments { IsTrue D.tells → Knows self.old (D.bytes disk.old) → Only (D.bytes disk.old) (D.may_leave disk.old)
            → LeavesOnly D.moment D.left_since disk.old disk.new (IsStoring (store_log self.old) p lsn words.now (D.bytes disk.old)) }
        ensures passes { IsTrue D.tells → Passes (store_calls (store_log self.old) p (spare (stored_frame self.old p)) (D.bytes disk.old)) (D.passed disk.old) (D.passed disk.new) result }
    {
        let (frame, gate) = self.spare(p);
        // The store counts as failed until it is done.
        self.failed = true;
        refill(disk, gate, &body_of(lsn, words))?;
        self.failed = false;
        let counts = Some(frame);
        self.table[p as usize] = Stored { lsn, counts };
        Ok(())
    }

    /// What is kept in memory of page `p`.
    fn entry(&self, p: u32) -> Stored
        requires { p < store_pages self.now }
        ensures { result ≡ stored_entry self.now p }
    {
        self.table[p as usize]
    }

    /// The frame of page `p` that a store writes, and where it begins.
    fn spare(&self, p: u32) -> (Frame, u64)
        requires { p < store_pages self.now }
        ensures frame { result.0 ≡ spare (stored_frame self.now p) }
        ensures place { result.1 ≡ frame_place (store_log self.now) p (spare (stored_frame self.now p)) }
        ensures inside { result.1 + 528 ≤ store_size self.now }
        ensures small { result.1 + 528 < 2 ^ 64 }
    {
        let frame = Frame::spare(self.entry(p).counts);
        (frame, self.plan.frame_at(p, frame.number()))
    }
}

/// What the frames of all pages say, and the words of all pages, one page after another.
fn read_pages<D: Disk>(
    alloc: Global,
    disk: &mut D,
    plan: &Plan,
) -> Result<(Vec<Stored>, Vec<u64>), ReadPagesError>
    requires few { plan.now.pages ≤ 16384 }
    requires inside { image_size plan.now.pages plan.now.log_bytes ≤ D.extent disk.old }
    ensures pages { IfOk result (λ found. vec_len found.0 ≡ 2 * plan.now.pages) }
    ensures size { IfOk result (λ found. vec_len found.1 ≡ 128 * plan.now.pages) }
    ensures read { IsTrue D.tells → IfOk result (λ found. IsReadTo plan.now.log_bytes (2 * plan.now.pages) found.0.items found.1.items (D.bytes disk.old)) }
    ensures disk { OnlyReads D.Disk disk.old disk.new (open_device_result result) }
{
    let pages = 2 * plan.pages;
    let mut table = Vec::with_capacity(alloc, pages as usize)?;
    let mut words = Vec::with_capacity(alloc, PAGE_WORDS * pages as usize)?;
    let mut p = 0;
    while p < pages {
        let some = PIECE_PAGES.min(pages - p);
        let size = some as usize * PAGE_BYTES;
        let frames = read_bytes(alloc, disk, plan.frame_at(p, 0), size)?;
        take_pages(p, some, &frames, &mut table, &mut words)?;
        p += some;
    }
    Ok((table, words))
}

/// The `size` bytes of the disk from byte `at` on.
fn read_bytes<D: Disk>(
    alloc: Global,
    disk: &mut D,
    at: u64,
    size: usize,
) -> Result<Vec<u8>, ReadPagesError>
    requires { at + size ≤ D.extent disk.old }
    ensures bytes { IsTrue D.tells → IfOk result (λ bytes. bytes.items ≡ part (D.bytes disk.old) at size) }
    ensures len { IfOk result (λ bytes. vec_len bytes ≡ size) }
    ensures disk { OnlyReads D.Disk disk.old disk.new (open_device_result result) }
{
    let mut bytes = vec![in alloc; 0u8; size]?;
    disk.read(at, &mut bytes).map_err(ReadPagesError::Disk)?;
    Ok(bytes)
}

/// The words in the frame at byte `at` of the disk.
fn read_words<D: Disk>(disk: &mut D, at: u64) -> Result<[u64; PAGE_WORDS], DiskError>
    requires { at + 528 ≤ D.extent disk.old }
    ensures words { IsTrue D.tells → IfOk result (λ words. words ≡ frame_words (part (D.bytes disk.old) at 528)) }
    ensures disk { OnlyReads D.Disk disk.old disk.new result }
{
    let mut frame = [0u8; FRAME_BYTES];
    disk.read(at, &mut frame)?;
    Ok(words_of(&frame))
}

/// Adds what the frames of `some` pages say, from page `first` on, and the words of these pages.
fn take_pages(
    first: u32,
    some: u32,
    frames: &[u8],
    table: &mut Vec<Stored>,
    words: &mut Vec<u64>,
) -> Result<(), ReadPagesError>
    requires whole { length frames.now ≡ 1056 * some }
    requires few { first + some ≤ 32768 }
    ensures pages { OnOk result (vec_len table.new ≡ vec_len table.old + some) }
    ensures size { OnOk result (vec_len words.new ≡ vec_len words.old + 64 * some) }
    ensures read { (log_bytes : ℕ) (image : List ℕ) → frames.now ≡ part image (frame_offset log_bytes first 0) (1056 * some) → IsReadTo log_bytes first table.old.items words.old.items image → OnOk result (IsReadTo log_bytes (first + some) table.new.items words.new.items image) }
    ensures device { open_device_result result ≡ Ok tt }
{
    for k in 0..some {
        let from = k as usize * PAGE_BYTES;
        let middle = from + FRAME_BYTES;
        let (stored, page) = read_page(
            first + k,
            &frames[from..middle],
            &frames[middle..middle + FRAME_BYTES],
        );
        table.push(stored)?;
        words.extend_from_slice(&page)?;
    }
    Ok(())
}
