//! The page cache: the pages of a heap in memory, over those that are stored on a disk.
ghost use Rattle.std.specs.Prelude.{◌≡◌, ◌≢◌, ℕ, ◌+◌, ◌*◌, ◌^◌, ◌<◌, ◌≤◌, List, length, slice_index, min, nat_lt, is_err, None, Some, IsTrue, IsFalse, OnOk, OnErr, IfOk, if◌then◌else◌, ◌⊎◌};
ghost use Rattle.log_records.specs.declared.Record.{Record};
ghost use Rattle.log_machine.specs.Effect.{WritesBelow, EachWritesBelow};
ghost use Rattle.disk_model.specs.Disk.{Only};
ghost use Rattle.disk_model.specs.Keeps.{KeepsDisk, OnlyReads};
ghost use Rattle.disk_model.specs.Moments.{LeavesOnly};
ghost use Rattle.gate_slot.specs.Passing.{Passes};
ghost use Rattle.image_plan.specs.Plan.{image_size};
ghost use Rattle.page_redo.specs.Redo.{EachLacks, redo_record, redo_all};
ghost use Rattle.page_redo.specs.Pages.{lsn_of};
ghost use Rattle.page_redo.specs.Victim.{differs, dirty_pages, oldest, victim};
ghost use Rattle.page_redo.specs.Victim.{IsNoYounger};
ghost use Rattle.page_store.specs.StoreState.{store_pages, stored_lsn, stored_entry};
ghost use Rattle.page_store.specs.Frame.{spare};
ghost use Rattle.page_store.specs.OpenCause.{open_device_result};
ghost use Rattle.page_store.specs.Page.{HasPage, SamePage, SameButPage, IsStoring, store_calls};
ghost use Rattle.page_store.specs.Gates.{open_gates};
ghost use Rattle.page_redo.specs.Prefix.{EachHoldsPrefix};
ghost use Rattle.page_cache.specs.ByPage.{put_page};
ghost use Rattle.page_cache.specs.Dirty.{page_count, Lists};
ghost use Rattle.page_cache.specs.Stored.{stored_pages};

use crate::cached::CachedPages;
use crate::dirty::DirtyPages;
use crate::effect::Effect;
use disk_model::{Disk, DiskError};
use image_plan::Plan;
use log_records::Record;
use page_store::{PageStore, ReadPagesError};
use std::alloc::{AllocError, Global};

/// The pages of a heap in memory, those of both spaces, each with its LSN. Some of them are not stored yet as they are.
#[derive(Debug, Drop)]
pub struct PageCache {
    pages: CachedPages,
    store: PageStore,
    // How many pages may be dirty.
    frames: u32,
    dirty: DirtyPages,
    // Each page that can be stored is in memory, in a state not older than the stored one.
    ghost whole: { length pages.lsns ≡ store_pages store },
    ghost sized: { length pages.words ≡ 64 * store_pages store },
    ghost ahead: { (p : ℕ) → p < store_pages store → stored_lsn store p ≤ lsn_of pages p },
    // The list has the dirty pages.
    ghost places: { page_count dirty ≡ store_pages store },
    ghost listed: { Lists (differs (lsn_of pages) (stored_lsn store)) dirty },
}

impl PageCache {
    ghost use Rattle.page_store.specs.StoreState.{store_plan, stored_frame, Knows};
    ghost use Rattle.page_cache.specs.CacheState.{cached, cache_store, cache_frames, cache_pages, cache_size, cache_log, cached_page, cached_lsn, flushed_lsn, is_dirty, cache_failed, IsFirstPast, IsOriginOf, MayStandBeside};
    ghost use Rattle.page_redo.specs.Origin.{Origin, records_below};

    /// Reads the pages that are stored after the log of an image, of which so many frames may be dirty. Takes all memory that the cache needs.
    pub fn open<D: Disk>(
        alloc: Global,
        disk: &mut D,
        plan: Plan,
        frames: u32,
    ) -> Result<PageCache, ReadPagesError>
        requires few { plan.pages ≤ 16384 }
        requires inside { image_size plan.pages plan.log_bytes ≤ D.extent disk.old }

        ensures plan { IfOk result (λ cache. store_plan (cache_store cache) ≡ plan) }
        ensures frames { IfOk result (λ cache. cache_frames cache ≡ frames) }
        ensures words { IfOk result (λ cache. length (cached cache).words ≡ 64 * cache_pages cache) }
        ensures lsns { IfOk result (λ cache. length (cached cache).lsns ≡ cache_pages cache) }
        ensures clean { IfOk result (λ cache. (p : ℕ) → p < cache_pages cache → cached_lsn cache p ≡ flushed_lsn cache p) }
        ensures unfailed { IfOk result (λ cache. IsFalse (cache_failed cache)) }

        // They are those of the image.
        ensures stored { IsTrue D.tells → IfOk result (λ cache. cached cache ≡ stored_pages plan.pages plan.log_bytes (D.bytes disk.old)) }
        ensures known { IsTrue D.tells → IfOk result (λ cache. Knows (cache_store cache) (D.bytes disk.old)) }
        ensures disk { OnlyReads D.Disk disk.old disk.new (open_device_result result) }
    {
        let (store, words) = PageStore::open(alloc, disk, plan)?;
        let pages = 2 * plan.pages;
        let lsns = stored_lsns(alloc, &store, pages)?;
        let dirty = DirtyPages::none(alloc, pages)?;
        Ok(PageCache {
            pages: CachedPages::of(words, lsns),
            store,
            frames,
            dirty,
        })
    }

    /// Where the pages are stored in the image.
    pub fn plan(&self) -> Plan
        ensures { result ≡ store_plan (cache_store self.now) }
    {
        self.store.plan()
    }

    /// How many pages there are, those of both spaces.
    pub fn pages(&self) -> u32
        ensures value { result ≡ cache_pages self.now }
        ensures lsns { length (cached self.now).lsns ≡ result }
    {
        self.store.pages()
    }

    /// The words of all pages, by address.
    pub fn as_slice(&self) -> &[u64]
        ensures words { result.now ≡ (cached self.now).words }
        ensures whole { length result.now ≡ 64 * cache_pages self.now }
        ensures fit { (at : ℕ) → slice_index result.now at < 2 ^ 64 }
    {
        self.pages.as_slice()
    }

    /// The word at an address.
    pub fn word(&self, at: u32) -> u64
        requires { at < length (cached self.now).words }
        ensures { result ≡ slice_index (cached self.now).words at }
    {
        self.pages.word(at)
    }

    /// The LSN of page `p`: of the last record that it has.
    pub fn lsn(&self, p: u32) -> u64
        requires { p < cache_pages self.now }
        ensures value { result ≡ cached_lsn self.now p }
        ensures ahead { flushed_lsn self.now p ≤ result }
    {
        self.pages.lsn(p)
    }

    /// The first page whose LSN is past this one. If there is none, each page lacks the record after it.
    pub fn first_past(&self, lsn: u64) -> Option<u32>
        ensures none { result ≡ None → EachLacks (lsn + 1) (cached self.now) }
        ensures found { (p : ℕ) → result ≡ Some p → IsFirstPast lsn p (cached self.now) }
        ensures page { (p : ℕ) → result ≡ Some p → p < cache_pages self.now }
    {
        self.pages.first_past(lsn)
    }

    /// Whether page `p` has changed since it was stored.
    pub fn dirty(&self, p: u32) -> bool
        requires { p < cache_pages self.now }
        ensures { result ≡ is_dirty self.now p }
    {
        self.pages.lsn(p) != self.store.stored_lsn(p)
    }

    /// Whether a flush has failed. Then no other one follows before the disk is restarted and the pages are opened again.
    pub fn failed(&self) -> bool
        ensures { result ≡ cache_failed self.now }
    {
        self.store.failed()
    }

    /// How many pages may be dirty.
    pub fn frames(&self) -> u32
        ensures { result ≡ cache_frames self.now }
    {
        self.frames
    }

    /// The page that has to be stored before page `p` is written: the dirty page with the least LSN, and of several the first. There is none as
    /// long as fewer pages are dirty than may be, or if page `p` is dirty.
    pub fn victim(&self, p: u32) -> Option<u32>
        requires { p < cache_pages self.now }
        ensures { result ≡ victim (cache_pages self.now) (cache_frames self.now) (cached_lsn self.now) (flushed_lsn self.now) p }
    {
        if self.dirty(p) || self.dirty.count() < self.frames {
            return None;
        }
        self.oldest()
    }

    /// The dirty page with the least LSN, and of several the first.
    fn oldest(&self) -> Option<u32>
        ensures { result ≡ oldest (cached_lsn self.now) (dirty_pages (cache_pages self.now) (cached_lsn self.now) (flushed_lsn self.now)) }
    {
        let listed = self.dirty.as_slice();
        let mut oldest = *listed.first()?;
        for p in listed {
            oldest = self.older(oldest, *p);
        }
        Some(oldest)
    }

    /// Of two pages the one with the lesser LSN, or else the one with the lesser number.
    fn older(&self, p: u32, q: u32) -> u32
        requires first { p < cache_pages self.now }
        requires second { q < cache_pages self.now }
        ensures one { (result ≡ p) ⊎ (result ≡ q) }
        ensures before_first { IsNoYounger (cached_lsn self.now) result p }
        ensures before_second { IsNoYounger (cached_lsn self.now) result q }
    {
        if (self.pages.lsn(q), q) < (self.pages.lsn(p), p) {
            q
        } else {
            p
        }
    }

    /// Puts the record of that LSN on those of its pages that lack it, which have it from then on. More pages may be dirty then than may be
    /// before a write.
    pub fn redo(&mut self, lsn: u64, rec: &Record)
        requires { WritesBelow (length (cached self.old).words) rec.now }
        ensures redone { cached self.new ≡ redo_record lsn (cached self.old) rec.now }
        ensures store { cache_store self.new ≡ cache_store self.old }
        ensures frames { cache_frames self.new ≡ cache_frames self.old }
    {
        let mut from = 0;
        while let Some(p) = rec.next_page(from) {
            if self.pages.lsn(p) < lsn {
                self.put(lsn, p, rec);
            }
            from = p + 1;
        }
    }

    /// Redoes these records in order, of which the first has that LSN.
    pub fn redo_all(&mut self, first: u64, records: &[Record])
        requires inside { EachWritesBelow (length (cached self.old).words) records.now }
        requires lsns { first + length records.now < 2 ^ 64 }
        ensures redone { cached self.new ≡ redo_all first (cached self.old) records.now }
        ensures store { cache_store self.new ≡ cache_store self.old }
        ensures frames { cache_frames self.new ≡ cache_frames self.old }
    {
        for (i, rec) in records.iter().enumerate() {
            self.redo(first + i as u64, rec);
        }
    }

    /// Puts what the record of that LSN writes on page `p`, which lacks it and has it from then on. Its other pages stay as they were. No page has
    /// to be stored before.
    pub fn write<E: Effect>(&mut self, lsn: u64, p: u32, effect: &E)
        requires page { p < cache_pages self.old }
        requires lacks { cached_lsn self.old p < lsn }
        requires way { victim (cache_pages self.old) (cache_frames self.old) (cached_lsn self.old) (flushed_lsn self.old) p ≡ None }
        requires inside { WritesBelow (length (cached self.old).words) (E.rec effect.now) }
        ensures put { cached self.new ≡ put_page lsn p (cached self.old) (E.rec effect.now) }
        ensures store { cache_store self.new ≡ cache_store self.old }
        ensures frames { cache_frames self.new ≡ cache_frames self.old }
    {
        self.put(lsn, p, effect);
    }

    /// The same, however many pages are dirty.
    fn put<E: Effect>(&mut self, lsn: u64, p: u32, effect: &E)
        requires page { p < cache_pages self.old }
        requires lacks { cached_lsn self.old p < lsn }
        requires inside { WritesBelow (length (cached self.old).words) (E.rec effect.now) }
        ensures put { cached self.new ≡ put_page lsn p (cached self.old) (E.rec effect.now) }
        ensures store { cache_store self.new ≡ cache_store self.old }
        ensures frames { cache_frames self.new ≡ cache_frames self.old }
    {
        let dirty = self.dirty(p);
        self.pages.write(lsn, p, effect);
        if !dirty {
            self.dirty.add(p);
        }
    }

    /// Stores page `p`, which is dirty, as it is now. The log's records up to the LSN `forced` are on the disk, and the page is not ahead
    /// of them. After an error the page is stored as it was or as it is now once the disk is restarted, and no other flush
    /// follows before the pages are opened from that disk.
    pub fn flush<D: Disk>(&mut self, disk: &mut D, p: u32, forced: u64) -> Result<(), DiskError>
        requires page { p < cache_pages self.old }
        requires dirty { IsTrue (is_dirty self.old p) }
        requires unfailed { IsFalse (cache_failed self.old) }
        requires logged { cached_lsn self.old p ≤ forced }
        requires inside { cache_size self.old ≤ D.extent disk.old }

        ensures disk { KeepsDisk D.Disk disk.old disk.new result }

        // What is in memory.
        ensures pages { cached self.new ≡ cached self.old }
        ensures frames { cache_frames self.new ≡ cache_frames self.old }
        ensures plan { store_plan (cache_store self.new) ≡ store_plan (cache_store self.old) }
        ensures clean { OnOk result (flushed_lsn self.new p ≡ cached_lsn self.old p) }
        ensures frame { OnOk result (stored_frame (cache_store self.new) p ≡ Some (spare (stored_frame (cache_store self.old) p))) }
        ensures other_pages { (q : ℕ) → q ≢ p → stored_entry (cache_store self.new) q ≡ stored_entry (cache_store self.old) q }
        ensures failed { cache_failed self.new ≡ is_err result }
        ensures err { OnErr result ((q : ℕ) → stored_entry (cache_store self.new) q ≡ stored_entry (cache_store self.old) q) }

        // What is on the disk.
        ensures stored { IsTrue D.tells → Knows (cache_store self.old) (D.bytes disk.old) → OnOk result (HasPage (cache_log self.old) p (cached_lsn self.old p) (cached_page self.old p) (D.bytes disk.new)) }
        ensures others { IsTrue D.tells → (q : ℕ) → q ≢ p → OnOk result (SamePage (cache_log self.old) q (D.bytes disk.old) (D.bytes disk.new)) }
        ensures outside { IsTrue D.tells → OnOk result (SameButPage (cache_log self.old) p (D.bytes disk.old) (D.bytes disk.new)) }
        ensures gates { IsTrue D.tells → Knows (cache_store self.old) (D.bytes disk.old) → OnOk result (open_gates (cache_log self.old) (D.bytes disk.new) p ≡ min 2 (open_gates (cache_log self.old) (D.bytes disk.old) p + 1)) }
        ensures other_gates { IsTrue D.tells → (q : ℕ) → q ≢ p → OnOk result (open_gates (cache_log self.old) (D.bytes disk.new) q ≡ open_gates (cache_log self.old) (D.bytes disk.old) q) }
        ensures known { IsTrue D.tells → Knows (cache_store self.old) (D.bytes disk.old) → OnOk result (Knows (cache_store self.new) (D.bytes disk.new)) }
        ensures durable { IsTrue D.tells → OnOk result (Only (D.bytes disk.new) (D.may_leave disk.new)) }

        // No page gets ahead of the log: pages that may stand beside the records on the disk do so after the flush, and a crash
        // at any moment of it leaves such pages.
        ensures legal { IsTrue D.tells → Knows (cache_store self.old) (D.bytes disk.old) → (o : Origin) (all : List Record) → IsOriginOf o self.old → EachHoldsPrefix o all (cached self.old) → MayStandBeside self.old o (records_below o (forced + 1) all) (D.bytes disk.old)
            → OnOk result (MayStandBeside self.old o (records_below o (forced + 1) all) (D.bytes disk.new)) }
        ensures legal_moments { IsTrue D.tells → Knows (cache_store self.old) (D.bytes disk.old) → Only (D.bytes disk.old) (D.may_leave disk.old)
            → (o : Origin) (all : List Record) → IsOriginOf o self.old → EachHoldsPrefix o all (cached self.old) → MayStandBeside self.old o (records_below o (forced + 1) all) (D.bytes disk.old)
            → LeavesOnly D.moment D.left_since disk.old disk.new (MayStandBeside self.old o (records_below o (forced + 1) all)) }

        // A crash at any moment leaves the page as it was, or as it is now, and all else as it was.
        ensures moments { IsTrue D.tells → Knows (cache_store self.old) (D.bytes disk.old) → Only (D.bytes disk.old) (D.may_leave disk.old)
            → LeavesOnly D.moment D.left_since disk.old disk.new (IsStoring (cache_log self.old) p (cached_lsn self.old p) (cached_page self.old p) (D.bytes disk.old)) }
        ensures passes { IsTrue D.tells → Passes (store_calls (cache_log self.old) p (spare (stored_frame (cache_store self.old) p)) (D.bytes disk.old)) (D.passed disk.old) (D.passed disk.new) result }
        ensures calls { IsTrue D.tells → Knows (cache_store self.old) (D.bytes disk.old) → Passes (if nat_lt (open_gates (cache_log self.old) (D.bytes disk.old) p) 2 then 4 else 6) (D.passed disk.old) (D.passed disk.new) result }
    {
        let lsn = self.pages.lsn(p);
        prove!(lsn <= forced);
        let stored = self.store.store(disk, p, lsn, &self.pages.page(p));
        self.dirty.remove_if(stored.is_ok(), p);
        stored
    }
}

/// The LSNs with which all pages are stored.
fn stored_lsns(alloc: Global, store: &PageStore, pages: u32) -> Result<Vec<u64>, AllocError>
    requires { pages ≡ store_pages store.now }
    ensures size { IfOk result (λ lsns. length lsns.items ≡ pages) }
    ensures each { IfOk result (λ lsns. (p : ℕ) → p < pages → slice_index lsns.items p ≡ stored_lsn store.now p) }
{
    let mut lsns = Vec::with_capacity(alloc, pages as usize)?;
    for p in 0..pages {
        lsns.push(store.stored_lsn(p))?;
    }
    Ok(lsns)
}
