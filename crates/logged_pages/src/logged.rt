//! A log and its pages in memory.
ghost use Rattle.std.specs.Prelude.{◌≡◌, ℕ, ◌+◌, ◌*◌, ◌<◌, ◌≤◌, ◌^◌, ◌++◌, List, [], ◌∷◌, false, Ok, is_err, IsOk, IsFalse, IsTrue, OnErr, OnOk, None, length, nat_lt, slice_index, ◌≢◌, if◌then◌else◌};
ghost use Rattle.disk_model.specs.Disk.{Only, SameOutside};
ghost use Rattle.disk_model.specs.Keeps.{KeepsDisk};
ghost use Rattle.disk_model.specs.Moments.{LeavesOnly};
ghost use Rattle.gate_slot.specs.Passing.{Passes};
ghost use Rattle.gated_log.specs.Log.{with_batch};
ghost use Rattle.gated_log.specs.LogState.{log_count, log_forced, log_place, log_room, log_used, log_used_with, is_waiting, HasSpare, IsBufferEmpty, IsSameLog, Keeps, KeepsMemory};
ghost use Rattle.image_plan.specs.Plan.{log_offset};
ghost use Rattle.log_machine.specs.Effect.{EachWritesBelow, WritesBelow};
ghost use Rattle.page_redo.specs.Carry.{Carry, page_written, way_made};
ghost use Rattle.page_redo.specs.Origin.{Origin};
ghost use Rattle.log_records.specs.declared.Record.{Record};
ghost use Rattle.log_records.specs.Record.{spellings};
ghost use Rattle.page_cache.specs.ByPage.{put_page};
ghost use Rattle.page_cache.specs.CacheState.{cached, cached_lsn, cache_failed, cache_frames, cache_log, cache_pages, flushed_lsn, is_dirty};
ghost use Rattle.page_redo.specs.Pages.{lsn_of};
ghost use Rattle.page_redo.specs.Prefix.{HasAllWords};
ghost use Rattle.page_redo.specs.Redo.{EachLacks};
ghost use Rattle.page_redo.specs.Victim.{dirty_pages, victim};
ghost use Rattle.page_store.specs.StoreState.{store_plan, stored_entry, Knows};

use crate::records::Records;
use disk_model::{Disk, DiskError};
use gated_log::Log;
use image_plan::Plan;
use log_records::BATCH_BYTES;
use page_cache::{Effect, PageCache};
use std::alloc::AllocError;

/// The log of a heap and its pages in memory: no page has a record that the log lacks.
#[derive(Debug, Drop)]
pub struct LoggedPages {
    log: Log,
    cache: PageCache,
    // Whether a force or a store has failed. It is not used any more then.
    failed: bool,
    // The next record is new to each page.
    ghost logged: { EachLacks (log_count log + 1) (cached cache) },
    ghost works: { failed ≡ false → cache_failed cache ≡ false },
    ghost sized: { length (cached cache).words ≡ 64 * cache_pages cache },
    ghost few: { cache_pages cache ≤ 32768 },
    // No more pages are dirty than may be.
    ghost bounded: { length (dirty_pages (cache_pages cache) (cached_lsn cache) (flushed_lsn cache)) ≤ cache_frames cache },
    ghost some_frames: { 0 < cache_frames cache },
    // The log lies in front of the pages' frames.
    ghost place: { log_place log ≡ log_offset },
    ghost behind: { log_room log ≡ cache_log cache },
}

impl LoggedPages {
    ghost use Rattle.logged_pages.specs.Appended.{IsAppended};
    ghost use Rattle.logged_pages.specs.Advancing.{Advances, AdvancesOnDisk, IsAt, IsAtWith, NothingMore, PutsAll, carried_by, was_forced};
    ghost use Rattle.logged_pages.specs.State.{log_of, cache_of, frames_of, pages_in_memory, store_of, has_failed, next_lsn_in, LiesWithin, IsBehind, IsUpToDate};
    ghost use Rattle.logged_pages.specs.OnDisk.{batches_if, pending_if, force_calls, is_ahead, store_calls, HasStored, IsLeft, IsOnDisk};
    ghost use Rattle.logged_pages.specs.Carried.{Carries, HasCarried};

    /// A log and its pages, none of which has a record that the log lacks. No store has failed.
    pub fn new(log: Log, cache: PageCache) -> LoggedPages
        requires logged { EachLacks (next_lsn_in log) (cached cache) }
        requires works { IsFalse (cache_failed cache) }
        requires sized { length (cached cache).words ≡ 64 * cache_pages cache }
        requires few { cache_pages cache ≤ 32768 }
        requires bounded { length (dirty_pages (cache_pages cache) (cached_lsn cache) (flushed_lsn cache)) ≤ cache_frames cache }
        requires some_frames { 0 < cache_frames cache }
        requires place { log_place log ≡ log_offset }
        requires behind { log_room log ≡ cache_log cache }
        ensures log { log_of result ≡ log }
        ensures cache { cache_of result ≡ cache }
        ensures works { has_failed result ≡ false }
    {
        LoggedPages {
            log,
            cache,
            failed: false,
        }
    }

    /// Where the log and the pages lie in the image.
    pub fn plan(&self) -> Plan
        ensures { result ≡ store_plan (store_of self.now) }
    {
        self.cache.plan()
    }

    /// How many pages there are, those of both spaces.
    pub fn pages(&self) -> u32
        ensures { result ≡ cache_pages (cache_of self.now) }
    {
        self.cache.pages()
    }

    /// How many pages may be dirty.
    pub fn frames(&self) -> u32
        ensures value { result ≡ frames_of self.now }
        ensures some { 0 < result }
        ensures bounded { length (dirty_pages (cache_pages (cache_of self.now)) (cached_lsn (cache_of self.now)) (flushed_lsn (cache_of self.now))) ≤ result }
    {
        self.cache.frames()
    }

    /// The words of all pages, by address.
    pub fn as_slice(&self) -> &[u64]
        ensures words { result.now ≡ (pages_in_memory self.now).words }
        ensures fit { (at : ℕ) → slice_index result.now at < 2 ^ 64 }
    {
        self.cache.as_slice()
    }

    /// The word at an address.
    pub fn word(&self, at: u32) -> u64
        requires { at < length (pages_in_memory self.now).words }
        ensures { result ≡ slice_index (pages_in_memory self.now).words at }
    {
        self.cache.word(at)
    }

    /// The LSN of page `p`: of the last record that it has.
    pub fn lsn(&self, p: u32) -> u64
        requires { p < cache_pages (cache_of self.now) }
        ensures { result ≡ lsn_of (pages_in_memory self.now) p }
    {
        self.cache.lsn(p)
    }

    /// Whether page `p` has changed since it was stored.
    pub fn dirty(&self, p: u32) -> bool
        requires { p < cache_pages (cache_of self.now) }
        ensures { result ≡ is_dirty (cache_of self.now) p }
    {
        self.cache.dirty(p)
    }

    /// Whether a force or a store has failed. Then nothing else may follow.
    pub fn failed(&self) -> bool
        ensures { result ≡ has_failed self.now }
    {
        self.failed
    }

    /// How many records the log has, forced or pending: the LSN of the last one.
    pub fn records(&self) -> u64
        ensures { result ≡ log_count (log_of self.now) }
    {
        self.log.records()
    }

    /// How many of them were forced: the last LSN that is on the disk.
    pub fn forced(&self) -> u64
        ensures { result ≡ log_forced (log_of self.now) }
    {
        self.log.forced()
    }

    /// Whether records are pending.
    pub fn pending(&self) -> bool
        ensures { result ≡ is_waiting (log_of self.now) }
    {
        self.log.pending()
    }

    /// The bytes of the log.
    pub fn room(&self) -> u64
        ensures { result ≡ log_room (log_of self.now) }
    {
        self.log.room()
    }

    /// The bytes of it that are used: the forced batches, a gate, and a batch of the pending records.
    pub fn used(&self) -> u64
        ensures value { result ≡ log_used (log_of self.now) }
        ensures fits { result ≤ log_room (log_of self.now) }
    {
        self.log.used()
    }

    /// The bytes that are used if that many more are pending.
    pub fn used_with(&self, more: u64) -> u64
        requires { more < 2 ^ 33 }
        ensures { result ≡ log_used_with (log_of self.now) more }
    {
        if more == 0 || self.pending() {
            self.used() + more
        } else {
            self.used() + BATCH_BYTES as u64 + more
        }
    }

    /// Allocates memory for that many more bytes of records.
    pub fn reserve(&mut self, bytes: usize) -> Result<(), AllocError>
        requires { bytes < 2 ^ 32 }
        ensures spare { OnOk result (HasSpare (log_of self.new) bytes) }
        ensures in_room { HasSpare (log_of self.old) bytes → IsOk result }
        ensures same { IsSameLog (log_of self.old) (log_of self.new) }
        ensures memory { KeepsMemory (log_of self.old) (log_of self.new) }
        ensures cache { cache_of self.new ≡ cache_of self.old }
        ensures failed { has_failed self.new ≡ has_failed self.old }
    {
        self.log.reserve(bytes)
    }

    /// Makes the change that these records say: all of them are appended to the log, and then each is put on its pages with its LSN. There is
    /// room in the log and memory for them. A page is stored first where a clean one is written and as many are dirty as may be. After an error nothing
    /// else may follow.
    pub fn carry_out<D: Disk, R: Records>(
        &mut self,
        disk: &mut D,
        records: &R,
    ) -> Result<(), DiskError>
        requires works { has_failed self.old ≡ false }
        requires memory { HasSpare (log_of self.old) (length (spellings (R.list records.now))) }
        requires room { log_used_with (log_of self.old) (length (spellings (R.list records.now))) ≤ log_room (log_of self.old) }
        requires inside { EachWritesBelow (length (pages_in_memory self.old).words) (R.list records.now) }
        requires within { LiesWithin self.old (D.extent disk.old) }
        ensures disk { KeepsDisk D.Disk disk.old disk.new result }
        ensures failed { has_failed self.new ≡ is_err result }

        // In memory.
        ensures carried { OnOk result (HasCarried self.old self.new (R.list records.now)) }
        ensures up_to_date { (o : Origin) (batches : List (List Record)) (pending : List Record) → HasAllWords o → IsUpToDate o batches pending self.old
            → OnOk result (IsUpToDate o (batches_if (was_forced self.old self.new) batches (pending ++ R.list records.now)) (pending_if (was_forced self.old self.new) (pending ++ R.list records.now)) self.new) }
        ensures carry { (k : Carry) → IsAtWith (length (R.list records.now)) k self.old → OnOk result (IsAt (carried_by self.old k (R.list records.now)) self.new) }

        // Where no page has to be stored the disk is not called.
        ensures still { (k : Carry) → IsAtWith (length (R.list records.now)) k self.old → (carried_by self.old k (R.list records.now)).calls ≡ k.calls → IsOk result × (disk.new ≡ disk.old) × Carries self.old self.new (R.list records.now) }
        ensures idle { cache_pages (cache_of self.old) ≤ frames_of self.old → IsOk result × (disk.new ≡ disk.old) × Carries self.old self.new (R.list records.now) }

        // On the disk.
        ensures on_disk { IsTrue D.tells → (o : Origin) (batches : List (List Record)) (pending : List Record) → HasAllWords o → IsUpToDate o batches pending self.old → IsOnDisk o batches self.old (D.bytes disk.old)
            → AdvancesOnDisk D.Disk (length (R.list records.now)) self.old self.new disk.old disk.new result (λ k. carried_by self.old k (R.list records.now)) o batches (pending ++ R.list records.now) }
    {
        let first = self.log.next_lsn();
        self.append(records);
        records.carry(disk, self, first)
    }

    /// Appends them to the log.
    fn append<R: Records>(&mut self, records: &R)
        requires memory { HasSpare (log_of self.old) (length (spellings (R.list records.now))) }
        requires room { log_used_with (log_of self.old) (length (spellings (R.list records.now))) ≤ log_room (log_of self.old) }
        ensures appended { IsAppended (log_of self.old) (log_of self.new) (R.list records.now) }
        ensures cache { cache_of self.new ≡ cache_of self.old }
        ensures failed { has_failed self.new ≡ has_failed self.old }
    {
        records.append(&mut self.log);
    }

    /// Puts the record of that LSN, which the log has, on those of its pages that lack it, one after another.
    pub fn carry_record<D: Disk, E: Effect>(
        &mut self,
        disk: &mut D,
        lsn: u64,
        effect: &E,
    ) -> Result<(), DiskError>
        requires works { has_failed self.old ≡ false }
        requires known { lsn < next_lsn_in (log_of self.old) }
        requires inside { WritesBelow (length (pages_in_memory self.old).words) (E.rec effect.now) }
        requires within { LiesWithin self.old (D.extent disk.old) }
        ensures puts { PutsAll D.Disk self.old self.new disk.old disk.new result lsn (E.rec effect.now ∷ []) }
    {
        let mut from = 0;
        while let Some(p) = effect.next_page(from) {
            if self.cache.lsn(p) < lsn {
                self.carry_page(disk, lsn, p, effect)?;
            }
            from = p + 1;
        }
        Ok(())
    }

    /// Puts what the record of that LSN writes on page `p`, which lacks it.
    fn carry_page<D: Disk, E: Effect>(
        &mut self,
        disk: &mut D,
        lsn: u64,
        p: u32,
        effect: &E,
    ) -> Result<(), DiskError>
        requires works { has_failed self.old ≡ false }
        requires page { p < cache_pages (cache_of self.old) }
        requires lacks { lsn_of (pages_in_memory self.old) p < lsn }
        requires known { lsn < next_lsn_in (log_of self.old) }
        requires inside { WritesBelow (length (pages_in_memory self.old).words) (E.rec effect.now) }
        requires within { LiesWithin self.old (D.extent disk.old) }
        ensures puts { Advances D.Disk self.old self.new disk.old disk.new result (put_page lsn p (pages_in_memory self.old) (E.rec effect.now)) (page_written (cache_pages (cache_of self.old)) (frames_of self.old) p lsn) NothingMore }
    {
        self.make_way(disk, p)?;
        self.write(lsn, p, effect);
        Ok(())
    }

    /// Puts it there in memory: no page has to be stored before.
    fn write<E: Effect>(&mut self, lsn: u64, p: u32, effect: &E)
        requires page { p < cache_pages (cache_of self.old) }
        requires lacks { lsn_of (pages_in_memory self.old) p < lsn }
        requires known { lsn < next_lsn_in (log_of self.old) }
        requires inside { WritesBelow (length (pages_in_memory self.old).words) (E.rec effect.now) }
        requires way { victim (cache_pages (cache_of self.old)) (frames_of self.old) (cached_lsn (cache_of self.old)) (flushed_lsn (cache_of self.old)) p ≡ None }
        ensures put { pages_in_memory self.new ≡ put_page lsn p (pages_in_memory self.old) (E.rec effect.now) }
        ensures log { log_of self.new ≡ log_of self.old }
        ensures store { store_of self.new ≡ store_of self.old }
        ensures frames { frames_of self.new ≡ frames_of self.old }
        ensures failed { has_failed self.new ≡ has_failed self.old }
    {
        self.cache.write(lsn, p, effect);
    }

    /// Stores the page, if there is one, that has to be stored before page `p` gets dirty.
    fn make_way<D: Disk>(&mut self, disk: &mut D, p: u32) -> Result<(), DiskError>
        requires works { has_failed self.old ≡ false }
        requires page { p < cache_pages (cache_of self.old) }
        requires within { LiesWithin self.old (D.extent disk.old) }
        ensures way { OnOk result (victim (cache_pages (cache_of self.new)) (frames_of self.new) (cached_lsn (cache_of self.new)) (flushed_lsn (cache_of self.new)) p ≡ None) }
        ensures stores { Advances D.Disk self.old self.new disk.old disk.new result (pages_in_memory self.old) (λ k. way_made (victim (cache_pages (cache_of self.old)) (frames_of self.old) k.lsns k.stored p) k) NothingMore }
    {
        match self.cache.victim(p) {
            Some(victim) => self.store(disk, victim),
            None => Ok(()),
        }
    }

    /// Forces what is pending, without allocating. After an error it isn't known whether it is on the disk, and nothing else may follow.
    pub fn force<D: Disk>(&mut self, disk: &mut D) -> Result<(), DiskError>
        requires works { has_failed self.old ≡ false }
        requires within { LiesWithin self.old (D.extent disk.old) }
        ensures disk { KeepsDisk D.Disk disk.old disk.new result }
        ensures failed { has_failed self.new ≡ is_err result }

        // In memory.
        ensures cache { cache_of self.new ≡ cache_of self.old }
        ensures idle { IsBufferEmpty (log_of self.old) → (result ≡ Ok tt) × (disk.new ≡ disk.old) × (log_of self.new ≡ log_of self.old) }
        ensures kept { (batches : List (List Record)) (pending : List Record) → Keeps (log_of self.old) batches pending → OnOk result (Keeps (log_of self.new) (with_batch batches pending) []) }
        ensures waits { (batches : List (List Record)) (pending : List Record) → Keeps (log_of self.old) batches pending → OnErr result (Keeps (log_of self.new) batches pending) }
        ensures behind { (o : Origin) (batches : List (List Record)) (pending : List Record) → IsBehind o batches pending self.old → OnOk result (IsBehind o (with_batch batches pending) [] self.new) }
        ensures count { log_count (log_of self.new) ≡ log_count (log_of self.old) }
        ensures forced { OnOk result (log_forced (log_of self.new) ≡ log_count (log_of self.old)) }
        ensures used { log_used (log_of self.new) ≤ log_used (log_of self.old) }
        ensures spare { (more : ℕ) → HasSpare (log_of self.old) more → HasSpare (log_of self.new) more }
        ensures room { log_room (log_of self.new) ≡ log_room (log_of self.old) }

        // On the disk.
        ensures on_disk { IsTrue D.tells → (o : Origin) (batches : List (List Record)) (pending : List Record) → IsBehind o batches pending self.old → IsOnDisk o batches self.old (D.bytes disk.old) → OnOk result (IsOnDisk o (with_batch batches pending) self.new (D.bytes disk.new)) }
        ensures outside { IsTrue D.tells → OnOk result (SameOutside (log_place (log_of self.old)) (log_place (log_of self.old) + log_room (log_of self.old)) (D.bytes disk.old) (D.bytes disk.new)) }
        ensures durable { IsTrue D.tells → Only (D.bytes disk.old) (D.may_leave disk.old) → OnOk result (Only (D.bytes disk.new) (D.may_leave disk.new)) }
        ensures moments { IsTrue D.tells → Only (D.bytes disk.old) (D.may_leave disk.old) → (o : Origin) (batches : List (List Record)) (pending : List Record) → IsBehind o batches pending self.old → IsOnDisk o batches self.old (D.bytes disk.old)
            → LeavesOnly D.moment D.left_since disk.old disk.new (IsLeft o batches pending self.old (D.bytes disk.old)) }
        ensures passes { IsTrue D.tells → Passes (force_calls (is_waiting (log_of self.old))) (D.passed disk.old) (D.passed disk.new) result }
    {
        let forced = self.log.force(disk);
        self.failed = forced.is_err();
        forced
    }

    /// Stores page `p`, which is dirty, as it is now, after a force of what is pending if the page has a record that is not on the disk. Does not
    /// allocate. After an error nothing else may follow.
    pub fn store<D: Disk>(&mut self, disk: &mut D, p: u32) -> Result<(), DiskError>
        requires works { has_failed self.old ≡ false }
        requires page { p < cache_pages (cache_of self.old) }
        requires dirty { IsTrue (is_dirty (cache_of self.old) p) }
        requires within { LiesWithin self.old (D.extent disk.old) }
        ensures disk { KeepsDisk D.Disk disk.old disk.new result }
        ensures failed { has_failed self.new ≡ is_err result }

        // In memory.
        ensures pages { pages_in_memory self.new ≡ pages_in_memory self.old }
        ensures plan { store_plan (store_of self.new) ≡ store_plan (store_of self.old) }
        ensures clean { OnOk result (flushed_lsn (cache_of self.new) p ≡ cached_lsn (cache_of self.old) p) }
        ensures other_pages { (q : ℕ) → q ≢ p → stored_entry (store_of self.new) q ≡ stored_entry (store_of self.old) q }
        ensures kept { (batches : List (List Record)) (pending : List Record) → Keeps (log_of self.old) batches pending
            → OnOk result (Keeps (log_of self.new) (batches_if (is_ahead self.old p) batches pending) (pending_if (is_ahead self.old p) pending)) }
        ensures behind { (o : Origin) (batches : List (List Record)) (pending : List Record) → IsBehind o batches pending self.old
            → OnOk result (IsBehind o (batches_if (is_ahead self.old p) batches pending) (pending_if (is_ahead self.old p) pending) self.new) }
        ensures count { log_count (log_of self.new) ≡ log_count (log_of self.old) }
        ensures used { log_used (log_of self.new) ≤ log_used (log_of self.old) }
        ensures spare { (more : ℕ) → HasSpare (log_of self.old) more → HasSpare (log_of self.new) more }
        ensures room { log_room (log_of self.new) ≡ log_room (log_of self.old) }
        ensures forced { OnOk result (log_forced (log_of self.new) ≡ (if is_ahead self.old p then log_count (log_of self.old) else log_forced (log_of self.old))) }
        ensures frames { frames_of self.new ≡ frames_of self.old }

        // On the disk.
        ensures on_disk { IsTrue D.tells → (o : Origin) (batches : List (List Record)) (pending : List Record) → IsBehind o batches pending self.old → IsOnDisk o batches self.old (D.bytes disk.old)
            → OnOk result (IsOnDisk o (batches_if (is_ahead self.old p) batches pending) self.new (D.bytes disk.new)) }
        ensures stored { IsTrue D.tells → Knows (store_of self.old) (D.bytes disk.old) → OnOk result (HasStored self.old p (D.bytes disk.old) (D.bytes disk.new)) }
        ensures known { IsTrue D.tells → Knows (store_of self.old) (D.bytes disk.old) → OnOk result (Knows (store_of self.new) (D.bytes disk.new)) }
        ensures durable { IsTrue D.tells → OnOk result (Only (D.bytes disk.new) (D.may_leave disk.new)) }
        ensures moments { IsTrue D.tells → Only (D.bytes disk.old) (D.may_leave disk.old) → (o : Origin) (batches : List (List Record)) (pending : List Record) → IsBehind o batches pending self.old → IsOnDisk o batches self.old (D.bytes disk.old)
            → LeavesOnly D.moment D.left_since disk.old disk.new (IsLeft o batches pending self.old (D.bytes disk.old)) }
        ensures passes { IsTrue D.tells → Knows (store_of self.old) (D.bytes disk.old)
            → Passes ((if is_ahead self.old p then force_calls (is_waiting (log_of self.old)) else 0) + store_calls self.old p (D.bytes disk.old)) (D.passed disk.old) (D.passed disk.new) result }
    {
        let lsn = self.cache.lsn(p);
        self.force_up_to(disk, lsn)?;
        let forced = self.log.forced();
        let stored = self.cache.flush(disk, p, forced);
        self.failed = stored.is_err();
        stored
    }

    /// Forces what is pending if the record of that LSN is not on the disk.
    fn force_up_to<D: Disk>(&mut self, disk: &mut D, lsn: u64) -> Result<(), DiskError>
        requires works { has_failed self.old ≡ false }
        requires known { lsn ≤ log_count (log_of self.old) }
        requires within { LiesWithin self.old (D.extent disk.old) }
        ensures disk { KeepsDisk D.Disk disk.old disk.new result }
        ensures failed { has_failed self.new ≡ is_err result }
        ensures cache { cache_of self.new ≡ cache_of self.old }
        ensures reached { OnOk result (lsn ≤ log_forced (log_of self.new)) }
        ensures kept { (batches : List (List Record)) (pending : List Record) → Keeps (log_of self.old) batches pending
            → OnOk result (Keeps (log_of self.new) (batches_if (nat_lt (log_forced (log_of self.old)) lsn) batches pending) (pending_if (nat_lt (log_forced (log_of self.old)) lsn) pending)) }
        ensures behind { (o : Origin) (batches : List (List Record)) (pending : List Record) → IsBehind o batches pending self.old
            → OnOk result (IsBehind o (batches_if (nat_lt (log_forced (log_of self.old)) lsn) batches pending) (pending_if (nat_lt (log_forced (log_of self.old)) lsn) pending) self.new) }
        ensures count { log_count (log_of self.new) ≡ log_count (log_of self.old) }
        ensures used { log_used (log_of self.new) ≤ log_used (log_of self.old) }
        ensures spare { (more : ℕ) → HasSpare (log_of self.old) more → HasSpare (log_of self.new) more }
        ensures room { log_room (log_of self.new) ≡ log_room (log_of self.old) }
        ensures forced { OnOk result (log_forced (log_of self.new) ≡ (if nat_lt (log_forced (log_of self.old)) lsn then log_count (log_of self.old) else log_forced (log_of self.old))) }
        ensures on_disk { IsTrue D.tells → (o : Origin) (batches : List (List Record)) (pending : List Record) → IsBehind o batches pending self.old → IsOnDisk o batches self.old (D.bytes disk.old)
            → OnOk result (IsOnDisk o (batches_if (nat_lt (log_forced (log_of self.old)) lsn) batches pending) self.new (D.bytes disk.new)) }
        ensures outside { IsTrue D.tells → OnOk result (SameOutside (log_place (log_of self.old)) (log_place (log_of self.old) + log_room (log_of self.old)) (D.bytes disk.old) (D.bytes disk.new)) }
        ensures durable { IsTrue D.tells → Only (D.bytes disk.old) (D.may_leave disk.old) → OnOk result (Only (D.bytes disk.new) (D.may_leave disk.new)) }
        ensures moments { IsTrue D.tells → Only (D.bytes disk.old) (D.may_leave disk.old) → (o : Origin) (batches : List (List Record)) (pending : List Record) → IsBehind o batches pending self.old → IsOnDisk o batches self.old (D.bytes disk.old)
            → LeavesOnly D.moment D.left_since disk.old disk.new (IsLeft o batches pending self.old (D.bytes disk.old)) }
        ensures passes { IsTrue D.tells → Passes (if nat_lt (log_forced (log_of self.old)) lsn then force_calls (is_waiting (log_of self.old)) else 0) (D.passed disk.old) (D.passed disk.new) result }
    {
        if self.log.forced() < lsn {
            return self.force(disk);
        }
        Ok(())
    }
}
