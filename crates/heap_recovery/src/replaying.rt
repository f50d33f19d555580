//! The log's records are replayed as they are read: each is checked by the record machine, redone on the pages, and dropped.
ghost use Rattle.std.specs.Prelude.{◌≡◌, length};
ghost use Rattle.log_machine.specs.Machine.{words_in};
ghost use Rattle.page_cache.specs.CacheState.{cached, cache_frames, cache_pages};

use crate::at::At;
use crate::error::RecoverError;
use crate::reading::Reading;
use gated_log::Log;
use image_plan::Super;
use log_machine::{AfterError, LogState};
use log_records::Record;
use page_cache::PageCache;
use std::alloc::Global;

/// What the records that were read so far leave.
#[derive(Debug, Drop)]
pub struct Replay {
    /// The state after them, up to the first that can't follow.
    pub state: LogState,
    /// The pages, on each of which those records were redone that it lacked.
    pub cache: PageCache,
    /// The LSN of the first record that can't follow those before it. Nothing is done with it, nor with those after it.
    pub unshaped: Option<u64>,
    ghost sized: { length (cached cache).words ≡ words_in state.pages },
    ghost frames: { cache_frames cache ≡ cache_pages cache },
}

impl Replay {
    ghost use Rattle.std.specs.Prelude.{◌≢◌, ℕ, ◌+◌, ◌^◌, ◌<◌, ◌≤◌, List, [], ◌∷◌, ◌++◌, IsFalse, Ok, Err, IfOk, IfErr, OnOk};
    ghost use Rattle.gated_log.specs.LogState.{log_room, log_used};
    ghost use Rattle.image_plan.specs.declared.superblock.Super.{Super};
    ghost use Rattle.image_plan.specs.Super.{IsSuper};
    ghost use Rattle.log_records.specs.declared.Record.{Record};
    ghost use Rattle.log_machine.specs.Machine.{reserve};
    ghost use Rattle.page_redo.specs.Origin.{heap_origin, next_lsn};
    ghost use Rattle.heap_model.specs.Image.{StoredHeap};
    ghost use Rattle.heap_model.specs.Lsns.{log_next_lsn};
    ghost use Rattle.page_redo.specs.Pages.{Pages, pages_in, lsn_of};
    ghost use Rattle.page_redo.specs.Redo.{EachLacks};
    ghost use Rattle.page_store.specs.StoreState.{store_plan};
    ghost use Rattle.page_cache.specs.CacheState.{cache_store, cache_failed, flushed_lsn};
    ghost use Rattle.heap_recovery.specs.declared.at.At.TheVariants.{Address};
    ghost use Rattle.heap_recovery.specs.declared.error.RecoverError.TheVariants.{NoMemory, Damaged};
    ghost use Rattle.heap_recovery.specs.Causes.{open_device};
    ghost use Rattle.heap_recovery.specs.Faults.{HoldsLog, IsReadable, IsToldOf};
    ghost use Rattle.heap_recovery.specs.Recovered.{plan_of, IsRead};
    ghost use Rattle.heap_recovery.specs.Replayed.{HasReplayed, HasReplayedLog};

    /// Before the first record of a heap with these numbers, whose pages are stored so.
    pub fn start(alloc: Global, of: Super, cache: PageCache) -> Replay
        requires good { IsSuper of }
        requires plan { store_plan (cache_store cache) ≡ plan_of of }
        requires unfailed { IsFalse (cache_failed cache) }
        requires frames { cache_frames cache ≡ cache_pages cache }
        requires words { length (cached cache).words ≡ words_in of.pages }
        requires lsns { length (cached cache).lsns ≡ pages_in of.pages }
        requires clean { (p : ℕ) → p < pages_in of.pages → flushed_lsn cache p ≡ lsn_of (cached cache) p }
        ensures none { HasReplayed of (cached cache) [] result }
        ensures store { cache_store result.cache ≡ cache_store cache }
    {
        Replay {
            state: LogState::start(alloc, of.pages, of.first),
            cache,
            unshaped: None,
        }
    }

    /// Takes the record of that LSN, the next one.
    pub fn take(&mut self, alloc: Global, lsn: u64, rec: &Record) -> Result<(), RecoverError>
        requires commits { self.old.state.commits + 1 < 2 ^ 64 }
        requires room { reserve self.old.state + 29 < 2 ^ 64 }
        ensures on { (of : Super) (at : Pages) (records : List Record) → lsn ≡ next_lsn (heap_origin of.pages of.first) records → HasReplayed of at records self.old → OnOk result (HasReplayed of at (records ++ rec.now ∷ []) self.new) }
        ensures store { cache_store self.new.cache ≡ cache_store self.old.cache }
        ensures error { IfErr result (λ e. e ≡ NoMemory) }
    {
        if self.unshaped.is_some() {
            return Ok(());
        }
        match self.state.after(alloc, rec) {
            Ok(()) => {}
            Err(AfterError::NoMemory) => return Err(RecoverError::NoMemory),
            Err(AfterError::Unshaped) => {
                self.unshaped = Some(lsn);
                return Ok(());
            }
        }
        self.cache.redo(lsn, rec);
        Ok(())
    }

    /// What was read of an image whose log was this one: its records all follow one another, it has room for the rollback, and no page
    /// is ahead of it.
    pub fn finish(self, of: Super, log: Log) -> Result<Reading, RecoverError>
        requires good { IsSuper of }
        requires few { reserve self.state < 2 ^ 63 }
        requires pages { self.state.pages ≡ of.pages }
        ensures read { (stored : StoredHeap) → of ≡ stored.super → HasReplayedLog stored log self → IfOk result (IsRead stored) }
        ensures readable { (stored : StoredHeap) (image : List ℕ) → HoldsLog stored image → HasReplayedLog stored log self → IfOk result (λ read. IsReadable stored read.state image) }
        ensures refused { (stored : StoredHeap) (image : List ℕ) → HoldsLog stored image → HasReplayedLog stored log self → IfErr result (λ e. IsToldOf e image) }
        ensures no_address { (address : ℕ) → result ≢ Err (Damaged (Address address)) }
        ensures next { IfOk result (λ read. EachLacks (log_next_lsn read.log) (cached read.cache)) }
        ensures room { IfOk result (λ read. log_used read.log + reserve read.state ≤ log_room read.log) }
        ensures of { IfOk result (λ read. read.of ≡ of) }
        ensures log { IfOk result (λ read. read.log ≡ log) }
        ensures store { IfOk result (λ read. cache_store read.cache ≡ cache_store self.cache) }
        ensures no_disk { open_device result ≡ Ok tt }
    {
        if let Some(lsn) = self.unshaped {
            return Err(RecoverError::Damaged { at: At::Rec(lsn) });
        }
        if log.used() + self.state.reserve() > log.room() {
            return Err(RecoverError::Damaged { at: At::Reserve });
        }
        // Redo raises no page past the log, so a page that is ahead of it was stored so.
        if let Some(page) = self.cache.first_past(log.records()) {
            return Err(RecoverError::Damaged { at: At::Page(page) });
        }
        Ok(Reading {
            of,
            log,
            cache: self.cache,
            state: self.state,
        })
    }
}
