//! An image is opened, and the writes of unfinished transactions are rolled back.
ghost use Rattle.std.specs.Prelude.{◌≡◌, ◌+◌, ◌^◌, ◌<◌, ◌≤◌, ℕ, List, [], None, Some, Ok, Err, IsTrue, IsOk, IfOk, IfErr, IfSome, OnOk};
ghost use Rattle.std.specs.Option.{option_map};
ghost use Rattle.gated_log.specs.LogState.{log_place, log_room, log_used, log_count, Keeps};
ghost use Rattle.log_records.specs.declared.Record.{Record};
ghost use Rattle.log_machine.specs.Machine.{settled, rollback, all_taken_back, reserve, words_in};
ghost use Rattle.page_redo.specs.Redo.{EachLacks, redo_all};
ghost use Rattle.page_store.specs.StoreState.{Knows};
ghost use Rattle.page_cache.specs.CacheState.{cached, cache_store, cache_frames, cache_pages, cache_size};
ghost use Rattle.object_layout.specs.CollectionWalk.{IsWalkFaultBeside, given};
ghost use Rattle.walk_laws.specs.Heap.{IsStateWalked, from_space};
ghost use Rattle.heap_model.specs.Bits.{AreOf64Bits};
ghost use Rattle.heap_model.specs.Image.{StoredHeap, IsShapedLog, IsShaped};
ghost use Rattle.heap_model.specs.Lsns.{log_next_lsn};
ghost use Rattle.heap_recovery.specs.Causes.{open_device};
ghost use Rattle.heap_recovery.specs.declared.at.At.{At};
ghost use Rattle.heap_recovery.specs.declared.at.At.TheVariants.{Address};
ghost use Rattle.heap_recovery.specs.declared.error.RecoverError.TheVariants.{NoMemory, Damaged};
ghost use Rattle.heap_recovery.specs.Opens.{outcome, OpensImage};
ghost use Rattle.heap_recovery.specs.Recovered.{IsRecovered};

use crate::at::At;
use crate::error::RecoverError;
use crate::read_image::read_image;
use crate::reading::Reading;
use disk_model::Disk;
use gated_log::Log;
use log_machine::LogState;
use object_layout::{FromSpace, WalkError, WordSlice, walk_beside};
use page_cache::PageCache;
use std::alloc::Global;

/// A heap that was opened, in which no writes are left to be taken back.
#[derive(Debug, Drop)]
pub struct Recovered {
    /// The log, with no pending record.
    pub log: Log,
    /// The pages of both spaces in memory, as they are after the log's records.
    pub cache: PageCache,
    /// What the log's records say, those of the rollback too.
    pub state: LogState,
}

/// Opens the image on the disk. The writes of unfinished transactions are rolled back, ascending by number and each newest
/// first, by one forced batch of compensation records (repeating history as in ARIES, 1992); where there are none the disk is only read.
/// `NotHeap` and `Damaged` report the first fault of the image. The disk is then as it was, but for a fault at an address: that is reported
/// after the rollback was forced.
pub fn recover<D: Disk>(alloc: Global, disk: &mut D) -> Result<Recovered, RecoverError>
    ensures image { OpensImage D.Disk disk.old disk.new (outcome result) }

    // On every disk what is opened is a log that is shaped beside some pages, rolled back.
    ensures opens { IfOk result (λ found. (stored : StoredHeap) × IsShapedLog stored × IsRecovered stored found) }
    ensures inside { IfOk result (λ found. log_place found.log + log_room found.log ≤ D.extent disk.new) }
    ensures pages_inside { IfOk result (λ found. cache_size found.cache ≤ D.extent disk.new) }
    // Each page may be dirty.
    ensures frames { IfOk result (λ found. cache_frames found.cache ≡ cache_pages found.cache) }

    // They are the log and the pages of the image. A shaped image is opened as it is, and the pages that it stores are known.
    ensures sound { IsTrue D.tells → IfOk result (λ found. (stored : StoredHeap) × IsShaped stored (D.bytes disk.old) × IsRecovered stored found) }
    ensures found { IsTrue D.tells → (stored : StoredHeap) → IsShaped stored (D.bytes disk.old) → IfOk result (IsRecovered stored) }
    ensures known { IsTrue D.tells → IfOk result (λ found. Knows (cache_store found.cache) (D.bytes disk.new)) }
{
    let mut read = read_image(alloc, disk)?;
    read.roll_back()?;
    // The walk takes its memory before the disk is written; what it finds is reported afterwards.
    let fault = read.walk_fault(alloc)?;
    read.log.force(disk)?;
    read.finish(alloc, fault)
}

impl Reading {
    /// Rolls back the writes of unfinished transactions in memory. The records that do so are pending, and are redone on
    /// their pages.
    fn roll_back(&mut self) -> Result<(), RecoverError>
        requires room { log_used self.old.log + reserve self.old.state ≤ log_room self.old.log }
        requires next { EachLacks (log_next_lsn self.old.log) (cached self.old.cache) }
        requires few { log_count self.old.log < 2 ^ 32 }

        ensures words { OnOk result ((cached self.new.cache).words ≡ all_taken_back self.old.state (cached self.old.cache).words) }
        ensures pages { OnOk result (cached self.new.cache ≡ redo_all (log_next_lsn self.old.log) (cached self.old.cache) (rollback self.old.state)) }
        ensures store { cache_store self.new.cache ≡ cache_store self.old.cache }
        ensures state { self.new.state ≡ self.old.state }
        ensures of { self.new.of ≡ self.old.of }
        ensures place { log_place self.new.log ≡ log_place self.old.log }
        ensures same_room { log_room self.new.log ≡ log_room self.old.log }
        ensures kept { (batches : List (List Record)) → Keeps self.old.log batches [] → OnOk result (Keeps self.new.log batches (rollback self.old.state)) }
        ensures error { IfErr result (λ e. e ≡ NoMemory) }
    {
        let records = self.state.rollback()?;
        let first = self.log.next_lsn();
        self.log.append_all(&records)?;
        self.cache.redo_all(first, &records);
        Ok(())
    }

    /// The first address at which the used words are not objects that refer to one another, if there is one: those of the current space,
    /// and where a collection is under way those of the space that it empties.
    fn walk_fault(&self, alloc: Global) -> Result<Option<u32>, RecoverError>
        ensures passes { IfOk result (λ fault. fault ≡ None → IsStateWalked self.now.state (cached self.now.cache).words) }
        ensures fit { IfOk result (λ fault. AreOf64Bits (cached self.now.cache).words) }
        ensures fault { IfOk result (λ fault. (at : ℕ) → fault ≡ Some at → IsWalkFaultBeside (cached self.now.cache).words self.now.state.base self.now.state.used (from_space self.now.state) at) }
        ensures error { IfErr result (λ e. e ≡ NoMemory) }
    {
        let mut words = WordSlice::of(self.cache.as_slice());
        let base = self.state.base();
        let used = self.state.used();
        match walk_beside(alloc, &mut words, base, used, self.from_space()) {
            Ok(()) => Ok(None),
            Err(WalkError::Damaged { address }) => Ok(Some(address)),
            // Words in memory don't fail.
            Err(WalkError::NoMemory | WalkError::Disk(_)) => Err(RecoverError::NoMemory),
        }
    }

    // The space that a collection empties, where one is under way.
    fn from_space(&self) -> Option<FromSpace<'_>>
        ensures value { option_map given result ≡ from_space self.now.state }
        ensures fits { IfSome result (λ f. f.base + f.collection.now.used ≤ words_in self.now.state.pages) }
    {
        match self.state.collection() {
            Some(collection) => Some(FromSpace {
                base: self.state.other_base(),
                collection,
            }),
            None => None,
        }
    }

    /// What was opened, if the walk of its words passed.
    fn finish(self, alloc: Global, fault: Option<u32>) -> Result<Recovered, RecoverError>
        ensures damaged { (at : ℕ) → fault ≡ Some at → result ≡ Err (Damaged (Address at)) }
        ensures whole { fault ≡ None → IsOk result }
        ensures walked { IfOk result (λ found. fault ≡ None) }
        ensures log { IfOk result (λ found. found.log ≡ self.log) }
        ensures cache { IfOk result (λ found. found.cache ≡ self.cache) }
        ensures state { IfOk result (λ found. found.state ≡ settled self.state) }
        ensures frames { IfOk result (λ found. cache_frames found.cache ≡ cache_pages found.cache) }
        ensures no_disk { open_device result ≡ Ok tt }
    {
        if let Some(address) = fault {
            return Err(RecoverError::Damaged {
                at: At::Address(address),
            });
        }
        let Reading {
            of: _,
            log,
            cache,
            mut state,
        } = self;
        // The rollback's records have ended each transaction that had not ended.
        state.settle(alloc);
        Ok(Recovered { log, cache, state })
    }
}
