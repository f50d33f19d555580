//! What an image says before anything is rolled back: its superblock, its pages, and its log, whose records are redone on them.
ghost use Rattle.std.specs.Prelude.{◌≡◌, ◌≢◌, ℕ, ◌+◌, ◌^◌, ◌<◌, ◌≤◌, List, [], take, Ok, Err, IsTrue, IfOk, IfErr};
ghost use Rattle.disk_model.specs.Keeps.{OnlyReads};
ghost use Rattle.gated_log.specs.Log.{HoldsBatches};
ghost use Rattle.gated_log.specs.LogState.{log_place, log_room, log_used, log_count};
ghost use Rattle.image_plan.specs.declared.superblock.Super.{Super};
ghost use Rattle.image_plan.specs.Plan.{image_size};
ghost use Rattle.image_plan.specs.Super.{IsSuper, superblock};
ghost use Rattle.log_records.specs.declared.Record.{Record};
ghost use Rattle.log_machine.specs.Machine.{reserve};
ghost use Rattle.page_redo.specs.Pages.{Pages};
ghost use Rattle.page_redo.specs.Redo.{EachLacks};
ghost use Rattle.page_store.specs.StoreState.{Knows};
ghost use Rattle.page_cache.specs.CacheState.{cached, cache_store, cache_size};
ghost use Rattle.heap_model.specs.Image.{StoredHeap, log_part, IsShaped};
ghost use Rattle.heap_model.specs.Lsns.{log_next_lsn};
ghost use Rattle.heap_recovery.specs.declared.at.At.{At};
ghost use Rattle.heap_recovery.specs.declared.at.At.TheVariants.{Address};
ghost use Rattle.heap_recovery.specs.declared.error.RecoverError.TheVariants.{Damaged};
ghost use Rattle.heap_recovery.specs.Causes.{open_device};
ghost use Rattle.heap_recovery.specs.Faults.{HasSuper, IsReadable, IsToldOf, IsToldOfLog};
ghost use Rattle.heap_recovery.specs.Recovered.{IsRead, IsFromOutside};
ghost use Rattle.heap_recovery.specs.Replayed.{heap_with, HasReplayed, HasReplayedLog};

use crate::error::RecoverError;
use crate::reading::Reading;
use crate::replaying::Replay;
use disk_model::Disk;
use gated_log::{Log, LogReader};
use image_plan::{SUPER_BYTES, Super, read_super};
use page_cache::PageCache;
use std::alloc::Global;

/// Reads the image on the disk.
pub fn read_image<D: Disk>(alloc: Global, disk: &mut D) -> Result<Reading, RecoverError>
    // What was read are the batches of some log, whose records follow one another and were redone on some pages.
    ensures read { IfOk result (λ read. (stored : StoredHeap) × IsRead stored read) }
    ensures inside { IfOk result (λ read. log_place read.log + log_room read.log ≤ D.extent disk.new) }
    ensures pages_inside { IfOk result (λ read. cache_size read.cache ≤ D.extent disk.new) }
    ensures room { IfOk result (λ read. log_used read.log + reserve read.state ≤ log_room read.log) }
    ensures next { IfOk result (λ read. EachLacks (log_next_lsn read.log) (cached read.cache)) }
    ensures few { IfOk result (λ read. log_count read.log < 2 ^ 32) }

    // They are the image's own, and an error reports what is wrong with it.
    ensures sound { IsTrue D.tells → IfOk result (λ read. (stored : StoredHeap) × IsRead stored read × IsReadable stored read.state (D.bytes disk.old)) }
    ensures refused { IsTrue D.tells → IfErr result (λ e. IsToldOf e (D.bytes disk.old)) }
    ensures known { IsTrue D.tells → IfOk result (λ read. Knows (cache_store read.cache) (D.bytes disk.old)) }

    // Of a shaped image, its own log and pages are read.
    ensures found { IsTrue D.tells → (stored : StoredHeap) → IsShaped stored (D.bytes disk.old) → IfOk result (IsRead stored) }
    ensures shaped { IsTrue D.tells → (stored : StoredHeap) → IsShaped stored (D.bytes disk.old) → IfErr result IsFromOutside }
    // The words are not checked yet.
    ensures no_address { (address : ℕ) → result ≢ Err (Damaged (Address address)) }
    ensures disk { OnlyReads D.Disk disk.old disk.new (open_device result) }
{
    let of = read_numbers(disk)?;
    read_log(alloc, disk, of)
}

/// The numbers that the heap on the disk was made with, if the superblock is good and the disk has the bytes of its plan.
fn read_numbers<D: Disk>(disk: &mut D) -> Result<Super, RecoverError>
    ensures good { IfOk result IsSuper }
    ensures fits { IfOk result (λ s. image_size s.pages s.log_bytes ≤ D.extent disk.new) }
    ensures sound { IsTrue D.tells → IfOk result (λ s. HasSuper s (D.bytes disk.old)) }
    ensures undamaged { (at : At) → result ≢ Err (Damaged at) }
    ensures found { IsTrue D.tells → (s : Super) → IsSuper s → take 64 (D.bytes disk.old) ≡ superblock s → image_size s.pages s.log_bytes ≤ D.extent disk.old → IfOk result (λ found. found ≡ s) }
    ensures shaped { IsTrue D.tells → (s : Super) → IsSuper s → take 64 (D.bytes disk.old) ≡ superblock s → image_size s.pages s.log_bytes ≤ D.extent disk.old → IfErr result IsFromOutside }
    ensures disk { OnlyReads D.Disk disk.old disk.new (open_device result) }
{
    if disk.size() < SUPER_BYTES as u64 {
        return Err(RecoverError::NotHeap);
    }
    let mut bytes = [0u8; SUPER_BYTES];
    disk.read(0, &mut bytes).map_err(RecoverError::Disk)?;
    let found = read_super(&bytes).ok_or(RecoverError::NotHeap)?;
    if disk.size() < found.plan().size() {
        return Err(RecoverError::NotHeap);
    }
    Ok(found)
}

/// Reads the pages of a heap with these numbers, and then its log, once, and redoes its records on them.
fn read_log<D: Disk>(alloc: Global, disk: &mut D, of: Super) -> Result<Reading, RecoverError>
    requires good { IsSuper of }
    requires fits { image_size of.pages of.log_bytes ≤ D.extent disk.old }

    ensures read { IfOk result (λ read. (stored : StoredHeap) × IsRead stored read) }
    ensures inside { IfOk result (λ read. log_place read.log + log_room read.log ≤ D.extent disk.new) }
    ensures pages_inside { IfOk result (λ read. cache_size read.cache ≤ D.extent disk.new) }
    ensures room { IfOk result (λ read. log_used read.log + reserve read.state ≤ log_room read.log) }
    ensures next { IfOk result (λ read. EachLacks (log_next_lsn read.log) (cached read.cache)) }
    ensures few { IfOk result (λ read. log_count read.log < 2 ^ 32) }
    ensures sound { IsTrue D.tells → HasSuper of (D.bytes disk.old) → IfOk result (λ read. (stored : StoredHeap) × IsRead stored read × IsReadable stored read.state (D.bytes disk.old)) }
    ensures refused { IsTrue D.tells → HasSuper of (D.bytes disk.old) → IfErr result (λ e. IsToldOf e (D.bytes disk.old)) }
    ensures known { IsTrue D.tells → IfOk result (λ read. Knows (cache_store read.cache) (D.bytes disk.old)) }
    ensures no_address { (address : ℕ) → result ≢ Err (Damaged (Address address)) }
    ensures disk { OnlyReads D.Disk disk.old disk.new (open_device result) }
{
    // An opening stores no page, so each page may be dirty.
    let cache = PageCache::open(alloc, disk, of.plan(), 2 * of.pages)?;
    let mut replay = Replay::start(alloc, of, cache);
    let log = replay_log(alloc, disk, of, &mut replay)?;
    replay.finish(of, log)
}

/// Reads the log of a heap with these numbers to its end, and replays its records. A bad batch is reported before a record that
/// can't follow, wherever they stand.
fn replay_log<D: Disk>(
    alloc: Global,
    disk: &mut D,
    of: Super,
    replay: &mut Replay,
) -> Result<Log, RecoverError>
    requires good { IsSuper of }
    requires fits { image_size of.pages of.log_bytes ≤ D.extent disk.old }
    requires none { (at : Pages) × HasReplayed of at [] replay.old }
    ensures found { (at : Pages) → HasReplayed of at [] replay.old → IfOk result (λ log. (batches : List (List Record)) × HasReplayedLog (heap_with of at batches) log replay.new × (IsTrue D.tells → HoldsBatches (log_part of (D.bytes disk.old)) batches)) }
    ensures refused { IsTrue D.tells → IfErr result (IsToldOfLog (log_part of (D.bytes disk.old))) }
    ensures inside { IfOk result (λ log. log_place log + log_room log ≤ D.extent disk.new) }
    ensures few { IfOk result (λ log. log_count log < 2 ^ 32) }
    ensures store { cache_store replay.new.cache ≡ cache_store replay.old.cache }
    ensures no_address { (address : ℕ) → result ≢ Err (Damaged (Address address)) }
    ensures disk { OnlyReads D.Disk disk.old disk.new (open_device result) }
{
    let mut reader = LogReader::open(alloc, of.plan().log_at(), of.log_bytes)?;
    while let Some(record) = reader.next(alloc, disk)? {
        replay.take(alloc, reader.lsn(), &record)?;
    }
    Ok(reader.into_log())
}
