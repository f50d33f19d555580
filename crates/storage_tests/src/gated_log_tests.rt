//! A log on a disk in memory: what a force writes, and what an opening finds.
ghost use Rattle.std.specs.Prelude.{◌≡◌, IfOk};
ghost use Rattle.gated_log.specs.LogState.{log_place, log_room, IsPlaced};

use crate::compare::same;
use crate::disks::disk_of;
use disk_model::{Disk, DiskError, MemoryDisk, Pick};
use gated_log::{Log, LogError};
use log_records::Record;
use std::alloc::{AllocError, Global};
use std::process::Abort;
use std::test::Fail;

/// Transaction 1 writes the number 7 into field 0 of the object at address 0, where null stood, and is committed.
const RECORDS: [Record; 2] = [
    Record::Update {
        t: 1,
        object: 0,
        field: 0,
        was: 0,
        word: 29,
    },
    Record::Commit { t: 1 },
];

/// Four bytes that aren't the log's, the batch of both records as `docs/FORMATS.md` has it, and the rest of the log.
const FORCED: [u8; 44] = [
    0, 0, 0, 0, 1, 32, 0, 0, 0, 1, 1, 0, 0, 0, 0, 0, 0, 0, 0, 0, 0, 0, 0, 0, 0, 0, 0, 0, 29, 0, 0,
    0, 0, 0, 0, 0, 5, 1, 0, 0, 0, 0, 0, 0,
];

/// Opens the log of that many bytes, which follows four others.
fn open(
    rt: &impl Abort,
    alloc: Global,
    disk: &mut MemoryDisk,
    room: u32,
) -> Result<(Log, Vec<Record>), LogError>
    ensures { IfOk result (λ found. (log_place found.0 ≡ 4) × (log_room found.0 ≡ room)) }
{
    assert!(rt; room > 0 && disk.size() >= 4 + u64::from(room));
    Log::open(alloc, disk, 4, room)
}

/// How many records there are, how many of them are forced, and how many bytes they take.
fn counts(log: &Log) -> (u64, u64, u64) {
    (log.records(), log.forced(), log.used())
}

fn append(rt: &impl Abort, log: &mut Log, record: &Record) -> Result<(), AllocError>
    ensures { IsPlaced log.old log.new }
{
    let need = log.need(record);
    assert!(rt; need < 99);
    assert!(rt; log.used() + need <= log.room());
    log.append(record)
}

/// Appends both records to a log without records.
fn append_both(rt: &impl Abort, log: &mut Log) -> Result<(), AllocError>
    requires { log_room log.old ≡ 40 }
    ensures { IsPlaced log.old log.new }
{
    assert!(rt; log.used() == 1);
    log.append_all(&RECORDS)
}

/// Forces the log of 40 bytes.
fn force(rt: &impl Abort, log: &mut Log, disk: &mut MemoryDisk) -> Result<(), DiskError>
    requires place { log_place log.old ≡ 4 }
    requires room { log_room log.old ≡ 40 }
{
    assert!(rt; disk.size() >= 44);
    log.force(disk)
}

/// Opens a log without records.
fn open_empty(rt: &impl Abort, alloc: Global, disk: &mut MemoryDisk) -> Result<Log, LogError>
    ensures { IfOk result (λ log. (log_place log ≡ 4) × (log_room log ≡ 40)) }
{
    let (log, found) = open(rt, alloc, disk, 40)?;
    same(rt, (found.len(), counts(&log)), (0, (0, 0, 1)));
    Ok(log)
}

/// Appends the records one by one.
fn append_each(rt: &impl Abort, log: &mut Log) -> Result<(), AllocError>
    ensures { IsPlaced log.old log.new }
{
    append(rt, log, &RECORDS[0])?;
    same(rt, log.pending(), true);
    append(rt, log, &RECORDS[1])?;
    same(rt, (log.records(), log.forced()), (2, 0));
    Ok(())
}

/// Appends the records one by one, and forces them.
fn append_and_force(rt: &impl Abort, alloc: Global, disk: &mut MemoryDisk) -> Result<(), Fail> {
    let mut log = open_empty(rt, alloc, disk)?;
    log.reserve(32)?;
    append_each(rt, &mut log)?;
    force(rt, &mut log, disk)?;
    same(rt, (log.pending(), counts(&log)), (false, (2, 2, 38)));
    Ok(())
}

/// Opens the log again, and compares the records that it has.
fn opened_again(rt: &impl Abort, alloc: Global, disk: &mut MemoryDisk) -> Result<(), Fail> {
    let (again, found) = open(rt, alloc, disk, 40)?;
    same(rt, found.as_slice(), &RECORDS);
    same(rt, counts(&again), (2, 2, 38));
    Ok(())
}

#[test]
fn forced_and_opened_again(rt: HostRuntime) -> Result<(), Fail> {
    let zeros = vec![in rt.alloc(); 0u8; 44]?;
    let mut disk = disk_of(rt.alloc(), zeros, Pick::Newest, 1000, (&[], &[]))?;
    append_and_force(&rt, rt.alloc(), &mut disk)?;
    same(&rt, disk.contents(), &FORCED);
    opened_again(&rt, rt.alloc(), &mut disk)
}

#[test]
fn records_appended_together_are_one_batch(rt: HostRuntime) -> Result<(), Fail> {
    let zeros = vec![in rt.alloc(); 0u8; 44]?;
    let mut disk = disk_of(rt.alloc(), zeros, Pick::Newest, 1000, (&[], &[]))?;
    let mut log = open(&rt, rt.alloc(), &mut disk, 40)?.0;
    append_both(&rt, &mut log)?;
    force(&rt, &mut log, &mut disk)?;
    same(&rt, disk.contents(), &FORCED);
    Ok(())
}

/// The log of `FORCED` with one byte changed: the byte's place, what it is now, and how many records are found or where the
/// batch rule fails. The gate after the batch lies at offset 37 of the log, where no length fits any more.
const CHANGED: [(usize, u8, Result<usize, LogError>); 7] = [
    (4, 2, Ok(0)),
    (41, 2, Ok(2)),
    (41, 1, Err(LogError::BadBatch { at: 37 })),
    (5, 31, Err(LogError::BadBatch { at: 0 })),
    (5, 35, Err(LogError::BadBatch { at: 0 })),
    (9, 7, Err(LogError::BadBatch { at: 0 })),
    (28, 28, Err(LogError::BadBatch { at: 0 })),
];

/// How many records the log has with one byte changed.
fn changed(rt: &impl Abort, alloc: Global, place: usize, byte: u8) -> Result<usize, LogError> {
    let mut bytes = FORCED.to_vec(alloc)?;
    assert!(rt; place < bytes.len());
    bytes[place] = byte;
    let mut disk = disk_of(alloc, bytes, Pick::Newest, 1000, (&[], &[]))?;
    let (_, records) = open(rt, alloc, &mut disk, 40)?;
    Ok(records.len())
}

#[test]
fn a_bad_batch_is_told_where_it_begins(rt: HostRuntime) {
    for (place, byte, want) in &CHANGED {
        let found = changed(&rt, rt.alloc(), *place, *byte);
        same(&rt, (place, byte, found), (place, byte, *want));
    }
}

/// The bytes of a big log, of which few are used.
const BIG: usize = 8_388_608;

/// A disk with a big log, on which all reads but the first fail.
fn make_big(alloc: Global) -> Result<MemoryDisk, AllocError> {
    let mut bytes = FORCED.to_vec(alloc)?;
    bytes.resize(4 + BIG, 0)?;
    disk_of(alloc, bytes, Pick::Newest, 1000, (&[], &[2, 3, 4]))
}

#[test]
fn a_big_log_is_read_no_further_than_it_is_used(rt: HostRuntime) -> Result<(), Fail> {
    let mut disk = make_big(rt.alloc())?;
    let (log, found) = open(&rt, rt.alloc(), &mut disk, BIG as u32)?;
    same(&rt, found.as_slice(), &RECORDS);
    same(&rt, (log.used(), log.room()), (38, BIG as u64));
    Ok(())
}
