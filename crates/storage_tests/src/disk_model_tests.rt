//! Tests of the disk in memory and of the fuse, and a caller that is proved from the disk's clauses alone.
ghost use Rattle.std.specs.Prelude.{◌≡◌, ℕ, ◌+◌, ◌<◌, ◌≤◌, List, length, IsTrue, OnOk, IfOk};
ghost use Rattle.disk_model.specs.Disk.{Torn, Only};
ghost use Rattle.disk_model.specs.Keeps.{KeepsDisk, OnlyReads};
ghost use Rattle.disk_model.specs.Moments.{LeavesOnly};
ghost use Rattle.disk_model.specs.Memory.{now_of};

use crate::compare::same;
use crate::disks::disk_of;
use disk_model::{Disk, DiskError, FuseDisk, MemoryDisk, Pick};
use std::alloc::{AllocError, Global};
use std::process::Abort;
use std::test::Fail;

/// Two calls: at each moment of both a crash leaves all but the range as it was.
fn write_and_sync<D: Disk>(disk: &mut D, at: u64, piece: &[u8]) -> Result<(), DiskError>
    requires { at + length piece.now ≤ D.extent disk.old }
    ensures moments { IsTrue D.tells → Only (D.bytes disk.old) (D.may_leave disk.old) → LeavesOnly D.moment D.left_since disk.old disk.new (Torn at (length piece.now) (D.bytes disk.old)) }
    ensures durable { IsTrue D.tells → OnOk result (Only (D.bytes disk.new) (D.may_leave disk.new)) }
    ensures disk { KeepsDisk D.Disk disk.old disk.new result }
{
    disk.write(at, piece)?;
    disk.sync()
}

/// What a write, a sync, a write and a write answer.
fn answers<D: Disk>(disk: &mut D) -> [Result<(), DiskError>; 4]
    requires { 6 ≤ D.extent disk.old }
    ensures { D.extent disk.new ≡ D.extent disk.old }
{
    let first = disk.write(1, &[21, 22]);
    let synced = disk.sync();
    let second = disk.write(2, &[32, 33]);
    [first, synced, second, disk.write(4, &[44])]
}

/// The byte at a place, if the read succeeds.
fn byte_at<D: Disk>(disk: &mut D, at: u64) -> Result<u8, DiskError>
    requires { at < D.extent disk.old }
    ensures { OnlyReads D.Disk disk.old disk.new result }
{
    let mut byte = [0];
    disk.read(at, &mut byte)?;
    Ok(byte[0])
}

/// A disk of six bytes whose record has room for that many bytes. The listed writes and syncs fail, and the listed reads.
fn disk_of_six(
    alloc: Global,
    pick: Pick,
    room: usize,
    fails: (&[u64], &[u64]),
) -> Result<MemoryDisk, AllocError>
    ensures { IfOk result (λ disk. length (now_of disk).newest ≡ 6) }
{
    let bytes = vec![in alloc; 10, 11, 12, 13, 14, 15]?;
    disk_of(alloc, bytes, pick, room, fails)
}

const DONE: Result<(), DiskError> = Ok(());

const FAILED: Result<(), DiskError> = Err(DiskError::Failed);

const STOPPED: Result<(), DiskError> = Err(DiskError::Stopped);

/// A disk: what its restart leaves, how much room its record has, and which of its writes and syncs fail.
type Made = (Pick, usize, &'static [u64]);

/// A disk, what it answers, what it has then, and what a restart leaves of that.
type Case = (Made, [Result<(), DiskError>; 4], [u8; 6], [u8; 6]);

static CASES: [Case; 13] = [
    // Each pick.
    (
        (Pick::Synced, 1000, &[]),
        [DONE, DONE, DONE, DONE],
        [10, 21, 32, 33, 44, 15],
        [10, 21, 22, 13, 14, 15],
    ),
    (
        (Pick::Newest, 1000, &[]),
        [DONE, DONE, DONE, DONE],
        [10, 21, 32, 33, 44, 15],
        [10, 21, 32, 33, 44, 15],
    ),
    (
        (Pick::AllOnes, 1000, &[]),
        [DONE, DONE, DONE, DONE],
        [10, 21, 32, 33, 44, 15],
        [10, 21, 255, 255, 255, 15],
    ),
    (
        (Pick::AllOpen, 1000, &[]),
        [DONE, DONE, DONE, DONE],
        [10, 21, 32, 33, 44, 15],
        [10, 21, 1, 1, 1, 15],
    ),
    // A numbered call fails, and changes nothing.
    (
        (Pick::Synced, 1000, &[1]),
        [FAILED, DONE, DONE, DONE],
        [10, 11, 32, 33, 44, 15],
        [10, 11, 12, 13, 14, 15],
    ),
    (
        (Pick::Synced, 1000, &[2]),
        [DONE, FAILED, DONE, DONE],
        [10, 21, 32, 33, 44, 15],
        [10, 11, 12, 13, 14, 15],
    ),
    (
        (Pick::Synced, 1000, &[3]),
        [DONE, DONE, FAILED, DONE],
        [10, 21, 22, 13, 44, 15],
        [10, 21, 22, 13, 14, 15],
    ),
    (
        (Pick::Synced, 1000, &[4]),
        [DONE, DONE, DONE, FAILED],
        [10, 21, 32, 33, 14, 15],
        [10, 21, 22, 13, 14, 15],
    ),
    (
        (Pick::Synced, 1000, &[5]),
        [DONE, DONE, DONE, DONE],
        [10, 21, 32, 33, 44, 15],
        [10, 21, 22, 13, 14, 15],
    ),
    // When the record is full only writes fail.
    (
        (Pick::Newest, 65, &[]),
        [FAILED, DONE, FAILED, DONE],
        [10, 11, 12, 13, 44, 15],
        [10, 11, 12, 13, 44, 15],
    ),
    (
        (Pick::Newest, 66, &[]),
        [DONE, DONE, FAILED, FAILED],
        [10, 21, 22, 13, 14, 15],
        [10, 21, 22, 13, 14, 15],
    ),
    (
        (Pick::Newest, 131, &[]),
        [DONE, DONE, FAILED, DONE],
        [10, 21, 22, 13, 44, 15],
        [10, 21, 22, 13, 44, 15],
    ),
    (
        (Pick::Newest, 197, &[]),
        [DONE, DONE, DONE, DONE],
        [10, 21, 32, 33, 44, 15],
        [10, 21, 32, 33, 44, 15],
    ),
];

fn check(rt: &impl Abort, alloc: Global, case: &Case) -> Result<(), AllocError> {
    let ((pick, room, fails), answered, newest, left) = case;
    let mut disk = disk_of_six(alloc, *pick, *room, (fails, &[]))?;
    same(rt, answers(&mut disk), *answered);
    same(rt, disk.contents(), newest);
    disk.restart();
    same(rt, disk.contents(), left);
    Ok(())
}

#[test]
fn what_is_answered_and_left(rt: HostRuntime) -> Result<(), Fail> {
    for case in &CASES {
        check(&rt, rt.alloc(), case)?;
    }
    Ok(())
}

static NUMBERS: [(u8, Pick); 4] = [
    (0, Pick::Synced),
    (1, Pick::Newest),
    (2, Pick::AllOnes),
    (3, Pick::AllOpen),
];

#[test]
fn picks_have_numbers(rt: HostRuntime) {
    for (number, pick) in &NUMBERS {
        same(&rt, Pick::try_from(*number), Ok(*pick));
    }
}

#[test]
fn a_listed_read_fails(rt: HostRuntime) -> Result<(), Fail> {
    let mut disk = disk_of_six(rt.alloc(), Pick::Newest, 0, (&[], &[2]))?;
    let read = [
        byte_at(&mut disk, 0),
        byte_at(&mut disk, 0),
        byte_at(&mut disk, 5),
    ];
    same(&rt, read, [Ok(10), Err(DiskError::Failed), Ok(15)]);
    same(&rt, disk.size(), 6);
    Ok(())
}

/// A change as it is told: of a write its place and its bytes.
type Told = Option<(usize, &'static [u8])>;

/// What is told of the calls that `answers` makes.
static TOLD: [Told; 4] = [
    Some((1, &[21, 22])),
    None,
    Some((2, &[32, 33])),
    Some((4, &[44])),
];

fn check_told(rt: &impl Abort, disk: &MemoryDisk, told: &[Told]) {
    same(rt, disk.told(), told.len());
    for (k, change) in told.iter().enumerate() {
        if k < disk.told() {
            same(rt, (k, disk.told_write(k)), (k, *change));
        }
    }
}

#[test]
fn what_is_told_is_forgotten_once_it_is_synced(rt: HostRuntime) -> Result<(), Fail> {
    let mut disk = disk_of_six(rt.alloc(), Pick::Newest, 1000, (&[], &[]))?;
    same(&rt, answers(&mut disk), [DONE, DONE, DONE, DONE]);
    check_told(&rt, &disk, &TOLD);
    same(&rt, disk.forget(), false);
    check_told(&rt, &disk, &TOLD);
    same(&rt, disk.sync(), DONE);
    same(&rt, disk.forget(), true);
    check_told(&rt, &disk, &[]);
    same(&rt, disk.contents(), &[10, 21, 32, 33, 44, 15]);
    Ok(())
}

#[test]
fn what_is_forgotten_gives_its_room_back(rt: HostRuntime) -> Result<(), Fail> {
    let mut disk = disk_of_six(rt.alloc(), Pick::Newest, 66, (&[2], &[]))?;
    // The sync fails, so the first write fills the record, and is pending.
    same(&rt, answers(&mut disk), [DONE, FAILED, FAILED, FAILED]);
    same(&rt, disk.forget(), false);
    same(&rt, disk.sync(), DONE);
    same(&rt, disk.forget(), true);
    same(&rt, write_and_sync(&mut disk, 2, &[32, 33]), DONE);
    check_told(&rt, &disk, &[Some((2, &[32, 33])), None]);
    same(&rt, disk.contents(), &[10, 21, 32, 33, 14, 15]);
    Ok(())
}

/// After how many calls a fuse stops, what is answered, what a read is answered after a restart, and how many calls passed.
type Fuse = (u64, [Result<(), DiskError>; 4], Result<u8, DiskError>, u64);

const FUSES: [Fuse; 5] = [
    (
        0,
        [STOPPED, STOPPED, STOPPED, STOPPED],
        Err(DiskError::Stopped),
        0,
    ),
    (
        1,
        [DONE, STOPPED, STOPPED, STOPPED],
        Err(DiskError::Stopped),
        1,
    ),
    (3, [DONE, DONE, DONE, STOPPED], Err(DiskError::Stopped), 3),
    (4, [DONE, DONE, DONE, DONE], Ok(44), 4),
    (5, [DONE, DONE, DONE, DONE], Ok(44), 4),
];

fn check_fuse(rt: &impl Abort, alloc: Global, fuse: &Fuse) -> Result<(), AllocError> {
    let (limit, expected, read, passed) = *fuse;
    let disk = disk_of_six(alloc, Pick::Newest, 1000, (&[], &[]))?;
    let mut fuse = FuseDisk::new(disk, limit);
    same(rt, (limit, byte_at(&mut fuse, 4)), (limit, Ok(14)));
    same(rt, (limit, answers(&mut fuse)), (limit, expected));
    fuse.restart();
    let found = (limit, byte_at(&mut fuse, 4), fuse.passed());
    same(rt, found, (limit, read, passed));
    Ok(())
}

#[test]
fn a_fuse_stops_at_its_limit(rt: HostRuntime) -> Result<(), Fail> {
    for fuse in &FUSES {
        check_fuse(&rt, rt.alloc(), fuse)?;
    }
    Ok(())
}

#[test]
fn a_stop_inside_is_a_failure(rt: HostRuntime) -> Result<(), Fail> {
    let disk = disk_of_six(rt.alloc(), Pick::Newest, 1000, (&[], &[]))?;
    let mut fuse = FuseDisk::new(FuseDisk::new(disk, 2), 3);
    same(&rt, answers(&mut fuse), [DONE, DONE, FAILED, STOPPED]);
    let inner = fuse.into_inner();
    same(&rt, inner.passed(), 2);
    let mut disk = inner.into_inner();
    same(&rt, write_and_sync(&mut disk, 5, &[25]), DONE);
    same(&rt, disk.contents(), &[10, 21, 22, 13, 14, 25]);
    Ok(())
}
