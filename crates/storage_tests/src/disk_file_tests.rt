//! A real file: bytes that come back, zeros past its end, and what can't be opened.
ghost use Rattle.std.specs.Prelude.{◌+◌, ◌≤◌};

use crate::compare::same;
use disk_file::{FileDisk, SIZE};
use disk_model::{Disk, DiskError};
use std::fs;
use std::process::Abort;
use std::test::Fail;

const FOLDER: &str = "disk_file_test";

const PATH: &str = "disk_file_test/heap.img";

type RealDisk<'a> = FileDisk<&'a HostRuntime>;

fn disk_of<'a>(rt: &'a HostRuntime, path: &str) -> Result<RealDisk<'a>, Fail> {
    Ok(FileDisk::new(rt, String::from_str(rt.alloc(), path)?))
}

fn bytes_at<D: Disk>(disk: &mut D, at: u64) -> Result<[u8; 5], DiskError>
    requires { at + 5 ≤ D.extent disk.old }
{
    let mut bytes = [9; 5];
    disk.read(at, &mut bytes)?;
    Ok(bytes)
}

/// The bytes that a read gives.
type Found = Result<[u8; 5], DiskError>;

/// Whether a new file is made, what it gives before its end, how long it is once something is written, and what it gives then.
fn written(rt: &HostRuntime, disk: &mut RealDisk) -> Result<(bool, Found, u64, Found), Fail> {
    let is_made = fs::metadata(rt, PATH).is_ok();
    let before = bytes_at(disk, 4_294_967_291);
    disk.write(10, b"abc")?;
    disk.sync()?;
    let len = fs::metadata(rt, PATH)?.len();
    disk.restart();
    Ok((is_made, before, len, bytes_at(disk, 9)))
}

/// Whether another disk holds the file, and what a read and a sync are answered.
type Asked = (bool, Found, Result<(), DiskError>);

fn asked(disk: &mut RealDisk) -> Asked {
    (disk.is_in_use(), bytes_at(disk, 9), disk.sync())
}

/// What a second disk of the file is answered, what this one is then, and what the second one is after this one is dropped; and
/// whether the file is in use for a third one then.
fn shared(rt: &HostRuntime, mut disk: RealDisk) -> Result<([Asked; 3], bool), Fail> {
    let mut other = disk_of(rt, PATH)?;
    let second = asked(&mut other);
    let first = asked(&mut disk);
    drop(disk);
    let asked = [second, first, asked(&mut other)];
    Ok((asked, disk_of(rt, PATH)?.is_in_use()))
}

/// Whether the file of that path is in use, and what a write there is answered.
fn opened(rt: &HostRuntime, path: &str) -> Result<(bool, Result<(), DiskError>), Fail> {
    let mut disk = disk_of(rt, path)?;
    Ok((disk.is_in_use(), disk.write(0, b"abc")))
}

fn check_lost(rt: &impl Abort, opened: (bool, Result<(), DiskError>)) {
    same(rt, opened, (false, Err(DiskError::Failed)));
}

#[test]
fn a_file_is_a_disk(rt: HostRuntime) -> Result<(), Fail> {
    let _ = fs::remove_dir_all(&rt, FOLDER);
    fs::create_dir(&rt, FOLDER)?;
    let mut disk = disk_of(&rt, PATH)?;
    same(&rt, disk.size(), SIZE);
    let bytes = Ok(*b"\0abc\0");
    let found = written(&rt, &mut disk)?;
    same(&rt, found, (false, Ok([0; 5]), 13, bytes));
    let failed = DiskError::Failed;
    let free = (false, bytes, Ok(()));
    let held = (true, Err(failed), Err(failed));
    same(&rt, shared(&rt, disk)?, ([held, free, free], true));
    check_lost(&rt, opened(&rt, FOLDER)?);
    check_lost(&rt, opened(&rt, "disk_file_test/missing/heap.img")?);
    fs::remove_dir_all(&rt, FOLDER)?;
    Ok(())
}
