//! The file at a path: opened or created when it is first used, and from then on held for this process alone.
ghost use Rattle.std.specs.Prelude.{◌+◌, ◌^◌, ◌<◌, length};

use std::fs::{self, File, Files, OpenOptions};
use std::io;
use std::os::fd::AsRawFd;
use std::os::unix::fs::FileExt;
use std::path::Path;

/// The greatest descriptor of a standard stream.
const STANDARD_ERROR: i32 = 2;

/// A file that is opened when it is first used.
#[derive(Drop)]
pub struct RealFile<R: Files<File = File> + Drop> {
    rt: R,
    path: String,
    open: Option<File>,
    // A sync has failed. The system may have dropped what it could not write, and would report success for the next one.
    lost: bool,
}

impl<R: Files<File = File> + Drop> RealFile<R> {
    /// The file at that path, not opened yet.
    pub fn new(rt: R, path: String) -> Self {
        RealFile {
            rt,
            path,
            open: None,
            lost: false,
        }
    }

    /// Reads the bytes from `at` on. What lies past the file's end reads as zeros.
    pub fn read(&mut self, at: u64, into: &mut [u8]) -> io::Result<()>
        requires { at + length into.old < 2 ^ 64 }
    {
        read_zeros_behind(self.file()?, at, into)
    }

    /// Writes the bytes from `at` on.
    pub fn write(&mut self, at: u64, piece: &[u8]) -> io::Result<()> {
        self.file()?.write_all_at(piece, at)
    }

    /// Waits until everything written is on the disk. After one that failed, each fails.
    pub fn sync(&mut self) -> io::Result<()> {
        if self.lost {
            return Err(io::ErrorKind::Other.into());
        }
        let synced = self.file()?.sync_data();
        self.lost = synced.is_err();
        synced
    }

    /// Whether another holds the file, so that it can't be opened. If none does, it is opened or created, and held from then on.
    pub fn is_in_use(&mut self) -> bool {
        match self.file() {
            Ok(_) => false,
            Err(e) => e.kind() == io::ErrorKind::WouldBlock,
        }
    }

    fn file(&mut self) -> io::Result<&File> {
        if self.open.is_none() {
            self.open = Some(open_held(&self.rt, self.path.as_str())?);
        }
        self.open.as_ref().ok_or(io::ErrorKind::NotFound.into())
    }
}

/// Opens or creates the file. When this returns, its content and its name are on the disk.
fn open_held<R: Files<File = File>>(rt: &R, path: &str) -> io::Result<File> {
    // What is no regular file is not even opened, since opening it may have effects.
    if fs::metadata(rt, path).is_ok_and(|found| !found.is_file()) {
        return Err(io::ErrorKind::Unsupported.into());
    }
    let mut file = OpenOptions::new()
        .read(true)
        .write(true)
        .create(true)
        .open(rt, path)?;
    // Output for a standard stream that was closed must not land in the file.
    if file.as_raw_fd() <= STANDARD_ERROR {
        file = file.try_clone()?;
    }
    if !file.metadata()?.is_file() {
        return Err(io::ErrorKind::Unsupported.into());
    }
    file.try_lock()?;
    file.sync_all()?;
    sync_folder(rt, path)?;
    Ok(file)
}

/// Syncs the folder, so that the file's name is on the disk.
fn sync_folder<R: Files<File = File>>(rt: &R, path: &str) -> io::Result<()> {
    let folder = match Path::new(path).parent() {
        Some(folder) if !folder.as_str().is_empty() => folder.as_str(),
        _ => ".",
    };
    fs::open(rt, folder)?.sync_all()
}

fn read_zeros_behind(file: &File, at: u64, into: &mut [u8]) -> io::Result<()>
    requires { at + length into.old < 2 ^ 64 }
{
    let mut done = 0;
    for _ in 0..u64::MAX {
        if done >= into.len() {
            return Ok(());
        }
        match file.read_at(&mut into[done..], at + done as u64) {
            Ok(0) => {
                into[done..].fill(0);
                return Ok(());
            }
            Ok(count) => done += count,
            Err(e) if e.kind() == io::ErrorKind::Interrupted => {}
            Err(e) => return Err(e),
        }
    }
    Err(io::ErrorKind::Interrupted.into())
}
