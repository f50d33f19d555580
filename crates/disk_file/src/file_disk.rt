//! A file as a disk. It is not modelled: nothing can be proved of what the system and the device do with its content.
ghost use Rattle.std.specs.Prelude.{◌≡◌, ℕ, [], false, OnErr, OnOk};
ghost use Rattle.counts.specs.Count.{raised};
ghost use Rattle.std.proofs.lemmas.Bool.{false≢true};

use crate::real_file::RealFile;
use counts::Count;
use disk_model::{Disk, DiskError};
use std::fs::{File, Files};
use std::io;
use std::marker::Model;

/// The size of the disk, whatever the file's length: what lies past the file's end reads as zeros.
pub const SIZE: u64 = 4_294_967_296;

/// The file at a path, as a disk of 4,294,967,296 bytes.
///
/// It is opened or made at the first read, write or sync. From then on no other `FileDisk`, of this process or another, can open
/// it, until this one is dropped. If it can't be opened, or is no regular file, or is held by another, that call answers
/// `Failed`, and the next call tries again. A restart does nothing.
#[derive(Drop)]
pub struct FileDisk<R: Files<File = File> + Drop> {
    file: RealFile<R>,
    faults: Count,
}

/// Its view is the number of its calls that failed, since nothing else of it is known.
impl<R: Files<File = File> + Drop> Model for FileDisk<R> {
    ghost Value = { ℕ };

    ghost view = { λ s. s.faults };
}

impl<R: Files<File = File> + Drop> FileDisk<R> {
    /// The file at that path as a disk. Nothing is opened yet.
    pub fn new(rt: R, path: String) -> Self
        ensures { result ≡ 0 }
    {
        FileDisk {
            file: RealFile::new(rt, path),
            faults: Count::new(),
        }
    }

    /// Whether another `FileDisk` holds the file. If none does, and it can be opened, this one holds it from then on. No fault is
    /// counted: a file that can't be opened for another reason is not in use, and the first call on it fails.
    pub fn is_in_use(&mut self) -> bool
        ensures { self.new ≡ self.old }
    {
        self.file.is_in_use()
    }

    /// The result of a call on the file as a disk's answer.
    fn answer(&mut self, done: io::Result<()>) -> Result<(), DiskError>
        ensures ok { OnOk result (self.new ≡ self.old) }
        ensures failed { OnErr result ((result ≡ Err DiskError.Failed) × (self.new ≡ raised self.old)) }
    {
        match done {
            Ok(()) => Ok(()),
            Err(_) => {
                self.faults.raise();
                Err(DiskError::Failed)
            }
        }
    }
}

impl<R: Files<File = File> + Drop> Disk for FileDisk<R> {
    ghost tells = { false };

    ghost extent = { λ _. 4294967296 };

    ghost bytes = { λ _. [] };

    ghost may_leave = { λ _ _. ⊥ };

    ghost moment = { λ _. 0 };

    ghost left_since = { λ _ _ _. ⊥ };

    ghost faults = { λ s. s };

    ghost stops = { λ _. 0 };

    ghost passed = { λ _. 0 };

    ghost restarts = { λ _. 0 };

    ghost Origin = { Unit {0} };

    ghost origin = { λ _. tt };

    fn size(&self) -> u64 {
        SIZE
    }

    fn read(&mut self, at: u64, into: &mut [u8]) -> Result<(), DiskError> {
        let done = self.file.read(at, into);
        self.answer(done)
    }

    fn write(&mut self, at: u64, piece: &[u8]) -> Result<(), DiskError> {
        let done = self.file.write(at, piece);
        self.answer(done)
    }

    fn sync(&mut self) -> Result<(), DiskError> {
        let done = self.file.sync();
        self.answer(done)
    }

    fn restart(&mut self) {}

    ghost counts_now = { λ tells disk t c le left. absurd (false≢true tells) };

    ghost only_now = { λ tells disk c left. left };

    ghost reads_an_image = { λ tells disk. absurd (false≢true tells) };

    ghost same_size = { λ tells disk c left. absurd left };
}
