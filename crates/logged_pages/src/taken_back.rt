//! The records that take writes back.
ghost use Rattle.std.specs.Prelude.{◌≡◌};
ghost use Rattle.log_records.specs.declared.Record.TheVariants.{Undo};

use crate::logged::LoggedPages;
use crate::records::Records;
use disk_model::{Disk, DiskError};
use gated_log::Log;
use log_machine::UndoEntry;
use log_records::Record;

/// The records that take writes of a transaction back and end it: an Undo of each, the newest first, and an End.
#[derive(Debug, Drop)]
pub struct TakenBack<'a> {
    /// The number of the transaction.
    pub t: u32,
    /// Its writes, of which the newest stands last.
    pub undo: &'a [UndoEntry],
}

impl<'a> Records for TakenBack<'a> {
    ghost use Rattle.std.specs.Prelude.{reverse};
    ghost use Rattle.log_machine.specs.Machine.{abort_records};

    ghost list = { λ back. abort_records back.t (reverse back.undo.now) };

    fn append(&self, log: &mut Log) {
        for entry in self.undo.iter().rev() {
            log.append(&undone(self.t, entry)).unwrap();
        }
        log.append(&Record::End { t: self.t }).unwrap();
    }

    fn carry<D: Disk>(
        &self,
        disk: &mut D,
        pages: &mut LoggedPages,
        first: u64,
    ) -> Result<(), DiskError> {
        let mut lsn = first;
        for entry in self.undo.iter().rev() {
            pages.carry_record(disk, lsn, &undone(self.t, entry))?;
            lsn += 1;
        }
        pages.carry_record(disk, lsn, &Record::End { t: self.t })
    }
}

/// The record that takes a write of transaction `t` back.
fn undone(t: u32, entry: &UndoEntry) -> Record
    ensures { result ≡ Undo t entry.now.object entry.now.field entry.now.was }
{
    Record::Undo {
        t,
        object: entry.object,
        field: entry.field,
        word: entry.was,
    }
}
