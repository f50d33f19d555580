//! The records of an event: how they are appended to a log, and how they are put on its pages.
ghost use Rattle.std.specs.Prelude.{◌≡◌, ◌+◌, ◌≤◌, List, false, length};
ghost use Rattle.gated_log.specs.LogState.{log_room, log_used_with, HasSpare};
ghost use Rattle.log_machine.specs.Effect.{EachWritesBelow};
ghost use Rattle.log_records.specs.declared.Record.{Record};
ghost use Rattle.log_records.specs.Record.{spellings};
ghost use Rattle.logged_pages.specs.Appended.{IsAppended};
ghost use Rattle.logged_pages.specs.Advancing.{PutsAll};
ghost use Rattle.logged_pages.specs.State.{has_failed, log_of, next_lsn_in, pages_in_memory, LiesWithin};

use crate::logged::LoggedPages;
use disk_model::{Disk, DiskError};
use gated_log::Log;
use log_records::Record;

/// Records that are carried out together: those of one event.
pub trait Records {
    /// The records, in order.
    ghost list: { Self → List Record };

    /// Appends them to a log that has room and memory for them.
    fn append(&self, log: &mut Log)
        requires memory { HasSpare log.old (length (spellings (list self.now))) }
        requires room { log_used_with log.old (length (spellings (list self.now))) ≤ log_room log.old }
        ensures { IsAppended log.old log.new (list self.now) };

    /// Puts each of them on its pages, in order. The log has them, and the first of them has that LSN.
    fn carry<D: Disk>(
        &self,
        disk: &mut D,
        pages: &mut LoggedPages,
        first: u64,
    ) -> Result<(), DiskError>
        requires works { has_failed pages.old ≡ false }
        requires known { first + length (list self.now) ≤ next_lsn_in (log_of pages.old) }
        requires inside { EachWritesBelow (length (pages_in_memory pages.old).words) (list self.now) }
        requires within { LiesWithin pages.old (D.extent disk.old) }
        ensures puts { PutsAll D.Disk pages.old pages.new disk.old disk.new result first (list self.now) };
}

/// Records in a list.
#[derive(Debug, Drop)]
pub struct Listed<'a> {
    /// The records.
    pub records: &'a [Record],
}

impl<'a> Records for Listed<'a> {
    ghost list = { λ listed. listed.records.now };

    fn append(&self, log: &mut Log) {
        log.append_all(self.records).unwrap();
    }

    fn carry<D: Disk>(
        &self,
        disk: &mut D,
        pages: &mut LoggedPages,
        first: u64,
    ) -> Result<(), DiskError> {
        for (i, rec) in self.records.iter().enumerate() {
            pages.carry_record(disk, first + i as u64, rec)?;
        }
        Ok(())
    }
}
