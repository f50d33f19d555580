//! The records of a planned scan, and of a write after it: they are made from the plan as they are carried out.
ghost use Rattle.std.specs.Prelude.{◌≡◌, ◌+◌, ◌≤◌, ◌++◌, ◌∷◌, [], false, length, map};
ghost use Rattle.gated_log.specs.LogState.{log_room, log_used_with, HasSpare};
ghost use Rattle.log_machine.specs.Effect.{EachWritesBelow};
ghost use Rattle.log_records.specs.Record.{copy_record, spellings};
ghost use Rattle.logged_pages.specs.Appended.{IsAppended};
ghost use Rattle.logged_pages.specs.Advancing.{PutsAll};
ghost use Rattle.logged_pages.specs.State.{has_failed, log_of, next_lsn_in, pages_in_memory, LiesWithin};
ghost use Rattle.page_scanner.specs.PageScan.{records_in};

use crate::barrier::PagePlan;
use disk_model::{Disk, DiskError};
use gated_log::Log;
use log_records::Record;
use logged_pages::{LoggedPages, Records};
use page_scanner::PageScan;

impl Records for PagePlan {
    ghost use Rattle.heap_engine.specs.Barrier.{planned_records};

    ghost list = { λ plan. planned_records plan.scan };

    fn append(&self, log: &mut Log) {
        if let Some(scan) = self.scan() {
            append_scan(log, scan);
        }
    }

    fn carry<D: Disk>(
        &self,
        disk: &mut D,
        pages: &mut LoggedPages,
        first: u64,
    ) -> Result<(), DiskError> {
        match self.scan() {
            Some(scan) => carry_scan(disk, pages, first, scan),
            None => Ok(()),
        }
    }
}

/// A planned scan, and a write after it.
#[derive(Debug, Drop)]
pub(crate) struct PlannedWrite<'a> {
    /// The scan, if there is one.
    pub(crate) scan: &'a PagePlan,
    /// The record of the write.
    pub(crate) update: Record,
}

impl<'a> Records for PlannedWrite<'a> {
    ghost use Rattle.heap_engine.specs.Barrier.{planned_records};

    ghost list = { λ write. planned_records write.scan.now.scan ++ write.update ∷ [] };

    fn append(&self, log: &mut Log) {
        self.scan.append(log);
        log.append(&self.update).unwrap();
    }

    fn carry<D: Disk>(
        &self,
        disk: &mut D,
        pages: &mut LoggedPages,
        first: u64,
    ) -> Result<(), DiskError> {
        self.scan.carry(disk, pages, first)?;
        pages.carry_record(disk, first + self.scan.count(), &self.update)
    }
}

/// Appends the records of a scan: its copies, and the scan after them.
fn append_scan(log: &mut Log, scan: &PageScan)
    requires memory { HasSpare log.old (length (spellings (records_in scan.now))) }
    requires room { log_used_with log.old (length (spellings (records_in scan.now))) ≤ log_room log.old }
    ensures { IsAppended log.old log.new (records_in scan.now) }
{
    append_copies(log, scan);
    log.append(scan.record()).unwrap();
}

/// Appends the records of its copies, which are spelled already.
fn append_copies(log: &mut Log, scan: &PageScan)
    requires memory { HasSpare log.old (length (spellings (records_in scan.now))) }
    requires room { log_used_with log.old (length (spellings (records_in scan.now))) ≤ log_room log.old }
    ensures { IsAppended log.old log.new (map copy_record scan.now.copies) }
{
    let spelled = scan.spelled_copies();
    log.append_spelled(spelled, scan.copy_count()).unwrap();
}

/// Puts the records of a scan on their pages. The log has them, and the first of them has that LSN.
fn carry_scan<D: Disk>(
    disk: &mut D,
    pages: &mut LoggedPages,
    first: u64,
    scan: &PageScan,
) -> Result<(), DiskError>
    requires works { has_failed pages.old ≡ false }
    requires known { first + length (records_in scan.now) ≤ next_lsn_in (log_of pages.old) }
    requires inside { EachWritesBelow (length (pages_in_memory pages.old).words) (records_in scan.now) }
    requires within { LiesWithin pages.old (D.extent disk.old) }
    ensures puts { PutsAll D.Disk pages.old pages.new disk.old disk.new result first (records_in scan.now) }
{
    let mut lsn = first;
    for copy in scan.iter() {
        pages.carry_record(disk, lsn, &copy)?;
        lsn += 1;
    }
    pages.carry_record(disk, lsn, scan.record())
}
