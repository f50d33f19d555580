//! Records are carried out without a call of the disk: each page may be dirty.
ghost use Rattle.std.specs.Prelude.{◌≡◌, ◌≤◌, false, is_err, length, IsOk, OnOk};
ghost use Rattle.disk_model.specs.Keeps.{KeepsDisk};
ghost use Rattle.gated_log.specs.LogState.{log_room, log_used_with, HasSpare};
ghost use Rattle.log_machine.specs.Effect.{EachWritesBelow};
ghost use Rattle.log_records.specs.Record.{spellings};
ghost use Rattle.logged_pages.specs.Carried.{Carries};
ghost use Rattle.logged_pages.specs.State.{cache_of, frames_of, has_failed, log_of, pages_in_memory, LiesWithin};
ghost use Rattle.page_cache.specs.CacheState.{cache_pages};

use disk_model::{Disk, DiskError};
use logged_pages::{LoggedPages, Records};

/// Makes the change that these records say, where as many pages may be dirty as there are.
pub(crate) fn carry_out<D: Disk, R: Records>(
    pages: &mut LoggedPages,
    disk: &mut D,
    records: &R,
) -> Result<(), DiskError>
    requires works { has_failed pages.old ≡ false }
    requires whole { cache_pages (cache_of pages.old) ≤ frames_of pages.old }
    requires memory { HasSpare (log_of pages.old) (length (spellings (R.list records.now))) }
    requires room { log_used_with (log_of pages.old) (length (spellings (R.list records.now))) ≤ log_room (log_of pages.old) }
    requires inside { EachWritesBelow (length (pages_in_memory pages.old).words) (R.list records.now) }
    requires within { LiesWithin pages.old (D.extent disk.old) }
    ensures disk { KeepsDisk D.Disk disk.old disk.new result }
    ensures failed { has_failed pages.new ≡ is_err result }
    ensures carries { OnOk result (Carries pages.old pages.new (R.list records.now)) }
    ensures still { (disk.new ≡ disk.old) × IsOk result }
{
    pages.carry_out(disk, records)
}
