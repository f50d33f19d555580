//! The records that take writes back.
ghost use Rattle.std.specs.Prelude.{◌≡◌, ◌++◌, OnOk, reverse};
ghost use Rattle.log_machine.specs.Machine.{abort_records as aborting};

use crate::UndoEntry;
use log_records::Record;
use std::alloc::AllocError;

/// Adds the records that take back these writes of transaction `t`, of which the newest stands last, and end it.
pub(crate) fn add_abort_records(
    records: &mut Vec<Record>,
    t: u32,
    undo: &[UndoEntry],
) -> Result<(), AllocError>
    ensures { OnOk result (records.new.items ≡ records.old.items ++ aborting t (reverse undo.now)) }
{
    for entry in undo.iter().rev() {
        records.push(Record::Undo {
            t,
            object: entry.object,
            field: entry.field,
            word: entry.was,
        })?;
    }
    records.push(Record::End { t })?;
    Ok(())
}
