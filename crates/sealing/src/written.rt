//! The fields that a transaction wrote.
ghost use Rattle.std.specs.Prelude.{◌≡◌, ◌<◌, All, IfOk, length, reverse};
ghost use Rattle.log_machine.specs.Machine.{field_at};
ghost use Rattle.graph_words.specs.Promotion.{written_fields as written, words_in_fields};

use heap_words::FIELDS_AT;
use log_machine::UndoEntry;
use std::alloc::{AllocError, Global};
use std::collections::BTreeSet;

/// The fields that these writes wrote, each by its object's address and its number, once, ascending. The newest write stands last.
pub(crate) fn written_fields(
    alloc: Global,
    undo: &[UndoEntry],
) -> Result<BTreeSet<(u32, u16)>, AllocError>
    ensures { IfOk result (λ fields. fields.keys ≡ written (reverse undo.now)) }
{
    let mut fields = BTreeSet::new(alloc);
    for entry in undo {
        fields.insert((entry.object, entry.field))?;
    }
    Ok(fields)
}

/// The words that stand in these fields.
pub(crate) fn words_in(
    alloc: Global,
    words: &[u64],
    fields: &BTreeSet<(u32, u16)>,
) -> Result<Vec<u64>, AllocError>
    requires inside { All (λ f. field_at f.0 f.1 < length words.now) fields.now.keys }
    ensures { IfOk result (λ found. found.items ≡ words_in_fields words.now fields.now.keys) }
{
    let mut found = Vec::new(alloc);
    for (object, field) in fields {
        found.push(words[*object as usize + FIELDS_AT as usize + usize::from(*field)])?;
    }
    Ok(found)
}
