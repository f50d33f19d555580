//! Translates undo entries when objects move.
#![tactic(auto)]

ghost use Rattle.std.specs.Prelude.{◌≡◌};
ghost use Rattle.log_machine.specs.Translation.{translated_entry, translated_list};
ghost use Rattle.relocation.specs.Relocation.{IsRelocation};

use log_machine::UndoEntry;
use relocation::{moved_to, translated_word};

/// Objects have moved, as the pairs say: each entry names its object by its new address, and a reference in its before-image leads to the
/// object's new address. All else, and the order, stay. Does not allocate.
pub fn translate(entries: &mut [UndoEntry], pairs: &[(u32, u32)])
    requires { IsRelocation pairs.now }
    ensures { entries.new ≡ translated_list pairs.now entries.old }
{
    for entry in entries.iter_mut() {
        *entry = translated(*entry, pairs);
    }
}

// The entry after the move.
fn translated(entry: UndoEntry, pairs: &[(u32, u32)]) -> UndoEntry
    requires { IsRelocation pairs.now }
    ensures { result ≡ translated_entry pairs.now entry }
{
    UndoEntry {
        object: moved_to(pairs, entry.object),
        was: translated_word(pairs, entry.was),
        ..entry
    }
}
