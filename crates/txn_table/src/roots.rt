//! Which stable objects a transaction names, and how it is updated when they move.
ghost use Rattle.std.specs.Prelude.{◌≡◌, ◌++◌, map, OnOk};
ghost use Rattle.std.specs.List.{flat_map};
ghost use Rattle.object_layout.specs.Layout.{field_words};
ghost use Rattle.relocation.specs.Relocation.{IsRelocation};
ghost use Rattle.volatile_area.specs.Area.{starts_of};
ghost use Rattle.txn_table.specs.Roots.{held_by, referred_in, referred_from, named_by};
ghost use Rattle.txn_table.specs.Translation.{translated_handle};

use crate::place::Place;
use heap_words::{Word, decode};
use log_machine::UndoEntry;
use relocation::moved_to;
use std::alloc::AllocError;
use volatile_area::Area;

/// Adds the addresses of the stable objects that the handles hold.
pub(crate) fn add_held(roots: &mut Vec<u32>, handles: &[Option<Place>]) -> Result<(), AllocError>
    ensures { OnOk result (roots.new.items ≡ roots.old.items ++ flat_map held_by handles.now) }
{
    for handle in handles {
        if let Some(Place::Stable(address)) = handle {
            roots.push(*address)?;
        }
    }
    Ok(())
}

/// Adds the addresses of the stable objects to which fields of the area's objects refer.
pub(crate) fn add_fields(roots: &mut Vec<u32>, area: &Area) -> Result<(), AllocError>
    ensures { OnOk result (roots.new.items ≡ roots.old.items ++ flat_map (referred_from area.now.words) (starts_of area.now)) }
{
    for object in area.starts() {
        add_words(roots, area.fields(*object))?;
    }
    Ok(())
}

// Adds the addresses of the stable objects to which these words refer.
fn add_words(roots: &mut Vec<u32>, words: &[u64]) -> Result<(), AllocError>
    ensures { OnOk result (roots.new.items ≡ roots.old.items ++ flat_map referred_in words.now) }
{
    for word in words {
        add_word(roots, *word)?;
    }
    Ok(())
}

// Adds the address of the stable object to which a word refers, if it does.
fn add_word(roots: &mut Vec<u32>, word: u64) -> Result<(), AllocError>
    ensures { OnOk result (roots.new.items ≡ roots.old.items ++ referred_in word) }
{
    if let Some(Word::Stable(address)) = decode(word) {
        roots.push(address)?;
    }
    Ok(())
}

/// Adds the addresses of the objects that were written, and of the stable objects to which the words refer that were replaced.
pub(crate) fn add_written(roots: &mut Vec<u32>, entries: &[UndoEntry]) -> Result<(), AllocError>
    ensures { OnOk result (roots.new.items ≡ roots.old.items ++ flat_map named_by entries.now) }
{
    for entry in entries {
        roots.push(entry.object)?;
        add_word(roots, entry.was)?;
    }
    Ok(())
}

/// Objects have moved, as the pairs say: each handle holds the same object, at its new place.
pub(crate) fn translate_handles(handles: &mut [Option<Place>], pairs: &[(u32, u32)])
    requires { IsRelocation pairs.now }
    ensures { handles.new ≡ map (translated_handle pairs.now) handles.old }
{
    for handle in handles.iter_mut() {
        *handle = translated_handle(*handle, pairs);
    }
}

// What the handle holds after the move.
fn translated_handle(handle: Option<Place>, pairs: &[(u32, u32)]) -> Option<Place>
    requires { IsRelocation pairs.now }
    ensures { result ≡ translated_handle pairs.now handle }
{
    match handle {
        Some(Place::Stable(address)) => Some(Place::Stable(moved_to(pairs, address))),
        other => other,
    }
}
