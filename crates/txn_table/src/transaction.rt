//! A transaction that has not ended.
ghost use Rattle.std.specs.Prelude.{◌≡◌, ◌<◌, ◌≤◌, ◌+◌, ◌↔◌, ◌∷◌, drop, reverse, length, slice_get, slice_set, Some, Err, IfOk, OnOk, OnErr};
ghost use Rattle.heap_words.specs.Word.{IsFieldWord};
ghost use Rattle.volatile_area.specs.Area.{with_object, with_field, HasField};
ghost use Rattle.relocation.specs.Relocation.{IsRelocation};
ghost use Rattle.txn_table.specs.Roots.{AddsNamed};
ghost use Rattle.txn_table.specs.Table.{new_transaction};
ghost use Rattle.txn_table.specs.Translation.{HasGoneAlong};

use crate::place::Place;
use crate::roots::{add_fields, add_held, add_written, translate_handles};
use log_machine::UndoEntry;
use std::alloc::{AllocError, Global};
use std::marker::Model;
use undo_translation::translate;
use volatile_area::{Area, AreaError};

/// How many handles a transaction has.
pub const HANDLES: u32 = 64;

/// A transaction that has not ended.
#[derive(Debug, Drop)]
pub(crate) struct Transaction {
    number: u32,
    handles: [Option<Place>; HANDLES as usize],
    /// The newest stands last.
    undo: Vec<UndoEntry>,
    area: Area,
}

impl Model for Transaction {
    ghost use Rattle.std.specs.Prelude.{◌≡◌, length, reverse};
    ghost use Rattle.txn_table.specs.Table.{TransactionState};

    ghost Value = { TransactionState };

    ghost view = { λ t. record { number = t.number; handles = t.handles; undo = reverse t.undo.items; area = t.area } };

    ghost invariant = { λ t. length t.handles ≡ 64 };
}

impl Transaction {
    /// A transaction that has done nothing. Does not allocate.
    pub(crate) fn new(alloc: Global, number: u32) -> Transaction
        ensures { result ≡ new_transaction number }
    {
        Transaction {
            number,
            handles: [None; HANDLES as usize],
            undo: Vec::new(alloc),
            area: Area::new(alloc, number),
        }
    }

    pub(crate) fn number(&self) -> u32
        ensures { result ≡ self.now.number }
    {
        self.number
    }

    pub(crate) fn handle(&self, h: u32) -> Option<Place>
        requires { h < 64 }
        ensures { slice_get self.now.handles h ≡ Some result }
    {
        self.handles[h as usize]
    }

    pub(crate) fn set_handle(&mut self, h: u32, to: Option<Place>)
        requires { h < 64 }
        ensures { self.new ≡ record self.old { handles = slice_set self.old.handles h to } }
    {
        self.handles[h as usize] = to;
    }

    pub(crate) fn undo(&self) -> &[UndoEntry]
        ensures { reverse result.now ≡ self.now.undo }
    {
        &self.undo
    }

    pub(crate) fn push_undo(&mut self, entry: UndoEntry) -> Result<(), AllocError>
        ensures ok { OnOk result (self.new ≡ record self.old { undo = entry ∷ self.old.undo }) }
        ensures err { OnErr result (self.new ≡ self.old) }
    {
        self.undo.push(entry)?;
        Ok(())
    }

    pub(crate) fn pop_undo(&mut self) -> Option<UndoEntry>
        ensures newest { result ≡ slice_get self.old.undo 0 }
        ensures others { self.new ≡ record self.old { undo = drop 1 self.old.undo } }
    {
        self.undo.pop()
    }

    pub(crate) fn area(&self) -> &Area
        ensures { result.now ≡ self.now.area }
    {
        &self.area
    }

    pub(crate) fn new_object(&mut self, fields: u32) -> Result<u32, AreaError>
        requires { fields ≤ 510 }
        ensures index { IfOk result (λ object. object ≡ length self.old.area.words) }
        ensures made { OnOk result (self.new ≡ record self.old { area = with_object self.old.area fields }) }
        ensures full { (used : _) → (result ≡ Err (AreaError.VolatileFull used)) ↔ ((used ≡ length self.old.area.words) × (4096 < used + 2 + fields)) }
        ensures err { OnErr result (self.new ≡ self.old) }
    {
        self.area.new_object(fields)
    }

    pub(crate) fn set_field(&mut self, object: u32, field: u32, word: u64)
        requires there { HasField self.old.area object field }
        requires meant { IsFieldWord word }
        ensures { self.new ≡ record self.old { area = with_field self.old.area object field word } }
    {
        self.area.set(object, field, word);
    }

    /// Adds the addresses of the stable objects that the transaction names.
    pub(crate) fn add_roots(&self, roots: &mut Vec<u32>) -> Result<(), AllocError>
        ensures { OnOk result (AddsNamed self.now roots.old.items roots.new.items) }
    {
        add_held(roots, &self.handles)?;
        add_fields(roots, &self.area)?;
        add_written(roots, &self.undo)
    }

    /// Objects have moved, as the pairs say: what the transaction keeps is updated.
    pub(crate) fn translate(&mut self, pairs: &[(u32, u32)])
        requires { IsRelocation pairs.now }
        ensures { HasGoneAlong pairs.now self.old self.new }
    {
        translate_handles(&mut self.handles, pairs);
        translate(&mut self.undo, pairs);
        self.area.translate(pairs);
        // That the area is still one is known from its words.
        let _words = self.area.words();
    }
}
