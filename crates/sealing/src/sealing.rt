//! What a seal promotes.
ghost use Rattle.std.specs.Prelude.{◌≡◌, ◌+◌, ◌≤◌, ◌<◌, ◌^◌, ◌∷◌, ◌++◌, [], length, map, reverse, All, Contains, IfOk};
ghost use Rattle.std.specs.List.{flat_map};
ghost use Rattle.std.specs.List.Sorted.{IsStrictlySortedBy};
ghost use Rattle.std.specs.Ordering.{nat_cmp};
ghost use Rattle.log_machine.specs.Machine.{field_at};
ghost use Rattle.log_records.specs.declared.Record.TheVariants.{Commit};
ghost use Rattle.volatile_area.specs.Area.{starts_of};
ghost use Rattle.stability_tracker.specs.Promotion.{need};
ghost use Rattle.graph_words.specs.Promotion.{written_fields as written, promoted_by, moves_to, base_of, fix_of};

use crate::moves::addresses_of;
use crate::records::{add_fixes, bases};
use crate::written::{words_in, written_fields};
use log_machine::UndoEntry;
use log_records::Record;
use stability_tracker::promotion;
use std::alloc::{AllocError, Global};
use std::collections::BTreeSet;
use volatile_area::Area;

/// What the seal of a transaction promotes.
#[derive(Drop)]
pub struct Sealing {
    /// The fields that the transaction wrote of objects that stand in the current space.
    fields: BTreeSet<(u32, u16)>,
    /// The objects of its area that are reached from them, by their indices, ascending.
    objects: Vec<u32>,
    /// How many words these take.
    need: u64,
}

impl Sealing {
    /// What a seal promotes, if the transaction made these writes, of which the newest stands last, and these words stand in the
    /// current space.
    pub fn new(
        alloc: Global,
        area: &Area,
        words: &[u64],
        undo: &[UndoEntry],
    ) -> Result<Sealing, AllocError>
        requires inside { All (λ f. field_at f.0 f.1 < length words.now) (written (reverse undo.now)) }
        ensures fields { IfOk result (λ s. s.fields.keys ≡ written (reverse undo.now)) }
        ensures objects { IfOk result (λ s. s.objects.items ≡ promoted_by area.now words.now (reverse undo.now)) }
        ensures need { IfOk result (λ s. s.need ≡ need area.now s.objects.items) }
    {
        let fields = written_fields(alloc, undo)?;
        let written = words_in(alloc, words, &fields)?;
        let (objects, need) = promotion(alloc, area, &written)?;
        Ok(Sealing {
            fields,
            objects,
            need,
        })
    }

    /// How many words of the current space it takes.
    pub fn need(&self) -> u64
        ensures { result ≡ self.now.need }
    {
        self.need
    }

    /// Its records, if the objects get the words from an address on.
    pub fn records(
        &self,
        alloc: Global,
        area: &Area,
        words: &[u64],
        address: u32,
    ) -> Result<Vec<Record>, AllocError>
        requires inside { All (λ f. field_at f.0 f.1 < length words.now) self.now.fields.keys }
        requires there { All (Contains (starts_of area.now)) self.now.objects.items }
        requires ascend { IsStrictlySortedBy nat_cmp self.now.objects.items }
        requires room { address + need area.now self.now.objects.items ≤ 2 ^ 21 }
        ensures { IfOk result (λ records. let moves = moves_to area.now self.now.objects.items address in records.items ≡ (map (base_of area.now moves) moves ++ flat_map (fix_of area.now.transaction words.now moves) self.now.fields.keys) ++ Commit area.now.transaction ∷ []) }
    {
        let addresses = addresses_of(alloc, area, &self.objects, address)?;
        let mut records = bases(alloc, area, &self.objects, &addresses)?;
        let t = area.transaction();
        add_fixes(
            &mut records,
            t,
            words,
            &self.objects,
            &addresses,
            &self.fields,
        )?;
        records.push(Record::Commit { t })?;
        Ok(records)
    }
}
