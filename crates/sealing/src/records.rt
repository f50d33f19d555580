//! The records of a seal.
ghost use Rattle.std.specs.Prelude.{◌≡◌, ◌<◌, ◌^◌, ◌++◌, zip, length, map, All, Contains, IfOk, OnOk};
ghost use Rattle.std.specs.List.{flat_map};
ghost use Rattle.std.specs.Option.{option_to_list};
ghost use Rattle.std.specs.List.Sorted.{IsStrictlySortedBy};
ghost use Rattle.std.specs.Ordering.{nat_cmp};
ghost use Rattle.log_machine.specs.Machine.{field_at};
ghost use Rattle.volatile_area.specs.Area.{starts_of};
ghost use Rattle.graph_words.specs.Promotion.{base_of, fix_of};

use crate::moves::moved_word;
use heap_words::{FIELDS_AT, is_volatile};
use log_records::{ObjectWords, Record};
use std::alloc::{AllocError, Global};
use std::collections::BTreeSet;
use volatile_area::Area;

/// The record that puts an object of the area at its address, if these objects get these addresses.
pub(crate) fn base(
    alloc: Global,
    area: &Area,
    objects: &[u32],
    addresses: &[u32],
    object: u32,
    address: u32,
) -> Result<Record, AllocError>
    requires there { Contains (starts_of area.now) object }
    requires ascend { IsStrictlySortedBy nat_cmp objects.now }
    requires small { All (λ n. n < 2 ^ 21) addresses.now }
    requires count { length addresses.now ≡ length objects.now }
    ensures { IfOk result (λ r. r ≡ base_of area.now (zip objects.now addresses.now) (object, address)) }
{
    let at = object as usize;
    let mut words = Vec::new(alloc);
    words.push(area.words()[at])?;
    words.push(area.words()[at + 1])?;
    for word in area.fields(object) {
        words.push(moved_word(objects, addresses, *word))?;
    }
    Ok(Record::Base {
        t: area.transaction(),
        address,
        words: ObjectWords::new(words),
    })
}

/// The record that updates a field, if it referred to an object of the area.
pub(crate) fn fix(
    t: u32,
    words: &[u64],
    objects: &[u32],
    addresses: &[u32],
    object: u32,
    field: u16,
) -> Option<Record>
    requires inside { field_at object field < length words.now }
    requires ascend { IsStrictlySortedBy nat_cmp objects.now }
    requires small { All (λ n. n < 2 ^ 21) addresses.now }
    requires count { length addresses.now ≡ length objects.now }
    ensures { fix_of t words.now (zip objects.now addresses.now) (object, field) ≡ option_to_list result }
{
    let word = words[object as usize + FIELDS_AT as usize + usize::from(field)];
    if is_volatile(word) {
        Some(Record::Fix {
            t,
            object,
            field,
            word: moved_word(objects, addresses, word),
        })
    } else {
        None
    }
}

/// The records that put these objects of the area at these addresses.
pub(crate) fn bases(
    alloc: Global,
    area: &Area,
    objects: &[u32],
    addresses: &[u32],
) -> Result<Vec<Record>, AllocError>
    requires there { All (Contains (starts_of area.now)) objects.now }
    requires ascend { IsStrictlySortedBy nat_cmp objects.now }
    requires small { All (λ n. n < 2 ^ 21) addresses.now }
    requires count { length addresses.now ≡ length objects.now }
    ensures { IfOk result (λ records. let moves = zip objects.now addresses.now in records.items ≡ map (base_of area.now moves) moves) }
{
    let mut records = Vec::new(alloc);
    for i in 0..objects.len() {
        let put = base(alloc, area, objects, addresses, objects[i], addresses[i])?;
        records.push(put)?;
    }
    Ok(records)
}

/// Adds the records that update these fields, if these objects get these addresses.
pub(crate) fn add_fixes(
    records: &mut Vec<Record>,
    t: u32,
    words: &[u64],
    objects: &[u32],
    addresses: &[u32],
    fields: &BTreeSet<(u32, u16)>,
) -> Result<(), AllocError>
    requires inside { All (λ f. field_at f.0 f.1 < length words.now) fields.now.keys }
    requires ascend { IsStrictlySortedBy nat_cmp objects.now }
    requires small { All (λ n. n < 2 ^ 21) addresses.now }
    requires count { length addresses.now ≡ length objects.now }
    ensures { OnOk result (records.new.items ≡ records.old.items ++ flat_map (fix_of t words.now (zip objects.now addresses.now)) fields.now.keys) }
{
    for (object, field) in fields {
        if let Some(put) = fix(t, words, objects, addresses, *object, *field) {
            records.push(put)?;
        }
    }
    Ok(())
}
