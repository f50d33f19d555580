//! What a seal promotes.
ghost use Rattle.std.specs.Prelude.{◌≡◌, ◌≤◌, [], length, All, Contains, IfOk, IsOk};
ghost use Rattle.volatile_area.specs.Area.{starts_of};
ghost use Rattle.stability_tracker.specs.Promotion.{promoted, need};

use crate::search::Search;
use heap_words::FIELDS_AT;
use std::alloc::{AllocError, Global};
use std::collections::BTreeSet;
use volatile_area::Area;

/// The objects that a seal promotes, by their indices, ascending, and how many words they take: those of the volatile area that are
/// reached from the words of the stable fields that the transaction wrote, `written`, through fields of objects of the area.
/// Allocates only if one of these words refers to an object of the area.
pub fn promotion(
    alloc: Global,
    volatile: &Area,
    written: &[u64],
) -> Result<(Vec<u32>, u64), AllocError>
    ensures promoted { IfOk result (λ found. found.0.items ≡ promoted volatile.now written.now) }
    ensures need { IfOk result (λ found. found.1 ≡ need volatile.now (promoted volatile.now written.now)) }
    ensures free { promoted volatile.now written.now ≡ [] → IsOk result }
{
    let mut search = Search::new(alloc);
    search.follow(volatile, written)?;
    while let Some(object) = search.waiting.pop() {
        search.follow(volatile, volatile.fields(object))?;
    }
    measured(alloc, volatile, &search.found)
}

// These objects, and the words that they take.
fn measured(
    alloc: Global,
    volatile: &Area,
    objects: &BTreeSet<u32>,
) -> Result<(Vec<u32>, u64), AllocError>
    requires there { All (Contains (starts_of volatile.now)) objects.now.keys }
    requires few { length objects.now.keys ≤ volatile.now.made }
    ensures objects { IfOk result (λ measured. measured.0.items ≡ objects.now.keys) }
    ensures need { IfOk result (λ measured. measured.1 ≡ need volatile.now objects.now.keys) }
    ensures free { objects.now.keys ≡ [] → IsOk result }
{
    // At most as many as were made, so the sum fits.
    let made = volatile.made() as usize;
    prove!(objects.len() <= made);
    let mut indices = Vec::new(alloc);
    let mut need = 0;
    for object in objects {
        indices.push(*object)?;
        need += u64::from(FIELDS_AT + volatile.length(*object));
    }
    Ok((indices, need))
}
