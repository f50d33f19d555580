//! Volatile areas for tests: objects with a few fields, and what these refer to.
ghost use Rattle.heap_words.specs.Word.{IsFieldWord};

use crate::compare::same;
use heap_words::{Word, encode};
use std::alloc::Global;
use std::process::Abort;
use volatile_area::{Area, AreaError};

/// The area of a transaction, with objects of these numbers of fields, each at the index given with it.
pub fn area_of(rt: &impl Abort, alloc: Global, t: u32, objects: &[(u32, u32)]) -> Area {
    let mut area = Area::new(alloc, t);
    for (fields, at) in objects {
        same(rt, new_object(rt, &mut area, *fields), Ok(*at));
        check_length(rt, &area, *at, *fields);
    }
    area
}

fn check_length(rt: &impl Abort, area: &Area, object: u32, fields: u32) {
    assert!(rt; area.is_object(object));
    same(rt, area.length(object), fields);
}

/// Makes an object.
pub fn new_object(rt: &impl Abort, area: &mut Area, fields: u32) -> Result<u32, AreaError> {
    assert!(rt; fields <= 510);
    area.new_object(fields)
}

/// Sets a field.
pub fn set(rt: &impl Abort, area: &mut Area, object: u32, field: u32, word: u64)
    requires { IsFieldWord word }
{
    assert!(rt; area.is_object(object));
    assert!(rt; field < area.length(object));
    area.set(object, field, word);
}

/// Lets a field refer to an object of the area.
pub fn refer(rt: &impl Abort, area: &mut Area, object: u32, field: u32, to: u32) {
    assert!(rt; to < 4096);
    set(rt, area, object, field, encode(Word::Volatile(to)));
}
