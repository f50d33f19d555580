//! A few objects, and a full area.
use crate::areas::{area_of, new_object, refer};
use crate::compare::same;
use std::process::Abort;
use volatile_area::{Area, AreaError};

/// Indices, and whether an object stands there.
const IS_OBJECT: [(u32, bool); 5] = [(0, true), (3, false), (4, true), (6, true), (9, false)];

fn check_objects(rt: &impl Abort, area: &Area) {
    let counts = (area.transaction(), area.made(), area.used());
    same(rt, counts, (7, 3, 9));
    for (at, want) in &IS_OBJECT {
        same(rt, (*at, area.is_object(*at)), (*at, *want));
    }
}

/// The first object has two fields, of which the second refers to the third object.
fn check_first(rt: &impl Abort, area: &Area) {
    assert!(rt; area.is_object(0));
    same(rt, area.fields(0), &[0, 27]);
    assert!(rt; area.length(0) == 2);
    same(rt, area.get(0, 1), 27);
}

#[test]
fn objects_stand_end_to_end(rt: HostRuntime) {
    let mut area = area_of(&rt, rt.alloc(), 7, &[(2, 0), (0, 4), (1, 6)]);
    check_objects(&rt, &area);
    refer(&rt, &mut area, 0, 1, 6);
    check_first(&rt, &area);
    let birth = 7 << 32;
    let want = [9, birth + 1, 0, 27, 1, birth + 2, 5, birth + 3, 0];
    same(&rt, area.words(), &want);
}

#[test]
fn a_full_area_takes_no_more(rt: HostRuntime) {
    let mut area = Area::new(rt.alloc(), 1);
    for k in 0..7 {
        same(&rt, new_object(&rt, &mut area, 510), Ok(512 * k));
    }
    same(&rt, area.used(), 3584);
    same(&rt, new_object(&rt, &mut area, 509), Ok(3584));
    let full = new_object(&rt, &mut area, 0);
    same(&rt, full, Err(AreaError::VolatileFull { used: 4095 }));
    same(&rt, area.made(), 8);
}
