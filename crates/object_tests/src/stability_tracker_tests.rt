//! Which of a few objects that refer to one another are promoted.
use crate::areas::{area_of, refer};
use crate::compare::same;
use stability_tracker::promotion;
use std::alloc::{AllocError, Global};
use std::process::Abort;
use std::test::Fail;
use volatile_area::Area;

#[derive(Drop)]
struct Case {
    written: &'static [u64],
    objects: &'static [u32],
    need: u64,
}

/// Four objects, of which the first and the fourth refer to each other, and the second to the third.
fn four(rt: &impl Abort, alloc: Global) -> Area {
    let mut area = area_of(rt, alloc, 3, &[(2, 0), (1, 4), (0, 7), (3, 9)]);
    refer(rt, &mut area, 0, 1, 9);
    refer(rt, &mut area, 4, 0, 7);
    refer(rt, &mut area, 9, 2, 0);
    area
}

const CASES: [Case; 5] = [
    Case {
        written: &[],
        objects: &[],
        need: 0,
    },
    // Null, a number, a stable object, an index inside an object, and no field's word.
    Case {
        written: &[0, 37, 38, 11, 4],
        objects: &[],
        need: 0,
    },
    Case {
        written: &[39],
        objects: &[0, 9],
        need: 9,
    },
    Case {
        written: &[0, 19, 19],
        objects: &[4, 7],
        need: 5,
    },
    Case {
        written: &[31, 3],
        objects: &[0, 7, 9],
        need: 11,
    },
];

fn check(rt: &impl Abort, alloc: Global, area: &Area, case: &Case) -> Result<(), AllocError> {
    let (objects, need) = promotion(alloc, area, case.written)?;
    let found = (case.written, objects.as_slice(), need);
    same(rt, found, (case.written, case.objects, case.need));
    Ok(())
}

#[test]
fn reached_objects_are_promoted(rt: HostRuntime) -> Result<(), Fail> {
    let area = four(&rt, rt.alloc());
    for case in &CASES {
        check(&rt, rt.alloc(), &area, case)?;
    }
    Ok(())
}
