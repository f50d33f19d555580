//! What the program says of each status, and the number with which it ends.
use crate::playing::same;
use heap_program::Status;
use heap_recovery::At;
use std::alloc::{AllocError, Global};
use std::process::Abort;
use std::test::Fail;

/// Each status, its number, and what is said of it.
const STATUSES: [(Status, u8, &str); 14] = [
    (Status::Done, 0, "done"),
    (Status::NoMemory, 1, "out of memory"),
    (
        Status::Usage,
        2,
        "usage: heap_shell format|play|threads|graph|load",
    ),
    (Status::Script { line: 3 }, 3, "script fault at line 3"),
    (Status::ReadFault, 4, "cannot read the script"),
    (Status::WriteFault, 5, "cannot write the output"),
    (Status::DiskFault, 6, "the disk failed"),
    (Status::NotHeap, 7, "not a heap"),
    (
        Status::Damaged { at: At::Batch(37) },
        8,
        "damaged at batch 37",
    ),
    (Status::Damaged { at: At::Rec(2) }, 8, "damaged at record 2"),
    (Status::Damaged { at: At::Reserve }, 8, "damaged at reserve"),
    (Status::Damaged { at: At::Page(1) }, 8, "damaged at page 1"),
    (
        Status::Damaged { at: At::Address(0) },
        8,
        "damaged at address 0",
    ),
    (
        Status::TooSmall {
            size: 67_711,
            need: 67_712,
        },
        9,
        "too small: 67711 of 67712",
    ),
];

/// Compares the number of a status, and what is said of it.
fn check(
    rt: &impl Abort,
    alloc: Global,
    status: Status,
    want: (u8, &str),
) -> Result<(), AllocError> {
    let said = format!(in alloc; "{status}")?;
    same(rt, (status.code(), said.as_str()), want);
    Ok(())
}

#[test]
fn each_status_has_its_text_and_its_number(rt: HostRuntime) -> Result<(), Fail> {
    for (status, code, text) in &STATUSES {
        check(&rt, rt.alloc(), *status, (*code, *text))?;
    }
    Ok(())
}
