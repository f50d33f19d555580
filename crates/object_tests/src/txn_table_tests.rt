//! Two sessions side by side.
use crate::compare::same;
use log_machine::UndoEntry;
use std::alloc::AllocError;
use std::process::Abort;
use std::test::Fail;
use txn_table::{Place, TxnTable};
use volatile_area::AreaError;

/// A write of the number 7.
const ENTRY: UndoEntry = UndoEntry {
    object: 0,
    field: 3,
    was: 29,
};

// Each call is made by a function of its own, which sees that it may be made.

fn begin(rt: &impl Abort, table: &mut TxnTable, s: u32) -> u32 {
    assert!(rt; 1 <= s && s <= 32 && !table.active(s));
    assert!(rt; table.next() < 99);
    table.begin(s)
}

fn new_object(
    rt: &impl Abort,
    table: &mut TxnTable,
    s: u32,
    fields: u32,
) -> Result<u32, AreaError> {
    assert!(rt; fields <= 510 && table.active(s));
    table.new_object(s, fields)
}

fn set_handle(rt: &impl Abort, table: &mut TxnTable, s: u32, h: u32, to: Place) {
    assert!(rt; h < 64 && table.active(s));
    table.set_handle(s, h, Some(to));
}

fn push_undo(rt: &impl Abort, table: &mut TxnTable, s: u32) -> Result<(), AllocError> {
    assert!(rt; table.active(s));
    table.push_undo(s, ENTRY)
}

fn pop_undo(rt: &impl Abort, table: &mut TxnTable, s: u32) -> Option<UndoEntry> {
    assert!(rt; table.active(s));
    table.pop_undo(s)
}

fn end(rt: &impl Abort, table: &mut TxnTable, s: u32) {
    assert!(rt; table.active(s));
    table.end(s);
}

/// A transaction's number, its handles 63 and 0, and how many writes and how many words it has.
type Seen = (u32, Option<Place>, Option<Place>, usize, u32);

fn seen(rt: &impl Abort, table: &TxnTable, s: u32) -> Seen {
    assert!(rt; table.active(s));
    let handles = (table.handle(s, 63), table.handle(s, 0));
    let (writes, words) = (table.undo(s).len(), table.area(s).used());
    (table.number(s), handles.0, handles.1, writes, words)
}

fn begin_both(rt: &impl Abort, table: &mut TxnTable) {
    for s in [0, 1, 32, 33] {
        same(rt, (s, table.active(s)), (s, false));
    }
    let (first, last) = (begin(rt, table, 1), begin(rt, table, 32));
    same(rt, (first, last, table.next()), (5, 6, 7));
}

fn fill_first(rt: &impl Abort, table: &mut TxnTable) -> Result<(), AllocError> {
    same(rt, new_object(rt, table, 1, 2), Ok(0));
    same(rt, new_object(rt, table, 1, 510), Ok(4));
    set_handle(rt, table, 1, 63, Place::Volatile(4));
    push_undo(rt, table, 1)
}

fn end_first(rt: &impl Abort, table: &mut TxnTable) {
    same(rt, pop_undo(rt, table, 1), Some(ENTRY));
    same(rt, pop_undo(rt, table, 1), None);
    end(rt, table, 1);
    same(rt, (table.active(1), table.active(32)), (false, true));
}

#[test]
fn sessions_keep_apart(rt: HostRuntime) -> Result<(), Fail> {
    let mut table = TxnTable::new(rt.alloc())?;
    table.set_next(5);
    begin_both(&rt, &mut table);
    fill_first(&rt, &mut table)?;
    let handle = Some(Place::Volatile(4));
    same(&rt, seen(&rt, &table, 1), (5, handle, None, 1, 516));
    same(&rt, seen(&rt, &table, 32), (6, None, None, 0, 0));
    end_first(&rt, &mut table);
    Ok(())
}
