//! Locks that are granted, refused, freed and moved.
use crate::compare::same;
use object_locks::{Holding, Key, LockTable, Mode};
use std::alloc::AllocError;
use std::process::Abort;
use std::test::Fail;

enum Act {
    Read(u32),
    Write(u32),
}

use Act::{Read, Write};

fn at(address: u32) -> Key {
    Key { address }
}

/// A lock that is asked for: the transaction, what it does, and which transaction holds a conflicting lock, if one does.
type Row = (u32, Act, Option<u32>);

const FIRST: [Row; 13] = [
    (5, Read(10), None),
    (3, Read(10), None),
    (9, Read(10), None),
    (9, Write(10), Some(3)),
    (3, Write(10), Some(5)),
    (1, Write(10), Some(3)),
    (1, Write(11), None),
    (1, Read(11), None),
    (3, Read(11), Some(1)),
    (3, Write(12), None),
    (4294967295, Write(0), None),
    (0, Read(0), Some(4294967295)),
    (0, Write(4294967295), None),
];

/// What is asked for after transactions 3 and 5 have released theirs.
const RELEASED: [Row; 5] = [
    (9, Write(10), None),
    (9, Write(10), None),
    (5, Read(10), Some(9)),
    (5, Write(12), None),
    (5, Read(11), Some(1)),
];

/// What is asked for after the locks have moved.
const MOVED: [Row; 6] = [
    (1, Read(10), Some(5)),
    (1, Read(12), Some(9)),
    (5, Read(70), Some(1)),
    (5, Write(71), None),
    (9, Read(11), None),
    (9, Read(0), Some(4294967295)),
];

fn ask(rt: &impl Abort, table: &mut LockTable, rows: &[Row]) -> Result<(), AllocError> {
    for (t, act, holder) in rows {
        let lock = lock_of(*t, act);
        let held = table.conflict(lock);
        same(rt, (*t, held), (*t, *holder));
        if held.is_none() {
            table.take(lock)?;
        }
    }
    Ok(())
}

fn lock_of(transaction: u32, act: &Act) -> Holding {
    match act {
        Read(address) => Holding {
            key: at(*address),
            transaction,
            mode: Mode::Shared,
        },
        Write(address) => Holding {
            key: at(*address),
            transaction,
            mode: Mode::Exclusive,
        },
    }
}

fn release_and_move(rt: &impl Abort, table: &mut LockTable) -> Result<(), AllocError> {
    for t in [3, 5, 7] {
        table.release(t);
    }
    ask(rt, table, &RELEASED)?;
    table.rekey(&[(10, 12), (11, 70), (12, 10)])
}

#[test]
fn locks_are_granted_and_refused(rt: HostRuntime) -> Result<(), Fail> {
    let mut table = LockTable::new(rt.alloc());
    ask(&rt, &mut table, &FIRST)?;
    release_and_move(&rt, &mut table)?;
    ask(&rt, &mut table, &MOVED)?;
    let asked = Holding {
        key: at(70),
        transaction: 2,
        mode: Mode::Shared,
    };
    same(&rt, table.conflict(asked), Some(1));
    Ok(())
}
