//! The rule of the lock's table, and what each step on it returns.
ghost use Rattle.std.specs.Prelude.{◌≡◌, ℕ, List, []};

use crate::turns::Turns;
use crate::view::View;
use atomic_table::{Join, Play, Seat, Split, Table, TableRule};
use std::alloc::Global;
use std::marker::{Brand, PhantomData};
use std::snapshot::Snapshot;

/// What the table is given when it is made: the value, and the number of passes.
#[derive(Drop)]
pub struct Opening<T> {
    pub first: Snapshot<T>,
    pub passes: usize,
}

/// The rule of the lock.
pub struct TicketOrder;

impl<T: Turns> TableRule<Option<T>, View<T, T::Entry>, Opening<T>> for TicketOrder {
    ghost use Rattle.turn_lock.specs.Rule.{Kept, newcomer};

    ghost holds = { λ key. Kept T.entries T.stood T.front T.empty_turns T.follows key.first.value key.passes };

    ghost first = { λ key. newcomer T.entries key.first.value key.passes };
}

/// What a turn leaves, which only proofs see: the history and the count of empty turns of the value that is put back.
pub trait Left<E> {
    ghost log: { List E };

    ghost empty: { ℕ };
}

impl<E> Left<E> for Brand {
    ghost log = { [] };

    ghost empty = { 0 };
}

pub type Board<T, E> = Table<Option<T>, View<T, E>, Opening<T>, TicketOrder, Global>;

pub type Place<T, E> = Seat<Option<T>, View<T, E>>;

/// A ticket was taken.
pub struct Queue;

impl<T, E> Play<Option<T>, View<T, E>> for Queue {
    ghost use Rattle.turn_lock.specs.Steps.{queued};

    ghost then = { λ _ m r n. queued m r n };
}

/// The turn was checked, and begins if the ticket is served.
pub struct Look;

impl<T: Turns> Play<Option<T>, View<T, T::Entry>> for Look {
    ghost use Rattle.turn_lock.specs.Steps.{looked};

    ghost then = { λ _ m r n. looked T.entries T.stood T.front T.empty_turns T.follows m r n };
}

/// The front was raised, and the new entry joins the pass's own.
pub struct Raise<T, J> {
    left: PhantomData<(T, J)>,
}

impl<T: Turns, J: Left<T::Entry>> Play<Option<T>, View<T, T::Entry>> for Raise<T, J> {
    ghost use Rattle.turn_lock.specs.Steps.{raised};

    ghost then = { λ _ m _ n. raised T.stood T.front J.log J.empty m n };
}

/// The turn was passed, and the slot was put back.
pub struct PassOn;

impl<T, E> Play<Option<T>, View<T, E>> for PassOn {
    ghost use Rattle.turn_lock.specs.Steps.{passed};

    ghost then = { λ _ m _ n. passed m n };
}

/// The front was read.
pub struct Read;

impl<T, E> Play<Option<T>, View<T, E>> for Read {
    ghost use Rattle.turn_lock.specs.Steps.{read};

    ghost then = { λ _ m r n. read m r n };
}

/// The next pass gets its number.
pub struct Deal;

impl<T, E> Split<View<T, E>> for Deal {
    ghost use Rattle.turn_lock.specs.Steps.{dealt, left_to_deal};

    ghost left = { left_to_deal };

    ghost right = { dealt };
}

/// Two passes become one.
pub struct Merge;

impl<T, E> Join<View<T, E>> for Merge {
    ghost use Rattle.turn_lock.specs.Steps.{joined, spent};

    ghost both = { joined };

    ghost spent = { spent };
}
