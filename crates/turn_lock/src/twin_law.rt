//! The rule of a table with two turns, and what each step on it returns.
ghost use Rattle.std.specs.Prelude.{◌≡◌, ℕ, List, []};
ghost use Rattle.turn_lock.specs.declared.twin_view.More.{More};
ghost use Rattle.turn_lock.specs.declared.twin_view.Counted.{Counted};

use crate::twin_view::{Cell, Counted, More, TwinView};
use crate::twins::Twins;
use crate::view::View;
use atomic_table::{Join, Play, Seat, Split, Table, TableRule};
use std::alloc::Global;
use std::marker::{Brand, PhantomData};
use std::snapshot::Snapshot;

/// What the table is given when it is made: the value, the device, and the number of passes.
#[derive(Drop)]
pub struct TwinOpening<T, D> {
    pub first: Snapshot<T>,
    pub device: Snapshot<Counted<D>>,
    pub passes: usize,
}

/// What a pass knows of the turns of a value and of a device.
pub type Seen<T, E, D> = TwinView<View<T, E>, View<Counted<D>, u64>, More<T, Counted<D>>>;

/// What a slot of the table holds.
pub type TwinSlot<T, D> = Cell<Option<T>, Option<Counted<D>>>;

pub type TwinBoard<T, E, D> = Table<
    TwinSlot<T, D>,
    Seen<T, E, D>,
    TwinOpening<T, D>,
    TwinOrder,
    Global,
>;

pub type TwinPlace<T, E, D> = Seat<TwinSlot<T, D>, Seen<T, E, D>>;

/// The rule of the two turns.
pub struct TwinOrder;

impl<T: Twins> TableRule<
    TwinSlot<T, T::Device>,
    Seen<T, T::Entry, T::Device>,
    TwinOpening<T, T::Device>,
> for TwinOrder {
    ghost use Rattle.turn_lock.specs.Tied.{TwinKept, twin_newcomer};

    ghost holds = { λ key. TwinKept T.entries T.stood T.front T.empty_turns T.follows T.beside T.later T.owed key.first.value key.device.value key.passes };

    ghost first = { λ key. twin_newcomer T.entries key.first.value key.device.value key.passes };
}

/// What a turn leaves, which only proofs see: the history and the count of empty turns of what is put back, and what the pass then knows of both.
pub trait TwinLeft<T, E, D> {
    ghost log: { List E };

    ghost empty: { ℕ };

    ghost more: { More T (Counted D) };
}

impl<T, E, D> TwinLeft<T, E, D> for Brand {
    ghost use Rattle.turn_lock.specs.TwinSteps.{more_spent};

    ghost log = { [] };

    ghost empty = { 0 };

    ghost more = { more_spent };
}

/// A ticket of the value's turn was taken.
pub struct QueueValue;

impl<T, E, D> Play<TwinSlot<T, D>, Seen<T, E, D>> for QueueValue {
    ghost use Rattle.turn_lock.specs.TwinSteps.{value_queued};

    ghost then = { λ _ m r n. value_queued m r n };
}

/// The value's turn was checked, and begins if the ticket is served.
pub struct LookAtValue;

impl<T: Twins> Play<TwinSlot<T, T::Device>, Seen<T, T::Entry, T::Device>> for LookAtValue {
    ghost use Rattle.turn_lock.specs.TwinSteps.{value_looked};

    ghost then = { λ _ m r n. value_looked T.entries T.stood T.front T.empty_turns T.follows (λ f v c. T.beside f v c.device) (λ c d. T.later c.device d.device) m r n };
}

/// The front was raised, and the new entry joins the pass's own.
pub struct RaiseTwin<T, J> {
    left: PhantomData<(T, J)>,
}

impl<T: Twins, J: TwinLeft<T, T::Entry, T::Device>> Play<
    TwinSlot<T, T::Device>,
    Seen<T, T::Entry, T::Device>,
> for RaiseTwin<T, J> {
    ghost use Rattle.turn_lock.specs.TwinSteps.{twin_raised};

    ghost then = { λ _ m _ n. twin_raised T.stood T.front J.log J.empty J.more m n };
}

/// The value's turn was passed, and its slot was put back.
pub struct PassValue;

impl<T, E, D> Play<TwinSlot<T, D>, Seen<T, E, D>> for PassValue {
    ghost use Rattle.turn_lock.specs.TwinSteps.{value_passed};

    ghost then = { λ _ m _ n. value_passed m n };
}

/// The front was read.
pub struct ReadTwin;

impl<T, E, D> Play<TwinSlot<T, D>, Seen<T, E, D>> for ReadTwin {
    ghost use Rattle.turn_lock.specs.TwinSteps.{value_read};

    ghost then = { λ _ m r n. value_read m r n };
}

/// A ticket of the device's turn was taken.
pub struct QueueDevice;

impl<T, E, D> Play<TwinSlot<T, D>, Seen<T, E, D>> for QueueDevice {
    ghost use Rattle.turn_lock.specs.TwinSteps.{device_queued};

    ghost then = { λ _ m r n. device_queued m r n };
}

/// The device's turn was checked, and begins if the ticket is served.
pub struct LookAtDevice;

impl<T: Twins> Play<TwinSlot<T, T::Device>, Seen<T, T::Entry, T::Device>> for LookAtDevice {
    ghost use Rattle.turn_lock.specs.Tied.{no_entries, turns_of};
    ghost use Rattle.turn_lock.specs.TwinSteps.{device_looked};

    ghost then = { λ _ m r n. device_looked T.entries T.follows (λ f v c. T.beside f v c.device) no_entries turns_of (λ c d. T.later c.device d.device) m r n };
}

/// The device's turn was passed, and its slot was put back.
pub struct PassDevice<T, J> {
    left: PhantomData<(T, J)>,
}

impl<T: Twins, J: TwinLeft<T, T::Entry, T::Device>> Play<
    TwinSlot<T, T::Device>,
    Seen<T, T::Entry, T::Device>,
> for PassDevice<T, J> {
    ghost use Rattle.turn_lock.specs.TwinSteps.{device_passed};

    ghost then = { λ _ m _ n. device_passed J.empty J.more m n };
}

/// The next pass gets its number.
pub struct DealTwin;

impl<T, E, D> Split<Seen<T, E, D>> for DealTwin {
    ghost use Rattle.turn_lock.specs.TwinSteps.{twin_dealt, twin_left};

    ghost left = { twin_left };

    ghost right = { twin_dealt };
}

/// Two passes become one.
pub struct MergeTwin;

impl<T, E, D> Join<Seen<T, E, D>> for MergeTwin {
    ghost use Rattle.turn_lock.specs.TwinSteps.{twin_joined, twin_spent};

    ghost both = { twin_joined };

    ghost spent = { twin_spent };
}
