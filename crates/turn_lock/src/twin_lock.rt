//! A lock around a value with a device beside it: each has turns of its own, and one rule ties both.
ghost use Rattle.std.specs.Prelude.{◌≡◌, ℕ, ◌≤◌, [], ◌∷◌, Some, None, Option, vec_capacity};
ghost use Rattle.turn_lock.specs.declared.twin_view.Counted.{Counted};
ghost use Rattle.turn_lock.specs.declared.twin_view.Cell.TheVariants.{OfValue, OfDevice};

use crate::turns::Turns;
use crate::twin_law::{
    DealTwin, LookAtDevice, LookAtValue, MergeTwin, PassDevice, PassValue, QueueDevice, QueueValue,
    RaiseTwin, ReadTwin, TwinBoard, TwinLeft, TwinOpening, TwinPlace, TwinSlot,
};
use crate::twin_pass::TwinPass;
use crate::twin_view::{Cell, Counted};
use crate::twins::Twins;
use atomic_table::{Refused, Table};
use crossbeam_utils::Backoff;
use std::alloc::{AllocError, Global};
use std::marker::Brand;
use std::snapshot::Snapshot;
use std::sync::Wait;

// The words of the table, and its slots.
const TICKET: usize = 0;

const SERVED: usize = 1;

const FRONT: usize = 2;

const DEVICE_TICKET: usize = 3;

const DEVICE_SERVED: usize = 4;

// A thread that sleeps on a word names its low half.
const LOW_HALF: u64 = 1 << 32;

const VALUE: usize = 0;

const DEVICE: usize = 1;

/// A lock around a value with a device beside it. Each has turns of its own, and a turn is that of the pass whose ticket is served.
#[derive(Drop)]
pub struct TwinLock<T: Twins> {
    table: TwinBoard<T, T::Entry, T::Device>,
    ghost sized: { (table.shared.table_id.words ≡ 5) × (table.shared.table_id.slots ≡ 2) },
}

// What a turn owes: to be passed. It has no `Drop`, so it ends in the call that takes it.
struct Due(());

/// A place in the order of turns. It can be given up only by waiting for its turn.
pub struct Ticket {
    number: u64,
    due: Due,
}

/// The value, out with the pass whose turn it is. It can be given up only by `TwinLock::put`.
pub struct TwinHeld<T> {
    /// The value.
    pub value: T,
    due: Due,
}

/// The device, out with the pass whose turn it is. It can be given up only by `TwinLock::put_device`.
pub struct HeldDevice<D> {
    /// The device.
    pub device: D,
    turns: u64,
    due: Due,
}

impl<T: Twins> TwinLock<T> {
    ghost use Rattle.std.specs.List.{AllByRecursion};
    ghost use Rattle.std.specs.Prelude.{◌≡◌, ◌≢◌, ℕ, ◌+◌, ◌-◌, ◌%◌, ◌^◌, ◌<◌, ◌≤◌, ◌++◌, [], ◌∷◌, length, drop, max, IfOk, IfErr, slice_get, slice_index, Some, None, vec_len, vec_capacity};
    ghost use Rattle.atomic_table.specs.Table.{rest};
    ghost use Rattle.turn_lock.specs.declared.view.Stage.TheVariants.{Resting, Waiting, Raised};
    ghost use Rattle.turn_lock.specs.Steps.{GoesBack, raising, resting};
    ghost use Rattle.turn_lock.specs.Twin.{device_part};
    ghost use Rattle.turn_lock.specs.Turning.{EachOnce, IsBeginning, IsOneTurn, StandIn, added, greatest, places, times};
    ghost use Rattle.turn_lock.specs.Tied.{MayRaise, MayRaiseBoth, MayPut, no_entries, turns_of, twin_newcomer};
    ghost use Rattle.turn_lock.specs.Rule.{is_held};
    ghost use Rattle.turn_lock.specs.TwinSteps.{LaterBeside, BesideKnown, GetsValue, GetsDevice, value_queued, value_passed, value_read, device_queued, device_passed, twin_raised, twin_joined, raises_value, raises_both, gave_device, with_device};
    ghost use Rattle.turn_lock.specs.TwinPasses.{first_of, first_device_of, passes_of, pass_numbers, seen_of, parts_of, mine_of, value_turns, device_turns, front_of, empty_of, owes_of, own_of, down_of, saw_of, device_parts_of, me_of, device_view, IsAtRest, WaitsForValue, WaitsForDevice, HasValue, HasBoth, HasDevice, HasRaised, IsSamePass, IsPassOf, IsNew, KeepsValue, KeepsDevice, uncounted};

    /// A lock around `value` with `device` beside it, with one pass for each label, in their order. If memory runs out both are returned.
    pub fn new(
        alloc: Global,
        value: T,
        device: T::Device,
        labels: &[u32],
    ) -> Result<(TwinLock<T>, Vec<TwinPass<T>>), (AllocError, (T, T::Device))>
        requires labels { 0 < length labels.now }
        requires stood { T.stood value ≡ length (T.entries value) }
        requires empty { T.empty_turns value ≡ 0 }
        requires starts { T.follows value value }
        requires beside { T.beside value value device }
        requires told { T.owed value device ≡ 0 }
        ensures lock { IfOk result (λ r. (first_of r.0 ≡ value) × ((first_device_of r.0).device ≡ device) × (passes_of r.0 ≡ length labels.now)) }
        ensures count { IfOk result (λ r. vec_len r.1 ≡ length labels.now) }
        ensures passes { IfOk result (λ r. (i : ℕ) (pass : _) → slice_get r.1.items i ≡ Some pass → IsNew r.0 i (slice_index labels.now i) (T.entries value) pass) }
        ensures err { IfErr result (λ e. e.1 ≡ (value, device)) }
    {
        let Ok(passes) = Vec::with_capacity(alloc, labels.len()) else {
            return Err((AllocError, (value, device)));
        };
        let Ok(slots) = Vec::with_capacity(alloc, 2) else {
            return Err((AllocError, (value, device)));
        };
        let counted = Counted { device, turns: 0 };
        let about = TwinOpening {
            first: Snapshot::of(&value),
            device: Snapshot::of(&counted),
            passes: labels.len(),
        };
        match Table::new(
            alloc,
            &[0, 0, 0, 0, 0],
            both_slots(slots, value, counted),
            &about,
        ) {
            Ok((table, seat)) => {
                let lock = TwinLock { table };
                let passes = lock.deal(seat, labels, passes);
                Ok((lock, passes))
            }
            Err(Refused { slots }) => {
                let (value, Counted { device, turns: _ }) = out_of_slots(slots);
                Err((AllocError, (value, device)))
            }
        }
    }

    // Makes a pass for each label, from the first seat.
    fn deal(
        &self,
        mut seat: TwinPlace<T, T::Entry, T::Device>,
        labels: &[u32],
        mut passes: Vec<TwinPass<T>>,
    ) -> Vec<TwinPass<T>>
        requires seat { (seat.table_id ≡ self.now.table.shared.table_id) × (seat.me ≡ (twin_newcomer T.entries (first_of self.now) (first_device_of self.now) (length labels.now), [])) }
        requires room { (passes.items ≡ []) × (length labels.now ≤ vec_capacity passes) }
        ensures count { vec_len result ≡ length labels.now }
        ensures passes { (i : ℕ) (pass : _) → slice_get result.items i ≡ Some pass → IsNew self.now i (slice_index labels.now i) (T.entries (first_of self.now)) pass }
    {
        for label in labels {
            passes.push_reserved(TwinPass {
                label: *label,
                seat: self.table.shared.split_seat::<DealTwin>(&mut seat),
            });
        }
        passes
    }

    /// Takes a ticket of the value's turn.
    pub fn queue(&self, pass: &mut TwinPass<T>) -> Ticket
        requires pass { IsPassOf self.now pass.old }
        requires at_rest { IsAtRest pass.old }
        ensures pass { IsSamePass pass.old pass.new }
        ensures queued { value_queued (me_of pass.old) result.number (me_of pass.new) }
    {
        Ticket {
            number: self
                .table
                .shared
                .fetch_add::<QueueValue>(&mut pass.seat, TICKET, 1),
            due: Due(()),
        }
    }

    /// Waits until the ticket is served, and hands out the value for as long as the turn lasts. It does not wait while the device is out
    /// with the pass, or while the pass has a ticket of its turn.
    pub fn wait<R: Wait>(&self, rt: &R, pass: &mut TwinPass<T>, ticket: Ticket) -> TwinHeld<T>
        requires pass { IsPassOf self.now pass.old }
        requires waits { WaitsForValue pass.old ticket.number }
        ensures pass { IsSamePass pass.old pass.new × HasValue pass.new }
        ensures history { (T.entries result.value ≡ seen_of pass.new) × IsBeginning (seen_of pass.old) (seen_of pass.new) }
        ensures mine { (mine_of pass.new ≡ mine_of pass.old) × StandIn (seen_of pass.new) (mine_of pass.new) }
        ensures turns { (value_turns pass.new ≡ value_turns pass.old) × (T.empty_turns result.value ≡ empty_of pass.new) }
        ensures same_value { (T.stood result.value ≡ T.stood (first_of self.now)) × T.follows (first_of self.now) result.value }
        ensures front { (front_of pass.new ≡ greatest T.front (drop (T.stood (first_of self.now)) (seen_of pass.new))) × (front_of pass.old ≤ front_of pass.new) }
        ensures own { own_of pass.new ≡ Some result.value }
        ensures beside { LaterBeside (T.beside (first_of self.now)) T.later (saw_of pass.old) result.value }
        ensures device { KeepsDevice pass.old pass.new × (owes_of pass.new ≡ owes_of pass.old) }
    {
        let Ticket {
            number,
            due: Due(()),
        } = ticket;
        self.look(rt, pass, number);
        TwinHeld {
            value: self.take(pass),
            due: Due(()),
        }
    }

    // Checks the value's turn until the ticket is served.
    fn look<R: Wait>(&self, rt: &R, pass: &mut TwinPass<T>, ticket: u64)
        requires pass { IsPassOf self.now pass.old }
        requires waits { WaitsForValue pass.old ticket }
        ensures pass { (pass.new.label ≡ pass.old.label) × (pass.new.seat.table_id ≡ pass.old.seat.table_id) }
        ensures value { GetsValue T.entries T.stood T.front T.empty_turns T.follows (λ f v c. T.beside f v c.device) (λ c d. T.later c.device d.device) (me_of pass.old) (me_of pass.new) }
    {
        let backoff = Backoff::new();
        for _ in rt.forever() {
            if self
                .table
                .shared
                .load::<LookAtValue>(&mut pass.seat, SERVED)
                == ticket
            {
                return;
            }
            backoff.snooze();
        }
        unreachable!()
    }

    // Takes the value out of its slot.
    fn take(&self, pass: &mut TwinPass<T>) -> T
        requires pass { pass.old.seat.table_id ≡ self.now.table.shared.table_id }
        requires slot { (value : T) × (pass.old.seat.me.1 ≡ (0, OfValue (Some value)) ∷ []) }
        ensures pass { (pass.new.label ≡ pass.old.label) × (pass.new.seat.table_id ≡ pass.old.seat.table_id) }
        ensures slot { (pass.old.seat.me.1 ≡ (0, OfValue (Some result)) ∷ []) × (pass.new.seat.me ≡ (pass.old.seat.me.0, (0, OfValue None) ∷ [])) }
    {
        match self
            .table
            .shared
            .exchange(&mut pass.seat, VALUE, Cell::OfValue(None))
        {
            Cell::OfValue(Some(value)) => value,
            _ => unreachable!(),
        }
    }

    /// Raises the front to the new entry's, while the device is not out with the pass. From now on the value is known as it is put back,
    /// with one more entry or one more empty turn. `front` is the number that the new entry acknowledges, 0 if it acknowledges none or there is
    /// no new entry, and `owes` is for how many untold failures of the device the pass answers then, at most.
    pub fn raise(&self, pass: &mut TwinPass<T>, held: &TwinHeld<T>, front: u64, owes: u64)
        requires pass { IsPassOf self.now pass.old }
        requires turn { HasValue pass.old }
        requires same_value { (T.stood held.now.value ≡ T.stood (first_of self.now)) × T.follows (first_of self.now) held.now.value }
        requires one_turn { IsOneTurn T.front (seen_of pass.old) (empty_of pass.old) (T.entries held.now.value) (T.empty_turns held.now.value) front }
        requires beside { (old : T) × (own_of pass.old ≡ Some old) × MayRaise (T.beside (first_of self.now)) T.later T.owed (saw_of pass.old) old (owes_of pass.old) held.now.value owes }
        ensures pass { IsSamePass pass.old pass.new × HasRaised T.entries T.empty_turns pass.new held.now.value }
        ensures mine { mine_of pass.new ≡ mine_of pass.old ++ added (seen_of pass.old) (seen_of pass.new) }
        ensures turns { value_turns pass.new ≡ value_turns pass.old }
        ensures front { (front_of pass.new ≡ greatest T.front (drop (T.stood (first_of self.now)) (seen_of pass.new))) × (front_of pass.old ≤ front_of pass.new) }
        ensures device { KeepsDevice pass.old pass.new × (owes_of pass.new ≡ owes) }
    {
        self.raise_front::<Brand>(pass, &held.value, front, owes);
    }

    // Raises the front, with what only proofs see.
    fn raise_front<J: TwinLeft<T, T::Entry, T::Device>>(
        &self,
        pass: &mut TwinPass<T>,
        _value: &T,
        front: u64,
        _owes: u64,
    )
        requires pass { IsPassOf self.now pass.old × HasValue pass.old }
        requires left { (J.log ≡ T.entries _value.now) × (J.empty ≡ T.empty_turns _value.now) × (J.more ≡ raises_value (me_of pass.old).0.more _value.now _owes) }
        requires same_value { T.follows (first_of self.now) _value.now }
        requires one_turn { IsOneTurn T.front (seen_of pass.old) (empty_of pass.old) (T.entries _value.now) (T.empty_turns _value.now) front }
        requires beside { (old : T) × (own_of pass.old ≡ Some old) × MayRaise (T.beside (first_of self.now)) T.later T.owed (saw_of pass.old) old (owes_of pass.old) _value.now _owes }
        ensures pass { (pass.new.label ≡ pass.old.label) × (pass.new.seat.table_id ≡ pass.old.seat.table_id) }
        ensures raised { twin_raised T.stood T.front (T.entries _value.now) (T.empty_turns _value.now) (raises_value (me_of pass.old).0.more _value.now _owes) (me_of pass.old) (me_of pass.new) }
    {
        self.table
            .shared
            .fetch_max::<RaiseTwin<T, J>>(&mut pass.seat, FRONT, front);
    }

    /// The same while the device is out with the pass as well: both are known as they are put back, the device before the value.
    pub fn raise_both(
        &self,
        pass: &mut TwinPass<T>,
        held: &TwinHeld<T>,
        device: &HeldDevice<T::Device>,
        front: u64,
        owes: u64,
    )
        requires pass { IsPassOf self.now pass.old }
        requires turn { HasBoth pass.old }
        requires same_value { (T.stood held.now.value ≡ T.stood (first_of self.now)) × T.follows (first_of self.now) held.now.value }
        requires one_turn { IsOneTurn T.front (seen_of pass.old) (empty_of pass.old) (T.entries held.now.value) (T.empty_turns held.now.value) front }
        requires beside { (old : T) × (down : T.Device) × (own_of pass.old ≡ Some old) × (down_of pass.old ≡ Some down) × MayRaiseBoth (T.beside (first_of self.now)) T.later T.owed old down (owes_of pass.old) held.now.value device.now.device owes }
        ensures pass { IsSamePass pass.old pass.new }
        ensures raised { (own_of pass.new ≡ Some held.now.value) × (down_of pass.new ≡ Some device.now.device) × (saw_of pass.new ≡ Some device.now.device) × (T.entries held.now.value ≡ seen_of pass.new) × (T.empty_turns held.now.value ≡ empty_of pass.new) }
        ensures slots { ((me_of pass.new).0.value.stage ≡ Raised) × ((me_of pass.new).1 ≡ (me_of pass.old).1) × (device_view pass.new ≡ device_view pass.old) }
        ensures mine { mine_of pass.new ≡ mine_of pass.old ++ added (seen_of pass.old) (seen_of pass.new) }
        ensures turns { value_turns pass.new ≡ value_turns pass.old }
        ensures front { (front_of pass.new ≡ greatest T.front (drop (T.stood (first_of self.now)) (seen_of pass.new))) × (front_of pass.old ≤ front_of pass.new) }
        ensures owes { owes_of pass.new ≡ owes }
    {
        self.raise_front_of_both::<Brand>(pass, &held.value, device, front, owes);
    }

    // Raises the front, with what only proofs see.
    fn raise_front_of_both<J: TwinLeft<T, T::Entry, T::Device>>(
        &self,
        pass: &mut TwinPass<T>,
        _value: &T,
        _device: &HeldDevice<T::Device>,
        front: u64,
        _owes: u64,
    )
        requires pass { IsPassOf self.now pass.old × HasBoth pass.old }
        requires left { (J.log ≡ T.entries _value.now) × (J.empty ≡ T.empty_turns _value.now) × (J.more ≡ raises_both (me_of pass.old).0.more _value.now (record { device = _device.now.device; turns = _device.now.turns }) _owes) }
        requires same_value { T.follows (first_of self.now) _value.now }
        requires one_turn { IsOneTurn T.front (seen_of pass.old) (empty_of pass.old) (T.entries _value.now) (T.empty_turns _value.now) front }
        requires beside { (old : T) × (down : T.Device) × (own_of pass.old ≡ Some old) × (down_of pass.old ≡ Some down) × MayRaiseBoth (T.beside (first_of self.now)) T.later T.owed old down (owes_of pass.old) _value.now _device.now.device _owes }
        ensures pass { (pass.new.label ≡ pass.old.label) × (pass.new.seat.table_id ≡ pass.old.seat.table_id) }
        ensures raised { twin_raised T.stood T.front (T.entries _value.now) (T.empty_turns _value.now) (raises_both (me_of pass.old).0.more _value.now (record { device = _device.now.device; turns = _device.now.turns }) _owes) (me_of pass.old) (me_of pass.new) }
    {
        self.table
            .shared
            .fetch_max::<RaiseTwin<T, J>>(&mut pass.seat, FRONT, front);
    }

    /// Puts back the value that was raised, and passes its turn.
    pub fn put(&self, pass: &mut TwinPass<T>, held: TwinHeld<T>)
        requires pass { IsPassOf self.now pass.old }
        requires raised { HasRaised T.entries T.empty_turns pass.old held.value }
        requires same_value { (T.stood held.value ≡ T.stood (first_of self.now)) × T.follows (first_of self.now) held.value }
        ensures pass { IsSamePass pass.old pass.new }
        ensures passed { ((me_of pass.new).0.value.stage ≡ Resting) × ((me_of pass.new).1 ≡ []) }
        ensures seen { (seen_of pass.new ≡ seen_of pass.old) × (mine_of pass.new ≡ mine_of pass.old) × (front_of pass.new ≡ front_of pass.old) }
        ensures own { (own_of pass.new ≡ Some held.value) × (empty_of pass.new ≡ empty_of pass.old) }
        ensures turns { value_turns pass.new ≡ value_turns pass.old + 1 }
        ensures device { KeepsDevice pass.old pass.new × (owes_of pass.new ≡ owes_of pass.old) }
    {
        let TwinHeld {
            value,
            due: Due(()),
        } = held;
        self.put_back(pass, value);
        self.pass_on(pass);
    }

    // Puts the value back into its slot, which is still the pass's own.
    fn put_back(&self, pass: &mut TwinPass<T>, value: T)
        requires pass { pass.old.seat.table_id ≡ self.now.table.shared.table_id }
        requires slot { pass.old.seat.me.1 ≡ (0, OfValue None) ∷ [] }
        ensures pass { (pass.new.label ≡ pass.old.label) × (pass.new.seat.table_id ≡ pass.old.seat.table_id) }
        ensures slot { pass.new.seat.me ≡ (pass.old.seat.me.0, (0, OfValue (Some value)) ∷ []) }
    {
        match self
            .table
            .shared
            .exchange(&mut pass.seat, VALUE, Cell::OfValue(Some(value)))
        {
            Cell::OfValue(left) => nothing(left),
            Cell::OfDevice(_) => unreachable!(),
        }
    }

    // Passes the value's turn, and puts its slot back.
    fn pass_on(&self, pass: &mut TwinPass<T>)
        requires pass { (pass.old.seat.table_id ≡ self.now.table.shared.table_id) × (pass.old.seat.me.0.value.stage ≡ Raised) }
        requires value { (value : T) × (pass.old.seat.me.1 ≡ (0, OfValue (Some value)) ∷ []) × GoesBack T.entries T.stood T.empty_turns T.follows (first_of self.now) pass.old.seat.me.0.value value × (own_of pass.old ≡ Some value) }
        ensures pass { (pass.new.label ≡ pass.old.label) × (pass.new.seat.table_id ≡ pass.old.seat.table_id) }
        ensures passed { value_passed (me_of pass.old) (me_of pass.new) }
    {
        self.table
            .shared
            .fetch_add::<PassValue>(&mut pass.seat, SERVED, 1);
    }

    /// Takes a ticket of the device's turn. A pass that waits for the value takes none, so a pass that has the device never waits for the value.
    pub fn queue_device(&self, pass: &mut TwinPass<T>) -> Ticket
        requires pass { IsPassOf self.now pass.old }
        requires resting { (me_of pass.old).0.device.stage ≡ Resting }
        requires not_waiting { (me_of pass.old).0.value.stage ≢ Waiting }
        ensures pass { IsSamePass pass.old pass.new × WaitsForDevice pass.new result.number }
        ensures slots { (me_of pass.new).1 ≡ (me_of pass.old).1 }
        ensures turns { device_turns pass.new ≡ device_turns pass.old }
        ensures value { KeepsValue pass.old pass.new }
        ensures more { (me_of pass.new).0.more ≡ (me_of pass.old).0.more }
    {
        Ticket {
            number: self
                .table
                .shared
                .fetch_add::<QueueDevice>(&mut pass.seat, DEVICE_TICKET, 1),
            due: Due(()),
        }
    }

    /// Waits until the ticket is served, and hands out the device for as long as the turn lasts. A thread that has looked often enough
    /// sleeps until the device is put back.
    pub fn wait_device<R: Wait>(
        &self,
        rt: &R,
        pass: &mut TwinPass<T>,
        ticket: Ticket,
    ) -> HeldDevice<T::Device>
        requires pass { IsPassOf self.now pass.old }
        requires waits { WaitsForDevice pass.old ticket.number }
        requires alone { device_part (me_of pass.old).1 ≡ [] }
        ensures pass { IsSamePass pass.old pass.new × HasDevice pass.new result.turns }
        ensures slots { (me_of pass.new).1 ≡ (1, OfDevice None) ∷ (me_of pass.old).1 }
        ensures device { (down_of pass.new ≡ Some result.device) × (saw_of pass.new ≡ Some result.device) }
        ensures later { (seen : T.Device) → saw_of pass.old ≡ Some seen → T.later seen result.device }
        ensures turns { device_turns pass.new ≡ device_turns pass.old }
        ensures beside { BesideKnown T.entries (T.follows (first_of self.now)) (T.beside (first_of self.now)) (seen_of pass.old) (is_held (me_of pass.old).0.value.stage) (own_of pass.old) result.device }
        ensures value { KeepsValue pass.old pass.new × (owes_of pass.new ≡ owes_of pass.old) }
    {
        let Ticket {
            number,
            due: Due(()),
        } = ticket;
        self.look_at_device(rt, pass, number);
        let Counted { device, turns } = self.take_device(pass);
        HeldDevice {
            device,
            turns,
            due: Due(()),
        }
    }

    // Checks the device's turn until the ticket is served.
    fn look_at_device<R: Wait>(&self, rt: &R, pass: &mut TwinPass<T>, ticket: u64)
        requires pass { IsPassOf self.now pass.old }
        requires waits { WaitsForDevice pass.old ticket }
        ensures pass { (pass.new.label ≡ pass.old.label) × (pass.new.seat.table_id ≡ pass.old.seat.table_id) }
        ensures device { GetsDevice T.entries T.follows (λ f v c. T.beside f v c.device) no_entries turns_of (λ c d. T.later c.device d.device) (me_of pass.old) (me_of pass.new) }
    {
        let backoff = Backoff::new();
        for _ in rt.forever() {
            let served = self
                .table
                .shared
                .load::<LookAtDevice>(&mut pass.seat, DEVICE_SERVED);
            if served == ticket {
                return;
            }
            self.rest(rt, &backoff, served);
        }
        unreachable!()
    }

    // Takes the device out of its slot.
    fn take_device(&self, pass: &mut TwinPass<T>) -> Counted<T::Device>
        requires pass { pass.old.seat.table_id ≡ self.now.table.shared.table_id }
        requires slot { (device : Counted T.Device) × (pass.old.seat.me.1 ≡ (1, OfDevice (Some device)) ∷ rest pass.old.seat.me.1) }
        ensures pass { (pass.new.label ≡ pass.old.label) × (pass.new.seat.table_id ≡ pass.old.seat.table_id) }
        ensures slot { (pass.old.seat.me.1 ≡ (1, OfDevice (Some result)) ∷ rest pass.old.seat.me.1) × (pass.new.seat.me ≡ (pass.old.seat.me.0, (1, OfDevice None) ∷ rest pass.old.seat.me.1)) }
    {
        match self
            .table
            .shared
            .exchange(&mut pass.seat, DEVICE, Cell::OfDevice(None))
        {
            Cell::OfDevice(Some(device)) => device,
            _ => unreachable!(),
        }
    }

    /// Waits until those have had their turns who have a ticket of the device's turn when it is called. It takes no ticket, and tells nothing of the
    /// device: it is for a caller whose own turn does the more, the more others came before it. A pass that has a ticket of the device's turn would wait
    /// for itself.
    pub fn settle<R: Wait>(&self, rt: &R, _pass: &TwinPass<T>)
        requires pass { IsPassOf self.now _pass.now }
        requires resting { (me_of _pass.now).0.device.stage ≡ Resting }
    {
        let from = self.table.shared.peek(DEVICE_SERVED);
        let ahead = self.table.shared.peek(DEVICE_TICKET).wrapping_sub(from);
        let backoff = Backoff::new();
        for _ in rt.forever() {
            let served = self.table.shared.peek(DEVICE_SERVED);
            if served.wrapping_sub(from) >= ahead {
                return;
            }
            self.rest(rt, &backoff, served);
        }
        unreachable!()
    }

    // Backs off before another look at the device's turn, and once that was done often enough sleeps until the device is put back.
    fn rest<R: Wait>(&self, rt: &R, backoff: &Backoff, served: u64) {
        if backoff.is_completed() {
            self.table
                .shared
                .park(rt, DEVICE_SERVED, (served % LOW_HALF) as u32);
        } else {
            backoff.snooze();
        }
    }

    /// Puts the device back, passes its turn, and wakes who waits for it. `owes` is for how many untold failures of the device the pass answers
    /// then, at most.
    pub fn put_device(&self, pass: &mut TwinPass<T>, held: HeldDevice<T::Device>, owes: u64)
        requires pass { IsPassOf self.now pass.old }
        requires turn { HasDevice pass.old held.turns }
        requires beside { (down : T.Device) × (down_of pass.old ≡ Some down) × MayPut (T.beside (first_of self.now)) T.later T.owed (λ v. IsBeginning (seen_of pass.old) (T.entries v) × T.follows (first_of self.now) v) down (owes_of pass.old) held.device owes }
        ensures pass { IsSamePass pass.old pass.new }
        ensures passed { ((me_of pass.new).0.device.stage ≡ Resting) × ((me_of pass.new).1 ≡ rest (me_of pass.old).1) }
        ensures saw { (saw_of pass.new ≡ Some held.device) × (owes_of pass.new ≡ owes) }
        ensures down { down_of pass.new ≡ down_of pass.old }
        ensures turns { device_turns pass.new ≡ device_turns pass.old + 1 }
        ensures value { KeepsValue pass.old pass.new }
    {
        let HeldDevice {
            device,
            turns,
            due: Due(()),
        } = held;
        let counted = Counted {
            device,
            turns: turns.wrapping_add(1),
        };
        self.pass_device::<Brand>(pass, counted, owes);
        self.table.shared.wake_all(DEVICE_SERVED);
    }

    // Puts the device back into its slot, and passes its turn, with what only proofs see.
    fn pass_device<J: TwinLeft<T, T::Entry, T::Device>>(
        &self,
        pass: &mut TwinPass<T>,
        counted: Counted<T::Device>,
        _owes: u64,
    )
        requires pass { IsPassOf self.now pass.old }
        requires turn { (turns : ℕ) × HasDevice pass.old turns × (counted.turns ≡ (turns + 1) % 2 ^ 64) }
        requires left { (J.empty ≡ counted.turns) × (J.more ≡ gave_device (me_of pass.old).0.more counted _owes) }
        requires beside { (down : T.Device) × (down_of pass.old ≡ Some down) × MayPut (T.beside (first_of self.now)) T.later T.owed (λ v. IsBeginning (seen_of pass.old) (T.entries v) × T.follows (first_of self.now) v) down (owes_of pass.old) counted.device _owes }
        ensures pass { (pass.new.label ≡ pass.old.label) × (pass.new.seat.table_id ≡ pass.old.seat.table_id) }
        ensures passed { (known : ℕ) × (pass.new.seat.me ≡ (with_device (me_of pass.old).0 (resting (raising (device_view pass.old) (device_view pass.old).seen counted.turns known)) (gave_device (me_of pass.old).0.more counted _owes), rest (me_of pass.old).1)) }
    {
        match self
            .table
            .shared
            .exchange(&mut pass.seat, DEVICE, Cell::OfDevice(Some(counted)))
        {
            Cell::OfDevice(left) => nothing(left),
            Cell::OfValue(_) => unreachable!(),
        }
        self.table
            .shared
            .fetch_add::<PassDevice<T, J>>(&mut pass.seat, DEVICE_SERVED, 1);
    }

    /// The greatest number that was acknowledged so far, read without waiting, whoever has the turns.
    pub fn front(&self, pass: &mut TwinPass<T>) -> u64
        requires { IsPassOf self.now pass.old }
        ensures pass { IsSamePass pass.old pass.new }
        ensures read { value_read (me_of pass.old) result (me_of pass.new) }
    {
        self.table.shared.load::<ReadTwin>(&mut pass.seat, FRONT)
    }

    /// Joins two passes into one, which has the numbers and the entries of both, and owes what both owed.
    pub fn join(&self, pass: &mut TwinPass<T>, other: TwinPass<T>)
        requires pass { IsPassOf self.now pass.old × IsPassOf self.now other }
        requires at_rest { IsAtRest pass.old × IsAtRest other }
        ensures pass { IsPassOf self.now pass.new × IsAtRest pass.new }
        ensures joined { (pass.new.label ≡ pass.old.label) × ((me_of pass.new).0 ≡ twin_joined (me_of pass.old).0 (me_of other).0) }
    {
        self.table
            .shared
            .join_seat::<MergeTwin>(&mut pass.seat, other.seat);
    }

    /// Ends the lock, and returns the value with all its turns, and the device. It does not wait.
    pub fn close(self, pass: TwinPass<T>) -> (T, T::Device)
        requires pass { IsPassOf self pass × IsAtRest pass }
        requires all { (number : ℕ) → number < passes_of self → 0 < times number (pass_numbers pass) }
        requires told { owes_of pass ≡ 0 }
        ensures same_value { (T.stood result.0 ≡ T.stood (first_of self)) × T.follows (first_of self) result.0 }
        ensures history { IsBeginning (seen_of pass) (T.entries result.0) }
        ensures parts { AllByRecursion (λ seen. IsBeginning seen (T.entries result.0)) (parts_of pass) }
        ensures stand { StandIn (T.entries result.0) (mine_of pass) }
        ensures once { EachOnce (λ place. times place (places (mine_of pass))) (T.stood (first_of self)) (length (T.entries result.0)) }
        ensures turns { (length (T.entries result.0) - T.stood (first_of self) + T.empty_turns result.0) % 2 ^ 64 ≡ value_turns pass % 2 ^ 64 }
        ensures front { front_of pass ≤ greatest T.front (drop (T.stood (first_of self)) (T.entries result.0)) }
        ensures beside { T.beside (first_of self) result.0 result.1 }
        ensures later { (seen : T.Device) → saw_of pass ≡ Some seen → T.later seen result.1 }
        ensures since { T.later (first_device_of self).device result.1 }
        ensures devices { AllByRecursion (λ seen. T.later seen.device result.1) (device_parts_of pass) }
        ensures told { T.owed result.0 result.1 ≡ 0 }
    {
        let mut closed = self.table.close_with(pass.seat);
        let value = closed.take(VALUE);
        let device = closed.take(DEVICE);
        closed.free();
        let (value, Counted { device, turns: _ }) = parted(value, device);
        (value, device)
    }
}

/// Threads may share a lock with two turns, and a pass, its ticket, or what is out with it may be sent from one to another, if the value and the
/// device may.
pub fn twins_cross_threads<T: Twins<Device: Send> + Send>() {
    is_sync::<TwinLock<T>>();
    is_send::<TwinLock<T>>();
    is_send::<TwinPass<T>>();
    is_send::<Ticket>();
    is_send::<TwinHeld<T>>();
    is_send::<HeldDevice<T::Device>>();
}

fn is_sync<X: Sync>() {}

fn is_send<X: Send>() {}

// The slots of a table, with the value and the device at home.
fn both_slots<T, D>(
    mut slots: Vec<TwinSlot<T, D>>,
    value: T,
    device: Counted<D>,
) -> Vec<TwinSlot<T, D>>
    requires { (slots.items ≡ []) × (2 ≤ vec_capacity slots) }
    ensures { result.items ≡ OfValue (Some value) ∷ OfDevice (Some device) ∷ [] }
{
    slots.push_reserved(Cell::OfValue(Some(value)));
    slots.push_reserved(Cell::OfDevice(Some(device)));
    slots
}

// The value and the device of the only slots.
fn out_of_slots<T, D>(mut slots: Vec<TwinSlot<T, D>>) -> (T, Counted<D>)
    requires { (value : T) × (device : Counted D) × (slots.items ≡ OfValue (Some value) ∷ OfDevice (Some device) ∷ []) }
    ensures { slots.items ≡ OfValue (Some result.0) ∷ OfDevice (Some result.1) ∷ [] }
{
    let device = slots.pop().unwrap();
    let value = slots.pop().unwrap();
    slots.destroy_empty();
    parted(value, device)
}

// The value and the device out of their slots.
fn parted<T, D>(value: TwinSlot<T, D>, device: TwinSlot<T, D>) -> (T, Counted<D>)
    requires value { (v : T) × (value ≡ OfValue (Some v)) }
    requires device { (d : Counted D) × (device ≡ OfDevice (Some d)) }
    ensures value { value ≡ OfValue (Some result.0) }
    ensures device { device ≡ OfDevice (Some result.1) }
{
    match (value, device) {
        (Cell::OfValue(Some(value)), Cell::OfDevice(Some(device))) => (value, device),
        _ => unreachable!(),
    }
}

// What is left of a value that was taken out.
fn nothing<X>(left: Option<X>)
    requires { left ≡ None }
{
    match left {
        None => {}
        Some(_) => unreachable!(),
    }
}
