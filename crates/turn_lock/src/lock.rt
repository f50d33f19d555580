//! The lock itself: a ticket, a turn with the value, and the front.
ghost use Rattle.std.specs.Prelude.{◌≡◌, ℕ, true, [], ◌∷◌, Some, Option};
ghost use mathlib.Core.Option.{some};
ghost use lib.ListN.{get_elem?};
ghost use Rattle.atomic_table.specs.Table.{State};
ghost use Rattle.turn_lock.specs.declared.view.View.{View};
ghost use Rattle.turn_lock.specs.Rule.{Kept, is_held};

use crate::law::{Board, Deal, Left, Look, Merge, Opening, PassOn, Place, Queue, Raise, Read};
use crate::pass::Pass;
use crate::turns::Turns;
use atomic_table::{Refused, Table};
use crossbeam_utils::Backoff;
use std::alloc::{AllocError, Global};
use std::marker::Brand;
use std::snapshot::Snapshot;
use std::sync::Wait;

// The words of the table, and its slot.
const TICKET: usize = 0;

const SERVED: usize = 1;

const FRONT: usize = 2;

const SLOT: usize = 0;

/// A lock around a value, which serves the waiting passes in the order in which they took their tickets.
#[derive(Drop)]
pub struct TurnLock<T: Turns> {
    table: Board<T, T::Entry>,
    ghost sized: { (table.shared.table_id.words ≡ 3) × (table.shared.table_id.slots ≡ 1) },
}

// What a turn owes: to be passed. It has no `Drop`, so it ends in `TurnLock::give`.
struct Debt(());

/// The value, out with the pass whose turn it is. It can be given up only by `TurnLock::give`.
pub struct Held<T> {
    /// The value.
    pub value: T,
    debt: Debt,
}

impl<T: Turns> TurnLock<T> {
    ghost use Rattle.std.specs.List.{AllByRecursion};
    ghost use Rattle.std.specs.Prelude.{◌≡◌, ◌≢◌, ℕ, ◌+◌, ◌-◌, ◌%◌, ◌^◌, ◌<◌, ◌≤◌, ◌++◌, [], ◌∷◌, length, drop, max, IfOk, IfErr, slice_get, slice_index, Some, None, vec_len, vec_capacity};
    ghost use Rattle.turn_lock.specs.declared.view.Stage.TheVariants.{Waiting, Raised};
    ghost use Rattle.turn_lock.specs.Turning.{EachOnce, IsBeginning, IsOneTurn, StandIn, added, greatest, numbers_from, places, times};
    ghost use Rattle.turn_lock.specs.Passes.{first_of, passes_of, pass_numbers, seen_of, parts_of, mine_of, turns_of, front_of, empty_of, IsResting, HasTurn, IsSamePass, HasSameTurns, IsJoined, IsPassOf, IsNew};
    ghost use Rattle.turn_lock.specs.Rule.{newcomer};
    ghost use Rattle.turn_lock.specs.Steps.{Gets, GoesBack, passed, queued, raised};

    /// A lock around `value`, with one pass for each label, in their order. If memory runs out the value is returned.
    pub fn new(
        alloc: Global,
        value: T,
        labels: &[u32],
    ) -> Result<(TurnLock<T>, Vec<Pass<T>>), (AllocError, T)>
        requires labels { 0 < length labels.now }
        requires stood { T.stood value ≡ length (T.entries value) }
        requires empty { T.empty_turns value ≡ 0 }
        requires starts { T.follows value value }
        ensures lock { IfOk result (λ r. (first_of r.0 ≡ value) × (passes_of r.0 ≡ length labels.now)) }
        ensures count { IfOk result (λ r. vec_len r.1 ≡ length labels.now) }
        ensures passes { IfOk result (λ r. (i : ℕ) (pass : _) → slice_get r.1.items i ≡ Some pass → IsNew r.0 i (slice_index labels.now i) (T.entries value) pass) }
        ensures err { IfErr result (λ e. e.1 ≡ value) }
    {
        let Ok(passes) = Vec::with_capacity(alloc, labels.len()) else {
            return Err((AllocError, value));
        };
        let Ok(mut slots) = Vec::with_capacity(alloc, 1) else {
            return Err((AllocError, value));
        };
        let about = Opening {
            first: Snapshot::of(&value),
            passes: labels.len(),
        };
        slots.push_reserved(Some(value));
        match Table::new(alloc, &[0, 0, 0], slots, &about) {
            Ok((table, seat)) => {
                let lock = TurnLock { table };
                let passes = lock.deal(seat, labels, passes);
                Ok((lock, passes))
            }
            Err(Refused { slots }) => Err((AllocError, only(slots))),
        }
    }

    // Makes a pass for each label, from the first seat.
    fn deal(
        &self,
        mut seat: Place<T, T::Entry>,
        labels: &[u32],
        mut passes: Vec<Pass<T>>,
    ) -> Vec<Pass<T>>
        requires seat { (seat.table_id ≡ self.now.table.shared.table_id) × (seat.me ≡ (newcomer T.entries (first_of self.now) (length labels.now), [])) }
        requires room { (passes.items ≡ []) × (length labels.now ≤ vec_capacity passes) }
        ensures count { vec_len result ≡ length labels.now }
        ensures passes { (i : ℕ) (pass : _) → slice_get result.items i ≡ Some pass → IsNew self.now i (slice_index labels.now i) (T.entries (first_of self.now)) pass }
    {
        for label in labels {
            passes.push_reserved(Pass {
                label: *label,
                seat: self.table.shared.split_seat::<Deal>(&mut seat),
            });
        }
        passes
    }

    /// Waits for a turn, and hands out the value for as long as it lasts. Nobody else has the value until it is given back.
    pub fn hold<R: Wait>(&self, rt: &R, pass: &mut Pass<T>) -> Held<T>
        requires pass { IsPassOf self.now pass.old }
        requires resting { IsResting pass.old }
        ensures pass { IsSamePass pass.old pass.new × HasTurn pass.new }
        ensures history { (T.entries result.value ≡ seen_of pass.new) × IsBeginning (seen_of pass.old) (seen_of pass.new) }
        ensures mine { (mine_of pass.new ≡ mine_of pass.old) × StandIn (seen_of pass.new) (mine_of pass.new) }
        ensures turns { (turns_of pass.new ≡ turns_of pass.old) × (T.empty_turns result.value ≡ empty_of pass.new) }
        ensures same_value { (T.stood result.value ≡ T.stood (first_of self.now)) × T.follows (first_of self.now) result.value }
        ensures front { (front_of pass.new ≡ greatest T.front (drop (T.stood (first_of self.now)) (seen_of pass.new))) × (front_of pass.old ≤ front_of pass.new) }
    {
        let ticket = self.queue(pass);
        self.wait(rt, pass, ticket);
        Held {
            value: self.take(pass),
            debt: Debt(()),
        }
    }

    // Takes a ticket.
    fn queue(&self, pass: &mut Pass<T>) -> u64
        requires pass { IsPassOf self.now pass.old × IsResting pass.old }
        ensures pass { (pass.new.label ≡ pass.old.label) × (pass.new.seat.table_id ≡ pass.old.seat.table_id) }
        ensures ticket { queued pass.old.seat.me result pass.new.seat.me }
    {
        self.table
            .shared
            .fetch_add::<Queue>(&mut pass.seat, TICKET, 1)
    }

    // Checks the turn until the ticket is served.
    fn wait<R: Wait>(&self, rt: &R, pass: &mut Pass<T>, ticket: u64)
        requires pass { IsPassOf self.now pass.old }
        requires ticket { (pass.old.seat.me.0.stage ≡ Waiting) × (ticket ≡ pass.old.seat.me.0.ticket % 2 ^ 64) }
        ensures pass { (pass.new.label ≡ pass.old.label) × (pass.new.seat.table_id ≡ pass.old.seat.table_id) }
        ensures value { Gets T.entries T.stood T.front T.empty_turns T.follows pass.old.seat.me pass.new.seat.me }
    {
        let backoff = Backoff::new();
        for _ in rt.forever() {
            if self.table.shared.load::<Look>(&mut pass.seat, SERVED) == ticket {
                return;
            }
            backoff.snooze();
        }
        unreachable!()
    }

    // Takes the value out of the slot.
    fn take(&self, pass: &mut Pass<T>) -> T
        requires pass { pass.old.seat.table_id ≡ self.now.table.shared.table_id }
        requires slot { (value : T) × (pass.old.seat.me.1 ≡ (0, Some value) ∷ []) }
        ensures pass { (pass.new.label ≡ pass.old.label) × (pass.new.seat.table_id ≡ pass.old.seat.table_id) }
        ensures slot { (pass.old.seat.me.1 ≡ (0, Some result) ∷ []) × (pass.new.seat.me ≡ (pass.old.seat.me.0, (0, None) ∷ [])) }
    {
        self.table
            .shared
            .exchange(&mut pass.seat, SLOT, None)
            .unwrap()
    }

    /// Puts the value back, with one more entry or one more empty turn than it had, and passes the turn. `front` is the number
    /// that the new entry acknowledges, 0 if it acknowledges none or there is no new entry.
    pub fn give(&self, pass: &mut Pass<T>, held: Held<T>, front: u64)
        requires pass { IsPassOf self.now pass.old }
        requires turn { HasTurn pass.old }
        requires same_value { (T.stood held.value ≡ T.stood (first_of self.now)) × T.follows (first_of self.now) held.value }
        requires one_turn { IsOneTurn T.front (seen_of pass.old) (empty_of pass.old) (T.entries held.value) (T.empty_turns held.value) front }
        ensures pass { IsSamePass pass.old pass.new × IsResting pass.new }
        ensures history { seen_of pass.new ≡ T.entries held.value }
        ensures mine { mine_of pass.new ≡ mine_of pass.old ++ added (seen_of pass.old) (seen_of pass.new) }
        ensures turns { turns_of pass.new ≡ turns_of pass.old + 1 }
        ensures front { (front_of pass.new ≡ greatest T.front (drop (T.stood (first_of self.now)) (seen_of pass.new))) × (front_of pass.old ≤ front_of pass.new) }
    {
        let Held {
            value,
            debt: Debt(()),
        } = held;
        self.raise::<Brand>(pass, &value, front);
        self.put_back(pass, value);
        self.pass_on(pass);
    }

    // Raises the front to the new entry's, and adds that entry to the pass's own.
    fn raise<J: Left<T::Entry>>(&self, pass: &mut Pass<T>, _value: &T, front: u64)
        requires pass { IsPassOf self.now pass.old × HasTurn pass.old }
        requires left { (J.log ≡ T.entries _value.now) × (J.empty ≡ T.empty_turns _value.now) }
        requires one_turn { IsOneTurn T.front (seen_of pass.old) (empty_of pass.old) (T.entries _value.now) (T.empty_turns _value.now) front }
        ensures pass { (pass.new.label ≡ pass.old.label) × (pass.new.seat.table_id ≡ pass.old.seat.table_id) }
        ensures raised { raised T.stood T.front (T.entries _value.now) (T.empty_turns _value.now) pass.old.seat.me pass.new.seat.me }
    {
        self.table
            .shared
            .fetch_max::<Raise<T, J>>(&mut pass.seat, FRONT, front);
    }

    // Puts the value back into the slot, which is still the pass's own.
    fn put_back(&self, pass: &mut Pass<T>, value: T)
        requires pass { pass.old.seat.table_id ≡ self.now.table.shared.table_id }
        requires slot { pass.old.seat.me.1 ≡ (0, None) ∷ [] }
        ensures pass { (pass.new.label ≡ pass.old.label) × (pass.new.seat.table_id ≡ pass.old.seat.table_id) }
        ensures slot { pass.new.seat.me ≡ (pass.old.seat.me.0, (0, Some value) ∷ []) }
    {
        match self
            .table
            .shared
            .exchange(&mut pass.seat, SLOT, Some(value))
        {
            None => {}
            Some(_) => unreachable!(),
        }
    }

    // Passes the turn, and puts the slot back with the value.
    fn pass_on(&self, pass: &mut Pass<T>)
        requires pass { (pass.old.seat.table_id ≡ self.now.table.shared.table_id) × (pass.old.seat.me.0.stage ≡ Raised) }
        requires value { (value : T) × (pass.old.seat.me.1 ≡ (0, Some value) ∷ []) × GoesBack T.entries T.stood T.empty_turns T.follows (first_of self.now) pass.old.seat.me.0 value }
        ensures pass { (pass.new.label ≡ pass.old.label) × (pass.new.seat.table_id ≡ pass.old.seat.table_id) }
        ensures passed { passed pass.old.seat.me pass.new.seat.me }
    {
        self.table
            .shared
            .fetch_add::<PassOn>(&mut pass.seat, SERVED, 1);
    }

    /// The greatest number that was acknowledged so far, read without waiting, whoever has the turn.
    pub fn front(&self, pass: &mut Pass<T>) -> u64
        requires { IsPassOf self.now pass.old }
        ensures pass { IsSamePass pass.old pass.new × HasSameTurns pass.old pass.new }
        ensures resting { IsResting pass.old → IsResting pass.new }
        ensures turn { HasTurn pass.old → HasTurn pass.new × (empty_of pass.new ≡ empty_of pass.old) }
        ensures least { front_of pass.old ≤ result }
        ensures front { front_of pass.new ≡ result }
    {
        self.table.shared.load::<Read>(&mut pass.seat, FRONT)
    }

    /// Joins two passes into one, which has the numbers and the entries of both.
    pub fn join(&self, pass: &mut Pass<T>, other: Pass<T>)
        requires pass { IsPassOf self.now pass.old × IsPassOf self.now other }
        requires resting { IsResting pass.old × IsResting other }
        ensures pass { IsPassOf self.now pass.new × IsResting pass.new }
        ensures joined { IsJoined pass.old other pass.new }
    {
        self.table
            .shared
            .join_seat::<Merge>(&mut pass.seat, other.seat);
    }

    /// Ends the lock, and returns the value with all its turns. It does not wait.
    pub fn close(self, pass: Pass<T>) -> T
        requires pass { IsPassOf self pass × IsResting pass }
        requires all { (number : ℕ) → number < passes_of self → 0 < times number (pass_numbers pass) }
        ensures same_value { (T.stood result ≡ T.stood (first_of self)) × T.follows (first_of self) result }
        ensures history { IsBeginning (seen_of pass) (T.entries result) }
        ensures parts { AllByRecursion (λ seen. IsBeginning seen (T.entries result)) (parts_of pass) }
        ensures stand { StandIn (T.entries result) (mine_of pass) }
        ensures once { EachOnce (λ place. times place (places (mine_of pass))) (T.stood (first_of self)) (length (T.entries result)) }
        ensures turns { (length (T.entries result) - T.stood (first_of self) + T.empty_turns result) % 2 ^ 64 ≡ turns_of pass % 2 ^ 64 }
        ensures front { front_of pass ≤ greatest T.front (drop (T.stood (first_of self)) (T.entries result)) }
    {
        let mut closed = self.table.close_with(pass.seat);
        let value = closed.take(SLOT).unwrap();
        closed.free();
        value
    }
}

/// In each state of the words, the slot and the passes that the rule allows, at most one pass has its turn.
pub fn one_at_a_time<T: Turns>()
    ensures { (first : T) (passes : ℕ) (s : State (Option T) (View T T.Entry)) → Kept T.entries T.stood T.front T.empty_turns T.follows first passes s
        → (i j : ℕ) (v w : View T T.Entry) → get_elem? s.views i ≡ some v → get_elem? s.views j ≡ some w → is_held v.stage ≡ true → is_held w.stage ≡ true → i ≡ j }
{}

/// Threads may share a lock, and a pass may be sent from one to another, if the value may.
pub fn cross_threads<T: Turns + Send>() {
    is_sync::<TurnLock<T>>();
    is_send::<TurnLock<T>>();
    is_send::<Pass<T>>();
    is_send::<Held<T>>();
}

fn is_sync<X: Sync>() {}

fn is_send<X: Send>() {}

// The value of the only slot.
fn only<T>(mut slots: Vec<Option<T>>) -> T
    requires { (value : T) × (slots.items ≡ Some value ∷ []) }
    ensures { slots.items ≡ Some result ∷ [] }
{
    let value = slots.pop().unwrap().unwrap();
    slots.destroy_empty();
    value
}
