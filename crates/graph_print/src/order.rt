//! The numbers that places get.
ghost use Rattle.std.specs.Prelude.{◌≡◌, ◌<◌, [], ◌∷◌, Some, length, slice_get, IfOk, IfSome, OnOk, OnErr};
ghost use Rattle.graph_print.specs.Order.{with_place, place_number};

use std::alloc::{AllocError, Global};
use std::collections::BTreeMap;
use std::marker::Model;

/// Places that have numbers, from 0 in the order in which they got them. A clause sees them as the list of the places.
#[derive(Drop)]
pub(crate) struct Order {
    places: Vec<u32>,
    numbers: BTreeMap<u32, usize>,
}

impl Model for Order {
    ghost use Rattle.std.specs.Prelude.{ℕ, List};
    ghost use Rattle.std.specs.Ordering.{nat_cmp};
    ghost use Rattle.std.specs.BTreeMap as tree;
    ghost use Rattle.graph_print.specs.Numbering.{IsNumbering};

    ghost Value = { List ℕ };

    ghost view = { λ order. order.places.items };

    ghost invariant = { λ order. IsNumbering order.places.items (tree.get nat_cmp order.numbers) };
}

impl Order {
    /// The place that has number 0. It fails only if memory runs out.
    pub(crate) fn of(alloc: Global, first: u32) -> Result<Order, AllocError>
        ensures { IfOk result (λ order. order ≡ first ∷ []) }
    {
        let mut places = Vec::new(alloc);
        places.push(first)?;
        let mut numbers = BTreeMap::new(alloc);
        numbers.insert(first, 0)?;
        Ok(Order { places, numbers })
    }

    /// How many places have numbers.
    pub(crate) fn len(&self) -> usize
        ensures { result ≡ length self.now }
    {
        self.places.len()
    }

    /// The place that has this number, if one does.
    pub(crate) fn get(&self, number: usize) -> Option<u32>
        ensures place { result ≡ slice_get self.now number }
        ensures few { IfSome result (λ at. number < 4294967296) }
    {
        self.places.get(number).copied()
    }

    /// The number of a place, a new one if it has none. It fails only if memory runs out, and then nothing changes.
    pub(crate) fn number(&mut self, at: u32) -> Result<usize, AllocError>
        ensures placed { OnOk result (self.new ≡ with_place self.old (Some at)) }
        ensures number { IfOk result (λ number. number ≡ place_number self.new at) }
        ensures err { OnErr result (self.new ≡ self.old) }
    {
        if let Some(number) = self.numbers.get(&at) {
            return Ok(*number);
        }
        let number = self.places.len();
        self.places.reserve(1)?;
        self.numbers.insert(at, number)?;
        self.places.push_reserved(at);
        Ok(number)
    }
}
