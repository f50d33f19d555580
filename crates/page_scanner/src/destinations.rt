//! Where the objects go that a scan copies.
ghost use Rattle.std.specs.Prelude.{◌≡◌, ◌+◌, ◌%◌, ◌<◌, ◌^◌, ◌++◌, [], ◌∷◌, length, OnOk};

use std::alloc::{AllocError, Global};
use std::marker::Model;

// A prime above the 576 copies of a scan and above the 512 words of an object, so that objects of one size that lie end to end fall into different
// buckets: of 512 buckets objects of 64 words would share 8.
const BUCKETS: u32 = 577;

/// Where objects go, found by where they stood: moves whose objects stood at addresses with the same remainder are one bucket's chain, the last
/// one first.
#[derive(Drop)]
pub(crate) struct Destinations {
    // All moves, in their order.
    moves: Vec<Move>,
    // For each bucket, one more than the place of its last move, or 0. Empty until there is a move: most pages lead to no object that is left to be
    // copied, and need no table.
    heads: Vec<u32>,
}

// An object goes from one address to another.
#[derive(Clone, Copy)]
struct Move {
    from: u32,
    to: u32,
    // One more than the place of the last move before it in its bucket, or 0.
    earlier: u32,
}

impl Model for Destinations {
    ghost use Rattle.std.specs.Prelude.{ℕ, List};

    ghost Value = { List (ℕ × ℕ) };

    ghost use Rattle.page_scanner.specs.Destinations.{AreChained, pairs};

    ghost view = { λ s. pairs s.moves.items };

    ghost invariant = { λ s. AreChained s.moves.items s.heads.items };
}

impl Destinations {
    ghost use Rattle.page_scanner.specs.Destinations.{goes_to};

    /// None so far. Does not allocate.
    pub(crate) fn new(alloc: Global) -> Destinations
        ensures { result ≡ [] }
    {
        Destinations {
            moves: Vec::new(alloc),
            heads: Vec::new(alloc),
        }
    }

    /// Where the object goes that stood at an address.
    pub(crate) fn get(&self, from: u32) -> Option<u32>
        ensures { result ≡ goes_to self.now from }
    {
        let mut link = self.heads.get(bucket_of(from)).copied().unwrap_or(0);
        while link > 0 {
            let candidate = self.moves[(link - 1) as usize];
            if candidate.from == from {
                return Some(candidate.to);
            }
            link = candidate.earlier;
        }
        None
    }

    /// Allocates memory for that many more.
    pub(crate) fn reserve(&mut self, more: usize) -> Result<(), AllocError>
        ensures { self.new ≡ self.old }
    {
        self.moves.reserve(more)
    }

    /// One more object goes from one address to another.
    pub(crate) fn add(&mut self, from: u32, to: u32) -> Result<(), AllocError>
        requires { length self.old + 1 < 2 ^ 32 }
        ensures { OnOk result (self.new ≡ self.old ++ (from, to) ∷ []) }
    {
        if self.heads.is_empty() {
            self.heads.resize(BUCKETS as usize, 0)?;
        }
        let bucket = bucket_of(from);
        let earlier = self.heads[bucket];
        self.moves.push(Move { from, to, earlier })?;
        self.heads[bucket] = self.moves.len() as u32;
        Ok(())
    }
}

/// The bucket of the objects that stood at an address.
fn bucket_of(from: u32) -> usize
    ensures bucket { result ≡ from % BUCKETS }
    ensures few { result < 577 }
{
    (from % BUCKETS) as usize
}
