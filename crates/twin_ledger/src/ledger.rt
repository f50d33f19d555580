//! The journal, and its mirror.
ghost use Rattle.std.specs.Prelude.{◌≡◌, ℕ, ◌+◌, ◌-◌, ◌%◌, ◌^◌, ◌<◌, ◌≤◌, ◌++◌, ◌⊎◌, [], ◌∷◌, true, false, List, length, drop, MatchBool};
ghost use Rattle.turn_lock.specs.Turning.{IsBeginning, IsOneTurn};

use std::alloc::Global;
use turn_lock::{Turns, Twins};

/// Numbers in the order in which they were posted.
#[derive(Drop)]
pub struct Journal {
    /// Which journal it is.
    pub name: u64,
    /// All posts.
    pub posts: Vec<u64>,
    /// How many posts there were when it was shared.
    pub before: usize,
    /// How many turns posted nothing, modulo 2^64.
    pub empty: u64,
    /// How often it was told that the mirror failed.
    pub told: u64,
}

/// A device that has a copy of the first posts, until it fails.
#[derive(Drop)]
pub struct Mirror {
    /// What was copied.
    pub copied: Vec<u64>,
    /// How many calls it takes before it fails.
    pub calls: u64,
    /// Whether it has failed.
    pub failed: bool,
}

impl Turns for Journal {
    type Entry = u64;

    ghost entries = { λ j. j.posts.items };

    ghost stood = { λ j. j.before };

    ghost front = { λ number. number };

    ghost empty_turns = { λ j. j.empty };

    ghost follows = { λ first j. j.name ≡ first.name };
}

impl Twins for Journal {
    ghost use Rattle.twin_ledger.specs.Mirrored.{Mirrors, IsGrown, flag};
    ghost use Rattle.twin_ledger.specs.MirroredLaws.{is_grown_itself, is_grown_on};

    type Device = Mirror;

    ghost beside = { λ first j m. Mirrors j.posts.items j.told m.copied.items m.failed };

    ghost later = { λ a b. IsGrown a.copied.items a.failed b.copied.items b.failed };

    ghost owed = { λ j m. flag m.failed - j.told };

    ghost later_itself = { λ m. is_grown_itself m.copied.items m.failed };

    ghost later_on = { λ a b c x y. is_grown_on a.copied.items a.failed b.copied.items b.failed c.copied.items c.failed x y };
}

impl Journal {
    /// A journal with no posts.
    pub fn new(alloc: Global, name: u64) -> Journal
        ensures name { result.name ≡ name }
        ensures empty { (result.posts.items ≡ []) × (result.before ≡ 0) × (result.empty ≡ 0) × (result.told ≡ 0) }
    {
        Journal {
            name,
            posts: Vec::new(alloc),
            before: 0,
            empty: 0,
            told: 0,
        }
    }

    /// Posts a number, or counts that memory ran out.
    pub fn post(&mut self, number: u64) -> bool
        ensures posted { MatchBool result ((self.new.posts.items ≡ self.old.posts.items ++ number ∷ []) × (self.new.empty ≡ self.old.empty)) ((self.new.posts.items ≡ self.old.posts.items) × (self.new.empty ≡ (self.old.empty + 1) % 2 ^ 64)) }
        ensures same { (self.new.before ≡ self.old.before) × (self.new.name ≡ self.old.name) × (self.new.told ≡ self.old.told) }
    {
        if self.posts.push(number).is_ok() {
            return true;
        }
        self.empty = self.empty.wrapping_add(1);
        false
    }

    /// Posts a number in one turn, and returns whether it did, with the number that it acknowledges then: 0 if memory ran out.
    pub fn post_one(&mut self, number: u64) -> (bool, u64)
        ensures turn { IsOneTurn (λ n. n) self.old.posts.items self.old.empty self.new.posts.items self.new.empty result.1 }
        ensures posted { MatchBool result.0 (self.new.posts.items ≡ self.old.posts.items ++ number ∷ []) (self.new.posts.items ≡ self.old.posts.items) }
        ensures same { (self.new.before ≡ self.old.before) × (self.new.name ≡ self.old.name) × (self.new.told ≡ self.old.told) }
    {
        if self.post(number) {
            (true, number)
        } else {
            (false, 0)
        }
    }

    /// Counts a turn that posts nothing.
    pub fn pass(&mut self)
        ensures passed { (self.new.posts ≡ self.old.posts) × (self.new.empty ≡ (self.old.empty + 1) % 2 ^ 64) }
        ensures same { (self.new.before ≡ self.old.before) × (self.new.name ≡ self.old.name) × (self.new.told ≡ self.old.told) }
    {
        self.empty = self.empty.wrapping_add(1);
    }

    /// Is told that the mirror failed, in a turn that posts nothing.
    pub fn tell(&mut self)
        requires room { self.old.told < 2 ^ 64 - 1 }
        ensures passed { (self.new.posts ≡ self.old.posts) × (self.new.empty ≡ (self.old.empty + 1) % 2 ^ 64) }
        ensures told { self.new.told ≡ self.old.told + 1 }
        ensures same { (self.new.before ≡ self.old.before) × (self.new.name ≡ self.old.name) }
    {
        self.told += 1;
        self.empty = self.empty.wrapping_add(1);
    }

    /// Is told that the mirror failed where it was not told before, in a turn that posts nothing.
    pub fn tell_once(&mut self)
        ensures passed { (self.new.posts ≡ self.old.posts) × (self.new.empty ≡ (self.old.empty + 1) % 2 ^ 64) }
        ensures told { (self.old.told ≡ 0 → self.new.told ≡ 1) × (0 < self.old.told → self.new.told ≡ self.old.told) }
        ensures same { (self.new.before ≡ self.old.before) × (self.new.name ≡ self.old.name) }
    {
        if self.told == 0 {
            self.tell();
        } else {
            self.pass();
        }
    }
}

impl Mirror {
    /// A mirror with no posts, which fails after this many calls.
    pub fn new(alloc: Global, calls: u64) -> Mirror
        ensures { (result.copied.items ≡ []) × (result.failed ≡ false) }
    {
        Mirror {
            copied: Vec::new(alloc),
            calls,
            failed: false,
        }
    }

    /// Has these posts in place of its own where there are more, and says whether it works. It fails after its last call, and copies
    /// nothing from then on.
    pub fn copy(&mut self, posts: Vec<u64>) -> bool
        ensures works { result ≡ true → (self.new.failed ≡ false) × (self.old.failed ≡ false) }
        ensures copied { result ≡ true → ((self.new.copied.items ≡ posts.items) × (length self.old.copied.items ≤ length posts.items)) ⊎ ((self.new.copied.items ≡ self.old.copied.items) × (length posts.items < length self.old.copied.items)) }
        ensures fails { result ≡ false → (self.new.copied.items ≡ self.old.copied.items) × (self.new.failed ≡ true) }
    {
        if self.failed || self.calls == 0 {
            self.failed = true;
            return false;
        }
        self.calls -= 1;
        if self.copied.len() <= posts.len() {
            self.copied = posts;
        }
        true
    }

    /// Copies what these posts have after its own, and returns how often it failed: 0 where it works, else 1.
    pub fn follow(&mut self, posts: &[u64]) -> u64
        requires fewer { length self.old.copied.items ≤ length posts.now }
        ensures { ((result ≡ 0) × (self.new.failed ≡ false) × (self.old.failed ≡ false) × (self.new.copied.items ≡ self.old.copied.items ++ drop (length self.old.copied.items) posts.now))
            ⊎ ((result ≡ 1) × (self.new.failed ≡ true) × (self.new.copied.items ≡ self.old.copied.items)) }
    {
        let from = self.copied.len();
        if self.failed || self.calls == 0 {
            self.failed = true;
            return 1;
        }
        self.calls -= 1;
        if self.copied.extend_from_slice(&posts[from..]).is_ok() {
            return 0;
        }
        self.failed = true;
        1
    }
}
