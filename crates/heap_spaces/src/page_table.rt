//! A number for each page, with memory for the numbers of those groups of pages alone for which room was made.
ghost use Rattle.std.specs.Prelude.{◌≡◌, ◌≢◌, ◌+◌, ◌*◌, ◌/◌, ◌<◌, ◌≤◌, ◌^◌, ◌⊎◌, ℕ, [], OnOk, IfSome, IfNone, length, set, slice_index};
ghost use Rattle.heap_spaces.specs.PageTable.{HasRoom, IsNextPage};

use std::alloc::{AllocError, Global};
use std::marker::Model;

/// How many pages a group has.
const GROUP_PAGES: usize = 64;

/// Numbers of pages. Those that were not put are 0.
#[derive(Debug, Drop)]
pub(crate) struct PageTable {
    /// The numbers of each group, or nothing for one that has no memory.
    groups: Vec<Vec<u64>>,
    alloc: Global,
}

impl Model for PageTable {
    ghost use Rattle.std.specs.Prelude.{map};
    ghost use Rattle.heap_spaces.specs.PageTable.{PageNumbers, AreGroups, numbers_in, rooms_of};
    ghost use Rattle.heap_spaces.specs.CollectionCode.{page_numbers_code};

    ghost Value = { PageNumbers };

    ghost coded = { page_numbers_code };

    ghost view = { λ s. record { numbers = numbers_in (map (λ v. v.items) s.groups.items); room = rooms_of (map (λ v. v.items) s.groups.items) } };

    ghost invariant = { λ s. AreGroups (map (λ v. v.items) s.groups.items) };
}

impl PageTable {
    /// A table in which each page has 0. Does not allocate.
    pub(crate) fn new(alloc: Global) -> PageTable
        ensures { result ≡ record { numbers = []; room = [] } }
    {
        PageTable {
            groups: Vec::new(alloc),
            alloc,
        }
    }

    /// The number of a page.
    pub(crate) fn get(&self, page: usize) -> u64
        ensures number { result ≡ slice_index self.now.numbers page }
        ensures there { result ≢ 0 → HasRoom self.now.room page }
    {
        match self.groups.get(page / GROUP_PAGES) {
            Some(group) => number_in(group, page % GROUP_PAGES),
            None => 0,
        }
    }

    /// How many pages the groups have that are there.
    pub(crate) fn len(&self) -> usize
        ensures { result ≡ length self.now.numbers }
    {
        GROUP_PAGES * self.groups.len()
    }

    /// Makes sure that the numbers of a page's group have memory, and gives none to another group. No number changes, also after an error.
    pub(crate) fn make_room(&mut self, page: usize) -> Result<(), AllocError>
        requires { page < 2 ^ 26 }
        ensures room { OnOk result (HasRoom self.new.room page) }
        ensures grows { (p : ℕ) → HasRoom self.old.room p → HasRoom self.new.room p }
        ensures only { (p : ℕ) → HasRoom self.new.room p → HasRoom self.old.room p ⊎ (p / 64 ≡ page / 64) }
        ensures same { (p : ℕ) → slice_index self.new.numbers p ≡ slice_index self.old.numbers p }
    {
        let group = page / GROUP_PAGES;
        self.grow_to(group)?;
        self.fill(group)
    }

    // Adds groups without memory, up to this one.
    fn grow_to(&mut self, group: usize) -> Result<(), AllocError>
        requires { group < 2 ^ 20 }
        ensures there { OnOk result (group < length self.new.room) }
        ensures room { (k : ℕ) → slice_index self.new.room k ≡ slice_index self.old.room k }
        ensures same { (p : ℕ) → slice_index self.new.numbers p ≡ slice_index self.old.numbers p }
    {
        for g in self.groups.len()..group + 1 {
            self.groups.push(Vec::new(self.alloc))?;
        }
        Ok(())
    }

    // Allocates the memory of a group, if it has none.
    fn fill(&mut self, group: usize) -> Result<(), AllocError>
        requires { group < length self.old.room }
        ensures room { OnOk result ((p : ℕ) → p / 64 ≡ group → HasRoom self.new.room p) }
        ensures grows { (p : ℕ) → HasRoom self.old.room p → HasRoom self.new.room p }
        ensures only { (p : ℕ) → HasRoom self.new.room p → HasRoom self.old.room p ⊎ (p / 64 ≡ group) }
        ensures same { (p : ℕ) → slice_index self.new.numbers p ≡ slice_index self.old.numbers p }
    {
        if self.groups[group].is_empty() {
            self.groups[group] = vec![in self.alloc; 0u64; GROUP_PAGES]?;
        }
        Ok(())
    }

    /// The first page from this one on whose number is not 0.
    pub(crate) fn next_from(&self, page: usize) -> Option<usize>
        ensures some { IfSome result (IsNextPage self.now.numbers page) }
        ensures none { IfNone result ((p : ℕ) → page ≤ p → slice_index self.now.numbers p ≡ 0) }
    {
        let first = page / GROUP_PAGES;
        if let Some(next) = self.next_in(first, page % GROUP_PAGES) {
            return Some(next);
        }
        for g in first + 1..self.groups.len() {
            if let Some(next) = self.next_in(g, 0) {
                return Some(next);
            }
        }
        None
    }

    // The first page of a group from a place on whose number is not 0.
    fn next_in(&self, group: usize, place: usize) -> Option<usize>
        requires { place < 64 }
        ensures some { IfSome result (IsNextPage self.now.numbers (64 * group + place)) }
        ensures none { IfNone result ((p : ℕ) → 64 * group + place ≤ p → p < 64 * group + 64 → slice_index self.now.numbers p ≡ 0) }
    {
        let numbers = self.group_at(group);
        for i in place..numbers.len() {
            if numbers[i] != 0 {
                return Some(GROUP_PAGES * group + i);
            }
        }
        None
    }

    // The numbers of a group that are in memory.
    fn group_at(&self, group: usize) -> &[u64]
        ensures there { length result.now ≡ slice_index self.now.room group }
        ensures few { length result.now ≤ 64 }
        ensures numbers { (i : ℕ) → i < 64 → slice_index self.now.numbers (64 * group + i) ≡ slice_index result.now i }
        ensures within { 0 < length result.now → 64 * group + 64 ≤ length self.now.numbers }
        ensures all { length self.now.numbers ≤ 2 ^ 26 }
    {
        match self.groups.get(group) {
            Some(numbers) => numbers.as_slice(),
            None => &[],
        }
    }

    /// Puts the number of a page, for which there is room.
    pub(crate) fn put(&mut self, page: usize, number: u64)
        requires { HasRoom self.old.room page }
        ensures put { self.new ≡ record self.old { numbers = set self.old.numbers page number } }
        ensures within { page < length self.old.numbers }
    {
        let group = &mut self.groups[page / GROUP_PAGES];
        group[page % GROUP_PAGES] = number;
    }
}

/// The number at a place of a group, which is 0 if the group has none there.
fn number_in(group: &[u64], place: usize) -> u64
    ensures { result ≡ slice_index group.now place }
{
    group.get(place).copied().unwrap_or(0)
}
