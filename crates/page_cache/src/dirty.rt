//! The dirty pages as a list.
ghost use Rattle.std.specs.Prelude.{◌≡◌, ◌≢◌, ℕ, ◌+◌, ◌<◌, ◌≤◌, ◌^◌, Bool, true, false, not, slice_index, take, vec_len, IfOk};

use std::alloc::{AllocError, Global};

/// The dirty pages, in no order. A page is added and removed in constant time, and without allocating.
#[derive(Debug, Drop)]
pub(crate) struct DirtyPages {
    // The first `count` of these are the dirty pages.
    listed: Vec<u32>,
    // The place there of each dirty page. Of a clean page nothing is said.
    places: Vec<u32>,
    count: u32,
    ghost whole: { vec_len listed ≡ vec_len places },
    ghost few: { vec_len places < 2 ^ 32 },
    ghost within: { count ≤ vec_len listed },
    ghost below: { (i : ℕ) → i < count → slice_index listed.items i < vec_len places },
}

impl DirtyPages {
    ghost use Rattle.page_cache.specs.Dirty.{dirty_count, page_count, place_of, Lists};

    /// Of that many pages none is dirty.
    pub fn none(alloc: Global, pages: u32) -> Result<DirtyPages, AllocError>
        ensures pages { IfOk result (λ dirty. page_count dirty ≡ pages) }
        ensures empty { IfOk result (λ dirty. (test : ℕ → Bool) → ((p : ℕ) → p < page_count dirty → test p ≡ false) → Lists test dirty) }
    {
        let listed = vec![in alloc; 0; pages as usize]?;
        let places = vec![in alloc; 0; pages as usize]?;
        Ok(DirtyPages {
            listed,
            places,
            count: 0,
        })
    }

    /// How many they are.
    pub fn count(&self) -> u32
        ensures { result ≡ dirty_count self.now }
    {
        self.count
    }

    /// These pages.
    pub fn as_slice(&self) -> &[u32]
        ensures { result.now ≡ take (dirty_count self.now) self.now.listed.items }
    {
        &self.listed[..self.count as usize]
    }

    /// Adds page `p`, which is clean.
    pub fn add(&mut self, p: u32)
        requires page { p < page_count self.old }
        requires room { dirty_count self.old < page_count self.old }
        ensures pages { page_count self.new ≡ page_count self.old }
        ensures added { (before after : ℕ → Bool) → Lists before self.old → before p ≡ false → after p ≡ true → ((q : ℕ) → q ≢ p → after q ≡ before q) → Lists after self.new }
    {
        self.listed[self.count as usize] = p;
        self.places[p as usize] = self.count;
        self.count += 1;
    }

    /// Removes page `p`, which was dirty, if it is stored now.
    pub fn remove_if(&mut self, stored: bool, p: u32)
        requires page { p < page_count self.old }
        requires place { place_of self.old p < dirty_count self.old }
        ensures pages { page_count self.new ≡ page_count self.old }
        ensures removed { (before after : ℕ → Bool) → Lists before self.old → before p ≡ true → after p ≡ not stored → ((q : ℕ) → q ≢ p → after q ≡ before q) → Lists after self.new }
    {
        if stored {
            self.remove(p);
        }
    }

    /// Removes page `p`, which is dirty: the last one takes its place.
    fn remove(&mut self, p: u32)
        requires page { p < page_count self.old }
        requires place { place_of self.old p < dirty_count self.old }
        ensures pages { page_count self.new ≡ page_count self.old }
        ensures removed { (before after : ℕ → Bool) → Lists before self.old → before p ≡ true → after p ≡ false → ((q : ℕ) → q ≢ p → after q ≡ before q) → Lists after self.new }
    {
        let place = self.places[p as usize];
        self.count -= 1;
        let last = self.listed[self.count as usize];
        self.listed[place as usize] = last;
        self.places[last as usize] = place;
    }
}
