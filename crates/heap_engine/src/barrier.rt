//! The read barrier: the scan of a page that an event makes first, inside its own step, so that no transaction meets a reference to the
//! from-space.
ghost use Rattle.std.specs.Prelude.{◌≡◌, ℕ, ◌+◌, ◌<◌, ◌≤◌, ◌^◌, [], ◌↔◌, Option, None, Some, IfOk, IfSome, OnOk, OnErr, IsTrue, fold, option_map, length};
ghost use Rattle.heap_memory.specs.Collecting.{copied_in};
ghost use Rattle.heap_spaces.specs.declared.collection.CopiedObject.{CopiedObject};
ghost use Rattle.heap_spaces.specs.Collection.{Collection};
ghost use Rattle.heap_spaces.specs.Copying.{with_copies};
ghost use Rattle.heap_spaces.specs.Spaces.{with_copied};
ghost use Rattle.log_records.specs.Record.{copy_record, spellings};
ghost use Rattle.page_scanner.specs.PageScan.{records_in};
ghost use Rattle.heap_engine.specs.Barrier.{is_page_scan, is_scan_of, page_in, planned_records, CanKeep, HasKept, AreNewTo, CanScan, words_of, copied_word, write_at, word_with, word_after, scanned_by};

use crate::engine::Engine;
use heap_spaces::{Collection, CopiedObject, Spaces};
use log_machine::forwarding_word;
use log_records::CopyRef;
use object_layout::WordSlice;
use page_scanner::{PageScan, plan_scan};
use read_barrier::needs_scan;
use std::alloc::AllocError;

/// The scan that an event makes first, if it needs one, as it is planned from words that are only read.
#[derive(Debug, Drop)]
pub(crate) struct PagePlan {
    scan: Option<PageScan>,
    // Its records are copies of objects, and the scan after them.
    ghost scans: { IsTrue (is_scan_of (page_in scan) (planned_records scan)) },
    ghost low: { (p : ℕ) → page_in scan ≡ Some p → p < 2 ^ 26 },
}

impl PagePlan {
    /// No scan.
    fn none() -> PagePlan
        ensures { result.scan ≡ None }
    {
        PagePlan { scan: None }
    }

    /// This scan.
    fn of(scan: PageScan) -> PagePlan
        requires scan { IsTrue (is_page_scan scan.page (records_in scan)) }
        requires low { scan.page < 2 ^ 26 }
        ensures { result.scan ≡ Some scan }
    {
        PagePlan { scan: Some(scan) }
    }

    /// The scan, if there is one.
    pub(crate) fn scan(&self) -> Option<&PageScan>
        ensures none { result ≡ None → self.now.scan ≡ None }
        ensures some { IfSome result (λ scan. self.now.scan ≡ Some scan.now) }
    {
        self.scan.as_ref()
    }

    /// What it copies.
    pub(crate) fn copies(&self) -> &[CopiedObject]
        ensures { result.now ≡ copied_in (planned_records self.now.scan) }
    {
        match &self.scan {
            Some(scan) => scan.copies(),
            None => &[],
        }
    }

    /// How many words its copies have.
    pub(crate) fn copied_words(&self) -> u64
        ensures { result ≡ words_of (copied_in (planned_records self.now.scan)) }
    {
        match &self.scan {
            Some(scan) => scan.copied_words(),
            None => 0,
        }
    }

    /// How many records it has.
    pub(crate) fn count(&self) -> u64
        requires { length (planned_records self.now.scan) < 2 ^ 64 }
        ensures { result ≡ length (planned_records self.now.scan) }
    {
        match &self.scan {
            Some(scan) => scan.copy_count() + 1,
            None => 0,
        }
    }

    /// The bytes of its records.
    pub(crate) fn bytes(&self) -> u64
        ensures { result ≡ length (spellings (planned_records self.now.scan)) }
    {
        match &self.scan {
            Some(scan) => scan.bytes(),
            None => 0,
        }
    }

    /// Whether it has no record.
    pub(crate) fn is_empty(&self) -> bool
        ensures { IsTrue result ↔ (planned_records self.now.scan ≡ []) }
    {
        self.scan.is_none()
    }

    /// The word that stands at an address after the scan, if this one stands there before it.
    pub(crate) fn word_behind(&self, at: u32, word: u64) -> u64
        ensures { result ≡ word_after at word (planned_records self.now.scan) }
    {
        match &self.scan {
            Some(scan) => scanned_word(scan, at, word),
            None => word,
        }
    }
}

/// The word that stands at an address after a scan, if this one stands there before it.
fn scanned_word(scan: &PageScan, at: u32, word: u64) -> u64
    ensures { result ≡ word_after at word (records_in scan.now) }
{
    let mut behind = word;
    for copy in scan.iter() {
        behind = word_with(&copy, at, behind);
    }
    written_word(scan.writes(), at, behind)
}

/// The word that stands at an address after an object was copied, if this one stands there before.
fn word_with(copy: &CopyRef<'_>, at: u32, word: u64) -> u64
    ensures { result ≡ word_with at word (copy_record copy.now) }
{
    if copy.from() == at {
        forwarding_word(copy.to())
    } else {
        copied_word(copy.to(), copy.words(), at, word)
    }
}

/// The word at an address when these words stand from another one on.
fn copied_word(to: u32, words: &[u64], at: u32, word: u64) -> u64
    ensures { result ≡ copied_word to words.now at word }
{
    if at < to {
        return word;
    }
    words.get((at - to) as usize).copied().unwrap_or(word)
}

/// The word at an address when these words have been put at theirs, one after another.
fn written_word(writes: &[(u32, u64)], at: u32, word: u64) -> u64
    ensures { result ≡ fold (write_at at) word writes.now }
{
    let mut now = word;
    for write in writes {
        if write.0 == at {
            now = write.1;
        }
    }
    now
}

/// The collection keeps these copies, which are gray from now on. An error changes nothing.
pub(crate) fn keep_copies(
    collection: &mut Option<Collection>,
    copies: &[CopiedObject],
) -> Result<(), AllocError>
    requires { CanKeep collection.old copies.now }
    ensures ok { OnOk result (collection.new ≡ option_map (λ k. with_copies k copies.now) collection.old) }
    ensures err { OnErr result (collection.new ≡ collection.old) }
{
    if let Some(running) = collection {
        running.add_copies(copies)?;
    }
    Ok(())
}

/// The collection is as it was before it kept these copies.
pub(crate) fn take_back_copies(collection: &mut Option<Collection>, copies: &[CopiedObject])
    requires { HasKept copies.now collection.old }
    ensures { (before : Option Collection) → AreNewTo copies.now before → collection.old ≡ option_map (λ k. with_copies k copies.now) before → collection.new ≡ before }
{
    if let Some(running) = collection {
        running.take_back(copies);
    }
}

/// The words of these copies, which are owed to a collection, are taken.
pub(crate) fn take_copies(spaces: &mut Spaces, copies: &[CopiedObject])
    requires { words_of copies.now ≤ spaces.old.owed }
    ensures { spaces.new ≡ with_copied spaces.old (words_of copies.now) }
{
    for copy in copies {
        spaces.copied(copy.words);
    }
}

/// The page has been scanned, and the words of its copies, which the collection keeps, are taken.
pub(crate) fn note_scan(spaces: &mut Spaces, collection: &mut Option<Collection>, scan: &PagePlan)
    requires { words_of (copied_in (planned_records scan.now.scan)) ≤ spaces.old.owed }
    ensures spaces { spaces.new ≡ with_copied spaces.old (words_of (copied_in (planned_records scan.now.scan))) }
    ensures collection { collection.new ≡ option_map (λ k. scanned_by k (page_in scan.now.scan)) collection.old }
{
    // All of its copies at once. They have no more words than are owed, and `owed` has 32 bits, so the cast is exact.
    let _owed = spaces.owed();
    spaces.copied(scan.copied_words() as u32);
    if let (Some(running), Some(scan)) = (collection, scan.scan()) {
        running.scanned(scan.page());
    }
}

impl Engine {
    ghost use Rattle.heap_memory.specs.Collecting.{barrier_records, page_records};
    ghost use Rattle.heap_engine.specs.EngineState.{memory};

    /// What has to be scanned before a field of the stable object at an address is read or written.
    pub(crate) fn barrier(&self, object: u32, field: u32) -> Result<PagePlan, AllocError>
        ensures records { IfOk result (λ plan. planned_records plan.scan ≡ barrier_records (memory self.now) object field) }
        ensures ready { IfOk result (λ plan. CanScan (memory self.now) (planned_records plan.scan)) }
    {
        match needs_scan(self.collection.as_ref(), object, field) {
            Some(page) => self.plan_page(page),
            None => Ok(PagePlan::none()),
        }
    }

    /// The scan of a page of the current space, where a collection runs.
    pub(crate) fn plan_page(&self, page: u32) -> Result<PagePlan, AllocError>
        requires { page < 2 ^ 26 }
        ensures records { IfOk result (λ plan. planned_records plan.scan ≡ page_records (memory self.now) page) }
        ensures ready { IfOk result (λ plan. CanScan (memory self.now) (planned_records plan.scan)) }
    {
        let Some(collection) = &self.collection else {
            return Ok(PagePlan::none());
        };
        // The spaces lie in the words, and so does what is copied.
        let _end = self.spaces.next_free();
        let mut words = WordSlice::of(self.pages.as_slice());
        // Words in memory don't fail, and those of a heap in a collection can be scanned.
        let scan = plan_scan(self.alloc, &mut words, &self.spaces, collection, page).map_err(
            |_| AllocError,
        )?;
        Ok(PagePlan::of(scan))
    }
}
