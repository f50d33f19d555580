//! A record as it is put on its pages, one page after another.
ghost use Rattle.std.specs.Prelude.{◌≡◌, ◌<◌, ◌^◌, ◌++◌, ℕ, List, length};
ghost use Rattle.std.specs.List.{enumerate_from};
ghost use Rattle.log_records.specs.declared.Record.{Record};
ghost use Rattle.log_machine.specs.Machine.{effect, put_all};
ghost use Rattle.log_machine.specs.Effect.{WritesBelow};
ghost use Rattle.page_redo.specs.Pages.{touched};
ghost use Rattle.page_cache.specs.ByPage.{IsNextOf, on_page};
ghost use Rattle.page_cache.specs.Writing.{AreBelow, pages_of};

use log_machine::{Runs, forwarding_word};
use log_records::{CopyRef, Record};
use page_store::PAGE_WORDS;

/// What a record writes: that of a record which is at hand, or of one whose parts lie elsewhere.
pub trait Effect {
    /// The record.
    ghost rec: { Self → Record };

    /// The first page from page `from` on that it touches.
    fn next_page(&self, from: u32) -> Option<u32>
        requires { WritesBelow (2 ^ 38) (rec self.now) }
        ensures { IsNextOf (touched (rec self.now)) from result };

    /// Puts what it writes on page `p`. The words are those of all pages.
    fn put_on(&self, p: u32, words: &mut [u64])
        requires { WritesBelow (length words.old) (rec self.now) }
        ensures { words.new ≡ put_all words.old (on_page p (effect words.old (rec self.now))) };
}

impl Effect for Record {
    ghost rec = { λ own. own };

    fn next_page(&self, from: u32) -> Option<u32> {
        match self {
            // Its writes are single words: as runs of one word each they would take longer to make than to look at.
            Record::Scan { writes, .. } => next_written(writes.as_slice(), from),
            _ => next_of_runs(self, from),
        }
    }

    fn put_on(&self, p: u32, words: &mut [u64]) {
        match self {
            Record::Scan { writes, .. } => put_writes_on(p, words, writes.as_slice()),
            _ => put_runs_on(p, words, self),
        }
    }
}

impl<'a> Effect for CopyRef<'a> {
    ghost use Rattle.log_records.specs.Record.{copy_record};

    ghost rec = { copy_record };

    fn next_page(&self, from: u32) -> Option<u32> {
        let forwarding = [forwarding_word(self.to())];
        earlier(
            next_of_words(self.to() as usize, self.words(), from),
            next_of_words(self.from() as usize, &forwarding, from),
        )
    }

    fn put_on(&self, p: u32, words: &mut [u64]) {
        let forwarding = [forwarding_word(self.to())];
        put_words_on(p, words, self.to() as usize, self.words());
        put_words_on(p, words, self.from() as usize, &forwarding);
    }
}

/// The first page from page `from` on that the record's runs of words touch.
fn next_of_runs(rec: &Record, from: u32) -> Option<u32>
    requires { WritesBelow (2 ^ 38) rec.now }
    ensures { IsNextOf (touched rec.now) from result }
{
    let mut next = None;
    for run in Runs::of(rec) {
        next = earlier(next, next_of_words(run.address(), run.words(), from));
    }
    next
}

/// The first page from page `from` on in which one of these words lies, that stand from an address on.
fn next_of_words(address: usize, words: &[u64], from: u32) -> Option<u32>
    requires { AreBelow (2 ^ 38) (enumerate_from address words.now) }
    ensures { IsNextOf (pages_of (enumerate_from address words.now)) from result }
{
    if words.is_empty() {
        return None;
    }
    let last = (address + (words.len() - 1)) / PAGE_WORDS;
    let next = (address / PAGE_WORDS).max(from as usize);
    (next <= last).then_some(next as u32)
}

/// The first page from page `from` on that one of these writes is on.
fn next_written(writes: &[(u32, u64)], from: u32) -> Option<u32>
    ensures { IsNextOf (pages_of writes.now) from result }
{
    let mut next = None;
    for (address, _) in writes {
        let page = *address / PAGE_WORDS as u32;
        next = earlier(next, (from <= page).then_some(page));
    }
    next
}

/// The first of two pages.
fn earlier(one: Option<u32>, other: Option<u32>) -> Option<u32>
    ensures { (pages more : List ℕ) (from : ℕ) → IsNextOf pages from one → IsNextOf more from other → IsNextOf (pages ++ more) from result }
{
    match (one, other) {
        (Some(p), Some(q)) => Some(p.min(q)),
        (None, some) | (some, None) => some,
    }
}

/// Puts what the record's runs of words write on page `p`.
fn put_runs_on(p: u32, words: &mut [u64], rec: &Record)
    requires { WritesBelow (length words.old) rec.now }
    ensures { words.new ≡ put_all words.old (on_page p (effect words.old rec.now)) }
{
    for run in Runs::of(rec) {
        put_words_on(p, words, run.address(), run.words());
    }
}

/// Puts those of these words on page `p` that lie there, where the first of them lies at an address.
fn put_words_on(p: u32, words: &mut [u64], address: usize, new: &[u64])
    requires { AreBelow (length words.old) (enumerate_from address new.now) }
    ensures { words.new ≡ put_all words.old (on_page p (enumerate_from address new.now)) }
{
    let first = PAGE_WORDS * p as usize;
    let begin = first.max(address);
    let end = (first + PAGE_WORDS).min(address + new.len());
    if begin < end {
        put_words(words, begin, &new[begin - address..end - address]);
    }
}

/// Puts those of these writes that are on page `p`.
fn put_writes_on(p: u32, words: &mut [u64], writes: &[(u32, u64)])
    requires { AreBelow (length words.old) writes.now }
    ensures { words.new ≡ put_all words.old (on_page p writes.now) }
{
    for (address, word) in writes {
        if *address / PAGE_WORDS as u32 == p {
            words[*address as usize] = *word;
        }
    }
}

/// Puts words from an address on.
fn put_words(words: &mut [u64], address: usize, new: &[u64])
    requires { AreBelow (length words.old) (enumerate_from address new.now) }
    ensures { words.new ≡ put_all words.old (enumerate_from address new.now) }
{
    for (i, word) in new.iter().enumerate() {
        words[address + i] = *word;
    }
}
