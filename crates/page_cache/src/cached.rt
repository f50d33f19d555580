//! Pages in memory, each with its LSN.
ghost use Rattle.std.specs.Prelude.{◌≡◌, ℕ, ◌+◌, ◌*◌, ◌<◌, ◌^◌, None, Some, length, slice_index, vec_len};
ghost use Rattle.log_machine.specs.Effect.{WritesBelow};
ghost use Rattle.page_redo.specs.Pages.{page_words, lsn_of};
ghost use Rattle.page_redo.specs.Redo.{EachLacks};
ghost use Rattle.page_cache.specs.ByPage.{put_page};

use crate::effect::Effect;
use page_store::PAGE_WORDS;
use std::marker::Model;

/// The words of all pages of both spaces, by address, and the LSN of each page.
#[derive(Debug, Drop)]
pub(crate) struct CachedPages {
    words: Vec<u64>,
    lsns: Vec<u64>,
}

impl Model for CachedPages {
    ghost use Rattle.std.specs.Prelude.{◌≡◌, ◌*◌, vec_len};
    ghost use Rattle.page_redo.specs.Pages.{Pages};

    ghost Value = { Pages };

    ghost view = { λ pages. record { words = pages.words.items; lsns = pages.lsns.items } };

    ghost invariant = { λ pages. vec_len pages.words ≡ 64 * vec_len pages.lsns };
}

impl CachedPages {
    ghost use Rattle.page_cache.specs.CacheState.{IsFirstPast};

    /// Pages with these words and LSNs.
    pub fn of(words: Vec<u64>, lsns: Vec<u64>) -> CachedPages
        requires { vec_len words ≡ 64 * vec_len lsns }
        ensures { result ≡ record { words = words.items; lsns = lsns.items } }
    {
        CachedPages { words, lsns }
    }

    /// The words, by address.
    pub fn as_slice(&self) -> &[u64]
        ensures words { result.now ≡ self.now.words }
        ensures whole { length result.now ≡ 64 * length self.now.lsns }
        ensures fit { (at : ℕ) → slice_index result.now at < 2 ^ 64 }
    {
        fitting(&self.words)
    }

    /// The word at an address.
    pub fn word(&self, at: u32) -> u64
        requires { at < length self.now.words }
        ensures { result ≡ slice_index self.now.words at }
    {
        self.words[at as usize]
    }

    /// The LSN of page `p`.
    pub fn lsn(&self, p: u32) -> u64
        requires { p < length self.now.lsns }
        ensures { result ≡ lsn_of self.now p }
    {
        self.lsns[p as usize]
    }

    /// The first page whose LSN is past this one.
    pub fn first_past(&self, lsn: u64) -> Option<u32>
        requires { length self.now.lsns < 2 ^ 32 }
        ensures none { result ≡ None → EachLacks (lsn + 1) self.now }
        ensures found { (p : ℕ) → result ≡ Some p → IsFirstPast lsn p self.now }
    {
        for (p, own) in self.lsns.iter().enumerate() {
            if *own > lsn {
                return Some(p as u32);
            }
        }
        None
    }

    /// The words of page `p`.
    pub fn page(&self, p: u32) -> [u64; PAGE_WORDS]
        requires { p < length self.now.lsns }
        ensures { result ≡ page_words self.now.words p }
    {
        let from = PAGE_WORDS * p as usize;
        let mut page = [0; PAGE_WORDS];
        page.copy_from_slice(&self.words[from..from + PAGE_WORDS]);
        page
    }

    /// Puts what the record of that LSN writes on page `p`, which has the record then.
    pub fn write<E: Effect>(&mut self, lsn: u64, p: u32, effect: &E)
        requires page { p < length self.old.lsns }
        requires inside { WritesBelow (length self.old.words) (E.rec effect.now) }
        ensures { self.new ≡ put_page lsn p self.old (E.rec effect.now) }
    {
        effect.put_on(p, &mut self.words);
        self.lsns[p as usize] = lsn;
    }
}

/// These words, as they are: each has 64 bits.
fn fitting(words: &[u64]) -> &[u64]
    ensures same { result.now ≡ words.now }
    ensures fit { (at : ℕ) → slice_index result.now at < 2 ^ 64 }
{
    words
}
