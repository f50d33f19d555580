//! The scan of a page, as it is planned.
ghost use Rattle.std.specs.Prelude.{◌≡◌, ◌≤◌, ◌*◌, length, map, sum_by, vec_len, IfOk};
ghost use Rattle.heap_spaces.specs.declared.collection.CopiedObject.{CopiedObject};
ghost use Rattle.log_records.specs.declared.Record.TheVariants.{Scan};
ghost use Rattle.log_records.specs.Record.{copy_record, spellings};
ghost use Rattle.page_scanner.specs.Copied.{copied_in};

use crate::plan::Plan;
use crate::spelling::{bytes_of, spell};
use heap_spaces::CopiedObject;
use log_records::{CopyRef, Record, Writes, length};
use std::alloc::{AllocError, Global};
use std::marker::Model;

/// The scan of a page as it is planned: what it copies, with the words of all copies one after another, and the record of the fields that it
/// redirects.
#[derive(Debug, Drop)]
pub struct PageScan {
    copies: Vec<CopiedObject>,
    // The words of all copies, in the copies' order: a vector for each would cost an allocation.
    words: Vec<u64>,
    // The records of all copies, as the log spells them, in their order: a record at a time would look for room at each.
    spelled: Vec<u8>,
    page: u32,
    scan: Record,
}

impl Model for PageScan {
    ghost use Rattle.page_scanner.specs.PageScan.{ScanState, IsScanOf, copies_of, scan_writes};

    ghost Value = { ScanState };

    ghost view = { λ s. record { copies = copies_of s.copies.items s.words.items; page = s.page; writes = scan_writes s.scan } };

    ghost invariant = { λ s. IsScanOf s.copies.items s.words.items s.spelled.items s.page s.scan };
}

impl PageScan {
    ghost use Rattle.page_scanner.specs.PageCopies.{copies_left};
    ghost use Rattle.page_scanner.specs.PageScan.{records_in};
    ghost use Rattle.page_scanner.specs.Plan.{planned, IsPlan};
    ghost use Rattle.page_scanner.specs.Scan.{records_of};

    /// The scan of a page that a plan has come to. It allocates if there is a copy.
    pub(crate) fn of(alloc: Global, page: u32, plan: Plan) -> Result<PageScan, AllocError>
        requires plan { IsPlan plan }
        requires few { vec_len plan.writes ≤ 64 * 510 }
        ensures page { IfOk result (λ scan. scan.page ≡ page) }
        ensures records { IfOk result (λ scan. records_in scan ≡ records_of page (planned plan)) }
    {
        let copies = PageCopies {
            copies: &plan.copies,
            words: &plan.words,
        };
        let spelled = spell(alloc, copies, bytes_of(&plan.copies, &plan.words))?;
        let writes = Writes::new(plan.writes);
        Ok(PageScan {
            copies: plan.copies,
            words: plan.words,
            spelled,
            page,
            scan: Record::Scan { page, writes },
        })
    }

    /// The page that is scanned.
    pub fn page(&self) -> u32
        ensures { result ≡ self.now.page }
    {
        self.page
    }

    /// The objects that it copies, in their order.
    pub fn copies(&self) -> &[CopiedObject]
        ensures { result.now ≡ copied_in (map copy_record self.now.copies) }
    {
        &self.copies
    }

    /// How many they are.
    pub fn copy_count(&self) -> u64
        ensures { result ≡ length self.now.copies }
    {
        self.copies.len() as u64
    }

    /// Their records, as the log spells them.
    pub fn spelled_copies(&self) -> &[u8]
        ensures { result.now ≡ spellings (map copy_record self.now.copies) }
    {
        &self.spelled
    }

    /// Its copies, in their order, with their words.
    #[inline(always)]
    pub fn iter(&self) -> PageCopies<'_>
        ensures { copies_left result ≡ self.now.copies }
    {
        PageCopies {
            copies: &self.copies,
            words: &self.words,
        }
    }

    /// The record of the fields that it redirects, which comes after those of its copies.
    pub fn record(&self) -> &Record
        ensures { result.now ≡ Scan self.now.page self.now.writes }
    {
        &self.scan
    }

    /// The fields that it redirects, each by its address and its new word, in their order.
    pub fn writes(&self) -> &[(u32, u64)]
        ensures { result.now ≡ self.now.writes }
    {
        match &self.scan {
            Record::Scan { writes, .. } => writes.as_slice(),
            _ => &[],
        }
    }

    /// How many words all copies have. Takes constant time.
    pub fn copied_words(&self) -> u64
        ensures { result ≡ sum_by (λ (c : CopiedObject). c.words) (copied_in (map copy_record self.now.copies)) }
    {
        self.words.len() as u64
    }

    /// How many bytes its records take in a log. Takes constant time.
    pub fn bytes(&self) -> u64
        ensures { result ≡ length (spellings (records_in self.now)) }
    {
        self.spelled.len() as u64 + length(&self.scan)
    }
}

/// The copies of the scan of a page, in their order, with their words.
#[derive(Debug, Drop)]
pub struct PageCopies<'a> {
    // What is left of them, and the words of these.
    copies: &'a [CopiedObject],
    words: &'a [u64],
    ghost filled: { sum_by (λ (c : CopiedObject). c.words) copies.now ≡ length words.now },
}

impl<'a> Iterator for PageCopies<'a> {
    ghost use Rattle.std.specs.Iterator.{YieldsFirst, item_count};
    ghost use Rattle.page_scanner.specs.PageCopies.{copies_left};

    type Item = CopyRef<'a>;

    ghost next_gives = { YieldsFirst copies_left };

    ghost remaining = { item_count copies_left };

    // Inlined: returned through memory, a copy would take longer to make than most objects to write.
    #[inline(always)]
    fn next(&mut self) -> Option<CopyRef<'a>> {
        let (copy, copies) = self.copies.split_first()?;
        let (own, words) = self.words.split_at(copy.words as usize);
        *self = PageCopies { copies, words };
        Some(CopyRef::new(copy.from, copy.to, own))
    }
}
