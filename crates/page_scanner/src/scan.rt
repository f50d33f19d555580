//! What a scan of a page does.
ghost use Rattle.std.specs.Prelude.{◌≡◌, ◌≢◌, true, ◌+◌, ◌*◌, ◌≤◌, ◌<◌, IsTrue, IfOk, IfSome, IfNone, OnOk, Err, None, Some, vec_len};
ghost use Rattle.std.specs.FinSet.{empty};
ghost use Rattle.std.specs.List.{AllByRecursion};
ghost use Rattle.heap_spaces.specs.Copying.{IsLeastGrayPage};
ghost use Rattle.object_layout.specs.Read.{IsRead};
ghost use Rattle.page_scanner.specs.declared.scan_error.ScanError.TheVariants.{Damaged};
ghost use Rattle.log_records.specs.Record.{IsRecord};
ghost use Rattle.log_machine.specs.Machine.{State, spaces_of};
ghost use Rattle.page_scanner.specs.Bounds.{AreGrayApart, AreSmall};
ghost use Rattle.page_scanner.specs.Heap.{IsCollected};
ghost use Rattle.page_scanner.specs.PageScan.{records_in};
ghost use Rattle.page_scanner.specs.Passing.{IsScanned};
ghost use Rattle.page_scanner.specs.Plan.{planned, IsPlan};
ghost use Rattle.page_scanner.specs.Scan.{visit_all, is_current as is_page_current, scan_records};
ghost use Rattle.page_scanner.specs.ScanFailure.{scan_failure};

use crate::page_scan::PageScan;
use crate::plan::Plan;
use crate::scan_error::ScanError;
use crate::spaces::is_current;
use heap_spaces::{Collection, Spaces};
use heap_words::PAGE_WORDS;
use object_layout::Words;
use std::alloc::Global;

/// The page that is scanned next: the least one in which a gray object starts.
pub fn next_gray_page(collection: &Collection) -> Option<u32>
    ensures some { IfSome result (IsLeastGrayPage collection.now) }
    ensures none { IfNone result (collection.now.gray ≡ empty) }
{
    collection.least_gray_page()
}

/// The scan of a page of the current space: copies of the objects of the from-space to which its gray objects lead, also those that are copied
/// into it, each copied once; and after them the record of the scan, with the new word of each field that led there. It only reads; it takes time
/// proportional to what it reads and copies, if few of these objects have addresses with the same remainder by 577.
pub fn plan_scan<W: Words>(
    alloc: Global,
    words: &mut W,
    spaces: &Spaces,
    collection: &Collection,
    page: u32,
) -> Result<PageScan, ScanError>
    ensures records { IsTrue W.tells → IfOk result (λ scan. scan_records spaces.now collection.now (W.content words.old) page ≡ Some (records_in scan)) }
    ensures page { IfOk result (λ scan. scan.page ≡ page) }
    ensures damaged { IsTrue W.tells → result ≡ Err Damaged → scan_records spaces.now collection.now (W.content words.old) page ≡ None }
    ensures passes { IsTrue W.tells → IfOk result (λ scan. (s : State) → spaces_of s ≡ spaces.now → s.collection ≡ Some collection.now → IsScanned s page (records_in scan)) }
    ensures whole { IsTrue W.tells → IsCollected spaces.now collection.now (W.content words.old) → is_page_current spaces.now page ≡ true → result ≢ Err Damaged }
    ensures spelled { IsTrue W.tells → IsCollected spaces.now collection.now (W.content words.old) → IfOk result (λ scan. AllByRecursion IsRecord (records_in scan)) }
    ensures small { IsTrue W.tells → IfOk result (λ scan. AreGrayApart spaces.now collection.now (W.content words.old) → AreSmall page (records_in scan)) }
    ensures read { IsRead W.tells W.extent W.content W.keeps W.faults W.stops words.old words.new (scan_failure result) }
{
    plan_records(alloc, words, spaces, collection, page)
}

// The scan of a page, with exactly the records that can follow.
fn plan_records<W: Words>(
    alloc: Global,
    words: &mut W,
    spaces: &Spaces,
    collection: &Collection,
    page: u32,
) -> Result<PageScan, ScanError>
    ensures records { IsTrue W.tells → IfOk result (λ scan. scan_records spaces.now collection.now (W.content words.old) page ≡ Some (records_in scan)) }
    ensures page { IfOk result (λ scan. scan.page ≡ page) }
    ensures damaged { IsTrue W.tells → result ≡ Err Damaged → scan_records spaces.now collection.now (W.content words.old) page ≡ None }
    ensures read { IsRead W.tells W.extent W.content W.keeps W.faults W.stops words.old words.new (scan_failure result) }
{
    if !is_current(spaces, page) {
        return Err(ScanError::Damaged);
    }
    let mut plan = Plan::new(alloc, PAGE_WORDS * page);
    visit_page(&mut plan, words, spaces, collection, page)?;
    Ok(PageScan::of(alloc, page, plan)?)
}

// Visits all gray objects of the plan's page.
fn visit_page<W: Words>(
    plan: &mut Plan,
    words: &mut W,
    spaces: &Spaces,
    collection: &Collection,
    page: u32,
) -> Result<(), ScanError>
    requires plan { IsPlan plan.old }
    requires page { plan.old.first ≡ 64 * page }
    requires low { plan.old.first + 64 < 2147483648 }
    ensures visited { IsTrue W.tells → OnOk result (visit_all spaces.now collection.now (W.content words.old) (planned plan.old) plan.old.first 64 ≡ Some (planned plan.new)) }
    ensures damaged { IsTrue W.tells → result ≡ Err Damaged → visit_all spaces.now collection.now (W.content words.old) (planned plan.old) plan.old.first 64 ≡ None }
    ensures plan { OnOk result (IsPlan plan.new) }
    ensures few { OnOk result (vec_len plan.new.writes ≤ vec_len plan.old.writes + 64 * 510) }
    ensures read { IsRead W.tells W.extent W.content W.keeps W.faults W.stops words.old words.new (scan_failure result) }
{
    let first = plan.first;
    let gray = collection.gray_bits(page);
    let mut place = plan.next_gray(gray, 0);
    while place < PAGE_WORDS {
        plan.visit(words, spaces, collection, first + place)?;
        // A visit may have copied objects into the page.
        place = plan.next_gray(gray, place + 1);
    }
    Ok(())
}
