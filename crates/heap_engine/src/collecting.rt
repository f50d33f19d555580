//! The events of a collection: it begins with a flip, scans the current space page by page, and ends where nothing is gray any more.
ghost use Rattle.std.specs.Prelude.{◌≡◌, ◌↔◌, ℕ, ◌≤◌, ◌<◌, ◌^◌, List, length, Option, None, Some, Ok, OnErr, IfOk, IsSome, IsTrue};
ghost use Rattle.flip_copy.specs.Copied.{copied_size};
ghost use Rattle.flip_copy.specs.Plan.{AreCopiesOf};
ghost use Rattle.heap_spaces.specs.Spaces.{flipped, with_copied};
ghost use Rattle.log_machine.specs.Collecting.{pairs_of};
ghost use Rattle.log_machine.specs.Translation.{translated_list};
ghost use Rattle.logged_pages.specs.State.{pages_in_memory};
ghost use Rattle.relocation.specs.Relocation.{IsRelocation};
ghost use Rattle.heap_engine.specs.Reserve.{WroteBelow, GoAlongBelow};
ghost use Rattle.graph_model.specs.Plain.{reply_of};
ghost use Rattle.graph_model.specs.declared.reply.Reply.TheVariants.{Flipped, Collecting, Scanned, Collected, Idle};

use crate::barrier::{keep_copies, note_scan, take_copies};
use crate::carrying::carry_out;
use crate::engine::{Engine, refused};
use crate::step_error::StepError;
use disk_model::Disk;
use flip_copy::{FlipPlan, plan_flip};
use graph_model::Reply;
use heap_spaces::{Collection, Spaces};
use heap_words::FIELDS_AT;
use log_machine::UndoEntry;
use log_records::Record;
use logged_pages::Listed;
use object_layout::WordSlice;
use page_scanner::next_gray_page;
use relocation::moved_to;
use std::alloc::AllocError;
use txn_table::SESSIONS;

impl Engine {
    ghost use Rattle.heap_memory.specs.Refusals.{flip_refusal, scan_refusal};
    ghost use Rattle.heap_memory.specs.Replies.{flip_reply, scan_reply};
    ghost use Rattle.heap_memory.specs.Leaves.{IsAsItWas, Flips, Scans};
    ghost use Rattle.heap_memory.specs.Collecting.{IsNextPage, flip_copies};
    ghost use Rattle.txn_table.specs.Roots.{AreRoots};
    ghost use Rattle.heap_engine.specs.EngineState.{memory, HasNotFailed, LiesWithin};
    ghost use Rattle.heap_engine.specs.NoCall.{MakesNoCall};

    /// Begins a collection, if none runs: the spaces change their roles, and the root object and all stable objects that transactions name or
    /// lock are copied into the one that is current from now on. What the transactions keep is updated, and none of them has to wait. It
    /// takes time for these objects and for what the transactions keep, and a little for each 64 pages of the heap.
    pub(crate) fn flip<D: Disk>(&mut self, disk: &mut D) -> Result<Reply, StepError>
        requires works { HasNotFailed self.old }
        requires within { LiesWithin self.old (D.extent disk.old) }
        ensures calls { MakesNoCall D.Disk disk.old self.new disk.new result }
        ensures reply { IfOk result (λ reply. (roots : List ℕ) × AreRoots self.old.table self.old.locks roots × (reply ≡ reply_of (flip_refusal (memory self.old) roots) (flip_reply (memory self.old) roots))) }
        ensures flipped { (objects words : ℕ) → result ≡ Ok (Flipped objects words) → (roots : List ℕ) × Flips (memory self.old) (memory self.new) roots }
        ensures still { result ≡ Ok Collecting → self.new ≡ self.old }
        ensures refused { (why : _) → result ≡ Ok (Reply.Refused why) → IsAsItWas (memory self.old) (memory self.new) }
        ensures err { OnErr result (IsAsItWas (memory self.old) (memory self.new)) }
    {
        if self.collection.is_some() {
            return Ok(Reply::Collecting);
        }
        let plan = self.plan_roots()?;
        let used = self.spaces.used();
        if let Some(why) = self.make_room(log_records::length(plan.record()))? {
            return Ok(refused(why));
        }
        let mut collection = Collection::begin(self.alloc, used);
        collection.add_copies(plan.moved())?;
        // The last step that may run out of memory.
        self.locks.rekey(plan.pairs())?;
        let reply = change_spaces(&mut self.spaces, &plan);
        self.table.translate(plan.pairs());
        self.collection = Some(collection);
        let records = [plan.into_record()];
        carry_out(&mut self.pages, disk, &Listed { records: &records })?;
        Ok(reply)
    }

    /// The copies of a flip. The words are only read.
    fn plan_roots(&self) -> Result<FlipPlan, AllocError>
        ensures roots { IfOk result (λ plan. (roots : List ℕ) × AreRoots self.now.table self.now.locks roots × (plan ≡ flip_copies (memory self.now) roots)) }
        ensures copied { IfOk result (AreCopiesOf self.now.spaces) }
        ensures along { IfOk result (λ plan. GoAlongBelow (length (pages_in_memory self.now.pages).words) (pairs_of plan) self.now.table) }
    {
        let roots = self.table.roots(&self.locks)?;
        let mut words = WordSlice::of(self.pages.as_slice());
        // Words in memory don't fail, and the roots of a heap are objects.
        let plan = plan_flip(self.alloc, &mut words, &self.spaces, &roots).map_err(|_| AllocError)?;
        // The fields that its transactions wrote are those of roots.
        if !self.can_go_along(plan.pairs()) {
            return Err(AllocError);
        }
        Ok(plan)
    }

    /// Whether all that transactions would take back lies in the words when objects have moved.
    fn can_go_along(&self, pairs: &[(u32, u32)]) -> bool
        requires { IsRelocation pairs.now }
        ensures { IsTrue result ↔ GoAlongBelow (length (pages_in_memory self.now.pages).words) pairs.now self.now.table }
    {
        let words = self.pages.as_slice().len() as u64;
        for session in 1..=SESSIONS {
            if self.table.active(session) && !lie_below(words, self.table.undo(session), pairs) {
                return false;
            }
        }
        true
    }

    /// Scans the least page in which a gray object starts, if a collection runs. If no object is gray it ends the collection.
    pub(crate) fn scan<D: Disk>(&mut self, disk: &mut D) -> Result<Reply, StepError>
        requires works { HasNotFailed self.old }
        requires within { LiesWithin self.old (D.extent disk.old) }
        ensures calls { MakesNoCall D.Disk disk.old self.new disk.new result }
        ensures reply { IfOk result (λ reply. (next : Option ℕ) × IsNextPage self.old.collection next × (reply ≡ reply_of (scan_refusal (memory self.old) next) (scan_reply (memory self.old) next))) }
        ensures scanned { (page objects words : ℕ) → result ≡ Ok (Scanned page objects words) → Scans (memory self.old) (memory self.new) (Some page) }
        ensures collected { (used : ℕ) → result ≡ Ok (Collected used) → Scans (memory self.old) (memory self.new) None }
        ensures still { result ≡ Ok Idle → self.new ≡ self.old }
        ensures refused { (why : _) → result ≡ Ok (Reply.Refused why) → IsAsItWas (memory self.old) (memory self.new) }
        ensures err { OnErr result (IsAsItWas (memory self.old) (memory self.new)) }
    {
        match &self.collection {
            None => Ok(Reply::Idle),
            Some(collection) => match next_gray_page(collection) {
                Some(page) => self.scan_page(disk, page),
                None => self.end_collection(disk),
            },
        }
    }

    /// Scans a page of the current space.
    fn scan_page<D: Disk>(&mut self, disk: &mut D, page: u32) -> Result<Reply, StepError>
        requires works { HasNotFailed self.old }
        requires within { LiesWithin self.old (D.extent disk.old) }
        requires next { IsNextPage self.old.collection (Some page) }
        ensures calls { MakesNoCall D.Disk disk.old self.new disk.new result }
        ensures reply { IfOk result (λ reply. reply ≡ reply_of (scan_refusal (memory self.old) (Some page)) (scan_reply (memory self.old) (Some page))) }
        ensures scanned { (objects words : ℕ) → result ≡ Ok (Scanned page objects words) → Scans (memory self.old) (memory self.new) (Some page) }
        ensures refused { (why : _) → result ≡ Ok (Reply.Refused why) → IsAsItWas (memory self.old) (memory self.new) }
        ensures err { OnErr result (IsAsItWas (memory self.old) (memory self.new)) }
    {
        // Gray objects start in the current space.
        let _end = self.spaces.next_free();
        let scan = self.plan_page(page)?;
        if let Some(why) = self.make_room_for(&scan)? {
            return Ok(refused(why));
        }
        keep_copies(&mut self.collection, scan.copies())?;
        note_scan(&mut self.spaces, &mut self.collection, &scan);
        let reply = Reply::Scanned {
            page: u64::from(page),
            objects: scan.copies().len() as u64,
            words: scan.copied_words(),
        };
        carry_out(&mut self.pages, disk, &scan)?;
        Ok(reply)
    }

    /// Ends a collection in which no object is gray: the from-space has nothing that is in use.
    fn end_collection<D: Disk>(&mut self, disk: &mut D) -> Result<Reply, StepError>
        requires works { HasNotFailed self.old }
        requires within { LiesWithin self.old (D.extent disk.old) }
        requires runs { IsSome self.old.collection }
        requires none { IsNextPage self.old.collection None }
        ensures calls { MakesNoCall D.Disk disk.old self.new disk.new result }
        ensures reply { IfOk result (λ reply. reply ≡ reply_of (scan_refusal (memory self.old) None) (scan_reply (memory self.old) None)) }
        ensures collected { (used : ℕ) → result ≡ Ok (Collected used) → Scans (memory self.old) (memory self.new) None }
        ensures refused { (why : _) → result ≡ Ok (Reply.Refused why) → IsAsItWas (memory self.old) (memory self.new) }
        ensures err { OnErr result (IsAsItWas (memory self.old) (memory self.new)) }
    {
        let records = [Record::Collected];
        if let Some(why) = self.make_room(log_records::length(&Record::Collected))? {
            return Ok(refused(why));
        }
        self.spaces.collected();
        self.collection = None;
        carry_out(&mut self.pages, disk, &Listed { records: &records })?;
        Ok(Reply::Collected {
            used: u64::from(self.spaces.used()),
        })
    }
}

/// Whether each of these writes is of a field that lies below an address when objects have moved.
fn lie_below(end: u64, entries: &[UndoEntry], pairs: &[(u32, u32)]) -> bool
    requires { IsRelocation pairs.now }
    ensures { IsTrue result ↔ WroteBelow end (translated_list pairs.now entries.now) }
{
    for UndoEntry { object, field, .. } in entries {
        let address = u64::from(moved_to(pairs, *object));
        if address + u64::from(FIELDS_AT) + u64::from(*field) >= end {
            return false;
        }
    }
    true
}

/// The two spaces change their roles, and the words of these copies are taken. It returns how many there are, and of how many words.
fn change_spaces(spaces: &mut Spaces, plan: &FlipPlan) -> Reply
    requires { copied_size plan.now ≤ spaces.old.used }
    ensures reply { result ≡ Flipped (length plan.now) (copied_size plan.now) }
    ensures spaces { spaces.new ≡ with_copied (flipped spaces.old) (copied_size plan.now) }
{
    spaces.flip();
    take_copies(spaces, plan.moved());
    Reply::Flipped {
        objects: plan.moved().len() as u64,
        words: u64::from(spaces.used()),
    }
}
