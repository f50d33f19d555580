//! A seal: what has become reachable from a stable field is promoted, and the transaction is committed.
ghost use Rattle.std.specs.Prelude.{◌≡◌, ◌↔◌, ◌+◌, ◌<◌, ◌≤◌, ◌^◌, length, Ok, OnErr, IfOk, IfSome, IsSome};
ghost use Rattle.gated_log.specs.LogState.{log_room, log_used_with, HasSpare};
ghost use Rattle.graph_model.specs.Plain.{reply_of};
ghost use Rattle.graph_model.specs.declared.reply.Reply.TheVariants.{Sealed};
ghost use Rattle.heap_memory.specs.Memory.{own};
ghost use Rattle.heap_memory.specs.Refusals.{space_refusal};
ghost use Rattle.heap_spaces.specs.Spaces.{open_words};
ghost use Rattle.log_machine.specs.Effect.{EachWritesBelow};
ghost use Rattle.log_records.specs.Record.{spellings};
ghost use Rattle.logged_pages.specs.State.{log_of, pages_in_memory};
ghost use Rattle.heap_engine.specs.Ending.{SealsAlone, is_settled};
ghost use Rattle.std.specs.List.{list_all};
ghost use Rattle.heap_engine.specs.Seal.{IsFound, IsSealOf};

use crate::carrying::carry_out;
use crate::engine::{Engine, refused};
use crate::log_room::{bytes_of, reserve_room};
use crate::step_error::StepError;
use disk_model::Disk;
use graph_model::{Refusal, Reply};
use heap_spaces::Spaces;
use heap_words::{FIELDS_AT, is_volatile};
use log_machine::UndoEntry;
use log_records::Record;
use logged_pages::Listed;
use sealing::Sealing;
use std::alloc::AllocError;

/// Why the current space has no room for `need` words.
fn space_refusal(spaces: &Spaces, need: u64) -> Option<Refusal>
    ensures { result ≡ space_refusal spaces.now need }
{
    let free = spaces.free();
    let owed = spaces.owed();
    if need > u64::from(free - owed) {
        Some(Refusal::Exhausted {
            need,
            free: u64::from(free),
            owed: u64::from(owed),
        })
    } else {
        None
    }
}

/// Whether no field of these writes refers to an object of a transaction's area.
pub(crate) fn are_settled(words: &[u64], undo: &[UndoEntry]) -> bool
    ensures { result ≡ list_all (is_settled words.now) undo.now }
{
    undo.iter().all(|entry| is_settled(words, entry))
}

fn is_settled(words: &[u64], entry: &UndoEntry) -> bool
    ensures { result ≡ is_settled words.now entry.now }
{
    let at = entry.object as usize + FIELDS_AT as usize + usize::from(entry.field);
    let word = words.get(at).copied().unwrap_or(0);
    !is_volatile(word)
}

impl Engine {
    ghost use Rattle.heap_memory.specs.Refusals.{seal_refusal, sealing_records, reserved_without};
    ghost use Rattle.heap_memory.specs.Leaves.{IsAsItWas, Seals};
    ghost use Rattle.heap_engine.specs.EngineState.{memory, HasNotFailed, LiesWithin};
    ghost use Rattle.heap_engine.specs.NoCall.{MakesNoCall};

    /// Seals the transaction, and returns how many have been sealed since the heap was opened. What its writes have made reachable from the
    /// objects of the current space is promoted, and its locks are free again. If nothing is promoted it does not allocate.
    pub(crate) fn seal<D: Disk>(&mut self, disk: &mut D, session: u32) -> Result<Reply, StepError>
        requires works { HasNotFailed self.old }
        requires within { LiesWithin self.old (D.extent disk.old) }
        ensures calls { MakesNoCall D.Disk disk.old self.new disk.new result }
        ensures reply { IfOk result (λ reply. reply ≡ reply_of (seal_refusal (memory self.old) session) (Sealed (self.old.sealed + 1))) }
        ensures sealed { (number : _) → result ≡ Ok (Sealed number) → Seals (memory self.old) (memory self.new) session }
        ensures refused { (why : _) → result ≡ Ok (Reply.Refused why) → IsAsItWas (memory self.old) (memory self.new) }
        ensures err { OnErr result (IsAsItWas (memory self.old) (memory self.new)) }
        ensures alone { SealsAlone (memory self.old) (own (memory self.old) session) → result ≡ Ok (Sealed (self.old.sealed + 1)) }
    {
        if !self.table.active(session) {
            return Ok(refused(Refusal::NotActive));
        }
        if self.seals_alone(session) {
            let t = self.table.area(session).transaction();
            return self.append_seal(disk, session, 0, &[Record::Commit { t }]);
        }
        let sealing = self.sealing(session)?;
        if let Some(why) = space_refusal(&self.spaces, sealing.need()) {
            return Ok(refused(why));
        }
        let records = self.seal_records(session, &sealing)?;
        let others = self.reserved_without(session);
        let bytes = bytes_of(&records);
        if let Some(why) = reserve_room(&mut self.pages, bytes, others)? {
            return Ok(refused(why));
        }
        self.append_seal(disk, session, sealing.need(), &records)
    }

    /// Appends the records of a seal, which takes `need` words of the current space, and ends the transaction. There is room and memory for
    /// them, and for the ends of the others.
    fn append_seal<D: Disk>(
        &mut self,
        disk: &mut D,
        session: u32,
        need: u64,
        records: &[Record],
    ) -> Result<Reply, StepError>
        requires active { IsSome (own (memory self.old) session) }
        requires seals { IfSome (own (memory self.old) session) (λ t. IsSealOf (memory self.old) t need records.now) }
        requires space { need ≤ open_words self.old.spaces }
        requires inside { EachWritesBelow (length (pages_in_memory self.old.pages).words) records.now }
        requires room { IfSome (own (memory self.old) session) (λ t. log_used_with (log_of self.old.pages) (length (spellings records.now)) + reserved_without self.old.table t ≤ log_room (log_of self.old.pages)) }
        requires memory { IfSome (own (memory self.old) session) (λ t. HasSpare (log_of self.old.pages) (length (spellings records.now) + reserved_without self.old.table t)) }
        requires works { HasNotFailed self.old }
        requires within { LiesWithin self.old (D.extent disk.old) }
        ensures calls { MakesNoCall D.Disk disk.old self.new disk.new result }
        ensures reply { result ≡ Ok (Sealed (self.old.sealed + 1)) }
        ensures sealed { Seals (memory self.old) (memory self.new) session }
    {
        let others = self.reserved_without(session);
        carry_out(&mut self.pages, disk, &Listed { records })?;
        let _taken = self.spaces.take(need);
        self.locks.release(self.table.number(session));
        self.table.end(session);
        self.reserved = others;
        self.sealed += 1;
        Ok(Reply::Sealed { n: self.sealed })
    }

    /// What the seal of the transaction promotes.
    fn sealing(&self, session: u32) -> Result<Sealing, AllocError>
        requires { IsSome (own (memory self.now) session) }
        ensures { IfOk result (λ found. IfSome (own (memory self.now) session) (λ t. IsFound (memory self.now) t found)) }
    {
        let area = self.table.area(session);
        let undo = self.table.undo(session);
        Sealing::new(self.alloc, area, self.pages.as_slice(), undo)
    }

    /// The records of the seal of the transaction, which promotes this.
    fn seal_records(&self, session: u32, sealing: &Sealing) -> Result<Vec<Record>, AllocError>
        requires active { IsSome (own (memory self.now) session) }
        requires found { IfSome (own (memory self.now) session) (λ t. IsFound (memory self.now) t sealing.now) }
        requires room { sealing.now.need ≤ open_words self.now.spaces }
        ensures records { IfOk result (λ records. IfSome (own (memory self.now) session) (λ t. records.items ≡ sealing_records (memory self.now) t)) }
        ensures inside { IfOk result (λ records. EachWritesBelow (length (pages_in_memory self.now.pages).words) records.items) }
        ensures few { IfOk result (λ records. length (spellings records.items) < 2 ^ 32 + 2 ^ 24) }
    {
        let area = self.table.area(session);
        let address = self.spaces.next_free();
        sealing.records(self.alloc, area, self.pages.as_slice(), address)
    }
}
