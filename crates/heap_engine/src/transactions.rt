//! How the transaction of a session begins, and how it is aborted.
ghost use Rattle.std.specs.Prelude.{◌≡◌, ◌≤◌, Ok, OnErr, IfOk};
ghost use Rattle.graph_model.specs.Plain.{reply_of};
ghost use Rattle.graph_model.specs.declared.reply.Reply.TheVariants.{Begun, Aborted};
ghost use Rattle.heap_memory.specs.Memory.{own};

use crate::carrying::carry_out;
use crate::engine::{Engine, refused};
use crate::log_room::log_refusal;
use crate::step_error::StepError;
use disk_model::Disk;
use graph_model::{Refusal, Reply};
use log_machine::{LAST_NUMBER, end_bytes};
use logged_pages::TakenBack;
use std::alloc::AllocError;

/// The first number that no transaction has.
const NO_NUMBER: u32 = LAST_NUMBER + 1;

impl Engine {
    ghost use Rattle.heap_memory.specs.Refusals.{begin_refusal, end_refusal};
    ghost use Rattle.heap_memory.specs.Leaves.{IsAsItWas, Begins, Aborts};
    ghost use Rattle.heap_engine.specs.EngineState.{memory, HasNotFailed, LiesWithin};
    ghost use Rattle.heap_engine.specs.NoCall.{MakesNoCall};

    /// Begins a transaction of the session, a number from 1 to 32, and returns its number. The log keeps room for its end, and the memory.
    pub(crate) fn begin(&mut self, session: u32) -> Result<Reply, AllocError>
        requires first { 1 ≤ session }
        requires last { session ≤ 32 }
        ensures reply { IfOk result (λ reply. reply ≡ reply_of (begin_refusal (memory self.old) session) (Begun self.old.table.next)) }
        ensures begun { (n : _) → result ≡ Ok (Begun n) → Begins (memory self.old) (memory self.new) session }
        ensures refused { (why : _) → result ≡ Ok (Reply.Refused why) → self.new ≡ self.old }
        ensures err { OnErr result (IsAsItWas (memory self.old) (memory self.new)) }
        ensures works { HasNotFailed self.old → HasNotFailed self.new }
    {
        if self.table.active(session) {
            return Ok(refused(Refusal::AlreadyActive));
        }
        if self.table.next() == NO_NUMBER {
            return Ok(refused(Refusal::NumbersSpent));
        }
        let reserved = self.reserved + end_bytes(0);
        // It appends nothing, so it needs nothing of the log but what is kept.
        if let Some(why) = log_refusal(&self.pages, 0, reserved) {
            return Ok(refused(why));
        }
        self.pages.reserve(reserved as usize)?;
        let number = self.table.begin(session);
        self.reserved = reserved;
        Ok(Reply::Begun {
            n: u64::from(number),
        })
    }

    /// Takes back what the transaction wrote, and ends it: its locks are free again. Does not allocate.
    pub(crate) fn abort<D: Disk>(&mut self, disk: &mut D, session: u32) -> Result<Reply, StepError>
        requires works { HasNotFailed self.old }
        requires within { LiesWithin self.old (D.extent disk.old) }
        ensures calls { MakesNoCall D.Disk disk.old self.new disk.new result }
        ensures reply { result ≡ Ok (reply_of (end_refusal (own (memory self.old) session)) Aborted) }
        ensures aborted { result ≡ Ok Aborted → Aborts (memory self.old) (memory self.new) session }
        ensures refused { (why : _) → result ≡ Ok (Reply.Refused why) → self.new ≡ self.old }
    {
        if !self.table.active(session) {
            return Ok(refused(Refusal::NotActive));
        }
        let others = self.reserved_without(session);
        let t = self.table.number(session);
        let undo = self.table.undo(session);
        carry_out(&mut self.pages, disk, &TakenBack { t, undo })?;
        self.locks.release(t);
        self.table.end(session);
        self.reserved = others;
        Ok(Reply::Aborted)
    }
}
