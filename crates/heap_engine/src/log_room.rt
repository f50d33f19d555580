//! What the log has room for.
ghost use Rattle.std.specs.Prelude.{◌≡◌, ◌+◌, ◌<◌, ◌≤◌, ◌^◌, length, Ok, None, IfOk, IfSome, IsSome};
ghost use Rattle.gated_log.specs.LogState.{log_need, log_room, log_used_with, HasSpare, IsSameLog, KeepsMemory};
ghost use Rattle.log_records.specs.Record.{spellings};
ghost use Rattle.logged_pages.specs.State.{cache_of, has_failed, log_of};
ghost use Rattle.log_machine.specs.Machine.{end_bytes};
ghost use Rattle.heap_memory.specs.Memory.{own, reserved};
ghost use Rattle.heap_memory.specs.Leaves.{IsAsItWas};
ghost use Rattle.heap_memory.specs.Refusals.{no_room};

use crate::engine::Engine;
use graph_model::Refusal;
use log_machine::end_bytes;
use log_records::{BATCH_BYTES, PUT_BYTES, Record};
use logged_pages::LoggedPages;
use std::alloc::AllocError;

/// The bytes that are kept to take a write back: those of an `Undo`.
pub(crate) const UNDO_BYTES: u64 = PUT_BYTES as u64;

/// Why the log has no room for an event, if it hasn't: by the bytes that the event needs, and those kept after it.
pub(crate) fn log_refusal(pages: &LoggedPages, need: u64, reserved: u64) -> Option<Refusal>
    requires need { need < 2 ^ 33 }
    requires reserved { reserved < 2 ^ 33 }
    ensures { result ≡ no_room (log_of pages.now) need reserved }
{
    let used = pages.used();
    if used + need + reserved > pages.room() {
        Some(Refusal::LogFull {
            used,
            need,
            reserved,
        })
    } else {
        None
    }
}

/// What `bytes` bytes of records need, with the bytes of a batch if no record is pending.
fn need_of(pages: &LoggedPages, bytes: u64) -> u64
    requires { bytes < 2 ^ 32 + 2 ^ 24 }
    ensures { result ≡ log_need (log_of pages.now) bytes }
{
    if pages.pending() {
        bytes
    } else {
        bytes + BATCH_BYTES as u64
    }
}

/// Makes room for `bytes` bytes of records, and for the `kept` bytes that end transactions after them: takes the memory, or reports why the log has no
/// room.
pub(crate) fn reserve_room(
    pages: &mut LoggedPages,
    bytes: u64,
    kept: u64,
) -> Result<Option<Refusal>, AllocError>
    requires few { bytes < 2 ^ 32 + 2 ^ 24 }
    requires kept { kept < 2 ^ 33 }
    ensures why { IfOk result (λ why. why ≡ no_room (log_of pages.old) (log_need (log_of pages.old) bytes) kept) }
    ensures memory { result ≡ Ok None → HasSpare (log_of pages.new) (bytes + kept) }
    ensures room { result ≡ Ok None → log_used_with (log_of pages.new) bytes + kept ≤ log_room (log_of pages.new) }
    ensures same { IsSameLog (log_of pages.old) (log_of pages.new) }
    ensures keeps { KeepsMemory (log_of pages.old) (log_of pages.new) }
    ensures cache { cache_of pages.new ≡ cache_of pages.old }
    ensures failed { has_failed pages.new ≡ has_failed pages.old }
{
    if let Some(why) = log_refusal(pages, need_of(pages, bytes), kept) {
        return Ok(Some(why));
    }
    pages.reserve((bytes + kept) as usize)?;
    Ok(None)
}

impl Engine {
    ghost use Rattle.heap_memory.specs.Refusals.{reserved_without};
    ghost use Rattle.heap_engine.specs.EngineState.{memory};

    /// Makes room for `bytes` bytes of records, besides what ends all transactions, or reports why the log has none for them. What is kept for
    /// transactions stays.
    pub(crate) fn make_room(&mut self, bytes: u64) -> Result<Option<Refusal>, AllocError>
        requires few { bytes < 2 ^ 32 + 2 ^ 24 }
        ensures why { IfOk result (λ why. why ≡ no_room (log_of self.old.pages) (log_need (log_of self.old.pages) bytes) (reserved self.old.table)) }
        ensures memory { result ≡ Ok None → HasSpare (log_of self.new.pages) (bytes + self.new.reserved) }
        ensures room { result ≡ Ok None → log_used_with (log_of self.new.pages) bytes + self.new.reserved ≤ log_room (log_of self.new.pages) }
        ensures same { IsAsItWas (memory self.old) (memory self.new) }
        ensures cache { cache_of self.new.pages ≡ cache_of self.old.pages }
        ensures failed { has_failed self.new.pages ≡ has_failed self.old.pages }
    {
        reserve_room(&mut self.pages, bytes, self.reserved)
    }

    /// The bytes that are kept for the ends of all transactions but that of the session, when it ends.
    pub(crate) fn reserved_without(&self, session: u32) -> u64
        requires { IsSome (own (memory self.now) session) }
        ensures without { IfSome (own (memory self.now) session) (λ t. result ≡ reserved_without self.now.table t) }
        ensures kept { IfSome (own (memory self.now) session) (λ t. result + end_bytes (length t.undo) ≡ self.now.reserved) }
    {
        let writes = self.table.undo(session).len() as u64;
        self.reserved - end_bytes(writes)
    }
}

/// The bytes of these records.
pub(crate) fn bytes_of(records: &[Record]) -> u64
    requires { length (spellings records.now) < 2 ^ 32 + 2 ^ 24 }
    ensures { result ≡ length (spellings records.now) }
{
    let mut bytes = 0;
    for rec in records {
        bytes += log_records::length(rec);
    }
    bytes
}
