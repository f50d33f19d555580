//! The engine of an open heap: what it keeps in memory, and its one call, which makes an event.
ghost use Rattle.std.specs.Prelude.{◌≡◌, ◌≢◌, ◌+◌, ◌≤◌, length, Ok, Err, IfOk, IsTrue, IsSome, ◌↔◌};
ghost use Rattle.disk_model.specs.Keeps.{KeepsDisk};
ghost use Rattle.gated_log.specs.LogState.{log_room, log_used, is_waiting, HasSpare};
ghost use Rattle.graph_model.specs.History.{account};
ghost use Rattle.graph_model.specs.History.{IsOfSession};
ghost use Rattle.log_machine.specs.Machine.{words_in};
ghost use Rattle.logged_pages.specs.State.{cache_of, frames_of, log_of, pages_in_memory};
ghost use Rattle.page_cache.specs.CacheState.{cache_pages};
ghost use Rattle.heap_spaces.specs.Collection.{owed_by};
ghost use Rattle.txn_table.specs.Table.{new_table};
ghost use Rattle.heap_memory.specs.Memory.{own};
ghost use Rattle.heap_model.specs.Core.{Core, is_dirty};
ghost use Rattle.memory_laws.specs.CoreMemory.{IsMemory};
ghost use Rattle.heap_engine.specs.Barrier.{IsSoundIn};
ghost use Rattle.heap_engine.specs.Ending.{NeedsNoMemory, SealsAlone, Ends};
ghost use Rattle.heap_engine.specs.Reserve.{AreSound};
ghost use Rattle.heap_engine.specs.StepResult.{engine_device, reply_device};

use crate::seal::are_settled;
use crate::step_error::StepError;
use disk_model::Disk;
use graph_model::{Event, Refusal, Reply};
use heap_spaces::{Collection, Spaces};
use logged_pages::LoggedPages;
use object_locks::LockTable;
use std::alloc::Global;
use txn_table::TxnTable;

/// What an open heap keeps in memory.
#[derive(Debug, Drop)]
pub struct Engine {
    pub(crate) alloc: Global,
    /// The log with its pending records, and the pages of both spaces.
    pub(crate) pages: LoggedPages,
    /// Which words of the current space are taken.
    pub(crate) spaces: Spaces,
    /// The collection that runs, if one does.
    pub(crate) collection: Option<Collection>,
    /// The transactions of the sessions that have not ended, and the next one's number.
    pub(crate) table: TxnTable,
    /// The locks that these hold on objects of the current space.
    pub(crate) locks: LockTable,
    /// The log's bytes that are kept for the ends of all these transactions.
    pub(crate) reserved: u64,
    /// How many transactions were sealed since the heap was opened.
    pub(crate) sealed: u64,
    // What a collection owes is kept free.
    ghost owed: { spaces.owed ≡ owed_by collection },
    // What is gray stands in the words that are taken.
    ghost gray: { IsSoundIn spaces collection },
    // The log has room for what is kept.
    ghost room: { log_used (log_of pages) + reserved ≤ log_room (log_of pages) },
    // There is memory for it too.
    ghost spare: { HasSpare (log_of pages) reserved },
    ghost sound: { AreSound table (length (pages_in_memory pages).words) reserved sealed },
    ghost sized: { length (pages_in_memory pages).words ≡ words_in spaces.pages },
    ghost few: { length (pages_in_memory pages).words ≤ 2097152 },
    // As many pages may be dirty as there are.
    ghost whole: { cache_pages (cache_of pages) ≤ frames_of pages },
}

/// The answer of an event that is refused.
pub(crate) fn refused(why: Refusal) -> Reply
    ensures { result ≡ Reply.Refused why }
{
    Reply::Refused { why }
}

impl Engine {
    ghost use Rattle.heap_engine.specs.EngineState.{memory, opened, LiesWithin, HasNotFailed};
    ghost use Rattle.heap_engine.specs.Refinement.{Steps, StepsOn};
    ghost use Rattle.heap_engine.specs.declared.step_error.StepError.TheVariants.{NoMemory};

    /// The engine of a heap that was just opened: no session has a transaction, and a collection that runs continues. Does not allocate.
    pub fn new(
        alloc: Global,
        pages: LoggedPages,
        spaces: Spaces,
        collection: Option<Collection>,
        table: TxnTable,
    ) -> Engine
        requires number { 1 ≤ table.next }
        requires idle { table ≡ new_table table.next }
        requires sized { length (pages_in_memory pages).words ≡ words_in spaces.pages }
        requires few { spaces.pages ≤ 16384 }
        requires owed { spaces.owed ≡ owed_by collection }
        requires gray { IsSoundIn spaces collection }
        requires whole { cache_pages (cache_of pages) ≤ frames_of pages }
        ensures memory { memory result ≡ opened pages spaces collection table.next }
        ensures pages { result.pages ≡ pages }
    {
        Engine {
            alloc,
            pages,
            spaces,
            collection,
            table,
            locks: LockTable::new(alloc),
            reserved: 0,
            sealed: 0,
        }
    }

    /// Makes an event on the disk that the engine was opened from, and returns the reply. Its session, if it has one, is from 1 to 32. If the disk
    /// fails or stops, no other event may follow.
    pub fn step_on<D: Disk>(&mut self, disk: &mut D, event: Event) -> Result<Reply, StepError>
        requires session { IsOfSession event }
        requires inside { LiesWithin self.old (D.extent disk.old) }
        requires works { HasNotFailed self.old }
        ensures inside { LiesWithin self.new (D.extent disk.new) }
        ensures works { engine_device result ≡ Ok tt → HasNotFailed self.new }
        ensures disk { KeepsDisk D.Disk disk.old disk.new (engine_device result) }
        // A reply reports no failure of the disk.
        ensures answered { IfOk result (λ reply. reply_device reply ≡ Ok tt) }
        // It is a step of the core that the engine is, and so is what a modelled disk holds.
        ensures core { Steps D.Disk event self.old disk.old self.new disk.new result }
        ensures holds { IsTrue D.tells → StepsOn D.Disk event self.old disk.old self.new disk.new result }
        // When memory runs out transactions can be aborted, or sealed if they promote nothing, and what is pending can be forced.
        ensures memory { NeedsNoMemory (memory self.old) event → result ≢ Err NoMemory }
        ensures ends { IfOk result (Ends (memory self.old) (memory self.new) event) }
    {
        match event {
            Event::Begin { s } => Ok(self.begin(s)?),
            Event::Root { s, h } => Ok(self.root(s, h)),
            Event::New { s, h, len } => Ok(self.make(s, h, len)?),
            Event::Put { s, h, i, v } => self.put(disk, s, h, i, v),
            Event::Clear { s, h, i } => self.clear(disk, s, h, i),
            Event::Link { s, h, i, h2 } => self.link(disk, s, h, i, h2),
            Event::Drop { s, h } => Ok(self.drop_handle(s, h)),
            Event::Get { s, h, i, h2 } => self.get(disk, s, h, i, h2),
            Event::Same { s, h, h2 } => Ok(self.same(s, h, h2)),
            Event::Len { s, h } => Ok(self.len(s, h)),
            Event::Seal { s } => self.seal(disk, s),
            Event::Abort { s } => self.abort(disk, s),
            Event::Force => self.force(disk),
            Event::Flip => self.flip(disk),
            Event::Scan => self.scan(disk),
            Event::Flush { p } => self.flush(disk, p),
        }
    }

    /// Whether a session has a transaction.
    pub fn active(&self, session: u32) -> bool
        ensures { IsTrue result ↔ IsSome (own (memory self.now) session) }
    {
        self.table.active(session)
    }

    /// Whether a session has a transaction whose seal promotes nothing. It takes time linear in what the transaction wrote.
    pub fn seals_alone(&self, session: u32) -> bool
        ensures { IsTrue result ↔ SealsAlone (memory self.now) (own (memory self.now) session) }
    {
        self.table.active(session) && are_settled(self.pages.as_slice(), self.table.undo(session))
    }

    /// How many transactions were sealed since the heap was opened.
    pub fn sealed(&self) -> u64
        ensures { result ≡ (memory self.now).sealed }
    {
        self.sealed
    }

    /// Whether records are pending: appended to the log, and not forced yet.
    pub fn pending(&self) -> bool
        ensures { result ≡ is_waiting (memory self.now).log }
    {
        self.pages.pending()
    }

    /// Whether there is a page `p`, which has changed since it was stored.
    pub fn dirty(&self, p: u32) -> bool
        ensures { (c : Core) → IsMemory (memory self.now) (account c.history) c → result ≡ is_dirty c p }
    {
        p < self.pages.pages() && self.pages.dirty(p)
    }
}
