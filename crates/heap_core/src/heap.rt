//! The heap: events on an image, each of them one step.
ghost use Rattle.std.specs.Prelude.{◌≡◌, ◌≢◌, ◌↔◌, ◌+◌, ◌<◌, ℕ, [], ◌∷◌, ◌++◌, length, min, is_some, true, None, Ok, Err, IsTrue, IsOk, IfOk, IfErr, MatchResult, OnErr};
ghost use Rattle.counts.specs.Count.{greatest};
ghost use Rattle.disk_model.specs.Disk.{Only};
ghost use Rattle.disk_model.specs.Keeps.{KeepsDisk};
ghost use Rattle.disk_model.specs.Moments.{LeavesOnly};
ghost use Rattle.gate_slot.specs.Passing.{Passes};
ghost use Rattle.graph_model.specs.Graph.{Graph};
ghost use Rattle.graph_model.specs.Canon.{canon};
ghost use Rattle.graph_model.specs.Text.{canon_text};
ghost use Rattle.graph_model.specs.History.{IsOfSession};
ghost use Rattle.graph_model.specs.History.{account, commits, sealed};
ghost use Rattle.graph_model.specs.Transaction.{serial, serial_replies};
ghost use Rattle.image_plan.specs.declared.superblock.Super.{Super};
ghost use Rattle.heap_model.specs.Image.{StoredHeap, IsShapedLog, IsShaped, IsLegal};
ghost use Rattle.graph_words.specs.Places.{Places};
ghost use Rattle.heap_model.specs.Opening.{opened, IsFound};
ghost use Rattle.heap_core.specs.Ending.{EndsAsTold, TakesNoMemory};
ghost use Rattle.limit_laws.specs.Room.{IsEnd};
ghost use Rattle.heap_core.specs.Causes.{step_device, reply_device, opened_outcome};
ghost use Rattle.heap_model.specs.Core.{Core, IsStep, calls, cut, is_dirty};
ghost use Rattle.page_store.specs.Gates.{open_gates};
ghost use Rattle.core_laws.specs.Valid.{IsReached};
ghost use Rattle.heap_engine.specs.EngineState.{memory, LiesWithin};
ghost use Rattle.heap_engine.specs.Refinement.{IsLeftByStep};
ghost use Rattle.commit_order.specs.Heard.{replies_of_commits};
ghost use Rattle.heap_core.specs.Collects.{CollectsAsTold};
ghost use Rattle.commit_order.specs.SerialOrder.{IsCommitOrdered};

use crate::errors::{GraphError, OpenError};
use crate::in_memory::HeapCore;
use disk_model::Disk;
use graph_model::{Event, Reply};
use heap_engine::Engine;
use heap_history::History;
use heap_recovery::{Recovered, recover};
use logged_pages::LoggedPages;
use std::alloc::{AllocError, Global};
use txn_table::TxnTable;

/// A heap on a disk, for sessions 1 to 32 side by side.
#[derive(Debug, Drop)]
pub struct Heap<D: Disk> {
    disk: D,
    core: HeapCore,
    ghost inside: { LiesWithin core.engine (D.extent disk) },
}

impl<D: Disk> Heap<D> {
    ghost use Rattle.heap_core.specs.HeapState.{opened_disk, heap_disk, failed_at, entries_of, history_of};
    ghost use Rattle.heap_core.specs.Refinement.{IsCore, IsCoreOfLog, IsHeap};
    ghost use Rattle.heap_recovery.specs.Opens.{OpensImage};

    /// Opens the heap on the disk. An error gives the disk back. `NotHeap` and `Damaged` report the first fault of its image, and the disk is then
    /// unchanged, except for a fault at an address: that is reported after the rollback was forced.
    pub fn open(alloc: Global, mut disk: D) -> Result<Heap<D>, (OpenError, D)>
        ensures image { OpensImage D.Disk disk (opened_disk result) (opened_outcome result) }

        // What is opened is the core that a shaped log encodes beside stored pages: the log and the pages that were read.
        ensures opens { IfOk result (λ heap. (stored : StoredHeap) × (gates : ℕ → ℕ) × (shaped : IsShapedLog stored) × IsCoreOfLog stored shaped gates heap) }

        ensures unfailed { IfOk result (λ heap. failed_at heap ≡ None) }

        // On a modelled disk they are those of its image.
        ensures sound { IsTrue D.tells → IfOk result (λ heap. (stored : StoredHeap) × (shaped : IsShaped stored (D.bytes disk)) × IsCoreOfLog stored shaped.log (open_gates stored.super.log_bytes (D.bytes disk)) heap) }
        // Of a shaped image they are the log and the pages that the disk holds; if that is legal the disk then holds the core.
        ensures found { IsTrue D.tells → (stored : StoredHeap) → (shaped : IsShaped stored (D.bytes disk)) → IfOk result (IsCoreOfLog stored shaped.log (open_gates stored.super.log_bytes (D.bytes disk))) }
        ensures holds { IsTrue D.tells → (stored : StoredHeap) → (legal : IsLegal stored (D.bytes disk)) → Only (D.bytes disk) (D.may_leave disk) → IfOk result (λ heap. (places : Places) (g : Graph) → IsFound stored legal.log.shaped true places g → IsHeap stored.super (opened stored (open_gates stored.super.log_bytes (D.bytes disk)) true places g) heap) }
    {
        // The table is allocated before the disk is written.
        let mut table = match TxnTable::new(alloc) {
            Ok(table) => table,
            Err(_) => return Err((OpenError::NoMemory, disk)),
        };
        match recover(alloc, &mut disk) {
            Ok(found) => {
                let Recovered { log, cache, state } = found;
                table.set_next(state.next());
                let commits = state.commits();
                let spaces = state.spaces();
                let collection = state.into_collection();
                let pages = LoggedPages::new(log, cache);
                let engine = Engine::new(alloc, pages, spaces, collection, table);
                let core = HeapCore::new(alloc, engine, commits);
                Ok(Heap { disk, core })
            }
            Err(e) => Err((OpenError::from(e), disk)),
        }
    }

    /// Makes one step and returns the reply to the event, whose session, if it has one, is from 1 to 32. If memory runs out, nothing changes. Until the
    /// disk fails, the abort of a transaction never runs out of memory, nor does a seal that promotes nothing, or a force of unacknowledged commits.
    pub fn step(&mut self, event: Event) -> Result<Reply, AllocError>
        requires { IsOfSession event }
        ensures disk { KeepsDisk D.Disk self.old.disk self.new.disk (step_device result) }
        // On every disk an answer adds the entry of this event and reply, and an error adds none.
        ensures recorded { MatchResult result (λ reply. history_of self.new ≡ history_of self.old ++ record { event = event; reply = reply } ∷ []) (λ _. history_of self.new ≡ history_of self.old) }

        // Each event is a step of the core that the heap is.
        ensures core { (c : Core) → IsCore c self.old → IsReached c → IfOk result (λ reply. (d : Core) × IsStep c event reply d × IsCore d self.new) }
        ensures kept { (c : Core) → IsCore c self.old → OnErr result (IsCore c self.new) }
        ensures untouched { OnErr result (self.new.disk ≡ self.old.disk) }

        // The same holds for what a modelled disk holds.
        ensures holds { IsTrue D.tells → (s : Super) (c : Core) → IsHeap s c self.old → IsReached c → IfOk result (λ reply. (d : Core) × IsStep c event reply d × IsHeap s d self.new) }
        // At each moment of it a crash leaves a commit prefix with all that were acknowledged or forced before, and each byte past the plan as it was. A
        // seal that makes device calls is in doubt in them.
        ensures moments { IsTrue D.tells → (s : Super) (c : Core) → IsHeap s c self.old → IsReached c → LeavesOnly D.moment D.left_since self.old.disk self.new.disk (IsLeftByStep (cut c event) (D.bytes self.old.disk)) }
        ensures passes { IsTrue D.tells → (c : Core) → IsCore c self.old → IsReached c → IfOk result (λ reply. Passes (calls c event) (D.passed self.old.disk) (D.passed self.new.disk) (reply_device reply)) }
        // An event that makes no write or sync leaves the disk alone, and does not read it either.
        ensures still { (c : Core) → IsCore c self.old → IsReached c → calls c event ≡ 0 → self.new.disk ≡ self.old.disk }
        // Each event but a flip copies at most 576 objects, and a collection that began since the opening exactly what was reached at its flip,
        // whichever transactions were active then.
        ensures collects { (c : Core) → IsCore c self.old → IsReached c → IfOk result (λ reply. CollectsAsTold c event reply) }
        // An abort, a force, and a seal that makes no object stable are never refused because the log or a space has no room for them.
        ensures ends { (c : Core) → IsCore c self.old → IsReached c → IsEnd c event → IfOk result (λ reply. EndsAsTold c event reply) }
        // When memory runs out, transactions can still be ended and commits forced.
        ensures memory { (c : Core) → IsCore c self.old → IsReached c → (account c.history).failed ≡ None → TakesNoMemory c event → IsOk result }
    {
        self.core.step_on(&mut self.disk, event)
    }

    /// The entries since the heap was opened.
    pub fn history(&self) -> &History
        ensures value { entries_of result.now ≡ history_of self.now }
        ensures entries { (c : Core) → IsCore c self.now → entries_of result.now ≡ c.history }

        // However the sessions' events interleave, each sealed transaction had the replies of the run in which these follow one another in the
        // order of their seals, and each active one has had so far those that it would have as the next.
        ensures serial { (c : Core) → IsCore c self.now → IsReached c → IsCommitOrdered c.g0 (entries_of result.now) }
        // So each commit had the replies of that run, also after the disk has failed.
        ensures committed { (c : Core) → IsCore c self.now → IsReached c → replies_of_commits (entries_of result.now) ≡ serial_replies c.g0 (commits (entries_of result.now)) }
    {
        self.core.history()
    }

    /// The entry, from 1, at which the disk failed or stopped.
    pub fn failed(&self) -> Option<u64>
        ensures value { result ≡ failed_at self.now }
        ensures exact { (c : Core) → IsCore c self.now → result ≡ (account c.history).failed }
    {
        self.core.failed()
    }

    /// How many transactions are committed since the heap was made, up to the limit of 64 bits.
    pub fn commits(&self) -> u64
        ensures { (c : Core) → IsCore c self.now → result ≡ min (c.before + length (sealed c.history)) greatest }
    {
        self.core.commits()
    }

    /// Whether records have been appended that are not known to be on the disk. If it stopped or failed in an event, they are those
    /// that were pending before it.
    pub fn pending(&self) -> bool
        ensures { (c : Core) → IsCore c self.now → IsTrue result ↔ (c.pending ≢ []) }
    {
        self.core.pending()
    }

    /// Whether page `p` has changed since it was stored, in memory or by what an opening redid and rolled back. There are two spaces of
    /// pages; a page past these has not. Requires that the disk has neither failed nor stopped.
    pub fn dirty(&self, p: u32) -> bool
        requires unfailed { failed_at self.now ≡ None }
        ensures { (c : Core) → IsCore c self.now → result ≡ is_dirty c p }
    {
        self.core.dirty(p)
    }

    /// Whether a session, of 1 to 32, has a transaction. No other number has one.
    pub fn active(&self, session: u32) -> bool
        ensures { (c : Core) → IsCore c self.now → result ≡ is_some ((account c.history).active session) }
    {
        self.core.active(session)
    }

    /// The text of the graph, without what active transactions wrote. Requires that the disk has neither failed nor stopped.
    pub fn graph(&self, alloc: Global) -> Result<Vec<u8>, GraphError>
        requires unfailed { failed_at self.now ≡ None }
        ensures text { (c : Core) → IsCore c self.now → IsReached c → IfOk result (λ text. text.items ≡ canon_text (canon (serial c.g0 (sealed c.history)))) }
        ensures error { (c : Core) → IsCore c self.now → IsReached c → IfErr result (λ e. e ≡ GraphError.NoMemory) }
    {
        self.core.graph(alloc)
    }

    /// How many objects that graph has; no text is made. Requires that the disk has neither failed nor stopped.
    pub fn objects(&self, alloc: Global) -> Result<u64, GraphError>
        requires unfailed { failed_at self.now ≡ None }
        ensures count { (c : Core) → IsCore c self.now → IsReached c → IfOk result (λ count. count ≡ length (canon (serial c.g0 (sealed c.history)))) }
        ensures error { (c : Core) → IsCore c self.now → IsReached c → IfErr result (λ e. e ≡ GraphError.NoMemory) }
    {
        self.core.objects(alloc)
    }

    /// Takes the heap apart: its steps can be made on its disk further on.
    pub fn into_parts(self) -> (HeapCore, D)
        ensures parts { result ≡ (self.core, self.disk) }
        ensures inside { LiesWithin result.0.engine (D.extent result.1) }
    {
        let Heap { disk, core } = self;
        (core, disk)
    }

    /// Gives the disk back.
    pub fn close(self) -> D
        ensures { result ≡ heap_disk self }
    {
        let Heap { disk, core: _ } = self;
        disk
    }
}
