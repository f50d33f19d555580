//! What an open heap keeps in memory: its events are made on the disk that it was opened from.
ghost use Rattle.std.specs.Prelude.{◌≡◌, ◌≢◌, ◌⊎◌, ◌↔◌, ◌+◌, ◌≤◌, ◌<◌, ℕ, [], ◌∷◌, ◌++◌, length, min, is_some, None, Some, Ok, Err, IsTrue, IsOk, IfOk, IfErr, MatchResult, OnOk, OnErr};
ghost use Rattle.counts.specs.Count.{greatest};
ghost use Rattle.disk_model.specs.Keeps.{KeepsDisk};
ghost use Rattle.disk_model.specs.Moments.{LeavesOnly};
ghost use Rattle.gate_slot.specs.Passing.{Passes};
ghost use Rattle.graph_model.specs.Graph.{Graph};
ghost use Rattle.graph_model.specs.Canon.{canon};
ghost use Rattle.graph_model.specs.Text.{canon_text};
ghost use Rattle.graph_model.specs.History.{IsOfSession};
ghost use Rattle.graph_model.specs.History.{account, commits, sealed};
ghost use Rattle.graph_model.specs.Transaction.{serial};
ghost use Rattle.graph_model.specs.declared.reply.Refusal.TheVariants.{DiskFault, Stopped};
ghost use Rattle.image_plan.specs.declared.superblock.Super.{Super};
ghost use Rattle.graph_model.specs.declared.id.Id.{Id};
ghost use Rattle.object_layout.specs.Layout.{IsSeenAs};
ghost use Rattle.heap_core.specs.Ending.{EndsAsTold, TakesNoMemory, IsReady, entries_kept};
ghost use Rattle.limit_laws.specs.Room.{IsEnd};
ghost use Rattle.heap_core.specs.Causes.{step_device, reply_device};
ghost use Rattle.heap_model.specs.Core.{Core, IsStep, calls, cut, is_dirty};
ghost use Rattle.core_laws.specs.Valid.{IsReached};
ghost use Rattle.heap_engine.specs.EngineState.{memory, LiesWithin, HasNotFailed};
ghost use Rattle.heap_engine.specs.Refinement.{IsLeftByStep};
ghost use Rattle.heap_core.specs.Collects.{CollectsAsTold};
ghost use Rattle.committed_words.specs.Committed.{words_of};

use crate::errors::GraphError;
use committed_words::CommittedWords;
use disk_model::{Disk, DiskError};
use graph_model::{Event, Refusal, Reply};
use heap_engine::{Engine, StepError};
use heap_history::History;
use std::alloc::{AllocError, Global};
use txn_table::SESSIONS;

/// The most entries for which the history keeps room: for each session the end of its transaction and a force after it, and a force of what is
/// sealed already.
const MOST_KEPT: usize = 2 * SESSIONS as usize + 1;

/// What an open heap keeps in memory, for sessions 1 to 32 side by side: all but its disk.
#[derive(Debug, Drop)]
pub struct HeapCore {
    engine: Engine,
    history: History,
    // How many transactions were committed when the heap was opened.
    before: u64,
    // Where the disk failed or stopped.
    failed: Option<Failure>,
    ghost works: { failed ≡ None → HasNotFailed engine },
    // The events that need no memory find room for their entries.
    ghost kept: { failed ≡ None → entries_kept (memory engine) history.entries ≤ history.room },
}

/// Where the disk failed or stopped.
#[derive(Clone, Copy, Debug)]
struct Failure {
    /// The entry, from 1.
    entry: u64,
    /// Whether records were pending before it.
    pending: bool,
}

/// The reply to an event that the disk cut short.
fn cut_short(e: DiskError) -> Reply
    ensures device { reply_device result ≡ Err e }
    ensures told { (result ≡ Reply.Refused DiskFault) ⊎ (result ≡ Reply.Refused Stopped) }
{
    let why = match e {
        DiskError::Failed => Refusal::DiskFault,
        DiskError::Stopped => Refusal::Stopped,
    };
    Reply::Refused { why }
}

/// Adds an event to the history with its reply, for which there is room, and returns the reply.
fn entered(history: &mut History, event: Event, reply: Reply) -> Reply
    requires { 0 < history.old.room }
    ensures entries { history.new.entries ≡ history.old.entries ++ record { event = event; reply = reply } ∷ [] }
    ensures room { history.new.room + 1 ≡ history.old.room }
    ensures reply { result ≡ reply }
{
    history.push(event, reply);
    reply
}

/// Whether an event needs no memory: it ends a transaction and promotes nothing, or forces commits that were not acknowledged.
fn is_ready(history: &History, engine: &Engine, event: Event) -> bool
    ensures { IsTrue result ↔ IsReady (memory engine.now) history.now.entries event }
{
    match event {
        Event::Abort { s } => engine.active(s),
        Event::Seal { s } => engine.seals_alone(s),
        Event::Force => history.acked() < engine.sealed(),
        _ => false,
    }
}

/// Makes room for the entry of an event, and after it for those of the events that need no memory, which find it there.
fn make_room(history: &mut History, engine: &Engine, event: Event) -> Result<(), AllocError>
    ensures same { history.new.entries ≡ history.old.entries }
    ensures kept { history.old.room ≤ history.new.room }
    ensures room { OnOk result ((65 < history.new.room) ⊎ IsReady (memory engine.now) history.old.entries event) }
    ensures ready { IsReady (memory engine.now) history.old.entries event → IsOk result }
{
    if is_ready(history, engine, event) {
        return Ok(());
    }
    history.reserve(MOST_KEPT + 1)
}

/// The text of the graph that is seen from the root object, which stands at this word address.
fn print(alloc: Global, mut words: CommittedWords<'_>, root: u32) -> Result<Vec<u8>, GraphError>
    ensures text { (name : ℕ → Id) (g : Graph) → IsSeenAs name (words_of words.entry) root g → IfOk result (λ text. text.items ≡ canon_text (canon g)) }
    ensures error { (name : ℕ → Id) (g : Graph) → IsSeenAs name (words_of words.entry) root g → IfErr result (λ e. e ≡ GraphError.NoMemory) }
{
    Ok(graph_print::canon_text(alloc, &mut words, root)?)
}

/// How many objects that graph has.
fn count(alloc: Global, mut words: CommittedWords<'_>, root: u32) -> Result<u64, GraphError>
    ensures count { (name : ℕ → Id) (g : Graph) → IsSeenAs name (words_of words.entry) root g → IfOk result (λ count. count ≡ length (canon g)) }
    ensures error { (name : ℕ → Id) (g : Graph) → IsSeenAs name (words_of words.entry) root g → IfErr result (λ e. e ≡ GraphError.NoMemory) }
{
    Ok(graph_print::canon_count(alloc, &mut words, root)?)
}

impl HeapCore {
    ghost use Rattle.heap_core.specs.HeapState.{entry_of, entries_of};
    ghost use Rattle.heap_core.specs.Refinement.{IsCoreInMemory, IsCoreOn, IsHeapOn};

    /// That of a heap which was just opened, with so many transactions committed before.
    pub fn new(alloc: Global, engine: Engine, before: u64) -> HeapCore
        requires works { HasNotFailed engine }
        requires idle { entries_kept (memory engine) [] ≡ 0 }
        ensures engine { result.engine ≡ engine }
        ensures entries { result.history.entries ≡ [] }
        ensures before { result.before ≡ before }
        ensures unfailed { result.failed ≡ None }
    {
        HeapCore {
            engine,
            history: History::new(alloc),
            before,
            failed: None,
        }
    }

    /// Makes one step on the disk from which this was opened, and returns the reply to the event, whose session, if it has one, is from 1 to 32. If
    /// memory runs out, nothing changes. Until the disk fails, the abort of a transaction never runs out of memory, nor does a seal that promotes
    /// nothing, or a force of unacknowledged commits.
    pub fn step_on<E: Disk>(&mut self, disk: &mut E, event: Event) -> Result<Reply, AllocError>
        requires session { IsOfSession event }
        requires inside { LiesWithin self.old.engine (E.extent disk.old) }
        ensures inside { LiesWithin self.new.engine (E.extent disk.new) }
        ensures disk { KeepsDisk E.Disk disk.old disk.new (step_device result) }
        // On every disk an answer adds the entry of this event and reply, and an error adds none.
        ensures recorded { MatchResult result (λ reply. entries_of self.new.history ≡ entries_of self.old.history ++ record { event = event; reply = reply } ∷ []) (λ _. entries_of self.new.history ≡ entries_of self.old.history) }

        // Each event is a step of the core that this is on its disk.
        ensures core { (c : Core) → IsCoreOn E.Disk c self.old disk.old → IsReached c → IfOk result (λ reply. (d : Core) × IsStep c event reply d × IsCoreOn E.Disk d self.new disk.new) }
        ensures kept { (c : Core) → IsCoreOn E.Disk c self.old disk.old → OnErr result (IsCoreOn E.Disk c self.new disk.new) }
        ensures untouched { OnErr result (disk.new ≡ disk.old) }

        // The same holds for what a modelled disk holds.
        ensures holds { IsTrue E.tells → (s : Super) (c : Core) → IsHeapOn E.Disk s c self.old disk.old → IsReached c → IfOk result (λ reply. (d : Core) × IsStep c event reply d × IsHeapOn E.Disk s d self.new disk.new) }
        // At each moment of it a crash leaves a commit prefix with all that were acknowledged or forced before, and each byte past the plan as it was. A
        // seal that makes device calls is in doubt in them.
        ensures moments { IsTrue E.tells → (s : Super) (c : Core) → IsHeapOn E.Disk s c self.old disk.old → IsReached c → LeavesOnly E.moment E.left_since disk.old disk.new (IsLeftByStep (cut c event) (E.bytes disk.old)) }
        ensures passes { IsTrue E.tells → (c : Core) → IsCoreOn E.Disk c self.old disk.old → IsReached c → IfOk result (λ reply. Passes (calls c event) (E.passed disk.old) (E.passed disk.new) (reply_device reply)) }
        // An event that makes no write or sync leaves the disk alone, and does not read it either.
        ensures still { (c : Core) → IsCoreOn E.Disk c self.old disk.old → IsReached c → calls c event ≡ 0 → disk.new ≡ disk.old }
        // Each event but a flip copies at most 576 objects, and a collection that began since the opening exactly what was reached at its flip,
        // whichever transactions were active then.
        ensures collects { (c : Core) → IsCoreOn E.Disk c self.old disk.old → IsReached c → IfOk result (λ reply. CollectsAsTold c event reply) }
        // An abort, a force, and a seal that makes no object stable are never refused because the log or a space has no room for them.
        ensures ends { (c : Core) → IsCoreOn E.Disk c self.old disk.old → IsReached c → IsEnd c event → IfOk result (λ reply. EndsAsTold c event reply) }
        // When memory runs out, transactions can still be ended and commits forced.
        ensures memory { (c : Core) → IsCoreOn E.Disk c self.old disk.old → IsReached c → (account c.history).failed ≡ None → TakesNoMemory c event → IsOk result }
    {
        if let Some(failure) = self.failed {
            self.history.reserve(1)?;
            let why = Refusal::Failed {
                entry: failure.entry,
            };
            return Ok(entered(&mut self.history, event, Reply::Refused { why }));
        }
        make_room(&mut self.history, &self.engine, event)?;
        let pending = self.engine.pending();
        match self.engine.step_on(disk, event) {
            Ok(reply) => Ok(entered(&mut self.history, event, reply)),
            Err(StepError::NoMemory) => Err(AllocError),
            Err(StepError::Disk(e)) => {
                let entry = self.history.len() as u64 + 1;
                self.failed = Some(Failure { entry, pending });
                Ok(entered(&mut self.history, event, cut_short(e)))
            }
        }
    }

    /// The entries since the heap was opened.
    pub fn history(&self) -> &History
        ensures { result.now ≡ self.now.history }
    {
        &self.history
    }

    /// The entry, from 1, at which the disk failed or stopped.
    pub fn failed(&self) -> Option<u64>
        ensures { result ≡ entry_of self.now.failed }
    {
        match self.failed {
            Some(failure) => Some(failure.entry),
            None => None,
        }
    }

    /// How many transactions are committed since the heap was made, up to the limit of 64 bits.
    pub fn commits(&self) -> u64
        ensures { (c : Core) → IsCoreInMemory c self.now → result ≡ min (c.before + length (sealed c.history)) greatest }
    {
        self.before.saturating_add(self.engine.sealed())
    }

    /// Whether records have been appended that are not known to be on the disk. If it stopped or failed in an event, they are those
    /// that were pending before it.
    pub fn pending(&self) -> bool
        ensures { (c : Core) → IsCoreInMemory c self.now → IsTrue result ↔ (c.pending ≢ []) }
    {
        match self.failed {
            Some(failure) => failure.pending,
            None => self.engine.pending(),
        }
    }

    /// Whether page `p` has changed since it was stored, in memory or by what an opening redid and rolled back. There are two spaces of
    /// pages; a page past these has not. Requires that the disk has neither failed nor stopped.
    pub fn dirty(&self, p: u32) -> bool
        requires unfailed { entry_of self.now.failed ≡ None }
        ensures { (c : Core) → IsCoreInMemory c self.now → result ≡ is_dirty c p }
    {
        self.engine.dirty(p)
    }

    /// Whether a session, of 1 to 32, has a transaction. No other number has one.
    pub fn active(&self, session: u32) -> bool
        ensures { (c : Core) → IsCoreInMemory c self.now → result ≡ is_some ((account c.history).active session) }
    {
        self.engine.active(session)
    }

    /// The text of the graph, without what active transactions wrote. Requires that the disk has neither failed nor stopped.
    pub fn graph(&self, alloc: Global) -> Result<Vec<u8>, GraphError>
        requires unfailed { entry_of self.now.failed ≡ None }
        ensures text { (c : Core) → IsCoreInMemory c self.now → IsReached c → IfOk result (λ text. text.items ≡ canon_text (canon (serial c.g0 (sealed c.history)))) }
        ensures error { (c : Core) → IsCoreInMemory c self.now → IsReached c → IfErr result (λ e. e ≡ GraphError.NoMemory) }
    {
        let words = self.engine.committed_words(alloc)?;
        print(alloc, words, self.engine.root_address())
    }

    /// How many objects that graph has; no text is made. Requires that the disk has neither failed nor stopped.
    pub fn objects(&self, alloc: Global) -> Result<u64, GraphError>
        requires unfailed { entry_of self.now.failed ≡ None }
        ensures count { (c : Core) → IsCoreInMemory c self.now → IsReached c → IfOk result (λ count. count ≡ length (canon (serial c.g0 (sealed c.history)))) }
        ensures error { (c : Core) → IsCoreInMemory c self.now → IsReached c → IfErr result (λ e. e ≡ GraphError.NoMemory) }
    {
        let words = self.engine.committed_words(alloc)?;
        count(alloc, words, self.engine.root_address())
    }
}
