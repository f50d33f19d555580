//! Histories of sessions side by side, and the core that their events lead to.
ghost use Rattle.std.specs.Prelude.{Some, ◌≡◌, None, ℕ, ◌<◌, ◌≤◌, List, length, ◌+◌, ◌*◌, if◌then◌else◌};
ghost use Rattle.commit_order.specs.SerialOrder.{SerialOrderTheorem, StrictTheorem};
ghost use Rattle.core_laws.specs.Collects.{ScanTheorem, HoldsTheorem};
ghost use Rattle.core_laws.specs.Conflicts.{GivesWay, IsHindered};
ghost use Rattle.core_laws.specs.Ended.{AreGranted, IsUnfailed, HasEnded};
ghost use Rattle.core_laws.specs.Pause.{PauseTheorem};
ghost use Rattle.core_laws.specs.Theorems.{StepsTheorem, AnswersTheorem, RepliesTheorem, CrashTheorem, OpeningTheorem, AgainTheorem};
ghost use Rattle.core_laws.specs.Unseen.{UnseenTheorem};
ghost use Rattle.core_laws.specs.Valid.{IsReached, IsValid};
ghost use Rattle.graph_model.specs.Graph.{Graph};
ghost use Rattle.graph_model.specs.History.{account, AreInSessions, Account};
ghost use Rattle.graph_model.specs.Kinds.{Saves, kind_of};
ghost use Rattle.graph_model.specs.Plain.{plain_reply, refusal, first_of_two, event_refusal};
ghost use Rattle.graph_model.specs.declared.event.Event.{Event};
ghost use Rattle.graph_model.specs.declared.event.Event.TheVariants.{Flush};
ghost use Rattle.graph_model.specs.declared.reply.Refusal.{Refusal};
ghost use Rattle.graph_model.specs.declared.reply.Refusal.TheVariants.{Busy, NoSuchPage};
ghost use Rattle.heap_model.specs.Core.{Core, answer, next_number, core_refusal, log_refusal, words_refusal, is_dirty, is_ahead, force_calls, store_calls, calls};
ghost use Rattle.heap_model.specs.CoreRuns.{after_events, total_calls};
ghost use Rattle.heap_model.specs.Ending.{ending};
ghost use Rattle.page_redo.specs.Pages.{pages_in};

/// Each committed transaction had the replies of the serial run, in the order of the seals, where replies are plain and locking is two-phase.
pub fn serial_order()
    ensures { SerialOrderTheorem }
{}

/// In such a history each lock is taken with the call that needs it, and kept until its transaction ends.
pub fn strict_locking()
    ensures { StrictTheorem }
{}

/// Events of sessions, whichever of them the disk cuts short, lead from a core that is reached to one that is reached.
pub fn steps()
    ensures { StepsTheorem }
{}

/// A core answers each event but a flip, a scan and a flush as the plain heap does, where neither the spaces nor the log lack room.
pub fn answers()
    ensures { AnswersTheorem }
{}

/// Transactions do not see collections: without the flips and scans among them, on a heap large enough, all other events but flushes are answered
/// the same, and the same transactions are committed, where these lacked no room and the disk did not fail. It speaks of replies and commits; which
/// graph an image stands for then follows from those.
pub fn collections_are_not_seen()
    ensures { UnseenTheorem }
{}

/// An event but a flip copies at most 576 objects, including the scan that precedes it.
pub fn pauses_are_short()
    ensures { PauseTheorem }
{}

/// The next page of a collection can be scanned, and nothing that starts in it is gray then.
pub fn scans_do_something()
    ensures { ScanTheorem }
{}

/// A transaction never holds what remains in the from-space: each of its handles holds a current object, or one that it made.
pub fn handles_hold_current_objects()
    ensures { HoldsTheorem }
{}

/// What the plain heap refuses a core refuses for the same reason.
pub fn refuses_as_the_plain_heap()
    ensures { (c : Core) (event : Event) (why : Refusal) → refusal (next_number c) c.g0 (account c.history) event ≡ Some why → answer c event ≡ plain_reply c.first c.g0 (account c.history) event }
{}

/// What the plain heap does not refuse a core refuses for lack of room alone.
pub fn refuses_for_room_alone()
    ensures { (c : Core) (event : Event) → refusal (next_number c) c.g0 (account c.history) event ≡ None → core_refusal c event ≡ first_of_two (words_refusal c event) (log_refusal c event) }
{}

/// A call that is answered `busy T` is hindered, and T is the least of the transactions with a conflicting lock.
pub fn busy_names_the_least()
    ensures { (c : Core) (event : Event) (holder : ℕ) → AreInSessions (account c.history) → core_refusal c event ≡ Some (Busy holder) → GivesWay c.g0 (account c.history) event holder }
{}

/// A call that is not refused for what it asks for, and is hindered, is answered `busy` with the least number of a transaction in its way.
pub fn least_is_answered_busy()
    ensures { (c : Core) (event : Event) (holder : ℕ) → AreInSessions (account c.history) → (account c.history).failed ≡ None → event_refusal (next_number c) c.g0 (account c.history) event ≡ None → GivesWay c.g0 (account c.history) event holder → core_refusal c event ≡ Some (Busy holder) }
{}

/// Where a call is hindered one of the transactions with a conflicting lock has the least number.
pub fn some_number_is_least()
    ensures { (g0 : Graph) (a : Account) (event : Event) → AreInSessions a → IsHindered g0 a event → (holder : ℕ) × GivesWay g0 a event holder }
{}

/// Each committed transaction had, for its calls that were not refused, the replies of the serial run.
pub fn replies()
    ensures { RepliesTheorem }
{}

/// A crash leaves a commit prefix, and in it all that was acknowledged or forced.
pub fn crash()
    ensures { CrashTheorem }
{}

/// A heap that is opened on any shaped log is a core that is reached.
pub fn opening()
    ensures { OpeningTheorem }
{}

/// A heap that is opened on a commit prefix of a core continues from it.
pub fn again()
    ensures { AgainTheorem }
{}

/// The events that end a run are granted while the disk does not fail.
pub fn ending_is_granted()
    ensures { (c : Core) → IsReached c → IsUnfailed c → AreGranted c (ending c) }
{}

/// After them no session has a transaction and no record is pending.
pub fn ending_ends()
    ensures { (c : Core) → IsReached c → IsUnfailed c → HasEnded (after_events c (ending c)) }
{}

/// A flush of a page that is there is granted.
pub fn flush_is_granted()
    ensures { (c : Core) (p : ℕ) → IsValid c → p < pages_in c.pages → core_refusal c (Flush p) ≡ None }
{}

/// A flush of any other page is refused.
pub fn flush_is_refused()
    ensures { (c : Core) (p : ℕ) → IsValid c → pages_in c.pages ≤ p → core_refusal c (Flush p) ≡ Some NoSuchPage }
{}

/// A flush of a page that is there makes just the writes and syncs of a store, after those of a force where the page is ahead of the log on the disk.
pub fn flush_calls()
    ensures { (c : Core) (p : ℕ) → IsValid c → p < pages_in c.pages → calls c (Flush p) ≡ (if is_dirty c p then (if is_ahead c p then force_calls c.pending else 0) + store_calls (c.gates p) else 0) }
{}

/// No event but a force and a flush that are granted makes a write or sync.
pub fn calls_are_asked_for()
    ensures { (c : Core) (event : Event) → 0 < calls c event → (kind_of event ≡ Saves) × (core_refusal c event ≡ None) }
{}

/// n events make at most 10 * n writes and syncs.
pub fn calls_are_few()
    ensures { (c : Core) (events : List Event) → total_calls c events ≤ 10 * length events }
{}
