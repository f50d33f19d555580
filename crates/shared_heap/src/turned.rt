//! A heap under the lock.
ghost use Rattle.std.specs.Prelude.{◌≡◌, ◌+◌, ◌%◌, ◌^◌, ◌++◌, ◌∷◌, [], length, IsOk, MatchResult, None};
ghost use Rattle.graph_model.specs.History.{account, IsOfSession};
ghost use Rattle.heap_core.specs.Ending.{TakesNoMemory};
ghost use Rattle.heap_core.specs.HeapState.{history_of};
ghost use Rattle.heap_core.specs.Refinement.{IsCore};
ghost use Rattle.heap_model.specs.Core.{Core};
ghost use Rattle.core_laws.specs.Valid.{IsReached};
ghost use Rattle.shared_heap.specs.Follows.{acknowledges};

use disk_model::Disk;
use graph_model::{Entry, Event, Reply};
use heap_core::Heap;
use std::alloc::AllocError;
use turn_lock::Turns;

/// A heap, with the length of its history when it was shared, and the number of turns since that added nothing, modulo 2^64.
#[derive(Drop)]
pub struct Turned<D: Disk> {
    pub(crate) heap: Heap<D>,
    pub(crate) before: usize,
    pub(crate) empty: u64,
}

impl<D: Disk> Turns for Turned<D> {
    ghost use Rattle.shared_heap.specs.Follows.{Follows};

    type Entry = Entry;

    ghost entries = { λ t. history_of t.heap };

    ghost stood = { λ t. t.before };

    ghost front = { λ e. acknowledges e.reply };

    ghost empty_turns = { λ t. t.empty };

    ghost follows = { λ first now. Follows first.heap now.heap };
}

/// How many commits a reply acknowledges, 0 if it acknowledges none.
pub(crate) fn acknowledged_by(reply: &Reply) -> u64
    ensures { result ≡ acknowledges reply.now }
{
    match reply {
        Reply::Durable { n } => *n,
        _ => 0,
    }
}

impl<D: Disk> Turned<D> {
    ghost use Rattle.shared_heap.specs.Follows.{Follows};

    /// Makes one step, or counts that memory ran out.
    pub(crate) fn step(&mut self, event: Event) -> Result<Reply, AllocError>
        requires { IsOfSession event }
        ensures recorded { MatchResult result (λ reply. history_of self.new.heap ≡ history_of self.old.heap ++ record { event = event; reply = reply } ∷ []) (λ _. history_of self.new.heap ≡ history_of self.old.heap) }
        ensures counted { MatchResult result (λ _. self.new.empty ≡ self.old.empty) (λ _. self.new.empty ≡ (self.old.empty + 1) % 2 ^ 64) }
        ensures same { self.new.before ≡ self.old.before }
        ensures follows { (first : _) → Follows first self.old.heap → Follows first self.new.heap }
        // When memory runs out, transactions can still be ended and commits forced.
        ensures memory { (c : Core) → IsCore c self.old.heap → IsReached c → (account c.history).failed ≡ None → TakesNoMemory c event → IsOk result }
    {
        let answer = self.heap.step(event);
        if answer.is_err() {
            self.empty = self.empty.wrapping_add(1);
        }
        answer
    }
}
