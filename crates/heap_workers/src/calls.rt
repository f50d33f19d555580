//! The heap that a worker calls.
ghost use Rattle.std.specs.Prelude.{◌≡◌, ℕ, ◌+◌, ◌++◌, ◌∷◌, [], List, MatchResult};
ghost use Rattle.graph_model.specs.declared.event.Event.{Event};
ghost use Rattle.graph_model.specs.declared.reply.Entry.{Entry};

use graph_model::{Entry, Event, Reply};
use std::alloc::AllocError;
use std::sync::Wait;

/// Something that takes events and answers them: a heap, or one caller's share of a heap that threads share.
pub trait HeapCalls {
    /// Which events it may be asked.
    ghost takes: { Self → Event → Type 0 };

    /// The events that it was asked so far, with its answers, the oldest first.
    ghost sent: { Self → List Entry };

    /// How often it was asked so far, whatever it answered.
    ghost asked: { Self → ℕ };

    /// The type of what identifies the callee.
    ghost Origin: { Type 0 };

    /// What identifies the callee; no call changes it.
    ghost origin: { Self → Origin };

    /// Asks one event, and waits for its answer. If memory runs out, nothing is added to `sent`.
    fn call<R: Wait>(&mut self, rt: &R, event: Event) -> Result<Reply, AllocError>
        requires { takes self.old event }
        ensures sent { MatchResult result (λ reply. sent self.new ≡ sent self.old ++ record { event = event; reply = reply } ∷ []) (λ _. sent self.new ≡ sent self.old) }
        ensures asked { asked self.new ≡ asked self.old + 1 }
        ensures takes { (e : Event) → takes self.old e → takes self.new e }
        ensures origin { origin self.new ≡ origin self.old };
}
