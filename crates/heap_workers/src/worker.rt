//! A worker sends its events, one after another.
ghost use Rattle.std.specs.Prelude.{◌≡◌, ◌+◌, ◌<◌, ◌≤◌, ◌++◌, ◌∷◌, [], All, List, MatchResult, length};
ghost use Rattle.std.specs.List.{AllByRecursion};
ghost use Rattle.graph_model.specs.declared.event.Event.{Event};
ghost use Rattle.graph_model.specs.declared.reply.Entry.{Entry};
ghost use Rattle.heap_workers.specs.Playing.{calls_made, ends, is_busy, IsBusyTo, IsUnfinished, MayMake, Makes, Played};

use crate::calls::HeapCalls;
use crate::gate::Gate;
use graph_model::{Entry, Event, Refusal, Reply};
use std::alloc::AllocError;
use std::sync::Wait;

/// The number of the worker that sends flips and scans. The worker of session S has the number S.
pub const COLLECTOR: u32 = 33;

/// The number of the worker that sends forces and flushes.
pub const FLUSHER: u32 = 34;

/// A worker that sends its own events in their order, independently of other workers.
#[derive(Drop)]
pub struct Worker {
    /// Its number at the gate.
    pub number: u32,
    /// How often an event is made in all while it is answered busy.
    pub tries: u32,
    /// What it sends.
    pub events: Vec<Event>,
    ghost some_try: { 0 < tries },
}

impl Worker {
    /// Sends all events, or until an answer says that the heap has failed. An event of a session that is answered busy is retried; if all tries are
    /// answered busy, the session's transaction is aborted, and the next event follows. The first answer that memory ran out also ends it, and is
    /// returned: what it sent before stands.
    pub fn work<R: Wait, C: HeapCalls, G: Gate>(
        &self,
        rt: &R,
        calls: &mut C,
        gate: &G,
    ) -> Result<(), AllocError>
        requires { All (MayMake (C.takes calls.old)) self.now.events.items }
        ensures sent { (part : List Entry) × (C.sent calls.new ≡ C.sent calls.old ++ part) × (C.asked calls.new ≡ C.asked calls.old + calls_made result part) × MatchResult result (λ _. Played self.now.tries self.now.events.items part) (λ _. IsUnfinished self.now.tries self.now.events.items part) }
        ensures takes { (e : Event) → C.takes calls.old e → C.takes calls.new e }
        ensures origin { C.origin calls.new ≡ C.origin calls.old }
    {
        for (place, event) in self.events.iter().enumerate() {
            gate.pass(rt, self.number, place as u64 + 1);
            if ends_part(&self.make(rt, calls, *event)?) {
                break;
            }
        }
        Ok(())
    }

    // Makes one event, retrying while it is answered busy, and returns the last answer.
    fn make<R: Wait, C: HeapCalls>(
        &self,
        rt: &R,
        calls: &mut C,
        event: Event,
    ) -> Result<Reply, AllocError>
        requires { MayMake (C.takes calls.old) event }
        ensures made { MatchResult result (λ reply. (busy : List Entry) × (last : Entry) × (C.sent calls.new ≡ C.sent calls.old ++ (busy ++ last ∷ [])) × Makes self.now.tries event busy last × (last.reply ≡ reply) × (C.asked calls.new ≡ C.asked calls.old + (length busy + 1))) (λ _. (busy : List Entry) × (C.sent calls.new ≡ C.sent calls.old ++ busy) × AllByRecursion (IsBusyTo event) busy × (length busy ≤ self.now.tries) × (C.asked calls.new ≡ C.asked calls.old + (length busy + 1))) }
        ensures takes { (e : Event) → C.takes calls.old e → C.takes calls.new e }
        ensures origin { C.origin calls.new ≡ C.origin calls.old }
    {
        for _ in 0..self.tries {
            let reply = calls.call(rt, event)?;
            if !asks_again(&event, &reply) {
                return Ok(reply);
            }
        }
        calls.call(rt, Event::Abort { s: event.session() })
    }
}

// Whether nothing more is sent after this answer.
fn ends_part(reply: &Reply) -> bool
    ensures { result ≡ ends reply.now }
{
    matches!(
        reply,
        Reply::Refused {
            why: Refusal::DiskFault | Refusal::Stopped | Refusal::Failed { .. }
        },
    )
}

// Whether the event is of a session, and other transactions hold conflicting locks on its object.
fn asks_again(event: &Event, reply: &Reply) -> bool
    ensures { result ≡ is_busy event.now reply.now }
{
    0 < event.session()
        && matches!(
            reply,
            Reply::Refused {
                why: Refusal::Busy { .. }
            }
        )
}
