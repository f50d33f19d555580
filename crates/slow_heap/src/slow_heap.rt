//! The plain heap, without a log or a disk.
ghost use Rattle.std.specs.Prelude.{◌≡◌, ◌+◌, ◌≤◌, ◌++◌, [], ◌∷◌, length, take, IfOk, OnErr};
ghost use Rattle.graph_model.specs.Graph.{new_graph};
ghost use Rattle.graph_model.specs.Transaction.{IsCall, serial};
ghost use Rattle.graph_model.specs.History.{account, account_after, sealed, IsOfSession};
ghost use Rattle.graph_model.specs.Locking.{holder_in_the_way, busy_holder, lesser};
ghost use Rattle.graph_model.specs.Plain.{plain_reply};
ghost use Rattle.graph_model.specs.Canon.{canon, numbered};
ghost use Rattle.graph_model.specs.Text.{canon_text};
ghost use Rattle.slow_heap.specs.Objects.{graph_of};

use crate::active_transaction::ActiveTransaction;
use crate::graph_text::{canon_text, numbered};
use crate::object_lock::ObjectLock;
use crate::objects::Objects;
use crate::transaction_view::{TransactionView, stands_in_the_way};
use graph_model::{Entry, Event, FIRST_SESSION, Id, LAST_SESSION, Refusal, Reply};
use std::alloc::{AllocError, Global};
use std::collections::BTreeMap;
use std::marker::Model;

/// The first number that no transaction has.
const NO_NUMBER: u32 = u32::MAX;

/// The plain heap of the sessions 1 to 32. It is slow, keeps everything, and answers as a heap is defined to answer: what a
/// transaction sees and holds is computed anew each time, from its calls so far on what the sealed ones left. A clause sees it as its
/// history: what it was asked and what it answered, oldest first.
#[derive(Drop)]
pub struct SlowHeap {
    alloc: Global,
    history: Vec<Entry>,
    /// The number of the next transaction.
    next: u32,
    /// The transaction of each session that has one.
    active: BTreeMap<u32, ActiveTransaction>,
    /// The objects after each number of sealed transactions, from none on.
    states: Vec<Objects>,
}

impl Model for SlowHeap {
    ghost use Rattle.std.specs.Prelude.{List};
    ghost use Rattle.graph_model.specs.declared.reply.Entry.{Entry};

    ghost Value = { List Entry };

    ghost use Rattle.graph_model.specs.History.{account};
    ghost use Rattle.slow_heap.specs.SlowHeap.{IsSlowHeap};

    ghost view = { λ heap. heap.history.items };

    ghost invariant = { λ heap. IsSlowHeap (account heap.history.items) heap.next heap.active heap.states.items };
}

impl SlowHeap {
    /// A new heap. It fails only when out of memory.
    pub fn new(alloc: Global) -> Result<SlowHeap, AllocError>
        ensures { IfOk result (λ heap. heap ≡ []) }
    {
        let objects = Objects::new(alloc)?;
        let mut states = Vec::new(alloc);
        states.push(objects)?;
        Ok(SlowHeap {
            alloc,
            history: Vec::new(alloc),
            next: 1,
            active: BTreeMap::new(alloc),
            states,
        })
    }

    /// How many transactions are sealed.
    pub fn sealed(&self) -> usize
        ensures { result ≡ length (sealed self.now) }
    {
        self.states.len() - 1
    }

    /// The text of the graph after the first `k` sealed transactions, in the order in which they were sealed. It fails only
    /// when out of memory.
    pub fn text(&self, k: usize) -> Result<Vec<u8>, AllocError>
        requires { k ≤ length (sealed self.now) }
        ensures { IfOk result (λ text. text.items ≡ canon_text (canon (serial new_graph (take k (sealed self.now))))) }
    {
        let text = canon_text(self.alloc, &self.states[k])?;
        Ok(text.into_bytes())
    }

    /// The names of the objects that are reached from the root after the first `k` sealed transactions, in the order of their numbers. It fails
    /// only when out of memory.
    pub fn reached(&self, k: usize) -> Result<Vec<Id>, AllocError>
        requires { k ≤ length (sealed self.now) }
        ensures { IfOk result (λ ids. ids.items ≡ numbered (serial new_graph (take k (sealed self.now)))) }
    {
        numbered(self.alloc, &self.states[k])
    }

    /// Answers an event of a session from 1 to 32, or of none, and adds it to the history. It fails only when out of memory, or
    /// where a transaction has made 4,294,967,295 objects and asks for one more, and then nothing changes.
    pub fn step(&mut self, event: Event) -> Result<Reply, AllocError>
        requires { IsOfSession event }
        ensures reply { IfOk result (λ reply. reply ≡ plain_reply 1 new_graph (account self.old) event) }
        ensures entry { IfOk result (λ reply. self.new ≡ self.old ++ (record { event = event; reply = reply }) ∷ []) }
        ensures err { OnErr result (self.new ≡ self.old) }
    {
        match event {
            Event::Begin { s } => self.begin(s),
            Event::Seal { s } => self.seal(s),
            Event::Abort { s } => self.abort(s),
            Event::Force => self.force(),
            Event::Flip => self.flip(),
            Event::Scan => self.scan(),
            Event::Flush { p } => self.flush(p),
            _ => self.call(event),
        }
    }

    fn begin(&mut self, s: u32) -> Result<Reply, AllocError>
        ensures reply { IfOk result (λ reply. reply ≡ plain_reply 1 new_graph (account self.old) (Event.Begin s)) }
        ensures entry { IfOk result (λ reply. self.new ≡ self.old ++ (record { event = Event.Begin s; reply = reply }) ∷ []) }
        ensures err { OnErr result (self.new ≡ self.old) }
    {
        let event = Event::Begin { s };
        if self.active.contains_key(&s) {
            return self.refuse(event, Refusal::AlreadyActive);
        }
        if self.next == NO_NUMBER {
            return self.refuse(event, Refusal::NumbersSpent);
        }
        let reply = Reply::Begun {
            n: u64::from(self.next),
        };
        self.history.reserve(1)?;
        self.active
            .insert(s, ActiveTransaction::begin(self.alloc, self.next))?;
        self.history.push_reserved(Entry { event, reply });
        self.next += 1;
        Ok(reply)
    }

    // A call of an active transaction.
    fn call(&mut self, event: Event) -> Result<Reply, AllocError>
        requires { IsCall event }
        ensures reply { IfOk result (λ reply. reply ≡ plain_reply 1 new_graph (account self.old) event) }
        ensures entry { IfOk result (λ reply. self.new ≡ self.old ++ (record { event = event; reply = reply }) ∷ []) }
        ensures err { OnErr result (self.new ≡ self.old) }
    {
        let s = event.session();
        let Some(transaction) = self.active.get(&s) else {
            return self.refuse(event, Refusal::NotActive);
        };
        let mut view = TransactionView::run(self.objects(), transaction)?;
        if let Some(why) = view.refusal(event) {
            return self.refuse(event, why);
        }
        let lock = view.lock_of(event);
        if let Some(holder) = self.busy_holder(transaction.number(), lock)? {
            let why = Refusal::Busy {
                holder: u64::from(holder),
            };
            return self.refuse(event, why);
        }
        let reply = view.call(event)?;
        let next = transaction.with_call(self.alloc, event)?;
        self.history.reserve(1)?;
        self.active.insert(s, next)?;
        self.history.push_reserved(Entry { event, reply });
        Ok(reply)
    }

    // The objects that the sealed transactions left.
    fn objects(&self) -> &Objects
        ensures { graph_of result.now ≡ serial new_graph (sealed self.now) }
    {
        &self.states[self.states.len() - 1]
    }

    // The least of the numbers of those with a lock that conflicts with one of transaction `number`, if it needs one.
    fn busy_holder(&self, number: u32, lock: Option<ObjectLock>) -> Result<Option<u32>, AllocError>
        ensures { IfOk result (λ holder. holder ≡ busy_holder new_graph (account self.now) number lock) }
    {
        let Some(asked) = lock else {
            return Ok(None);
        };
        let mut least = None;
        for s in (FIRST_SESSION..LAST_SESSION + 1).rev() {
            if let Some(holder) = self.holder_in_the_way(s, number, &asked)? {
                least = Some(lesser(holder, least));
            }
        }
        Ok(least)
    }

    // The number of the transaction of session `s`, if it has one and that holds a conflicting lock.
    fn holder_in_the_way(
        &self,
        s: u32,
        number: u32,
        asked: &ObjectLock,
    ) -> Result<Option<u32>, AllocError>
        ensures { IfOk result (λ holder. holder ≡ holder_in_the_way (serial new_graph (sealed self.now)) number asked.now ((account self.now).active s)) }
    {
        let Some(transaction) = self.active.get(&s) else {
            return Ok(None);
        };
        if stands_in_the_way(self.objects(), number, asked, transaction)? {
            return Ok(Some(transaction.number()));
        }
        Ok(None)
    }

    fn seal(&mut self, s: u32) -> Result<Reply, AllocError>
        ensures reply { IfOk result (λ reply. reply ≡ plain_reply 1 new_graph (account self.old) (Event.Seal s)) }
        ensures entry { IfOk result (λ reply. self.new ≡ self.old ++ (record { event = Event.Seal s; reply = reply }) ∷ []) }
        ensures err { OnErr result (self.new ≡ self.old) }
    {
        let event = Event::Seal { s };
        let Some(transaction) = self.active.get(&s) else {
            return self.refuse(event, Refusal::NotActive);
        };
        let view = TransactionView::run(self.objects(), transaction)?;
        let reply = Reply::Sealed {
            n: self.states.len() as u64,
        };
        self.states.reserve(1)?;
        self.history.reserve(1)?;
        self.active.remove(&s);
        self.states.push_reserved(view.into_objects());
        self.history.push_reserved(Entry { event, reply });
        Ok(reply)
    }

    fn abort(&mut self, s: u32) -> Result<Reply, AllocError>
        ensures reply { IfOk result (λ reply. reply ≡ plain_reply 1 new_graph (account self.old) (Event.Abort s)) }
        ensures entry { IfOk result (λ reply. self.new ≡ self.old ++ (record { event = Event.Abort s; reply = reply }) ∷ []) }
        ensures err { OnErr result (self.new ≡ self.old) }
    {
        let event = Event::Abort { s };
        if !self.active.contains_key(&s) {
            return self.refuse(event, Refusal::NotActive);
        }
        let reply = Reply::Aborted;
        self.history.push(Entry { event, reply })?;
        self.active.remove(&s);
        Ok(reply)
    }

    fn force(&mut self) -> Result<Reply, AllocError>
        ensures reply { IfOk result (λ reply. reply ≡ plain_reply 1 new_graph (account self.old) Event.Force) }
        ensures entry { IfOk result (λ reply. self.new ≡ self.old ++ (record { event = Event.Force; reply = reply }) ∷ []) }
        ensures err { OnErr result (self.new ≡ self.old) }
    {
        let event = Event::Force;
        let reply = Reply::Durable {
            n: self.states.len() as u64 - 1,
        };
        self.history.push(Entry { event, reply })?;
        Ok(reply)
    }

    // This heap stores no page, and answers a flush of any.
    fn flush(&mut self, p: u64) -> Result<Reply, AllocError>
        ensures reply { IfOk result (λ reply. reply ≡ plain_reply 1 new_graph (account self.old) (Event.Flush p)) }
        ensures entry { IfOk result (λ reply. self.new ≡ self.old ++ (record { event = Event.Flush p; reply = reply }) ∷ []) }
        ensures err { OnErr result (self.new ≡ self.old) }
    {
        let event = Event::Flush { p };
        let reply = Reply::Flushed { page: p };
        self.history.push(Entry { event, reply })?;
        Ok(reply)
    }

    // This heap has no spaces: no collection begins, and none runs.
    fn flip(&mut self) -> Result<Reply, AllocError>
        ensures reply { IfOk result (λ reply. reply ≡ plain_reply 1 new_graph (account self.old) Event.Flip) }
        ensures entry { IfOk result (λ reply. self.new ≡ self.old ++ (record { event = Event.Flip; reply = reply }) ∷ []) }
        ensures err { OnErr result (self.new ≡ self.old) }
    {
        let event = Event::Flip;
        let reply = Reply::Collecting;
        self.history.push(Entry { event, reply })?;
        Ok(reply)
    }

    fn scan(&mut self) -> Result<Reply, AllocError>
        ensures reply { IfOk result (λ reply. reply ≡ plain_reply 1 new_graph (account self.old) Event.Scan) }
        ensures entry { IfOk result (λ reply. self.new ≡ self.old ++ (record { event = Event.Scan; reply = reply }) ∷ []) }
        ensures err { OnErr result (self.new ≡ self.old) }
    {
        let event = Event::Scan;
        let reply = Reply::Idle;
        self.history.push(Entry { event, reply })?;
        Ok(reply)
    }

    // An event that is refused.
    fn refuse(&mut self, event: Event, why: Refusal) -> Result<Reply, AllocError>
        requires { plain_reply 1 new_graph (account self.old) event ≡ Reply.Refused why }
        ensures reply { IfOk result (λ reply. reply ≡ Reply.Refused why) }
        ensures entry { IfOk result (λ reply. self.new ≡ self.old ++ (record { event = event; reply = reply }) ∷ []) }
        ensures err { OnErr result (self.new ≡ self.old) }
    {
        let reply = Reply::Refused { why };
        self.history.push(Entry { event, reply })?;
        Ok(reply)
    }
}

// The lesser of a number and another that may be there.
fn lesser(number: u32, other: Option<u32>) -> u32
    ensures { result ≡ lesser number other }
{
    match other {
        None => number,
        Some(m) => number.min(m),
    }
}
