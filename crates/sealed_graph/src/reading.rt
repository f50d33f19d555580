//! A history read from its front, for the graph of what it says is sealed.
ghost use Rattle.std.specs.Prelude.{◌≡◌, OnOk};
ghost use Rattle.graph_model.specs.History.{account_after, nothing_yet, begins, makes_call, seals, aborts};
ghost use Rattle.sealed_graph.specs.Told.{KeepsReading, TellsOf};

use crate::active_transaction::ActiveTransaction;
use crate::plain_graph::PlainGraph;
use crate::registers::run;
use graph_model::{Entry, Event, Reply};
use std::alloc::{AllocError, Global};
use std::collections::BTreeMap;

/// What has been read so far: the transaction of each session that has one, and the graph that the sealed ones left.
#[derive(Debug, Drop)]
pub(crate) struct Reading {
    alloc: Global,
    active: BTreeMap<u32, ActiveTransaction>,
    graph: PlainGraph,
}

impl Reading {
    /// Nothing, where the history began with this graph. Does not allocate.
    pub(crate) fn new(alloc: Global, first: PlainGraph) -> Reading
        ensures { TellsOf first nothing_yet result }
    {
        Reading {
            alloc,
            active: BTreeMap::new(alloc),
            graph: first,
        }
    }

    /// Reads one more entry.
    pub(crate) fn read(&mut self, entry: &Entry) -> Result<(), AllocError>
        ensures { OnOk result (KeepsReading (λ a. account_after a entry.now) self.old self.new) }
    {
        let s = entry.event.session();
        match entry.reply {
            Reply::Begun { n } => self.begin(s, n),
            Reply::Sealed { .. } => self.seal(s),
            Reply::Aborted => {
                self.active.remove(&s);
                Ok(())
            }
            Reply::Durable { .. }
            | Reply::Flipped { .. }
            | Reply::Collecting
            | Reply::Scanned { .. }
            | Reply::Collected { .. }
            | Reply::Idle
            | Reply::Flushed { .. }
            | Reply::Clean { .. }
            | Reply::Refused { .. } => Ok(()),
            _ => self.call(s, entry.event),
        }
    }

    // Session `s` begins transaction `n`.
    fn begin(&mut self, s: u32, n: u64) -> Result<(), AllocError>
        ensures { OnOk result (KeepsReading (λ a. begins a s n) self.old self.new) }
    {
        self.active
            .insert(s, ActiveTransaction::begin(self.alloc, n))?;
        Ok(())
    }

    // The transaction of session `s` is sealed: now its calls are made on the graph.
    fn seal(&mut self, s: u32) -> Result<(), AllocError>
        ensures { OnOk result (KeepsReading (λ a. seals a s) self.old self.new) }
    {
        if let Some(transaction) = self.active.remove(&s) {
            run(&mut self.graph, &transaction)?;
        }
        Ok(())
    }

    // The transaction of session `s` makes a call, which is kept for its seal.
    fn call(&mut self, s: u32, call: Event) -> Result<(), AllocError>
        ensures { OnOk result (KeepsReading (λ a. makes_call a s call) self.old self.new) }
    {
        if let Some(mut transaction) = self.active.remove(&s) {
            transaction.push(call)?;
            self.active.insert(s, transaction)?;
        }
        Ok(())
    }

    /// The graph of what is sealed.
    pub(crate) fn into_graph(self) -> PlainGraph
        ensures { result ≡ self.graph }
    {
        let Reading {
            alloc: _,
            active: _,
            graph,
        } = self;
        graph
    }
}
