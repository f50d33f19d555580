//! The calls of a transaction on a graph.
ghost use Rattle.std.specs.Prelude.{◌≡◌, None, slice_index_or, slice_set, OnOk};
ghost use Rattle.graph_model.specs.declared.val.Val.TheVariants.{Null};
ghost use Rattle.graph_model.specs.Transaction.{held, fields_of, reference_to, with_referred, no_registers, make, put_value, call, run};

use crate::active_transaction::ActiveTransaction;
use crate::plain_graph::PlainGraph;
use graph_model::{Event, Id, ROOT, Val};
use std::alloc::AllocError;

/// The greatest number of a handle.
const LAST_HANDLE: u64 = 63;

/// What a transaction has beside the graph: its number, what its handles hold, and how many objects it has made.
#[derive(Drop)]
struct Registers {
    number: u64,
    handles: [Option<Id>; 64],
    made: u32,
}

/// A sealed transaction makes its calls on what those before it left. It fails only when out of memory or of names for objects, and
/// then some of the calls may have been made.
pub(crate) fn run(graph: &mut PlainGraph, transaction: &ActiveTransaction) -> Result<(), AllocError>
    ensures { OnOk result (graph.new ≡ (run graph.old transaction.now).graph) }
{
    let mut registers = Registers::new(transaction.number());
    for call in transaction.calls() {
        registers.call(graph, *call)?;
    }
    Ok(())
}

impl Registers {
    ghost use Rattle.sealed_graph.specs.Runs.{seen, Leaves};

    // Those with which a transaction begins.
    fn new(number: u64) -> Registers
        ensures { result ≡ record { number = number; handles = no_registers; made = 0 } }
    {
        Registers {
            number,
            handles: [None; 64],
            made: 0,
        }
    }

    // The transaction makes a call. What it only asks changes nothing.
    fn call(&mut self, graph: &mut PlainGraph, event: Event) -> Result<(), AllocError>
        ensures { OnOk result (Leaves self.old graph.old self.new graph.new event) }
    {
        match event {
            Event::Root { h, .. } => self.hold(h, Some(ROOT)),
            Event::New { h, len, .. } => return self.make(graph, h, len),
            Event::Put { h, i, v, .. } => return self.write(graph, h, i, Val::Int(v)),
            Event::Clear { h, i, .. } => return self.write(graph, h, i, Val::Null),
            Event::Link { h, i, h2, .. } => return self.link(graph, h, i, h2),
            Event::Drop { h, .. } => self.hold(h, None),
            Event::Get { h, i, h2, .. } => self.follow(h2, self.value(graph, h, i)),
            Event::Same { .. }
            | Event::Len { .. }
            | Event::Begin { .. }
            | Event::Seal { .. }
            | Event::Abort { .. }
            | Event::Force
            | Event::Flip
            | Event::Scan
            | Event::Flush { .. } => {}
        }
        Ok(())
    }

    // What a handle holds; one above the last holds nothing.
    fn held(&self, h: u64) -> Option<Id>
        ensures { result ≡ held self.now.handles h }
    {
        if h > LAST_HANDLE {
            return None;
        }
        self.handles[h as usize]
    }

    // A handle holds this object, or nothing. Where there is no such handle, nothing changes.
    fn hold(&mut self, h: u64, object: Option<Id>)
        ensures { self.new ≡ record self.old { handles = slice_set self.old.handles h object } }
    {
        if h <= LAST_HANDLE {
            self.handles[h as usize] = object;
        }
    }

    // A handle holds what the value refers to, if it is a reference.
    fn follow(&mut self, h: u64, value: Val)
        ensures { self.new ≡ record self.old { handles = with_referred self.old.handles h value } }
    {
        if let Val::Ref(target) = value {
            self.hold(h, Some(target));
        }
    }

    // A handle holds a new object of that many null fields.
    fn make(&mut self, graph: &mut PlainGraph, h: u64, len: u64) -> Result<(), AllocError>
        ensures view { OnOk result (seen self.new graph.new ≡ (make (seen self.old graph.old) self.old.number h len).view) }
        ensures number { self.new.number ≡ self.old.number }
    {
        let t = u32::try_from(self.number).map_err(|_| AllocError)?;
        let k = self.made.checked_add(1).ok_or(AllocError)?;
        let id = Id { t, k };
        graph.insert_null(id, len as usize)?;
        self.hold(h, Some(id));
        self.made = k;
        Ok(())
    }

    // A field of what a handle holds has this value.
    fn write(&self, graph: &mut PlainGraph, h: u64, i: u64, value: Val) -> Result<(), AllocError>
        ensures { OnOk result (graph.new ≡ put_value graph.old (held self.now.handles h) i value) }
    {
        match self.held(h) {
            Some(id) => graph.set(id, i as usize, value),
            None => Ok(()),
        }
    }

    // A field of what a handle holds refers to what another holds.
    fn link(&self, graph: &mut PlainGraph, h: u64, i: u64, h2: u64) -> Result<(), AllocError>
        ensures { OnOk result (graph.new ≡ put_value graph.old (held self.now.handles h) i (reference_to (held self.now.handles h2))) }
    {
        match self.held(h2) {
            None => self.write(graph, h, i, Val::Null),
            Some(target) => self.write(graph, h, i, Val::Ref(target)),
        }
    }

    // The value of a field; null where there is no such field.
    fn value(&self, graph: &PlainGraph, h: u64, i: u64) -> Val
        ensures { result ≡ slice_index_or (fields_of graph.now (held self.now.handles h)) i Null }
    {
        match self.held(h) {
            None => Val::Null,
            Some(id) => graph
                .fields(id)
                .get(i as usize)
                .copied()
                .unwrap_or(Val::Null),
        }
    }
}
