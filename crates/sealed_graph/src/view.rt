//! The graph of what is sealed.
ghost use Rattle.std.specs.Prelude.{◌≡◌, List, IfOk};
ghost use Rattle.graph_model.specs.declared.reply.Entry.{Entry};
ghost use Rattle.graph_model.specs.Transaction.{serial};
ghost use Rattle.graph_model.specs.History.{sealed};

use crate::plain_graph::PlainGraph;
use crate::reading::Reading;
use heap_history::History;
use std::alloc::{AllocError, Global};

/// The graph of what a history says is sealed, where it began with the graph `first`: its sealed transactions, run one after another in the
/// order of their seals. What was refused, what was aborted, and what has not been sealed leaves nothing.
///
/// It fails when out of memory. It also fails for a history that no heap writes: one with a transaction that makes an object and has a
/// number from 2^32 on, or makes more than 4,294,967,295 objects, since those have no name.
///
/// It goes through the history once. A call that reads or writes a field takes time logarithmic in how many objects there are, and one that
/// makes an object also the time for its fields. In memory it has a copy of `first` with what was sealed, and the calls of the transactions that
/// are active where it reads.
pub fn sealed_view(
    alloc: Global,
    history: &History,
    first: &PlainGraph,
) -> Result<PlainGraph, AllocError>
    ensures view { IfOk result (λ graph. graph ≡ serial first.now (sealed history.now.entries)) }
{
    let mut reading = Reading::new(alloc, first.copied()?);
    for entry in history.iter() {
        reading.read(&entry)?;
    }
    Ok(reading.into_graph())
}

/// The same as a method of a history.
pub trait SealedView {
    /// The entries, oldest first.
    ghost entries: { Self → List Entry };

    /// See the function of that name.
    fn sealed_view(&self, alloc: Global, first: &PlainGraph) -> Result<PlainGraph, AllocError>
        ensures view { IfOk result (λ graph. graph ≡ serial first.now (sealed (entries self.now))) };
}

impl SealedView for History {
    ghost entries = { λ history. history.entries };

    fn sealed_view(&self, alloc: Global, first: &PlainGraph) -> Result<PlainGraph, AllocError> {
        sealed_view(alloc, self, first)
    }
}
