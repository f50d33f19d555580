//! The summary of a load: how many events it made, what they were answered, and how many objects the graph has.
ghost use Rattle.std.specs.Prelude.{◌≡◌, Some, count_by, IsTrue, None, Err};
ghost use Rattle.heap_core.specs.HeapState.{failed_at};
ghost use Rattle.heap_core.specs.Refinement.{IsCore};
ghost use Rattle.heap_model.specs.Core.{Core};
ghost use Rattle.core_laws.specs.Valid.{IsReached};
ghost use Rattle.heap_program.specs.Causes.{StreamCause};
ghost use Rattle.heap_program.specs.declared.output.WriteError.TheVariants.{SinkFailed};
ghost use Rattle.heap_program.specs.Load.{core_summary, is_aborted, is_collected, is_refused, is_sealed, replies_in, summary_text, summary_of};
ghost use Rattle.heap_program.specs.Output.{WroteText};

use crate::output::WriteError;
use disk_model::Disk;
use graph_model::Reply;
use heap_core::{Heap, History};
use heap_io::{Sink, put_all};
use std::alloc::Global;
use std::fmt;

/// The summary of a load.
#[derive(Clone, Copy, Debug, PartialEq, Eq)]
pub struct Summary {
    /// The number that it was made from.
    pub seed: u32,
    /// How many rounds it has.
    pub count: u32,
    /// How many events were made, with those that end a run.
    pub events: u64,
    /// How many of them were answered `sealed`.
    pub sealed: u64,
    /// How many were answered `aborted`.
    pub aborted: u64,
    /// How many were refused, for whatever reason.
    pub refused: u64,
    /// How many ended a collection.
    pub collected: u64,
    /// How many objects the graph has at the end.
    pub objects: u64,
}

/// Its seven lines.
impl fmt::Display for Summary {
    ghost output = { λ summary. Some (summary_text summary) };

    fn fmt<W: fmt::Write>(&self, f: &mut fmt::Formatter<W>) -> fmt::Result {
        write!(
            f,
            "load {} {}\nevents {}\nsealed {}\naborted {}\nrefused {}\ncollected {}\nobjects {}\n",
            self.seed,
            self.count,
            self.events,
            self.sealed,
            self.aborted,
            self.refused,
            self.collected,
            self.objects
        )
    }
}

fn sealed(history: &History) -> usize
    ensures { result ≡ replies_in is_sealed history.now.entries }
{
    history
        .iter()
        .filter(|entry| matches!(entry.reply, Reply::Sealed { .. }))
        .count()
}

fn aborted(history: &History) -> usize
    ensures { result ≡ replies_in is_aborted history.now.entries }
{
    history
        .iter()
        .filter(|entry| matches!(entry.reply, Reply::Aborted))
        .count()
}

fn refused(history: &History) -> usize
    ensures { result ≡ replies_in is_refused history.now.entries }
{
    history
        .iter()
        .filter(|entry| matches!(entry.reply, Reply::Refused { .. }))
        .count()
}

fn collected(history: &History) -> usize
    ensures { result ≡ replies_in is_collected history.now.entries }
{
    history
        .iter()
        .filter(|entry| matches!(entry.reply, Reply::Collected { .. }))
        .count()
}

impl Summary {
    /// The summary of a load that left this history and that many objects.
    fn of(seed: u32, count: u32, history: &History, objects: u64) -> Summary
        ensures { result ≡ summary_of seed count history.now.entries objects }
    {
        Summary {
            seed,
            count,
            events: history.len() as u64,
            sealed: sealed(history) as u64,
            aborted: aborted(history) as u64,
            refused: refused(history) as u64,
            collected: collected(history) as u64,
            objects,
        }
    }
}

/// Writes the summary of a load that was played on the heap.
pub fn write_summary<D: Disk, K: Sink>(
    alloc: Global,
    seed: u32,
    count: u32,
    heap: &Heap<D>,
    sink: &mut K,
) -> Result<(), WriteError>
    requires unfailed { failed_at heap.now ≡ None }
    ensures sink { StreamCause (K.faults sink.old) (K.faults sink.new) (result ≡ Err SinkFailed) }
    ensures wrote { IsTrue K.tells → (c : Core) → IsCore c heap.now → IsReached c → WroteText result (K.written sink.old) (summary_text (core_summary seed count c)) (K.written sink.new) }
{
    let objects = heap.objects(alloc)?;
    let summary = Summary::of(seed, count, heap.history(), objects);
    let text = format!(in alloc; "{summary}")?;
    Ok(put_all(sink, text.as_bytes())?)
}
