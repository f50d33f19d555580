//! One play of a script on a new heap, and the theorem on it in its shortest form.
ghost use Rattle.std.specs.Prelude.{◌≡◌, ◌⊎◌, ◌++◌, ℕ, List, None, Some, Ok, IfOk, OnOk, IfErr, OnErr, map, string_bytes, IsTrue};
ghost use Rattle.black_box.specs.Asked.{AskPlay, AskGraph, IsReason};
ghost use Rattle.black_box.specs.Ends.{EndsPlay};
ghost use Rattle.black_box.specs.Stores.{IsSameDisk, StoresWritten};
ghost use Rattle.black_box.specs.Tale.{Tells};
ghost use Rattle.black_box.specs.Told.{MakesNone};
ghost use Rattle.command_words.specs.Command.{command};
ghost use Rattle.command_words.specs.declared.commands.Command.TheVariants as asked;
ghost use Rattle.counts.specs.Count.{Rose};
ghost use Rattle.disk_model.specs.Disk.{Only};
ghost use Rattle.graph_model.specs.Graph.{new_graph};
ghost use Rattle.heap_program.specs.Causes.{DiskRose};
ghost use Rattle.heap_program.specs.Stored.{IsStored};
ghost use Rattle.script_text.specs.Line.{events};
ghost use Rattle.script_text.specs.Script.{script};

use crate::asking::{Unasked, read_asked};
use crate::one_run::play_then_graph;
use disk_model::Disk;
use heap_io::Sink;
use heap_program::Status;
use heap_workers::Gate;
use script_text::Line;
use std::alloc::Global;
use std::sync::Wait;
use std::thread::Threads;

/// A script as it was read, and how the runs ended.
#[derive(Drop)]
pub struct TwoRuns {
    /// The lines of the script.
    pub script: Vec<Line>,
    /// How the play ended.
    pub played: Status,
    /// How the run that printed the graph ended.
    pub printed: Status,
}

/// Makes the calls of `play_then_graph` on a script of these bytes, which it reads first, as it does the words of both runs. If they ask for anything
/// else, nothing is run. Returns the disk in each case.
pub fn play_script_then_graph<D: Disk + Send, K: Sink, G: Gate + Sync, R: Threads + Wait + Sync>(
    rt: &R,
    alloc: Global,
    play: &[String],
    graph: &[String],
    bytes: &[u8],
    disk: D,
    lines: &mut K,
    text: &mut K,
    gate: &G,
) -> (Result<TwoRuns, Unasked>, D)
    // Of a graph that was printed: the play wrote nothing and has a status of one that makes no heap, or one history explains what it wrote and the graph.
    ensures one_tale { IsTrue D.tells → Only (D.bytes disk) (D.may_leave disk) → IsTrue K.tells → IfOk result.0 (λ runs. runs.printed ≡ Status.Done
        → (MakesNone runs.played × (K.written lines.new ≡ K.written lines.old))
        ⊎ ((written printed : List ℕ) × (K.written lines.new ≡ K.written lines.old ++ written) × (K.written text.new ≡ K.written text.old ++ printed)
        × Tells new_graph (events runs.script.items) runs.played written printed)) }
    // The disk that is given back is the one that was handed in, restarted once.
    ensures same_disk { OnOk result.0 (IsSameDisk D.Disk 1 disk result.1) }
    // It holds the graph that was printed, and nothing is unsynced, unless the play made no heap and wrote nothing.
    ensures leaves { IsTrue D.tells → Only (D.bytes disk) (D.may_leave disk) → IsTrue K.tells → IfOk result.0 (λ runs. runs.printed ≡ Status.Done
        → (MakesNone runs.played × (K.written lines.new ≡ K.written lines.old)) ⊎ StoresWritten D.Disk result.1 (K.written text.old) (K.written text.new)) }
    // It does so in each case, if it held a heap before.
    ensures keeps { IsTrue D.tells → Only (D.bytes disk) (D.may_leave disk) → IsTrue K.tells → IsStored (D.bytes disk) → IfOk result.0 (λ runs. runs.printed ≡ Status.Done
        → StoresWritten D.Disk result.1 (K.written text.old) (K.written text.new)) }
    // What the play's status blames is so: the sink or the disk failed, or the disk is too small. It never blames the script, or its source.
    ensures ends { IsTrue D.tells → Only (D.bytes disk) (D.may_leave disk) → IfOk result.0 (λ runs. (pages : ℕ) → command (map string_bytes play.now) ≡ Some (asked.Play (Some pages) None)
        → EndsPlay (D.extent disk) pages (λ line. ⊥) ⊥ (Rose (K.faults lines.old) (K.faults lines.new)) (DiskRose (D.faults disk) (D.stops disk) (D.faults result.1) (D.stops result.1)) runs.played) }
    // The script is the one that the bytes spell, and the words are those of a play on a new heap and of a graph.
    ensures reads { IfOk result.0 (λ runs. script bytes.now ≡ Ok runs.script.items) }
    ensures asked { OnOk result.0 (AskPlay (map string_bytes play.now) × AskGraph (map string_bytes graph.now)) }
    // Unless memory runs out, an error comes only if the words or the script are otherwise, and nothing is run then.
    ensures refused { IfErr result.0 (λ why. IsReason why (map string_bytes play.now) (map string_bytes graph.now) bytes.now) }
    ensures untouched { OnErr result.0 ((result.1 ≡ disk) × (lines.new ≡ lines.old) × (text.new ≡ text.old)) }
{
    let (script, mut source) = match read_asked(alloc, play, graph, bytes) {
        Ok(read) => read,
        Err(why) => return (Err(why), disk),
    };
    let (played, printed, disk) = play_then_graph(
        rt,
        alloc,
        play,
        graph,
        disk,
        &mut source,
        lines,
        text,
        gate,
    );
    let runs = TwoRuns {
        script,
        played,
        printed,
    };
    (Ok(runs), disk)
}
