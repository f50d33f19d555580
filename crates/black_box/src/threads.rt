//! One run in threads on a new heap.
ghost use Rattle.std.specs.Prelude.{◌≡◌, ◌⊎◌, ◌++◌, ℕ, List, Some, Ok, Err, map, string_bytes, IsTrue};
ghost use Rattle.black_box.specs.Ends.{EndsPlay};
ghost use Rattle.black_box.specs.Stores.{IsSameDisk, StoresWritten};
ghost use Rattle.black_box.specs.Told.{MakesNone, text_of};
ghost use Rattle.black_box.specs.Workers.{TellsWorkers};
ghost use Rattle.command_words.specs.Command.{command};
ghost use Rattle.command_words.specs.declared.commands.Command.TheVariants as asked;
ghost use Rattle.counts.specs.Count.{Rose};
ghost use Rattle.disk_model.specs.Disk.{Only};
ghost use Rattle.graph_model.specs.Graph.{Graph, new_graph};
ghost use Rattle.heap_program.specs.Causes.{DiskRose};
ghost use Rattle.heap_program.specs.Stored.{IsStored};
ghost use Rattle.script_text.specs.Script.{script};
ghost use Rattle.script_text.specs.declared.line.Line.{Line};
ghost use Rattle.script_text.specs.declared.script.ScriptError.TheVariants.{Fault};

use disk_model::Disk;
use heap_io::{Sink, Source};
use heap_program::Status;
use heap_workers::Gate;
use std::alloc::Global;
use std::sync::Wait;
use std::thread::Threads;
use thread_program::run;

/// Runs the program with the words `threads` on the script that `source` gives, and writes to `lines`. However that ends, at whichever call the disk
/// failed or stopped, the disk is restarted as one of the images that a crash may leave of it, and the program runs with the words `graph`
/// and writes to `text`. Returns both statuses and the disk.
pub fn threads_then_graph<
    D: Disk + Send,
    S: Source,
    K: Sink,
    G: Gate + Sync,
    R: Threads + Wait + Sync,
>(
    rt: &R,
    alloc: Global,
    threads: &[String],
    graph: &[String],
    disk: D,
    source: &mut S,
    lines: &mut K,
    text: &mut K,
    gate: &G,
) -> (Status, Status, D)
    // Of a run in threads on a new heap, and a graph that was printed: the run made no heap and wrote nothing, or there is one history of both.
    ensures one_history { IsTrue D.tells → Only (D.bytes disk) (D.may_leave disk) → IsTrue S.tells → IsTrue K.tells
        → (pages tries : ℕ) → command (map string_bytes threads.now) ≡ Some (asked.Threads (Some pages) tries) → command (map string_bytes graph.now) ≡ Some asked.Graph → result.1 ≡ Status.Done
        → (MakesNone result.0 × (K.written lines.new ≡ K.written lines.old))
        ⊎ ((read : List Line) × (script (S.left source.old) ≡ Ok read)
        × (kept : Graph) × TellsWorkers new_graph tries read result.0 (K.written lines.old) (K.written lines.new) kept × (K.written text.new ≡ K.written text.old ++ text_of kept)) }
    // The disk that is given back is the one that was handed in, restarted once.
    ensures same_disk { (pages tries : ℕ) → command (map string_bytes threads.now) ≡ Some (asked.Threads (Some pages) tries) → command (map string_bytes graph.now) ≡ Some asked.Graph → IsSameDisk D.Disk 1 disk result.2 }
    // It holds the graph that was printed, and nothing is unsynced, unless the run made no heap and wrote nothing.
    ensures leaves { IsTrue D.tells → Only (D.bytes disk) (D.may_leave disk) → IsTrue K.tells
        → (pages tries : ℕ) → command (map string_bytes threads.now) ≡ Some (asked.Threads (Some pages) tries) → command (map string_bytes graph.now) ≡ Some asked.Graph → result.1 ≡ Status.Done
        → (MakesNone result.0 × (K.written lines.new ≡ K.written lines.old)) ⊎ StoresWritten D.Disk result.2 (K.written text.old) (K.written text.new) }
    // It does so in each case, if it held a heap before.
    ensures keeps { IsTrue D.tells → Only (D.bytes disk) (D.may_leave disk) → IsTrue K.tells → IsStored (D.bytes disk)
        → (pages tries : ℕ) → command (map string_bytes threads.now) ≡ Some (asked.Threads (Some pages) tries) → command (map string_bytes graph.now) ≡ Some asked.Graph → result.1 ≡ Status.Done
        → StoresWritten D.Disk result.2 (K.written text.old) (K.written text.new) }
    // What the run's status blames is so: the script is bad there, a stream or the disk failed, or the disk is too small.
    ensures ends { IsTrue D.tells → Only (D.bytes disk) (D.may_leave disk) → IsTrue S.tells
        → (pages tries : ℕ) → command (map string_bytes threads.now) ≡ Some (asked.Threads (Some pages) tries) → EndsPlay (D.extent disk) pages (λ line. script (S.left source.old) ≡ Err (Fault line)) (Rose (S.faults source.old) (S.faults source.new))
        (Rose (K.faults lines.old) (K.faults lines.new)) (DiskRose (D.faults disk) (D.stops disk) (D.faults result.2) (D.stops result.2)) result.0 }
{
    let (played, mut disk) = run(rt, alloc, threads, disk, source, lines, gate);
    disk.restart();
    let (printed, disk) = run(rt, alloc, graph, disk, source, text, gate);
    (played, printed, disk)
}
