//! The program's one call: from the words of its command line and a script to the printed graph.
ghost use Rattle.std.specs.Prelude.{◌≡◌, ◌≢◌, ◌⊎◌, ℕ, ◌<◌, [], List, Bool, None, Some, Ok, Err, Option, map, string_bytes, IsTrue};
ghost use Rattle.counts.specs.Count.{Rose};
ghost use Rattle.graph_model.specs.Graph.{Graph};
ghost use Rattle.graph_words.specs.Places.{Places};
ghost use Rattle.image_plan.specs.declared.superblock.Super.{Super};
ghost use Rattle.image_plan.specs.Plan.{image_size};
ghost use Rattle.script_text.specs.declared.line.Line.{Line};
ghost use Rattle.script_text.specs.declared.script.ScriptError.TheVariants.{Fault};
ghost use Rattle.command_words.specs.Command.{command};
ghost use Rattle.command_words.specs.declared.commands.Command.{Command};
ghost use Rattle.command_words.specs.declared.commands.Command.TheVariants as asked;
ghost use Rattle.command_words.specs.declared.commands.Stop.{Stop};
ghost use Rattle.heap_model.specs.Image.{StoredHeap, IsShaped};
ghost use Rattle.heap_model.specs.Opening.{IsFound};
ghost use Rattle.heap_program.specs.Causes.{DiskRose, StreamCause, RunsDisk, CountsStay};
ghost use Rattle.heap_program.specs.Commands.{makes, superblock_numbers, restarts_of, IsPlay, IsEndOf, MeetsNoFault, CanRun, RunsFormat, PrintsGraph, WritesText, formatted_line};
ghost use Rattle.heap_program.specs.CrashSafe.{RunsSafely};
ghost use Rattle.thread_program.specs.Together.{EndsUnwritten, PrintsTogether, RunsTogether, RunsTogetherSafely};
ghost use Rattle.heap_program.specs.Load.{RunsLoad, SummarizesSome};
ghost use Rattle.heap_program.specs.Headline.{OfTold, PrintsRun, IsOfOwnImage, Runs, IsUntouching, EndsUnread, EndsUnmade, graph_text, stop_after};
ghost use Rattle.heap_program.specs.Playable.{IsReadFrom};
ghost use Rattle.heap_program.specs.Refusals.{AnswersImage};
ghost use Rattle.script_text.specs.Script.{script};

use crate::threads::run_threads;
use command_words::{Command, CommandError, read_command};
use disk_model::Disk;
use heap_io::{Sink, Source};
use heap_program::{Status, run_alone};
use heap_workers::Gate;
use std::alloc::Global;
use std::sync::Wait;
use std::thread::Threads;

/// Does what the words of the command line say: makes a heap on `disk`, plays the script that `source` gives, alone or by its workers, or a load, on a
/// new heap or on the existing one, or opens it; and writes the replies and the graph, or a summary, to `sink`. Each worker passes `gate` before
/// each event of its lines (tested).
pub fn run<D: Disk + Send, S: Source, K: Sink, G: Gate + Sync, R: Threads + Wait + Sync>(
    rt: &R,
    alloc: Global,
    words: &[String],
    disk: D,
    source: &mut S,
    sink: &mut K,
    gate: &G,
) -> (Status, D)
    // Which words are a command.
    ensures usage { result.0 ≡ Status.Usage → command (map string_bytes words.now) ≡ None }
    ensures usage_told { command (map string_bytes words.now) ≡ None → (result.0 ≡ Status.Usage) ⊎ (result.0 ≡ Status.NoMemory) }
    // Which scripts are bad, and where; nothing is done before the script is read.
    ensures script_fault { IsTrue S.tells → (line : ℕ) → result.0 ≡ Status.Script line → script (S.left source.old) ≡ Err (Fault line) }
    ensures script_told { IsTrue S.tells → (asked : Command) → command (map string_bytes words.now) ≡ Some asked → IsPlay asked → (line : ℕ) → script (S.left source.old) ≡ Err (Fault line) → EndsUnread (Status.Script line) result.0 }
    // Which disks are too small.
    ensures too_small { (size need : ℕ) → result.0 ≡ Status.TooSmall size need → (asked : Command) → command (map string_bytes words.now) ≡ Some asked
        → (s : Super) × (makes asked ≡ Some s) × (size ≡ D.extent disk) × (need ≡ image_size s.pages s.log_bytes) × (size < need) }
    ensures small_told { (asked : Command) (s : Super) → command (map string_bytes words.now) ≡ Some asked → makes asked ≡ Some s
        → D.extent disk < image_size s.pages s.log_bytes → EndsUnmade (Status.TooSmall (D.extent disk) (image_size s.pages s.log_bytes)) result.0 }

    // Each fault comes from outside.
    ensures read_fault { StreamCause (S.faults source.old) (S.faults source.new) (result.0 ≡ Status.ReadFault) }
    ensures write_fault { StreamCause (K.faults sink.old) (K.faults sink.new) (result.0 ≡ Status.WriteFault) }
    ensures disk_fault { RunsDisk D.Disk disk result.1 (result.0 ≡ Status.DiskFault) }
    // At a status that leaves no room for a fault of the disk, its counts of faults and of stops are as they were.
    ensures unfaulted { (asked : Command) → command (map string_bytes words.now) ≡ Some asked → restarts_of asked ≡ 0 → MeetsNoFault asked result.0 → CountsStay D.Disk disk result.1 }

    // A run that ends before it makes or opens a heap leaves the disk and the sink as they were.
    ensures untouched { IsUntouching result.0 → (result.1 ≡ disk) × (sink.new ≡ sink.old) }
    // So do words that are no command, also if memory runs out for them.
    ensures unasked { command (map string_bytes words.now) ≡ None → (result.1 ≡ disk) × (sink.new ≡ sink.old) }
    // One that plays no script leaves the source as it was; one that plays a script and is done has read it to the end.
    ensures unread { ((asked : Command) → command (map string_bytes words.now) ≡ Some asked → IsPlay asked → ⊥) → source.new ≡ source.old }
    ensures read_whole { IsTrue S.tells → (asked : Command) → command (map string_bytes words.now) ≡ Some asked → IsPlay asked → result.0 ≡ Status.Done → S.left source.new ≡ [] }

    // A crash at any moment keeps what was acknowledged or forced by then.
    ensures crash_safe { OfTold D.tells (D.bytes disk) (D.may_leave disk) ((fresh : Option ℕ) (stop : Option Stop) → command (map string_bytes words.now) ≡ Some (asked.Play fresh stop)
        → RunsSafely D.Disk fresh stop (IsReadFrom S.tells (S.left source.old)) disk result.1 result.0 K.tells (K.written sink.old) (K.written sink.new)) }
    // The main theorem, whole: the script was played on a heap, a new one or the existing one.
    ensures headline { OfTold D.tells (D.bytes disk) (D.may_leave disk) ((fresh : Option ℕ) (stop : Option Stop) → command (map string_bytes words.now) ≡ Some (asked.Play fresh stop)
        → Runs D.Disk fresh stop (IsReadFrom S.tells (S.left source.old)) disk result.1 result.0 K.tells (K.written sink.old) (K.written sink.new)) }

    // A crash at any moment of a script that is played by its workers keeps what was acknowledged or forced by then.
    ensures threads_safe { OfTold D.tells (D.bytes disk) (D.may_leave disk) ((fresh : Option ℕ) (tries : ℕ) → command (map string_bytes words.now) ≡ Some (asked.Threads fresh tries)
        → RunsTogetherSafely D.Disk fresh tries (IsReadFrom S.tells (S.left source.old)) disk result.1 result.0 K.tells (K.written sink.old) (K.written sink.new)) }
    // One history has the events of all workers, of each in the order of its own lines, with the replies that it has at their places.
    ensures threads { OfTold D.tells (D.bytes disk) (D.may_leave disk) ((fresh : Option ℕ) (tries : ℕ) → command (map string_bytes words.now) ≡ Some (asked.Threads fresh tries)
        → RunsTogether D.Disk fresh tries (IsReadFrom S.tells (S.left source.old)) disk result.1 result.0 K.tells (K.written sink.old) (K.written sink.new)) }
    ensures threads_prints { (fresh : Option ℕ) (tries : ℕ) → command (map string_bytes words.now) ≡ Some (asked.Threads fresh tries)
        → EndsUnwritten result.0 K.tells (K.written sink.old) (K.written sink.new) ⊎ ((lines : List Line) × IsReadFrom S.tells (S.left source.old) lines × PrintsTogether (IsOfOwnImage fresh D.tells (D.bytes disk)) (DiskRose (D.faults disk) (D.stops disk) (D.faults result.1) (D.stops result.1)) tries lines result.0 K.tells (K.written sink.old) (K.written sink.new)) }

    // A heap was made, with these numbers, or none was.
    ensures formats { OfTold D.tells (D.bytes disk) (D.may_leave disk) ((s : Super) → command (map string_bytes words.now) ≡ Some (asked.Format (superblock_numbers s))
        → RunsFormat D.Disk s disk result.1 result.0 K.tells (K.written sink.old) (K.written sink.new)) }
    // The graph of a shaped image was written, whatever stands in it, under whatever names.
    ensures graph { OfTold D.tells (D.bytes disk) (D.may_leave disk) (command (map string_bytes words.now) ≡ Some asked.Graph
        → (stored : StoredHeap) → (shaped : IsShaped stored (D.bytes disk)) → (born : Bool) (places : Places) (g : Graph) → IsFound stored shaped.log born places g
        → PrintsGraph D.Disk stored g disk result.1 result.0 K.tells (K.written sink.old) (K.written sink.new)) }

    // A load was played on a heap, a new one or the existing one: the same is said of its events as of a play's, with every moment. Its summary
    // was written: how many they are, how often they were answered so, and how many objects their graph has.
    ensures loads { OfTold D.tells (D.bytes disk) (D.may_leave disk) ((seed count : ℕ) (fresh : Option ℕ) → command (map string_bytes words.now) ≡ Some (asked.Load seed count fresh)
        → RunsLoad D.Disk fresh seed count disk result.1 result.0 K.tells (K.written sink.old) (K.written sink.new)) }

    // On any disk, what was written are lines of one history, a number of commits and a graph; or the size of an image; or a graph; or a
    // summary of one history.
    ensures prints { IsTrue K.tells → (fresh : Option ℕ) (stop : Option Stop) → command (map string_bytes words.now) ≡ Some (asked.Play fresh stop)
        → ((result.0 ≢ Status.Done) × (K.written sink.new ≡ K.written sink.old)) ⊎ ((lines : List Line) × IsReadFrom S.tells (S.left source.old) lines × PrintsRun (IsOfOwnImage fresh D.tells (D.bytes disk)) (stop_after stop) lines result.0 (K.written sink.old) (K.written sink.new)) }
    ensures prints_size { IsTrue K.tells → (s : Super) → command (map string_bytes words.now) ≡ Some (asked.Format (superblock_numbers s)) → WritesText result.0 (formatted_line s) (K.written sink.old) (K.written sink.new) }
    ensures prints_graph { IsTrue K.tells → command (map string_bytes words.now) ≡ Some asked.Graph → ((result.0 ≢ Status.Done) × (K.written sink.new ≡ K.written sink.old)) ⊎ ((g : Graph) × WritesText result.0 (graph_text g) (K.written sink.old) (K.written sink.new)) }

    ensures prints_load { IsTrue K.tells → (seed count : ℕ) (fresh : Option ℕ) → command (map string_bytes words.now) ≡ Some (asked.Load seed count fresh) → SummarizesSome seed count result.0 (K.written sink.old) (K.written sink.new) }

    // Which images can't be opened, and what becomes of them: such an image gives its own status, with nothing written, and stays as it is or keeps its fault
    // at each moment; and each such status is true of the image. How often the disk was restarted.
    ensures image { (asked : Command) → command (map string_bytes words.now) ≡ Some asked → AnswersImage D.Disk (makes asked ≡ None) (restarts_of asked) disk result.1 result.0 (sink.new ≡ sink.old) }

    // Which statuses each command has.
    ensures ends { (asked : Command) → command (map string_bytes words.now) ≡ Some asked → IsEndOf asked result.0 }

    // Without a fault it is done, on a disk that is large enough for a new heap, or holds a heap.
    ensures complete { OfTold D.tells (D.bytes disk) (D.may_leave disk) ((asked : Command) → command (map string_bytes words.now) ≡ Some asked → CanRun asked (D.extent disk) (D.bytes disk)
        → (IsPlay asked → IsTrue S.tells × ((lines : List Line) × (script (S.left source.old) ≡ Ok lines)))
        → ¬ Rose (S.faults source.old) (S.faults source.new) → ¬ Rose (K.faults sink.old) (K.faults sink.new) → ¬ DiskRose (D.faults disk) (D.stops disk) (D.faults result.1) (D.stops result.1)
        → (result.0 ≡ Status.Done) ⊎ (result.0 ≡ Status.NoMemory)) }
{
    match read_command(alloc, words) {
        Ok(Command::Threads { fresh, tries }) => {
            run_threads(rt, alloc, fresh, tries, disk, source, sink, gate)
        }
        // Then the words don't say which command it is.
        Err(CommandError::NoMemory) => (Status::NoMemory, disk),
        _ => run_alone(alloc, words, disk, source, sink),
    }
}
