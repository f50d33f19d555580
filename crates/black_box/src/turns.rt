//! Any number of plays, one after another.
ghost use Rattle.std.specs.Prelude.{◌≡◌, ◌⊎◌, ◌+◌, ◌++◌, ℕ, List, length, None, Some, Ok, map, string_bytes, IsTrue};
ghost use Rattle.black_box.specs.Stores.{IsSameDisk, Stores, StoresWritten};
ghost use Rattle.black_box.specs.Told.{TellsRun, MakesNone, text_of};
ghost use Rattle.black_box.specs.Tales.{TellsTurn, TellTurns};
ghost use Rattle.command_words.specs.Command.{command};
ghost use Rattle.command_words.specs.declared.commands.Command.TheVariants as asked;
ghost use Rattle.disk_model.specs.Disk.{Only};
ghost use Rattle.graph_model.specs.Graph.{Graph, new_graph};
ghost use Rattle.script_text.specs.Script.{script};
ghost use Rattle.script_text.specs.declared.line.Line.{Line};

use disk_model::Disk;
use heap_io::{Sink, Source};
use heap_program::Status;
use heap_workers::Gate;
use std::alloc::Global;
use std::sync::Wait;
use std::thread::Threads;
use thread_program::run;

/// What a play reads, and where it writes.
#[derive(Drop)]
pub struct Turn<S: Drop, K: Drop> {
    /// Its script.
    pub source: S,
    /// Its lines.
    pub sink: K,
    /// How its run ended, if it was made.
    pub status: Option<Status>,
}

/// Runs the program with the words `play` on the heap on the disk, and restarts the disk however that ends.
fn play_turn<
    D: Disk + Send,
    S: Source + Drop,
    K: Sink + Drop,
    G: Gate + Sync,
    R: Threads + Wait + Sync,
>(rt: &R, alloc: Global, play: &[String], disk: D, turn: &mut Turn<S, K>, gate: &G) -> D
    ensures tells { IsTrue D.tells → IsTrue S.tells → IsTrue K.tells → command (map string_bytes play.now) ≡ Some (asked.Play None None)
        → (begins : Graph) → Stores D.Disk begins disk → (kept : Graph) × Stores D.Disk kept result × TellsTurn S.left K.written begins turn.old turn.new kept }
    ensures same_disk { command (map string_bytes play.now) ≡ Some (asked.Play None None) → IsSameDisk D.Disk 1 disk result }
{
    let (status, mut disk) = run(
        rt,
        alloc,
        play,
        disk,
        &mut turn.source,
        &mut turn.sink,
        gate,
    );
    turn.status = Some(status);
    disk.restart();
    disk
}

/// Makes these plays, one after another.
fn play_turns<
    D: Disk + Send,
    S: Source + Drop,
    K: Sink + Drop,
    G: Gate + Sync,
    R: Threads + Wait + Sync,
>(rt: &R, alloc: Global, play: &[String], mut disk: D, turns: &mut [Turn<S, K>], gate: &G) -> D
    ensures tell { IsTrue D.tells → IsTrue S.tells → IsTrue K.tells → command (map string_bytes play.now) ≡ Some (asked.Play None None)
        → (begins : Graph) → Stores D.Disk begins disk → (kept : Graph) × Stores D.Disk kept result × TellTurns S.left K.written begins turns.old turns.new kept }
    ensures same_disk { command (map string_bytes play.now) ≡ Some (asked.Play None None) → IsSameDisk D.Disk (length turns.old) disk result }
{
    for turn in turns.iter_mut() {
        disk = play_turn(rt, alloc, play, disk, turn, gate);
    }
    disk
}

/// Runs the program with the words `fresh`, on the first turn's script, and then with the words `play` on that of each other turn. After each run the
/// disk is restarted, as any of the images that a crash may leave of it. Then the program runs with the words `graph` and writes to `text`. Returns
/// the status of that run and the disk.
pub fn plays_then_graph<
    D: Disk + Send,
    S: Source + Drop,
    K: Sink + Drop,
    G: Gate + Sync,
    R: Threads + Wait + Sync,
>(
    rt: &R,
    alloc: Global,
    fresh: &[String],
    play: &[String],
    graph: &[String],
    disk: D,
    first: &mut Turn<S, K>,
    turns: &mut [Turn<S, K>],
    text: &mut K,
    gate: &G,
) -> (Status, D)
    // Of a play on a new heap, plays on what each left, and a graph that was printed: the first made no heap and wrote nothing, or there
    // is one history of all of them.
    ensures one_history { IsTrue D.tells → Only (D.bytes disk) (D.may_leave disk) → IsTrue S.tells → IsTrue K.tells
        → (pages : ℕ) → command (map string_bytes fresh.now) ≡ Some (asked.Play (Some pages) None) → command (map string_bytes play.now) ≡ Some (asked.Play None None)
        → command (map string_bytes graph.now) ≡ Some asked.Graph → result.0 ≡ Status.Done
        → (status : Status) × (first.new.status ≡ Some status)
        × ((MakesNone status × (K.written first.new.sink ≡ K.written first.old.sink))
        ⊎ ((read : List Line) × (script (S.left first.old.source) ≡ Ok read)
        × (made : Graph) × TellsRun new_graph read status (K.written first.old.sink) (K.written first.new.sink) made
        × (kept : Graph) × TellTurns S.left K.written made turns.old turns.new kept × (K.written text.new ≡ K.written text.old ++ text_of kept))) }
    // The disk that is given back is the one that was handed in, restarted after each play.
    ensures same_disk { (pages : ℕ) → command (map string_bytes fresh.now) ≡ Some (asked.Play (Some pages) None) → command (map string_bytes play.now) ≡ Some (asked.Play None None)
        → command (map string_bytes graph.now) ≡ Some asked.Graph → IsSameDisk D.Disk (length turns.old + 1) disk result.1 }
    // It holds the graph that was printed, and nothing is unsynced, unless the first play made no heap and wrote nothing.
    ensures leaves { IsTrue D.tells → Only (D.bytes disk) (D.may_leave disk) → IsTrue S.tells → IsTrue K.tells
        → (pages : ℕ) → command (map string_bytes fresh.now) ≡ Some (asked.Play (Some pages) None) → command (map string_bytes play.now) ≡ Some (asked.Play None None)
        → command (map string_bytes graph.now) ≡ Some asked.Graph → result.0 ≡ Status.Done
        → (status : Status) × (first.new.status ≡ Some status)
        × ((MakesNone status × (K.written first.new.sink ≡ K.written first.old.sink)) ⊎ StoresWritten D.Disk result.1 (K.written text.old) (K.written text.new)) }
{
    let (status, mut disk) = run(
        rt,
        alloc,
        fresh,
        disk,
        &mut first.source,
        &mut first.sink,
        gate,
    );
    first.status = Some(status);
    disk.restart();
    let disk = play_turns(rt, alloc, play, disk, turns, gate);
    let (printed, disk) = run(rt, alloc, graph, disk, &mut first.source, text, gate);
    (printed, disk)
}
