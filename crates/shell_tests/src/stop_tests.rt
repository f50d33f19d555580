//! A script played with a stop at each of its device calls, by each pick of a restart: a commit prefix comes back that
//! has all that were acknowledged. What is expected comes from the slow heap, which has no log and no disk.
use crate::playing::{ONE_COMMIT, Played, expect_played, play, same, split_restarted};
use disk_model::Pick;
use graph_model::{Entry, Event};
use heap_program::Status;
use script_text::{Line, read_script};
use slow_heap::SlowHeap;
use std::alloc::{AllocError, Global};
use std::process::Abort;
use std::test::Fail;

/// The bytes of a heap of sixteen pages a space.
const HEAP_BYTES: usize = 1_082_432;

/// The command that makes it.
const FRESH: &str = "heap play --fresh 16";

/// The writes and syncs of a force, of which the last two are those of the gate.
pub const FORCE_CALLS: usize = 4;

/// More calls than the scripts make.
const MOST_CALLS: usize = 16;

/// Two picks: by the first a gate that was written and not synced is closed, by the second it is open.
type Pair = (Pick, Pick);

const WRITTEN: Pair = (Pick::Synced, Pick::Newest);

const FILLED: Pair = (Pick::AllOnes, Pick::AllOpen);

/// The second transaction writes a field of the first one again, and another one twice.
const TWO_COMMITS: &str =
    "1 begin\n1 root 0\n1 put 0 0 7\n1 put 0 3 4611686018427387903\n1 commit\n1 begin\n1 root 0\n1 put 0 0 8\n1 put 0 1 9\n1 put 0 1 10\n1 commit\n";

/// The second transaction is taken back, and the third one writes where it wrote.
const ABORT_BETWEEN: &str =
    "1 begin\n1 root 0\n1 put 0 0 7\n1 commit\n1 begin\n1 root 0\n1 put 0 0 8\n1 put 0 1 9\n1 abort\n1 begin\n1 root 0\n1 put 0 1 3\n1 commit\n";

/// A transaction is forced before it is sealed, and the next one before it is taken back.
pub const FORCED_INSIDE: &str =
    "1 begin\n1 root 0\n1 put 0 0 7\nforce\n1 put 0 1 8\n1 commit\n1 begin\n1 root 0\n1 put 0 0 9\nforce\n1 abort\n";

/// The script ends inside a transaction of which a part was forced.
const FORCED_AT_END: &str =
    "1 begin\n1 root 0\n1 put 0 0 7\n1 commit\n1 begin\n1 root 0\n1 put 0 0 8\n1 put 0 0 9\nforce\n1 clear 0 0\n";

/// Two objects that refer to each other, then a third one; one is made that nothing refers to, and one is dropped.
const OBJECTS: &str =
    "1 begin\n1 root 0\n1 new 1 2\n1 new 2 1\n1 new 3 1\n1 link 0 0 1\n1 link 1 0 2\n1 link 2 0 1\n1 put 3 0 5\n1 commit\n1 begin\n1 root 0\n1 get 0 0 1\n1 get 1 0 2\n1 same 1 2\n1 new 4 1\n1 link 4 0 0\n1 link 1 1 4\n1 clear 2 0\n1 commit\n";

/// An object is forced with the field that leads to it before it is promoted, and one that is taken back.
pub const OBJECTS_FORCED_INSIDE: &str =
    "1 begin\n1 root 0\n1 new 1 1\n1 link 0 0 1\nforce\n1 link 1 0 0\n1 commit\n1 begin\n1 root 0\n1 new 2 1\n1 link 0 1 2\nforce\n1 abort\n";

/// A script, what the slow heap answers to it, and of each force how many were sealed since the one before.
#[derive(Drop)]
pub struct Told<'a> {
    pub script: &'a str,
    pub heap: SlowHeap,
    pub lines: String,
    forced: usize,
    pub forces: Vec<usize>,
}

impl<'a> Told<'a> {
    pub fn of(rt: &impl Abort, alloc: Global, script: &'a str) -> Result<Told<'a>, Fail> {
        let mut told = Told {
            script,
            heap: SlowHeap::new(alloc)?,
            lines: String::new(alloc),
            forced: 0,
            forces: Vec::new(alloc),
        };
        for line in &read_script(alloc, script.as_bytes())? {
            told.take(rt, line)?;
        }
        Ok(told)
    }

    fn take(&mut self, rt: &impl Abort, line: &Line) -> Result<(), AllocError> {
        match line {
            Line::One(event) => self.ask(rt, *event),
            Line::Commit { s } => {
                self.ask(rt, Event::Seal { s: *s })?;
                self.ask(rt, Event::Force)
            }
        }
    }

    fn ask(&mut self, rt: &impl Abort, event: Event) -> Result<(), AllocError> {
        let entry = step(rt, &mut self.heap, event)?;
        writeln!(self.lines, "{entry}")?;
        if matches!(event, Event::Force) {
            self.force()?;
        }
        Ok(())
    }

    /// What a play without a stop prints that ends with these lines of its own.
    pub fn whole(&self, ending: &str) -> Result<Vec<u8>, AllocError> {
        let mut output = self.lines.clone()?.into_bytes();
        output.extend_from_slice(ending.as_bytes())?;
        output.extend_from_slice(&self.heap.text(self.heap.sealed())?)?;
        Ok(output)
    }

    /// Notes a force.
    fn force(&mut self) -> Result<(), AllocError> {
        let sealed = self.heap.sealed();
        self.forces.push(sealed.saturating_sub(self.forced))?;
        self.forced = sealed;
        Ok(())
    }
}

/// What the slow heap answers.
fn step(rt: &impl Abort, heap: &mut SlowHeap, event: Event) -> Result<Entry, AllocError> {
    assert!(rt; event.is_of_session());
    let reply = heap.step(event)?;
    Ok(Entry { event, reply })
}

/// What a play printed whose disk was restarted: the lines of its events, how many commits came back, and the graph.
#[derive(Clone, Copy)]
struct Restarted<'a> {
    lines: &'a str,
    recovered: usize,
    graph: &'a str,
}

fn read_restarted(output: &[u8]) -> Option<Restarted<'_>> {
    let (lines, rest) = split_restarted(output)?;
    let (count, graph) = rest.split_once("\n")?;
    let recovered = count.parse::<usize>().ok()?;
    Some(Restarted {
        lines,
        recovered,
        graph,
    })
}

/// How many commits the lines seal.
fn sealed(lines: &str) -> usize {
    let mut count: usize = 0;
    for line in lines.lines() {
        if line.contains(" seal -> sealed ") {
            count = count.saturating_add(1);
        }
    }
    count
}

/// How many commits the lines acknowledge.
fn acknowledged(lines: &str) -> usize {
    let mut most: usize = 0;
    for line in lines.lines() {
        if let Some(count) = line.strip_prefix("force -> durable ") {
            most = most.max(count.parse::<usize>().unwrap_or(0));
        }
    }
    most
}

/// Whether the lines are the first of the expected ones, where the last may be that of a force or a flush that stopped.
fn are_first(lines: &str, told: &str) -> bool {
    if let Some(before) = lines.strip_suffix("flush -> stopped\n") {
        return told.starts_with(before);
    }
    match lines.strip_suffix("force -> stopped\n") {
        None => told == lines,
        Some(before) => goes_on_with_force(told, before),
    }
}

/// Whether the expected lines are these ones, a force, and others.
fn goes_on_with_force(told: &str, before: &str) -> bool {
    match told.strip_prefix(before) {
        None => false,
        Some(rest) => rest.starts_with("force -> durable "),
    }
}

/// What stands for the line of a flush that stopped, whichever page it was to store.
pub const FLUSH_STOPPED: &str = "flush -> stopped";

fn play_by(alloc: Global, line: &str, script: &str, pick: Pick) -> Result<Played, AllocError> {
    play(alloc, line, script, (HEAP_BYTES, pick))
}

pub fn play_to(
    alloc: Global,
    script: &str,
    pick: Pick,
    calls: usize,
) -> Result<Played, AllocError> {
    let line = format!(in alloc; "{FRESH} --stop {calls}")?;
    play_by(alloc, line.as_str(), script, pick)
}

/// Plays the script with a stop after that many calls, and returns whether it came and how many commits came back.
fn check_stop(
    rt: &impl Abort,
    alloc: Global,
    told: &Told<'_>,
    pick: Pick,
    calls: usize,
) -> Result<(bool, usize), Fail> {
    let played = play_to(alloc, told.script, pick, calls)?;
    check_played(rt, told, &played, pick, calls)
}

pub fn check_played(
    rt: &impl Abort,
    told: &Told<'_>,
    played: &Played,
    pick: Pick,
    calls: usize,
) -> Result<(bool, usize), Fail> {
    same(rt, played.status, Status::Done);
    let found = read_restarted(&played.output).expect(rt, "no number of commits");
    same(rt, (pick, calls, is_told(told, found)), (pick, calls, true));
    check_graph(rt, told, found)?;
    Ok((found.lines.ends_with(" -> stopped\n"), found.recovered))
}

/// Whether the lines are the first of the expected ones, and those commits came back that they acknowledge, and no more than they seal.
fn is_told(told: &Told<'_>, found: Restarted<'_>) -> bool {
    are_first(found.lines, told.lines.as_str())
        && acknowledged(found.lines) <= found.recovered
        && found.recovered <= sealed(found.lines)
}

/// Compares the graph, which is the end of what was printed, with that of as many commits as came back.
fn check_graph(rt: &impl Abort, told: &Told<'_>, found: Restarted<'_>) -> Result<(), AllocError> {
    assert!(rt; found.recovered <= told.heap.sealed());
    let graph = told.heap.text(found.recovered)?;
    same(rt, found.graph.as_bytes(), graph.as_slice());
    Ok(())
}

/// How many commits come back after each stop, of the first call and of each one after it until none stops.
fn recovered(
    rt: &impl Abort,
    alloc: Global,
    told: &Told<'_>,
    pick: Pick,
) -> Result<Vec<usize>, Fail> {
    let mut recovered = Vec::new(alloc);
    for calls in 0..MOST_CALLS {
        let (stopped, commits) = check_stop(rt, alloc, told, pick, calls)?;
        if !stopped {
            break;
        }
        recovered.push(commits)?;
    }
    Ok(recovered)
}

/// The same, where each call of each force stops.
fn check_stops(
    rt: &impl Abort,
    alloc: Global,
    told: &Told<'_>,
    pick: Pick,
) -> Result<Vec<usize>, Fail> {
    let recovered = recovered(rt, alloc, told, pick)?;
    let calls = told.forces.len().saturating_mul(FORCE_CALLS);
    same(rt, (pick, recovered.len()), (pick, calls));
    Ok(recovered)
}

/// Plays the script without a stop, which ends with these lines of its own.
pub fn expect_whole(
    rt: &impl Abort,
    alloc: Global,
    told: &Told<'_>,
    ending: &str,
) -> Result<(), AllocError> {
    let output = told.whole(ending)?;
    let played = play_by(alloc, FRESH, told.script, Pick::Newest)?;
    expect_played(rt, &played, Status::Done, &output);
    Ok(())
}

/// How many commits a stop after that many calls leaves to the pick: those that a force was to force, if its last call is stopped.
fn doubt_at(forces: &[usize], calls: usize) -> usize {
    if calls % FORCE_CALLS < FORCE_CALLS - 1 {
        return 0;
    }
    forces.get(calls / FORCE_CALLS).copied().unwrap_or(0)
}

/// Compares how many commits came back after each stop by an open gate and by a closed one.
fn expect_doubt(rt: &impl Abort, forces: &[usize], lost: &[usize], kept: &[usize]) {
    for calls in 0..lost.len() {
        let want = lost[calls].saturating_add(doubt_at(forces, calls));
        same(rt, (calls, kept.get(calls)), (calls, Some(&want)));
    }
}

fn check_told(
    rt: &impl Abort,
    alloc: Global,
    told: &Told<'_>,
    ending: &str,
    (closed, open): Pair,
) -> Result<(), Fail> {
    expect_whole(rt, alloc, told, ending)?;
    let lost = check_stops(rt, alloc, told, closed)?;
    let kept = check_stops(rt, alloc, told, open)?;
    expect_doubt(rt, &told.forces, &lost, &kept);
    Ok(())
}

fn check_script(
    rt: &impl Abort,
    alloc: Global,
    script: &str,
    ending: &str,
    pair: Pair,
) -> Result<(), Fail> {
    check_told(rt, alloc, &Told::of(rt, alloc, script)?, ending, pair)
}

// A test for each script and pair, since code that is only tried plays slowly, and each has a minute.
#[test]
fn each_stop_with_each_pick_leaves_the_first_commits(rt: HostRuntime) -> Result<(), Fail> {
    check_script(&rt, rt.alloc(), ONE_COMMIT, "", WRITTEN)?;
    check_script(&rt, rt.alloc(), ONE_COMMIT, "", FILLED)
}

#[test]
fn two_commits_come_back_from_written_bytes(rt: HostRuntime) -> Result<(), Fail> {
    check_script(&rt, rt.alloc(), TWO_COMMITS, "", WRITTEN)
}

#[test]
fn two_commits_come_back_from_filled_bytes(rt: HostRuntime) -> Result<(), Fail> {
    check_script(&rt, rt.alloc(), TWO_COMMITS, "", FILLED)
}

#[test]
fn an_abort_leaves_nothing_in_written_bytes(rt: HostRuntime) -> Result<(), Fail> {
    check_script(&rt, rt.alloc(), ABORT_BETWEEN, "", WRITTEN)
}

#[test]
fn an_abort_leaves_nothing_in_filled_bytes(rt: HostRuntime) -> Result<(), Fail> {
    check_script(&rt, rt.alloc(), ABORT_BETWEEN, "", FILLED)
}

/// What a run appends if records are pending after one commit.
const ONE_FORCED: &str = "force -> durable 1\n";

#[test]
fn forced_writes_are_taken_back_from_written_bytes(rt: HostRuntime) -> Result<(), Fail> {
    check_script(&rt, rt.alloc(), FORCED_INSIDE, ONE_FORCED, WRITTEN)
}

#[test]
fn forced_writes_are_taken_back_from_filled_bytes(rt: HostRuntime) -> Result<(), Fail> {
    check_script(&rt, rt.alloc(), FORCED_INSIDE, ONE_FORCED, FILLED)
}

#[test]
fn objects_come_back_from_written_bytes(rt: HostRuntime) -> Result<(), Fail> {
    check_script(&rt, rt.alloc(), OBJECTS, "", WRITTEN)
}

#[test]
fn objects_come_back_from_filled_bytes(rt: HostRuntime) -> Result<(), Fail> {
    check_script(&rt, rt.alloc(), OBJECTS, "", FILLED)
}

#[test]
fn forced_volatile_words_are_taken_back_from_written_bytes(rt: HostRuntime) -> Result<(), Fail> {
    check_script(&rt, rt.alloc(), OBJECTS_FORCED_INSIDE, ONE_FORCED, WRITTEN)
}

#[test]
fn forced_volatile_words_are_taken_back_from_filled_bytes(rt: HostRuntime) -> Result<(), Fail> {
    check_script(&rt, rt.alloc(), OBJECTS_FORCED_INSIDE, ONE_FORCED, FILLED)
}

const TAKEN_BACK: &str = "1 abort -> aborted\nforce -> durable 1\n";

#[test]
fn an_open_transaction_is_taken_back_from_written_bytes(rt: HostRuntime) -> Result<(), Fail> {
    check_script(&rt, rt.alloc(), FORCED_AT_END, TAKEN_BACK, WRITTEN)
}

#[test]
fn an_open_transaction_is_taken_back_from_filled_bytes(rt: HostRuntime) -> Result<(), Fail> {
    check_script(&rt, rt.alloc(), FORCED_AT_END, TAKEN_BACK, FILLED)
}

/// A recovery that is stopped after that many calls changes nothing of what is printed after a stop.
fn expect_same(
    rt: &impl Abort,
    alloc: Global,
    told: &Told<'_>,
    once: &Played,
    (pick, calls, again): (Pick, usize, usize),
) -> Result<(), AllocError> {
    let line = format!(in alloc; "{FRESH} --stop {calls} --again {again}")?;
    let twice = play_by(alloc, line.as_str(), told.script, pick)?;
    expect_played(rt, &twice, Status::Done, &once.output);
    Ok(())
}

/// The same of a stop after each number of calls below `recoveries`.
pub fn expect_each_same(
    rt: &impl Abort,
    alloc: Global,
    told: &Told<'_>,
    once: &Played,
    (pick, calls, recoveries): (Pick, usize, usize),
) -> Result<(), AllocError> {
    for again in 0..recoveries {
        expect_same(rt, alloc, told, once, (pick, calls, again))?;
    }
    Ok(())
}

/// Stops the script after that many calls, and the recovery at each of its calls and after them.
fn check_stop_again(
    rt: &impl Abort,
    alloc: Global,
    told: &Told<'_>,
    pick: Pick,
    calls: usize,
) -> Result<(), Fail> {
    let once = play_to(alloc, told.script, pick, calls)?;
    check_played(rt, told, &once, pick, calls)?;
    expect_each_same(rt, alloc, told, &once, (pick, calls, FORCE_CALLS + 1))?;
    Ok(())
}

fn check_again(
    rt: &impl Abort,
    alloc: Global,
    script: &str,
    stops: &[usize],
    pick: Pick,
) -> Result<(), Fail> {
    let told = Told::of(rt, alloc, script)?;
    for calls in stops {
        check_stop_again(rt, alloc, &told, pick, *calls)?;
    }
    Ok(())
}

#[test]
fn a_stop_in_recovery_changes_nothing_behind_a_commit(rt: HostRuntime) -> Result<(), Fail> {
    check_again(&rt, rt.alloc(), FORCED_AT_END, &[7, 8], Pick::Synced)?;
    check_again(&rt, rt.alloc(), FORCED_AT_END, &[7, 8], Pick::Newest)
}

#[test]
fn a_stop_in_recovery_changes_nothing_before_a_commit(rt: HostRuntime) -> Result<(), Fail> {
    check_again(
        &rt,
        rt.alloc(),
        FORCED_INSIDE,
        &[3, 4, 7, 12],
        Pick::AllOpen,
    )
}
