//! What the slow heap answers to a script. It has no spaces and no pages, so the lines of flips, scans and flushes are left out of the
//! comparison: but for these a collection changes nothing of what is printed.
use crate::playing::{Played, disk_of, new_image, play_on, same};
use disk_model::Pick;
use graph_model::{Entry, Event};
use heap_program::Status;
use script_text::{Line, read_script};
use slow_heap::SlowHeap;
use std::alloc::{AllocError, Global};
use std::process::Abort;
use std::str;
use std::test::Fail;

/// A script, the slow heap that has played all of it, and its lines.
#[derive(Drop)]
pub struct Told<'a> {
    script: &'a str,
    pub heap: SlowHeap,
    pub lines: String,
}

impl<'a> Told<'a> {
    pub fn of(rt: &impl Abort, alloc: Global, script: &'a str) -> Result<Told<'a>, Fail> {
        let mut told = Told {
            script,
            heap: SlowHeap::new(alloc)?,
            lines: String::new(alloc),
        };
        for line in &read_script(alloc, script.as_bytes())? {
            told.take(rt, line)?;
        }
        Ok(told)
    }

    fn take(&mut self, rt: &impl Abort, line: &Line) -> Result<(), AllocError> {
        match line {
            Line::One(event) => self.ask(rt, *event),
            Line::Commit { s } => {
                self.ask(rt, Event::Seal { s: *s })?;
                self.ask(rt, Event::Force)
            }
        }
    }

    fn ask(&mut self, rt: &impl Abort, event: Event) -> Result<(), AllocError> {
        let entry = step(rt, &mut self.heap, event)?;
        match event {
            Event::Flip | Event::Scan | Event::Flush { .. } => Ok(()),
            _ => Ok(writeln!(self.lines, "{entry}")?),
        }
    }
}

/// What the slow heap answers.
fn step(rt: &impl Abort, heap: &mut SlowHeap, event: Event) -> Result<Entry, AllocError> {
    assert!(rt; event.is_of_session());
    let reply = heap.step(event)?;
    Ok(Entry { event, reply })
}

/// Whether a line is of an event that the slow heap knows nothing of.
fn is_left_out(line: &str) -> bool {
    line.starts_with("flip -> ") || line.starts_with("scan -> ") || line.starts_with("flush ")
}

/// The lines without those of flips, scans and flushes.
pub fn without_collector(alloc: Global, text: &str) -> Result<String, AllocError> {
    let mut kept = String::new(alloc);
    for line in text.lines() {
        if !is_left_out(line) {
            push_line(&mut kept, line)?;
        }
    }
    Ok(kept)
}

fn push_line(text: &mut String, line: &str) -> Result<(), AllocError> {
    text.push_str(line)?;
    text.push('\n')
}

/// What a play printed whose disk was restarted: the lines of its events, how many commits came back, and the graph.
#[derive(Clone, Copy)]
struct Restarted<'a> {
    lines: &'a str,
    recovered: usize,
    graph: &'a str,
}

fn read_restarted(output: &[u8]) -> Option<Restarted<'_>> {
    let (lines, rest) = split_restarted(output)?;
    let (count, graph) = rest.split_once("\n")?;
    let recovered = count.parse::<usize>().ok()?;
    Some(Restarted {
        lines,
        recovered,
        graph,
    })
}

/// What was printed before a restart, and behind the word that follows it.
fn split_restarted(output: &[u8]) -> Option<(&str, &str)> {
    str::from_utf8(output).ok()?.split_once("recovered ")
}

/// How many commits the lines acknowledge.
fn acknowledged(lines: &str) -> usize {
    let mut most: usize = 0;
    for line in lines.lines() {
        if let Some(count) = line.strip_prefix("force -> durable ") {
            most = most.max(count.parse::<usize>().unwrap_or(0));
        }
    }
    most
}

/// How many commits the lines seal.
fn sealed(lines: &str) -> usize {
    let mut count: usize = 0;
    for line in lines.lines() {
        if line.contains(" seal -> sealed ") {
            count = count.saturating_add(1);
        }
    }
    count
}

/// Whether the lines are the first of the expected ones, and those commits came back that they acknowledge, and no more than they seal.
fn is_told(told: &str, lines: &str, recovered: usize) -> bool {
    let before = lines.strip_suffix("force -> stopped\n").unwrap_or(lines);
    told.starts_with(before) && acknowledged(lines) <= recovered && recovered <= sealed(lines)
}

/// Compares what came back after a stop with a commit prefix of the slow heap, and returns whether the stop came.
fn check_stopped(
    rt: &impl Abort,
    alloc: Global,
    told: &Told<'_>,
    played: &Played,
    line: &str,
) -> Result<bool, Fail> {
    same(rt, (line, played.status), (line, Status::Done));
    let found = read_restarted(&played.output).expect(rt, "no number of commits");
    let lines = without_collector(alloc, found.lines)?;
    let is_told = is_told(told.lines.as_str(), lines.as_str(), found.recovered);
    same(rt, (line, is_told), (line, true));
    check_graph(rt, told, found, line)?;
    Ok(found.lines.ends_with(" -> stopped\n"))
}

/// Compares the graph with that of as many commits as came back.
fn check_graph(
    rt: &impl Abort,
    told: &Told<'_>,
    found: Restarted<'_>,
    line: &str,
) -> Result<(), AllocError> {
    assert!(rt; found.recovered <= told.heap.sealed());
    let graph = told.heap.text(found.recovered)?;
    same(rt, (line, found.graph.as_bytes()), (line, graph.as_slice()));
    Ok(())
}

/// Plays the script on a heap with a stop, and one more in the recovery, and compares what came back. It returns whether the first stop came.
fn check_stop(
    rt: &impl Abort,
    alloc: Global,
    told: &Told<'_>,
    image: &[u8],
    pick: Pick,
    (stop, again): (usize, usize),
) -> Result<bool, Fail> {
    let line = format!(in alloc; "heap play --stop {stop} --again {again}")?;
    let disk = disk_of(alloc, image.to_vec(alloc)?, pick)?;
    let (played, _) = play_on(alloc, line.as_str(), told.script, disk)?;
    check_stopped(rt, alloc, told, &played, line.as_str())
}

/// More calls than the scripts make.
const MOST_CALLS: usize = 200;

/// The calls of a recovery that has a transaction to take back.
pub const RECOVERY_CALLS: usize = 4;

/// Stops the script after that many calls, and the recovery at each of its own and after them. It returns whether the first stop came.
fn check_again(
    rt: &impl Abort,
    alloc: Global,
    told: &Told<'_>,
    image: &[u8],
    (pick, stop): (Pick, usize),
) -> Result<bool, Fail> {
    let mut stopped = false;
    for again in 0..=RECOVERY_CALLS {
        stopped = check_stop(rt, alloc, told, image, pick, (stop, again))?;
    }
    Ok(stopped)
}

/// Stops the script at each of its calls until none stops.
fn check_each(
    rt: &impl Abort,
    alloc: Global,
    told: &Told<'_>,
    image: &[u8],
    pick: Pick,
) -> Result<(), Fail> {
    for stop in 0..MOST_CALLS {
        if !check_again(rt, alloc, told, image, (pick, stop))? {
            return Ok(());
        }
    }
    panic!(rt; "it stops at each call");
}

/// The same on a heap that a command makes.
pub fn check_stops(
    rt: &impl Abort,
    alloc: Global,
    format: &str,
    script: &str,
    pick: Pick,
) -> Result<(), Fail> {
    let image = new_image(alloc, format)?;
    let told = Told::of(rt, alloc, script)?;
    check_each(rt, alloc, &told, &image, pick)
}
