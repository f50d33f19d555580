//! A collection reports as many objects and words as the graph has that the sealed transactions have left, whichever transactions are active.
use crate::drawn_tests::{FRESH, draw_script};
use crate::playing::{Played, play, same};
use crate::told::Told;
use disk_model::Pick;
use heap_program::Status;
use std::alloc::{AllocError, Global};
use std::process::Abort;
use std::str;
use std::test::Fail;

/// More scans than end a collection.
const SCANS: usize = 80;

/// The others release their locks, and session 1, whose transaction stays active, holds only the root and takes all its references away.
const CLEARED: &str =
    "1 abort\n2 abort\n3 abort\n1 begin\n1 root 0\n1 clear 0 0\n1 clear 0 1\n1 clear 0 2\n1 clear 0 3\n";

/// How much a collection copied, and how much was in use when it ended.
#[derive(Clone, Copy, Debug, PartialEq, Eq)]
struct Copied {
    objects: usize,
    words: usize,
    used: usize,
}

impl Copied {
    /// The end of an answer: its last two numbers are of objects and of words.
    fn with(self, told: &str) -> Option<Copied> {
        let (before, words) = last_number(told)?;
        let (_, objects) = last_number(before)?;
        Some(Copied {
            objects: self.objects.saturating_add(objects),
            words: self.words.saturating_add(words),
            used: self.used,
        })
    }
}

/// The number that a text ends with, and what stands before it.
fn last_number(text: &str) -> Option<(&str, usize)> {
    let (before, number) = text.rsplit_once(' ').unwrap_or(("", text));
    Some((before, number.parse::<usize>().ok()?))
}

/// What the last collection reported, if it ended.
fn last_collection(output: &str) -> Option<Copied> {
    let (_, told) = output.rsplit_once("flip -> ")?;
    let told = told.strip_prefix("flipped ")?;
    let flipped = NOTHING.with(told.lines().next()?)?;
    scanned(flipped, told)
}

const NOTHING: Copied = Copied {
    objects: 0,
    words: 0,
    used: 0,
};

/// What a flip copied, with what the scans after it copied until the end of its collection.
fn scanned(flipped: Copied, told: &str) -> Option<Copied> {
    let mut copied = flipped;
    for line in told.lines() {
        if let Some(scanned) = line.strip_prefix("scan -> scanned ") {
            copied = copied.with(scanned)?;
        }
        if let Some(used) = line.strip_prefix("scan -> collected ") {
            copied.used = used.parse::<usize>().ok()?;
            return Some(copied);
        }
    }
    None
}

/// The objects of a printed graph, and their words: two for each, and one for each field.
fn graph_size(graph: &str) -> Copied {
    let mut size = NOTHING;
    for row in graph.lines() {
        if row.contains(':') {
            size.objects = size.objects.saturating_add(1);
            // (a row has its number before the fields)
            let words = row.split_whitespace().count().saturating_add(1);
            size.words = size.words.saturating_add(words);
        }
    }
    size.used = size.words;
    size
}

/// A drawn script, whose transactions are left active, in each second one with a reference taken away, and after it one whole collection.
pub fn collected_script(alloc: Global, seed: u64) -> Result<String, AllocError> {
    let mut script = draw_script(alloc, seed, 160)?;
    if seed % 2 == 0 {
        script.push_str(CLEARED)?;
    }
    for _ in 0..SCANS {
        script.push_str("scan\n")?;
    }
    script.push_str("flip\n")?;
    for _ in 0..SCANS {
        script.push_str("scan\n")?;
    }
    Ok(script)
}

/// Whether an active transaction has taken all references of a sealed root away: what they lead to is kept for before-images alone.
fn is_cleared(lines: &str, graph: &str) -> bool {
    let root = graph.lines().nth(1).unwrap_or("");
    lines.ends_with("1 clear 0 3 -> done\n") && root.contains('@')
}

/// Plays a script, and compares what its last collection reported with the graph that was printed. It returns whether it is one that is cleared.
fn check_script(rt: &impl Abort, alloc: Global, seed: u64, script: &str) -> Result<bool, Fail> {
    let told = Told::of(rt, alloc, script)?;
    let graph = told.heap.text(told.heap.sealed())?;
    let played = play(alloc, FRESH, script, Pick::Newest)?;
    let text = str::from_utf8(&graph).unwrap_or("no text");
    expect_exact(rt, seed, &played, text);
    Ok(is_cleared(told.lines.as_str(), text))
}

fn expect_exact(rt: &impl Abort, seed: u64, played: &Played, graph: &str) {
    let output = str::from_utf8(&played.output).unwrap_or("");
    let found = last_collection(output);
    let want = graph_size(graph);
    same(
        rt,
        (seed, played.status, found, output.ends_with(graph)),
        (seed, Status::Done, Some(want), true),
    );
}

fn check_exact(rt: &impl Abort, alloc: Global, seeds: (u64, u64)) -> Result<(), Fail> {
    let mut cleared = false;
    for seed in seeds.0..seeds.1 {
        let script = collected_script(alloc, seed)?;
        if check_script(rt, alloc, seed, script.as_str())? {
            cleared = true;
        }
    }
    // Some seed has an object that is kept for a before-image alone.
    same(rt, ("cleared", cleared), ("cleared", true));
    Ok(())
}

#[test]
fn a_collection_copies_just_the_sealed_graph(rt: HostRuntime) -> Result<(), Fail> {
    check_exact(&rt, rt.alloc(), (0, 20))
}
