//! The records of the log say which objects each collection copied: exactly those that the slow heap reaches from the root at its flip, identified by
//! births, whatever sessions do until it ends.
use crate::drawn_tests::FRESH;
use crate::exact_tests::collected_script;
use crate::playing::{Played, play_new, same};
use crate::told::Told;
use disk_model::{Disk, MemoryDisk, Pick};
use gated_log::Log;
use graph_model::Id;
use heap_program::{LOG_BYTES, Status};
use image_plan::Plan;
use log_records::{ObjectCopy, ObjectWords, Record};
use std::alloc::{AllocError, Global};
use std::process::Abort;
use std::str;
use std::test::Fail;

/// The parts of an image that the command makes.
const PLAN: Plan = Plan {
    pages: 64,
    log_bytes: LOG_BYTES,
};

/// The number that the upper half of a word counts.
const HALF: u64 = 1 << 32;

/// An object's name by its birth, the word after its header.
fn born(words: &ObjectWords) -> Id {
    let birth = words.as_slice().get(1).copied().unwrap_or(0);
    Id {
        t: u32::try_from(birth / HALF).unwrap_or(0),
        k: u32::try_from(birth % HALF).unwrap_or(0),
    }
}

/// The objects that a flip copies.
fn first_copied(alloc: Global, copies: &[ObjectCopy]) -> Result<Vec<Id>, AllocError> {
    let mut ids = Vec::new(alloc);
    for copy in copies {
        ids.push(born(&copy.words))?;
    }
    Ok(ids)
}

/// The objects that each collection of the log copied, those of each ascending.
fn copied(alloc: Global, records: &[Record]) -> Result<Vec<Vec<Id>>, AllocError> {
    let mut all = Vec::new(alloc);
    let mut ids = Vec::new(alloc);
    for record in records {
        match record {
            Record::Flip { copies } => ids = first_copied(alloc, copies.as_slice())?,
            Record::Copy { words, .. } => ids.push(born(words))?,
            Record::Collected => {
                ids.sort()?;
                all.push(ids)?;
                ids = Vec::new(alloc);
            }
            _ => {}
        }
    }
    Ok(all)
}

/// The records of the log.
fn read_log(rt: &impl Abort, alloc: Global, disk: &mut MemoryDisk) -> Result<Vec<Record>, Fail> {
    assert!(rt; disk.size() >= PLAN.size());
    let (_, records) = Log::open(alloc, disk, PLAN.log_at(), PLAN.log_bytes)?;
    Ok(records)
}

/// The collections of a play.
#[derive(Drop)]
struct Collections {
    /// How many transactions were sealed before each one began.
    begun: Vec<usize>,
    /// How many of them ended.
    ended: usize,
    /// How many transactions were sealed.
    sealed: usize,
    /// How many of these while one was under way.
    within: usize,
}

impl Collections {
    fn told(alloc: Global, output: &str) -> Result<Collections, AllocError> {
        let mut found = Collections {
            begun: Vec::new(alloc),
            ended: 0,
            sealed: 0,
            within: 0,
        };
        for line in output.lines() {
            found.take(line)?;
        }
        Ok(found)
    }

    /// Takes one more line.
    fn take(&mut self, line: &str) -> Result<(), AllocError> {
        if line.starts_with("flip -> flipped ") {
            self.begun.push(self.sealed)?;
        }
        if line.starts_with("scan -> collected ") {
            self.ended = self.ended.saturating_add(1);
        }
        if line.contains(" seal -> sealed ") {
            self.seal();
        }
        Ok(())
    }

    /// One more transaction was sealed.
    fn seal(&mut self) {
        self.sealed = self.sealed.saturating_add(1);
        if self.ended < self.begun.len() {
            self.within = self.within.saturating_add(1);
        }
    }
}

/// What some collections of the drawn scripts must exhibit, since the scripts would test little otherwise.
#[derive(Clone, Copy)]
struct Shown {
    /// How many transactions were sealed while one was under way.
    within: usize,
    /// How many objects one copied that the next did not.
    dropped: usize,
}

/// How many of the first names are not among the others.
fn lacking(first: &[Id], others: &[Id]) -> usize {
    let mut count: usize = 0;
    for id in first {
        if !others.contains(id) {
            count = count.saturating_add(1);
        }
    }
    count
}

/// Compares what each collection copied with what the slow heap reached, and returns how many objects one copied that the next did not.
fn check_each(
    rt: &impl Abort,
    told: &Told<'_>,
    copied: &[Vec<Id>],
    sealed: &[usize],
) -> Result<usize, Fail> {
    let mut dropped: usize = 0;
    let mut before: &[Id] = &[];
    for (ids, sealed) in copied.iter().zip(sealed.iter()) {
        assert!(rt; *sealed <= told.heap.sealed());
        let mut reached = told.heap.reached(*sealed)?;
        reached.sort()?;
        same(rt, ids.as_slice(), reached.as_slice());
        dropped = dropped.saturating_add(lacking(before, ids));
        before = ids;
    }
    Ok(dropped)
}

/// The output of a play, and which objects its collections copied.
fn play_script(
    rt: &impl Abort,
    alloc: Global,
    seed: u64,
    script: &str,
) -> Result<(Played, Vec<Vec<Id>>), Fail> {
    let (played, mut disk) = play_new(alloc, FRESH, script, Pick::Newest)?;
    same(rt, (seed, played.status), (seed, Status::Done));
    let records = read_log(rt, alloc, &mut disk)?;
    Ok((played, copied(alloc, &records)?))
}

/// Plays a drawn script followed by a whole collection, and compares the copies of all its collections.
fn check_script(rt: &impl Abort, alloc: Global, seed: u64) -> Result<Shown, Fail> {
    let script = collected_script(alloc, seed)?;
    let told = Told::of(rt, alloc, script.as_str())?;
    let (played, copied) = play_script(rt, alloc, seed, script.as_str())?;
    let found = Collections::told(alloc, str::from_utf8(&played.output).unwrap_or(""))?;
    let begun = found.begun.len();
    same(
        rt,
        (seed, found.ended, copied.len(), begun > 0),
        (seed, begun, begun, true),
    );
    let dropped = check_each(rt, &told, &copied, &found.begun)?;
    Ok(Shown {
        within: found.within,
        dropped,
    })
}

fn check_copied(rt: &impl Abort, alloc: Global, seeds: (u64, u64)) -> Result<(), Fail> {
    let mut all = Shown {
        within: 0,
        dropped: 0,
    };
    for seed in seeds.0..seeds.1 {
        let shown = check_script(rt, alloc, seed)?;
        all.within = all.within.saturating_add(shown.within);
        all.dropped = all.dropped.saturating_add(shown.dropped);
    }
    // Some transaction was sealed while a collection was under way, and some collection left an object behind.
    same(rt, (all.within > 0, all.dropped > 0), (true, true));
    Ok(())
}

#[test]
fn collections_copy_what_the_slow_heap_reaches(rt: HostRuntime) -> Result<(), Fail> {
    check_copied(&rt, rt.alloc(), (20, 30))
}
