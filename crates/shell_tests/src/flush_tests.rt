//! Scripts with flushes, played with a stop at each of their device calls and of their recoveries, by each pick of a restart. The slow heap, which has
//! no pages, plays the same scripts without the flushes.
use crate::drawing::{DRAWN, DRAWN_LINES, FOUR, ONE, Sessions, draw_script, ending_of};
use crate::playing::{Played, disk_of, expect_played, make_disk, play_on, same};
use crate::stop_tests::{
    FLUSH_STOPPED, FORCE_CALLS, FORCED_INSIDE, OBJECTS_FORCED_INSIDE, Told, check_played,
};
use disk_model::Pick;
use heap_program::Status;
use std::alloc::{AllocError, Global};
use std::process::Abort;
use std::str;
use std::test::Fail;

/// A heap of eight pages a space, with a log that has room for what the scripts with flushes write. It is far smaller than a new one that a play
/// makes, so that many plays on it fit into a minute.
const STORED_FORMAT: &str = "heap format 8 8192 1";

const STORED_BYTES: usize = 25_152;

const STORED_RECORD_BYTES: usize = 131_072;

/// Its bytes.
fn make_stored(alloc: Global) -> Result<Vec<u8>, AllocError> {
    let disk = make_disk(alloc, STORED_BYTES, Pick::Newest)?;
    let (_, disk) = play_on(alloc, STORED_FORMAT, "", disk)?;
    disk.contents().to_vec(alloc)
}

/// How the lines of a script end, in turn, and what is inserted after them.
type Flushes = [&'static str; 5];

/// Both pages, after each line.
const EACH: Flushes = ["\nflush 0\nflush 1\n"; 5];

/// A page after some lines, so that both have records after what is stored of them, of which some are on the disk and some are not.
const SOME: Flushes = ["\n", "\n", "\nflush 0\n", "\n", "\nflush 1\n"];

/// The lines of flushes that are neither refused nor cut short.
const FLUSH_LINES: [&str; 8] = [
    "flush 0 -> flushed 0",
    "flush 0 -> clean 0",
    "flush 1 -> flushed 1",
    "flush 1 -> clean 1",
    "flush 2 -> flushed 2",
    "flush 2 -> clean 2",
    "flush 3 -> flushed 3",
    "flush 3 -> clean 3",
];

fn with_flushes(alloc: Global, script: &str, flushes: &Flushes) -> Result<String, AllocError> {
    let mut flushed = String::new(alloc);
    let mut place: usize = 0;
    for line in script.lines() {
        flushed.push_str(line)?;
        flushed.push_str(flushes[place % 5])?;
        place = place.wrapping_add(1);
    }
    Ok(flushed)
}

fn expect_flushed(rt: &impl Abort, line: &str) {
    same(rt, (line, FLUSH_LINES.contains(&line)), (line, true));
}

/// What is left of a line: of one of a flush nothing, since the slow heap has no pages, unless it stopped.
fn left_of<'a>(rt: &impl Abort, line: &'a str) -> Option<&'a str> {
    if !line.starts_with("flush ") {
        return Some(line);
    }
    if line.ends_with(" -> stopped") {
        return Some(FLUSH_STOPPED);
    }
    expect_flushed(rt, line);
    None
}

/// Leaves out the lines of flushes.
fn without_flushes(rt: &impl Abort, alloc: Global, output: &[u8]) -> Result<Vec<u8>, AllocError> {
    let text = str::from_utf8(output).unwrap_or("");
    let mut kept = String::new(alloc);
    for line in text.lines() {
        if let Some(left) = left_of(rt, line) {
            push_line(&mut kept, left)?;
        }
    }
    Ok(kept.into_bytes())
}

fn push_line(text: &mut String, line: &str) -> Result<(), AllocError> {
    text.push_str(line)?;
    text.push('\n')
}

/// A script with flushes, what the slow heap answers to it without them, and the heap that it is played on.
#[derive(Drop)]
struct Flushed<'a> {
    told: Told<'a>,
    script: String,
    image: Vec<u8>,
}

impl<'a> Flushed<'a> {
    fn of(
        rt: &impl Abort,
        alloc: Global,
        script: &'a str,
        flushes: &Flushes,
    ) -> Result<Flushed<'a>, Fail> {
        let flushed = with_flushes(alloc, script, flushes)?;
        let image = make_stored(alloc)?;
        // The slow heap comes last, since the proof of each way out that drops it takes long.
        let told = Told::of(rt, alloc, script)?;
        Ok(Flushed {
            told,
            script: flushed,
            image,
        })
    }

    /// Plays it, and leaves out the lines of its flushes.
    fn play(
        &self,
        rt: &impl Abort,
        alloc: Global,
        line: &str,
        pick: Pick,
    ) -> Result<Played, AllocError> {
        let disk = disk_of(alloc, self.image.clone()?, pick, STORED_RECORD_BYTES, None)?;
        let played = play_on(alloc, line, self.script.as_str(), disk)?.0;
        Ok(Played {
            status: played.status,
            output: without_flushes(rt, alloc, &played.output)?,
        })
    }

    /// Plays it without a stop. Such a play ends with these lines of its own.
    fn expect_whole(&self, rt: &impl Abort, alloc: Global, ending: &str) -> Result<(), AllocError> {
        let output = self.told.whole(ending)?;
        let played = self.play(rt, alloc, "heap play", Pick::Newest)?;
        expect_played(rt, &played, Status::Done, &output);
        Ok(())
    }

    /// Stops the recovery that follows a stop after that many calls at each of its own calls and after them, which changes nothing.
    fn expect_again(
        &self,
        rt: &impl Abort,
        alloc: Global,
        once: &Played,
        (pick, calls): (Pick, usize),
    ) -> Result<(), AllocError> {
        for again in 0..=FORCE_CALLS {
            let line = format!(in alloc; "heap play --stop {calls} --again {again}")?;
            let twice = self.play(rt, alloc, line.as_str(), pick)?;
            expect_played(rt, &twice, once.status, &once.output);
        }
        Ok(())
    }

    /// Stops it after that many calls, and then the recovery. Returns whether the first stop came.
    fn stops(
        &self,
        rt: &impl Abort,
        alloc: Global,
        pick: Pick,
        calls: usize,
    ) -> Result<bool, Fail> {
        let line = format!(in alloc; "heap play --stop {calls}")?;
        let once = self.play(rt, alloc, line.as_str(), pick)?;
        self.expect_again(rt, alloc, &once, (pick, calls))?;
        Ok(check_played(rt, &self.told, &once, pick, calls)?.0)
    }

    /// Stops it at each of that many calls and after them.
    fn check_stops(
        &self,
        rt: &impl Abort,
        alloc: Global,
        pick: Pick,
        calls: usize,
    ) -> Result<(), Fail> {
        for stop in 0..=calls {
            let stopped = self.stops(rt, alloc, pick, stop)?;
            same(rt, (stop, stopped), (stop, stop < calls));
        }
        Ok(())
    }
}

/// A script, the flushes after its lines, what a run appends, and how many writes and syncs it makes before that.
#[derive(Clone, Copy)]
struct Stored {
    script: &'static str,
    flushes: &'static Flushes,
    ending: &'static str,
    calls: usize,
}

/// Stops a script with flushes at each of its calls and after them.
fn check_flushed(rt: &impl Abort, alloc: Global, stored: &Stored, pick: Pick) -> Result<(), Fail> {
    let flushed = Flushed::of(rt, alloc, stored.script, stored.flushes)?;
    flushed.expect_whole(rt, alloc, stored.ending)?;
    flushed.check_stops(rt, alloc, pick, stored.calls)
}

/// An object that lies on the first two pages is made and then written at both ends, by a transaction that commits and by one that is taken back.
const TWO_PAGES: &str =
    "1 begin\n1 root 0\n1 new 1 60\n1 put 1 59 5\n1 link 0 0 1\n1 commit\n1 begin\n1 root 0\n1 get 0 0 1\n1 put 1 0 6\n1 put 1 59 7\n1 seal\n1 begin\n1 root 0\n1 get 0 0 1\n1 put 1 59 8\n1 put 1 0 9\n1 clear 0 0\n";

/// Two sessions write side by side, and one of them is forced while the other commits.
const SIDE_BY_SIDE: &str =
    "1 begin\n1 root 0\n1 new 1 1\n1 new 2 57\n1 new 3 1\n1 link 0 0 1\n1 link 0 1 2\n1 link 1 0 3\n1 commit\n2 begin\n1 begin\n2 root 0\n1 root 0\n2 get 0 0 1\n1 get 0 1 1\n2 put 1 0 4\n1 put 1 56 5\n1 seal\n2 put 1 0 6\n1 begin\n1 root 0\n1 get 0 1 1\n1 put 1 0 7\n";

const UNSEALED: Stored = Stored {
    script: FORCED_INSIDE,
    flushes: &EACH,
    ending: "",
    calls: 40,
};

const PROMOTED: Stored = Stored {
    script: OBJECTS_FORCED_INSIDE,
    flushes: &SOME,
    ending: "",
    calls: 24,
};

const BOTH_PAGES: Stored = Stored {
    script: TWO_PAGES,
    flushes: &EACH,
    ending: "1 abort -> aborted\nforce -> durable 2\n",
    calls: 68,
};

const BOTH_SESSIONS: Stored = Stored {
    script: SIDE_BY_SIDE,
    flushes: &SOME,
    ending: "1 abort -> aborted\n2 abort -> aborted\nforce -> durable 2\n",
    calls: 44,
};

#[test]
fn stored_writes_are_taken_back_from_synced_bytes(rt: HostRuntime) -> Result<(), Fail> {
    check_flushed(&rt, rt.alloc(), &UNSEALED, Pick::Synced)
}

#[test]
fn stored_writes_are_taken_back_from_newest_bytes(rt: HostRuntime) -> Result<(), Fail> {
    check_flushed(&rt, rt.alloc(), &UNSEALED, Pick::Newest)
}

#[test]
fn stored_writes_are_taken_back_from_bytes_of_ones(rt: HostRuntime) -> Result<(), Fail> {
    check_flushed(&rt, rt.alloc(), &UNSEALED, Pick::AllOnes)
}

#[test]
fn stored_writes_are_taken_back_from_open_gates(rt: HostRuntime) -> Result<(), Fail> {
    check_flushed(&rt, rt.alloc(), &UNSEALED, Pick::AllOpen)
}

#[test]
fn stored_pages_come_back_from_synced_bytes(rt: HostRuntime) -> Result<(), Fail> {
    check_flushed(&rt, rt.alloc(), &BOTH_PAGES, Pick::Synced)
}

#[test]
fn stored_pages_come_back_from_newest_bytes(rt: HostRuntime) -> Result<(), Fail> {
    check_flushed(&rt, rt.alloc(), &BOTH_PAGES, Pick::Newest)
}

#[test]
fn stored_pages_come_back_from_bytes_of_ones(rt: HostRuntime) -> Result<(), Fail> {
    check_flushed(&rt, rt.alloc(), &BOTH_PAGES, Pick::AllOnes)
}

#[test]
fn stored_pages_come_back_from_open_gates(rt: HostRuntime) -> Result<(), Fail> {
    check_flushed(&rt, rt.alloc(), &BOTH_PAGES, Pick::AllOpen)
}

#[test]
fn stored_sessions_come_back_from_synced_bytes(rt: HostRuntime) -> Result<(), Fail> {
    check_flushed(&rt, rt.alloc(), &BOTH_SESSIONS, Pick::Synced)
}

#[test]
fn stored_sessions_come_back_from_newest_bytes(rt: HostRuntime) -> Result<(), Fail> {
    check_flushed(&rt, rt.alloc(), &BOTH_SESSIONS, Pick::Newest)
}

#[test]
fn stored_sessions_come_back_from_bytes_of_ones(rt: HostRuntime) -> Result<(), Fail> {
    check_flushed(&rt, rt.alloc(), &BOTH_SESSIONS, Pick::AllOnes)
}

#[test]
fn stored_sessions_come_back_from_open_gates(rt: HostRuntime) -> Result<(), Fail> {
    check_flushed(&rt, rt.alloc(), &BOTH_SESSIONS, Pick::AllOpen)
}

#[test]
fn stored_objects_are_promoted_or_gone_from_written_bytes(rt: HostRuntime) -> Result<(), Fail> {
    check_flushed(&rt, rt.alloc(), &PROMOTED, Pick::Synced)?;
    check_flushed(&rt, rt.alloc(), &PROMOTED, Pick::Newest)
}

#[test]
fn stored_objects_are_promoted_or_gone_from_filled_bytes(rt: HostRuntime) -> Result<(), Fail> {
    check_flushed(&rt, rt.alloc(), &PROMOTED, Pick::AllOnes)?;
    check_flushed(&rt, rt.alloc(), &PROMOTED, Pick::AllOpen)
}

/// Four pages, after some lines.
const FOUR_PAGES: Flushes = [
    "\n",
    "\nflush 0\n",
    "\nflush 1\nflush 2\n",
    "\n",
    "\nflush 3\n",
];

/// Plays a drawn script of these sessions with flushes and without a stop.
fn check_drawn(
    rt: &impl Abort,
    alloc: Global,
    script: &str,
    sessions: &Sessions,
) -> Result<(), Fail> {
    let flushed = Flushed::of(rt, alloc, script, &FOUR_PAGES)?;
    let ending = ending_of(alloc, &flushed.told, sessions)?;
    flushed.expect_whole(rt, alloc, ending.as_str())?;
    Ok(())
}

fn check_whole(rt: &impl Abort, alloc: Global, sessions: &Sessions) -> Result<(), Fail> {
    for seed in 0..DRAWN {
        let script = draw_script(alloc, seed, sessions, DRAWN_LINES)?;
        check_drawn(rt, alloc, script.as_str(), sessions)?;
    }
    Ok(())
}

#[test]
fn flushes_leave_drawn_scripts_their_answers(rt: HostRuntime) -> Result<(), Fail> {
    check_whole(&rt, rt.alloc(), &ONE)
}

#[test]
fn flushes_leave_four_drawn_sessions_their_answers(rt: HostRuntime) -> Result<(), Fail> {
    check_whole(&rt, rt.alloc(), &FOUR)
}
