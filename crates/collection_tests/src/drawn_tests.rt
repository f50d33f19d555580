//! Drawn scripts of several sessions with flips, scans and flushes between their lines. What is expected comes from the slow heap.
use crate::playing::{play, same};
use crate::told::{Told, check_stops, without_collector};
use disk_model::Pick;
use heap_program::Status;
use std::alloc::{AllocError, Global};
use std::process::Abort;
use std::str;
use std::test::Fail;

/// The command that plays on a new heap of sixty-four pages a space.
pub const FRESH: &str = "heap play --fresh 64";

/// The same command with a short log.
const FORMAT: &str = "heap format 64 65536 1";

/// The sessions of the scripts.
const SESSIONS: u32 = 3;

/// A commit of objects for all, of which some are garbage soon; they take more than one page.
const SHARED: &str =
    "1 begin\n1 root 0\n1 new 1 3\n1 new 2 30\n1 new 3 40\n1 new 4 3\n1 link 0 0 1\n1 link 0 1 2\n1 link 1 1 2\n1 link 2 0 3\n1 link 3 0 4\n1 link 4 0 1\n1 link 4 1 4\n1 commit\n";

/// What has been drawn: the state of the generator and the script.
#[derive(Drop)]
struct Drawn {
    state: u64,
    script: String,
}

/// The calls that are drawn, each as often as it stands here, and how many of the drawn numbers it names: a handle, a field, a handle.
const CALLS: [(&str, usize); 16] = [
    (" len", 1),
    (" drop", 1),
    (" put", 3),
    (" put", 3),
    (" link", 3),
    (" link", 3),
    (" link", 3),
    (" link", 3),
    (" get", 3),
    (" get", 3),
    (" get", 3),
    (" get", 3),
    (" get", 3),
    (" clear", 2),
    (" clear", 2),
    (" root", 1),
];

impl Drawn {
    fn new(alloc: Global, seed: u64) -> Result<Drawn, AllocError> {
        Ok(Drawn {
            state: seed,
            script: String::from_str(alloc, SHARED)?,
        })
    }

    /// A number below this one.
    fn draw(&mut self, below: u64) -> u64 {
        self.state = self
            .state
            .wrapping_mul(6_364_136_223_846_793_005)
            .wrapping_add(1_442_695_040_888_963_407);
        (self.state >> 33) % below.max(1)
    }

    fn begin(&mut self, s: u32) -> Result<(), AllocError> {
        let field = self.draw(3);
        writeln!(self.script, "{s} begin\n{s} root 0\n{s} get 0 {field} 1")?;
        Ok(())
    }

    /// A call of a session.
    fn call(&mut self, s: u32) -> Result<(), AllocError> {
        let (verb, named) = CALLS[self.draw(16) as usize % 16];
        write!(self.script, "{s}{verb}")?;
        for _ in 0..named {
            let number = self.draw(4);
            write!(self.script, " {number}")?;
        }
        self.script.push('\n')
    }

    /// A new object of a session, of few fields or of many.
    fn make(&mut self, s: u32) -> Result<(), AllocError> {
        let handle = self.draw(4);
        let fields = self.draw(3).saturating_mul(20).saturating_add(1);
        writeln!(self.script, "{s} new {handle} {fields}")?;
        Ok(())
    }

    /// The end of the session's transaction, and the begin of the next.
    fn end(&mut self, s: u32) -> Result<(), AllocError> {
        let verb = match self.draw(4) {
            0 => "abort",
            1 => "seal",
            _ => "commit",
        };
        writeln!(self.script, "{s} {verb}")?;
        self.begin(s)
    }

    /// A flush of one of the first pages of a space.
    fn flush(&mut self) -> Result<(), AllocError> {
        let first = self.draw(2).saturating_mul(64);
        let page = first.saturating_add(self.draw(3));
        Ok(writeln!(self.script, "flush {page}")?)
    }

    /// One more line, or those of an end.
    fn line(&mut self) -> Result<(), AllocError> {
        let drawn = self.draw(u64::from(SESSIONS));
        let s = 1 + u32::try_from(drawn).unwrap_or(0) % SESSIONS;
        match self.draw(24) {
            0 | 1 => self.end(s),
            2 | 3 | 4 => self.make(s),
            5 => self.script.push_str("flip\n"),
            6 | 7 => self.script.push_str("scan\n"),
            8 => self.script.push_str("force\n"),
            9 => self.flush(),
            _ => self.call(s),
        }
    }
}

/// A script of that many lines drawn from a seed.
pub fn draw_script(alloc: Global, seed: u64, lines: usize) -> Result<String, AllocError> {
    let mut drawn = Drawn::new(alloc, seed)?;
    for s in 1..=SESSIONS {
        drawn.begin(s)?;
    }
    for _ in 0..lines {
        drawn.line()?;
    }
    Ok(drawn.script)
}

/// What a play without a stop prints, but for what is of the collector.
fn whole_output(alloc: Global, told: &Told<'_>) -> Result<String, AllocError> {
    let sealed = told.heap.sealed();
    let graph = told.heap.text(sealed)?;
    let graph = str::from_utf8(&graph).unwrap_or("");
    let lines = told.lines.as_str();
    format!(in alloc;
        "{lines}1 abort -> aborted\n2 abort -> aborted\n3 abort -> aborted\nforce -> durable {sealed}\n{graph}"
    )
}

/// Plays a script without a stop.
fn check_script(rt: &impl Abort, alloc: Global, seed: u64, script: &str) -> Result<(), Fail> {
    let want = whole_output(alloc, &Told::of(rt, alloc, script)?)?;
    let played = play(alloc, FRESH, script, Pick::Newest)?;
    let text = str::from_utf8(&played.output).unwrap_or("");
    let found = without_collector(alloc, text)?;
    same(
        rt,
        (seed, played.status, found.as_str()),
        (seed, Status::Done, want.as_str()),
    );
    Ok(())
}

fn check_whole(rt: &impl Abort, alloc: Global, seeds: (u64, u64)) -> Result<(), Fail> {
    for seed in seeds.0..seeds.1 {
        let script = draw_script(alloc, seed, 160)?;
        check_script(rt, alloc, seed, script.as_str())?;
    }
    Ok(())
}

#[test]
fn drawn_scripts_print_what_the_slow_heap_does(rt: HostRuntime) -> Result<(), Fail> {
    check_whole(&rt, rt.alloc(), (0, 10))
}

#[test]
fn more_drawn_scripts_print_what_the_slow_heap_does(rt: HostRuntime) -> Result<(), Fail> {
    check_whole(&rt, rt.alloc(), (10, 20))
}

/// How many lines are drawn of a script that is stopped at each of its calls.
const STOPPED_LINES: usize = 60;

/// Draws a script, and stops it and its recoveries at each of their calls.
fn check_drawn(rt: &impl Abort, alloc: Global, seed: u64, pick: Pick) -> Result<(), Fail> {
    let script = draw_script(alloc, seed, STOPPED_LINES)?;
    check_stops(rt, alloc, FORMAT, script.as_str(), pick)
}

// A test for each script and pick, since code that is only tried plays slowly, and each has a minute.
#[test]
fn a_drawn_script_comes_back_from_synced_bytes(rt: HostRuntime) -> Result<(), Fail> {
    check_drawn(&rt, rt.alloc(), 3, Pick::Synced)
}

#[test]
fn a_drawn_script_comes_back_from_newest_bytes(rt: HostRuntime) -> Result<(), Fail> {
    check_drawn(&rt, rt.alloc(), 3, Pick::Newest)
}

#[test]
fn a_drawn_script_comes_back_from_bytes_of_ones(rt: HostRuntime) -> Result<(), Fail> {
    check_drawn(&rt, rt.alloc(), 3, Pick::AllOnes)
}

#[test]
fn a_drawn_script_comes_back_from_open_gates(rt: HostRuntime) -> Result<(), Fail> {
    check_drawn(&rt, rt.alloc(), 3, Pick::AllOpen)
}

#[test]
fn another_drawn_script_comes_back_from_synced_bytes(rt: HostRuntime) -> Result<(), Fail> {
    check_drawn(&rt, rt.alloc(), 4, Pick::Synced)
}

#[test]
fn another_drawn_script_comes_back_from_newest_bytes(rt: HostRuntime) -> Result<(), Fail> {
    check_drawn(&rt, rt.alloc(), 4, Pick::Newest)
}

#[test]
fn another_drawn_script_comes_back_from_bytes_of_ones(rt: HostRuntime) -> Result<(), Fail> {
    check_drawn(&rt, rt.alloc(), 4, Pick::AllOnes)
}

#[test]
fn another_drawn_script_comes_back_from_open_gates(rt: HostRuntime) -> Result<(), Fail> {
    check_drawn(&rt, rt.alloc(), 4, Pick::AllOpen)
}
