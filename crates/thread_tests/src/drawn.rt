//! Scripts that are drawn by numbers: eight sessions, a collector and a flusher.
use std::alloc::{AllocError, Global};

/// A commit of objects for all: each of them is met from the root, and two of them from another one.
pub const SHARED: &str =
    "1 begin\n1 root 0\n1 new 1 2\n1 new 2 3\n1 new 3 2\n1 link 0 0 1\n1 link 0 1 2\n1 link 0 2 3\n1 link 1 1 2\n1 link 2 0 1\n1 commit\n";

/// How many sessions a script has.
pub const SESSIONS: u64 = 8;

/// The session before the first one of a script: some scripts have the last eight numbers.
const BEFORE_FIRST: [u64; 2] = [0, 24];

/// The calls that are drawn, each as often as it stands here, and how many of the drawn numbers it names: a handle, a field, a handle.
const CALLS: [(&str, usize); 16] = [
    ("len", 1),
    ("drop", 1),
    ("same", 2),
    ("clear", 2),
    ("new", 2),
    ("new", 2),
    ("link", 3),
    ("link", 3),
    ("link", 3),
    ("get", 3),
    ("get", 3),
    ("get", 3),
    ("put", 3),
    ("put", 3),
    ("put", 3),
    ("put", 3),
];

/// What has been drawn: the state of the generator and the script.
#[derive(Drop)]
struct Drawn {
    state: u64,
    script: String,
}

impl Drawn {
    /// A number below this one.
    fn draw(&mut self, below: u64) -> u64 {
        self.state = self
            .state
            .wrapping_mul(6_364_136_223_846_793_005)
            .wrapping_add(1_442_695_040_888_963_407);
        (self.state >> 33) % below.max(1)
    }

    /// A transaction of a session: it reads a field of the root, makes some calls, and ends.
    fn transaction(&mut self, s: u64) -> Result<(), AllocError> {
        let field = self.draw(4);
        writeln!(self.script, "{s} begin\n{s} root 0\n{s} get 0 {field} 1")?;
        for _ in 0..=self.draw(3) {
            self.call(s)?;
        }
        let verb = match self.draw(8) {
            0 => "abort",
            1 => "seal",
            _ => "commit",
        };
        Ok(writeln!(self.script, "{s} {verb}")?)
    }

    /// A call of a session.
    fn call(&mut self, s: u64) -> Result<(), AllocError> {
        let (verb, named) = CALLS[self.draw(16) as usize % 16];
        write!(self.script, "{s} {verb}")?;
        for _ in 0..named {
            let number = self.draw(3);
            write!(self.script, " {number}")?;
        }
        self.script.push('\n')
    }

    /// The lines of a session.
    fn session(&mut self, s: u64) -> Result<(), AllocError> {
        self.transaction(s)?;
        if self.draw(3) == 0 {
            self.transaction(s)?;
        }
        Ok(())
    }

    /// The lines of the collector: one flip, and at times another one after its scans.
    fn collector(&mut self) -> Result<(), AllocError> {
        for _ in 0..=self.draw(2) {
            self.script.push_str("flip\n")?;
            for _ in 0..self.draw(5) {
                self.script.push_str("scan\n")?;
            }
        }
        Ok(())
    }

    /// The lines of the flusher.
    fn flusher(&mut self) -> Result<(), AllocError> {
        for _ in 0..=self.draw(3) {
            match self.draw(9) {
                8 => self.script.push_str("force\n")?,
                page => writeln!(self.script, "flush {page}")?,
            }
        }
        Ok(())
    }
}

/// The script of a seed.
pub fn draw_script(alloc: Global, seed: u64) -> Result<String, AllocError> {
    let mut drawn = Drawn {
        state: seed,
        script: String::new(alloc),
    };
    let before = BEFORE_FIRST[drawn.draw(2) as usize % 2];
    for s in 1..=SESSIONS {
        drawn.session(before.saturating_add(s))?;
    }
    drawn.collector()?;
    drawn.flusher()?;
    Ok(drawn.script)
}

/// A number from 1 to 24 of a seed, which doesn't depend on the draws of its script.
pub fn draw_call(seed: u64) -> u64 {
    let state = seed.wrapping_add(1).wrapping_mul(6_364_136_223_846_793_005);
    1 + (state >> 33) % 24
}
