//! A load: lines that are made from a number, round by round.
ghost use Rattle.std.specs.Prelude.{◌≡◌, ◌+◌, ◌++◌, ◌<◌, ◌^◌, IfOk, OnOk, OnErr};
ghost use Rattle.script_text.specs.Load.{change_lines, ending_line, object_lines, opening_lines, round_lines, upkeep_lines};

use crate::line::Line;
use graph_model::Event;
use std::alloc::{AllocError, Global};
use std::marker::Model;

/// The one session of a load.
const SESSION: u32 = 1;

/// The handles of the root object, of the object that a round makes, and of the one that it reads.
const ROOT: u64 = 0;

const MADE: u64 = 1;

const READ: u64 = 2;

/// More lines than a round has, so that they are allocated at once.
const MOST_LINES: usize = 12;

/// A round of a load: a transaction, and what follows it.
#[derive(Clone, Copy, Debug, PartialEq, Eq)]
pub struct Round {
    /// Its number, from 1.
    pub number: u64,
    /// How many fields its object has, below 8.
    pub length: u64,
    /// The field of the root that it reads and writes, below 4.
    pub field: u64,
    /// What it does, below 8: 0 clears the field, 1 aborts.
    pub act: u64,
}

impl Round {
    /// The lines of the round.
    pub fn lines(&self, alloc: Global) -> Result<Vec<Line>, AllocError>
        ensures { IfOk result (λ lines. lines.items ≡ round_lines self.now) }
    {
        let mut lines = Vec::with_capacity(alloc, MOST_LINES)?;
        self.push_opening(&mut lines)?;
        self.push_change(&mut lines)?;
        lines.push(self.ending())?;
        self.push_upkeep(&mut lines)?;
        Ok(lines)
    }

    fn push_opening(&self, lines: &mut Vec<Line>) -> Result<(), AllocError>
        ensures { OnOk result (lines.new.items ≡ lines.old.items ++ opening_lines self.now) }
    {
        lines.push(Line::One(Event::Begin { s: SESSION }))?;
        lines.push(Line::One(Event::Root {
            s: SESSION,
            h: ROOT,
        }))?;
        lines.push(Line::One(Event::Get {
            s: SESSION,
            h: ROOT,
            i: self.field,
            h2: READ,
        }))?;
        Ok(())
    }

    fn push_change(&self, lines: &mut Vec<Line>) -> Result<(), AllocError>
        ensures { OnOk result (lines.new.items ≡ lines.old.items ++ change_lines self.now) }
    {
        if self.act == 0 {
            lines.push(Line::One(Event::Clear {
                s: SESSION,
                h: ROOT,
                i: self.field,
            }))?;
            return Ok(());
        }
        self.push_object(lines)
    }

    fn push_object(&self, lines: &mut Vec<Line>) -> Result<(), AllocError>
        ensures { OnOk result (lines.new.items ≡ lines.old.items ++ object_lines self.now) }
    {
        let s = SESSION;
        lines.push(Line::One(Event::New {
            s,
            h: MADE,
            len: self.length,
        }))?;
        if self.length >= 1 {
            lines.push(Line::One(Event::Put {
                s,
                h: MADE,
                i: 0,
                v: self.number,
            }))?;
        }
        if self.length >= 2 && self.act >= 4 {
            lines.push(Line::One(Event::Link {
                s,
                h: MADE,
                i: 1,
                h2: READ,
            }))?;
        }
        lines.push(Line::One(Event::Link {
            s,
            h: ROOT,
            i: self.field,
            h2: MADE,
        }))?;
        Ok(())
    }

    /// How the transaction ends.
    fn ending(&self) -> Line
        ensures { result ≡ ending_line self.now }
    {
        if self.act == 1 {
            Line::One(Event::Abort { s: SESSION })
        } else {
            Line::Commit { s: SESSION }
        }
    }

    fn push_upkeep(&self, lines: &mut Vec<Line>) -> Result<(), AllocError>
        ensures { OnOk result (lines.new.items ≡ lines.old.items ++ upkeep_lines self.now.number) }
    {
        lines.push(Line::One(Event::Scan))?;
        if self.number % 8 == 0 {
            lines.push(Line::One(Event::Flush {
                p: self.number / 8 % 2,
            }))?;
        }
        if self.number % 16 == 0 {
            lines.push(Line::One(Event::Flip))?;
        }
        Ok(())
    }
}

/// A linear congruential generator. A clause sees it as its state.
#[derive(Clone, Copy, Debug, PartialEq, Eq, Drop)]
pub struct Draws {
    state: u64,
}

impl Model for Draws {
    ghost use Rattle.std.specs.Prelude.{ℕ, ◌<◌, ◌^◌};

    ghost Value = { ℕ };

    ghost view = { λ draws. draws.state };

    ghost invariant = { λ draws. draws.state < 2 ^ 31 };

    ghost inverse = { λ state. record { state = state } };
}

impl Draws {
    ghost use Rattle.script_text.specs.Load.{drawn, state_after};

    /// The generator that begins with that state.
    pub fn new(seed: u32) -> Draws
        requires { seed < 2 ^ 31 }
        ensures { result ≡ seed }
    {
        Draws {
            state: u64::from(seed),
        }
    }

    /// The next number, below 2^15.
    pub fn draw(&mut self) -> u64
        ensures state { self.new ≡ state_after self.old }
        ensures drawn { result ≡ drawn self.new }
    {
        self.state = (self.state * 1_103_515_245 + 12_345) % (1 << 31);
        self.state / 65_536
    }
}

/// A load as far as it has been made: how many rounds were made, and how many are to come.
#[derive(Clone, Copy, Debug, PartialEq, Eq, Drop)]
pub struct Load {
    draws: Draws,
    made: u64,
    left: u64,
    ghost few: { made + left < 2 ^ 32 },
}

impl Load {
    ghost use Rattle.std.specs.Prelude.{None, IfSome, []};
    ghost use Rattle.script_text.specs.Load.{load_lines, round_of, state_after_round};
    ghost use Rattle.script_text.specs.Loading.{lines_left, rounds_left};

    /// The load of `count` rounds that is made from `seed`.
    pub fn new(seed: u32, count: u32) -> Load
        requires { seed < 2 ^ 31 }
        ensures lines { lines_left result ≡ load_lines seed count }
        ensures rounds { rounds_left result ≡ count }
    {
        Load {
            draws: Draws::new(seed),
            made: 0,
            left: u64::from(count),
        }
    }

    /// The next round, of those that are to come.
    fn next(&mut self) -> Round
        requires { 0 < self.old.left }
        ensures round { result ≡ round_of (self.old.made + 1) self.old.draws }
        ensures draws { self.new.draws ≡ state_after_round self.old.draws }
        ensures made { self.new.made ≡ self.old.made + 1 }
        ensures left { self.old.left ≡ self.new.left + 1 }
    {
        self.made += 1;
        self.left -= 1;
        Round {
            number: self.made,
            length: self.draws.draw() % 8,
            field: self.draws.draw() % 4,
            act: self.draws.draw() % 8,
        }
    }

    /// The lines of the next round, if one is left. If memory runs out, the round is still left.
    pub fn next_round(&mut self, alloc: Global) -> Result<Option<Vec<Line>>, AllocError>
        ensures end { IfOk result (λ found. found ≡ None → lines_left self.old ≡ []) }
        ensures none { IfOk result (λ found. found ≡ None → self.new ≡ self.old) }
        ensures round { IfOk result (λ found. IfSome found (λ round. lines_left self.old ≡ round.items ++ lines_left self.new)) }
        ensures fewer { IfOk result (λ found. IfSome found (λ round. rounds_left self.old ≡ rounds_left self.new + 1)) }
        ensures err { OnErr result (self.new ≡ self.old) }
    {
        if self.left == 0 {
            return Ok(None);
        }
        let mut later = *self;
        let round = later.next().lines(alloc)?;
        *self = later;
        Ok(Some(round))
    }
}
