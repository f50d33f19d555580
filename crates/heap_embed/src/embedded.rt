//! A heap that is asked by numbers.
ghost use Rattle.std.specs.Prelude.{◌≡◌, ◌⊎◌, ℕ, [], Some, None, IsTrue, IsFalse};
ghost use Rattle.heap_embed.specs.Spelling.{asked, bare, last_number};

use crate::answer::{Answer, NONE, Numbers, spell};
use crate::ask::{Ask, read_ask};
use crate::state::State;
use disk_model::{Disk, MemoryDisk};
use std::alloc::Global;

/// A heap inside its host's process, which makes what it is told on a file of its own.
#[derive(Drop)]
pub struct Embedded {
    alloc: Global,
    state: State,
    /// Whether a call of the host's has failed.
    broken: bool,
    /// The numbers of the last answer.
    last: Numbers,
}

impl Embedded {
    ghost use Rattle.heap_embed.specs.Embedding.{Answers, HandedIn, IsFigureOf};
    ghost use Rattle.heap_embed.specs.Calling.{CallsAs, IsReading};
    ghost use Rattle.heap_embed.specs.declared.ask.Ask.{Ask};

    /// One to which nothing was handed in yet.
    pub fn new(alloc: Global) -> Embedded
        ensures { HandedIn result.state [] × IsFalse result.broken × (result.last ≡ (bare 0).numbers) }
    {
        Embedded {
            alloc,
            state: State::Image(Vec::new(alloc)),
            broken: false,
            last: NONE,
        }
    }

    /// Answers what these numbers ask, by numbers: `Last` asks for those that go with the one that is returned.
    pub fn call(&mut self, op: u64, s: u64, a: u64, b: u64, c: u64) -> u64
        ensures broken { IsTrue self.old.broken → (self.new.state ≡ self.old.state) × IsTrue self.new.broken }
        ensures failed { IsTrue self.old.broken → (ask : Ask) → asked op s a b c ≡ Some ask → IsReading ask ⊎ ((result ≡ (bare 4).code) × (self.new.last ≡ (bare 4).numbers)) }
        ensures asked { IsFalse self.old.broken → (ask : Ask) → asked op s a b c ≡ Some ask → ((i : ℕ) × (ask ≡ Ask.Last i)) ⊎ CallsAs ⟦<MemoryDisk as Disk>⟧ ask self.old.state result self.new.last self.new.state }
        ensures last { (i : ℕ) → asked op s a b c ≡ Some (Ask.Last i) → (result ≡ last_number self.old.last i) × (self.new ≡ self.old) }
        ensures breaks { IsFalse self.old.broken → IsTrue self.new.broken → asked op s a b c ≡ Some Ask.Fail }
        ensures fails { asked op s a b c ≡ Some Ask.Fail → IsTrue self.new.broken × (IsFalse self.old.broken → result ≡ (bare 0).code) }
        ensures figure { (i : ℕ) → asked op s a b c ≡ Some (Ask.Figure i) → (result ≡ 13) × IsFigureOf ⟦<MemoryDisk as Disk>⟧ self.old.state i self.new.last.first }
        ensures unasked { asked op s a b c ≡ None → (result ≡ (bare 5).code) × (self.new.last ≡ (bare 5).numbers) × (self.new.state ≡ self.old.state) × (self.new.broken ≡ self.old.broken) }
    {
        let answer = match read_ask(op, s, a, b, c) {
            Some(Ask::Last { i }) => return self.number(i),
            Some(ask) => self.ask(ask),
            None => Answer::NotAnAsk,
        };
        let spelled = spell(answer);
        self.last = spelled.numbers;
        spelled.code
    }

    /// Answers. After a call of the host's has failed nothing is done any more.
    pub fn ask(&mut self, ask: Ask) -> Answer
        ensures broken { IsTrue self.old.broken → self.new ≡ self.old }
        ensures failed { IsTrue self.old.broken → IsReading ask ⊎ (result ≡ Answer.Failed) }
        ensures answers { IsFalse self.old.broken → Answers ⟦<MemoryDisk as Disk>⟧ self.old.state ask result self.new.state }
        ensures breaks { IsFalse self.old.broken → IsTrue self.new.broken → ask ≡ Ask.Fail }
        ensures fails { ask ≡ Ask.Fail → IsTrue self.new.broken × (IsFalse self.old.broken → result ≡ Answer.Done) }
        ensures figure { (i : ℕ) → ask ≡ Ask.Figure i → (n : ℕ) × (result ≡ Answer.Number n) × IsFigureOf ⟦<MemoryDisk as Disk>⟧ self.old.state i n }
        ensures number { (i : ℕ) → ask ≡ Ask.Last i → result ≡ Answer.Number (last_number self.old.last i) }
        ensures last { self.new.last ≡ self.old.last }
    {
        match ask {
            Ask::Last { i } => Answer::Number { n: self.number(i) },
            Ask::Figure { i } => Answer::Number {
                n: self.state.figure(i),
            },
            _ if self.broken => Answer::Failed,
            Ask::Fail => {
                self.broken = true;
                Answer::Done
            }
            _ => self.state.answer(self.alloc, ask),
        }
    }

    /// Number `i` of the last answer.
    fn number(&self, i: u64) -> u64
        ensures { result ≡ last_number self.now.last i }
    {
        match i {
            0 => self.last.first,
            1 => self.last.second,
            2 => self.last.third,
            _ => 0,
        }
    }
}
