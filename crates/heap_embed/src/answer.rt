//! What a host is answered, and the numbers that spell it.
ghost use Rattle.std.specs.Prelude.{◌≡◌};
ghost use Rattle.heap_embed.specs.Spelling as spelling;

use graph_model::{Refusal, Reply};
use heap_core::{At, FormatError, OpenError};

/// What a host is answered.
#[derive(Clone, Copy, Debug, PartialEq, Eq)]
pub enum Answer {
    /// It was done.
    Done,
    /// Memory was refused. Of an event nothing was done.
    NoMemory,
    /// The image is no heap's.
    NotHeap,
    /// The heap is damaged at that place.
    Damaged { at: At },
    /// A call of the host's has failed, or the record of changes had no room: the heap can only be closed.
    Failed,
    /// The numbers spell nothing.
    NotAnAsk,
    /// It can't be asked now.
    NotNow,
    /// The image has `size` bytes of the `need` that the heap takes.
    TooSmall { size: u64, need: u64 },
    /// The numbers of a heap are past their limits.
    PastLimits,
    /// The change writes `length` bytes at `at`.
    Write { at: u64, length: u64 },
    /// The change is a sync.
    Sync,
    /// There is no such change.
    NoItem,
    /// Something was written and not synced: nothing is forgotten.
    Unsynced,
    /// The number that was asked for.
    Number { n: u64 },
    /// What the event was answered.
    Reply { reply: Reply },
}

/// The numbers that go with an answer's code, in their order; zeros where there are fewer.
#[derive(Clone, Copy, Debug, PartialEq, Eq)]
pub struct Numbers {
    pub first: u64,
    pub second: u64,
    pub third: u64,
}

/// The numbers that spell an answer: its code, and those that go with it.
#[derive(Clone, Copy, Debug, PartialEq, Eq)]
pub struct Spelled {
    pub code: u64,
    pub numbers: Numbers,
}

/// No numbers.
pub const NONE: Numbers = Numbers {
    first: 0,
    second: 0,
    third: 0,
};

impl From<OpenError> for Answer {
    ghost use Rattle.std.specs.Prelude.{◌≡◌};
    ghost use Rattle.heap_embed.specs.Told.{open_answer};

    ghost from_gives = { λ e answer. answer ≡ open_answer e };

    fn from(e: OpenError) -> Self {
        match e {
            OpenError::NoMemory => Answer::NoMemory,
            OpenError::NotHeap => Answer::NotHeap,
            OpenError::Damaged { at } => Answer::Damaged { at },
            OpenError::DiskFault | OpenError::Stopped => Answer::Failed,
        }
    }
}

impl From<FormatError> for Answer {
    ghost use Rattle.std.specs.Prelude.{◌≡◌};
    ghost use Rattle.heap_embed.specs.Told.{format_answer};

    ghost from_gives = { λ e answer. answer ≡ format_answer e };

    fn from(e: FormatError) -> Self {
        match e {
            FormatError::TooSmall { size, need } => Answer::TooSmall { size, need },
            FormatError::DiskFault | FormatError::Stopped => Answer::Failed,
        }
    }
}

/// A code with no number.
fn bare(code: u64) -> Spelled
    ensures { result ≡ spelling.bare code }
{
    with(code, 0, 0, 0)
}

/// A code with its numbers.
fn with(code: u64, first: u64, second: u64, third: u64) -> Spelled
    ensures { result ≡ spelling.with code first second third }
{
    let numbers = Numbers {
        first,
        second,
        third,
    };
    Spelled { code, numbers }
}

/// The numbers that spell the answer.
pub fn spell(answer: Answer) -> Spelled
    ensures { result ≡ spelling.spelled answer }
{
    match answer {
        Answer::Done => bare(0),
        Answer::NoMemory => bare(1),
        Answer::NotHeap => bare(2),
        Answer::Damaged { at } => spell_place(at),
        Answer::Failed => bare(4),
        Answer::NotAnAsk => bare(5),
        Answer::NotNow => bare(6),
        Answer::TooSmall { size, need } => with(7, size, need, 0),
        Answer::PastLimits => bare(8),
        Answer::Write { at, length } => with(9, at, length, 0),
        Answer::Sync => bare(10),
        Answer::NoItem => bare(11),
        Answer::Unsynced => bare(12),
        Answer::Number { n } => with(13, n, 0, 0),
        Answer::Reply { reply } => spell_reply(reply),
    }
}

/// A damaged heap: the kind of the place, and its number.
fn spell_place(at: At) -> Spelled
    ensures { result ≡ spelling.spelled_place at }
{
    match at {
        At::Batch(offset) => with(3, 0, offset, 0),
        At::Rec(lsn) => with(3, 1, lsn, 0),
        At::Reserve => with(3, 2, 0, 0),
        At::Page(page) => with(3, 3, u64::from(page), 0),
        At::Address(address) => with(3, 4, u64::from(address), 0),
    }
}

fn spell_reply(reply: Reply) -> Spelled
    ensures { result ≡ spelling.spelled_reply reply }
{
    match reply {
        Reply::Begun { n } => with(32, n, 0, 0),
        Reply::Done => bare(33),
        Reply::Null => bare(34),
        Reply::Int { v } => with(35, v, 0, 0),
        Reply::Reference => bare(36),
        Reply::Yes => bare(37),
        Reply::No => bare(38),
        Reply::Length { n } => with(39, n, 0, 0),
        Reply::Sealed { n } => with(40, n, 0, 0),
        Reply::Aborted => bare(41),
        Reply::Durable { n } => with(42, n, 0, 0),
        Reply::Flipped { objects, words } => with(43, objects, words, 0),
        Reply::Collecting => bare(44),
        Reply::Scanned {
            page,
            objects,
            words,
        } => with(45, page, objects, words),
        Reply::Collected { used } => with(46, used, 0, 0),
        Reply::Idle => bare(47),
        Reply::Flushed { page } => with(48, page, 0, 0),
        Reply::Clean { page } => with(49, page, 0, 0),
        Reply::Refused { why } => spell_refusal(why),
    }
}

fn spell_refusal(why: Refusal) -> Spelled
    ensures { result ≡ spelling.spelled_refusal why }
{
    match why {
        Refusal::Failed { entry } => with(64, entry, 0, 0),
        Refusal::AlreadyActive => bare(65),
        Refusal::NotActive => bare(66),
        Refusal::NumbersSpent => bare(67),
        Refusal::BadHandle => bare(68),
        Refusal::Range => bare(69),
        Refusal::BadField => bare(70),
        Refusal::NoSuchPage => bare(71),
        Refusal::Busy { holder } => with(72, holder, 0, 0),
        Refusal::VolatileFull { used } => with(73, used, 0, 0),
        Refusal::Exhausted { need, free, owed } => with(74, need, free, owed),
        Refusal::LogFull {
            used,
            need,
            reserved,
        } => with(75, used, need, reserved),
        Refusal::DiskFault => bare(76),
        Refusal::Stopped => bare(77),
    }
}
