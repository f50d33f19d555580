//! What the heap answers.
ghost use Rattle.std.specs.Prelude.{Some};
ghost use Rattle.graph_model.specs.Text.{entry_text, refusal_text, reply_text};

use crate::event::Event;
use std::fmt;

/// Why an event was refused. All but the last two leave the heap as it was.
#[derive(Clone, Copy, Debug, PartialEq, Eq)]
pub enum Refusal {
    /// The heap has failed: the entry of that number, from 1, was answered `diskfault` or `stopped`.
    Failed { entry: u64 },
    /// The session has a transaction already.
    AlreadyActive,
    /// The session has no transaction.
    NotActive,
    /// No transaction number is left.
    NumbersSpent,
    /// There is no such handle, or it holds nothing.
    BadHandle,
    /// The number is too large for a field, or too many fields are asked for.
    Range,
    /// The object has no such field.
    BadField,
    /// There is no page of that number.
    NoSuchPage,
    /// Other transactions hold conflicting locks on the object; this is the least of their numbers.
    Busy { holder: u64 },
    /// The transaction's volatile area has no room: that many of its words are used.
    VolatileFull { used: u64 },
    /// The space has no room: the event needs `need` words, `free` are free, and `owed` of these are kept for copies.
    Exhausted { need: u64, free: u64, owed: u64 },
    /// The log has no room: `used` bytes are used, the event needs `need`, and `reserved` are kept for what must not fail.
    LogFull { used: u64, need: u64, reserved: u64 },
    /// The disk failed in this event.
    DiskFault,
    /// The disk stopped in this event.
    Stopped,
}

/// What an event was answered.
#[derive(Clone, Copy, Debug, PartialEq, Eq)]
pub enum Reply {
    /// The transaction of that number began.
    Begun { n: u64 },
    /// It was done.
    Done,
    /// The field is null.
    Null,
    /// The field is this number.
    Int { v: u64 },
    /// The field is a reference.
    Reference,
    /// It is so.
    Yes,
    /// It is not so.
    No,
    /// The object has that many fields.
    Length { n: u64 },
    /// The transaction was sealed, the nth since the heap was opened.
    Sealed { n: u64 },
    /// The transaction ended, and nothing of it stays.
    Aborted,
    /// All that was sealed is on the disk: that many transactions since the heap was opened.
    Durable { n: u64 },
    /// A collection began. It copied that many objects, of that many words.
    Flipped { objects: u64, words: u64 },
    /// A collection runs already.
    Collecting,
    /// The objects of the page were scanned, and that many objects copied, of that many words.
    Scanned { page: u64, objects: u64, words: u64 },
    /// The collection ended. The objects of the current space take that many words.
    Collected { used: u64 },
    /// No collection runs.
    Idle,
    /// The page was stored.
    Flushed { page: u64 },
    /// The page has not changed since it was stored.
    Clean { page: u64 },
    /// It was not done.
    Refused { why: Refusal },
}

/// An event and its answer.
#[derive(Clone, Copy, Debug, PartialEq, Eq)]
pub struct Entry {
    pub event: Event,
    pub reply: Reply,
}

impl fmt::Display for Refusal {
    ghost output = { λ refusal. Some (refusal_text refusal) };

    fn fmt<W: fmt::Write>(&self, f: &mut fmt::Formatter<W>) -> fmt::Result {
        match self {
            Refusal::Failed { entry } => write!(f, "failed {entry}"),
            Refusal::AlreadyActive => f.write_str("alreadyactive"),
            Refusal::NotActive => f.write_str("notactive"),
            Refusal::NumbersSpent => f.write_str("numbersspent"),
            Refusal::BadHandle => f.write_str("badhandle"),
            Refusal::Range => f.write_str("range"),
            Refusal::BadField => f.write_str("badfield"),
            Refusal::NoSuchPage => f.write_str("nosuchpage"),
            Refusal::Busy { holder } => write!(f, "busy {holder}"),
            Refusal::VolatileFull { used } => write!(f, "volatilefull {used}"),
            Refusal::Exhausted { need, free, owed } => write!(f, "exhausted {need} {free} {owed}"),
            Refusal::LogFull {
                used,
                need,
                reserved,
            } => write!(f, "logfull {used} {need} {reserved}"),
            Refusal::DiskFault => f.write_str("diskfault"),
            Refusal::Stopped => f.write_str("stopped"),
        }
    }
}

impl fmt::Display for Reply {
    ghost output = { λ reply. Some (reply_text reply) };

    fn fmt<W: fmt::Write>(&self, f: &mut fmt::Formatter<W>) -> fmt::Result {
        match self {
            Reply::Begun { n } => write!(f, "begun {n}"),
            Reply::Done => f.write_str("done"),
            Reply::Null => f.write_str("null"),
            Reply::Int { v } => write!(f, "int {v}"),
            Reply::Reference => f.write_str("ref"),
            Reply::Yes => f.write_str("yes"),
            Reply::No => f.write_str("no"),
            Reply::Length { n } => write!(f, "len {n}"),
            Reply::Sealed { n } => write!(f, "sealed {n}"),
            Reply::Aborted => f.write_str("aborted"),
            Reply::Durable { n } => write!(f, "durable {n}"),
            Reply::Flipped { objects, words } => write!(f, "flipped {objects} {words}"),
            Reply::Collecting => f.write_str("collecting"),
            Reply::Scanned {
                page,
                objects,
                words,
            } => write!(f, "scanned {page} {objects} {words}"),
            Reply::Collected { used } => write!(f, "collected {used}"),
            Reply::Idle => f.write_str("idle"),
            Reply::Flushed { page } => write!(f, "flushed {page}"),
            Reply::Clean { page } => write!(f, "clean {page}"),
            Reply::Refused { why } => write!(f, "{why}"),
        }
    }
}

/// The event and its answer as a line of a script's output, without the newline.
impl fmt::Display for Entry {
    ghost output = { λ entry. Some (entry_text entry) };

    fn fmt<W: fmt::Write>(&self, f: &mut fmt::Formatter<W>) -> fmt::Result {
        write!(f, "{} -> {}", self.event, self.reply)
    }
}
