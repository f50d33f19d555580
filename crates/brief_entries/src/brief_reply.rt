//! A reply other than the number in a field, with at most two numbers of its own, in twelve bytes.
ghost use Rattle.std.specs.Prelude.{◌≡◌, ◌↔◌, IsSome, IfSome};
ghost use Rattle.brief_entries.specs.Ordinary.{IsBriefRefusal, IsBriefReply};

use crate::narrow::number;
use graph_model::{Refusal, Reply};

/// Why an event was refused, if the refusal has at most one number.
#[derive(Clone, Copy, Debug)]
pub enum BriefRefusal {
    Failed { entry: u32 },
    AlreadyActive,
    NotActive,
    NumbersSpent,
    BadHandle,
    Range,
    BadField,
    NoSuchPage,
    Busy { holder: u32 },
    VolatileFull { used: u32 },
    DiskFault,
    Stopped,
}

/// What an event was answered, if that is not the number in a field and has at most two others.
#[derive(Clone, Copy, Debug)]
pub enum BriefReply {
    Begun { n: u32 },
    Done,
    Null,
    Reference,
    Yes,
    No,
    Length { n: u32 },
    Sealed { n: u32 },
    Aborted,
    Durable { n: u32 },
    Flipped { objects: u32, words: u32 },
    Collecting,
    Collected { used: u32 },
    Idle,
    Flushed { page: u32 },
    Clean { page: u32 },
    Refused { why: BriefRefusal },
}

const _: () = prove!(size_of::<BriefReply>() == 12);

impl BriefRefusal {
    ghost use Rattle.brief_entries.specs.Brief.{refusal_of};

    /// The brief form of a refusal, if it has one.
    pub fn of(refusal: &Refusal) -> Option<BriefRefusal>
        ensures ordinary { IsSome result ↔ IsBriefRefusal refusal.now }
        ensures same { IfSome result (λ brief. refusal_of brief ≡ refusal.now) }
    {
        Some(match *refusal {
            Refusal::Failed { entry } => BriefRefusal::Failed {
                entry: number(entry)?,
            },
            Refusal::AlreadyActive => BriefRefusal::AlreadyActive,
            Refusal::NotActive => BriefRefusal::NotActive,
            Refusal::NumbersSpent => BriefRefusal::NumbersSpent,
            Refusal::BadHandle => BriefRefusal::BadHandle,
            Refusal::Range => BriefRefusal::Range,
            Refusal::BadField => BriefRefusal::BadField,
            Refusal::NoSuchPage => BriefRefusal::NoSuchPage,
            Refusal::Busy { holder } => BriefRefusal::Busy {
                holder: number(holder)?,
            },
            Refusal::VolatileFull { used } => BriefRefusal::VolatileFull {
                used: number(used)?,
            },
            Refusal::Exhausted { .. } | Refusal::LogFull { .. } => return None,
            Refusal::DiskFault => BriefRefusal::DiskFault,
            Refusal::Stopped => BriefRefusal::Stopped,
        })
    }

    /// The refusal that it stands for.
    pub fn refusal(self) -> Refusal
        ensures { result ≡ refusal_of self }
    {
        match self {
            BriefRefusal::Failed { entry } => Refusal::Failed {
                entry: u64::from(entry),
            },
            BriefRefusal::AlreadyActive => Refusal::AlreadyActive,
            BriefRefusal::NotActive => Refusal::NotActive,
            BriefRefusal::NumbersSpent => Refusal::NumbersSpent,
            BriefRefusal::BadHandle => Refusal::BadHandle,
            BriefRefusal::Range => Refusal::Range,
            BriefRefusal::BadField => Refusal::BadField,
            BriefRefusal::NoSuchPage => Refusal::NoSuchPage,
            BriefRefusal::Busy { holder } => Refusal::Busy {
                holder: u64::from(holder),
            },
            BriefRefusal::VolatileFull { used } => Refusal::VolatileFull {
                used: u64::from(used),
            },
            BriefRefusal::DiskFault => Refusal::DiskFault,
            BriefRefusal::Stopped => Refusal::Stopped,
        }
    }
}

impl BriefReply {
    ghost use Rattle.brief_entries.specs.Brief.{reply_of};

    /// The brief form of a reply, if it has one.
    pub fn of(reply: &Reply) -> Option<BriefReply>
        ensures ordinary { IsSome result ↔ IsBriefReply reply.now }
        ensures same { IfSome result (λ brief. reply_of brief ≡ reply.now) }
    {
        Some(match *reply {
            Reply::Begun { n } => BriefReply::Begun { n: number(n)? },
            Reply::Done => BriefReply::Done,
            Reply::Null => BriefReply::Null,
            Reply::Reference => BriefReply::Reference,
            Reply::Yes => BriefReply::Yes,
            Reply::No => BriefReply::No,
            Reply::Length { n } => BriefReply::Length { n: number(n)? },
            Reply::Sealed { n } => BriefReply::Sealed { n: number(n)? },
            Reply::Aborted => BriefReply::Aborted,
            Reply::Durable { n } => BriefReply::Durable { n: number(n)? },
            Reply::Flipped { objects, words } => BriefReply::Flipped {
                objects: number(objects)?,
                words: number(words)?,
            },
            Reply::Collecting => BriefReply::Collecting,
            Reply::Int { .. } | Reply::Scanned { .. } => return None,
            Reply::Collected { used } => BriefReply::Collected {
                used: number(used)?,
            },
            Reply::Idle => BriefReply::Idle,
            Reply::Flushed { page } => BriefReply::Flushed {
                page: number(page)?,
            },
            Reply::Clean { page } => BriefReply::Clean {
                page: number(page)?,
            },
            Reply::Refused { why } => BriefReply::Refused {
                why: BriefRefusal::of(&why)?,
            },
        })
    }

    /// The reply that it stands for.
    pub fn reply(self) -> Reply
        ensures { result ≡ reply_of self }
    {
        match self {
            BriefReply::Begun { n } => Reply::Begun { n: u64::from(n) },
            BriefReply::Done => Reply::Done,
            BriefReply::Null => Reply::Null,
            BriefReply::Reference => Reply::Reference,
            BriefReply::Yes => Reply::Yes,
            BriefReply::No => Reply::No,
            BriefReply::Length { n } => Reply::Length { n: u64::from(n) },
            BriefReply::Sealed { n } => Reply::Sealed { n: u64::from(n) },
            BriefReply::Aborted => Reply::Aborted,
            BriefReply::Durable { n } => Reply::Durable { n: u64::from(n) },
            BriefReply::Flipped { objects, words } => Reply::Flipped {
                objects: u64::from(objects),
                words: u64::from(words),
            },
            BriefReply::Collecting => Reply::Collecting,
            BriefReply::Collected { used } => Reply::Collected {
                used: u64::from(used),
            },
            BriefReply::Idle => Reply::Idle,
            BriefReply::Flushed { page } => Reply::Flushed {
                page: u64::from(page),
            },
            BriefReply::Clean { page } => Reply::Clean {
                page: u64::from(page),
            },
            BriefReply::Refused { why } => Reply::Refused { why: why.refusal() },
        }
    }
}
