//! An entry as a history keeps it.
ghost use Rattle.std.specs.Prelude.{◌≡◌, ◌↔◌, List, IsSome, IfSome};
ghost use Rattle.graph_model.specs.declared.event.Event.TheVariants.{Put};
ghost use Rattle.graph_model.specs.declared.reply.Entry.{Entry};
ghost use Rattle.graph_model.specs.declared.reply.Refusal.TheVariants.{Exhausted, LogFull};
ghost use Rattle.graph_model.specs.declared.reply.Reply.TheVariants.{Done, Refused, Scanned};
ghost use Rattle.brief_entries.specs.Brief.{event_of};
ghost use Rattle.brief_entries.specs.Ordinary.{IsOrdinary};

use crate::brief_event::BriefEvent;
use crate::brief_reply::BriefReply;
use crate::narrow::{field, handle, number};
use graph_model::{Entry, Event, Refusal, Reply};

/// An entry in 24 bytes, if its numbers are ordinary, or the place at which it is kept whole. The session means nothing
/// for an event that is of none, so two forms of one entry may differ.
#[derive(Clone, Copy, Debug)]
pub enum KeptEntry {
    /// A number that was put into a field.
    Wrote {
        s: u8,
        h: u8,
        i: u16,
        v: u64,
    },
    /// An event that was answered with the number in a field.
    Read {
        s: u8,
        event: BriefEvent,
        v: u64,
    },
    /// An event with any other reply that has at most two numbers.
    Answered {
        s: u8,
        event: BriefEvent,
        reply: BriefReply,
    },
    /// An event that was refused because the space had no room.
    Exhausted {
        s: u8,
        event: BriefEvent,
        need: u32,
        free: u32,
        owed: u32,
    },
    /// An event that was refused because the log had no room.
    LogFull {
        s: u8,
        event: BriefEvent,
        used: u32,
        need: u32,
        reserved: u32,
    },
    /// An event that scanned a page.
    Scanned {
        s: u8,
        event: BriefEvent,
        page: u32,
        objects: u32,
        words: u32,
    },
    /// An entry with a number that is not ordinary: it stands at that place of a list of its own.
    Whole {
        place: usize,
    },
}

const _: () = prove!(size_of::<KeptEntry>() == 24);

/// An event of that session and its reply.
fn told(s: u8, event: BriefEvent, reply: Reply) -> Entry
    ensures { result ≡ record { event = event_of event s; reply = reply } }
{
    Entry {
        event: event.event(u32::from(s)),
        reply,
    }
}

/// A put that was done.
fn wrote(s: u8, h: u8, i: u16, v: u64) -> Entry
    ensures { result ≡ record { event = Put s h i v; reply = Done } }
{
    Entry {
        event: Event::Put {
            s: u32::from(s),
            h: u64::from(h),
            i: u64::from(i),
            v,
        },
        reply: Reply::Done,
    }
}

fn exhausted(need: u32, free: u32, owed: u32) -> Reply
    ensures { result ≡ Refused (Exhausted need free owed) }
{
    let why = Refusal::Exhausted {
        need: u64::from(need),
        free: u64::from(free),
        owed: u64::from(owed),
    };
    Reply::Refused { why }
}

fn log_full(used: u32, need: u32, reserved: u32) -> Reply
    ensures { result ≡ Refused (LogFull used need reserved) }
{
    let why = Refusal::LogFull {
        used: u64::from(used),
        need: u64::from(need),
        reserved: u64::from(reserved),
    };
    Reply::Refused { why }
}

fn scanned(page: u32, objects: u32, words: u32) -> Reply
    ensures { result ≡ Scanned page objects words }
{
    Reply::Scanned {
        page: u64::from(page),
        objects: u64::from(objects),
        words: u64::from(words),
    }
}

impl KeptEntry {
    ghost use Rattle.brief_entries.specs.Brief.{entry_of, IsWithin};

    /// The brief form of an entry, if its numbers are ordinary. It needs no list of whole entries.
    pub fn brief(entry: &Entry) -> Option<KeptEntry>
        ensures ordinary { IsSome result ↔ IsOrdinary entry.now }
        ensures same { IfSome result (λ kept. (whole : List Entry) → IsWithin whole kept × (entry_of whole kept ≡ entry.now)) }
    {
        let s = u8::try_from(entry.event.session()).ok()?;
        if let (Event::Put { h, i, v, .. }, Reply::Done) = (entry.event, entry.reply) {
            let (h, i) = (handle(h)?, field(i)?);
            return Some(KeptEntry::Wrote { s, h, i, v });
        }
        let event = BriefEvent::of(&entry.event)?;
        Some(match entry.reply {
            Reply::Int { v } => KeptEntry::Read { s, event, v },
            Reply::Refused {
                why: Refusal::Exhausted { need, free, owed },
            } => KeptEntry::Exhausted {
                s,
                event,
                need: number(need)?,
                free: number(free)?,
                owed: number(owed)?,
            },
            Reply::Refused {
                why: Refusal::LogFull {
                    used,
                    need,
                    reserved,
                },
            } => KeptEntry::LogFull {
                s,
                event,
                used: number(used)?,
                need: number(need)?,
                reserved: number(reserved)?,
            },
            Reply::Scanned {
                page,
                objects,
                words,
            } => KeptEntry::Scanned {
                s,
                event,
                page: number(page)?,
                objects: number(objects)?,
                words: number(words)?,
            },
            _ => KeptEntry::Answered {
                s,
                event,
                reply: BriefReply::of(&entry.reply)?,
            },
        })
    }

    /// The entry that it stands for, given that list of whole entries.
    pub fn entry(self, whole: &[Entry]) -> Entry
        requires { IsWithin whole.now self }
        ensures { result ≡ entry_of whole.now self }
    {
        match self {
            KeptEntry::Wrote { s, h, i, v } => wrote(s, h, i, v),
            KeptEntry::Read { s, event, v } => told(s, event, Reply::Int { v }),
            KeptEntry::Answered { s, event, reply } => told(s, event, reply.reply()),
            KeptEntry::Exhausted {
                s,
                event,
                need,
                free,
                owed,
            } => told(s, event, exhausted(need, free, owed)),
            KeptEntry::LogFull {
                s,
                event,
                used,
                need,
                reserved,
            } => told(s, event, log_full(used, need, reserved)),
            KeptEntry::Scanned {
                s,
                event,
                page,
                objects,
                words,
            } => told(s, event, scanned(page, objects, words)),
            KeptEntry::Whole { place } => whole[place],
        }
    }
}
