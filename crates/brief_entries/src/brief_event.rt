//! An event without its session, in eight bytes.
ghost use Rattle.std.specs.Prelude.{◌≡◌, ◌↔◌, IsSome, IfSome};
ghost use Rattle.graph_model.specs.History.{session_of};
ghost use Rattle.brief_entries.specs.Ordinary.{IsOrdinaryEvent};

use crate::narrow::{field, handle, number};
use graph_model::Event;

/// An event whose numbers are ordinary, without its session.
#[derive(Clone, Copy, Debug)]
pub enum BriefEvent {
    Begin,
    Root { h: u8 },
    New { h: u8, len: u32 },
    Put { h: u8, i: u16, v: u32 },
    Clear { h: u8, i: u16 },
    Link { h: u8, h2: u8, i: u16 },
    Drop { h: u8 },
    Get { h: u8, h2: u8, i: u16 },
    Same { h: u8, h2: u8 },
    Len { h: u8 },
    Seal,
    Abort,
    Force,
    Flip,
    Scan,
    Flush { p: u32 },
}

const _: () = prove!(size_of::<BriefEvent>() == 8);

impl BriefEvent {
    ghost use Rattle.brief_entries.specs.Brief.{event_of};

    /// The brief form of an event, if its numbers are ordinary. It leaves the session out.
    pub fn of(event: &Event) -> Option<BriefEvent>
        ensures ordinary { IsSome result ↔ IsOrdinaryEvent event.now }
        ensures same { IfSome result (λ brief. event_of brief (session_of event.now) ≡ event.now) }
    {
        Some(match *event {
            Event::Begin { .. } => BriefEvent::Begin,
            Event::Root { h, .. } => BriefEvent::Root { h: handle(h)? },
            Event::New { h, len, .. } => BriefEvent::New {
                h: handle(h)?,
                len: number(len)?,
            },
            Event::Put { h, i, v, .. } => BriefEvent::Put {
                h: handle(h)?,
                i: field(i)?,
                v: number(v)?,
            },
            Event::Clear { h, i, .. } => BriefEvent::Clear {
                h: handle(h)?,
                i: field(i)?,
            },
            Event::Link { h, i, h2, .. } => BriefEvent::Link {
                h: handle(h)?,
                h2: handle(h2)?,
                i: field(i)?,
            },
            Event::Drop { h, .. } => BriefEvent::Drop { h: handle(h)? },
            Event::Get { h, i, h2, .. } => BriefEvent::Get {
                h: handle(h)?,
                h2: handle(h2)?,
                i: field(i)?,
            },
            Event::Same { h, h2, .. } => BriefEvent::Same {
                h: handle(h)?,
                h2: handle(h2)?,
            },
            Event::Len { h, .. } => BriefEvent::Len { h: handle(h)? },
            Event::Seal { .. } => BriefEvent::Seal,
            Event::Abort { .. } => BriefEvent::Abort,
            Event::Force => BriefEvent::Force,
            Event::Flip => BriefEvent::Flip,
            Event::Scan => BriefEvent::Scan,
            Event::Flush { p } => BriefEvent::Flush { p: number(p)? },
        })
    }

    /// The event that it stands for, of that session.
    pub fn event(self, s: u32) -> Event
        ensures { result ≡ event_of self s }
    {
        match self {
            BriefEvent::Begin => Event::Begin { s },
            BriefEvent::Root { h } => Event::Root { s, h: u64::from(h) },
            BriefEvent::New { h, len } => Event::New {
                s,
                h: u64::from(h),
                len: u64::from(len),
            },
            BriefEvent::Put { h, i, v } => Event::Put {
                s,
                h: u64::from(h),
                i: u64::from(i),
                v: u64::from(v),
            },
            BriefEvent::Clear { h, i } => Event::Clear {
                s,
                h: u64::from(h),
                i: u64::from(i),
            },
            BriefEvent::Link { h, h2, i } => Event::Link {
                s,
                h: u64::from(h),
                i: u64::from(i),
                h2: u64::from(h2),
            },
            BriefEvent::Drop { h } => Event::Drop { s, h: u64::from(h) },
            BriefEvent::Get { h, h2, i } => Event::Get {
                s,
                h: u64::from(h),
                i: u64::from(i),
                h2: u64::from(h2),
            },
            BriefEvent::Same { h, h2 } => Event::Same {
                s,
                h: u64::from(h),
                h2: u64::from(h2),
            },
            BriefEvent::Len { h } => Event::Len { s, h: u64::from(h) },
            BriefEvent::Seal => Event::Seal { s },
            BriefEvent::Abort => Event::Abort { s },
            BriefEvent::Force => Event::Force,
            BriefEvent::Flip => Event::Flip,
            BriefEvent::Scan => Event::Scan,
            BriefEvent::Flush { p } => Event::Flush { p: u64::from(p) },
        }
    }
}
