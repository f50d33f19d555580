//! The entries of a history in a smaller form: an event and its reply in 24 bytes, if their numbers are ordinary.
//!
//! `specs/Ordinary.antt` says which numbers these are, and `specs/Brief.antt` which event, reply or entry a brief form stands for.
#![tactic(auto)]

mod brief_event;
mod brief_reply;
mod kept_entry;
mod narrow;

pub use brief_event::BriefEvent;
pub use brief_reply::{BriefRefusal, BriefReply};
pub use kept_entry::KeptEntry;
