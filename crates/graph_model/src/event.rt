//! What is asked of the heap.
ghost use Rattle.std.specs.Prelude.{◌≡◌, Some, ◌↔◌, IsTrue};
ghost use Rattle.graph_model.specs.History.{session_of, IsOfSession};
ghost use Rattle.graph_model.specs.Text.{event_text};

use std::fmt;

/// One step that is asked of the heap. A session is a number from 1 to 32; a handle names one of the 64 registers of the
/// session's transaction.
#[derive(Clone, Copy, Debug, PartialEq, Eq)]
pub enum Event {
    /// Session `s` begins a transaction.
    Begin { s: u32 },
    /// Handle `h` is to hold the root object.
    Root { s: u32, h: u64 },
    /// A new object of `len` null fields is made, and handle `h` is to hold it.
    New { s: u32, h: u64, len: u64 },
    /// Field `i` of the object that `h` holds is to be the number `v`.
    Put { s: u32, h: u64, i: u64, v: u64 },
    /// Field `i` of the object that `h` holds is to be null.
    Clear { s: u32, h: u64, i: u64 },
    /// Field `i` of the object that `h` holds is to refer to the object that `h2` holds.
    Link { s: u32, h: u64, i: u64, h2: u64 },
    /// Handle `h` is to hold nothing.
    Drop { s: u32, h: u64 },
    /// What is in field `i` of the object that `h` holds? If it is a reference, `h2` is to hold the object referred to.
    Get { s: u32, h: u64, i: u64, h2: u64 },
    /// Do `h` and `h2` hold the same object?
    Same { s: u32, h: u64, h2: u64 },
    /// How many fields has the object that `h` holds?
    Len { s: u32, h: u64 },
    /// The transaction of session `s` ends, and what it wrote stays.
    Seal { s: u32 },
    /// The transaction of session `s` ends, and nothing of it stays.
    Abort { s: u32 },
    /// All that was sealed is to be on the disk.
    Force,
    /// A collection is to begin: what sessions hold is copied into the other space, which is the current one from then on.
    Flip,
    /// The objects of one page that may still lead to the from-space are to be scanned. A collection in which none may is to end.
    Scan,
    /// Page `p` is to be stored as it is now.
    Flush { p: u64 },
}

/// The first session.
pub const FIRST_SESSION: u32 = 1;

/// The last one.
pub const LAST_SESSION: u32 = 32;

impl Event {
    /// The session of the event, and 0 for `force`, `flip`, `scan` and `flush`, which are of none.
    pub fn session(&self) -> u32
        ensures { result ≡ session_of self.now }
    {
        match self {
            Event::Begin { s }
            | Event::Root { s, .. }
            | Event::New { s, .. }
            | Event::Put { s, .. }
            | Event::Clear { s, .. }
            | Event::Link { s, .. }
            | Event::Drop { s, .. }
            | Event::Get { s, .. }
            | Event::Same { s, .. }
            | Event::Len { s, .. }
            | Event::Seal { s }
            | Event::Abort { s } => *s,
            Event::Force | Event::Flip | Event::Scan | Event::Flush { .. } => 0,
        }
    }

    /// Whether the event is of a session, that is one from 1 to 32, or of none.
    pub fn is_of_session(&self) -> bool
        ensures { IsTrue result ↔ IsOfSession self.now }
    {
        match self {
            Event::Force | Event::Flip | Event::Scan | Event::Flush { .. } => true,
            _ => FIRST_SESSION <= self.session() && self.session() <= LAST_SESSION,
        }
    }
}

/// The event as a line of a script, without the newline.
impl fmt::Display for Event {
    ghost output = { λ event. Some (event_text event) };

    fn fmt<W: fmt::Write>(&self, f: &mut fmt::Formatter<W>) -> fmt::Result {
        match self {
            Event::Begin { s } => write!(f, "{s} begin"),
            Event::Root { s, h } => write!(f, "{s} root {h}"),
            Event::New { s, h, len } => write!(f, "{s} new {h} {len}"),
            Event::Put { s, h, i, v } => write!(f, "{s} put {h} {i} {v}"),
            Event::Clear { s, h, i } => write!(f, "{s} clear {h} {i}"),
            Event::Link { s, h, i, h2 } => write!(f, "{s} link {h} {i} {h2}"),
            Event::Drop { s, h } => write!(f, "{s} drop {h}"),
            Event::Get { s, h, i, h2 } => write!(f, "{s} get {h} {i} {h2}"),
            Event::Same { s, h, h2 } => write!(f, "{s} same {h} {h2}"),
            Event::Len { s, h } => write!(f, "{s} len {h}"),
            Event::Seal { s } => write!(f, "{s} seal"),
            Event::Abort { s } => write!(f, "{s} abort"),
            Event::Force => f.write_str("force"),
            Event::Flip => f.write_str("flip"),
            Event::Scan => f.write_str("scan"),
            Event::Flush { p } => write!(f, "flush {p}"),
        }
    }
}
