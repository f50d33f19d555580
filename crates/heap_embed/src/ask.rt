//! What a host asks, and the numbers that spell it.
ghost use Rattle.std.specs.Prelude.{◌≡◌};
ghost use Rattle.heap_embed.specs.Spelling.{asked, asked_else, asked_event};

use graph_model::Event;

/// What a host asks.
#[derive(Clone, Copy, Debug, PartialEq, Eq)]
pub enum Ask {
    /// `count` bytes more of the image, at most 8: the lowest ones of `word`, the lowest first.
    More {
        word: u64,
        count: u64,
    },
    /// `count` zeros more of the image.
    Zeros {
        count: u64,
    },
    /// An empty heap is to be made in the image.
    Format {
        pages: u64,
        log_bytes: u64,
        first: u64,
    },
    /// The heap is to be opened.
    Open,
    /// How many changes are told?
    Told,
    /// What is change `k`?
    Item {
        k: u64,
    },
    /// Which eight bytes does change `k` write from its byte `from` on?
    Bytes {
        k: u64,
        from: u64,
    },
    /// All that was told has been made.
    Done,
    /// A call of the host's has failed.
    Fail,
    /// What is number `i` of the last answer?
    Last {
        i: u64,
    },
    /// What is figure `i` of the heap?
    Figure {
        i: u64,
    },
    /// The heap is to be closed as it is.
    Close,
    /// The event is to be made.
    Event {
        event: Event,
    },
}

/// The number of the first event.
const FIRST_EVENT: u64 = 32;

/// The request that these numbers spell: what is asked, the session, and the numbers that go with it.
pub fn read_ask(op: u64, s: u64, a: u64, b: u64, c: u64) -> Option<Ask>
    ensures { result ≡ asked op s a b c }
{
    if op < FIRST_EVENT {
        return read_else(op, a, b, c);
    }
    let Ok(s) = u32::try_from(s) else {
        return None;
    };
    match read_event(op, s, a, b, c) {
        Some(event) => Some(Ask::Event { event }),
        None => None,
    }
}

/// What they ask besides events.
fn read_else(op: u64, a: u64, b: u64, c: u64) -> Option<Ask>
    ensures { result ≡ asked_else op a b c }
{
    match op {
        1 => Some(Ask::More { word: a, count: b }),
        2 => Some(Ask::Zeros { count: a }),
        3 => Some(Ask::Format {
            pages: a,
            log_bytes: b,
            first: c,
        }),
        4 => Some(Ask::Open),
        5 => Some(Ask::Told),
        6 => Some(Ask::Item { k: a }),
        7 => Some(Ask::Bytes { k: a, from: b }),
        8 => Some(Ask::Done),
        9 => Some(Ask::Fail),
        10 => Some(Ask::Last { i: a }),
        11 => Some(Ask::Figure { i: a }),
        12 => Some(Ask::Close),
        _ => None,
    }
}

/// The event that these numbers spell.
fn read_event(op: u64, s: u32, a: u64, b: u64, c: u64) -> Option<Event>
    ensures { result ≡ asked_event op s a b c }
{
    let (h, i, h2) = (a, b, c);
    match op {
        32 => Some(Event::Begin { s }),
        33 => Some(Event::Root { s, h }),
        34 => Some(Event::New { s, h, len: b }),
        35 => Some(Event::Put { s, h, i, v: c }),
        36 => Some(Event::Clear { s, h, i }),
        37 => Some(Event::Link { s, h, i, h2 }),
        38 => Some(Event::Drop { s, h }),
        39 => Some(Event::Get { s, h, i, h2 }),
        40 => Some(Event::Same { s, h, h2: b }),
        41 => Some(Event::Len { s, h }),
        42 => Some(Event::Seal { s }),
        43 => Some(Event::Abort { s }),
        44 => Some(Event::Force),
        45 => Some(Event::Flush { p: a }),
        46 => Some(Event::Flip),
        47 => Some(Event::Scan),
        _ => None,
    }
}
