//! The bytes of a frame, and which of a page's two frames counts.
ghost use Rattle.std.specs.Prelude.{◌≡◌, length};
ghost use Rattle.page_store.specs.Frame.{frame_body, is_frame_open, frame_lsn, frame_words, counting, lsn_in, words_or, spare};
ghost use Rattle.page_store.specs.Page.{frame_number, first_words};

use byteorder::{ByteOrder, LittleEndian};
use gate_slot::OPEN;
use heap_words::ROOT_FIELDS;

/// The words of a page.
pub const PAGE_WORDS: usize = heap_words::PAGE_WORDS as usize;

/// The bytes of a frame.
pub(crate) const FRAME_BYTES: usize = image_plan::FRAME_BYTES as usize;

/// The bytes of a frame behind its gate.
pub(crate) const BODY_BYTES: usize = FRAME_BYTES - 1;

/// The offset of a frame's LSN, and that of its words.
const LSN_AT: usize = 8;

const WORDS_AT: usize = 16;

/// The first word of page 0 before it is stored: the header of a heap's root.
const ROOT_HEADER: u64 = 4 * ROOT_FIELDS as u64 + 1;

/// One of the two frames of a page.
#[derive(Clone, Copy, Debug, PartialEq, Eq)]
pub enum Frame {
    First,
    Second,
}

impl Frame {
    /// Its number in the plan of an image.
    pub(crate) fn number(self) -> u32
        ensures { result ≡ frame_number self }
    {
        match self {
            Frame::First => 0,
            Frame::Second => 1,
        }
    }

    /// The spare frame, given the one that counts, if any.
    pub(crate) fn spare(counts: Option<Frame>) -> Frame
        ensures { result ≡ spare counts }
    {
        match counts {
            Some(Frame::First) => Frame::Second,
            Some(Frame::Second) | None => Frame::First,
        }
    }
}

/// What a page holds on the disk.
#[derive(Clone, Copy, Debug, PartialEq, Eq)]
pub struct StoredPage {
    /// The LSN in the frame that counts, which may be 0 too, or 0 if none counts.
    pub lsn: u64,
    /// Its words.
    pub words: [u64; PAGE_WORDS],
}

/// What is kept in memory of a page on the disk.
#[derive(Clone, Copy, Debug, PartialEq, Eq)]
pub(crate) struct Stored {
    /// The LSN with which it was stored, or 0.
    pub(crate) lsn: u64,
    /// The frame that counts.
    pub(crate) counts: Option<Frame>,
}

/// The bytes of a frame behind its gate.
pub(crate) fn body_of(lsn: u64, words: &[u64; PAGE_WORDS]) -> [u8; BODY_BYTES]
    ensures { result ≡ frame_body lsn words.now }
{
    let mut body = [0u8; BODY_BYTES];
    LittleEndian::write_u64(&mut body[LSN_AT - 1..], lsn);
    LittleEndian::write_u64_into(words, &mut body[WORDS_AT - 1..]);
    body
}

/// The contents of a page that was never stored.
pub(crate) fn first_contents(p: u32) -> [u64; PAGE_WORDS]
    ensures { result ≡ first_words p }
{
    let mut words = [0u64; PAGE_WORDS];
    if p == 0 {
        words[0] = ROOT_HEADER;
    }
    words
}

/// The words in a frame.
pub(crate) fn words_of(frame: &[u8]) -> [u64; PAGE_WORDS]
    requires { length frame.now ≡ 528 }
    ensures { result ≡ frame_words frame.now }
{
    let mut words = [0u64; PAGE_WORDS];
    LittleEndian::read_u64_into(&frame[WORDS_AT..], &mut words);
    words
}

/// What the two frames of page `p` hold, and which of them counts.
pub(crate) fn read_page(p: u32, first: &[u8], second: &[u8]) -> (Stored, [u64; PAGE_WORDS])
    requires first { length first.now ≡ 528 }
    requires second { length second.now ≡ 528 }
    ensures lsn { result.0.lsn ≡ lsn_in first.now second.now }
    ensures counts { result.0.counts ≡ counting first.now second.now }
    ensures words { result.1 ≡ words_or (first_words p) first.now second.now }
{
    let counts = newest(first, second);
    let frame = match counts {
        None => return (Stored { lsn: 0, counts }, first_contents(p)),
        Some(Frame::First) => first,
        Some(Frame::Second) => second,
    };
    let lsn = lsn_of(frame);
    (Stored { lsn, counts }, words_of(frame))
}

/// Which of a page's two frames counts.
fn newest(first: &[u8], second: &[u8]) -> Option<Frame>
    requires first { length first.now ≡ 528 }
    requires second { length second.now ≡ 528 }
    ensures { result ≡ counting first.now second.now }
{
    match (is_open(first), is_open(second)) {
        (false, false) => None,
        (true, false) => Some(Frame::First),
        (false, true) => Some(Frame::Second),
        (true, true) if lsn_of(first) < lsn_of(second) => Some(Frame::Second),
        (true, true) => Some(Frame::First),
    }
}

/// Whether a frame's gate is open.
fn is_open(frame: &[u8]) -> bool
    requires { length frame.now ≡ 528 }
    ensures { result ≡ is_frame_open frame.now }
{
    frame[0] == OPEN
}

/// The LSN in a frame.
fn lsn_of(frame: &[u8]) -> u64
    requires { length frame.now ≡ 528 }
    ensures { result ≡ frame_lsn frame.now }
{
    LittleEndian::read_u64(&frame[LSN_AT..])
}
