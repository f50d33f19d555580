//! The lines of a script: the words of each, and what they ask for.
ghost use Rattle.std.specs.Prelude.{◌≡◌, ◌∷◌, [], ◌==◌, Some, IfOk, map, option_map, option_and_then};
ghost use Rattle.script_text.specs.Line.{has_outer_blank, pieces, words, session, call_of, numbers, line_of, read_text};

use crate::number::read_number;
use graph_model::{Event, FIRST_SESSION, LAST_SESSION};
use std::alloc::{AllocError, Global};

/// A line of a script.
#[derive(Clone, Copy, Debug, PartialEq, Eq)]
pub enum Line {
    /// One event.
    One(Event),
    /// A seal of the session, followed by a force.
    Commit { s: u32 },
}

/// Whether the first or the last byte is a blank.
fn has_outer_blank(text: &[u8]) -> bool
    ensures { result ≡ has_outer_blank text.now }
{
    text.first() == Some(&b' ') || text.last() == Some(&b' ')
}

/// What stands between the blanks, without the empty pieces.
fn pieces_of(alloc: Global, text: &[u8]) -> Result<Vec<&[u8]>, AllocError>
    ensures { IfOk result (λ v. map (λ word. word.now) v.items ≡ pieces text.now) }
{
    text.split(|byte| *byte == b' ')
        .filter(|piece| !piece.is_empty())
        .collect(alloc)
}

/// The words of a line, which one or more blanks part; None where a blank stands first or last.
fn words_of(alloc: Global, text: &[u8]) -> Result<Option<Vec<&[u8]>>, AllocError>
    ensures { IfOk result (λ found. option_map (λ v. map (λ word. word.now) v.items) found ≡ words text.now) }
{
    if has_outer_blank(text) {
        return Ok(None);
    }
    Ok(Some(pieces_of(alloc, text)?))
}

/// What a verb asks of session `s` alone.
fn bare_call_of(s: u32, verb: &[u8]) -> Option<Line>
    ensures { result ≡ call_of s verb.now [] }
{
    match verb {
        b"begin" => Some(Line::One(Event::Begin { s })),
        b"seal" => Some(Line::One(Event::Seal { s })),
        b"abort" => Some(Line::One(Event::Abort { s })),
        b"commit" => Some(Line::Commit { s }),
        _ => None,
    }
}

/// What a verb asks of session `s` with one number.
fn handle_call_of(s: u32, verb: &[u8], h: u64) -> Option<Line>
    ensures { result ≡ call_of s verb.now (h ∷ []) }
{
    match verb {
        b"root" => Some(Line::One(Event::Root { s, h })),
        b"drop" => Some(Line::One(Event::Drop { s, h })),
        b"len" => Some(Line::One(Event::Len { s, h })),
        _ => None,
    }
}

/// What a verb asks of session `s` with two numbers.
fn pair_call_of(s: u32, verb: &[u8], h: u64, second: u64) -> Option<Line>
    ensures { result ≡ call_of s verb.now (h ∷ second ∷ []) }
{
    match verb {
        b"new" => Some(Line::One(Event::New { s, h, len: second })),
        b"clear" => Some(Line::One(Event::Clear { s, h, i: second })),
        b"same" => Some(Line::One(Event::Same { s, h, h2: second })),
        _ => None,
    }
}

/// What a verb asks of session `s` with three numbers.
fn field_call_of(s: u32, verb: &[u8], h: u64, i: u64, third: u64) -> Option<Line>
    ensures { result ≡ call_of s verb.now (h ∷ i ∷ third ∷ []) }
{
    match verb {
        b"put" => Some(Line::One(Event::Put { s, h, i, v: third })),
        b"link" => Some(Line::One(Event::Link { s, h, i, h2: third })),
        b"get" => Some(Line::One(Event::Get { s, h, i, h2: third })),
        _ => None,
    }
}

/// What a verb asks of session `s` with the numbers that the words spell.
fn call_of(s: u32, verb: &[u8], words: &[&[u8]]) -> Option<Line>
    ensures { result ≡ option_and_then (call_of s verb.now) (numbers (map (λ word. word.now) words.now)) }
{
    match words {
        [] => bare_call_of(s, verb),
        [h] => handle_call_of(s, verb, read_number(h)?),
        [h, second] => pair_call_of(s, verb, read_number(h)?, read_number(second)?),
        [h, i, third] => field_call_of(
            s,
            verb,
            read_number(h)?,
            read_number(i)?,
            read_number(third)?,
        ),
        _ => None,
    }
}

/// The session that the word spells.
fn read_session(word: &[u8]) -> Option<u32>
    ensures { result ≡ session word.now }
{
    let s = u32::try_from(read_number(word)?).ok()?;
    (FIRST_SESSION..=LAST_SESSION).contains(&s).then_some(s)
}

/// The line that the words spell.
fn line_of(words: &[&[u8]]) -> Option<Line>
    ensures { result ≡ line_of (map (λ word. word.now) words.now) }
{
    match words {
        [b"force"] => Some(Line::One(Event::Force)),
        [b"flip"] => Some(Line::One(Event::Flip)),
        [b"scan"] => Some(Line::One(Event::Scan)),
        [b"flush", page] => Some(Line::One(Event::Flush {
            p: read_number(page)?,
        })),
        [session, verb, rest @ ..] => call_of(read_session(session)?, verb, rest),
        _ => None,
    }
}

/// The line that the text spells.
pub fn read_text(alloc: Global, text: &[u8]) -> Result<Option<Line>, AllocError>
    ensures { IfOk result (λ found. found ≡ read_text text.now) }
{
    let Some(words) = words_of(alloc, text)? else {
        return Ok(None);
    };
    Ok(line_of(&words))
}
