//! The walk of the words: objects stand end to end from the root on, in the from-space too while a collection runs, and each field is one that
//! a heap may hold.
use crate::records::{FRONT_WORDS, fields_of, is_plain, is_reference};
use crate::state::{Collection, Moved, State, moved_from};
use std::alloc::{AllocError, Global};

/// The root's header: it has four fields.
const ROOT_HEADER: u64 = 17;

/// A row of objects that stand end to end.
#[derive(Drop)]
struct Row {
    /// Their addresses.
    objects: Vec<u64>,
    /// How many words those of them take that were copied.
    copied: u64,
    /// Where the row breaks off, if it does so before its end.
    broken: Option<u64>,
}

/// The first address, if any, at which the words are not those of a heap in that state.
pub fn walk_fault(alloc: Global, words: &[u64], state: &State) -> Result<Option<u64>, AllocError> {
    let (base, end) = (state.base, state.end);
    if word_at(words, base) != ROOT_HEADER || word_at(words, base.saturating_add(1)) != 0 {
        return Ok(Some(base));
    }
    let row = read_row(alloc, words, (base, end), &[], &[])?;
    if row.broken.is_some() {
        return Ok(row.broken);
    }
    match &state.collection {
        None => Ok(bad_object(words, &row.objects, &[], &[], &[])),
        Some(k) => collection_fault(alloc, words, &row.objects, k),
    }
}

/// The same after the row of the current space, while a collection runs. What was copied has as many words as were counted.
fn collection_fault(
    alloc: Global,
    words: &[u64],
    objects: &[u64],
    k: &Collection,
) -> Result<Option<u64>, AllocError> {
    let old = read_row(alloc, words, (k.first, k.end), &k.moved, objects)?;
    if old.broken.is_some() {
        return Ok(old.broken);
    }
    if old.copied != k.copied {
        return Ok(Some(k.first));
    }
    let gray = gray_nowhere(&k.gray, objects);
    if gray.is_some() {
        return Ok(gray);
    }
    let bad = bad_object(words, objects, &[], &k.gray, &old.objects);
    if bad.is_some() {
        return Ok(bad);
    }
    Ok(bad_object(words, &old.objects, &k.moved, &[], &[]))
}

fn word_at(words: &[u64], at: u64) -> u64 {
    match words.get(at as usize) {
        Some(word) => *word,
        None => 0,
    }
}

/// How many words the object at an address takes. One that was copied takes as many as its copy, to which a word there leads.
fn size_at(words: &[u64], at: u64, moved: &[Moved], copies: &[u64]) -> Option<u64> {
    let mut header = word_at(words, at);
    if moved_from(moved, at).is_some() {
        if !is_reference(header) || !copies.contains(&(header / 4)) {
            return None;
        }
        header = word_at(words, header / 4);
    }
    Some(fields_of(header)?.saturating_add(FRONT_WORDS))
}

/// The objects from an address to another one, where they end.
fn read_row(
    alloc: Global,
    words: &[u64],
    (from, end): (u64, u64),
    moved: &[Moved],
    copies: &[u64],
) -> Result<Row, AllocError> {
    let mut row = Row {
        objects: Vec::new(alloc),
        copied: 0,
        broken: None,
    };
    let mut next = from;
    for _ in from..end {
        if next >= end {
            break;
        }
        let size = size_at(words, next, moved, copies).unwrap_or(u64::MAX);
        if next.saturating_add(size) > end {
            row.broken = Some(next);
            break;
        }
        row.objects.push(next)?;
        if moved_from(moved, next).is_some() {
            row.copied = row.copied.saturating_add(size);
        }
        next = next.saturating_add(size);
    }
    Ok(row)
}

/// The lowest address of a gray object at which none stands.
fn gray_nowhere(gray: &[u64], objects: &[u64]) -> Option<u64> {
    let mut lowest = None;
    for at in gray {
        let below = match lowest {
            Some(other) => *at < other,
            None => true,
        };
        if below && !objects.contains(at) {
            lowest = Some(*at);
        }
    }
    lowest
}

/// The address of the first object with a field that no heap may hold: one leads to an object of the row, and one of a gray object to others too. An
/// object that was copied has no fields here.
fn bad_object(
    words: &[u64],
    objects: &[u64],
    moved: &[Moved],
    gray: &[u64],
    others: &[u64],
) -> Option<u64> {
    for at in objects {
        let others = if gray.contains(at) { others } else { &[] };
        if moved_from(moved, *at).is_none() && !has_legal_fields(words, *at, objects, others) {
            return Some(*at);
        }
    }
    None
}

fn has_legal_fields(words: &[u64], at: u64, objects: &[u64], others: &[u64]) -> bool {
    let first = at.saturating_add(FRONT_WORDS);
    for field in 0..fields_of(word_at(words, at)).unwrap_or(0) {
        let word = word_at(words, first.saturating_add(field));
        let to = word / 4;
        let leads = is_reference(word) && (objects.contains(&to) || others.contains(&to));
        if !leads && !is_plain(word) {
            return false;
        }
    }
    true
}
