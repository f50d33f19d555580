//! The space that a collection empties: its objects stand end to end, copied or not.
ghost use Rattle.std.specs.Prelude.{◌≡◌, ℕ, ◌≤◌, ◌+◌, ◌<◌, IsTrue, IfOk, IfSome, Err, slice_index, if◌then◌else◌};
ghost use Rattle.heap_words.specs.Header.{header as header_at};
ghost use Rattle.object_layout.specs.Walk.{AreAscending};
ghost use Rattle.object_layout.specs.CollectionWalk.{given, copy_length, ending, old_object, from_end, IsOldFilled, IsOldFault};
ghost use Rattle.object_layout.specs.Read.{IsRead, disk_failure};
ghost use Rattle.object_layout.specs.WalkFailure.{walk_failure};

use crate::object::{object_at, object_before};
use crate::walk_error::WalkError;
use crate::words::Words;
use disk_model::DiskError;
use heap_spaces::Collection;
use heap_words::{FIELDS_AT, Header, header_of};
use std::alloc::Global;

/// The space that a collection empties.
#[derive(Clone, Copy)]
pub struct FromSpace<'a> {
    /// The word address at which it begins.
    pub base: u32,
    /// What the collection has copied, and which of the copies are gray.
    pub collection: &'a Collection,
}

// The addresses of the from-space's objects, copied or not. Those that were copied have forwarding words, which lead to some of the
// objects of the current space, and take as many words as the collection counts.
pub(crate) fn find_old_starts<W: Words>(
    alloc: Global,
    words: &mut W,
    starts: &[u32],
    from: FromSpace<'_>,
) -> Result<Vec<u32>, WalkError>
    requires { from.base + from.collection.now.used ≤ W.extent words.old }
    ensures filled { IsTrue W.tells → AreAscending starts.now → IfOk result (λ olds. IsOldFilled (W.content words.old) starts.now (given from.entry) olds.items) }
    ensures fault { IsTrue W.tells → AreAscending starts.now → (at : ℕ) → result ≡ Err (WalkError.Damaged at) → IsOldFault (W.content words.old) starts.now (given from.entry) at }
    ensures read { IsRead W.tells W.extent W.content W.keeps W.faults W.stops words.old words.new (walk_failure result) }
{
    let end = old_end(words, from);
    let mut olds = Vec::new(alloc);
    let mut copied = 0;
    let mut at = from.base;
    while at < end {
        let moved = from.collection.has_moved(at);
        match old_object_at(words, starts, end, at, moved)? {
            None => return Err(WalkError::Damaged { address: at }),
            Some(n) => {
                olds.push(at)?;
                let size = FIELDS_AT + n;
                let counted = words_copied(moved, size);
                copied += counted;
                at += size;
            }
        }
    }
    if copied != from.collection.copied() {
        return Err(WalkError::Damaged { address: from.base });
    }
    Ok(olds)
}

// How many words an object of that size adds to those that were copied.
fn words_copied(moved: bool, size: u32) -> u32
    ensures words { result ≡ if moved then size else 0 }
    ensures most { result ≤ size }
{
    if moved { size } else { 0 }
}

// The end of the from-space's used words.
pub(crate) fn old_end<W: Words>(words: &W, from: FromSpace<'_>) -> u32
    requires { from.base + from.collection.now.used ≤ W.extent words.now }
    ensures { result ≡ from_end (given from.entry) }
{
    let size = words.size();
    let used = from.collection.used();
    prove!(from.base <= size && used <= size - from.base);
    from.base + used
}

// The number of fields of the object at an address of the from-space, if one ends before the end of the used words: by its copy, if
// it was copied.
fn old_object_at<W: Words>(
    words: &mut W,
    starts: &[u32],
    end: u32,
    at: u32,
    moved: bool,
) -> Result<Option<u32>, DiskError>
    requires words { end ≤ W.extent words.old }
    requires before { at < end }
    ensures object { IsTrue W.tells → AreAscending starts.now → IfOk result (λ object. object ≡ old_object (W.content words.old) starts.now end at moved) }
    ensures within { IfOk result (λ object. IfSome object (λ n. at + 2 + n ≤ end)) }
    ensures read { IsRead W.tells W.extent W.content W.keeps W.faults W.stops words.old words.new (disk_failure result) }
{
    if moved {
        copied_object(words, starts, end, at)
    } else {
        object_before(words, end, at)
    }
}

// The same for one that was copied.
fn copied_object<W: Words>(
    words: &mut W,
    starts: &[u32],
    end: u32,
    at: u32,
) -> Result<Option<u32>, DiskError>
    requires words { end ≤ W.extent words.old }
    requires before { at < end }
    ensures object { IsTrue W.tells → AreAscending starts.now → IfOk result (λ object. object ≡ ending end at (copy_length (W.content words.old) starts.now (header_at (slice_index (W.content words.old) at)))) }
    ensures within { IfOk result (λ object. IfSome object (λ n. at + 2 + n ≤ end)) }
    ensures read { IsRead W.tells W.extent W.content W.keeps W.faults W.stops words.old words.new (disk_failure result) }
{
    let word = words.word(at)?;
    match header_of(word) {
        Some(Header::Forward(to)) if starts.binary_search(&to).is_ok() => {
            let length = object_at(words, to)?;
            Ok(ending_before(end, at, length))
        }
        _ => Ok(None),
    }
}

// The number of fields of an object, if its words end before an end.
fn ending_before(end: u32, at: u32, length: Option<u32>) -> Option<u32>
    requires { at < end }
    ensures length { result ≡ ending end at length }
    ensures within { IfSome result (λ n. at + 2 + n ≤ end) }
{
    let rest = end - at;
    match length {
        Some(n) if rest >= FIELDS_AT && rest - FIELDS_AT >= n => Some(n),
        _ => None,
    }
}
