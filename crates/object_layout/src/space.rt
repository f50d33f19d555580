//! The walk of a space, which checks that its words are objects that refer only to one another.
ghost use Rattle.std.specs.Prelude.{◌≡◌, ℕ, ◌≤◌, ◌+◌, ◌-◌, ◌<◌, ◌↔◌, IsTrue, IfOk, OnOk, Err, List, length, take, drop, MatchBool};
ghost use Rattle.heap_words.specs.Word.{meaning};
ghost use Rattle.object_layout.specs.Walk.{AreEndToEnd, IsRootAt, IsInside, AreInside, AreAscending, IsFilled, IsWalked, BreaksAt, IsWalkFault};
ghost use Rattle.object_layout.specs.Layout.{object_at};
ghost use Rattle.object_layout.specs.Read.{IsRead, disk_failure};
ghost use Rattle.object_layout.specs.WalkFailure.{walk_failure};

use crate::object::object_before;
use crate::walk_error::WalkError;
use crate::words::Words;
use disk_model::DiskError;
use heap_words::{FIELDS_AT, ROOT_FIELDS, Word};
use std::alloc::Global;

/// The birth of the root, which no transaction made.
const ROOT_BIRTH: u64 = 0;

/// Walks the space whose used words begin at `base`: they are objects end to end, the root first, and each field is null, a number or
/// a reference to one of these objects. If that isn't so, the first address at which it fails is reported: that of what is no object, or
/// else of the first object with such a field.
pub fn walk<W: Words>(alloc: Global, words: &mut W, base: u32, used: u32) -> Result<(), WalkError>
    requires { base + used ≤ W.extent words.old }
    ensures passes { IsTrue W.tells → OnOk result (IsWalked (W.content words.old) base used) }
    ensures fault { IsTrue W.tells → (at : ℕ) → result ≡ Err (WalkError.Damaged at) → IsWalkFault (W.content words.old) base used at }
    ensures read { IsRead W.tells W.extent W.content W.keeps W.faults W.stops words.old words.new (walk_failure result) }
{
    let size = words.size();
    prove!(base <= size && used <= size - base);
    let end = base + used;
    let starts = find_starts(alloc, words, base, end)?;
    check_fields(words, &starts, end)
}

// The addresses of the objects that fill the words from the base up to an end.
pub(crate) fn find_starts<W: Words>(
    alloc: Global,
    words: &mut W,
    base: u32,
    end: u32,
) -> Result<Vec<u32>, WalkError>
    requires { end ≤ W.extent words.old }
    ensures filled { IsTrue W.tells → IfOk result (λ starts. (used : ℕ) → end ≡ base + used → IsFilled (W.content words.old) base used starts.items) }
    ensures fault { IsTrue W.tells → (at used : ℕ) → end ≡ base + used → result ≡ Err (WalkError.Damaged at) → BreaksAt (W.content words.old) base used at }
    ensures read { IsRead W.tells W.extent W.content W.keeps W.faults W.stops words.old words.new (walk_failure result) }
{
    if is_root_at(words, end, base)? {
        end_to_end(alloc, words, base, end)
    } else {
        Err(WalkError::Damaged { address: base })
    }
}

// The addresses of the objects that stand end to end from one address to another.
fn end_to_end<W: Words>(
    alloc: Global,
    words: &mut W,
    from: u32,
    end: u32,
) -> Result<Vec<u32>, WalkError>
    requires { end ≤ W.extent words.old }
    ensures objects { IsTrue W.tells → IfOk result (λ starts. from ≤ end → AreEndToEnd (take end (W.content words.old)) from starts.items end) }
    ensures fault { IsTrue W.tells → (at : ℕ) → result ≡ Err (WalkError.Damaged at) → (starts : List ℕ) × AreEndToEnd (take end (W.content words.old)) from starts at × (at < end) × (object_at (take end (W.content words.old)) at ≡ None) }
    ensures read { IsRead W.tells W.extent W.content W.keeps W.faults W.stops words.old words.new (walk_failure result) }
{
    let mut starts = Vec::new(alloc);
    let mut at = from;
    while at < end {
        match object_before(words, end, at)? {
            None => return Err(WalkError::Damaged { address: at }),
            Some(n) => {
                starts.push(at)?;
                at += FIELDS_AT + n;
            }
        }
    }
    Ok(starts)
}

// Whether the root object stands at an address, with all its words before the end.
fn is_root_at<W: Words>(words: &mut W, end: u32, at: u32) -> Result<bool, DiskError>
    requires { end ≤ W.extent words.old }
    ensures root { IsTrue W.tells → IfOk result (λ is. IsTrue is ↔ IsRootAt (take end (W.content words.old)) at) }
    ensures read { IsRead W.tells W.extent W.content W.keeps W.faults W.stops words.old words.new (disk_failure result) }
{
    match object_before(words, end, at)? {
        Some(ROOT_FIELDS) => Ok(words.word(at + 1)? == ROOT_BIRTH),
        _ => Ok(false),
    }
}

// Reports the first of these objects with a field that leads elsewhere.
fn check_fields<W: Words>(words: &mut W, starts: &[u32], end: u32) -> Result<(), WalkError>
    requires { end ≤ W.extent words.old }
    ensures passes { IsTrue W.tells → OnOk result ((base used : ℕ) → end ≡ base + used → IsFilled (W.content words.old) base used starts.now → IsWalked (W.content words.old) base used) }
    ensures fault { IsTrue W.tells → (at base used : ℕ) → end ≡ base + used → IsFilled (W.content words.old) base used starts.now → result ≡ Err (WalkError.Damaged at) → IsWalkFault (W.content words.old) base used at }
    ensures read { IsRead W.tells W.extent W.content W.keeps W.faults W.stops words.old words.new (walk_failure result) }
{
    for at in starts {
        let at = *at;
        match object_before(words, end, at)? {
            Some(n) if are_inside(words, starts, at + FIELDS_AT, at + FIELDS_AT + n)? => {}
            _ => return Err(WalkError::Damaged { address: at }),
        }
    }
    Ok(())
}

// Whether the words from an address up to an end are fields that lead only to these objects.
pub(crate) fn are_inside<W: Words>(
    words: &mut W,
    starts: &[u32],
    from: u32,
    end: u32,
) -> Result<bool, DiskError>
    requires order { from ≤ end }
    requires within { end ≤ W.extent words.old }
    ensures inside { IsTrue W.tells → AreAscending starts.now → IfOk result (λ are. MatchBool are (AreInside starts.now (take (end - from) (drop from (W.content words.old)))) (AreInside starts.now (take (end - from) (drop from (W.content words.old))) → ⊥)) }
    ensures read { IsRead W.tells W.extent W.content W.keeps W.faults W.stops words.old words.new (disk_failure result) }
{
    for at in from..end {
        let word = words.word(at)?;
        if !is_inside(starts, word) {
            return Ok(false);
        }
    }
    Ok(true)
}

// Whether a field with this word is null, a number or a reference to one of these objects.
pub(crate) fn is_inside(starts: &[u32], word: u64) -> bool
    ensures { AreAscending starts.now → MatchBool result (IsInside starts.now (meaning word)) (IsInside starts.now (meaning word) → ⊥) }
{
    match heap_words::decode(word) {
        Some(Word::Null | Word::Int(_)) => true,
        Some(Word::Stable(address)) => starts.binary_search(&address).is_ok(),
        Some(Word::Volatile(_)) | None => false,
    }
}
