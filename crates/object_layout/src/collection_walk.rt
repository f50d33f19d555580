//! The walk of the heap's spaces, also while a collection runs.
ghost use Rattle.std.specs.Prelude.{Contains, ◌^◌, ◌≡◌, ℕ, ◌≤◌, ◌+◌, ◌-◌, ◌<◌, ◌++◌, IsTrue, IfOk, OnOk, Err, IfSome, IfNone, MatchBool, List, take, drop};
ghost use Rattle.std.specs.Option.{option_map};
ghost use Rattle.heap_words.specs.Word.{meaning};
ghost use Rattle.object_layout.specs.Walk.{IsInside, AreInside, AreAscending, IsFilled};
ghost use Rattle.object_layout.specs.CollectionWalk.{given, from_end, open_to, targets, AreAmong, AllKeepInside, AreOldObjects, IsFirstStray, IsFirstOut, IsCollectionWalked, IsCollectionFault, IsWalkedBeside, IsWalkFaultBeside};
ghost use Rattle.object_layout.specs.Read.{IsRead, disk_failure};
ghost use Rattle.object_layout.specs.WalkFailure.{walk_failure};

use crate::from_space::{FromSpace, find_old_starts, old_end};
use crate::object::object_before;
use crate::space::{are_inside, find_starts, is_inside, walk};
use crate::walk_error::WalkError;
use crate::words::Words;
use disk_model::DiskError;
use heap_spaces::Collection;
use heap_words::FIELDS_AT;
use std::alloc::Global;

/// Walks the space whose used words begin at `base` as [`walk`] does, and the from-space too if a collection runs. Then these are checked,
/// each on all words before the next:
///
/// 1. The current space's used words are objects end to end, the root first.
/// 2. So are the from-space's. Exactly the copied ones have forwarding words, each to an object of the current space, whose length counts;
///    and they take as many words as were copied.
/// 3. Each gray object is one of the current space.
/// 4. A field in the current space is null, a number or a reference to an object of it; in a gray object also to one of the from-space.
/// 5. A field of an object that is not yet copied is null, a number or a reference to an object of the from-space.
///
/// If one fails, the first address at which it does is reported: for a field its object's, and for copied words that don't add up the
/// from-space's base.
pub fn walk_beside<W: Words>(
    alloc: Global,
    words: &mut W,
    base: u32,
    used: u32,
    from: Option<FromSpace<'_>>,
) -> Result<(), WalkError>
    requires space { base + used ≤ W.extent words.old }
    requires from_space { IfSome from (λ f. f.base + f.collection.now.used ≤ W.extent words.old) }
    ensures passes { IsTrue W.tells → OnOk result (IsWalkedBeside (W.content words.old) base used (option_map given from.entry)) }
    ensures fault { IsTrue W.tells → (at : ℕ) → result ≡ Err (WalkError.Damaged at) → IsWalkFaultBeside (W.content words.old) base used (option_map given from.entry) at }
    ensures read { IsRead W.tells W.extent W.content W.keeps W.faults W.stops words.old words.new (walk_failure result) }
{
    match from {
        None => walk(alloc, words, base, used),
        Some(from) => walk_both(alloc, words, base, used, from),
    }
}

// The walk of the spaces of a collection.
fn walk_both<W: Words>(
    alloc: Global,
    words: &mut W,
    base: u32,
    used: u32,
    from: FromSpace<'_>,
) -> Result<(), WalkError>
    requires space { base + used ≤ W.extent words.old }
    requires from_space { from.base + from.collection.now.used ≤ W.extent words.old }
    ensures passes { IsTrue W.tells → OnOk result (IsCollectionWalked (W.content words.old) base used (given from.entry)) }
    ensures fault { IsTrue W.tells → (at : ℕ) → result ≡ Err (WalkError.Damaged at) → IsCollectionFault (W.content words.old) base used (given from.entry) at }
    ensures read { IsRead W.tells W.extent W.content W.keeps W.faults W.stops words.old words.new (walk_failure result) }
{
    let size = words.size();
    prove!(base <= size && used <= size - base);
    let end = base + used;
    let starts = find_starts(alloc, words, base, end)?;
    let olds = find_old_starts(alloc, words, &starts, from)?;
    if let Some(address) = first_stray(&starts, from.collection) {
        return Err(WalkError::Damaged { address });
    }
    check_fields(words, &starts, &olds, from.collection, end)?;
    check_old_fields(words, &olds, from)
}

// The least gray address at which none of these objects starts.
fn first_stray(starts: &[u32], collection: &Collection) -> Option<u32>
    ensures some { AreAscending starts.now → IfSome result (IsFirstStray collection.now.gray starts.now) }
    ensures none { AreAscending starts.now → ((at : ℕ) → Contains starts.now at → at + 1 < 2 ^ 32) → IfNone result (AreAmong collection.now.gray starts.now) }
{
    let mut from = 0;
    while let Some(at) = collection.first_gray_from(from) {
        if starts.binary_search(&at).is_err() {
            return Some(at);
        }
        from = at.checked_add(1)?;
    }
    None
}

// Reports the first object of the current space with a field that leads elsewhere than it may.
fn check_fields<W: Words>(
    words: &mut W,
    starts: &[u32],
    olds: &[u32],
    collection: &Collection,
    end: u32,
) -> Result<(), WalkError>
    requires { end ≤ W.extent words.old }
    ensures passes { IsTrue W.tells → AreAscending olds.now → OnOk result ((base used : ℕ) → end ≡ base + used → IsFilled (W.content words.old) base used starts.now → AllKeepInside (W.content words.old) (targets collection.now starts.now olds.now) starts.now) }
    ensures fault { IsTrue W.tells → AreAscending olds.now → (at base used : ℕ) → end ≡ base + used → IsFilled (W.content words.old) base used starts.now → result ≡ Err (WalkError.Damaged at) → IsFirstOut (W.content words.old) (targets collection.now starts.now olds.now) starts.now at }
    ensures read { IsRead W.tells W.extent W.content W.keeps W.faults W.stops words.old words.new (walk_failure result) }
{
    for at in starts {
        let at = *at;
        let more = opened(olds, collection.is_gray(at));
        match object_before(words, end, at)? {
            Some(n)
                if are_inside_either(words, starts, more, at + FIELDS_AT, at + FIELDS_AT + n)? => {}
            _ => return Err(WalkError::Damaged { address: at }),
        }
    }
    Ok(())
}

// Those of the from-space's objects to which a field may lead: all if its own object is gray, otherwise none.
fn opened<'a>(olds: &'a [u32], gray: bool) -> &'a [u32]
    ensures { result.now ≡ open_to gray olds.now }
{
    if gray { olds } else { &olds[..0] }
}

// Reports the first object of the from-space that was not copied with a field that leads elsewhere.
fn check_old_fields<W: Words>(
    words: &mut W,
    olds: &[u32],
    from: FromSpace<'_>,
) -> Result<(), WalkError>
    requires { from.base + from.collection.now.used ≤ W.extent words.old }
    ensures passes { IsTrue W.tells → OnOk result ((starts : List ℕ) → AreOldObjects (W.content words.old) starts (given from.entry) olds.now (from_end (given from.entry)) → AllKeepInside (W.content words.old) (λ at. olds.now) olds.now) }
    ensures fault { IsTrue W.tells → (at : ℕ) (starts : List ℕ) → AreOldObjects (W.content words.old) starts (given from.entry) olds.now (from_end (given from.entry)) → result ≡ Err (WalkError.Damaged at) → IsFirstOut (W.content words.old) (λ a. olds.now) olds.now at }
    ensures read { IsRead W.tells W.extent W.content W.keeps W.faults W.stops words.old words.new (walk_failure result) }
{
    let end = old_end(words, from);
    for at in olds {
        let at = *at;
        if from.collection.has_moved(at) {
            continue;
        }
        match object_before(words, end, at)? {
            Some(n) if are_inside(words, olds, at + FIELDS_AT, at + FIELDS_AT + n)? => {}
            _ => return Err(WalkError::Damaged { address: at }),
        }
    }
    Ok(())
}

// Whether the words from an address up to an end are fields that lead only to the objects of two lists.
fn are_inside_either<W: Words>(
    words: &mut W,
    starts: &[u32],
    more: &[u32],
    from: u32,
    end: u32,
) -> Result<bool, DiskError>
    requires order { from ≤ end }
    requires within { end ≤ W.extent words.old }
    ensures inside { IsTrue W.tells → AreAscending starts.now → AreAscending more.now → IfOk result (λ are. MatchBool are (AreInside (starts.now ++ more.now) (take (end - from) (drop from (W.content words.old)))) (AreInside (starts.now ++ more.now) (take (end - from) (drop from (W.content words.old))) → ⊥)) }
    ensures read { IsRead W.tells W.extent W.content W.keeps W.faults W.stops words.old words.new (disk_failure result) }
{
    for at in from..end {
        let word = words.word(at)?;
        if !is_inside_either(starts, more, word) {
            return Ok(false);
        }
    }
    Ok(true)
}

// Whether a field with this word is null, a number or a reference to an object of one of two lists.
fn is_inside_either(starts: &[u32], more: &[u32], word: u64) -> bool
    ensures { AreAscending starts.now → AreAscending more.now → MatchBool result (IsInside (starts.now ++ more.now) (meaning word)) (IsInside (starts.now ++ more.now) (meaning word) → ⊥) }
{
    is_inside(starts, word) || is_inside(more, word)
}
