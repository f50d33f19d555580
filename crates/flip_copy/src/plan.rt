//! Which objects a flip copies, and where to.
ghost use Rattle.std.specs.Prelude.{◌≡◌, ◌≢◌, ℕ, ◌+◌, ◌≤◌, ◌<◌, IsTrue, IfOk, IfSome, Some, Err, take, vec_len};
ghost use Rattle.heap_spaces.specs.Spaces.{flipped};
ghost use Rattle.object_layout.specs.Layout.{object_at};
ghost use Rattle.object_layout.specs.Read.{IsRead, disk_failure};
ghost use Rattle.flip_copy.specs.Copied.{object_words_at, copies_from, with_base, root_copies, copied_size};
ghost use Rattle.flip_copy.specs.FlipFailure.{flip_failure};
ghost use Rattle.flip_copy.specs.Plan.{AreCopiesOf, AreRootsIn};

use crate::flip_error::FlipError;
use crate::flip_plan::FlipPlan;
use disk_model::DiskError;
use heap_spaces::Spaces;
use heap_words::{FIELDS_AT, MOST_FIELDS};
use log_records::{ObjectCopy, ObjectWords};
use object_layout::{Words, object_at};
use std::alloc::{AllocError, Global};

#[tactic(auto, using(crate::proofs::CopiesLaws::planned_size, crate::proofs::CopiesLaws::planned_moves, crate::proofs::CopiesLaws::planned_few))]
/// The copies of the root object and of the objects at these roots, which ascend, for the space that becomes current: end to end from its
/// first word, each with its words as they stand. The words are only read.
pub fn plan_flip<W: Words>(
    alloc: Global,
    words: &mut W,
    spaces: &Spaces,
    roots: &[u32],
) -> Result<FlipPlan, FlipError>
    ensures copies { IsTrue W.tells → IfOk result (λ plan. plan ≡ root_copies spaces.now (W.content words.old) roots.now) }
    ensures copied { IfOk result (AreCopiesOf spaces.now) }
    ensures room { IfOk result (λ plan. copied_size plan ≤ spaces.now.used) }
    ensures objects { IsTrue W.tells → AreRootsIn (W.content words.old) spaces.now roots.now → result ≢ Err FlipError.NoObject }
    ensures read { IsRead W.tells W.extent W.content W.keeps W.faults W.stops words.old words.new (flip_failure result) }
{
    let all = with_base(alloc, spaces.base(), roots)?;
    let copies = copy_all(alloc, words, spaces, &all)?;
    Ok(FlipPlan::of(alloc, copies)?)
}

// The roots, with the root object as the first of them.
fn with_base(alloc: Global, base: u32, roots: &[u32]) -> Result<Vec<u32>, AllocError>
    ensures { IfOk result (λ all. all.items ≡ with_base base roots.now) }
{
    let mut all = Vec::new(alloc);
    match roots {
        [first, ..] if *first == base => {}
        _ => all.push(base)?,
    }
    all.extend_from_slice(roots)?;
    Ok(all)
}

// The first word of the space that is not current.
fn other_base(spaces: &Spaces) -> u32
    ensures { result ≡ (flipped spaces.now).base }
{
    let space = spaces.used() + spaces.free();
    space - spaces.base()
}

// The copies of the objects at these addresses.
fn copy_all<W: Words>(
    alloc: Global,
    words: &mut W,
    spaces: &Spaces,
    ats: &[u32],
) -> Result<Vec<ObjectCopy>, FlipError>
    ensures copies { IsTrue W.tells → IfOk result (λ copies. copies.items ≡ copies_from (W.content words.old) (flipped spaces.now).base ats.now) }
    ensures copied { IfOk result (λ copies. AreCopiesOf spaces.now copies.items) }
    ensures objects { IsTrue W.tells → AreRootsIn (W.content words.old) spaces.now ats.now → result ≢ Err FlipError.NoObject }
    ensures read { IsRead W.tells W.extent W.content W.keeps W.faults W.stops words.old words.new (flip_failure result) }
{
    let end = spaces.next_free();
    let mut behind = spaces.base();
    let mut to = other_base(spaces);
    let mut copies = Vec::new(alloc);
    for at in ats {
        let from = *at;
        if from < behind {
            return Err(FlipError::NoObject);
        }
        let run = object_words(alloc, words, end, from)?;
        let size = run.len() as u32;
        let words = ObjectWords::new(run);
        copies.push(ObjectCopy { from, to, words })?;
        behind = from + size;
        to += size;
    }
    Ok(copies)
}

// The words of the object that stands at an address and ends before an end.
fn object_words<W: Words>(
    alloc: Global,
    words: &mut W,
    end: u32,
    at: u32,
) -> Result<Vec<u64>, FlipError>
    ensures object { IsTrue W.tells → IfOk result (λ object. object.items ≡ object_words_at (W.content words.old) at) }
    ensures size { IfOk result (λ object. (2 ≤ vec_len object) × (vec_len object ≤ 512) × (at + vec_len object ≤ end)) }
    ensures stands { IsTrue W.tells → (n : ℕ) → object_at (take end (W.content words.old)) at ≡ Some n → result ≢ Err FlipError.NoObject }
    ensures read { IsRead W.tells W.extent W.content W.keeps W.faults W.stops words.old words.new (flip_failure result) }
{
    match object_before(words, end, at)? {
        Some(n) => {
            let mut object = Vec::new(alloc);
            words.append_to(at, at + FIELDS_AT + n, &mut object)?;
            Ok(object)
        }
        None => Err(FlipError::NoObject),
    }
}

// The number of fields of the object that stands at an address and ends before an end, if one does.
fn object_before<W: Words>(words: &mut W, end: u32, at: u32) -> Result<Option<u32>, DiskError>
    ensures object { IsTrue W.tells → IfOk result (λ object. IfSome object (λ n. object_at (W.content words.old) at ≡ Some n)) }
    ensures size { IfOk result (λ object. IfSome object (λ n. (n ≤ 510) × (at + 2 + n ≤ end) × (at + 2 + n ≤ W.extent words.old))) }
    ensures stands { IsTrue W.tells → (n : ℕ) → object_at (take end (W.content words.old)) at ≡ Some n → IfOk result (λ object. object ≡ Some n) }
    ensures read { IsRead W.tells W.extent W.content W.keeps W.faults W.stops words.old words.new (disk_failure result) }
{
    match object_at(words, at)? {
        Some(n) if n <= MOST_FIELDS && at < end && FIELDS_AT + n <= end - at => Ok(Some(n)),
        _ => Ok(None),
    }
}
