//! The objects that stand in words.
ghost use Rattle.std.specs.Prelude.{◌≡◌, ℕ, ◌≤◌, ◌+◌, ◌<◌, List, length, IsTrue, IfOk, IfSome, take};
ghost use Rattle.std.specs.Option.{option_map};
ghost use Rattle.object_layout.specs.Layout.{whole_length as whole, object_at as object_of, stand as standing_at, fields_at};
ghost use Rattle.object_layout.specs.Read.{IsRead, disk_failure};
ghost use Rattle.object_layout.specs.ReadFailure.{read_failure};

use crate::read_error::ReadError;
use crate::words::Words;
use disk_model::DiskError;
use heap_words::{FIELDS_AT, Header, header_of};
use std::alloc::Global;

/// The number of fields of the object that stands at an address, if one does: a header that all its words follow.
pub fn object_at<W: Words>(words: &mut W, at: u32) -> Result<Option<u32>, DiskError>
    ensures object { IsTrue W.tells → IfOk result (λ object. object ≡ object_of (W.content words.old) at) }
    ensures within { IfOk result (λ object. IfSome object (λ n. at + 2 + n ≤ W.extent words.old)) }
    ensures read { IsRead W.tells W.extent W.content W.keeps W.faults W.stops words.old words.new (disk_failure result) }
{
    let end = words.size();
    object_before(words, end, at)
}

/// The same among the words before an end alone.
pub(crate) fn object_before<W: Words>(
    words: &mut W,
    end: u32,
    at: u32,
) -> Result<Option<u32>, DiskError>
    requires { end ≤ W.extent words.old }
    ensures object { IsTrue W.tells → IfOk result (λ object. object ≡ object_of (take end (W.content words.old)) at) }
    ensures within { IfOk result (λ object. IfSome object (λ n. at + 2 + n ≤ end)) }
    ensures read { IsRead W.tells W.extent W.content W.keeps W.faults W.stops words.old words.new (disk_failure result) }
{
    if at >= end {
        return Ok(None);
    }
    let word = words.word(at)?;
    Ok(whole_length(end, at, header_of(word)))
}

// The length, if the words of an object with that header are all there before the end.
fn whole_length(end: u32, at: u32, header: Option<Header>) -> Option<u32>
    requires { at < end }
    ensures length { (words : List ℕ) → length words ≡ end → result ≡ whole words at header }
    ensures within { IfSome result (λ n. at + 2 + n ≤ end) }
{
    let rest = end - at;
    match header {
        Some(Header::Length(n)) if rest >= FIELDS_AT && rest - FIELDS_AT >= n => Some(n),
        _ => None,
    }
}

#[tactic(auto, using(crate::proofs::LayoutLaws::stand_past))]
/// Where the object that an address names stands: there, or where it was moved; none if no object stands there.
pub fn stand<W: Words>(words: &mut W, at: u32) -> Result<Option<u32>, DiskError>
    ensures stand { IsTrue W.tells → IfOk result (λ place. place ≡ standing_at (W.content words.old) at) }
    ensures read { IsRead W.tells W.extent W.content W.keeps W.faults W.stops words.old words.new (disk_failure result) }
{
    let end = words.size();
    if at >= end {
        return Ok(None);
    }
    let word = words.word(at)?;
    match header_of(word) {
        Some(Header::Forward(to)) => Ok(object_at(words, to)?.map(|_| to)),
        header => Ok(whole_length(end, at, header).map(|_| at)),
    }
}

/// The words of the fields of the object that stands at an address, in order, if one does.
pub fn fields<W: Words>(
    alloc: Global,
    words: &mut W,
    at: u32,
) -> Result<Option<Vec<u64>>, ReadError>
    ensures fields { IsTrue W.tells → IfOk result (λ fields. option_map (λ v. v.items) fields ≡ fields_at (W.content words.old) at) }
    ensures read { IsRead W.tells W.extent W.content W.keeps W.faults W.stops words.old words.new (read_failure result) }
{
    let end = words.size();
    match object_before(words, end, at)? {
        None => Ok(None),
        Some(n) => {
            let from = at + FIELDS_AT;
            let mut fields = Vec::new(alloc);
            words.append_to(from, from + n, &mut fields)?;
            Ok(Some(fields))
        }
    }
}
