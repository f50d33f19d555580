//! What a scan reads.
ghost use Rattle.std.specs.Prelude.{◌≡◌, ◌≤◌, ◌<◌, ◌+◌, IsTrue, IfOk, take, drop, slice_index};
ghost use Rattle.object_layout.specs.Layout.{field_words};
ghost use Rattle.heap_words.specs.Header.{header as header_of_word};
ghost use Rattle.object_layout.specs.Read.{IsRead, disk_failure};

use disk_model::DiskError;
use heap_words::{Header, MOST_FIELDS, header_of};
use object_layout::{Words, object_at};

/// The header at an address, if one stands there.
#[tactic(auto, using(crate::proofs::Headers::header_past))]
pub(crate) fn header_at<W: Words>(words: &mut W, at: u32) -> Result<Option<Header>, DiskError>
    ensures header { IsTrue W.tells → IfOk result (λ header. header ≡ header_of_word (slice_index (W.content words.old) at)) }
    ensures read { IsRead W.tells W.extent W.content W.keeps W.faults W.stops words.old words.new (disk_failure result) }
{
    if at >= words.size() {
        return Ok(None);
    }
    let word = words.word(at)?;
    Ok(header_of(word))
}

/// How many fields the object at an address has; 0 if no object stands there.
#[tactic(auto, using(crate::proofs::Fields::fields_none))]
pub(crate) fn field_count<W: Words>(words: &mut W, at: u32) -> Result<u32, DiskError>
    ensures fields { IsTrue W.tells → IfOk result (λ n. take n (drop (at + 2) (W.content words.old)) ≡ field_words (W.content words.old) at) }
    ensures few { IfOk result (λ n. n ≤ 510) }
    ensures within { IfOk result (λ n. 0 < n → at + 2 + n ≤ W.extent words.old) }
    ensures read { IsRead W.tells W.extent W.content W.keeps W.faults W.stops words.old words.new (disk_failure result) }
{
    let Some(n) = object_at(words, at)? else {
        return Ok(0);
    };
    if n > MOST_FIELDS {
        return Ok(0);
    }
    Ok(n)
}
