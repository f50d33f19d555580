//! How many objects a graph has, from the words in which it is seen: they are numbered as for its text, but no text is made.
ghost use Rattle.std.specs.Prelude.{◌≡◌, ℕ, Some, IsTrue, IsSome, IfOk, OnOk, Err, MatchBool, length};
ghost use Rattle.heap_words.specs.Word.{meaning};
ghost use Rattle.graph_model.specs.declared.id.Id.{Id};
ghost use Rattle.graph_model.specs.Graph.{Graph};
ghost use Rattle.graph_model.specs.Canon.{canon};
ghost use Rattle.object_layout.specs.Layout.{object_at, field_words, stand as standing_at, IsSeenAs};
ghost use Rattle.object_layout.specs.Read.{IsRead};
ghost use Rattle.object_layout.specs.ReadFailure.{read_failure};
ghost use Rattle.graph_print.specs.Order.{IsWholeField, AreWhole, IsDamage};
ghost use Rattle.graph_print.specs.Numbered.{IsFieldNumbered, AreFieldsNumbered};
ghost use Rattle.graph_print.specs.PrintFailure.{print_failure};

use crate::order::Order;
use crate::print_error::PrintError;
use heap_words::{Word, decode};
use object_layout::{ReadError, Words, fields, stand};
use std::alloc::Global;

/// How many objects the graph has that is seen from the word address `root`. If `root` or a field that is met names no object, it reports the
/// first such as `canon_text` does.
pub fn canon_count<W: Words>(alloc: Global, words: &mut W, root: u32) -> Result<u64, PrintError>
    ensures count { IsTrue W.tells → IfOk result (λ count. (name : ℕ → Id) (g : Graph) → IsSeenAs name (W.content words.old) root g → count ≡ length (canon g)) }
    ensures damage { IsTrue W.tells → (at : ℕ) → result ≡ Err (PrintError.Damaged at) → IsDamage (W.content words.old) root at }
    ensures undamaged { IsTrue W.tells → OnOk result ((at : ℕ) → IsDamage (W.content words.old) root at → ⊥) }
    ensures read { IsRead W.tells W.extent W.content W.keeps W.faults W.stops words.old words.new (print_failure result) }
{
    match stand(words, root)? {
        Some(first) => count_from(alloc, words, first),
        None => Err(PrintError::Damaged { address: root }),
    }
}

// The same from where the object stands.
fn count_from<W: Words>(alloc: Global, words: &mut W, first: u32) -> Result<u64, PrintError>
    ensures count { IsTrue W.tells → (root : ℕ) → standing_at (W.content words.old) root ≡ Some first → IfOk result (λ count. (name : ℕ → Id) (g : Graph) → IsSeenAs name (W.content words.old) root g → count ≡ length (canon g)) }
    ensures damage { IsTrue W.tells → (root : ℕ) → standing_at (W.content words.old) root ≡ Some first → (at : ℕ) → result ≡ Err (PrintError.Damaged at) → IsDamage (W.content words.old) root at }
    ensures undamaged { IsTrue W.tells → (root : ℕ) → standing_at (W.content words.old) root ≡ Some first → OnOk result ((at : ℕ) → IsDamage (W.content words.old) root at → ⊥) }
    ensures read { IsRead W.tells W.extent W.content W.keeps W.faults W.stops words.old words.new (print_failure result) }
{
    let mut order = Order::of(alloc, first)?;
    let mut count = 0;
    'objects: while let Some(at) = order.get(count) {
        if !number_object(alloc, words, &mut order, at)? {
            return Err(PrintError::Damaged { address: at });
        }
        count += 1;
    }
    Ok(count as u64)
}

// Numbers what the fields of the object at an address refer to, if each is null, a number or names an object, and returns whether they all were.
fn number_object<W: Words>(
    alloc: Global,
    words: &mut W,
    order: &mut Order,
    at: u32,
) -> Result<bool, ReadError>
    ensures numbered { IsTrue W.tells → IfOk result (λ whole. MatchBool whole (AreFieldsNumbered (W.content words.old) order.old order.new (field_words (W.content words.old) at)) (IsSome (object_at (W.content words.old) at) → AreWhole (W.content words.old) (field_words (W.content words.old) at) → ⊥)) }
    ensures read { IsRead W.tells W.extent W.content W.keeps W.faults W.stops words.old words.new (read_failure result) }
{
    match fields(alloc, words, at)? {
        None => Ok(false),
        Some(fields) => number_fields(words, order, &fields),
    }
}

// The same for fields with these words.
fn number_fields<W: Words>(
    words: &mut W,
    order: &mut Order,
    fields: &[u64],
) -> Result<bool, ReadError>
    ensures numbered { IsTrue W.tells → IfOk result (λ whole. MatchBool whole (AreFieldsNumbered (W.content words.old) order.old order.new fields.now) (AreWhole (W.content words.old) fields.now → ⊥)) }
    ensures read { IsRead W.tells W.extent W.content W.keeps W.faults W.stops words.old words.new (read_failure result) }
{
    for word in fields {
        if !number_field(words, order, *word)? {
            return Ok(false);
        }
    }
    Ok(true)
}

// The same for one field.
fn number_field<W: Words>(words: &mut W, order: &mut Order, word: u64) -> Result<bool, ReadError>
    ensures numbered { IsTrue W.tells → IfOk result (λ whole. MatchBool whole (IsFieldNumbered (W.content words.old) order.old order.new word) (IsWholeField (W.content words.old) (meaning word) → ⊥)) }
    ensures read { IsRead W.tells W.extent W.content W.keeps W.faults W.stops words.old words.new (read_failure result) }
{
    match decode(word) {
        Some(Word::Null | Word::Int(_)) => Ok(true),
        Some(Word::Stable(address)) => match stand(words, address)? {
            Some(place) => {
                order.number(place)?;
                Ok(true)
            }
            None => Ok(false),
        },
        Some(Word::Volatile(_)) | None => Ok(false),
    }
}
