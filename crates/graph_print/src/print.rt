//! The text of a graph, from the words in which it is seen.
ghost use Rattle.std.specs.Prelude.{◌≡◌, ℕ, Some, IsTrue, IsSome, IfOk, OnOk, OnErr, Err, MatchBool, string_bytes};
ghost use Rattle.heap_words.specs.Word.{meaning};
ghost use Rattle.graph_model.specs.declared.id.Id.{Id};
ghost use Rattle.graph_model.specs.Graph.{Graph};
ghost use Rattle.graph_model.specs.Canon.{canon};
ghost use Rattle.graph_model.specs.Text.{canon_text as text_of};
ghost use Rattle.object_layout.specs.Layout.{object_at, field_words, stand as standing_at, IsSeenAs};
ghost use Rattle.object_layout.specs.Read.{IsRead};
ghost use Rattle.object_layout.specs.ReadFailure.{read_failure};
ghost use Rattle.graph_print.specs.Order.{IsWholeField, AreWhole, IsDamage};
ghost use Rattle.graph_print.specs.Printed.{IsFieldPrinted, AreFieldsPrinted};
ghost use Rattle.graph_print.specs.PrintFailure.{print_failure};

use crate::order::Order;
use crate::print_error::PrintError;
use heap_words::{Word, decode};
use object_layout::{ReadError, Words, fields, stand};
use std::alloc::Global;

/// The text of the graph that is seen from the word address `root`: its objects numbered breadth first, and a row for each. If `root` or
/// a field that is met names no object, it reports the first such, in the order of the numbers, by the address of its object.
pub fn canon_text<W: Words>(alloc: Global, words: &mut W, root: u32) -> Result<Vec<u8>, PrintError>
    ensures text { IsTrue W.tells → IfOk result (λ text. (name : ℕ → Id) (g : Graph) → IsSeenAs name (W.content words.old) root g → text.items ≡ text_of (canon g)) }
    ensures damage { IsTrue W.tells → (at : ℕ) → result ≡ Err (PrintError.Damaged at) → IsDamage (W.content words.old) root at }
    ensures undamaged { IsTrue W.tells → OnOk result ((at : ℕ) → IsDamage (W.content words.old) root at → ⊥) }
    ensures read { IsRead W.tells W.extent W.content W.keeps W.faults W.stops words.old words.new (print_failure result) }
{
    match stand(words, root)? {
        Some(first) => print_from(alloc, words, first),
        None => Err(PrintError::Damaged { address: root }),
    }
}

// The same from where the object stands.
fn print_from<W: Words>(alloc: Global, words: &mut W, first: u32) -> Result<Vec<u8>, PrintError>
    ensures text { IsTrue W.tells → (root : ℕ) → standing_at (W.content words.old) root ≡ Some first → IfOk result (λ text. (name : ℕ → Id) (g : Graph) → IsSeenAs name (W.content words.old) root g → text.items ≡ text_of (canon g)) }
    ensures damage { IsTrue W.tells → (root : ℕ) → standing_at (W.content words.old) root ≡ Some first → (at : ℕ) → result ≡ Err (PrintError.Damaged at) → IsDamage (W.content words.old) root at }
    ensures undamaged { IsTrue W.tells → (root : ℕ) → standing_at (W.content words.old) root ≡ Some first → OnOk result ((at : ℕ) → IsDamage (W.content words.old) root at → ⊥) }
    ensures read { IsRead W.tells W.extent W.content W.keeps W.faults W.stops words.old words.new (print_failure result) }
{
    let mut order = Order::of(alloc, first)?;
    let mut rows = String::new(alloc);
    let mut count = 0;
    'rows: while let Some(at) = order.get(count) {
        write!(rows, "{count}:")?;
        if !push_object(alloc, words, &mut order, &mut rows, at)? {
            return Err(PrintError::Damaged { address: at });
        }
        rows.push_str("\n")?;
        count += 1;
    }
    let text = format!(in alloc; "graph {count}\n{rows}")?;
    Ok(text.into_bytes())
}

// Prints the fields of the object at an address, if each is null, a number or names an object, and returns whether they all were.
fn push_object<W: Words>(
    alloc: Global,
    words: &mut W,
    order: &mut Order,
    text: &mut String,
    at: u32,
) -> Result<bool, ReadError>
    ensures printed { IsTrue W.tells → IfOk result (λ whole. MatchBool whole (AreFieldsPrinted (W.content words.old) order.old order.new (string_bytes text.old) (string_bytes text.new) (field_words (W.content words.old) at)) (IsSome (object_at (W.content words.old) at) → AreWhole (W.content words.old) (field_words (W.content words.old) at) → ⊥)) }
    ensures read { IsRead W.tells W.extent W.content W.keeps W.faults W.stops words.old words.new (read_failure result) }
{
    match fields(alloc, words, at)? {
        None => Ok(false),
        Some(fields) => push_fields(words, order, text, &fields),
    }
}

// The same for fields with these words.
fn push_fields<W: Words>(
    words: &mut W,
    order: &mut Order,
    text: &mut String,
    fields: &[u64],
) -> Result<bool, ReadError>
    ensures printed { IsTrue W.tells → IfOk result (λ whole. MatchBool whole (AreFieldsPrinted (W.content words.old) order.old order.new (string_bytes text.old) (string_bytes text.new) fields.now) (AreWhole (W.content words.old) fields.now → ⊥)) }
    ensures read { IsRead W.tells W.extent W.content W.keeps W.faults W.stops words.old words.new (read_failure result) }
{
    for word in fields {
        if !push_field(words, order, text, *word)? {
            return Ok(false);
        }
    }
    Ok(true)
}

// The same for one field.
fn push_field<W: Words>(
    words: &mut W,
    order: &mut Order,
    text: &mut String,
    word: u64,
) -> Result<bool, ReadError>
    ensures printed { IsTrue W.tells → IfOk result (λ whole. MatchBool whole (IsFieldPrinted (W.content words.old) order.old order.new (string_bytes text.old) (string_bytes text.new) word) (IsWholeField (W.content words.old) (meaning word) → ⊥)) }
    ensures read { IsRead W.tells W.extent W.content W.keeps W.faults W.stops words.old words.new (read_failure result) }
{
    match decode(word) {
        Some(Word::Null) => text.push_str(" -")?,
        Some(Word::Int(n)) => write!(text, " {n}")?,
        Some(Word::Stable(address)) => match stand(words, address)? {
            Some(place) => {
                let number = order.number(place)?;
                write!(text, " @{number}")?;
            }
            None => return Ok(false),
        },
        Some(Word::Volatile(_)) | None => return Ok(false),
    }
    Ok(true)
}
