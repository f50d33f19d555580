//! The text of a graph: its objects numbered breadth first, and a row for each.
ghost use Rattle.std.specs.Prelude.{◌≡◌, ◌++◌, map, slice_get, position, unwrap_or, Some, IfOk, OnOk, string_bytes};
ghost use Rattle.std.specs.List.{list_any};
ghost use Rattle.graph_model.specs.Graph.{is_same_id};
ghost use Rattle.graph_model.specs.Canon.{canon, shown, numbered, with_target, with_targets};
ghost use Rattle.graph_model.specs.Text.{canon_text, field_text, fields_text, row_text};
ghost use Rattle.slow_heap.specs.Objects.{graph_of};

use crate::objects::Objects;
use graph_model::{Id, ROOT, Val};
use std::alloc::{AllocError, Global};

/// The text of the graph of these objects. It fails only when out of memory.
pub fn canon_text(alloc: Global, objects: &Objects) -> Result<String, AllocError>
    ensures { IfOk result (λ text. string_bytes text ≡ canon_text (canon (graph_of objects.now))) }
{
    let ids = numbered(alloc, objects)?;
    let count = ids.len();
    let mut text = format!(in alloc; "graph {count}\n")?;
    for (number, id) in ids.iter().enumerate() {
        push_row(&mut text, number, &ids, objects.fields(*id))?;
    }
    Ok(text)
}

/// The names of what is reached from the root, in the order of their numbers. It fails only when out of memory.
pub fn numbered(alloc: Global, objects: &Objects) -> Result<Vec<Id>, AllocError>
    ensures { IfOk result (λ ids. ids.items ≡ numbered (graph_of objects.now)) }
{
    let mut ids = Vec::new(alloc);
    ids.push(ROOT)?;
    for number in 0..objects.len() {
        let Some(id) = id_at(&ids, number) else {
            return Ok(ids);
        };
        push_targets(&mut ids, objects.fields(id))?;
    }
    Ok(ids)
}

// The name of the object that has this number, if one does.
fn id_at(ids: &[Id], number: usize) -> Option<Id>
    ensures { result ≡ slice_get ids.now number }
{
    ids.get(number).copied()
}

// Numbers what the fields refer to, in order.
fn push_targets(ids: &mut Vec<Id>, fields: &[Val]) -> Result<(), AllocError>
    ensures { OnOk result (ids.new.items ≡ with_targets ids.old.items fields.now) }
{
    for field in fields {
        push_target(ids, *field)?;
    }
    Ok(())
}

// Numbers what the field refers to, if it has no number.
fn push_target(ids: &mut Vec<Id>, field: Val) -> Result<(), AllocError>
    ensures { OnOk result (ids.new.items ≡ with_target ids.old.items field) }
{
    if let Val::Ref(id) = field
        && !has_number(ids, id)
    {
        ids.push(id)?;
    }
    Ok(())
}

// Whether the object of that name has a number.
fn has_number(ids: &[Id], id: Id) -> bool
    ensures { result ≡ list_any (is_same_id id) ids.now }
{
    ids.iter().any(|other| id == *other)
}

// The number of the object of that name, if it has one.
fn position_of(ids: &[Id], id: Id) -> Option<usize>
    ensures { result ≡ position (is_same_id id) ids.now }
{
    ids.iter().position(|other| id == *other)
}

// Its number, and 0 if it has none.
fn number_of(ids: &[Id], id: Id) -> usize
    ensures { result ≡ unwrap_or (position (is_same_id id) ids.now) 0 }
{
    position_of(ids, id).unwrap_or(0)
}

// Prints the row of an object with this number and these fields.
fn push_row(text: &mut String, number: usize, ids: &[Id], fields: &[Val]) -> Result<(), AllocError>
    ensures { OnOk result (string_bytes text.new ≡ string_bytes text.old ++ row_text number (map (shown ids.now) fields.now)) }
{
    write!(text, "{number}:")?;
    push_fields(text, ids, fields)?;
    text.push_str("\n")
}

// Prints fields, each with a blank before it.
fn push_fields(text: &mut String, ids: &[Id], fields: &[Val]) -> Result<(), AllocError>
    ensures { OnOk result (string_bytes text.new ≡ string_bytes text.old ++ fields_text (map (shown ids.now) fields.now)) }
{
    for field in fields {
        push_field(text, ids, *field)?;
    }
    Ok(())
}

fn push_field(text: &mut String, ids: &[Id], field: Val) -> Result<(), AllocError>
    ensures { OnOk result (string_bytes text.new ≡ string_bytes text.old ++ field_text (shown ids.now field)) }
{
    match field {
        Val::Null => text.push_str(" -"),
        Val::Int(n) => write!(text, " {n}"),
        Val::Ref(id) => {
            let number = number_of(ids, id);
            write!(text, " @{number}")
        }
    }
}
