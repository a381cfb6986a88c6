ghost use Rattle.std.specs.Prelude.{◌≡◌, IfOk, OnOk, map, string_bytes};
ghost use Rattle.serde_json.specs.View.{view, members_view};
ghost use Rattle.serde_json.specs.Written.{compact_text};
ghost use Rattle.rd_operator.specs.Texts.{error_data, live_data, totals_data, note_data, notes_data, with_number, with_first, with_others};

use http::StatusCode;
use rd_base::SessionNote;
use rd_board::Board;
use rd_keeper::Notes;
use serde_json::{Map, ToValue, Value, json, put};
use std::alloc::{AllocError, Global};

/// A refusal's body.
pub(crate) fn error_body(alloc: Global, status: StatusCode) -> Result<String, AllocError>
    ensures { IfOk result (λ s. string_bytes s ≡ compact_text (error_data status)) }
{
    let body = error_value(alloc, status.as_u16())?;
    body.to_string(alloc)
}

fn error_value(alloc: Global, status: u16) -> Result<Value, AllocError>
    ensures { IfOk result (λ v. view v ≡ error_data status) }
{
    json!(in alloc; {"error": status as u64})
}

/// The body of the page of live sessions.
pub(crate) fn live_body(alloc: Global, live: u64) -> Result<String, AllocError>
    ensures { IfOk result (λ s. string_bytes s ≡ compact_text (live_data live)) }
{
    let body = live_value(alloc, live)?;
    body.to_string(alloc)
}

fn live_value(alloc: Global, live: u64) -> Result<Value, AllocError>
    ensures { IfOk result (λ v. view v ≡ live_data live) }
{
    json!(in alloc; {"live": live})
}

/// The body of the page of totals.
pub(crate) fn totals_body(alloc: Global, board: &Board) -> Result<String, AllocError>
    ensures { IfOk result (λ s. string_bytes s ≡ compact_text (totals_data board.now)) }
{
    let body = totals_value(alloc, board)?;
    body.to_string(alloc)
}

fn totals_value(alloc: Global, board: &Board) -> Result<Value, AllocError>
    ensures { IfOk result (λ v. view v ≡ totals_data board.now) }
{
    json!(in alloc; {
        "exchanges": board.exchanges(),
        "masked": board.masked(),
        "sessions": board.sessions(),
        "unkept": board.unkept()
    })
}

/// The body of a note's page.
pub(crate) fn note_body(alloc: Global, note: &SessionNote) -> Result<String, AllocError>
    ensures { IfOk result (λ s. string_bytes s ≡ compact_text (note_data note.now)) }
{
    let body = note_value(alloc, note)?;
    body.to_string(alloc)
}

fn note_value(alloc: Global, note: &SessionNote) -> Result<Value, AllocError>
    ensures { IfOk result (λ v. view v ≡ note_data note.now) }
{
    let mut members = Map::new(alloc);
    put_first(&mut members, alloc, note)?;
    put_others(&mut members, alloc, note)?;
    Ok(Value::Object(members))
}

/// Puts the members of a note up to its exchange.
fn put_first(
    members: &mut Map<String, Value>,
    alloc: Global,
    note: &SessionNote,
) -> Result<(), AllocError>
    ensures { OnOk result (members_view members.new.entries
        ≡ with_first note.now (members_view members.old.entries)) }
{
    put_number(members, alloc, "began", note.began)?;
    put_number(members, alloc, "code", note.code as u64)?;
    put_number(members, alloc, "detail", note.detail as u64)?;
    put_number(members, alloc, "dialect", note.dialect as u64)?;
    put_number(members, alloc, "dropped", note.dropped as u64)?;
    put_number(members, alloc, "ended", note.ended)?;
    put_number(members, alloc, "events", note.events as u64)
}

/// Puts the members of a note from its exchange on.
fn put_others(
    members: &mut Map<String, Value>,
    alloc: Global,
    note: &SessionNote,
) -> Result<(), AllocError>
    ensures { OnOk result (members_view members.new.entries
        ≡ with_others note.now (members_view members.old.entries)) }
{
    put_number(members, alloc, "exchange", note.exchange as u64)?;
    put_number(members, alloc, "exchanges", note.exchanges as u64)?;
    put_number(members, alloc, "id", note.id)?;
    put_number(members, alloc, "link", note.link as u64)?;
    put_number(members, alloc, "masked", note.masked as u64)?;
    put_number(members, alloc, "place", note.place as u64)?;
    put_number(members, alloc, "side", note.side as u64)
}

fn put_number(
    members: &mut Map<String, Value>,
    alloc: Global,
    name: &str,
    number: u64,
) -> Result<(), AllocError>
    ensures { OnOk result (members_view members.new.entries
        ≡ with_number name.now number (members_view members.old.entries)) }
{
    put(members, alloc, name, number.to_value(alloc)?)
}

/// The body of a page of notes.
pub(crate) fn notes_body(alloc: Global, notes: &Notes) -> Result<String, AllocError>
    ensures { IfOk result (λ s. string_bytes s ≡ compact_text (notes_data notes.now)) }
{
    let body = notes_value(alloc, notes)?;
    body.to_string(alloc)
}

fn notes_value(alloc: Global, notes: &Notes) -> Result<Value, AllocError>
    ensures { IfOk result (λ v. view v ≡ notes_data notes.now) }
{
    let list = Value::Array(note_values(alloc, notes)?);
    json!(in alloc; {"sessions": list})
}

fn note_values(alloc: Global, notes: &Notes) -> Result<Vec<Value>, AllocError>
    ensures { IfOk result (λ v. map view v.items ≡ map note_data notes.now) }
{
    let mut list = Vec::new(alloc);
    'notes: for place in 0..notes.len() {
        list.push(note_value(alloc, notes.at(place))?)?;
    }
    Ok(list)
}
