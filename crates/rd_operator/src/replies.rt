ghost use Rattle.std.specs.Prelude.{◌≡◌, IfOk, take, find};
ghost use Rattle.rd_keeper.specs.Notes.{has_id, notes_from};
ghost use Rattle.rd_operator.specs.Texts.{fine, live_data, totals_data, note_data, notes_data};
ghost use Rattle.rd_operator.specs.Replies.{Replies, ByKeeper, StaysKept, notes_reply, note_reply};

use crate::asked::Asked;
use crate::json::{live_body, note_body, notes_body, totals_body};
use crate::reply::Reply;
use http::StatusCode;
use rd_base::{NoMemory, SessionNote};
use rd_board::Board;
use rd_keeper::{KeepFail, Keeper, Notes};
use std::alloc::Global;

/// The most notes of a page.
const PAGE_SIZE: u16 = 100;

/// The reply to what was asked for.
pub(crate) fn reply_to<Y: Keeper>(
    alloc: Global,
    asked: Asked,
    view: &Board,
    keeper: &mut Y,
) -> Result<Reply, NoMemory>
    ensures reply { IfOk result
        (λ r. Replies view.now asked r (Y.tells keeper.old) (Y.tells keeper.new)) }
    ensures stays { StaysKept (Y.tells keeper.old) (Y.tells keeper.new) }
{
    match asked {
        Asked::Refused(status) => Reply::refusal(alloc, status),
        Asked::Live => live_reply(alloc, view),
        Asked::Totals => totals_reply(alloc, view),
        Asked::Notes(from) => notes_reply(alloc, from, keeper),
        Asked::Note(id) => note_reply(alloc, id, keeper),
    }
}

fn live_reply(alloc: Global, view: &Board) -> Result<Reply, NoMemory>
    ensures { IfOk result (λ r. r ≡ fine (live_data view.now.live)) }
{
    let body = live_body(alloc, view.live())?;
    Ok(Reply {
        status: StatusCode::OK,
        body,
    })
}

fn totals_reply(alloc: Global, view: &Board) -> Result<Reply, NoMemory>
    ensures { IfOk result (λ r. r ≡ fine (totals_data view.now)) }
{
    let body = totals_body(alloc, view)?;
    Ok(Reply {
        status: StatusCode::OK,
        body,
    })
}

/// A page of the notes from an id on.
fn notes_reply<Y: Keeper>(alloc: Global, from: u64, keeper: &mut Y) -> Result<Reply, NoMemory>
    ensures reply { IfOk result (λ r. ByKeeper notes_reply (λ notes.
        take 100 (notes_from from notes))
        r (Y.tells keeper.old) (Y.tells keeper.new)) }
    ensures stays { StaysKept (Y.tells keeper.old) (Y.tells keeper.new) }
{
    match keeper.page(from, PAGE_SIZE) {
        Ok(notes) => page_of(alloc, &notes),
        Err(KeepFail::Failed) => Reply::refusal(alloc, StatusCode::SERVICE_UNAVAILABLE),
        Err(KeepFail::NoMemory) => Err(NoMemory),
    }
}

fn page_of(alloc: Global, notes: &Notes) -> Result<Reply, NoMemory>
    ensures { IfOk result (λ r. r ≡ fine (notes_data notes.now)) }
{
    let body = notes_body(alloc, notes)?;
    Ok(Reply {
        status: StatusCode::OK,
        body,
    })
}

/// The page of the note of an id.
fn note_reply<Y: Keeper>(alloc: Global, id: u64, keeper: &mut Y) -> Result<Reply, NoMemory>
    ensures reply { IfOk result (λ r. ByKeeper note_reply (find (has_id id))
        r (Y.tells keeper.old) (Y.tells keeper.new)) }
    ensures stays { StaysKept (Y.tells keeper.old) (Y.tells keeper.new) }
{
    match keeper.one(id) {
        Ok(Some(note)) => page_of_note(alloc, &note),
        Ok(None) => Reply::refusal(alloc, StatusCode::NOT_FOUND),
        Err(KeepFail::Failed) => Reply::refusal(alloc, StatusCode::SERVICE_UNAVAILABLE),
        Err(KeepFail::NoMemory) => Err(NoMemory),
    }
}

fn page_of_note(alloc: Global, note: &SessionNote) -> Result<Reply, NoMemory>
    ensures { IfOk result (λ r. r ≡ fine (note_data note.now)) }
{
    let body = note_body(alloc, note)?;
    Ok(Reply {
        status: StatusCode::OK,
        body,
    })
}
