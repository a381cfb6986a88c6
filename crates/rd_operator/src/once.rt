ghost use Rattle.std.specs.Prelude.{◌≡◌, false, IfOk};
ghost use Rattle.rd_base.specs.Outside.{StaysOpen};
ghost use Rattle.rd_operator.specs.Asked.{asked};
ghost use Rattle.rd_operator.specs.Calls.{Operates, EndsBy, WritesPage, WritesEither, Written, IsClosed};
ghost use Rattle.rd_operator.specs.HeadWords.{AreHeadWords};
ghost use Rattle.rd_operator.specs.Replies.{Replies, StaysKept};
ghost use Rattle.rd_operator.specs.Texts.{ReplyView, refusal, reply_text};

use crate::asked::asked_by;
use crate::hearing::{Heard, hear};
use crate::replies::reply_to;
use crate::reply::Reply;
use rd_base::{Failed, NoMemory, OperatorEnd, Sink, Source};
use rd_board::Board;
use rd_keeper::Keeper;
use std::alloc::Global;

/// What is written where there is no memory for another reply.
const NO_MEMORY: &str = "HTTP/1.1 500 Internal Server Error\r\nContent-Type: application/json\r\n\
Content-Length: 13\r\nConnection: close\r\n\r\n{\"error\":500}";

/// Reads one request's head, writes its page, and closes the sink. Where the source ends before a byte, or a read
/// fails, nothing is written; where the write fails, a prefix of the page was. Status 500 is want of memory alone.
pub fn operator_once<S: Source, K: Sink, Y: Keeper>(
    alloc: Global,
    source: &mut S,
    sink: &mut K,
    view: &Board,
    keeper: &mut Y,
) -> OperatorEnd
    requires { (K.tells sink.old).is_closed ≡ false }
    ensures answers { Operates view.now result (S.tells source.old) (S.tells source.new)
        (K.tells sink.old) (K.tells sink.new) (Y.tells keeper.old) (Y.tells keeper.new) }
    ensures closed { IsClosed (K.tells sink.old) (K.tells sink.new) }
    ensures kept { StaysKept (Y.tells keeper.old) (Y.tells keeper.new) }

    // The method and the path that a page is found by are those of the head.
    ensures words { AreHeadWords }
{
    let heard = hear(alloc, source);
    let end = answer(alloc, heard, sink, view, keeper);
    sink.close();
    end
}

/// Writes the answer to what was heard.
fn answer<K: Sink, Y: Keeper>(
    alloc: Global,
    heard: Heard,
    sink: &mut K,
    view: &Board,
    keeper: &mut Y,
) -> OperatorEnd
    requires { (K.tells sink.old).is_closed ≡ false }
    ensures ends { EndsBy heard view.now result (K.tells sink.old) (K.tells sink.new)
        (Y.tells keeper.old) (Y.tells keeper.new) }
    ensures sink { StaysOpen (K.tells sink.old) (K.tells sink.new) }
    ensures kept { StaysKept (Y.tells keeper.old) (Y.tells keeper.new) }
{
    match heard {
        Heard::Bytes(bytes) => answer_head(alloc, bytes.as_slice(), sink, view, keeper),
        Heard::Nothing => OperatorEnd::Nothing,
        Heard::ReadFail => OperatorEnd::ReadFail,
        Heard::NoMemory => write_no_memory(sink),
    }
}

/// Writes the page of these bytes.
fn answer_head<K: Sink, Y: Keeper>(
    alloc: Global,
    bytes: &[u8],
    sink: &mut K,
    view: &Board,
    keeper: &mut Y,
) -> OperatorEnd
    requires { (K.tells sink.old).is_closed ≡ false }
    ensures page { WritesPage bytes.now view.now result (K.tells sink.old) (K.tells sink.new)
        (Y.tells keeper.old) (Y.tells keeper.new) }
    ensures sink { StaysOpen (K.tells sink.old) (K.tells sink.new) }
    ensures kept { StaysKept (Y.tells keeper.old) (Y.tells keeper.new) }
{
    match page_of(alloc, bytes, view, keeper) {
        Ok(reply) => write_reply(alloc, &reply, sink),
        Err(NoMemory) => write_no_memory(sink),
    }
}

/// The reply to the request that these bytes begin with.
fn page_of<Y: Keeper>(
    alloc: Global,
    bytes: &[u8],
    view: &Board,
    keeper: &mut Y,
) -> Result<Reply, NoMemory>
    ensures reply { IfOk result (λ r. Replies view.now (asked bytes.now) r
        (Y.tells keeper.old) (Y.tells keeper.new)) }
    ensures kept { StaysKept (Y.tells keeper.old) (Y.tells keeper.new) }
{
    let asked = asked_by(alloc, bytes)?;
    reply_to(alloc, asked, view, keeper)
}

/// Writes a reply, or 500 where there is no memory for its text.
fn write_reply<K: Sink>(alloc: Global, reply: &Reply, sink: &mut K) -> OperatorEnd
    requires { (K.tells sink.old).is_closed ≡ false }
    ensures reply { WritesEither reply.now result (K.tells sink.old) (K.tells sink.new) }
    ensures sink { StaysOpen (K.tells sink.old) (K.tells sink.new) }
{
    match reply.text(alloc) {
        Ok(text) => write_text(reply.status.as_u16(), text.as_str().as_bytes(), sink),
        Err(NoMemory) => write_no_memory(sink),
    }
}

fn write_no_memory<K: Sink>(sink: &mut K) -> OperatorEnd
    requires { (K.tells sink.old).is_closed ≡ false }
    ensures reply { Written (refusal 500) result (K.tells sink.old) (K.tells sink.new) }
    ensures sink { StaysOpen (K.tells sink.old) (K.tells sink.new) }
{
    write_text(500, NO_MEMORY.as_bytes(), sink)
}

/// Writes the text of a reply of this status.
fn write_text<K: Sink>(status: u16, text: &[u8], sink: &mut K) -> OperatorEnd
    requires { (K.tells sink.old).is_closed ≡ false }
    ensures reply { (reply : ReplyView) → status ≡ reply.status
        → text.now ≡ reply_text reply
        → Written reply result (K.tells sink.old) (K.tells sink.new) }
    ensures sink { StaysOpen (K.tells sink.old) (K.tells sink.new) }
{
    match sink.push(text) {
        Ok(()) => OperatorEnd::Answered(status),
        Err(Failed) => OperatorEnd::WriteFail,
    }
}
