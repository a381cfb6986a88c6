ghost use Rattle.std.specs.Prelude.{◌≡◌, ◌≤◌, All, IfOk, OnOk};
ghost use Rattle.rd_base.specs.MemSource.{IsPiece};

use rd_base::{Bytes, MemSink, MemSource, NoMemory, OperatorEnd, PushFault};
use rd_board::Board;
use rd_keeper::Keeper;
use rd_operator::operator_once;
use std::alloc::{AllocError, Global};

const SMALL_PIECE: usize = 7;

const BIG_PIECE: usize = 16_384;

/// The text, cut into pieces of this size.
fn pieces_of(alloc: Global, text: &[u8], size: usize) -> Result<Vec<Bytes>, NoMemory>
    requires { 1 ≤ size }
    ensures { IfOk result (λ v. All IsPiece v.items) }
{
    let mut pieces = Vec::new(alloc);
    'chunks: for chunk in text.chunks(size) {
        push_piece(alloc, &mut pieces, chunk)?;
    }
    Ok(pieces)
}

fn push_piece(alloc: Global, pieces: &mut Vec<Bytes>, chunk: &[u8]) -> Result<(), NoMemory>
    requires { All IsPiece pieces.old.items }
    ensures { OnOk result (All IsPiece pieces.new.items) }
{
    if chunk.len() < 1 || chunk.len() > BIG_PIECE {
        return Ok(());
    }
    let piece = Bytes::from_slice(alloc, chunk)?;
    pieces.push(piece)?;
    Ok(())
}

/// What is written for a request, with these reads and pushes failing.
pub fn ask<Y: Keeper>(
    alloc: Global,
    board: &Board,
    keeper: &mut Y,
    request: &[u8],
    reads: Vec<u64>,
    pushes: Vec<PushFault>,
) -> Result<(OperatorEnd, MemSink), NoMemory> {
    let size = if request.len() < 1_000 {
        SMALL_PIECE
    } else {
        BIG_PIECE
    };
    let pieces = pieces_of(alloc, request, size)?;
    let mut source = MemSource::new(alloc, 0, 1, pieces, reads)?;
    let mut sink = MemSink::new(alloc, 0, 1, pushes);
    let end = operator_once(alloc, &mut source, &mut sink, board, keeper);
    Ok((end, sink))
}

/// Whether a request gets this reply, and the sink is closed.
pub fn gets<Y: Keeper>(
    alloc: Global,
    board: &Board,
    keeper: &mut Y,
    request: &[u8],
    status: u16,
    reply: &[u8],
) -> bool {
    let none = Vec::new(alloc);
    match ask(alloc, board, keeper, request, none, Vec::new(alloc)) {
        Ok((end, sink)) => {
            end == OperatorEnd::Answered(status) && sink.is_closed() && sink.as_slice() == reply
        }
        Err(_) => false,
    }
}

/// Whether a request gets this status and body. At 405 a line says which method is allowed.
pub fn shows<Y: Keeper>(
    alloc: Global,
    board: &Board,
    keeper: &mut Y,
    request: &[u8],
    status: u16,
    body: &str,
) -> bool {
    match reply_text(alloc, status, body) {
        Ok(text) => gets(alloc, board, keeper, request, status, text.as_bytes()),
        Err(_) => false,
    }
}

fn reply_text(alloc: Global, status: u16, body: &str) -> Result<String, AllocError> {
    let (phrase, size) = (phrase_of(status), body.len());
    let allow = if status == 405 { "Allow: GET\r\n" } else { "" };
    format!(in alloc;
        "HTTP/1.1 {status} {phrase}\r\nContent-Type: application/json\r\nContent-Length: {size}\r\n{allow}Connection: close\r\n\r\n{body}"
    )
}

fn phrase_of(status: u16) -> &'static str {
    match status {
        200 => "OK",
        400 => "Bad Request",
        404 => "Not Found",
        405 => "Method Not Allowed",
        431 => "Request Header Fields Too Large",
        _ => "Service Unavailable",
    }
}
