ghost use Rattle.std.specs.Prelude.{◌≡◌, ◌≤◌, ◌<◌, ◌+◌, ◌-◌, ◌^◌, [], List, ℕ, length, slice_range};
ghost use Rattle.rd_pg_tokens.specs.Walks.{left_at, columns_of, columns_now};
ghost use Rattle.rd_pg_tokens.specs.Pieces.{next_column};
ghost use Rattle.rd_pg_tokens.specs.Steps.{IsStep, IsOpened, IsEntered, IsBehind, IsLeft, shown_step};

use crate::columns::{BEHIND_NAME, read_len};
use crate::frame::{Frame, frame_at};
use crate::kind::Kind;
use crate::piece::{Piece, piece_at};
use crate::stage::{Shown, Stage};
use crate::text::{from, range, text_len};
use rd_base::{Beside, Cursor, NameRules, TokenKind, TokenSpan};
use rd_pg_frame::be_u16_at;

/// What a walk over a unit comes to next.
#[derive(Clone, Copy, Debug, PartialEq, Eq)]
pub enum Step {
    /// A token, and where the walk stands behind it.
    Told(TokenSpan, Cursor),
    /// No token up to there.
    Passed(Cursor),
    /// No token any more.
    End,
}

/// The next step of a walk.
pub fn next_step(rules: &NameRules, kind: Kind, flat: &[u8], cursor: Cursor) -> Step
    requires { length flat.now < 2 ^ 32 }
    ensures { IsStep rules.now kind flat.now cursor result }
{
    if cursor.beside.to > cursor.at {
        return Step::End;
    }
    if cursor.mode == 0 {
        frame_step(rules, kind, flat, cursor)
    } else {
        piece_step(rules, kind, flat, cursor)
    }
}

/// The step between frames.
fn frame_step(rules: &NameRules, kind: Kind, flat: &[u8], cursor: Cursor) -> Step
    requires few { length flat.now < 2 ^ 32 }
    requires beside { cursor.beside.to ≤ cursor.at }
    requires between { cursor.mode ≡ 0 }
    ensures { IsStep rules.now kind flat.now cursor result }
{
    let at = cursor.at as usize;
    if at > flat.len() {
        return Step::End;
    }
    let Some(frame) = frame_at(kind, from(flat, at)) else {
        return Step::End;
    };
    let next = entered(flat, cursor, frame);
    if frame.has_letter {
        let letter = TokenSpan {
            kind: TokenKind::Firm,
            start: cursor.at,
            end: cursor.at + 1,
        };
        Step::Told(letter, next)
    } else {
        Step::Passed(next)
    }
}

/// Where a walk stands at the content of the frame that begins at the cursor.
fn entered(flat: &[u8], cursor: Cursor, frame: Frame) -> Cursor
    requires beside { cursor.beside.to ≤ length flat.now }
    requires ends { cursor.at + frame.from < 2 ^ 32 }
    ensures { IsEntered flat.now cursor frame result }
{
    Cursor {
        at: cursor.at + frame.from as u32,
        mode: frame.stage.mode(),
        left: frame.stage.left(),
        mark: cursor.at,
        beside: opened(flat, cursor.beside),
    }
}

/// The first of the columns of the last row description.
fn opened(flat: &[u8], beside: Beside) -> Beside
    requires { beside.to ≤ length flat.now }
    ensures { IsOpened flat.now beside result }
{
    let content = range(flat, beside.from as usize, beside.to as usize);
    if content.len() < 2 {
        return Beside {
            from: beside.from,
            to: beside.to,
            at: beside.to,
            left: 0,
        };
    }
    Beside {
        from: beside.from,
        to: beside.to,
        at: beside.from + 2,
        left: be_u16_at(content, 0) as u32,
    }
}

/// The step inside a frame.
fn piece_step(rules: &NameRules, kind: Kind, flat: &[u8], cursor: Cursor) -> Step
    requires few { length flat.now < 2 ^ 32 }
    requires beside { cursor.beside.to ≤ cursor.at }
    requires inside { (cursor.mode ≡ 0) → ⊥ }
    ensures { IsStep rules.now kind flat.now cursor result }
{
    let mark = cursor.mark as usize;
    if mark > flat.len() {
        return Step::End;
    }
    let Some(frame) = frame_at(kind, from(flat, mark)) else {
        return Step::End;
    };
    let at = cursor.at as usize;
    if at < mark + frame.from || at > mark + frame.to {
        return Step::End;
    }
    let stage = Stage::of(cursor.mode, cursor.left);
    let rest = range(flat, at, mark + frame.to);
    let names = range(flat, cursor.beside.at as usize, cursor.beside.to as usize);
    match piece_at(rules, stage, cursor.beside.left, names, rest) {
        None => {
            let content = range(flat, mark + frame.from, mark + frame.to);
            Step::Passed(left_frame(rules, content, cursor, frame))
        }
        Some(piece) => shown_step(cursor, behind(cursor, stage, piece, names), piece),
    }
}

/// The step over a piece, behind which the walk stands so.
fn shown_step(cursor: Cursor, next: Cursor, piece: Piece) -> Step
    requires starts { cursor.at + piece.start < 2 ^ 32 }
    requires ends { cursor.at + piece.end < 2 ^ 32 }
    ensures { result ≡ shown_step cursor next piece }
{
    let kind = match piece.shown {
        Shown::AsSoft => TokenKind::Soft,
        Shown::AsFirm => TokenKind::Firm,
        Shown::Passed => return Step::Passed(next),
    };
    let span = TokenSpan {
        kind,
        start: cursor.at + piece.start as u32,
        end: cursor.at + piece.end as u32,
    };
    Step::Told(span, next)
}

/// Where a walk stands behind a piece.
fn behind(cursor: Cursor, stage: Stage, piece: Piece, names: &[u8]) -> Cursor
    requires ends { cursor.at + piece.size < 2 ^ 32 }
    requires few { length names.now < 2 ^ 32 }
    ensures { IsBehind stage names.now cursor piece result }
{
    let beside = match stage {
        Stage::Value(_) => moved(cursor.beside, names),
        _ => cursor.beside,
    };
    Cursor {
        at: cursor.at + piece.size as u32,
        mode: piece.next.mode(),
        left: piece.next.left(),
        mark: cursor.mark,
        beside,
    }
}

/// The next column.
fn moved(beside: Beside, names: &[u8]) -> Beside
    requires { length names.now < 2 ^ 32 }
    ensures from { result.from ≡ beside.from }
    ensures to { result.to ≡ beside.to }
    ensures columns { (all : List ℕ) → slice_range all beside.at beside.to ≡ names.now
        → columns_now all result ≡ next_column (columns_now all beside) }
{
    if beside.left == 0 {
        return beside;
    }
    let at = beside.at as usize + text_len(names) + BEHIND_NAME;
    Beside {
        from: beside.from,
        to: beside.to,
        at: at.min(beside.to as usize) as u32,
        left: beside.left - 1,
    }
}

/// Where a walk stands behind a frame with this content.
fn left_frame(rules: &NameRules, content: &[u8], cursor: Cursor, frame: Frame) -> Cursor
    requires ordered { frame.from ≤ frame.to }
    requires content { length content.now ≡ frame.to - frame.from }
    requires ends { cursor.mark + frame.to < 2 ^ 32 }
    ensures { IsLeft rules.now content.now cursor frame result }
{
    let beside = match frame.stage {
        Stage::ColumnCount => {
            let from = cursor.mark + frame.from as u32;
            Beside {
                from,
                to: from + read_len(rules, content) as u32,
                at: 0,
                left: 0,
            }
        }
        _ => cursor.beside,
    };
    Cursor {
        at: cursor.mark + frame.to as u32,
        mode: 0,
        left: 0,
        mark: 0,
        beside,
    }
}
