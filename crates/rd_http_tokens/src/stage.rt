ghost use Rattle.std.specs.Prelude.{◌≡◌, ◌+◌, ◌<◌, ◌^◌};
ghost use Rattle.rd_http_tokens.specs.HttpGrammar.{stage_of, cursor_of, reach, kind_told, stated_of, kind_of_mark, standing_of_mark, place_of_mode, kind_number, told_number, stated_number, standing_number, place_mode, place_left, value_mode, trailer_mode};

use rd_base::{Beside, Cursor};
use rd_body_tokens::{BodyKind, Place};

/// How a value stands under its name.
#[derive(Clone, Copy, Debug, PartialEq, Eq)]
pub enum Standing {
    Plain,
    /// All its tokens are Firm.
    Fixed,
    /// It has no tokens.
    Absent,
}

/// What a head's fields have said of the body's kind.
#[derive(Clone, Copy, Debug, PartialEq, Eq)]
pub struct Stated {
    /// By the first Content-Type.
    pub kind: Option<BodyKind>,
    /// A Content-Encoding other than `identity` stands there.
    pub coded: bool,
}

/// Where a cursor stands.
#[derive(Clone, Copy, Debug, PartialEq, Eq)]
pub enum Stage {
    AtStart,
    /// At the beginning of a line of the head.
    AtLine(Stated),
    /// In a target or a field's value, so many bytes before its end.
    AtValue(Standing, usize, Stated),
    AtBody(BodyKind, Standing, Place),
    /// At the beginning of a line of the trailer.
    AtTrailer,
    AtTrailerValue(Standing, usize),
}

impl Stage {
    /// Where a cursor stands.
    pub(crate) fn of(cursor: Cursor) -> Stage
        ensures { result ≡ stage_of cursor }
    {
        let count = cursor.mark.saturating_sub(cursor.at) as usize;
        match cursor.mode {
            0 => Stage::AtStart,
            2 => Stage::AtLine(stated_of(cursor.left)),
            3 => Stage::AtValue(Standing::Plain, count, stated_of(cursor.left)),
            4 => Stage::AtValue(Standing::Fixed, count, stated_of(cursor.left)),
            5 => Stage::AtTrailer,
            6 => Stage::AtTrailerValue(Standing::Plain, count),
            7 => Stage::AtTrailerValue(Standing::Fixed, count),
            14 => Stage::AtValue(Standing::Absent, count, stated_of(cursor.left)),
            15 => Stage::AtTrailerValue(Standing::Absent, count),
            mode => Stage::AtBody(
                kind_of_mark(cursor.mark),
                standing_of_mark(cursor.mark),
                place_of_mode(mode, cursor.left),
            ),
        }
    }

    /// The cursor that stands here.
    pub(crate) fn cursor(self, at: usize) -> Cursor
        requires { at + reach self < 2 ^ 32 }
        ensures { result ≡ cursor_of at self }
    {
        let (mode, left, mark) = match self {
            Stage::AtStart => (0, 0, 0),
            Stage::AtLine(stated) => (2, stated_number(stated), 0),
            Stage::AtValue(now, count, stated) => {
                (value_mode(now), stated_number(stated), (at + count) as u32)
            }
            Stage::AtBody(kind, now, place) => (
                place_mode(place),
                place_left(place),
                kind_number(kind) + standing_number(now),
            ),
            Stage::AtTrailer => (5, 0, 0),
            Stage::AtTrailerValue(now, count) => (trailer_mode(now), 0, (at + count) as u32),
        };
        Cursor {
            at: at as u32,
            mode,
            left,
            mark,
            beside: Beside::nothing(),
        }
    }
}

fn kind_told(number: u32) -> Option<BodyKind>
    ensures { result ≡ kind_told number }
{
    match number {
        1 => Some(BodyKind::Words),
        2 => Some(BodyKind::Json),
        3 => Some(BodyKind::Form),
        4 => Some(BodyKind::Raw),
        _ => None,
    }
}

fn stated_of(number: u32) -> Stated
    ensures { result ≡ stated_of number }
{
    if number < 5 {
        Stated {
            kind: kind_told(number),
            coded: false,
        }
    } else {
        Stated {
            kind: kind_told(number - 5),
            coded: true,
        }
    }
}

fn kind_of_mark(mark: u32) -> BodyKind
    ensures { result ≡ kind_of_mark mark }
{
    match mark {
        1 | 5 | 9 => BodyKind::Json,
        2 | 6 | 10 => BodyKind::Form,
        3 | 7 | 11 => BodyKind::Raw,
        _ => BodyKind::Words,
    }
}

fn standing_of_mark(mark: u32) -> Standing
    ensures { result ≡ standing_of_mark mark }
{
    if mark < 4 {
        Standing::Plain
    } else if mark < 8 {
        Standing::Fixed
    } else {
        Standing::Absent
    }
}

fn place_of_mode(mode: u8, count: u32) -> Place
    ensures { result ≡ place_of_mode mode count }
{
    match mode {
        9 => Place::Running,
        10 => Place::Opened,
        11 => Place::Inside,
        12 => Place::Escaped,
        13 => Place::Block(count),
        _ => Place::Fresh,
    }
}

fn kind_number(kind: BodyKind) -> u32
    ensures is { result ≡ kind_number kind }
    ensures small { result < 4 }
{
    match kind {
        BodyKind::Words => 0,
        BodyKind::Json => 1,
        BodyKind::Form => 2,
        BodyKind::Raw => 3,
    }
}

fn told_number(kind: Option<BodyKind>) -> u32
    ensures is { result ≡ told_number kind }
    ensures small { result < 5 }
{
    match kind {
        None => 0,
        Some(kind) => kind_number(kind) + 1,
    }
}

fn stated_number(stated: Stated) -> u32
    ensures { result ≡ stated_number stated }
{
    if stated.coded {
        told_number(stated.kind) + 5
    } else {
        told_number(stated.kind)
    }
}

fn standing_number(now: Standing) -> u32
    ensures is { result ≡ standing_number now }
    ensures small { result < 9 }
{
    match now {
        Standing::Plain => 0,
        Standing::Fixed => 4,
        Standing::Absent => 8,
    }
}

fn place_mode(place: Place) -> u8
    ensures { result ≡ place_mode place }
{
    match place {
        Place::Fresh => 8,
        Place::Running => 9,
        Place::Opened => 10,
        Place::Inside => 11,
        Place::Escaped => 12,
        Place::Block(_) => 13,
    }
}

fn place_left(place: Place) -> u32
    ensures { result ≡ place_left place }
{
    match place {
        Place::Block(count) => count,
        _ => 0,
    }
}

fn value_mode(now: Standing) -> u8
    ensures { result ≡ value_mode now }
{
    match now {
        Standing::Plain => 3,
        Standing::Fixed => 4,
        Standing::Absent => 14,
    }
}

fn trailer_mode(now: Standing) -> u8
    ensures { result ≡ trailer_mode now }
{
    match now {
        Standing::Plain => 6,
        Standing::Fixed => 7,
        Standing::Absent => 15,
    }
}
