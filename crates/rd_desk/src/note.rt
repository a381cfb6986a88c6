ghost use Rattle.std.specs.Prelude.{◌≡◌, ◌≤◌, ◌-◌, ◌^◌, min};
ghost use Rattle.rd_desk.specs.Notes.{dialect_number, side_number, which_number, ending_numbers, only, with_link, note_of};

use rd_base::{Ending, Link, SessionNote, Side, Which};
use rd_conf::DialectName;
use rd_runner::Summary;

/// The greatest id, and the greatest moment, of a note.
const GREATEST: u64 = i64::MAX as u64;

/// What a note says of an ending. What the ending doesn't have is 0.
#[derive(Clone, Copy, Debug, PartialEq, Eq)]
pub(crate) struct EndingNumbers {
    pub code: u8,
    /// The ending's link or copy.
    pub link: u8,
    pub exchange: u32,
    pub place: u32,
    /// The code of Unsupported, or which wait was Late.
    pub detail: u32,
}

/// The number of a dialect in notes: 0 plain lines, 1 HTTP, 2 PostgreSQL.
pub fn dialect_number(dialect: DialectName) -> u8
    ensures { result ≡ dialect_number dialect }
{
    match dialect {
        DialectName::Line => 0,
        DialectName::Http => 1,
        DialectName::Pg => 2,
    }
}

fn side_number(side: Side) -> u8
    ensures { result ≡ side_number side }
{
    match side {
        Side::Incoming => 0,
        Side::Outgoing => 1,
    }
}

fn which_number(which: Which) -> u32
    ensures { result ≡ which_number which }
{
    match which {
        Which::Idle => 0,
        Which::Request => 1,
        Which::Gather => 2,
        Which::Reply => 3,
    }
}

/// An ending that has a code alone.
fn only(code: u8) -> EndingNumbers
    ensures { result ≡ only code }
{
    EndingNumbers {
        code,
        link: 0,
        exchange: 0,
        place: 0,
        detail: 0,
    }
}

/// An ending that has a code and a link.
fn with_link(code: u8, link: Link) -> EndingNumbers
    ensures { result ≡ with_link code link }
{
    EndingNumbers {
        link: link.0,
        ..only(code)
    }
}

fn ending_numbers(ending: Ending) -> EndingNumbers
    ensures { result ≡ ending_numbers ending }
{
    match ending {
        Ending::Done => only(0),
        Ending::Closed { link } => with_link(1, link),
        Ending::Retired => only(2),
        Ending::Disagree {
            exchange,
            copy,
            place,
        } => EndingNumbers {
            link: copy,
            exchange,
            place,
            ..only(3)
        },
        Ending::Noise { exchange, place } => EndingNumbers {
            exchange,
            place,
            ..only(4)
        },
        Ending::Malformed { link } => with_link(5, link),
        Ending::TooBig { link } => with_link(6, link),
        Ending::Unsupported { link, code } => EndingNumbers {
            detail: code,
            ..with_link(7, link)
        },
        Ending::Unsolicited { link } => with_link(8, link),
        Ending::Broken { link } => with_link(9, link),
        Ending::Late { which } => EndingNumbers {
            detail: which_number(which),
            ..only(10)
        },
        Ending::LinkFault { link } => with_link(11, link),
        Ending::Stopped => only(12),
        Ending::FullLog => only(13),
        Ending::NoMemory => only(14),
        Ending::Unstarted => only(15),
    }
}

/// The note of a session that came to this. The id is at most 2^63-1; `dialect` is its `dialect_number`; `began` and
/// `ended` are in milliseconds of the clock, and stand in the note as at most 2^63-1.
pub fn session_note(
    id: u64,
    side: Side,
    dialect: u8,
    began: u64,
    ended: u64,
    summary: &Summary,
) -> SessionNote
    requires { id ≤ 2 ^ 63 - 1 }
    ensures note { result ≡ note_of id side dialect began ended summary.now }
    ensures began { result.began ≤ 2 ^ 63 - 1 }
    ensures ended { result.ended ≤ 2 ^ 63 - 1 }
{
    let numbers = ending_numbers(summary.ending);
    SessionNote {
        id,
        side: side_number(side),
        dialect,
        began: began.min(GREATEST),
        ended: ended.min(GREATEST),
        events: summary.events,
        exchanges: summary.exchanges,
        masked: summary.masked,
        code: numbers.code,
        link: numbers.link,
        exchange: numbers.exchange,
        place: numbers.place,
        detail: numbers.detail,
        dropped: 0,
    }
}
