ghost use Rattle.std.specs.Prelude.{◌≡◌, ◌≤◌, ◌<◌, ◌^◌, length, take, IfSome};
ghost use Rattle.std.specs.List.{prefix_len};
ghost use Rattle.rd_base.specs.WordCut.{is_word_byte};
ghost use Rattle.rd_pg_tokens.specs.PieceLaws.{IsPiece};
ghost use Rattle.rd_pg_tokens.specs.Pieces.{shown_under, shown_parameter, shown_column, raw_piece, number_piece, text_piece, words_piece, shown_null, value_piece, parameter_piece, column_count_piece, column_name_piece, value_count_piece, column_value_piece, shown_code, shown_field, behind_code, field_piece, text_words_piece, formats_piece, password_end, password_piece, startup_name_piece, piece_at};

use crate::stage::{Shown, Stage};
use crate::text::text_len;
use rd_base::{NameRules, word_len};
use rd_pg_frame::{be_u16_at, be_u32_at};

/// A piece of a message's content: the bytes of its token, how they count, how many bytes it takes in all, and what
/// is due behind it.
#[derive(Clone, Copy, Debug, PartialEq, Eq)]
pub struct Piece {
    pub shown: Shown,
    pub start: usize,
    pub end: usize,
    pub size: usize,
    pub next: Stage,
}

/// The piece at the front of what is left of a content. `None` where nothing is left.
#[tactic(auto, using(crate::specs::PieceLaws::piece_some))]
pub fn piece_at(
    rules: &NameRules,
    stage: Stage,
    columns_left: u32,
    names: &[u8],
    bytes: &[u8],
) -> Option<Piece>
    requires { length bytes.now < 2 ^ 32 }
    ensures value { result ≡ piece_at rules.now stage
        (record { left = columns_left; names = names.now }) bytes.now }
    ensures there { IfSome result (IsPiece bytes.now) }
{
    match stage {
        Stage::Raw => raw_piece(bytes),
        Stage::AuthenticationCode => number_piece(4, Shown::AsFirm, Stage::Raw, bytes),
        Stage::ParameterName => parameter_piece(rules, bytes),
        Stage::ParameterValue(shown) => text_piece(shown, Stage::Raw, bytes),
        Stage::Status => number_piece(1, Shown::AsFirm, Stage::Raw, bytes),
        Stage::ColumnCount => column_count_piece(bytes),
        Stage::ColumnName(left) => column_name_piece(left, bytes),
        Stage::ColumnPlace(left) => {
            number_piece(6, Shown::Passed, Stage::ColumnType(left), bytes)
        }
        Stage::ColumnType(left) => number_piece(
            12,
            Shown::AsFirm,
            Stage::ColumnName(left.saturating_sub(1)),
            bytes,
        ),
        Stage::ValueCount => value_count_piece(bytes),
        Stage::Value(left) => column_value_piece(rules, left, columns_left, names, bytes),
        Stage::Tag => text_piece(Shown::AsFirm, Stage::Raw, bytes),
        Stage::FieldCode => field_piece(bytes),
        Stage::FieldText(shown) => text_piece(shown, Stage::FieldCode, bytes),
        Stage::Text => text_words_piece(bytes),
        Stage::Words(left) => words_piece(left, bytes),
        Stage::StatementName => text_piece(Shown::AsFirm, Stage::Text, bytes),
        Stage::Portal => text_piece(Shown::AsFirm, Stage::BoundStatement, bytes),
        Stage::BoundStatement => text_piece(Shown::AsFirm, Stage::Formats, bytes),
        Stage::Formats => formats_piece(bytes),
        Stage::Password => password_piece(bytes),
        Stage::PacketCode => number_piece(4, Shown::AsFirm, Stage::StartupName, bytes),
        Stage::StartupName => startup_name_piece(bytes),
        Stage::StartupValue => text_piece(Shown::AsSoft, Stage::StartupName, bytes),
    }
}

/// How the value under a name counts.
pub(crate) fn shown_under(rules: &NameRules, name: &[u8]) -> Shown
    ensures { result ≡ shown_under rules.now name.now }
{
    if rules.free.has(name) {
        Shown::Passed
    } else if rules.firm.has(name) {
        Shown::AsFirm
    } else {
        Shown::AsSoft
    }
}

fn shown_parameter(rules: &NameRules, name: &[u8]) -> Shown
    ensures { result ≡ shown_parameter rules.now name.now }
{
    if name == b"server_version".as_slice() {
        Shown::Passed
    } else {
        shown_under(rules, name)
    }
}

/// How the value in the next column counts.
fn shown_column(rules: &NameRules, columns_left: u32, names: &[u8]) -> Shown
    ensures { result ≡ shown_column rules.now
        (record { left = columns_left; names = names.now }) }
{
    if columns_left == 0 {
        return Shown::AsSoft;
    }
    let len = text_len(names);
    if len == names.len() {
        return Shown::AsSoft;
    }
    shown_under(rules, &names[..len])
}

/// The most bytes of one token of which nothing is said.
const RAW_BLOCK: usize = 4096;

/// A block of bytes of which nothing is said.
fn raw_piece(bytes: &[u8]) -> Option<Piece>
    ensures { result ≡ raw_piece bytes.now }
{
    if bytes.is_empty() {
        return None;
    }
    let len = bytes.len().min(RAW_BLOCK);
    Some(Piece {
        shown: Shown::AsFirm,
        start: 0,
        end: len,
        size: len,
        next: Stage::Raw,
    })
}

/// So many bytes.
fn number_piece(count: usize, shown: Shown, next: Stage, bytes: &[u8]) -> Option<Piece>
    ensures { result ≡ number_piece count shown next bytes.now }
{
    if bytes.len() < count {
        return raw_piece(bytes);
    }
    Some(Piece {
        shown,
        start: 0,
        end: count,
        size: count,
        next,
    })
}

/// A text, whose zero byte is passed.
fn text_piece(shown: Shown, next: Stage, bytes: &[u8]) -> Option<Piece>
    ensures { result ≡ text_piece shown next bytes.now }
{
    let len = text_len(bytes);
    if len == bytes.len() {
        return raw_piece(bytes);
    }
    Some(Piece {
        shown,
        start: 0,
        end: len,
        size: len + 1,
        next,
    })
}

/// The first word or other byte of a text that has so many bytes left, or its zero byte.
fn words_piece(left: u32, bytes: &[u8]) -> Option<Piece>
    requires { length bytes.now < 2 ^ 32 }
    ensures { result ≡ words_piece left bytes.now }
{
    if left == 0 || bytes.is_empty() {
        return number_piece(1, Shown::Passed, Stage::Raw, bytes);
    }
    let len = front_word(left as usize, bytes);
    if len == 0 {
        return Some(Piece {
            shown: Shown::AsFirm,
            start: 0,
            end: 1,
            size: 1,
            next: Stage::Words(left - 1),
        });
    }
    Some(Piece {
        shown: Shown::AsSoft,
        start: 0,
        end: len,
        size: len,
        next: Stage::Words(left - len as u32),
    })
}

/// The bytes of the word at the front of the first so many bytes.
fn front_word(count: usize, bytes: &[u8]) -> usize
    ensures len { result ≡ prefix_len is_word_byte (take count bytes.now) }
    ensures within { result ≤ count }
    ensures inside { result ≤ length bytes.now }
{
    word_len(&bytes[..count.min(bytes.len())])
}

fn shown_null(shown: Shown) -> Shown
    ensures { result ≡ shown_null shown }
{
    match shown {
        Shown::Passed => Shown::Passed,
        Shown::AsSoft | Shown::AsFirm => Shown::AsFirm,
    }
}

/// The bytes of a length.
const LENGTH_BYTES: usize = 4;

/// The length of a value that isn't there.
const NULL: u32 = u32::MAX;

/// A length and the value: -1 is NULL. Where the value runs past the end, its length is passed.
fn value_piece(shown: Shown, left: u32, bytes: &[u8]) -> Option<Piece>
    ensures { result ≡ value_piece shown left bytes.now }
{
    if bytes.len() < LENGTH_BYTES {
        return raw_piece(bytes);
    }
    let len = be_u32_at(bytes, 0);
    if len == NULL {
        return Some(Piece {
            shown: shown_null(shown),
            start: 0,
            end: LENGTH_BYTES,
            size: LENGTH_BYTES,
            next: Stage::Value(left),
        });
    }
    if len >= 1 << 31 {
        return raw_piece(bytes);
    }
    let end = LENGTH_BYTES + len as usize;
    if bytes.len() < end {
        return Some(Piece {
            shown: Shown::Passed,
            start: 0,
            end: 0,
            size: LENGTH_BYTES,
            next: Stage::Raw,
        });
    }
    Some(Piece {
        shown,
        start: LENGTH_BYTES,
        end,
        size: end,
        next: Stage::Value(left),
    })
}

fn parameter_piece(rules: &NameRules, bytes: &[u8]) -> Option<Piece>
    ensures { result ≡ parameter_piece rules.now bytes.now }
{
    let name = &bytes[..text_len(bytes)];
    let value = Stage::ParameterValue(shown_parameter(rules, name));
    text_piece(Shown::AsFirm, value, bytes)
}

fn column_count_piece(bytes: &[u8]) -> Option<Piece>
    ensures { result ≡ column_count_piece bytes.now }
{
    if bytes.len() < 2 {
        return raw_piece(bytes);
    }
    let count = be_u16_at(bytes, 0) as u32;
    number_piece(2, Shown::AsFirm, Stage::ColumnName(count), bytes)
}

fn column_name_piece(left: u32, bytes: &[u8]) -> Option<Piece>
    ensures { result ≡ column_name_piece left bytes.now }
{
    if left == 0 {
        return raw_piece(bytes);
    }
    text_piece(Shown::AsFirm, Stage::ColumnPlace(left), bytes)
}

fn value_count_piece(bytes: &[u8]) -> Option<Piece>
    ensures { result ≡ value_count_piece bytes.now }
{
    if bytes.len() < 2 {
        return raw_piece(bytes);
    }
    let count = be_u16_at(bytes, 0) as u32;
    number_piece(2, Shown::AsFirm, Stage::Value(count), bytes)
}

fn column_value_piece(
    rules: &NameRules,
    left: u32,
    columns_left: u32,
    names: &[u8],
    bytes: &[u8],
) -> Option<Piece>
    ensures { result ≡ column_value_piece rules.now left
        (record { left = columns_left; names = names.now }) bytes.now }
{
    if left == 0 {
        return raw_piece(bytes);
    }
    value_piece(shown_column(rules, columns_left, names), left - 1, bytes)
}

fn shown_code(code: u8) -> Shown
    ensures { result ≡ shown_code code }
{
    match code {
        0 | b'F' | b'L' | b'R' => Shown::Passed,
        _ => Shown::AsFirm,
    }
}

fn shown_field(code: u8) -> Shown
    ensures { result ≡ shown_field code }
{
    match code {
        b'F' | b'L' | b'R' => Shown::Passed,
        b'S' | b'V' | b'C' => Shown::AsFirm,
        _ => Shown::AsSoft,
    }
}

fn behind_code(code: u8) -> Stage
    ensures { result ≡ behind_code code }
{
    match code {
        0 => Stage::Raw,
        _ => Stage::FieldText(shown_field(code)),
    }
}

fn field_piece(bytes: &[u8]) -> Option<Piece>
    ensures { result ≡ field_piece bytes.now }
{
    if bytes.is_empty() {
        return raw_piece(bytes);
    }
    let code = bytes[0];
    number_piece(1, shown_code(code), behind_code(code), bytes)
}

fn text_words_piece(bytes: &[u8]) -> Option<Piece>
    requires { length bytes.now < 2 ^ 32 }
    ensures { result ≡ text_words_piece bytes.now }
{
    let len = text_len(bytes);
    if len == bytes.len() {
        return raw_piece(bytes);
    }
    words_piece(len as u32, bytes)
}

fn formats_piece(bytes: &[u8]) -> Option<Piece>
    ensures { result ≡ formats_piece bytes.now }
{
    if bytes.len() < 2 {
        return raw_piece(bytes);
    }
    let size = 2 + 2 * be_u16_at(bytes, 0) as usize;
    number_piece(size, Shown::AsFirm, Stage::ValueCount, bytes)
}

/// Where a password ends, which a zero byte may follow.
fn password_end(bytes: &[u8]) -> usize
    ensures { result ≡ password_end bytes.now }
{
    if bytes.len() > LENGTH_BYTES && bytes[bytes.len() - 1] == 0 {
        bytes.len() - 1
    } else {
        bytes.len()
    }
}

fn password_piece(bytes: &[u8]) -> Option<Piece>
    ensures { result ≡ password_piece bytes.now }
{
    if bytes.len() < LENGTH_BYTES {
        return raw_piece(bytes);
    }
    Some(Piece {
        shown: Shown::AsSoft,
        start: LENGTH_BYTES,
        end: password_end(bytes),
        size: bytes.len(),
        next: Stage::Raw,
    })
}

fn startup_name_piece(bytes: &[u8]) -> Option<Piece>
    ensures { result ≡ startup_name_piece bytes.now }
{
    let next = if text_len(bytes) == 0 {
        Stage::Raw
    } else {
        Stage::StartupValue
    };
    text_piece(Shown::AsFirm, next, bytes)
}
