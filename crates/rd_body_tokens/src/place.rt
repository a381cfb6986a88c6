ghost use Rattle.std.specs.Prelude.{◌≡◌};
ghost use Rattle.rd_body_tokens.specs.Tiles.{is_run_byte, next, joins, kind_at, is_open, place_of, cursor_at};
ghost use Rattle.rd_body_tokens.specs.declared.place.BodyKind.TheVariants.{Json, Form, Raw};

use rd_base::{Beside, Cursor, TokenKind, is_word_byte};

/// How a body is cut into tokens.
#[derive(Clone, Copy, Debug, PartialEq, Eq)]
pub enum BodyKind {
    /// Words, and other bytes alone.
    Words,
    /// The lexemes of JSON.
    Json,
    /// The keys and values of a form.
    Form,
    /// Blocks of 4,096 bytes.
    Raw,
}

/// Where a reader of a body stands.
#[derive(Clone, Copy, Debug, PartialEq, Eq)]
pub enum Place {
    /// Outside strings and values, where no token may go on.
    Fresh,
    /// In a word, in a run of JSON outside a string, or in a form's key.
    Running,
    /// At the beginning of a string, or of a form's value.
    Opened,
    /// In a string, or in a form's value.
    Inside,
    /// In a string, behind a `\` that takes the next byte along.
    Escaped,
    /// Behind so many bytes of a block.
    Block(u32),
}

impl BodyKind {
    /// Where the reader stands behind this byte.
    pub(crate) fn next(self, place: Place, byte: u8) -> Place
        ensures { result ≡ next self place byte }
    {
        match self {
            BodyKind::Words if is_word_byte(byte) => Place::Running,
            BodyKind::Words => Place::Fresh,
            BodyKind::Json => json_next(place, byte),
            BodyKind::Form => form_next(place, byte),
            BodyKind::Raw => block_next(place),
        }
    }

    /// Whether this byte goes on with the token before it.
    pub(crate) fn joins(self, place: Place, byte: u8) -> bool
        ensures { result ≡ joins self place byte }
    {
        match (self, place) {
            (BodyKind::Words, Place::Running) => is_word_byte(byte),
            (BodyKind::Json, Place::Running) => is_run_byte(byte),
            (BodyKind::Json, Place::Inside) => byte != b'"',
            (BodyKind::Json, Place::Escaped) => true,
            (BodyKind::Form, Place::Running) => byte != b'&' && byte != b'=',
            (BodyKind::Form, Place::Inside) => byte != b'&',
            (BodyKind::Raw, Place::Block(_)) => true,
            _ => false,
        }
    }

    /// The kind of the token that begins with this byte.
    pub(crate) fn kind_at(self, place: Place, byte: u8) -> TokenKind
        ensures { result ≡ kind_at self place byte }
    {
        let is_soft = match (self, place) {
            (BodyKind::Words, _) => is_word_byte(byte),
            (BodyKind::Json, Place::Opened | Place::Inside) => byte != b'"',
            (BodyKind::Json, Place::Escaped) => true,
            (BodyKind::Json, _) => is_run_byte(byte),
            (BodyKind::Form, Place::Opened | Place::Inside) => byte != b'&',
            _ => false,
        };
        if is_soft {
            TokenKind::Soft
        } else {
            TokenKind::Firm
        }
    }
}

fn json_next(place: Place, byte: u8) -> Place
    ensures { result ≡ next Json place byte }
{
    match (place, byte) {
        (Place::Escaped, _) => Place::Inside,
        (Place::Opened | Place::Inside, b'"') => Place::Fresh,
        (Place::Opened | Place::Inside, b'\\') => Place::Escaped,
        (Place::Opened | Place::Inside, _) => Place::Inside,
        (_, b'"') => Place::Opened,
        _ if is_run_byte(byte) => Place::Running,
        _ => Place::Fresh,
    }
}

fn form_next(place: Place, byte: u8) -> Place
    ensures { result ≡ next Form place byte }
{
    match (place, byte) {
        (_, b'&') => Place::Fresh,
        (Place::Opened | Place::Inside, _) => Place::Inside,
        (_, b'=') => Place::Opened,
        _ => Place::Running,
    }
}

fn block_next(place: Place) -> Place
    ensures { result ≡ next Raw place 0 }
{
    match place {
        Place::Block(count) if count < 4095 => Place::Block(count + 1),
        Place::Block(_) => Place::Fresh,
        _ => Place::Block(1),
    }
}

/// Whether a run of JSON outside a string may hold this byte.
fn is_run_byte(byte: u8) -> bool
    ensures { result ≡ is_run_byte byte }
{
    byte.is_ascii_lowercase()
        || byte.is_ascii_uppercase()
        || byte.is_ascii_digit()
        || matches!(byte, b'+' | b'-' | b'.')
}

impl Place {
    /// Whether a token that ends here may still go on.
    pub(crate) fn is_open(self) -> bool
        ensures { result ≡ is_open self }
    {
        !matches!(self, Place::Fresh | Place::Opened)
    }

    /// Where a cursor stands.
    pub fn of(cursor: Cursor) -> Place
        ensures { result ≡ place_of cursor }
    {
        match cursor.mode {
            1 => Place::Running,
            2 => Place::Opened,
            3 => Place::Inside,
            4 => Place::Escaped,
            5 => Place::Block(cursor.left),
            _ => Place::Fresh,
        }
    }

    /// The cursor that stands here.
    pub fn cursor(self, at: u32) -> Cursor
        ensures { result ≡ cursor_at at self }
    {
        let (mode, left) = match self {
            Place::Fresh => (0, 0),
            Place::Running => (1, 0),
            Place::Opened => (2, 0),
            Place::Inside => (3, 0),
            Place::Escaped => (4, 0),
            Place::Block(count) => (5, count),
        };
        Cursor {
            at,
            mode,
            left,
            mark: 0,
            beside: Beside::nothing(),
        }
    }
}
