ghost use Rattle.std.specs.Prelude.{◌≡◌, ◌≤◌, ◌<◌, ◌^◌, ◌++◌, length, [], IfOk};
ghost use Rattle.rd_http_tokens.specs.HttpGrammar.{note_number, shown_at};
ghost use Rattle.rd_http_tokens.specs.HttpLawful.{http_lawful};
ghost use Rattle.rd_http_tokens.specs.HttpOn.{HttpView, http_on, learns_on};
ghost use Rattle.rd_http_tokens.specs.Copied.{asked, copied};
ghost use Rattle.rd_http_frame.specs.Fronts.{front_len};

use crate::copy::copied;
use crate::copy_words::asked;
use crate::next::next_found;
use crate::stage::Stage;
use crate::text::{from, place_of};
use rd_base::{
    Beside, Bytes, Cursor, NameRules, NoMemory, Note, Part, Phase, Rows, Scan, Side, TokenSpan,
    Words,
};
use rd_dialect::Dialect;
use std::alloc::Global;
use std::marker::Model;

/// HTTP/1.x on a side of the proxy. Fields of the passed names give no tokens, beside six that never do; values
/// under a firm name are never masked, and values under a free name give no tokens.
#[derive(Drop)]
pub struct Http {
    side: Side,
    rules: NameRules,
}

impl Model for Http {
    ghost Value = { HttpView };

    ghost view = { λ h. record { side = h.side; rules = h.rules } };
}

impl Http {
    /// The dialect on this side, with a copy of the rules.
    pub fn new(alloc: Global, side: Side, rules: &NameRules) -> Result<Http, NoMemory>
        ensures { IfOk result (λ http. http ≡ record { side = side; rules = rules.now }) }
    {
        Ok(Http {
            side,
            rules: NameRules {
                pass: rules.pass.copied(alloc)?,
                firm: rules.firm.copied(alloc)?,
                free: rules.free.copied(alloc)?,
            },
        })
    }
}

impl Dialect for Http {
    ghost grammar = { λ h. http_on h.side h.rules };

    ghost lawful = { λ h. http_lawful h.rules (learns_on h.side) asked copied };

    fn first_phase(&self) -> Phase {
        Phase(0)
    }

    fn scan_request(&self, _phase: Phase, bytes: &[u8]) -> Scan {
        rd_http_scan::scan_request(bytes)
    }

    fn note_of(&self, _phase: Phase, unit: &[u8]) -> Note {
        Note(note_number(unit))
    }

    fn scan_reply(&self, _phase: Phase, note: Note, bytes: &[u8], ended: bool) -> Scan {
        rd_http_scan::scan_reply(note.0 == 2, bytes, ended)
    }

    fn phase_after(&self, _phase: Phase, _note: Note, _reply: &[u8]) -> Phase {
        Phase(0)
    }

    fn is_farewell(&self, _note: Note) -> bool {
        false
    }

    fn early_replies(&self) -> bool {
        false
    }

    fn learns_rows(&self) -> bool {
        self.side == Side::Incoming
    }

    fn shown_from(&self, _phase: Phase, _note: Note, reply: &[u8]) -> usize {
        rd_http_frame::shown_from(reply)
    }

    fn flat_into(
        &self,
        part: Part,
        _phase: Phase,
        note: Note,
        bytes: &[u8],
        whole: bool,
        out: &mut Bytes,
    ) -> Result<(), NoMemory> {
        rd_http_scan::flat_into(part, note.0 == 2, bytes, whole, out)
    }

    fn first_cursor(&self) -> Cursor {
        Cursor {
            at: 0,
            mode: 0,
            left: 0,
            mark: 0,
            beside: Beside::nothing(),
        }
    }

    fn next_token(
        &self,
        part: Part,
        _phase: Phase,
        _note: Note,
        flat: &[u8],
        whole: bool,
        cursor: Cursor,
    ) -> Option<(TokenSpan, Cursor)> {
        let at = cursor.at as usize;
        match next_found(&self.rules, part, flat, whole, at, Stage::of(cursor)) {
            Some(found) => Some((found.span(), found.stage.cursor(found.next))),
            None => None,
        }
    }

    fn to_copy(
        &self,
        alloc: Global,
        _phase: Phase,
        _note: Note,
        copy: u8,
        own: &Rows,
        told: &Rows,
        unit: &[u8],
    ) -> Result<Bytes, NoMemory> {
        copied(alloc, copy, own, told, unit)
    }

    fn asked_words(
        &self,
        alloc: Global,
        _phase: Phase,
        _note: Note,
        unit: &[u8],
    ) -> Result<Words, NoMemory> {
        asked(alloc, unit)
    }
}

/// 2 for a HEAD, 1 for any other request.
fn note_number(unit: &[u8]) -> u8
    ensures { result ≡ note_number unit.now }
{
    let text = from(unit, front_len(unit));
    let method = &text[..place_of(text, b' ')];
    if method == b"HEAD".as_slice() { 2 } else { 1 }
}

/// The number of bytes CR and LF at the front.
pub(crate) fn front_len(text: &[u8]) -> usize
    ensures value { result ≡ front_len text.now }
    ensures within { result ≤ length text.now }
{
    for (i, byte) in text.iter().enumerate() {
        if *byte != b'\r' && *byte != b'\n' {
            return i;
        }
    }
    text.len()
}
