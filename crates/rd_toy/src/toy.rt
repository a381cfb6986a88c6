ghost use Rattle.rd_toy.specs.ToyGrammar.{toy, shown_from};
ghost use Rattle.rd_toy.specs.ToyLawful.{toy_lawful};
ghost use Rattle.std.specs.Prelude.{◌≡◌, ◌≤◌, length, ◌&&◌, ◌==◌, not};

use crate::scan::{early_len, scan_answer, scan_kinds, scan_nothing, scan_until_end};
use rd_base::{
    Beside, Bytes, Cursor, NoMemory, Note, Part, Phase, Rows, Scan, TokenSpan, WordCut, Words,
    cut_at,
};
use rd_dialect::{Dialect, Line};
use rd_token_map::swap_words;
use std::alloc::Global;

/// Lines whose first byte is their kind. Phase 0 takes a log-in `u`, phase 1 a query `q`, a read `r` and a farewell
/// `x`, phase 2 nothing.
///
/// A log-in is answered by `y`, with which phase 1 begins, or by `n`, and a query by `=`. Early lines `+` may come
/// before an answer and aren't shown. The reply to a read is all that comes until its link ends, at least one byte,
/// and a farewell has none.
///
/// The kind `!` isn't supported, by code 7 in a request and 9 in an answer, and `#` is too big.
#[derive(Clone, Copy, Debug)]
pub struct Toy;

impl Dialect for Toy {
    ghost grammar = { λ _. toy };

    ghost lawful = { λ _. toy_lawful };

    fn first_phase(&self) -> Phase {
        Phase(0)
    }

    fn scan_request(&self, phase: Phase, bytes: &[u8]) -> Scan {
        match phase.0 {
            0 => scan_kinds(b"u", 7, bytes),
            1 => scan_kinds(b"qrx", 7, bytes),
            _ => scan_nothing(bytes),
        }
    }

    fn note_of(&self, _phase: Phase, unit: &[u8]) -> Note {
        match unit.first() {
            Some(b'r') => Note(2),
            Some(b'x') => Note(3),
            _ => Note(1),
        }
    }

    fn scan_reply(&self, phase: Phase, note: Note, bytes: &[u8], ended: bool) -> Scan {
        match note.0 {
            1 if phase.0 == 0 => scan_answer(b"yn", bytes),
            1 => scan_answer(b"=", bytes),
            2 => scan_until_end(bytes, ended),
            _ => scan_nothing(bytes),
        }
    }

    fn phase_after(&self, phase: Phase, note: Note, reply: &[u8]) -> Phase {
        if note.0 == 3 {
            return Phase(2);
        }
        match reply.get(shown_from(note, reply)) {
            Some(b'y') if phase.0 == 0 => Phase(1),
            _ => phase,
        }
    }

    fn is_farewell(&self, note: Note) -> bool {
        note.0 == 3
    }

    fn early_replies(&self) -> bool {
        true
    }

    fn learns_rows(&self) -> bool {
        true
    }

    fn shown_from(&self, _phase: Phase, note: Note, reply: &[u8]) -> usize {
        shown_from(note, reply)
    }

    fn flat_into(
        &self,
        _part: Part,
        _phase: Phase,
        _note: Note,
        bytes: &[u8],
        _whole: bool,
        out: &mut Bytes,
    ) -> Result<(), NoMemory> {
        out.push_slice(bytes)
    }

    fn first_cursor(&self) -> Cursor {
        cursor_at(0)
    }

    fn next_token(
        &self,
        part: Part,
        phase: Phase,
        note: Note,
        flat: &[u8],
        whole: bool,
        cursor: Cursor,
    ) -> Option<(TokenSpan, Cursor)> {
        let start = cursor.at as usize;
        if start >= flat.len() {
            return None;
        }
        let cut = cut_at(flat, start);
        if is_open(cut, flat.len(), whole) {
            return None;
        }
        let span = TokenSpan {
            kind: cut.kind(),
            start: cursor.at,
            end: cut.end as u32,
        };
        Some((span, cursor_at(cut.end as u32)))
    }

    fn to_copy(
        &self,
        alloc: Global,
        _phase: Phase,
        _note: Note,
        copy: u8,
        own: &Rows,
        told: &Rows,
        unit: &[u8],
    ) -> Result<Bytes, NoMemory> {
        swap_words(alloc, copy, own, told, unit)
    }

    fn asked_words(
        &self,
        alloc: Global,
        phase: Phase,
        note: Note,
        unit: &[u8],
    ) -> Result<Words, NoMemory> {
        Line.asked_words(alloc, phase, note, unit)
    }
}

/// Where the shown part of a reply begins: behind the early lines of an answer.
fn shown_from(note: Note, reply: &[u8]) -> usize
    ensures from { result ≡ shown_from note.0 reply.now }
    ensures within { result ≤ length reply.now }
{
    if note.0 == 1 { early_len(reply) } else { 0 }
}

/// Whether a word may still go on past the text.
fn is_open(cut: WordCut, len: usize, whole: bool) -> bool
    ensures { result ≡ (cut.is_soft && not whole && cut.end == len) }
{
    cut.is_soft && !whole && cut.end == len
}

fn cursor_at(at: u32) -> Cursor
    ensures { result ≡ record {
      at = at;
      mode = 0;
      left = 0;
      mark = 0;
      beside = record { from = 0; to = 0; at = 0; left = 0 };
    } }
{
    Cursor {
        at,
        mode: 0,
        left: 0,
        mark: 0,
        beside: Beside::nothing(),
    }
}
