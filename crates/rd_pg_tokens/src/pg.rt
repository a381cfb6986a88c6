ghost use Rattle.std.specs.Prelude.{◌≡◌, ◌≤◌, ◌<◌, ◌^◌, ◌++◌, length, [], IfOk, MatchOption};
ghost use Rattle.rd_dialect.specs.Grammar.{whole_len, IsNext};
ghost use Rattle.rd_pg_tokens.specs.PgGrammar.{pg};
ghost use Rattle.rd_pg_tokens.specs.PgLawful.{pg_lawful};

use crate::kind::Kind;
use crate::step::{Step, next_step};
use rd_base::{
    Beside, Bytes, Cursor, NameRules, NoMemory, Note, Part, Phase, Rows, Scan, Side, TokenSpan,
    Words,
};
use rd_dialect::Dialect;
use std::alloc::Global;

/// The frontend/backend protocol of PostgreSQL, version 3.0, on one side, with names under which values are Firm and
/// names under which they are no tokens.
#[derive(Drop)]
pub struct Pg {
    side: Side,
    rules: NameRules,
}

impl Dialect for Pg {
    ghost grammar = { λ p. pg p.side p.rules };

    ghost lawful = { λ p. pg_lawful p.side p.rules };

    fn first_phase(&self) -> Phase {
        Phase(0)
    }

    fn scan_request(&self, phase: Phase, bytes: &[u8]) -> Scan {
        rd_pg_frame::scan_request(phase, bytes)
    }

    fn note_of(&self, phase: Phase, unit: &[u8]) -> Note {
        rd_pg_frame::note_of(phase, unit)
    }

    fn scan_reply(&self, _phase: Phase, note: Note, bytes: &[u8], _ended: bool) -> Scan {
        rd_pg_frame::scan_reply(self.side, note, bytes)
    }

    fn phase_after(&self, _phase: Phase, note: Note, reply: &[u8]) -> Phase {
        rd_pg_frame::phase_after(note, reply)
    }

    fn is_farewell(&self, note: Note) -> bool {
        note.0 == 7
    }

    fn early_replies(&self) -> bool {
        true
    }

    fn learns_rows(&self) -> bool {
        false
    }

    fn shown_from(&self, _phase: Phase, _note: Note, _reply: &[u8]) -> usize {
        0
    }

    fn flat_into(
        &self,
        _part: Part,
        _phase: Phase,
        _note: Note,
        bytes: &[u8],
        _whole: bool,
        out: &mut Bytes,
    ) -> Result<(), NoMemory> {
        out.push_slice(bytes)
    }

    fn first_cursor(&self) -> Cursor {
        Cursor {
            at: 0,
            mode: 0,
            left: 0,
            mark: 0,
            beside: Beside::nothing(),
        }
    }

    fn next_token(
        &self,
        part: Part,
        phase: Phase,
        note: Note,
        flat: &[u8],
        whole: bool,
        cursor: Cursor,
    ) -> Option<(TokenSpan, Cursor)> {
        let kind = Kind::of(part, phase, note);
        let mut here = cursor;
        loop {
            match next_step(&self.rules, kind, flat, here) {
                Step::Told(span, next) => return Some((span, next)),
                Step::Passed(next) => here = next,
                Step::End => return None,
            }
        }
    }

    fn to_copy(
        &self,
        alloc: Global,
        _phase: Phase,
        _note: Note,
        _copy: u8,
        _own: &Rows,
        _told: &Rows,
        unit: &[u8],
    ) -> Result<Bytes, NoMemory> {
        Bytes::from_slice(alloc, unit)
    }

    fn asked_words(
        &self,
        alloc: Global,
        _phase: Phase,
        _note: Note,
        _unit: &[u8],
    ) -> Result<Words, NoMemory> {
        Ok(Words::new(alloc))
    }
}

impl Pg {
    /// The dialect on this side. It keeps a copy of the rules. The names to pass have no effect.
    pub fn new(alloc: Global, side: Side, rules: &NameRules) -> Result<Pg, NoMemory>
        ensures { IfOk result (λ p. ⟦<Pg as Dialect>⟧.grammar p ≡ pg side rules.now) }
    {
        Ok(Pg {
            side,
            rules: copied(alloc, rules)?,
        })
    }
}

fn copied(alloc: Global, rules: &NameRules) -> Result<NameRules, NoMemory>
    ensures { IfOk result (λ r. r ≡ rules.now) }
{
    Ok(NameRules {
        pass: rules.pass.copied(alloc)?,
        firm: rules.firm.copied(alloc)?,
        free: rules.free.copied(alloc)?,
    })
}
