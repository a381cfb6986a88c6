ghost use Rattle.std.specs.Prelude.{◌≡◌, ◌≤◌, ◌<◌, ◌^◌, ◌++◌, [], length, IfOk, OnOk, OnErr, MatchOption};
ghost use Rattle.rd_dialect.specs.Grammar.{Grammar, whole_len, IsRequest, IsReply, IsNext};
ghost use Rattle.rd_dialect.specs.Laws.{Lawful};

use rd_base::{Bytes, Cursor, NoMemory, Note, Part, Phase, Rows, Scan, TokenSpan, Words};
use std::alloc::Global;

/// What a session asks of the bytes that it carries.
pub trait Dialect: Drop {
    ghost grammar: { Self → Grammar };

    fn first_phase(&self) -> Phase
        ensures { result ≡ (grammar self.now).first_phase };

    fn scan_request(&self, phase: Phase, bytes: &[u8]) -> Scan
        ensures scan { result ≡ (grammar self.now).scan_request phase bytes.now }
        ensures within { whole_len result ≤ length bytes.now };

    fn note_of(&self, phase: Phase, unit: &[u8]) -> Note
        requires { IsRequest (grammar self.now) phase unit.now }
        ensures { result ≡ (grammar self.now).note_of phase unit.now };

    fn scan_reply(&self, phase: Phase, note: Note, bytes: &[u8], ended: bool) -> Scan
        ensures scan { result ≡ (grammar self.now).scan_reply phase note bytes.now ended }
        ensures within { whole_len result ≤ length bytes.now };

    fn phase_after(&self, phase: Phase, note: Note, reply: &[u8]) -> Phase
        requires { IsReply (grammar self.now) phase note reply.now }
        ensures { result ≡ (grammar self.now).phase_after phase note reply.now };

    fn is_farewell(&self, note: Note) -> bool
        ensures { result ≡ (grammar self.now).is_farewell note };

    fn early_replies(&self) -> bool
        ensures { result ≡ (grammar self.now).early_replies };

    fn learns_rows(&self) -> bool
        ensures { result ≡ (grammar self.now).learns_rows };

    /// Where the part of a reply begins that a client is shown.
    fn shown_from(&self, phase: Phase, note: Note, reply: &[u8]) -> usize
        requires { IsReply (grammar self.now) phase note reply.now }
        ensures from { result ≡ (grammar self.now).shown_from phase note reply.now }
        ensures within { result ≤ length reply.now };

    /// Appends the flat form of a whole unit, or of a part of one.
    fn flat_into(
        &self,
        part: Part,
        phase: Phase,
        note: Note,
        bytes: &[u8],
        whole: bool,
        out: &mut Bytes,
    ) -> Result<(), NoMemory>
        ensures ok { OnOk result
            (out.new ≡ out.old ++ (grammar self.now).flat part phase note bytes.now whole) }
        ensures err { OnErr result (out.new ≡ out.old) };

    fn first_cursor(&self) -> Cursor
        ensures { result ≡ (grammar self.now).first_cursor };

    /// The token at the cursor. `None` where there is none, and on a part where none is closed.
    fn next_token(
        &self,
        part: Part,
        phase: Phase,
        note: Note,
        flat: &[u8],
        whole: bool,
        cursor: Cursor,
    ) -> Option<(TokenSpan, Cursor)>
        requires { length flat.now < 2 ^ 32 }
        ensures { MatchOption result
            ((grammar self.now).left part phase note flat.now whole cursor ≡ [])
            (λ r. IsNext (grammar self.now) part phase note flat.now whole cursor r.0 r.1) };

    /// A whole request as this copy gets it.
    fn to_copy(
        &self,
        alloc: Global,
        phase: Phase,
        note: Note,
        copy: u8,
        own: &Rows,
        told: &Rows,
        unit: &[u8],
    ) -> Result<Bytes, NoMemory>
        requires { IsRequest (grammar self.now) phase unit.now }
        ensures { IfOk result (λ b. b
            ≡ (grammar self.now).to_copy phase note copy own.now told.now unit.now) };

    /// The words of a whole request that are looked up, in order of place.
    fn asked_words(
        &self,
        alloc: Global,
        phase: Phase,
        note: Note,
        unit: &[u8],
    ) -> Result<Words, NoMemory>
        requires { IsRequest (grammar self.now) phase unit.now }
        ensures { IfOk result (λ w. w ≡ (grammar self.now).asked phase note unit.now) };

    ghost lawful: { (dialect : Self) → Lawful (grammar dialect) };
}
