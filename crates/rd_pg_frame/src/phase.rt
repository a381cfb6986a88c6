ghost use Rattle.std.specs.Prelude.{◌≡◌, length};
ghost use Rattle.rd_base.specs.declared.values.Scan.TheVariants.{Whole};
ghost use Rattle.rd_base.specs.declared.values.Side.{Side};
ghost use Rattle.rd_pg_frame.specs.Scanning.{scan_request, scan_reply};
ghost use Rattle.rd_pg_frame.specs.Units.{IsRequest, IsReply};
ghost use Rattle.rd_pg_frame.specs.Phases.{note_of, open_note, password_note, ready_note, last_letter, login_phase, phase_after};

use crate::message::{be_u32_at, message_at};
use crate::scan::{GSS_REQUEST, SSL_REQUEST};
use rd_base::{Note, Phase};

/// The note of a whole request: 1 for SSLRequest, 2 for GSSENCRequest, 3 for a startup, 4 for a password,
/// 5 for a simple query, 6 for an extended one, 7 for the farewell.
pub fn note_of(phase: Phase, unit: &[u8]) -> Note
    requires { scan_request phase unit.now ≡ Whole (length unit.now) }
    ensures note { result ≡ note_of phase unit.now }
    ensures request { IsRequest phase result unit.now }
{
    match phase.0 {
        0 => open_note(be_u32_at(unit, 4)),
        1 => password_note(unit[0]),
        _ => ready_note(unit[0]),
    }
}

fn open_note(code: u32) -> Note
    ensures { result ≡ open_note code }
{
    match code {
        SSL_REQUEST => Note(1),
        GSS_REQUEST => Note(2),
        _ => Note(3),
    }
}

fn password_note(letter: u8) -> Note
    ensures { result ≡ password_note letter }
{
    match letter {
        b'X' => Note(7),
        _ => Note(4),
    }
}

fn ready_note(letter: u8) -> Note
    ensures { result ≡ ready_note letter }
{
    match letter {
        b'X' => Note(7),
        b'Q' => Note(5),
        _ => Note(6),
    }
}

/// The phase after a whole reply to a request with this note: 0 is Open, 1 Password, 2 Ready, 3 Over.
pub fn phase_after(note: Note, reply: &[u8]) -> Phase
    ensures phase { result ≡ phase_after note reply.now }
    ensures reply { (side : Side) → scan_reply side note reply.now ≡ Whole (length reply.now)
        → IsReply side note result reply.now }
{
    match note.0 {
        1 | 2 => Phase(0),
        3 | 4 => login_phase(last_letter(reply)),
        5 | 6 => Phase(2),
        _ => Phase(3),
    }
}

fn login_phase(letter: u8) -> Phase
    ensures { result ≡ login_phase letter }
{
    match letter {
        b'Z' => Phase(2),
        b'R' => Phase(1),
        _ => Phase(3),
    }
}

/// The letter of the last of the messages that stand one behind another, or 0.
fn last_letter(bytes: &[u8]) -> u8
    ensures { result ≡ last_letter bytes.now }
{
    let mut letter = 0;
    let mut at = 0;
    while let Some(message) = message_at(bytes, at) {
        letter = message.letter;
        at = message.to;
    }
    letter
}
