ghost use Rattle.std.specs.Prelude.{◌≡◌, ◌≢◌, ◌≤◌, ℕ, length};
ghost use Rattle.rd_base.specs.declared.values.Scan.TheVariants.{Whole};
ghost use Rattle.rd_pg_frame.specs.Scanning.{scan_request, scan_reply, scan_messages, scan_packet, packet_lengths, scan_answer, scan_nothing};

use crate::front::front_of;
use crate::message::be_u32_at;
use crate::place::Place;
use crate::table::LetterTable;
use rd_base::{Note, Phase, Scan, Side};

/// The code of SSLRequest.
pub const SSL_REQUEST: u32 = 80_877_103;
/// The code of GSSENCRequest.
pub const GSS_REQUEST: u32 = 80_877_104;
/// The version of the protocol, as a startup names it.
const PROTOCOL_3_0: u32 = 196_608;

/// What the bytes of a client come to in this phase: 0 is Open, 1 Password, 2 Ready, 3 Over.
pub fn scan_request(phase: Phase, bytes: &[u8]) -> Scan
    ensures scan { result ≡ scan_request phase bytes.now }
    ensures within { (len : ℕ) → result ≡ Whole len → len ≤ length bytes.now }
    ensures over { phase.0 ≡ 3 → (len : ℕ) → result ≢ Whole len }
{
    match phase.0 {
        0 => scan_packet(bytes),
        1 => scan_messages(&Place::Password, bytes),
        2 => scan_messages(&Place::Ready, bytes),
        _ => scan_nothing(bytes),
    }
}

/// What the bytes of a backend come to after a request with this note.
pub fn scan_reply(side: Side, note: Note, bytes: &[u8]) -> Scan
    ensures scan { result ≡ scan_reply side note bytes.now }
    ensures within { (len : ℕ) → result ≡ Whole len → len ≤ length bytes.now }
{
    match note.0 {
        1 => scan_answer(b'S', bytes),
        2 => scan_answer(b'G', bytes),
        3 => scan_messages(&Place::StartupReply(side), bytes),
        4 => scan_messages(&Place::PasswordReply, bytes),
        5 | 6 => scan_messages(&Place::QueryReply, bytes),
        _ => scan_nothing(bytes),
    }
}

/// What bytes come to as messages of these letters, up to the first that ends their unit.
pub fn scan_messages<T: LetterTable>(table: &T, bytes: &[u8]) -> Scan
    ensures scan { result ≡ scan_messages (T.letters table.now) bytes.now }
    ensures within { (len : ℕ) → result ≡ Whole len → len ≤ length bytes.now }
{
    let mut at = 0;
    loop {
        match front_of(table, at == 0, &bytes[at..]) {
            Ok(front) if front.is_last => return Scan::Whole(at + front.size),
            Ok(front) => at += front.size,
            Err(scan) => return scan,
        }
    }
}

/// A packet without a letter: its length, its code, the rest.
fn scan_packet(bytes: &[u8]) -> Scan
    ensures { result ≡ scan_packet packet_lengths bytes.now }
{
    if bytes.len() < 4 {
        return Scan::More;
    }
    let len = be_u32_at(bytes, 0);
    if !(8..=10_000).contains(&len) {
        return Scan::Bad;
    }
    if bytes.len() < 8 {
        return Scan::More;
    }
    let code = be_u32_at(bytes, 4);
    let fits = match code {
        SSL_REQUEST | GSS_REQUEST => len == 8,
        PROTOCOL_3_0 => len > 8,
        _ => return Scan::Unsupported(code),
    };
    if !fits {
        Scan::Bad
    } else if bytes.len() < len as usize {
        Scan::More
    } else {
        Scan::Whole(len as usize)
    }
}

/// The answer to a request for encryption, which this byte would grant.
fn scan_answer(granting: u8, bytes: &[u8]) -> Scan
    ensures { result ≡ scan_answer granting bytes.now }
{
    match bytes.first() {
        None => Scan::More,
        Some(b'N') => Scan::Whole(1),
        Some(answer) if *answer == granting => Scan::Unsupported(granting as u32),
        Some(_) => Scan::Bad,
    }
}

/// Where nothing may come.
fn scan_nothing(bytes: &[u8]) -> Scan
    ensures { result ≡ scan_nothing bytes.now }
{
    if bytes.is_empty() {
        Scan::More
    } else {
        Scan::Bad
    }
}
