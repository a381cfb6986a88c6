ghost use Rattle.std.specs.Prelude.{◌≡◌, ◌≤◌, ◌<◌, ℕ, Bool, ◌+◌, ◌^◌, length, IfOk};
ghost use Rattle.rd_base.specs.Scans.{behind};
ghost use Rattle.rd_base.specs.declared.values.Scan.TheVariants.{Whole};
ghost use Rattle.rd_base.specs.declared.values.Scan.{Scan};
ghost use Rattle.rd_http_frame.specs.Units.{is_interim, IsFinalHead, IsTrailerBehind, IsBodyScan, rule_in, IsUnitScan, IsWholeRequestScan, IsWholeReplyScan, IsShownFrom};
ghost use Rattle.rd_http_frame.specs.UnitLaws.{IsUnitFraming, FindsUnits};
ghost use Rattle.rd_http_frame.specs.WholeUnits.{IsRequest, IsReply};
ghost use Rattle.rd_http_frame.specs.Chunks.{trailer_from};

use crate::body::BodyRule;
use crate::chunk::trailer_from;
use crate::scan::whole_head;
use crate::trailer::scan_trailer;
use rd_base::{Part, Scan};

/// What the bytes come to as a request: a head, and the body that its fields state.
///
/// `Bad`, `TooBig` and `Unsupported` are those of `scan_head`. `Bad` comes also of a byte that can't stand in a
/// chunked body or in its trailer, `TooBig` of a trailer past 100 fields or 65,536 bytes.
pub fn scan_request(bytes: &[u8]) -> Scan
    ensures scan { IsWholeRequestScan bytes.now result }

    // The definition is met by this answer alone.
    ensures only { (other : Scan) → IsWholeRequestScan bytes.now other → other ≡ result }

    // It is whole exactly where the bytes begin with a request, and has its length.
    ensures units { FindsUnits (λ _. IsRequest) (λ _. IsWholeRequestScan) }

    // No request begins another, and hopeless bytes begin none, whatever follows.
    ensures framing { IsUnitFraming (λ _. IsWholeRequestScan) }
{
    scan_unit(Part::Request, false, bytes, false)
}

/// What the bytes come to as a reply: interim heads, and then a final head and the body that its fields state.
/// `head_request` says that it answers a HEAD, and `ended` that no more bytes come.
///
/// Its answers come of the same as `scan_request`'s. A body whose end is not stated is whole only at the end
/// of its link.
pub fn scan_reply(head_request: bool, bytes: &[u8], ended: bool) -> Scan
    ensures scan { IsWholeReplyScan head_request ended bytes.now result }

    // The definition is met by this answer alone.
    ensures only { (other : Scan) → IsWholeReplyScan head_request ended bytes.now other
        → other ≡ result }

    // It is whole exactly where the bytes begin with a reply, and has its length.
    ensures units { FindsUnits (IsReply head_request) (IsWholeReplyScan head_request) }

    // No reply begins another, but one that is read until its link ends; hopeless bytes begin none.
    ensures framing { IsUnitFraming (IsWholeReplyScan head_request) }
{
    scan_unit(Part::Reply, head_request, bytes, ended)
}

/// The place where the final head of a whole reply begins, behind the interim ones.
pub fn shown_from(reply: &[u8]) -> usize
    requires { (head_request : Bool) × (ended : Bool)
        × IsWholeReplyScan head_request ended reply.now (Whole (length reply.now)) }
    ensures from { IsShownFrom reply.now result }
    ensures only { (other : ℕ) → IsShownFrom reply.now other → other ≡ result }
    ensures within { result < length reply.now }
{
    match final_head(Part::Reply, reply) {
        Ok(head) => head.from,
        Err(_) => 0,
    }
}

fn scan_unit(part: Part, head_request: bool, bytes: &[u8], ended: bool) -> Scan
    ensures { IsUnitScan part head_request ended bytes.now result }
{
    match final_head(part, bytes) {
        Ok(head) => {
            let rule = rule_in(head_request, head.body);
            behind(head.to, scan_body(rule, &bytes[head.to..], ended))
        }
        Err(scan) => scan,
    }
}

/// A head behind its interim ones, and where its body ends.
#[derive(Clone, Copy, Debug, PartialEq, Eq)]
pub struct FinalHead {
    pub from: usize,
    pub to: usize,
    pub body: BodyRule,
}

/// The final head, or what the bytes come to without it.
pub fn final_head(part: Part, bytes: &[u8]) -> Result<FinalHead, Scan>
    ensures head { IsFinalHead part bytes.now result }
    ensures ordered { IfOk result (λ head. head.from ≤ head.to) }
    ensures within { IfOk result (λ head. head.to ≤ length bytes.now) }
{
    let mut at = 0;
    loop {
        let head = whole_head(part, &bytes[at..])?;
        if !is_interim(head.status) {
            return Ok(FinalHead {
                from: at,
                to: at + head.len,
                body: head.body,
            });
        }
        at += head.len;
    }
}

/// Whether a reply of this status comes before another.
fn is_interim(status: u16) -> bool
    ensures { result ≡ is_interim status }
{
    status >= 100 && status < 200
}

/// Where the body ends: a reply to HEAD has none.
pub(crate) fn rule_in(head_request: bool, rule: BodyRule) -> BodyRule
    ensures { result ≡ rule_in head_request rule }
{
    if head_request { BodyRule::Empty } else { rule }
}

/// What the bytes behind a head come to as its body.
fn scan_body(rule: BodyRule, bytes: &[u8], ended: bool) -> Scan
    ensures scan { IsBodyScan rule ended bytes.now result }
    ensures within { (len : ℕ) → result ≡ Whole len → len ≤ length bytes.now }
{
    match rule {
        BodyRule::Empty => Scan::Whole(0),
        BodyRule::Length(size) if size <= bytes.len() as u64 => Scan::Whole(size as usize),
        BodyRule::Chunked => scan_chunked(bytes),
        BodyRule::UntilEnd if ended => Scan::Whole(bytes.len()),
        BodyRule::Length(_) | BodyRule::UntilEnd => Scan::More,
    }
}

/// What the bytes come to as chunks and a trailer.
fn scan_chunked(bytes: &[u8]) -> Scan
    ensures scan { IsTrailerBehind bytes.now (trailer_from bytes.now) result }
    ensures within { (len : ℕ) → result ≡ Whole len → len ≤ length bytes.now }
{
    match trailer_from(bytes) {
        Ok(at) => behind(at, scan_trailer(&bytes[at..])),
        Err(scan) => scan,
    }
}

/// The same with so many bytes before.
fn behind(before: usize, scan: Scan) -> Scan
    requires { (len : ℕ) → scan ≡ Whole len → before + len < 2 ^ 64 }
    ensures { result ≡ behind before scan }
{
    match scan {
        Scan::Whole(len) => Scan::Whole(before + len),
        scan => scan,
    }
}
