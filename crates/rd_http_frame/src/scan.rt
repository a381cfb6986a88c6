ghost use Rattle.std.specs.Prelude.{◌≡◌, ◌≤◌, ◌<◌, length, IfOk};
ghost use Rattle.rd_base.specs.declared.values.Scan.{Scan};
ghost use Rattle.httparse.specs.Grammar.{RequestHead, ResponseHead};
ghost use Rattle.httparse.specs.Spans.{IsRequestAt, IsRequestWithin, IsResponseAt, IsResponseWithin};
ghost use Rattle.rd_http_frame.specs.WholeHeads.{head_scan, IsWholeHead, TellsRequest, TellsReply, AnswersRequest, AnswersReply};
ghost use Rattle.rd_http_frame.specs.EmptyLines.{EmptyLineSettles};
ghost use Rattle.rd_http_frame.specs.HeadLaws.{IsHeadFraming};
ghost use Rattle.rd_http_frame.specs.Heads.{IsHeadScan, IsRequestScan, IsReplyScan, request_answer, reply_answer, unfinished, seen};

use crate::body::{BodyRule, reply_rule, rule_of};
use crate::fields::framing_of;
use crate::lines::{after_front, line_feeds};
use crate::target::{is_good_target, is_in_target, is_visible};
use httparse::spans::{
    EMPTY_HEADER_SPAN, HeaderSpan, RequestSpans, ResponseSpans, parse_request, parse_response,
};
use httparse::{Error, Status};
use rd_base::{Part, Scan};

/// The most bytes of a head.
const MOST_BYTES: usize = 65_536;
/// The most lines of a head: a start line and 100 fields.
const MOST_LINES: usize = 101;
/// The most fields of a head.
pub(crate) const MOST_FIELDS: usize = 100;

/// A whole head: its bytes, a reply's status, and where its body ends.
#[derive(Clone, Copy, Debug, PartialEq, Eq)]
pub(crate) struct WholeHead {
    pub len: usize,
    pub status: u16,
    pub body: BodyRule,
}

/// What the bytes come to as the head of a request or of a reply. Of the first 65,536 no more are looked at.
///
/// `Bad` where no head can come of them, or where a whole one leaves a doubt about its body; `TooBig`
/// past 100 fields or 65,536 bytes; `Unsupported` 1 for CONNECT, 2 for TRACE, 101 for a switch of protocols.
pub fn scan_head(part: Part, bytes: &[u8]) -> Scan
    ensures scan { IsHeadScan part bytes.now result }

    // The definition is met by this answer alone.
    ensures only { (other : Scan) → IsHeadScan part bytes.now other → other ≡ result }

    // No head begins another, and hopeless bytes begin none, whatever follows.
    ensures framing { IsHeadFraming part }

    // Bytes that hold an empty line behind the front and begin with no head are hopeless.
    ensures empty_line { EmptyLineSettles part }
{
    match whole_head(part, bytes) {
        Ok(head) => Scan::Whole(head.len),
        Err(scan) => scan,
    }
}

/// The head at the front, or what the bytes come to without a whole one.
pub(crate) fn whole_head(part: Part, bytes: &[u8]) -> Result<WholeHead, Scan>
    ensures head { IsWholeHead part bytes.now result }
    ensures some_bytes { IfOk result (λ head. 0 < head.len) }
    ensures within { IfOk result (λ head. head.len ≤ length bytes.now) }
{
    match part {
        Part::Request => whole_request_head(seen(bytes)),
        Part::Reply => whole_reply_head(seen(bytes)),
    }
}

/// The bytes that are looked at.
pub(crate) fn seen(bytes: &[u8]) -> &[u8]
    ensures is { result.now ≡ seen bytes.now }
    ensures within { length result.now ≤ 65536 }
{
    if bytes.len() <= MOST_BYTES {
        bytes
    } else {
        &bytes[..MOST_BYTES]
    }
}

fn whole_request_head(bytes: &[u8]) -> Result<WholeHead, Scan>
    requires { length bytes.now ≤ 65536 }
    ensures scan { IsRequestScan bytes.now (head_scan result) }
    ensures tells { TellsRequest bytes.now result }
{
    let text = after_front(bytes);
    if line_feeds(text, false) > MOST_LINES {
        return Err(Scan::TooBig);
    }
    if is_in_target(text) {
        return if is_good_target(text) {
            Err(unfinished(bytes))
        } else {
            Err(Scan::Bad)
        };
    }
    let mut headers = [EMPTY_HEADER_SPAN; MOST_FIELDS];
    match parse_request(bytes, &mut headers) {
        Ok(Status::Complete(spans)) => request_answer(bytes, &spans, &headers),
        Ok(Status::Partial) => Err(unfinished(bytes)),
        Err(Error::TooManyHeaders) => Err(Scan::TooBig),
        Err(_) => Err(Scan::Bad),
    }
}

fn whole_reply_head(bytes: &[u8]) -> Result<WholeHead, Scan>
    requires { length bytes.now ≤ 65536 }
    ensures scan { IsReplyScan bytes.now (head_scan result) }
    ensures tells { TellsReply bytes.now result }
{
    let text = after_front(bytes);
    if line_feeds(text, false) > MOST_LINES {
        return Err(Scan::TooBig);
    }
    let mut headers = [EMPTY_HEADER_SPAN; MOST_FIELDS];
    match parse_response(bytes, &mut headers) {
        Ok(Status::Complete(spans)) => reply_answer(bytes, &spans, &headers),
        Ok(Status::Partial) => Err(unfinished(bytes)),
        Err(Error::TooManyHeaders) => Err(Scan::TooBig),
        Err(_) => Err(Scan::Bad),
    }
}

/// Bytes that aren't a head yet.
pub(crate) fn unfinished(bytes: &[u8]) -> Scan
    ensures { result ≡ unfinished bytes.now }
{
    if bytes.len() < MOST_BYTES {
        Scan::More
    } else {
        Scan::TooBig
    }
}

/// What a whole request head comes to.
fn request_answer(
    bytes: &[u8],
    spans: &RequestSpans,
    headers: &[HeaderSpan],
) -> Result<WholeHead, Scan>
    requires within { IsRequestWithin bytes.now headers.now spans.now }
    ensures scan { (h : RequestHead) → IsRequestAt bytes.now headers.now spans.now h
        → head_scan result ≡ request_answer h }
    ensures tells { (h : RequestHead) → IsRequestAt bytes.now headers.now spans.now h
        → AnswersRequest h result }
{
    let framing = framing_of(spans.version, bytes, &headers[..spans.headers]);
    if !is_visible(spans.path.of(bytes)) || framing.is_none() {
        return Err(Scan::Bad);
    }
    match spans.method.of(bytes) {
        b"CONNECT" => Err(Scan::Unsupported(1)),
        b"TRACE" => Err(Scan::Unsupported(2)),
        _ => Ok(WholeHead {
            len: spans.len,
            status: 0,
            body: rule_of(BodyRule::Empty, framing),
        }),
    }
}

/// What a whole reply head comes to.
fn reply_answer(
    bytes: &[u8],
    spans: &ResponseSpans,
    headers: &[HeaderSpan],
) -> Result<WholeHead, Scan>
    requires within { IsResponseWithin bytes.now headers.now spans.now }
    ensures scan { (h : ResponseHead) → IsResponseAt bytes.now headers.now spans.now h
        → head_scan result ≡ reply_answer h }
    ensures tells { (h : ResponseHead) → IsResponseAt bytes.now headers.now spans.now h
        → AnswersReply h result }
{
    let framing = framing_of(spans.version, bytes, &headers[..spans.headers]);
    if framing.is_none() {
        Err(Scan::Bad)
    } else if spans.code == 101 {
        Err(Scan::Unsupported(101))
    } else {
        Ok(WholeHead {
            len: spans.len,
            status: spans.code,
            body: reply_rule(spans.code, framing),
        })
    }
}
