ghost use Rattle.std.specs.Prelude.{◌≡◌, ◌≤◌, ◌<◌, ℕ, length, slice_index_or, IfSome, None};
ghost use Rattle.rd_base.specs.declared.values.Scan.TheVariants.{Whole};
ghost use Rattle.httparse.specs.Grammar.{RequestHead, ResponseHead};
ghost use Rattle.httparse.specs.Spans.{IsRequestAt, IsRequestOf, IsRequestWithin, IsResponseAt, IsResponseOf, IsResponseWithin};
ghost use Rattle.rd_http_frame.specs.Heads.{IsHeadScan};
ghost use Rattle.rd_http_frame.specs.Places.{HeadPlaces, IsHead, request_places, reply_places, IsRequestRead, IsReplyRead};

use crate::body::{BodyRule, reply_rule, rule_of};
use crate::fields::framing_of;
use crate::lines::front_len;
use crate::place::{FieldSpan, Span, field_spans, first_at};
use crate::scan::{MOST_FIELDS, scan_head, seen};
use arrayvec::ArrayVec;
use httparse::Status;
use httparse::spans::{
    EMPTY_HEADER_SPAN, HeaderSpan, RequestSpans, ResponseSpans, parse_request, parse_response,
};
use rd_base::{Part, Scan};
use std::marker::Model;

/// Where the parts of a head stand. It is of a fixed size, with room for 100 fields.
#[derive(Drop)]
pub struct Head {
    method: Span,
    target: Span,
    status: u16,
    fields: ArrayVec<FieldSpan, 100>,
    body: BodyRule,
}

impl Model for Head {
    ghost Value = { HeadPlaces };

    ghost view = { λ h. record { method = h.method; target = h.target; status = h.status; spans = h.fields.items; body = h.body } };
}

impl Head {
    /// The head that these bytes begin with. None exactly where `scan_head` isn't `Whole`.
    pub fn read(part: Part, bytes: &[u8]) -> Option<Head>
        ensures is { IfSome result (λ head. IsHead part bytes.now head) }
        ensures whole { IfSome result
            (λ head. (len : ℕ) × IsHeadScan part bytes.now (Whole len)) }
        ensures none { result ≡ None → (len : ℕ) → IsHeadScan part bytes.now (Whole len)
            → ⊥ }
    {
        let Scan::Whole(_) = scan_head(part, bytes) else {
            return None;
        };
        match part {
            Part::Request => read_request(seen(bytes)),
            Part::Reply => read_reply(seen(bytes)),
        }
    }

    /// Where the method stands. It is empty in a reply.
    pub fn method(&self) -> Span
        ensures { result ≡ self.now.method }
    {
        self.method
    }

    /// Where the target stands. It is empty in a reply.
    pub fn target(&self) -> Span
        ensures { result ≡ self.now.target }
    {
        self.target
    }

    /// The status of a reply, 0 to 999, and 0 in a request.
    pub fn status(&self) -> u16
        ensures { result ≡ self.now.status }
    {
        self.status
    }

    /// The number of fields, at most 100.
    pub fn field_count(&self) -> usize
        ensures { result ≡ length self.now.spans }
    {
        self.fields.len()
    }

    /// Where the name and the value of this field stand. Fields are in the order of their lines.
    pub fn field_at(&self, place: usize) -> FieldSpan
        requires { place < length self.now.spans }
        ensures { result ≡ slice_index_or self.now.spans place result }
    {
        self.fields.as_slice()[place]
    }

    pub(crate) fn body(&self) -> BodyRule
        ensures { result ≡ self.now.body }
    {
        self.body
    }
}

/// The head of a request, where there is one.
fn read_request(bytes: &[u8]) -> Option<Head>
    requires { length bytes.now ≤ 65536 }
    ensures { IsRequestRead bytes.now result }
{
    let mut headers = [EMPTY_HEADER_SPAN; MOST_FIELDS];
    match parse_request(bytes, &mut headers) {
        Ok(Status::Complete(spans)) => Some(request_places(bytes, &spans, &headers)),
        _ => None,
    }
}

/// The head of a reply, where there is one.
fn read_reply(bytes: &[u8]) -> Option<Head>
    requires { length bytes.now ≤ 65536 }
    ensures { IsReplyRead bytes.now result }
{
    let mut headers = [EMPTY_HEADER_SPAN; MOST_FIELDS];
    match parse_response(bytes, &mut headers) {
        Ok(Status::Complete(spans)) => Some(reply_places(bytes, &spans, &headers)),
        _ => None,
    }
}

fn request_places(bytes: &[u8], spans: &RequestSpans, headers: &[HeaderSpan]) -> Head
    requires small { length bytes.now ≤ 65536 }
    requires few { length headers.now ≤ 100 }
    requires within { IsRequestWithin bytes.now headers.now spans.now }
    requires head { IsRequestOf bytes.now headers.now spans.now }
    ensures { (h : RequestHead) → IsRequestAt bytes.now headers.now spans.now h
        → result ≡ request_places h }
{
    let fields = &headers[..spans.headers];
    let method = front_len(bytes);
    let method_end = method + (spans.method.end - spans.method.start);
    let target_end = method_end + 1 + (spans.path.end - spans.path.start);
    let first = first_at(bytes, method, b'\n') + 1;
    Head {
        method: Span {
            start: method as u32,
            end: method_end as u32,
        },
        target: Span {
            start: (method_end + 1) as u32,
            end: target_end as u32,
        },
        status: 0,
        fields: field_spans(bytes, first, fields),
        body: rule_of(BodyRule::Empty, framing_of(spans.version, bytes, fields)),
    }
}

fn reply_places(bytes: &[u8], spans: &ResponseSpans, headers: &[HeaderSpan]) -> Head
    requires small { length bytes.now ≤ 65536 }
    requires few { length headers.now ≤ 100 }
    requires within { IsResponseWithin bytes.now headers.now spans.now }
    requires head { IsResponseOf bytes.now headers.now spans.now }
    ensures { (h : ResponseHead) → IsResponseAt bytes.now headers.now spans.now h
        → result ≡ reply_places h }
{
    let fields = &headers[..spans.headers];
    let first = first_at(bytes, front_len(bytes), b'\n') + 1;
    let none = Span { start: 0, end: 0 };
    Head {
        method: none,
        target: none,
        status: spans.code,
        fields: field_spans(bytes, first, fields),
        body: reply_rule(spans.code, framing_of(spans.version, bytes, fields)),
    }
}
