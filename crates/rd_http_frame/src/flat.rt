ghost use Rattle.std.specs.Prelude.{◌≡◌, ◌≤◌, ◌+◌, ◌*◌, ◌++◌, ℕ, List, length, Bool, false, OnOk, OnErr, take};
ghost use Rattle.rd_base.specs.Outside.{IsPrefixOf};
ghost use Rattle.rd_http_frame.specs.Chunks.{chunk_data, trailer_from};
ghost use Rattle.rd_http_frame.specs.FlatLaws.{AreFlatForms};
ghost use Rattle.rd_http_frame.specs.Flats.{body_data, trailer_of, behind_last, with_length, flat_body, answers_head, flat_behind, IsFlat};
ghost use Rattle.std.specs.Prelude.{Ok};

use crate::body::BodyRule;
use crate::chunk::{data_line, trailer_from};
use crate::lines::{behind_front, front};
use crate::scan::seen;
use crate::unit::{FinalHead, final_head, rule_in};
use rd_base::{Bytes, NoMemory, Part};

/// Appends the flat form of a whole request or reply (`whole`), or of a part of one: the final head, the body
/// without the framing of chunks, and at a whole one's end the trailer and its length in four bytes, the high
/// one first. `head_request` says that a reply answers a HEAD, so that it has no body; for a request it isn't
/// looked at. On refusal `out` is as before.
pub fn flat_into(
    part: Part,
    head_request: bool,
    bytes: &[u8],
    whole: bool,
    out: &mut Bytes,
) -> Result<(), NoMemory>
    ensures ok { OnOk result
        ((flat : List ℕ) × IsFlat part head_request bytes.now whole flat
        × (out.new ≡ out.old ++ flat)) }
    ensures err { OnErr result (out.new ≡ out.old) }

    // Bytes have one flat form; a part's begins the whole's; it has at most three times the bytes and four more.
    ensures laws { AreFlatForms part head_request }
{
    let Ok(head) = final_head(part, bytes) else {
        return Ok(());
    };
    let before = out.len();
    let pushed = push_flat(answers_head(part, head_request), head, bytes, whole, out);
    if pushed.is_err() {
        out.truncate(before);
    }
    pushed
}

/// Whether these are the bytes of a reply to HEAD.
fn answers_head(part: Part, head_request: bool) -> bool
    ensures { result ≡ answers_head part head_request }
{
    match part {
        Part::Request => false,
        Part::Reply => head_request,
    }
}

/// Appends the flat form with this final head. On refusal a part of it may stand.
fn push_flat(
    head_request: bool,
    head: FinalHead,
    bytes: &[u8],
    whole: bool,
    out: &mut Bytes,
) -> Result<(), NoMemory>
    requires ordered { head.from ≤ head.to }
    requires within { head.to ≤ length bytes.now }
    ensures ok { OnOk result
        (out.new ≡ out.old ++ flat_behind head_request bytes.now whole (Ok head)) }
    ensures err { OnErr result (IsPrefixOf out.old out.new) }
{
    let rule = rule_in(head_request, head.body);
    out.push_slice(&bytes[head.from..head.to])?;
    push_body(rule, &bytes[head.to..], whole, out)
}

/// Appends the body, and a whole one's trailer with its length.
fn push_body(rule: BodyRule, bytes: &[u8], whole: bool, out: &mut Bytes) -> Result<(), NoMemory>
    ensures ok { OnOk result (out.new ≡ out.old ++ flat_body rule bytes.now whole) }
    ensures err { OnErr result (IsPrefixOf out.old out.new) }
{
    data_into(rule, bytes, out)?;
    if whole {
        push_with_length(trailer_of(rule, bytes), out)
    } else {
        Ok(())
    }
}

/// Appends the bytes of the body. On refusal a part of them may stand.
pub fn data_into(rule: BodyRule, bytes: &[u8], out: &mut Bytes) -> Result<(), NoMemory>
    ensures ok { OnOk result (out.new ≡ out.old ++ body_data rule bytes.now) }
    ensures err { OnErr result (IsPrefixOf out.old out.new) }
{
    match rule {
        BodyRule::Empty => Ok(()),
        BodyRule::Length(size) => out.push_slice(front(bytes, size as usize)),
        BodyRule::Chunked => push_chunks(bytes, out),
        BodyRule::UntilEnd => out.push_slice(bytes),
    }
}

/// Appends the bytes in the chunks.
fn push_chunks(bytes: &[u8], out: &mut Bytes) -> Result<(), NoMemory>
    ensures ok { OnOk result (out.new ≡ out.old ++ chunk_data bytes.now) }
    ensures err { OnErr result (IsPrefixOf out.old out.new) }
{
    let mut rest = bytes;
    while let Some(line) = data_line(rest) {
        let data = behind_front(rest, line.len);
        out.push_slice(front(data, line.size))?;
        rest = behind_front(data, line.size + 2);
    }
    Ok(())
}

/// The trailer, where the body has one.
pub fn trailer_of(rule: BodyRule, bytes: &[u8]) -> &[u8]
    ensures is { result.now ≡ trailer_of rule bytes.now }
    ensures few { length result.now ≤ 65536 }
{
    match rule {
        BodyRule::Chunked => behind_last(bytes),
        _ => &[],
    }
}

/// What follows the last size line, of which a trailer has at most 65,536 bytes.
fn behind_last(bytes: &[u8]) -> &[u8]
    ensures is { result.now ≡ behind_last bytes.now (trailer_from bytes.now) }
    ensures few { length result.now ≤ 65536 }
{
    match trailer_from(bytes) {
        Ok(at) => seen(&bytes[at..]),
        Err(_) => &[],
    }
}

/// Appends these bytes, and their length in four.
fn push_with_length(trailer: &[u8], out: &mut Bytes) -> Result<(), NoMemory>
    requires { length trailer.now ≤ 65536 }
    ensures ok { OnOk result (out.new ≡ out.old ++ with_length trailer.now) }
    ensures err { OnErr result (IsPrefixOf out.old out.new) }
{
    out.push_slice(trailer)?;
    out.push_slice(&(trailer.len() as u32).to_be_bytes())
}
