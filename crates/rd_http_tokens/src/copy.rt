ghost use Rattle.std.specs.Prelude.{◌≡◌, ◌+◌, ◌++◌, take, IfOk, OnOk};
ghost use Rattle.rd_http_frame.specs.Flats.{body_data};
ghost use Rattle.rd_http_frame.specs.Fronts.{after_front};
ghost use Rattle.rd_http_tokens.specs.Copied.{changed_body, copied, copied_head, copied_of, copied_start, copied_target, framed, kind_in, one_chunk, space_len, swapped_body};
ghost use Rattle.rd_http_tokens.specs.Tokens.{behind_space};

use crate::copy_lines::{behind_line, line_of, push_lines, said_in};
use crate::fields::body_kind;
use crate::http::front_len;
use crate::text::{from, place_of};
use rd_base::{Bytes, NoMemory, Part, Rows};
use rd_body_tokens::BodyKind;
use rd_http_frame::{BodyRule, data_into, trailer_of};
use rd_http_scan::final_head;
use rd_token_map::{swap_form, swap_words};
use std::alloc::Global;

/// A whole request as a copy gets it.
pub(crate) fn copied(
    alloc: Global,
    copy: u8,
    own: &Rows,
    told: &Rows,
    unit: &[u8],
) -> Result<Bytes, NoMemory>
    ensures { IfOk result (λ b. b ≡ copied copy (own.now ++ told.now) unit.now) }
{
    match final_head(Part::Request, unit) {
        Ok(head) => {
            let body = from(unit, head.to);
            copied_of(alloc, copy, own, told, &unit[..head.to], head.body, body)
        }
        Err(_) => Bytes::from_slice(alloc, unit),
    }
}

/// A head, and what stands behind it. The new body is made first, since its length stands in the head.
fn copied_of(
    alloc: Global,
    copy: u8,
    own: &Rows,
    told: &Rows,
    head: &[u8],
    rule: BodyRule,
    body: &[u8],
) -> Result<Bytes, NoMemory>
    ensures { IfOk result
        (λ b. b ≡ copied_of copy (own.now ++ told.now) head.now rule body.now) }
{
    let mut out = Bytes::new(alloc);
    match changed_body(alloc, copy, own, told, kind_in(head), rule, body)? {
        None => {
            push_head(&mut out, alloc, copy, own, told, None, head)?;
            out.push_slice(body)?;
        }
        Some(content) => {
            push_head(&mut out, alloc, copy, own, told, Some(content.len()), head)?;
            push_framed(&mut out, alloc, rule, body, content.as_slice())?;
        }
    }
    Ok(out)
}

// ---- the body

/// The kind of the body, by the head as it came.
pub(crate) fn kind_in(head: &[u8]) -> BodyKind
    ensures { result ≡ kind_in head.now }
{
    body_kind(said_in(behind_line(after_front(head))))
}

/// The new content of a body, and `None` where it is the same. A Raw body is not copied for it.
fn changed_body(
    alloc: Global,
    copy: u8,
    own: &Rows,
    told: &Rows,
    kind: BodyKind,
    rule: BodyRule,
    body: &[u8],
) -> Result<Option<Bytes>, NoMemory>
    ensures { IfOk result
        (λ c. c ≡ changed_body kind copy (own.now ++ told.now) (body_data rule body.now)) }
{
    if kind == BodyKind::Raw {
        return Ok(None);
    }
    let mut data = Bytes::new(alloc);
    data_into(rule, body, &mut data)?;
    let content = swapped_body(alloc, copy, own, told, kind, data.as_slice())?;
    if content.as_slice() == data.as_slice() {
        Ok(None)
    } else {
        Ok(Some(content))
    }
}

fn swapped_body(
    alloc: Global,
    copy: u8,
    own: &Rows,
    told: &Rows,
    kind: BodyKind,
    body: &[u8],
) -> Result<Bytes, NoMemory>
    ensures { IfOk result (λ b. b ≡ swapped_body kind copy (own.now ++ told.now) body.now) }
{
    match kind {
        BodyKind::Words | BodyKind::Json => swap_words(alloc, copy, own, told, body),
        BodyKind::Form => swap_form(alloc, copy, own, told, body),
        BodyKind::Raw => Bytes::from_slice(alloc, body),
    }
}

/// Appends new content as the head says that the body is framed, and the trailer as it came.
fn push_framed(
    out: &mut Bytes,
    alloc: Global,
    rule: BodyRule,
    body: &[u8],
    content: &[u8],
) -> Result<(), NoMemory>
    ensures { OnOk result (out.new ≡ out.old ++ framed rule body.now content.now) }
{
    match rule {
        BodyRule::Chunked => {
            push_chunk(out, alloc, content)?;
            out.push_slice(b"0\r\n")?;
            out.push_slice(trailer_of(rule, body))
        }
        BodyRule::Empty | BodyRule::Length(_) | BodyRule::UntilEnd => out.push_slice(content),
    }
}

/// Appends the content as one chunk, where there is a byte.
fn push_chunk(out: &mut Bytes, alloc: Global, content: &[u8]) -> Result<(), NoMemory>
    ensures { OnOk result (out.new ≡ out.old ++ one_chunk content.now) }
{
    if content.is_empty() {
        return Ok(());
    }
    let size = content.len();
    match format!(in alloc; "{size:x}\r\n") {
        Ok(line) => out.push_slice(line.as_bytes())?,
        Err(_) => return Err(NoMemory),
    }
    out.push_slice(content)?;
    out.push_slice(b"\r\n")
}

// ---- the head

/// Appends the head. `size` is the length of a body that has changed.
fn push_head(
    out: &mut Bytes,
    alloc: Global,
    copy: u8,
    own: &Rows,
    told: &Rows,
    size: Option<usize>,
    head: &[u8],
) -> Result<(), NoMemory>
    ensures { OnOk result
        (out.new ≡ out.old ++ copied_head copy (own.now ++ told.now) size head.now) }
{
    let text = after_front(head);
    out.push_slice(&head[..front_len(head)])?;
    push_start(out, alloc, copy, own, told, line_of(text))?;
    push_lines(out, alloc, copy, own, told, size, behind_line(text))
}

/// A head without the bytes CR and LF at its front.
pub(crate) fn after_front(head: &[u8]) -> &[u8]
    ensures { result.now ≡ after_front head.now }
{
    from(head, front_len(head))
}

/// Appends the start line: a method, a space, a target, and the rest.
fn push_start(
    out: &mut Bytes,
    alloc: Global,
    copy: u8,
    own: &Rows,
    told: &Rows,
    line: &[u8],
) -> Result<(), NoMemory>
    ensures { OnOk result
        (out.new ≡ out.old ++ copied_start copy (own.now ++ told.now) line.now) }
{
    let behind = behind_space(line);
    let end = place_of(behind, b' ');
    out.push_slice(up_to_target(line))?;
    push_target(out, alloc, copy, own, told, &behind[..end])?;
    out.push_slice(from(behind, end))?;
    Ok(())
}

/// A start line's method and the space behind it.
fn up_to_target(line: &[u8]) -> &[u8]
    ensures { result.now ≡ take (space_len line.now + 1) line.now }
{
    &line[..line.len().min(place_of(line, b' ') + 1)]
}

/// What stands behind the first space.
pub(crate) fn behind_space(line: &[u8]) -> &[u8]
    ensures { result.now ≡ behind_space line.now }
{
    &line[line.len().min(place_of(line, b' ') + 1)..]
}

fn push_target(
    out: &mut Bytes,
    alloc: Global,
    copy: u8,
    own: &Rows,
    told: &Rows,
    target: &[u8],
) -> Result<(), NoMemory>
    ensures { OnOk result
        (out.new ≡ out.old ++ copied_target copy (own.now ++ told.now) target.now) }
{
    let end = place_of(target, b'?');
    let path = swap_words(alloc, copy, own, told, &target[..end])?;
    out.push_slice(path.as_slice())?;
    if end == target.len() {
        return Ok(());
    }
    let query = swap_form(alloc, copy, own, told, from(target, end + 1))?;
    out.push_slice(b"?")?;
    out.push_slice(query.as_slice())
}
