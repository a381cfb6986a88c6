ghost use Rattle.std.specs.Prelude.{◌≡◌, ◌++◌, IfOk, OnOk};
ghost use Rattle.std.specs.List.{flat_map};
ghost use Rattle.rd_http_frame.specs.Flats.{body_data};
ghost use Rattle.rd_http_tokens.specs.Tokens.{up_to_space, behind_space};
ghost use Rattle.rd_http_tokens.specs.Copied.{asked, asked_of, lines_in, words_in_body, words_in_line, words_in_target};

use crate::copy::{after_front, behind_space, kind_in};
use crate::copy_lines::{behind_line, is_named, line_of, value_of};
use crate::text::{from, place_of};
use rd_base::{Bytes, NoMemory, Part, Words};
use rd_body_tokens::BodyKind;
use rd_http_frame::{BodyRule, data_into};
use rd_http_scan::final_head;
use rd_token_map::{push_form_words, push_words};
use std::alloc::Global;

/// The words of a whole request that are looked up, in order of place.
pub(crate) fn asked(alloc: Global, unit: &[u8]) -> Result<Words, NoMemory>
    ensures { IfOk result (λ w. w ≡ asked unit.now) }
{
    let mut words = Words::new(alloc);
    if let Ok(head) = final_head(Part::Request, unit) {
        let body = from(unit, head.to);
        push_asked(&mut words, alloc, &unit[..head.to], head.body, body)?;
    }
    Ok(words)
}

/// Appends the words of a head, and of what stands behind it.
fn push_asked(
    words: &mut Words,
    alloc: Global,
    head: &[u8],
    rule: BodyRule,
    body: &[u8],
) -> Result<(), NoMemory>
    ensures { OnOk result (words.new ≡ words.old ++ asked_of head.now rule body.now) }
{
    let text = after_front(head);
    push_target_words(words, alloc, target_of(line_of(text)))?;
    push_line_words(words, behind_line(text))?;
    push_body_words(words, alloc, kind_in(head), rule, body)
}

/// The target of a start line.
fn target_of(line: &[u8]) -> &[u8]
    ensures { result.now ≡ up_to_space (behind_space line.now) }
{
    let behind = behind_space(line);
    &behind[..place_of(behind, b' ')]
}

fn push_target_words(words: &mut Words, alloc: Global, target: &[u8]) -> Result<(), NoMemory>
    ensures { OnOk result (words.new ≡ words.old ++ words_in_target target.now) }
{
    let end = place_of(target, b'?');
    push_words(words, &target[..end])?;
    push_form_words(words, alloc, &target[target.len().min(end + 1)..])
}

/// Appends the words of the lines behind a start line.
fn push_line_words(words: &mut Words, text: &[u8]) -> Result<(), NoMemory>
    ensures { OnOk result (words.new ≡ words.old ++ flat_map words_in_line (lines_in text.now)) }
{
    let mut rest = text;
    loop {
        let len = place_of(rest, b'\n');
        push_words_of_line(words, &rest[..len])?;
        if len == rest.len() {
            return Ok(());
        }
        rest = from(rest, len + 1);
    }
}

fn push_words_of_line(words: &mut Words, line: &[u8]) -> Result<(), NoMemory>
    ensures { OnOk result (words.new ≡ words.old ++ words_in_line line.now) }
{
    if is_named(b"upgrade", line)
        || is_named(b"accept-encoding", line)
        || is_named(b"content-length", line)
    {
        return Ok(());
    }
    push_words(words, value_of(line))
}

/// Appends the words of a body. A Raw body is not copied for it.
fn push_body_words(
    words: &mut Words,
    alloc: Global,
    kind: BodyKind,
    rule: BodyRule,
    body: &[u8],
) -> Result<(), NoMemory>
    ensures { OnOk result
        (words.new ≡ words.old ++ words_in_body kind (body_data rule body.now)) }
{
    if kind == BodyKind::Raw {
        return Ok(());
    }
    let mut data = Bytes::new(alloc);
    data_into(rule, body, &mut data)?;
    push_words_by_kind(words, alloc, kind, data.as_slice())
}

fn push_words_by_kind(
    words: &mut Words,
    alloc: Global,
    kind: BodyKind,
    body: &[u8],
) -> Result<(), NoMemory>
    ensures { OnOk result (words.new ≡ words.old ++ words_in_body kind body.now) }
{
    match kind {
        BodyKind::Words | BodyKind::Json => push_words(words, body),
        BodyKind::Form => push_form_words(words, alloc, body),
        BodyKind::Raw => Ok(()),
    }
}
