ghost use Rattle.std.specs.Prelude.{◌≡◌, IfOk, [], string_bytes, unwrap_or};
ghost use Rattle.http.specs.StatusCode.{reason_phrase};
ghost use Rattle.serde_json.specs.Written.{compact_text};
ghost use Rattle.rd_operator.specs.Texts.{refusal, reply_text, text_with, status_line, length_line, allow_line};

use crate::json::error_body;
use http::StatusCode;
use rd_base::NoMemory;
use std::alloc::{AllocError, Global};
use std::marker::Model;

/// A reply to the operator.
#[derive(Drop)]
pub(crate) struct Reply {
    pub status: StatusCode,
    pub body: String,
}

impl Model for Reply {
    ghost use Rattle.std.specs.Prelude.{string_bytes};
    ghost use Rattle.rd_operator.specs.Texts.{ReplyView};

    ghost Value = { ReplyView };

    ghost view = { λ r. record { status = r.status; body = string_bytes r.body } };
}

impl Reply {
    /// A refusal of this status.
    pub fn refusal(alloc: Global, status: StatusCode) -> Result<Reply, NoMemory>
        ensures { IfOk result (λ r. r ≡ refusal status) }
    {
        let body = error_body(alloc, status)?;
        Ok(Reply { status, body })
    }

    /// The reply, byte for byte.
    pub fn text(&self, alloc: Global) -> Result<String, NoMemory>
        ensures { IfOk result (λ s. string_bytes s ≡ reply_text self.now) }
    {
        match text_of(alloc, self.status, self.body.as_str()) {
            Ok(text) => Ok(text),
            Err(_) => Err(NoMemory),
        }
    }
}

fn text_of(alloc: Global, status: StatusCode, body: &str) -> Result<String, AllocError>
    ensures { IfOk result (λ s. string_bytes s ≡ text_with status body.now) }
{
    let mut text = status_line(alloc, status)?;
    text.push_str("Content-Type: application/json\r\n")?;
    let size = length_line(alloc, body.len())?;
    text.push_str(size.as_str())?;
    text.push_str(allow_line(status))?;
    text.push_str("Connection: close\r\n\r\n")?;
    text.push_str(body)?;
    Ok(text)
}

fn status_line(alloc: Global, status: StatusCode) -> Result<String, AllocError>
    ensures { IfOk result (λ s. string_bytes s ≡ status_line status) }
{
    let code = status.as_u16();
    let mut text = format!(in alloc; "HTTP/1.1 {code} ")?;
    text.push_str(phrase_of(status))?;
    text.push_str("\r\n")?;
    Ok(text)
}

fn phrase_of(status: StatusCode) -> &'static str
    ensures { result.now ≡ unwrap_or (reason_phrase status) [] }
{
    match status.canonical_reason() {
        Some(phrase) => phrase,
        None => "",
    }
}

fn length_line(alloc: Global, size: usize) -> Result<String, AllocError>
    ensures { IfOk result (λ s. string_bytes s ≡ length_line size) }
{
    format!(in alloc; "Content-Length: {size}\r\n")
}

fn allow_line(status: StatusCode) -> &'static str
    ensures { result.now ≡ allow_line status }
{
    if status.as_u16() == 405 {
        "Allow: GET\r\n"
    } else {
        ""
    }
}
