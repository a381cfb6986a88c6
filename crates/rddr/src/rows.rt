//! Rows of sessions as text, each run whole and in one-byte pieces.
//!
//! A row stands in lines. `row NAME` begins one. `version NUMBER`, `set LINE` and `outgoing` say under which settings
//! and on which side it runs: the dialect is the same on both, and the side is incoming where nothing is said.
//! `LINKS BYTES` is a piece of each of these links in turn, `end LINK` is a link's end, `> LINKS BYTES` is what the last
//! happening sends to each of these links, and `ask BYTES` is a client's request that goes to three copies as it came.
//! `= STATUS LINE` is the status and the last line, and runs the row. BYTES stand as they are, but for `\r`, `\n`, `\0`,
//! `\\` and `\xHH`.
use crate::settings_tests::answer_under;
use crate::tests::Answer;
use rd_base::{Bytes, NoMemory};
use std::alloc::{AllocError, Global};
use std::test::Fail;

/// A row as far as it is read.
#[derive(Drop)]
struct Row {
    settings: String,
    side: String,
    /// The happenings, with whole pieces and with pieces of one byte.
    whole: String,
    bytewise: String,
    /// How many happenings there are with whole pieces.
    steps: u32,
    /// What is sent, as lines of a transcript.
    sent: String,
}

impl Row {
    fn new(alloc: Global, dialect: &str) -> Result<Row, AllocError> {
        let settings = format!(in alloc; "incoming = \"{dialect}\"\noutgoing = \"{dialect}\"\n")?;
        Ok(Row {
            settings,
            side: "incoming".to_string(alloc)?,
            whole: String::new(alloc),
            bytewise: String::new(alloc),
            steps: 0,
            sent: String::new(alloc),
        })
    }

    /// A line of the row, but for the first and the last.
    fn line(&mut self, alloc: Global, word: &str, rest: &str) -> Result<(), Fail> {
        match word {
            "version" => {
                let settings = self.settings.as_str();
                self.settings = format!(in alloc; "version = {rest}\n{settings}")?;
            }
            "set" => {
                self.settings.push_str(rest)?;
                self.settings.push_str("\n")?;
            }
            "outgoing" => self.side = word.to_string(alloc)?,
            "end" => self.ends(alloc, rest)?,
            ">" => {
                let (links, bytes) = rest.split_once(' ').unwrap_or((rest, ""));
                self.sends(alloc, links, bytes_of(alloc, bytes)?.as_slice())?;
            }
            "ask" => {
                let bytes = bytes_of(alloc, rest)?;
                self.pieces(alloc, "3", bytes.as_slice())?;
                self.sends(alloc, "012", bytes.as_slice())?;
            }
            links => self.pieces(alloc, links, bytes_of(alloc, rest)?.as_slice())?,
        }
        Ok(())
    }

    /// A happening of these words.
    fn hears(&mut self, what: &str) -> Result<(), AllocError> {
        self.whole.push_str("0 ")?;
        self.whole.push_str(what)?;
        self.whole.push_str("\n")?;
        self.steps = self.steps.saturating_add(1);
        Ok(())
    }

    /// A piece of each of these links.
    fn pieces(&mut self, alloc: Global, links: &str, bytes: &[u8]) -> Result<(), AllocError> {
        for link in links.chars() {
            let hex = hex::encode(alloc, bytes)?;
            self.hears(format!(in alloc; "piece {link} {hex}")?.as_str())?;
            for byte in bytes {
                let hex = hex::encode(alloc, &[*byte])?;
                let line = format!(in alloc; "0 piece {link} {hex}\n")?;
                self.bytewise.push_str(line.as_str())?;
            }
        }
        Ok(())
    }

    /// The end of this link.
    fn ends(&mut self, alloc: Global, link: &str) -> Result<(), AllocError> {
        self.hears(format!(in alloc; "end {link}")?.as_str())?;
        let line = format!(in alloc; "0 end {link}\n")?;
        self.bytewise.push_str(line.as_str())
    }

    /// What the last happening sends to each of these links.
    fn sends(&mut self, alloc: Global, links: &str, bytes: &[u8]) -> Result<(), AllocError> {
        let hex = hex::encode(alloc, bytes)?;
        let step = self.steps;
        for link in links.chars() {
            let line = format!(in alloc; "{step} to {link} {hex}\n")?;
            self.sent.push_str(line.as_str())?;
        }
        Ok(())
    }

    /// What comes of these happenings.
    fn answer(&self, alloc: Global, happenings: &str) -> Result<Answer, Fail> {
        let side = self.side.as_str();
        let script = format!(in alloc; "side {side}\n{happenings}")?;
        let settings = self.settings.as_str();
        answer_under(alloc, &["replay", "c", "s"], settings, script.as_str())
    }
}

/// The hexadecimal digits of all that a transcript sends to a link.
fn sent_to(alloc: Global, transcript: &str, link: char) -> Result<String, AllocError> {
    let mut all = String::new(alloc);
    for line in transcript.lines() {
        if let Some((_, send)) = line.split_once(" to ") {
            if let Some(hex) = send.strip_prefix(link) {
                all.push_str(hex.trim())?;
            }
        }
    }
    Ok(all)
}

/// What a row comes to that it shouldn't, whole or in one-byte pieces, if anything. These send the same to each link,
/// and end the session alike.
fn fault(alloc: Global, row: &Row, status: &str, last: &str) -> Result<Option<Answer>, Fail> {
    let sent = row.sent.as_str();
    let want = format!(in alloc; "{sent}{last}\n")?;
    let whole = row.answer(alloc, row.whole.as_str())?;
    if whole.text.as_str() != want.as_str() || whole.status.to_string(alloc)?.as_str() != status {
        return Ok(Some(whole));
    }
    let bytewise = row.answer(alloc, row.bytewise.as_str())?;
    for link in "0123".chars() {
        let want = sent_to(alloc, sent, link)?;
        let seen = sent_to(alloc, bytewise.text.as_str(), link)?;
        if seen.as_str() != want.as_str() {
            return Ok(Some(bytewise));
        }
    }
    if bytewise.text.lines().last() != Some(last) || bytewise.status != whole.status {
        return Ok(Some(bytewise));
    }
    Ok(None)
}

/// Runs a row, which stands from its name on.
fn run_row(alloc: Global, dialect: &str, text: &str) -> Result<Option<Answer>, Fail> {
    let mut row = Row::new(alloc, dialect)?;
    for line in text.lines().skip(1) {
        let (word, rest) = line.split_once(' ').unwrap_or((line, ""));
        if word == "=" {
            let (status, last) = rest.split_once(' ').unwrap_or((rest, ""));
            return fault(alloc, &row, status, last);
        }
        row.line(alloc, word, rest)?;
    }
    Ok(None)
}

/// Runs each row of a text, over a dialect: those that come to something else, each with what that is.
pub fn run_rows(alloc: Global, dialect: &str, text: &str) -> Result<String, Fail> {
    let mut faults = String::new(alloc);
    for row in text.split("\nrow ") {
        if let Some(answer) = run_row(alloc, dialect, row)? {
            faults.push_str(row)?;
            faults.push_str(answer.text.as_str())?;
        }
    }
    Ok(faults)
}

/// The bytes that a row's text writes.
fn bytes_of(alloc: Global, text: &str) -> Result<Bytes, NoMemory> {
    let mut bytes = Bytes::new(alloc);
    let mut is_plain = true;
    for part in text.split('\\') {
        let part = part.as_bytes();
        if is_plain {
            bytes.push_slice(part)?;
            is_plain = false;
        } else if part.is_empty() {
            bytes.push_slice(b"\\")?;
            is_plain = true;
        } else {
            let (byte, rest) = escape(part);
            bytes.push_slice(&[byte])?;
            bytes.push_slice(rest)?;
        }
    }
    Ok(bytes)
}

/// The byte of an escape, and what follows it.
fn escape(part: &[u8]) -> (u8, &[u8]) {
    match part {
        [b'r', rest @ ..] => (b'\r', rest),
        [b'n', rest @ ..] => (b'\n', rest),
        [b'x', high, low, rest @ ..] => ((digit(*high) << 4) | digit(*low), rest),
        [_, rest @ ..] => (0, rest),
        [] => (0, part),
    }
}

/// The value of a hexadecimal digit.
fn digit(byte: u8) -> u8 {
    match byte {
        b'0'..=b'9' => byte - b'0',
        b'a'..=b'f' => byte - b'a' + 10,
        _ => 0,
    }
}
