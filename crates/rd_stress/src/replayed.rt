ghost use Rattle.std.specs.Prelude.{◌≡◌, ◌≤◌};

use crate::plan::Plan;
use crate::source::LateSource;
use rd_base::{Ending, Link, MemSink, NoMemory, Row, Side};
use rd_dialect::Line;
use rd_run::{Act, Run};
use rd_script::{read_number, read_script};
use rd_session_run::run_script;
use rd_wire::WireSink;
use std::alloc::{AllocError, Global};
use std::sync::Wait;

/// The script that a run's log stands for.
pub fn script_text<R: Wait + Copy>(
    alloc: Global,
    plan: &Plan,
    run: &Run<LateSource<R>, R>,
) -> Result<String, AllocError> {
    let mut text = match plan.side {
        Side::Incoming => "side incoming\n".to_string(alloc)?,
        Side::Outgoing => "side outgoing\n".to_string(alloc)?,
    };
    let mut taken = [0usize; 9];
    let mut told: usize = 0;
    for place in 0..run.report.log.len() {
        let entry = run.report.log.at(place);
        for _ in 0..entry.told {
            if told < run.report.told.len() {
                push_row(alloc, &mut text, run.report.told.at(told))?;
                told += 1;
            }
        }
        let what = match entry.act {
            Act::Took(link) => next_said(alloc, run.sources.as_slice(), &mut taken, link)?,
            Act::Timer => "timer\n".to_string(alloc)?,
            Act::Stop => "stop\n".to_string(alloc)?,
            Act::WriteFail(link) => format!(in alloc; "writefail {}\n", link.0)?,
        };
        let stamp = format!(in alloc; "{} ", entry.at)?;
        text.push_str(stamp.as_str())?;
        text.push_str(what.as_str())?;
    }
    Ok(text)
}

fn push_row(alloc: Global, text: &mut String, row: &Row) -> Result<(), AllocError> {
    text.push_str("told")?;
    for copy in 0..row.len() {
        let hex = hex::encode(alloc, row.own(copy))?;
        text.push_str(" ")?;
        text.push_str(hex.as_str())?;
    }
    text.push_str("\n")
}

/// The next answer of this link's source.
fn next_said<R: Wait + Copy>(
    alloc: Global,
    sources: &[LateSource<R>],
    taken: &mut [usize; 9],
    link: Link,
) -> Result<String, AllocError> {
    let place = usize::from(link.0);
    if place >= 9 || place >= sources.len() {
        return "no such link\n".to_string(alloc);
    }
    let next = taken[place];
    taken[place] = next.saturating_add(1);
    match sources[place].said().get(next) {
        Some(said) => said.as_str().to_string(alloc),
        None => "no such answer\n".to_string(alloc),
    }
}

/// Whether the script comes to the run's ending, and to what its sinks hold.
pub fn is_replayed<R: Wait + Copy>(
    alloc: Global,
    plan: &Plan,
    run: &Run<LateSource<R>, R>,
    sinks: &[WireSink<R>],
    script: &[u8],
) -> Result<bool, NoMemory>
    requires { (3 ≤ plan.now.copies) × (plan.now.copies ≤ 8) }
{
    let Ok(script) = read_script(alloc, plan.copies, script) else {
        return Ok(false);
    };
    let mut out = MemSink::new(alloc, 0, 0, Vec::new(alloc));
    let side = script.side();
    match run_script(alloc, side, Line, plan.limits(), &script, &mut out) {
        Ok(ending) => Ok(
            ending == Some(run.report.ending)
                && are_sent(alloc, sinks, out.as_slice(), failed_at(run))?,
        ),
        Err(_) => Err(NoMemory),
    }
}

/// The number of the step whose write failed, counted from 1, and the link that it failed to.
fn failed_at<R: Wait + Copy>(run: &Run<LateSource<R>, R>) -> Option<(u64, Link)> {
    let log = &run.report.log;
    let entries = log.len();
    if entries < 2 {
        return None;
    }
    match log.at(entries - 1).act {
        Act::WriteFail(link) => Some((entries as u64 - 1, link)),
        _ => None,
    }
}

/// Whether a transcript sends each link what its sink holds: where a write failed, this link holds a front of what the step
/// sends it, and those behind it nothing of that step.
fn are_sent<R: Wait + Copy>(
    alloc: Global,
    sinks: &[WireSink<R>],
    transcript: &[u8],
    failed: Option<(u64, Link)>,
) -> Result<bool, NoMemory> {
    let mut sent = [0usize; 9];
    for line in transcript.split(|byte| *byte == b'\n') {
        let Some((step, link, bytes)) = send_of(alloc, line)? else {
            continue;
        };
        let place = usize::from(link.0);
        if place >= 9 || place >= sinks.len() {
            return Ok(false);
        }
        let held = sinks[place].as_slice();
        let Some(rest) = held.get(sent[place]..) else {
            return Ok(false);
        };
        if failed == Some((step, link)) {
            sent[place] = held.len();
            return Ok(bytes.as_slice().starts_with(rest) && are_all(sinks, &sent));
        }
        if !rest.starts_with(bytes.as_slice()) {
            return Ok(false);
        }
        sent[place] = sent[place].saturating_add(bytes.len());
    }
    Ok(failed.is_none() && are_all(sinks, &sent))
}

/// Whether the sinks hold so many bytes, and no more.
fn are_all<R: Wait + Copy>(sinks: &[WireSink<R>], sent: &[usize; 9]) -> bool {
    for (place, sink) in sinks.iter().enumerate() {
        if sent.get(place) != Some(&sink.as_slice().len()) {
            return false;
        }
    }
    true
}

/// A transcript's line: a step, a link and what it is sent.
fn send_of(alloc: Global, line: &[u8]) -> Result<Option<(u64, Link, Vec<u8>)>, NoMemory> {
    let mut words = line.split(|byte| *byte == b' ');
    let (Some(step), Some(_to), Some(link), Some(hex)) = (
        words.next(),
        words.next(),
        words.next(),
        words.next(),
    ) else {
        return Ok(None);
    };
    let (Some(step), Some(link)) = (read_number(step), read_number(link)) else {
        return Ok(None);
    };
    match (u8::try_from(link), hex::decode(alloc, hex)) {
        (Ok(link), Ok(bytes)) => Ok(Some((step, Link(link), bytes))),
        _ => Err(NoMemory),
    }
}
