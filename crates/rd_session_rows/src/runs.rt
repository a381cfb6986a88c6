ghost use Rattle.std.specs.Prelude.{◌≤◌};
ghost use Rattle.rd_base.specs.Limits.{AreLimits};

use rd_base::{Limits, MaskLimits, NoMemory, Sends};
use rd_dialect::Dialect;
use rd_in_core::InSession;
use rd_out_core::OutSession;
use rd_script::{Script, last_line, read_script, send_line};
use std::alloc::{AllocError, Global};
use std::test::Fail;

/// The default limits, for three copies or for eight, with many exchanges or with one.
pub fn limits(eight: bool, one: bool) -> Limits
    ensures { AreLimits result }
{
    Limits {
        copies: if eight { 8 } else { 3 },
        unit_max: 1_048_576,
        exchanges_max: if one { 1 } else { 10_000 },
        idle_ms: 60_000,
        request_ms: 30_000,
        gather_ms: 5_000,
        reply_ms: 30_000,
        mask: MaskLimits {
            places: 64,
            bytes: 128,
        },
    }
}

/// A script of this side, of these pieces, all at moment 0, and of further lines.
pub fn script_of(
    alloc: Global,
    side: &str,
    pieces: &[(u8, &str)],
    more: &str,
) -> Result<String, AllocError> {
    let mut script = format!(in alloc; "side {side}\n")?;
    for (link, text) in pieces {
        let hex = hex::encode(alloc, text.as_bytes())?;
        script.push_str(format!(in alloc; "0 piece {link} {hex}\n")?.as_str())?;
    }
    script.push_str(more)?;
    Ok(script)
}

/// A transcript of these sends, which ends by this line.
pub fn transcript_of(
    alloc: Global,
    sends: &[(u32, u8, &str)],
    last: &str,
) -> Result<String, AllocError> {
    let mut text = String::new(alloc);
    for (step, link, bytes) in sends {
        let hex = hex::encode(alloc, bytes.as_bytes())?;
        text.push_str(format!(in alloc; "{step} to {link} {hex}\n")?.as_str())?;
    }
    text.push_str(last)?;
    Ok(text)
}

fn write_sends(alloc: Global, text: &mut String, step: u32, sends: &Sends) -> Result<(), Fail> {
    for place in 0..sends.len() {
        let link = sends.link_at(place);
        let Ok(line) = send_line(alloc, step, link, sends.bytes_at(place)) else {
            return Err(AllocError.into());
        };
        text.push_str(line.as_str())?;
    }
    Ok(())
}

fn read(alloc: Global, copies: u8, text: &str) -> Result<Option<Script>, Fail>
    requires least { 3 ≤ copies }
    requires most { copies ≤ 8 }
{
    Ok(read_script(alloc, copies, text.as_bytes()).ok())
}

/// The transcript of a session of a client. A step that finds no memory is taken once more.
pub fn run_in<D: Dialect>(
    alloc: Global,
    dialect: D,
    limits: Limits,
    text: &str,
) -> Result<String, Fail>
    requires { AreLimits limits }
{
    let mut written = String::new(alloc);
    let Some(script) = read(alloc, limits.copies, text)? else {
        return Ok(written);
    };
    let Ok(mut session) = InSession::new(alloc, dialect, limits) else {
        return Err(AllocError.into());
    };
    let mut step: u32 = 0;
    for place in 0..script.len() {
        step = step.wrapping_add(1);
        let happening = script.happening(place);
        let told = script.told(place);
        let sends = match session.take(happening, told) {
            Ok(sends) => sends,
            Err(NoMemory) => match session.take(happening, told) {
                Ok(sends) => sends,
                Err(NoMemory) => return Err(AllocError.into()),
            },
        };
        write_sends(alloc, &mut written, step, &sends)?;
    }
    if let Ok(last) = last_line(alloc, session.ending()) {
        written.push_str(last.as_str())?;
    }
    Ok(written)
}

/// The same of a session of callers.
pub fn run_out<D: Dialect>(
    alloc: Global,
    dialect: D,
    limits: Limits,
    text: &str,
) -> Result<String, Fail>
    requires { AreLimits limits }
{
    let mut written = String::new(alloc);
    let Some(script) = read(alloc, limits.copies, text)? else {
        return Ok(written);
    };
    let Ok(mut session) = OutSession::new(alloc, dialect, limits) else {
        return Err(AllocError.into());
    };
    let mut step: u32 = 0;
    for place in 0..script.len() {
        step = step.wrapping_add(1);
        let happening = script.happening(place);
        let sends = match session.take(happening) {
            Ok(sends) => sends,
            Err(NoMemory) => match session.take(happening) {
                Ok(sends) => sends,
                Err(NoMemory) => return Err(AllocError.into()),
            },
        };
        write_sends(alloc, &mut written, step, &sends)?;
    }
    if let Ok(last) = last_line(alloc, session.ending()) {
        written.push_str(last.as_str())?;
    }
    Ok(written)
}
