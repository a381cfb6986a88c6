use std::alloc::AllocGlobal;
use std::rt::{Clock, Files};
use std::time::Instant;
use std::{fs, io};

/// What a thread has taken so far.
#[derive(Clone, Copy)]
pub struct Spent {
    /// Nanoseconds of a processor.
    pub nanos: u64,
    /// When that was.
    pub at: Instant,
    /// How often it gave its processor up since it had to wait.
    pub waits: u64,
}

impl Spent {
    /// What has been taken since: nanoseconds of a processor, nanoseconds that went by, and how often it waited.
    pub fn since(self, before: Spent) -> (u64, u128, u64) {
        (
            self.nanos.saturating_sub(before.nanos),
            self.at.saturating_duration_since(before.at).as_nanos(),
            self.waits.saturating_sub(before.waits),
        )
    }
}

/// What the thread that asks has taken, by what the system says.
pub fn spent_by<R: Files + Clock + AllocGlobal>(rt: &R) -> io::Result<Spent> {
    let times = fs::read_to_string(rt, "/proc/thread-self/schedstat")?;
    let status = fs::read_to_string(rt, "/proc/thread-self/status")?;
    Ok(Spent {
        nanos: number_in(times.as_str()),
        at: Instant::now(rt)?,
        waits: named(status.as_str(), "voluntary_ctxt_switches:"),
    })
}

/// The kibibytes that the process holds, by what the system says.
pub fn resident<R: Files + AllocGlobal>(rt: &R) -> io::Result<u64> {
    let text = fs::read_to_string(rt, "/proc/self/status")?;
    Ok(named(text.as_str(), "VmRSS:"))
}

/// The number of the line with this name, or 0.
fn named(text: &str, name: &str) -> u64 {
    for line in text.lines() {
        if let Some(rest) = line.strip_prefix(name) {
            return number_in(rest);
        }
    }
    0
}

/// The first number, or 0.
fn number_in(text: &str) -> u64 {
    match text.split_whitespace().next() {
        Some(word) => word.parse().unwrap_or(0),
        None => 0,
    }
}
