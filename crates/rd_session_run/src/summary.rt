ghost use Rattle.std.specs.Prelude.{◌≡◌, ◌≤◌, ◌<◌, ◌+◌, ◌*◌, ◌^◌, ◌++◌, ◌==◌, not, true, length, take, sum_by, IfOk, OnOk, string_bytes};
ghost use Rattle.rd_base.specs.History.{is_well_formed};
ghost use Rattle.rd_base.specs.Limits.{AreLimits};
ghost use Rattle.rd_core.specs.Standing.{IsAt};
ghost use Rattle.rd_reading.specs.Seen.{rules_of};
ghost use Rattle.rd_session_run.specs.Runs.{rules_for};
ghost use Rattle.rd_session_run.specs.Summaries.{summary, summary_text, session_lines, bytes_lines, count_line};
ghost use Rattle.rd_session_run.specs.Counting.{AreCounts, AreSmall, bytes_where};

use rd_base::{Ending, Limits, Link, NoMemory, Sends, Side};
use rd_core::{Session, Setup};
use rd_dialect::Dialect;
use rd_script::{Script, last_line};
use std::alloc::{AllocError, Global};

/// What a session came to, in numbers.
#[derive(Drop)]
pub struct Summary {
    /// 3 to 8.
    pub copies: u8,
    /// The exchanges that all copies agreed on.
    pub exchanges: u32,
    /// The happenings that were taken, at most 1,048,576.
    pub events: u32,
    /// The bytes sent to the single link.
    pub to_client: u128,
    /// The bytes sent to the copies, all together.
    pub to_instances: u128,
    /// The masked places of agreed exchanges.
    pub masked: u32,
    /// None where the session is live.
    pub ending: Option<Ending>,
}

impl Summary {
    /// A line for each number, and the last line of the transcript.
    pub fn text(&self, alloc: Global) -> Result<String, NoMemory>
        ensures { IfOk result (λ text. string_bytes text ≡ summary_text self.now) }
    {
        let last = last_line(alloc, self.ending)?;
        self.print(alloc, last.as_str()).map_err(|_| NoMemory)
    }

    /// The same with this last line.
    fn print(&self, alloc: Global, last: &str) -> Result<String, AllocError>
        ensures { IfOk result (λ text. string_bytes text
            ≡ session_lines self.now ++ bytes_lines self.now ++ last.now) }
    {
        let session = self.print_session(alloc)?;
        let bytes = self.print_bytes(alloc)?;
        format!(in alloc; "{session}{bytes}{last}")
    }

    fn print_session(&self, alloc: Global) -> Result<String, AllocError>
        ensures { IfOk result (λ text. string_bytes text ≡ session_lines self.now) }
    {
        let copies = count_line(alloc, "copies", u128::from(self.copies))?;
        let exchanges = count_line(alloc, "exchanges", u128::from(self.exchanges))?;
        let events = count_line(alloc, "events", u128::from(self.events))?;
        format!(in alloc; "{copies}{exchanges}{events}")
    }

    fn print_bytes(&self, alloc: Global) -> Result<String, AllocError>
        ensures { IfOk result (λ text. string_bytes text ≡ bytes_lines self.now) }
    {
        let to_client = count_line(alloc, "to client", self.to_client)?;
        let to_instances = count_line(alloc, "to instances", self.to_instances)?;
        let masked = count_line(alloc, "masked", u128::from(self.masked))?;
        format!(in alloc; "{to_client}{to_instances}{masked}")
    }
}

fn count_line(alloc: Global, name: &str, number: u128) -> Result<String, AllocError>
    ensures { IfOk result (λ text. string_bytes text ≡ count_line name.now number) }
{
    format!(in alloc; "{name} {number}\n")
}

/// What is counted while a session runs: happenings that were taken, and bytes that were sent.
#[derive(Clone, Copy)]
pub struct Counts {
    pub events: u32,
    pub to_client: u128,
    pub to_instances: u128,
}

impl Counts {
    /// With the bytes of these sends of one step.
    fn with_sends(mut self, single: Link, sends: &Sends) -> Counts
        requires few { length sends.now ≤ 9 }
        requires small_client { self.to_client ≤ 2 ^ 100 }
        requires small_instances { self.to_instances ≤ 2 ^ 100 }
        ensures events { result.events ≡ self.events }
        ensures to_client { result.to_client ≡ self.to_client + sum_by
            (bytes_where (λ l. l == single.0)) sends.now }
        ensures to_instances { result.to_instances ≡ self.to_instances + sum_by
            (bytes_where (λ l. not (l == single.0))) sends.now }
        ensures most_client { result.to_client ≤ self.to_client + 9 * 2 ^ 64 }
        ensures most_instances { result.to_instances ≤ self.to_instances + 9 * 2 ^ 64 }
    {
        for place in 0..sends.len() {
            let bytes = sends.bytes_at(place).len() as u128;
            if sends.link_at(place) == single {
                self.to_client += bytes;
            } else {
                self.to_instances += bytes;
            }
        }
        self
    }
}

/// Runs a script of either side through a session, and counts.
pub fn summarize<D: Dialect>(
    alloc: Global,
    side: Side,
    dialect: D,
    limits: Limits,
    script: &Script,
) -> Result<Summary, NoMemory>
    requires limits { AreLimits limits }
    requires side { side ≡ script.now.side }
    requires well_formed { is_well_formed limits.copies script.now.entries ≡ true }
    ensures { IfOk result (λ s. s ≡ summary (rules_for side
        (D.grammar dialect) limits) script.now.entries) }
{
    let copies = limits.copies;
    let mut session = Session::new(alloc, dialect, Setup { side, limits })?;
    let mut counts = Counts {
        events: 0,
        to_client: 0,
        to_instances: 0,
    };
    for place in 0..script.len() {
        counts = count_step(&mut session, copies, script, place, counts)?;
    }
    Ok(Summary {
        copies,
        exchanges: session.exchanges(),
        events: counts.events,
        to_client: counts.to_client,
        to_instances: counts.to_instances,
        masked: session.masked(),
        ending: session.ending(),
    })
}

/// Takes the happening that stands there, from 0, and counts what the step sends.
fn count_step<D: Dialect>(
    session: &mut Session<D>,
    copies: u8,
    script: &Script,
    place: usize,
    counts: Counts,
) -> Result<Counts, NoMemory>
    requires here { place < length script.now.entries }
    requires few { place < 1048576 }
    requires copies { copies ≡ session.old.setup.limits.copies }
    requires most { copies ≤ 8 }
    requires well_formed { is_well_formed session.old.setup.limits.copies script.now.entries
        ≡ true }
    requires at { IsAt (rules_of (D.grammar session.old.dialect) session.old.setup) session.old
        (take place script.now.entries) }
    requires counts { AreCounts (rules_of (D.grammar session.old.dialect) session.old.setup)
        (take place script.now.entries) counts }
    requires small { AreSmall place counts }
    ensures dialect { session.new.dialect ≡ session.old.dialect }
    ensures setup { session.new.setup ≡ session.old.setup }
    ensures at { OnOk result (IsAt (rules_of (D.grammar session.old.dialect) session.old.setup)
        session.new (take (place + 1) script.now.entries)) }
    ensures counts { IfOk result (AreCounts (rules_of
        (D.grammar session.old.dialect) session.old.setup) (take (place + 1) script.now.entries)) }
    ensures small { IfOk result (AreSmall (place + 1)) }
{
    let is_live = session.ending().is_none();
    let sends = session.take(script.happening(place), script.told(place))?;
    let counts = counts.with_sends(Link(copies), &sends);
    Ok(Counts {
        events: if is_live {
            counts.events + 1
        } else {
            counts.events
        },
        ..counts
    })
}
