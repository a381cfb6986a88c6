ghost use Rattle.std.specs.Prelude.{◌≡◌};
ghost use Rattle.rd_run_session.specs.Left.{summary_of, last_stamp};

use rd_run::{LeftOver, Log, Report};
use rd_runner::Summary;
use std::sync::Wait;

/// What a session leaves beside its links: what it tells, and the items that came to no step.
#[derive(Drop)]
pub struct SessionLeft<R: Wait + Copy> {
    pub report: Report<R>,
    pub left_over: LeftOver,
}

impl<R: Wait + Copy> SessionLeft<R> {
    /// What the session came to, in numbers.
    pub fn summary(&self) -> Summary
        ensures { result ≡ summary_of self.now.report }
    {
        Summary {
            ending: self.report.ending,
            last: last_of(&self.report.log),
            events: u32::try_from(self.report.log.len()).unwrap_or(u32::MAX),
            exchanges: self.report.exchanges,
            masked: self.report.masked,
        }
    }
}

/// The stamp of a log's last entry, 0 where it has none.
fn last_of<R: Wait + Copy>(log: &Log<R>) -> u64
    ensures { result ≡ last_stamp log.now.entries }
{
    match log.len().checked_sub(1) {
        Some(place) => log.at(place).at,
        None => 0,
    }
}
