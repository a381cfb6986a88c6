ghost use Rattle.std.specs.Prelude.{◌≡◌, None, option_map};
ghost use Rattle.rd_base.specs.Clocks.{Ticks, IsUnasked, TakesSpan, reach_with};
ghost use Rattle.rd_net_edge.specs.Reaches.{seen_reach};

use std::io;
use std::time::{Instant, SystemTime};

/// The least and the greatest answer of a clock.
#[derive(Clone, Copy, Debug, PartialEq, Eq)]
pub struct Reached {
    low: u64,
    high: u64,
}

/// The calendar's time when it was made, and steady time from then on, in milliseconds since 1970. So a clock that is
/// set meanwhile moves no deadline.
#[derive(Drop)]
pub struct RealClock<R: std::rt::Clock + Copy> {
    rt: R,
    start: Instant,
    began: u64,
    last: u64,
    reach: Option<Reached>,
    span: u64,
}

impl<R: std::rt::Clock + Copy> RealClock<R> {
    /// A clock that hasn't been asked. It fails where the system's clocks can't be read.
    pub fn new(rt: R) -> io::Result<RealClock<R>> {
        let start = Instant::now(&rt)?;
        let began = match SystemTime::now(&rt)?.duration_since(SystemTime::UNIX_EPOCH) {
            Ok(since) => u64::try_from(since.as_millis()).unwrap_or(0),
            Err(_) => 0,
        };
        Ok(RealClock {
            rt,
            start,
            began,
            last: began,
            reach: None,
            span: 0,
        })
    }

    /// Milliseconds since 1970. Where the steady clock can't be read, the last answer again.
    fn read(&self) -> u64 {
        match self.start.elapsed(&self.rt) {
            Ok(elapsed) => {
                let since = u64::try_from(elapsed.as_millis()).unwrap_or(u64::MAX);
                self.began.saturating_add(since)
            }
            Err(_) => self.last,
        }
    }
}

/// How far answers reach with one more.
fn reach_on(reach: Option<Reached>, answer: u64) -> Reached
    ensures { seen_reach result ≡ reach_with (option_map seen_reach reach) answer }
{
    match reach {
        None => Reached {
            low: answer,
            high: answer,
        },
        Some(reach) => Reached {
            low: reach.low.min(answer),
            high: reach.high.max(answer),
        },
    }
}

impl<R: std::rt::Clock + Copy> rd_base::Clock for RealClock<R> {
    ghost use Rattle.std.specs.Prelude.{None, option_map};
    ghost use Rattle.rd_net_edge.specs.Reaches.{seen_reach};

    ghost tells = { λ c. record { answers = None; reach = option_map seen_reach c.reach; span = c.span } };

    fn now(&mut self) -> u64 {
        let answer = self.read();
        let reach = reach_on(self.reach, answer);
        self.last = answer;
        self.span = self.span.max(reach.high.saturating_sub(reach.low));
        self.reach = Some(reach);
        answer
    }

    fn another(&self) -> RealClock<R> {
        RealClock {
            rt: self.rt,
            start: self.start,
            began: self.began,
            last: self.began,
            reach: None,
            span: 0,
        }
    }

    fn join_in(&mut self, other: RealClock<R>) {
        self.span = self.span.max(other.span);
    }
}
