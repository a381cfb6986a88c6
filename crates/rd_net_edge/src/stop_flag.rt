ghost use Rattle.std.specs.Prelude.{◌≡◌, None};
ghost use Rattle.rd_base.specs.Clocks.{Asks, TakesYeses};

use crate::flag::Flag;
use rd_base::Stopper;

/// A stopper that says yes once its flag is set. It tells nothing of how often it was asked.
#[derive(Drop)]
pub struct StopFlag {
    flag: Flag,
    yeses: u64,
}

impl StopFlag {
    /// A stopper by this flag, which has said yes to nobody.
    pub fn new(flag: Flag) -> StopFlag
        ensures { result.yeses ≡ 0 }
    {
        StopFlag { flag, yeses: 0 }
    }
}

impl Stopper for StopFlag {
    ghost tells = { λ s. record { asked = None; yeses = s.yeses } };

    fn asked(&mut self) -> bool {
        let answer = self.flag.is_set();
        if answer {
            self.yeses = self.yeses.saturating_add(1);
        }
        answer
    }

    fn another(&self) -> StopFlag {
        StopFlag::new(self.flag.share())
    }

    fn join_in(&mut self, other: StopFlag) {
        self.yeses = self.yeses.saturating_add(other.yeses);
    }
}
