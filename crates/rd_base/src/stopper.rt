ghost use Rattle.std.specs.Prelude.{◌≡◌};
ghost use Rattle.rd_base.specs.Clocks.{StopperTold, Asks, TakesYeses};

/// Who may stop a session. It counts the times that it said yes, up to 2^64-1. How often it was asked is told by
/// those in memory alone.
pub trait Stopper: Drop {
    ghost tells: { Self → StopperTold };

    /// Whether the session is to stop.
    fn asked(&mut self) -> bool
        ensures { Asks result (tells self.old) (tells self.new) };

    /// A further one, which has said yes to nobody.
    fn another(&self) -> Self
        ensures { (tells result).yeses ≡ 0 };

    /// Takes in the count of one that is no longer used.
    fn join_in(&mut self, other: Self)
        ensures { TakesYeses (tells other) (tells self.old) (tells self.new) };
}
