ghost use Rattle.std.specs.Prelude.{◌≡◌};
ghost use Rattle.rd_start.specs.Spawners.{SpawnerTold, Starts, Refuses, TakesRefusals};

/// Who may refuse that a reader is started. It counts the starts that were refused, by itself or behind it, up to
/// 2^64-1. How often it was asked is told by those in memory alone.
pub trait Spawner: Drop {
    ghost tells: { Self → SpawnerTold };

    /// Whether the next start may be tried. Where it may not, it counts as refused.
    fn allows(&mut self) -> bool
        ensures { Starts result (tells self.old) (tells self.new) };

    /// Counts a start that it allowed and that came to nothing.
    fn refuse(&mut self)
        ensures { Refuses (tells self.old) (tells self.new) };

    /// A further one, which has refused nothing.
    fn another(&self) -> Self
        ensures { (tells result).refusals ≡ 0 };

    /// Takes in the count of one that is no longer used.
    fn join_in(&mut self, other: Self)
        ensures { TakesRefusals (tells other) (tells self.old) (tells self.new) };
}
