ghost use Rattle.rd_base.specs.Clocks.{ClockTold, Ticks, IsUnasked, TakesSpan};

/// A clock of milliseconds. Its answers need not rise. It tells its span: the greatest difference of two of its
/// answers, or of two answers of a clock that was joined in. Its answers are told by those in memory alone.
pub trait Clock: Drop {
    ghost tells: { Self → ClockTold };

    /// The time, in milliseconds.
    fn now(&mut self) -> u64
        ensures { Ticks result (tells self.old) (tells self.new) };

    /// A further clock, which hasn't been asked.
    fn another(&self) -> Self
        ensures { IsUnasked (tells result) };

    /// Takes in the span of a clock that is no longer used.
    fn join_in(&mut self, other: Self)
        ensures { TakesSpan (tells other) (tells self.old) (tells self.new) };
}
