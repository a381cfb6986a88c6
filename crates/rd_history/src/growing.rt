use logbook::{Gain, Play, Rule};

/// The rule of a list that only grows: a word has its length.
pub struct Growing;

impl<E> Rule<E, u64> for Growing {
    ghost use Rattle.std.specs.Prelude.{[]};
    ghost use base.Fml.{ftrue};
    ghost use Rattle.rd_history.specs.Rules.{IsKept};

    ghost holds = { λ cells log. IsKept cells log };

    ghost first = { [] };

    ghost hinted = { λ n log. Unit {0} };

    ghost shows = { λ log. [] };

    ghost keeps = { λ names log. ftrue };

    ghost moves = { λ ask before after answer. Unit {0} };
}

/// Callers trade nothing.
pub(crate) struct Nothing;

impl<E> Gain<E, u64> for Nothing {
    ghost use base.Fml.{ftrue};

    ghost after = { λ names about answer. ftrue };
}

/// The step that appends an entry.
pub(crate) struct Appends;

impl<E> Play<E, u64> for Appends {
    ghost use Rattle.rd_history.specs.Rules.{AppendsTo};

    ghost then = { AppendsTo };
}
