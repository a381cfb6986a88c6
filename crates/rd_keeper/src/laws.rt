ghost use Rattle.rd_keeper.specs.Laws.{KeepsFirsts, KeepsNothingElse, FollowsPuts};

/// What a keeper has after a list of puts, for proofs: the call does nothing. The notes are, by rising id, the first put
/// note of each id. Of a keeper's own puts those count that it answered.
pub fn keeper_laws()
    ensures firsts { KeepsFirsts }
    ensures nothing_else { KeepsNothingElse }
    ensures puts { FollowsPuts }
{}
