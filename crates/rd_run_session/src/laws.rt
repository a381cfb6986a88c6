ghost use Rattle.rd_run_session.specs.Laws.{StopsAreCounted, StampsAreWithin};

/// Laws of sessions that have run to their end.
pub fn run_laws()
    ensures stops { StopsAreCounted }
    ensures stamps { StampsAreWithin }
{}
