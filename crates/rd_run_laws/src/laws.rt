ghost use Rattle.rd_run_laws.specs.Causes.{StampsAreWithin, StopsHaveYeses, YesesHaveStops, WriteFailsHaveFaults, OnlyFaults, LinkFaultsHaveCauses};

/// What causes the entries of a log: no stamp is more than the clock's span, a Stop stands in it exactly where the stopper's
/// yeses rose, and a failed write only where the count of its sink rose. A link's fault is caused by a failed read or write.
pub fn cause_laws()
    ensures stamps { StampsAreWithin }
    ensures stops { StopsHaveYeses }
    ensures yeses { YesesHaveStops }
    ensures write_fails { WriteFailsHaveFaults }
    ensures only_faults { OnlyFaults }
{}

/// A run ends as a link's fault only where the count of the link's source or its sink rose. S is the type of its sources,
/// and R that of its runtime.
pub fn link_laws<S, R>()
    ensures link_faults { LinkFaultsHaveCauses S R }
{}
