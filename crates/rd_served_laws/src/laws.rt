ghost use Rattle.rd_served_laws.specs.Causes.{VisitFaultsHaveCauses, ServedFaultsHaveCauses};

use rd_run_laws::link_laws;

/// A run that came back ended as a link's fault only where the count of faults of its visit's source or sink of that link
/// rose, or is at its last value: said of one visit, and of each run that came back from serving. S is the type of the
/// sources, and R that of the runtime.
pub fn served_laws<S, R>()
    ensures visit_faults { VisitFaultsHaveCauses S R }
    ensures link_faults { ServedFaultsHaveCauses S R }
{
    link_laws::<S, R>();
}
