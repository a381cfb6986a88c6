use rd_base::{Clock, Stopper};
use rd_net_edge::{Flag, RealClock, StopFlag};
use std::test::Fail;

#[test]
fn clock_and_stopper(rt: HostRuntime) -> Result<(), Fail> {
    let mut clock = RealClock::new(rt)?;
    let first = clock.now();
    assert!(rt; first > 1_600_000_000_000);
    assert!(rt; clock.now() >= first);
    let mut further = clock.another();
    assert!(rt; further.now() >= first);
    clock.join_in(further);
    let flag = Flag::new(rt.alloc())?;
    let mut stop = StopFlag::new(flag.share());
    assert!(rt; !stop.asked());
    flag.set();
    let mut again = stop.another();
    assert!(rt; again.asked());
    stop.join_in(again);
    assert!(rt; stop.asked());
    Ok(())
}
