use crate::notes::{LAST_ID, fails_each_call, noted, page, put};
use rd_keeper::{Keeper, MemKeeper, Put, SqlKeeper};
use std::rt::HostRuntime;

/// A note that is put twice is kept once, as it was first put.
fn keeps_the_first<K: Keeper>(keeper: &mut K) -> bool {
    keeper.greatest() == Ok(None)
        && put(keeper, 7, 2, 0) == Ok(Put::Fresh)
        && put(keeper, 7, 3, 1) == Ok(Put::Repeat)
        && keeper.one(7) == Ok(Some(noted(7, 2, 0)))
        && page(keeper, 0, 100) == Ok((1, 7, 7))
        && keeper.greatest() == Ok(Some(7))
        && keeper.one(8) == Ok(None)
}

/// Beside the note 7 two more are put, the last id first.
fn puts_two_more<K: Keeper>(keeper: &mut K) -> bool {
    put(keeper, LAST_ID, 0, 3) == Ok(Put::Fresh)
        && put(keeper, 3, 0, 2) == Ok(Put::Fresh)
        && keeper.one(3) == Ok(Some(noted(3, 0, 2)))
        && keeper.one(u64::MAX) == Ok(None)
        && keeper.greatest() == Ok(Some(LAST_ID))
}

/// Notes come by rising id.
fn pages_rise<K: Keeper>(keeper: &mut K) -> bool {
    page(keeper, 0, 100) == Ok((3, 3, LAST_ID))
        && page(keeper, 3, 2) == Ok((2, 3, 7))
        && page(keeper, 4, 100) == Ok((2, 7, LAST_ID))
        && page(keeper, 4, 0) == Ok((0, 0, 0))
        && page(keeper, u64::MAX, 1) == Ok((0, 0, 0))
}

/// All rows, over a keeper without notes.
fn keeps_all<K: Keeper>(keeper: &mut K) -> bool {
    keeps_the_first(keeper) && puts_two_more(keeper) && pages_rise(keeper)
}

#[test]
fn keeps_over_both_keepers(rt: HostRuntime) {
    let alloc = rt.alloc();
    let Ok(mut table) = SqlKeeper::in_memory(alloc) else {
        panic!(rt; "no keeper");
    };
    let mut memory = MemKeeper::new(alloc, Vec::new(alloc));
    assert!(rt; keeps_all(&mut memory) && keeps_all(&mut table));
    assert!(rt; memory.faults() == 0 && table.faults() == 0 && !table.is_refused());
}

/// A call fails where the list has its number, and changes nothing.
#[test]
fn fails_where_its_list_says(rt: HostRuntime) {
    let alloc = rt.alloc();
    let Ok(failing) = Vec::from_slice(alloc, &[0, 1, 2, 3]) else {
        panic!(rt; "no list");
    };
    let mut keeper = MemKeeper::new(alloc, failing);
    assert!(rt; fails_each_call(&mut keeper));
    assert_eq!(rt; keeper.greatest(), Ok(None));
    assert_eq!(rt; keeper.faults(), 4);
}
