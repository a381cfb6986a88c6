ghost use Rattle.std.specs.Prelude.{◌≡◌, ◌≤◌, ◌^◌, ◌-◌};

use rd_base::SessionNote;
use rd_keeper::{KeepFail, Keeper, Put};

/// The greatest id that a note may have.
pub const LAST_ID: u64 = i64::MAX as u64;

/// A note of an id, with so many masked places, and this copy dropped.
pub fn noted(id: u64, masked: u32, dropped: u8) -> SessionNote
    ensures id { result.id ≡ id }
    ensures began { result.began ≤ 2 ^ 63 - 1 }
    ensures ended { result.ended ≤ 2 ^ 63 - 1 }
{
    SessionNote {
        id,
        side: 1,
        dialect: 2,
        began: 5,
        ended: LAST_ID,
        events: u32::MAX,
        exchanges: 2,
        masked,
        code: 15,
        link: 8,
        exchange: 6,
        place: 7,
        detail: 101,
        dropped,
    }
}

pub fn put<K: Keeper>(keeper: &mut K, id: u64, masked: u32, dropped: u8) -> Result<Put, KeepFail> {
    if id > LAST_ID {
        return Err(KeepFail::Failed);
    }
    keeper.put(&noted(id, masked, dropped))
}

/// The number of notes on a page, and the ids of its first and last.
pub fn page<K: Keeper>(
    keeper: &mut K,
    from: u64,
    count: u16,
) -> Result<(usize, u64, u64), KeepFail> {
    let notes = keeper.page(from, count)?;
    let len = notes.len();
    if len == 0 {
        return Ok((0, 0, 0));
    }
    Ok((len, notes.at(0).id, notes.at(len - 1).id))
}

/// Every call of a keeper that fails answers Failed.
pub fn fails_each_call<K: Keeper>(keeper: &mut K) -> bool {
    put(keeper, 1, 0, 0) == Err(KeepFail::Failed)
        && keeper.one(1) == Err(KeepFail::Failed)
        && page(keeper, 0, 1) == Err(KeepFail::Failed)
        && keeper.greatest() == Err(KeepFail::Failed)
}
