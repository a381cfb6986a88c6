ghost use Rattle.std.specs.Prelude.{◌≡◌, ℕ, ◌≤◌, ◌+◌, [], IfOk, IfErr, IsTrue, is_ok, map, fold, length, ◌++◌, vec_len, vec_capacity, slice_get, Some};
ghost use Rattle.std.specs.List.{All};
ghost use Rattle.rd_gate.specs.Gate.{Known, joined};
ghost use Rattle.rd_start.specs.Spawners.{Starts, StartsNext, AllStarted};
ghost use Rattle.rd_start.specs.Back.{WasRead, with_ended};

use crate::reading::{NotStarted, Reading, start_reader};
use crate::spawner::Spawner;
use rd_base::Source;
use rd_gate::{OwnerPass, Passes, ReaderPass};
use std::alloc::Global;
use std::sync::Wait;
use std::thread::Threads;

/// Starts a reader, unless the spawner refuses it, no thread can be made, or there is no room for what it shares with
/// its thread. A refused start is counted by the spawner, and source and pass come back as they were.
pub fn start_with<
    P: Spawner,
    S: Source + Send + 'static,
    R: Wait + Threads + Copy + Send + Sync + 'static,
>(
    spawner: &mut P,
    rt: R,
    alloc: Global,
    source: S,
    pass: ReaderPass<R>,
) -> Result<Reading<S, R>, NotStarted<S, R>>
    ensures started { IfOk result (λ r. r ≡ (source, pass)) }
    ensures refused { IfErr result (λ n. (n.source ≡ source) × (n.pass ≡ pass)) }
    ensures counts { Starts (is_ok result) (P.tells spawner.old) (P.tells spawner.new) }
{
    if !spawner.allows() {
        return Err(NotStarted { source, pass });
    }
    match start_reader(rt, alloc, source, pass) {
        Ok(reading) => Ok(reading),
        Err(refused) => {
            spawner.refuse();
            Err(refused)
        }
    }
}

/// Starts a reader, unless an earlier start was refused.
fn start_next<
    P: Spawner,
    S: Source + Send + 'static,
    R: Wait + Threads + Copy + Send + Sync + 'static,
>(
    goes_on: bool,
    spawner: &mut P,
    rt: R,
    alloc: Global,
    source: S,
    pass: ReaderPass<R>,
) -> Result<Reading<S, R>, NotStarted<S, R>>
    ensures started { IfOk result (λ r. r ≡ (source, pass)) }
    ensures refused { IfErr result (λ n. (n.source ≡ source) × (n.pass ≡ pass)) }
    ensures counts { StartsNext goes_on (is_ok result) (P.tells spawner.old) (P.tells spawner.new) }
{
    if goes_on {
        start_with(spawner, rt, alloc, source, pass)
    } else {
        Err(NotStarted { source, pass })
    }
}

/// Starts a reader for each source, in order, until one is refused, and says whether all were started. Those that
/// weren't come back as `unread`, in order, the refused one first.
pub fn start_all<
    P: Spawner,
    S: Source + Send + 'static,
    R: Wait + Threads + Copy + Send + Sync + 'static,
>(
    spawner: &mut P,
    rt: R,
    alloc: Global,
    sources: Vec<S>,
    passes: &mut Passes<R>,
    readings: &mut Vec<Reading<S, R>>,
    unread: &mut Vec<NotStarted<S, R>>,
) -> bool
    requires room { vec_len sources ≤ vec_capacity readings.old }
    requires room_unread { vec_len sources ≤ vec_capacity unread.old }
    requires passes { vec_len sources ≤ length passes.old }
    requires none { readings.old.items ≡ [] }
    requires none_unread { unread.old.items ≡ [] }
    ensures sources { map (λ r. r.0) readings.new.items ++ map (λ n. n.source) unread.new.items
        ≡ sources.items }
    ensures passes { map (λ r. r.1) readings.new.items ++ map (λ n. n.pass) unread.new.items
        ++ passes.new ≡ passes.old }
    ensures count { vec_len readings.new + vec_len unread.new ≡ vec_len sources }
    ensures counts { AllStarted result (P.tells spawner.old).refusals
        (P.tells spawner.new).refusals }
    ensures all { IsTrue result → unread.new.items ≡ [] }
{
    let mut goes_on = true;
    for source in sources {
        let Some(pass) = passes.next() else {
            unreachable!()
        };
        match start_next(goes_on, spawner, rt, alloc, source, pass) {
            Ok(reading) => readings.push_reserved(reading),
            Err(refused) => {
                unread.push_reserved(refused);
                goes_on = false;
            }
        }
    }
    goes_on
}

/// Joins each reader, in order, and takes its pass in.
pub fn join_all<S: Source, R: Wait + Threads + Copy>(
    owner: &mut OwnerPass<R>,
    readings: Vec<Reading<S, R>>,
    sources: &mut Vec<S>,
)
    requires room { vec_len readings ≤ vec_capacity sources.old }
    requires none { sources.old.items ≡ [] }
    requires gates { All (λ r. r.1.gate ≡ owner.old.gate) readings.items }
    ensures count { vec_len sources.new ≡ vec_len readings }
    ensures room { vec_capacity sources.new ≡ vec_capacity sources.old }
    ensures gate { owner.new.gate ≡ owner.old.gate }
    ensures knows { owner.new.knows ≡ with_ended owner.old.knows owner.new.knows.ended }
    ensures backs { (k : ℕ) (r : S × Known) (s : S) → slice_get readings.items k ≡ Some r
        → slice_get sources.new.items k ≡ Some s
        → WasRead S.tells r.0 r.1 s owner.new.knows.ended }
{
    for reading in readings {
        let back = reading.join();
        sources.push_reserved(back.source);
        owner.take_in(back.pass);
    }
}

/// Takes in the passes of readers that weren't started, and gives their sources back behind these, in order.
pub fn take_back<S: Source, R: Wait + Copy>(
    owner: &mut OwnerPass<R>,
    unread: Vec<NotStarted<S, R>>,
    sources: &mut Vec<S>,
)
    requires room { vec_len sources.old + vec_len unread ≤ vec_capacity sources.old }
    requires gates { All (λ n. n.pass.gate ≡ owner.old.gate) unread.items }
    ensures sources { sources.new.items ≡ sources.old.items ++ map (λ n. n.source) unread.items }
    ensures gate { owner.new.gate ≡ owner.old.gate }
    ensures knows { owner.new.knows
        ≡ fold joined owner.old.knows (map (λ n. n.pass.knows) unread.items) }
{
    for back in unread {
        let NotStarted { source, pass } = back;
        sources.push_reserved(source);
        owner.take_in(pass);
    }
}
