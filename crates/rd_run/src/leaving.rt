ghost use Rattle.std.specs.Prelude.{◌≡◌, [], ◌∷◌, map, vec_len};
ghost use Rattle.rd_gate.specs.Gate.{Whole};
ghost use Rattle.rd_run.specs.Leaving.{Keeps, Drains, AllClosed};

use crate::items::LeftOver;
use rd_base::{Link, Sink};
use rd_gate::{Item, OwnerPass};
use std::sync::Wait;
use std::time::Duration;

/// Keeps one item more.
pub(crate) fn keep(left: LeftOver, link: Link, item: Item) -> LeftOver
    ensures { Keeps left result ((link, item) ∷ []) }
{
    match left {
        LeftOver::NoMemory => LeftOver::NoMemory,
        LeftOver::All(items) => {
            let mut items = items;
            match items.push(link, item) {
                Ok(()) => LeftOver::All(items),
                Err(_) => LeftOver::NoMemory,
            }
        }
    }
}

// How long the owner rests while readers end.
const REST_MS: u64 = 50;

/// Takes what readers still hand on, until so many of them have handed on their last item.
pub(crate) fn drain<R: Wait + Copy>(
    rt: R,
    gate: &mut OwnerPass<R>,
    left: LeftOver,
    started: u8,
) -> LeftOver
    ensures gate { gate.new.gate ≡ gate.old.gate }
    ensures drained { Drains gate.old.knows gate.new.knows left result }
{
    let mut left = left;
    for _ in rt.forever() {
        if gate.lasts() >= started {
            return left;
        }
        match gate.take() {
            Some((link, item)) => left = keep(left, link, item),
            None => gate.rest(Duration::from_millis(REST_MS)),
        }
    }
    unreachable!()
}

/// Takes what the gate still holds, until it is found empty.
pub(crate) fn drain_last<R: Wait + Copy>(rt: R, gate: &mut OwnerPass<R>, left: LeftOver) -> LeftOver
    ensures gate { gate.new.gate ≡ gate.old.gate }
    ensures drained { Drains gate.old.knows gate.new.knows left result }
    ensures whole { Whole gate.new.knows [] }
{
    let mut left = left;
    for _ in rt.forever() {
        match gate.take() {
            Some((link, item)) => left = keep(left, link, item),
            None => return left,
        }
    }
    unreachable!()
}

/// Closes every sink.
pub(crate) fn close_all<K: Sink>(sinks: &mut Vec<K>)
    ensures count { vec_len sinks.new ≡ vec_len sinks.old }
    ensures closed { AllClosed (map K.tells sinks.old.items) (map K.tells sinks.new.items) }
{
    for link in 0..sinks.len() {
        let sink = &mut sinks[link];
        sink.close();
    }
}
