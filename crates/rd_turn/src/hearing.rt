ghost use Rattle.std.specs.Prelude.{◌≡◌};
ghost use Rattle.rd_turn.specs.Turns.{Looked};
ghost use Rattle.rd_turn.specs.Acts.{Hears, heard_by, heard_item, is_past};

use crate::log::Act;
use rd_base::{Clock, Happening, Link, Stopper, What};
use rd_gate::{Item, OwnerPass};
use std::sync::Wait;
use std::time::Duration;

/// What a turn of a session's owner heard.
#[derive(Drop)]
pub enum Heard {
    /// A happening, and how the log names it.
    Step(Act, Happening),
    /// Nothing, and the wait isn't over.
    Quiet,
    /// This link's reader met want of memory.
    NoMemory(Link),
}

/// Asks the clock and the stopper, and takes from the gate at most once.
pub(crate) fn hear<R: Wait + Copy, C: Clock, Q: Stopper>(
    gate: &mut OwnerPass<R>,
    clock: &mut C,
    stop: &mut Q,
    base: u64,
    due: Option<u64>,
) -> Heard
    ensures gate { gate.new.gate ≡ gate.old.gate }
    ensures hears { Hears base due gate.old.knows gate.new.knows (C.tells clock.old)
        (C.tells clock.new) (Q.tells stop.old) (Q.tells stop.new) result }
{
    let at = clock.now().saturating_sub(base);
    if stop.asked() {
        return Heard::Step(
            Act::Stop,
            Happening {
                at,
                what: What::Stop,
            },
        );
    }
    match gate.take() {
        Some((link, item)) => hear_item(at, link, item),
        None => hear_nothing(gate, at, due),
    }
}

fn hear_item(at: u64, link: Link, item: Item) -> Heard
    ensures { result ≡ heard_item at link item }
{
    let what = match item {
        Item::Piece(bytes) => What::Piece(link, bytes),
        Item::End => What::End(link),
        Item::ReadFail => What::ReadFail(link),
        Item::NoMemory => return Heard::NoMemory(link),
    };
    Heard::Step(Act::Took(link), Happening { at, what })
}

// How long an idle owner rests at most: a stop wakes nobody.
const REST_MS: u64 = 50;

/// The gate was empty. Where the wait isn't over, it rests: until a reader has pushed, at most until the wait is over.
fn hear_nothing<R: Wait + Copy>(gate: &OwnerPass<R>, at: u64, due: Option<u64>) -> Heard
    ensures { result ≡ heard_by at (Looked (is_past due at)) }
{
    match due {
        Some(due) if due <= at => Heard::Step(
            Act::Timer,
            Happening {
                at,
                what: What::Timer,
            },
        ),
        Some(due) => {
            gate.rest(Duration::from_millis(REST_MS.min(due.saturating_sub(at))));
            Heard::Quiet
        }
        None => Heard::Quiet,
    }
}
