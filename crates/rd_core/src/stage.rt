ghost use Rattle.std.specs.Prelude.{◌≡◌};
ghost use Rattle.rd_reading.specs.Seen.{latest_front};

use rd_reading::{Front, Request};
use std::mem;

/// Where a session stands: how many exchanges are done, whether the last of them is a farewell, what is
/// open past them, and the request that is out.
#[derive(Drop)]
pub(crate) struct Stage {
    pub(crate) count: u32,
    pub(crate) bye: bool,
    pub(crate) left: Front,
    pub(crate) out: Option<Request>,
}

/// Where a session stands next: what is open is there where it changes.
#[derive(Drop)]
pub(crate) struct Next {
    pub(crate) count: u32,
    pub(crate) bye: bool,
    pub(crate) left: Option<Front>,
    pub(crate) out: Option<Request>,
}

/// Goes on to what is next. It answers what leads back.
pub(crate) fn enter(stage: &mut Stage, next: Next) -> Next
    ensures count { stage.new.count ≡ next.count }
    ensures bye { stage.new.bye ≡ next.bye }
    ensures left { stage.new.left ≡ latest_front stage.old.left next.left }
    ensures out { stage.new.out ≡ next.out }
    ensures count_before { result.count ≡ stage.old.count }
    ensures bye_before { result.bye ≡ stage.old.bye }
    ensures left_before { latest_front stage.new.left result.left ≡ stage.old.left }
    ensures out_before { result.out ≡ stage.old.out }
{
    let Next {
        count,
        bye,
        left,
        out,
    } = next;
    let left = match left {
        Some(front) => Some(mem::replace(&mut stage.left, front)),
        None => None,
    };
    Next {
        count: mem::replace(&mut stage.count, count),
        bye: mem::replace(&mut stage.bye, bye),
        left,
        out: mem::replace(&mut stage.out, out),
    }
}
