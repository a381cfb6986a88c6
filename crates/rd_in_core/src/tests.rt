ghost use Rattle.rd_base.specs.Limits.{AreLimits};

use super::*;
use rd_base::{
    Bytes, Ending, Happening, Limits, Link, MaskLimits, NoMemory, Rows, Sends, What, Which,
};
use rd_dialect::Line;
use std::alloc::Global;
use std::test::Fail;

fn limits() -> Limits
    ensures { AreLimits result }
{
    Limits {
        copies: 3,
        unit_max: 1_048_576,
        exchanges_max: 10_000,
        idle_ms: 60_000,
        request_ms: 30_000,
        gather_ms: 5_000,
        reply_ms: 30_000,
        mask: MaskLimits {
            places: 64,
            bytes: 128,
        },
    }
}

fn piece(alloc: Global, link: u8, bytes: &[u8]) -> Result<What, NoMemory> {
    Ok(What::Piece(Link(link), Bytes::from_slice(alloc, bytes)?))
}

/// What a session has sent in its last step, when it has heard these, and where it then stands.
#[derive(Drop)]
struct Heard {
    sends: Sends,
    ending: Option<Ending>,
    due: Option<(u64, Which)>,
    exchanges: u32,
}

fn hear(alloc: Global, happenings: &[Happening]) -> Result<Heard, NoMemory> {
    let mut session = InSession::new(alloc, Line, limits())?;
    let mut sends = Sends::new(alloc);
    for happening in happenings {
        sends = session.take(happening, &Rows::new(alloc))?;
    }
    Ok(Heard {
        sends,
        ending: session.ending(),
        due: session.due(),
        exchanges: session.exchanges(),
    })
}

fn happening(at: u64, what: What) -> Happening {
    Happening { at, what }
}

/// A request, and the reply of each copy.
fn exchange(alloc: Global) -> Result<Vec<Happening>, Fail> {
    let happenings = vec![in alloc;
        happening(7, piece(alloc, 3, b"get a\n")?),
        happening(8, piece(alloc, 0, b"ok 1\n")?),
        happening(8, piece(alloc, 1, b"ok 1\n")?),
        happening(9, piece(alloc, 2, b"ok 1\n")?),
    ]?;
    Ok(happenings)
}

/// How many of these are heard, how many sends the last of them brings, how many exchanges are then agreed, and what
/// is waited for.
#[test]
fn an_exchange(rt: HostRuntime) -> Result<(), Fail> {
    let alloc = rt.alloc();
    let happenings = exchange(alloc)?;
    for (count, sends, exchanges, due) in [
        (0, 0, 0, (60_000, Which::Idle)),
        (1, 3, 0, (5_007, Which::Gather)),
        (2, 0, 0, (5_007, Which::Gather)),
        (3, 0, 0, (5_007, Which::Gather)),
        (4, 1, 1, (60_009, Which::Idle)),
    ] {
        let heard = hear(alloc, happenings.get(..count).unwrap_or(&[]))?;
        assert_eq!(rt; heard.sends.len(), sends);
        assert_eq!(rt; heard.exchanges, exchanges);
        assert_eq!(rt; heard.due, Some(due));
        assert_eq!(rt; heard.ending, None);
    }
    Ok(())
}

#[test]
fn the_reply_goes_to_the_client(rt: HostRuntime) -> Result<(), Fail> {
    let alloc = rt.alloc();
    let heard = hear(alloc, &exchange(alloc)?)?;
    assert_eq!(rt; heard.sends.len(), 1);
    assert_eq!(rt; heard.sends.link_at(0), Link(3));
    assert_eq!(rt; heard.sends.bytes_at(0), b"ok 1\n".as_slice());
    Ok(())
}

/// What is heard first, and how the session then ends.
#[test]
fn what_ends_an_idle_session(rt: HostRuntime) -> Result<(), Fail> {
    let alloc = rt.alloc();
    for (at, what, ending) in [
        (59_999, What::Timer, None),
        (
            60_000,
            What::Timer,
            Some(Ending::Late { which: Which::Idle }),
        ),
        (0, What::Stop, Some(Ending::Stopped)),
        (
            0,
            What::ReadFail(Link(1)),
            Some(Ending::LinkFault { link: Link(1) }),
        ),
    ] {
        let heard = hear(alloc, &[happening(at, what)])?;
        assert_eq!(rt; heard.ending, ending);
    }
    Ok(())
}

/// The client's bytes at moment 100, a look at the clock that ends nothing, what comes next, and how the session then
/// ends.
#[test]
fn what_no_piece_says(rt: HostRuntime) -> Result<(), Fail> {
    let alloc = rt.alloc();
    for (bytes, before, at, what, ending) in [
        (
            b"get a\n".as_slice(),
            5_099,
            5_100,
            What::Timer,
            Some(Ending::Late {
                which: Which::Gather,
            }),
        ),
        (b"get a\n", 100, 5_099, What::Timer, None),
        (
            b"a",
            30_099,
            30_100,
            What::Timer,
            Some(Ending::Late {
                which: Which::Request,
            }),
        ),
        (b"a", 100, 30_099, What::Timer, None),
        (b"a", 100, 100, What::Stop, Some(Ending::Stopped)),
        (
            b"a",
            100,
            100,
            What::ReadFail(Link(1)),
            Some(Ending::LinkFault { link: Link(1) }),
        ),
    ] {
        let happenings = vec![in alloc;
            happening(100, piece(alloc, 3, bytes)?),
            happening(before, What::Timer),
            happening(at, what),
        ]?;
        let heard = hear(alloc, &happenings)?;
        assert_eq!(rt; heard.ending, ending);
        assert_eq!(rt; heard.due.is_none(), ending.is_some());
    }
    Ok(())
}
