ghost use Rattle.std.specs.Prelude.{◌≡◌, Some, [], IfOk};
ghost use Rattle.rd_base.specs.Limits.{AreLimits};

use crate::tests::{runner_of, runs_of};
use crate::{CountingSink, InTurn, Marks, WaitingSource};
use rd_base::MemClock;
use rd_conf::{DialectName, Settings, default_settings};
use rd_desk::Desk;
use rd_doors::{Doors, Ends, Visit};
use rd_history::{Naming, NewList};
use rd_keeper::MemKeeper;
use rd_mem_doors::MemDoors;
use rd_run_session::SessionLeft;
use rd_serve::serve;
use rd_shared_book::Lender;
use std::alloc::Global;
use std::marker::Brand;
use std::rt::Clock;
use std::sync::atomic::AtomicU64;
use std::sync::{Arc, Wait};
use std::test::Fail;
use std::thread::Threads;

/// How many share the book: each session, and who serves them.
const SEATS: u8 = 33;

const GET: &[u8] = b"GET / HTTP/1.1\r\nHost: h\r\n\r\n";

const DONE: &[u8] = b"HTTP/1.1 200 OK\r\nContent-Length: 2\r\n\r\nok";

const FORM: &[u8] =
    b"HTTP/1.1 200 OK\r\nContent-Type: text/html\r\nContent-Length: 43\r\n\r\n<input name=t value=\"abcdefghijklmnop+q00\">";

const SECOND_FORM: &[u8] =
    b"HTTP/1.1 200 OK\r\nContent-Type: text/html\r\nContent-Length: 43\r\n\r\n<input name=t value=\"abcdefghijklmnop+q11\">";

const THIRD_FORM: &[u8] =
    b"HTTP/1.1 200 OK\r\nContent-Type: text/html\r\nContent-Length: 46\r\n\r\n<input name=t value=\"abcdefghijklmnop.q22222\">";

const POST: &[u8] =
    b"POST /s HTTP/1.1\r\nHost: h\r\nContent-Type: application/x-www-form-urlencoded\r\nContent-Length: 28\r\n\r\nt=abcdefghijklmnop%2Bq00&n=1";

const SECOND_POST: &[u8] =
    b"POST /s HTTP/1.1\r\nHost: h\r\nContent-Type: application/x-www-form-urlencoded\r\nContent-Length: 28\r\n\r\nt=abcdefghijklmnop%2Bq11&n=1";

const THIRD_POST: &[u8] =
    b"POST /s HTTP/1.1\r\nHost: h\r\nContent-Type: application/x-www-form-urlencoded\r\nContent-Length: 29\r\n\r\nt=abcdefghijklmnop.q22222&n=1";

/// The links of a client that asks at once, whose instances answer once they were asked. Of each link, what it is to be
/// sent and what its source says; the client's is the last.
fn client<R: Clock + Copy>(
    rt: R,
    alloc: Global,
    number: u64,
    links: [(&'static [u8], &'static [u8]); 4],
) -> Result<Ends<WaitingSource<R>, CountingSink>, Fail> {
    let mut sources = Vec::new(alloc);
    let mut sinks = Vec::new(alloc);
    for second in 0..4u64 {
        let (wanted, text) = links[second as usize];
        let sent = Arc::new(alloc, AtomicU64::new(0))?;
        let whole = wanted.len() as u64;
        let (piece_behind, end_behind) = if second == 3 {
            (0, whole)
        } else {
            (whole, u64::MAX)
        };
        sources.push(WaitingSource {
            rt,
            first: number,
            second,
            text,
            piece_behind: (Arc::try_clone(&sent)?, piece_behind),
            end_behind: (Arc::try_clone(&sent)?, end_behind),
            gave: false,
        })?;
        sinks.push(CountingSink {
            first: number,
            second,
            wanted,
            is_other: false,
            bytes: 0,
            is_closed: false,
            sent,
        })?;
    }
    Ok(Ends {
        number,
        sources,
        sinks,
    })
}

type FormDoors<R> = InTurn<MemDoors<WaitingSource<R>, CountingSink, SessionLeft<R>, Marks>, R>;

/// Doors of a client that is shown a form, and of one that posts it behind that one.
fn doors_of<R: Clock + Wait + Copy + Send + 'static>(
    rt: R,
    alloc: Global,
) -> Result<FormDoors<R>, Fail>
    ensures told { IfOk result (λ d. d.doors.told ≡ Some []) }
    ensures out { IfOk result (λ d. d.doors.out ≡ []) }
{
    let shown = [
        (GET, FORM),
        (GET, SECOND_FORM),
        (GET, THIRD_FORM),
        (FORM, GET),
    ];
    let posted = [
        (POST, DONE),
        (SECOND_POST, DONE),
        (THIRD_POST, DONE),
        (DONE, POST),
    ];
    let mut contents = Vec::new(alloc);
    contents.push(Visit::Client(client(rt, alloc, 1, shown)?))?;
    contents.push(Visit::Client(client(rt, alloc, 2, posted)?))?;
    Ok(InTurn {
        rt,
        doors: MemDoors::new(alloc, contents)?,
        is_out: false,
    })
}

/// Serves these doors by a book of rows that sessions share.
fn serve_forms<
    J: Naming + Send + Sync + 'static,
    R: Clock + Wait + Threads + Copy + Send + Sync + 'static,
>(
    rt: R,
    alloc: Global,
    list: NewList,
    settings: Settings,
    doors: &mut FormDoors<R>,
) -> Result<bool, Fail>
    requires book { list.seen.book ≡ J.book }
    requires seats { J.seats ≡ 33 }
    requires limits { AreLimits settings.limits }
    requires told { doors.old.doors.told ≡ Some [] }
    requires out { doors.old.doors.out ≡ [] }
{
    let book = Lender::<J, R>::make(rt, alloc, list, SEATS)?;
    if doors.make_ports(alloc, &settings).is_err() {
        return Ok(false);
    }
    let mut runner = runner_of(rt, alloc, settings, book);
    let mut keeper = MemKeeper::new(alloc, Vec::new(alloc));
    let mut clock = MemClock::new(alloc, Vec::new(alloc));
    let Ok(desk) = Desk::open(alloc, &mut keeper) else {
        return Ok(false);
    };
    let served = serve(rt, alloc, doors, &mut runner, desk, &mut clock, &mut keeper);
    Ok(served.is_ok())
}

/// A form's token that one client was shown, posted by another: each instance is sent its own.
#[test]
fn form_over_two_sessions(rt: HostRuntime) -> Result<(), Fail> {
    let alloc = rt.alloc();
    let mut doors = doors_of(rt, alloc)?;
    let mut settings = default_settings(alloc)?;
    settings.incoming = DialectName::Http;
    let served = serve_forms::<Brand, HostRuntime>(
        rt,
        alloc,
        NewList::new(),
        settings,
        &mut doors,
    )?;
    assert!(rt; served);
    let runs = runs_of(alloc, doors.doors.told())?;
    assert_eq!(rt; runs.as_slice(), [(1, true), (2, true)].as_slice());
    Ok(())
}
