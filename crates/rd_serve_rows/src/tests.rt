ghost use Rattle.std.specs.Prelude.{◌≡◌, Some, [], IfOk};
ghost use Rattle.rd_base.specs.Limits.{AreLimits};

use crate::{CountingSink, Marks, Sent, WaitingSource};
use rd_base::{Ending, MemClock, MemStopper};
use rd_conf::{Settings, default_settings};
use rd_desk::Desk;
use rd_doors::{Doors, Ends, Visit};
use rd_keeper::{Keeper, MemKeeper};
use rd_lent_book::LentBook;
use rd_mem_doors::{MemDoors, Told};
use rd_run_session::{SessionLeft, SessionRunner};
use rd_serve::serve;
use rd_start::ThreadSpawner;
use rd_token_map::NoBook;
use std::alloc::Global;
use std::rt::Clock;
use std::sync::atomic::AtomicU64;
use std::sync::{Arc, Wait};
use std::test::Fail;
use std::thread::Threads;

/// The links of a client that asks once, whose instances answer once they were asked or, where one is named, once the
/// client of another visit was answered and closed. Its own is the last that is handed in.
fn client<R: Clock + Copy>(
    rt: R,
    alloc: Global,
    number: u64,
    own: &Sent,
    awaited: Option<&Sent>,
) -> Result<Ends<WaitingSource<R>, CountingSink>, Fail> {
    let mut sources = Vec::new(alloc);
    let mut sinks = Vec::new(alloc);
    for second in 0..4u64 {
        let sent = if second == 3 {
            Arc::try_clone(own)?
        } else {
            Arc::new(alloc, AtomicU64::new(0))?
        };
        let (text, wanted) = if second == 3 {
            (b"get a\n".as_slice(), b"ok 1\n".as_slice())
        } else {
            (b"ok 1\n".as_slice(), b"get a\n".as_slice())
        };
        let (piece_behind, end_behind) = match (second, awaited) {
            (3, _) => ((Arc::try_clone(&sent)?, 0), 5),
            (_, Some(other)) => ((Arc::try_clone(other)?, u64::MAX), u64::MAX),
            (_, None) => ((Arc::try_clone(&sent)?, 6), u64::MAX),
        };
        sources.push(WaitingSource {
            rt,
            first: number,
            second,
            text,
            piece_behind,
            end_behind: (Arc::try_clone(&sent)?, end_behind),
            gave: false,
        })?;
        sinks.push(CountingSink {
            first: number,
            second,
            wanted,
            is_other: false,
            bytes: 0,
            is_closed: false,
            sent,
        })?;
    }
    Ok(Ends {
        number,
        sources,
        sinks,
    })
}

/// Doors of so many clients, each of whom is answered once the next one was.
fn doors_of<R: Clock + Wait + Copy + Send + 'static>(
    rt: R,
    alloc: Global,
    clients: u64,
) -> Result<MemDoors<WaitingSource<R>, CountingSink, SessionLeft<R>, Marks>, Fail>
    ensures told { IfOk result (λ d. d.told ≡ Some []) }
    ensures out { IfOk result (λ d. d.out ≡ []) }
{
    let mut contents = Vec::new(alloc);
    let mut next: Option<Sent> = None;
    for place in 0..clients {
        let number = clients - place;
        let own = Arc::new(alloc, AtomicU64::new(0))?;
        let ends = client(rt, alloc, number, &own, next.as_ref())?;
        contents.push(Visit::Client(ends))?;
        next = Some(own);
    }
    contents.reverse();
    if contents.len() > 1_000 {
        return Err(Fail::new("too many"));
    }
    Ok(MemDoors::new(alloc, contents)?)
}

/// A runner by these settings, whose clock stands still, over this book.
pub fn runner_of<B: LentBook, R: Wait + Threads + Copy>(
    rt: R,
    alloc: Global,
    settings: Settings,
    book: B,
) -> SessionRunner<ThreadSpawner, MemClock, MemStopper, B, R>
    requires { AreLimits settings.limits }
    ensures { result.setup.limits ≡ settings.limits }
{
    SessionRunner::new(
        rt,
        alloc,
        settings.limits,
        settings.incoming,
        settings.outgoing,
        settings.rules,
        ThreadSpawner::new(),
        MemClock::new(alloc, Vec::new(alloc)),
        MemStopper::new(alloc, Vec::new(alloc)),
        book,
    )
}

/// What came back, by number: for each run its visit's number, and whether it was Done and each link was sent what is
/// wanted.
pub fn runs_of<R: Clock + Wait + Copy>(
    alloc: Global,
    told: &[Told<WaitingSource<R>, CountingSink, SessionLeft<R>>],
) -> Result<Vec<(u64, bool)>, Fail> {
    let mut runs = Vec::new(alloc);
    for one in told {
        if let Told::CameBack(number, run, sinks) = one {
            let mut whole = matches!(run.left.report.ending, Ending::Done) && sinks.len() == 4;
            for sink in sinks {
                whole = whole && sink.is_as_wanted();
            }
            runs.push((*number, whole))?;
        }
    }
    runs.sort()?;
    Ok(runs)
}

/// Whether there are so many notes, with ids from 1, of clients that were done after one exchange of lines.
pub fn has_notes(keeper: &mut MemKeeper, count: u64) -> bool {
    for id in 1..=count {
        let Ok(Some(note)) = keeper.one(id) else {
            return false;
        };
        if (note.side, note.dialect, note.exchanges, note.code) != (0, 0, 1, 0) {
            return false;
        }
    }
    keeper.greatest() == Ok(Some(count))
}

/// One client; and two, of whom the second has to be answered before the first can be.
#[test]
fn clients_side_by_side(rt: HostRuntime) -> Result<(), Fail> {
    let alloc = rt.alloc();
    let rows: [(u64, &[(u64, bool)]); 2] = [(1, &[(1, true)]), (2, &[(1, true), (2, true)])];
    for (clients, wanted) in rows {
        let mut doors = doors_of(rt, alloc, clients)?;
        let settings = default_settings(alloc)?;
        assert!(rt; doors.make_ports(alloc, &settings).is_ok());
        let mut runner = runner_of(rt, alloc, settings, NoBook);
        let mut keeper = MemKeeper::new(alloc, Vec::new(alloc));
        let mut clock = MemClock::new(alloc, Vec::new(alloc));
        let Ok(desk) = Desk::open(alloc, &mut keeper) else {
            panic!(rt; "no desk");
        };
        let served = serve(
            rt,
            alloc,
            &mut doors,
            &mut runner,
            desk,
            &mut clock,
            &mut keeper,
        );
        assert!(rt; served.is_ok());
        let runs = runs_of(alloc, doors.told())?;
        assert_eq!(rt; runs.as_slice(), wanted);
        assert!(rt; has_notes(&mut keeper, clients));
    }
    Ok(())
}
