ghost use Rattle.std.specs.Prelude.{◌≡◌, IfOk, IfErr};
ghost use Rattle.rd_gate.specs.Gate.{Known};
ghost use Rattle.rd_start.specs.Start.{IsBack, KeepsStart};
ghost use Rattle.rd_start.specs.Way.{IsWay};

use rd_base::Source;
use rd_gate::{ReaderBack, ReaderPass, reader_loop};
use std::alloc::Global;
use std::marker::Model;
use std::snapshot::Snapshot;
use std::sync::atomic::{AtomicBool, Ordering};
use std::sync::{Arc, Wait};
use std::thread;
use std::thread::{Promise, PromisedHandle, Threads};

/// What a started closure gives: source and pass unread, where its flag was set, or a reader that has ended.
#[derive(Drop)]
enum Start<S, R: Wait + Copy> {
    Unread(S, ReaderPass<R>),
    Read(ReaderBack<S, R>),
}

/// What was handed to the thread.
#[derive(Drop)]
struct Handed<S, R: Wait + Copy> {
    source: Snapshot<S>,
    pass: Snapshot<ReaderPass<R>>,
}

impl<S: Source, R: Wait + Copy> Promise<Start<S, R>> for Handed<S, R> {
    ghost kept_by = { λ p r. KeepsStart S.tells p.source.value p.pass.value r };
}

#[derive(Drop)]
enum Way<S: Source, R: Wait + Copy> {
    Running(PromisedHandle<Start<S, R>, Handed<S, R>>),
    Done(Start<S, R>),
}

/// A reader that was started. Contracts see the source and the pass that it was started with.
#[derive(Drop)]
pub struct Reading<S: Source, R: Wait + Copy> {
    way: Way<S, R>,
    handed: Handed<S, R>,
    alloc: Global,
    rt: R,
}

impl<S: Source, R: Wait + Copy> Model for Reading<S, R> {
    ghost Value = { S × Known };

    ghost view = { λ r. (r.handed.source.value, r.handed.pass.value) };

    ghost invariant = { λ r. IsWay S.tells r.handed r.way };
}

/// A reader that wasn't started: what it would have had.
#[derive(Drop)]
pub struct NotStarted<S, R: Wait + Copy> {
    pub source: S,
    pub pass: ReaderPass<R>,
}

impl<S: Source, R: Wait + Threads + Copy> Reading<S, R> {
    /// Waits for the reader's end, and gives what `reader_loop` gave.
    pub fn join(self) -> ReaderBack<S, R>
        ensures { IsBack S.tells self.0 self.1 result }
    {
        let Reading {
            way,
            handed: _,
            alloc,
            rt,
        } = self;
        let start = match way {
            Way::Running(handle) => handle.join(&rt),
            Way::Done(start) => start,
        };
        match start {
            Start::Unread(source, pass) => reader_loop(alloc, source, pass),
            Start::Read(back) => back,
        }
    }
}

/// What the thread does: it reads, unless its start was called off.
fn begin<S: Source, R: Wait + Copy>(
    alloc: Global,
    called_off: Arc<AtomicBool, Global>,
    source: S,
    pass: ReaderPass<R>,
) -> Start<S, R>
    ensures { KeepsStart S.tells source pass result }
{
    if called_off.load(Ordering::SeqCst) {
        Start::Unread(source, pass)
    } else {
        Start::Read(reader_loop(alloc, source, pass))
    }
}

/// Starts a reader on a thread of its own. Where no thread can be made, or no room for what it shares with this call,
/// source and pass come back as they were.
pub(crate) fn start_reader<
    S: Source + Send + 'static,
    R: Wait + Threads + Copy + Send + Sync + 'static,
>(rt: R, alloc: Global, source: S, pass: ReaderPass<R>) -> Result<Reading<S, R>, NotStarted<S, R>>
    ensures started { IfOk result (λ r. r ≡ (source, pass)) }
    ensures refused { IfErr result (λ n. (n.source ≡ source) × (n.pass ≡ pass)) }
{
    let Ok(called_off) = Arc::new(alloc, AtomicBool::new(false)) else {
        return Err(NotStarted { source, pass });
    };
    let Ok(theirs) = Arc::try_clone(&called_off) else {
        return Err(NotStarted { source, pass });
    };
    let handed = Handed {
        source: Snapshot::of(&source),
        pass: Snapshot::of(&pass),
    };
    let promised = Handed {
        source: Snapshot::of(&source),
        pass: Snapshot::of(&pass),
    };
    match thread::spawn_with(&rt, promised, move || begin(alloc, theirs, source, pass)) {
        Ok(handle) => Ok(Reading {
            way: Way::Running(handle),
            handed,
            alloc,
            rt,
        }),
        Err(refused) => {
            called_off.store(true, Ordering::SeqCst);
            match (refused.value)() {
                Start::Unread(source, pass) => Err(NotStarted { source, pass }),
                Start::Read(back) => Ok(Reading {
                    way: Way::Done(Start::Read(back)),
                    handed,
                    alloc,
                    rt,
                }),
            }
        }
    }
}
