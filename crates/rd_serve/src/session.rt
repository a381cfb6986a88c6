ghost use Rattle.std.specs.Prelude.{◌≡◌, IfOk, IfErr};
ghost use Rattle.rd_doors.specs.Visits.{AreFresh, ends_told, run_told};
ghost use Rattle.std.specs.Thread.{IsSync};
ghost use Rattle.rd_serve.specs.Crossing.{Crosses};
ghost use Rattle.rd_serve.specs.Booking.{KeepsBook};
ghost use Rattle.rd_serve.specs.Sessions.{Keeps};

use rd_base::{Clock, Side, Sink, Source, Stopper};
use rd_desk::Begun;
use rd_doors::Ends;
use rd_lent_book::LentBook;
use rd_run_session::{SessionLeft, SessionRunner, run_visit};
use rd_runner::Ended;
use rd_start::Spawner;
use std::alloc::Global;
use std::snapshot::Snapshot;
use std::sync::atomic::{AtomicBool, Ordering};
use std::sync::{Arc, Wait};
use std::thread;
use std::thread::{Promise, PromisedHandle, Threads};

/// How many sessions run at once.
pub(crate) const SESSIONS: usize = 32;

/// What a session's thread gives: what came of the session, and who ran it.
#[derive(Drop)]
pub struct Served<S, K, P: Spawner, C: Clock, T: Stopper, B: LentBook, R: Wait + Threads + Copy> {
    pub ended: Ended<S, K, SessionLeft<R>>,
    pub runner: SessionRunner<P, C, T, B, R>,
}

/// What a session's thread was handed.
#[derive(Drop)]
pub struct Handed<S, K, P: Spawner, C: Clock, T: Stopper, B: LentBook, R: Wait + Threads + Copy> {
    pub runner: Snapshot<SessionRunner<P, C, T, B, R>>,
    pub side: Side,
    pub ends: Snapshot<Ends<S, K>>,
}

impl<
    S: Source + Send + 'static,
    K: Sink,
    P: Spawner + Send + 'static,
    C: Clock + Send + 'static,
    T: Stopper + Send + 'static,
    B: LentBook + Send + 'static,
    R: Wait + Threads + Copy + Send + Sync + 'static,
> Promise<Served<S, K, P, C, T, B, R>> for Handed<S, K, P, C, T, B, R> {
    ghost kept_by = { λ p r. Keeps S.tells K.tells
        p.runner.value.setup p.side p.ends.value r
        × KeepsBook S p.runner.value.setup p.side (ends_told S.tells K.tells p.ends.value)
        (run_told S.tells K.tells p.ends.value.number r.ended.run r.ended.sinks.items)
        p.runner.value.book r.runner.book };
}

/// A session on a thread of its own, which sets the flag as its last act.
#[derive(Drop)]
pub struct Session<
    S: Source + Send + 'static,
    K: Sink,
    P: Spawner + Send + 'static,
    C: Clock + Send + 'static,
    T: Stopper + Send + 'static,
    B: LentBook + Send + 'static,
    R: Wait + Threads + Copy + Send + Sync + 'static,
> {
    pub number: u64,
    pub side: Side,
    pub ends: Snapshot<Ends<S, K>>,
    pub begun: Begun,
    pub handle: PromisedHandle<Served<S, K, P, C, T, B, R>, Handed<S, K, P, C, T, B, R>>,
    pub flag: Arc<AtomicBool, Global>,
}

/// What a session's thread runs: the session of a visit, by who counts from 0, and the flag that it sets.
#[derive(Drop)]
struct Job<
    S: Source,
    K: Sink,
    P: Spawner,
    C: Clock,
    T: Stopper,
    B: LentBook,
    R: Wait + Threads + Copy,
> {
    alloc: Global,
    side: Side,
    ends: Ends<S, K>,
    runner: SessionRunner<P, C, T, B, R>,
    flag: Arc<AtomicBool, Global>,
}

/// Runs the session of a visit to its end, and sets the flag as the last act. It says by clauses what a thread that starts
/// threads may send, since no bound of the closure that calls it does.
fn run_and_tell<
    S: Source + Send + 'static,
    K: Sink,
    P: Spawner,
    C: Clock,
    T: Stopper,
    B: LentBook,
    R: Wait + Threads + Copy + Send + Sync + 'static,
>(job: Job<S, K, P, C, T, B, R>) -> Served<S, K, P, C, T, B, R>
    requires sources { Crosses S.row }
    requires runtime { Crosses R.row }
    requires shared { IsSync R.row }
    requires yeses { job.runner.yeses ≡ 0 }
    requires refusals { job.runner.refusals ≡ 0 }
    requires fresh { AreFresh job.runner.setup.limits.copies (ends_told S.tells K.tells job.ends) }
    ensures { Keeps S.tells K.tells job.runner.setup job.side job.ends result
        × KeepsBook S job.runner.setup job.side (ends_told S.tells K.tells job.ends)
        (run_told S.tells K.tells job.ends.number result.ended.run result.ended.sinks.items)
        job.runner.book result.runner.book }
{
    let Job {
        alloc,
        side,
        ends,
        mut runner,
        flag,
    } = job;
    let ended = run_visit(&mut runner, alloc, side, ends);
    flag.store(true, Ordering::SeqCst);
    Served { ended, runner }
}

/// Runs a function on a thread of its own. Where none can be made, runs it here.
fn start<
    A: Drop + Send + 'static,
    B: Drop + Send + 'static,
    G: Promise<B> + Drop,
    F: FnOnce(A) -> B + Drop + Send + 'static,
    R: Threads,
>(rt: &R, promise: G, job: A, run: F) -> Result<PromisedHandle<B, G>, B>
    requires runs { F.pre run job }
    requires keeps { (result : B) → F.post run job result → G.kept_by promise result }
    ensures promise { IfOk result (λ handle. handle.promise ≡ promise) }
    ensures here { IfErr result (λ given. G.kept_by promise given) }
{
    match thread::spawn_with(
        rt,
        promise,
        move || -> B
            requires { F.pre run job }
            ensures { F.post run job result }
        { run(job) },
    ) {
        Ok(handle) => Ok(handle),
        Err(refused) => Err((refused.value)()),
    }
}

/// Starts the session of a visit on a thread of its own. Where none can be made, runs it here.
pub fn begin<
    S: Source + Send + 'static,
    K: Sink + Send + 'static,
    P: Spawner + Send + 'static,
    C: Clock + Send + 'static,
    T: Stopper + Send + 'static,
    B: LentBook + Send + 'static,
    R: Wait + Threads + Copy + Send + Sync + 'static,
>(
    rt: R,
    alloc: Global,
    side: Side,
    ends: Ends<S, K>,
    runner: SessionRunner<P, C, T, B, R>,
    flag: Arc<AtomicBool, Global>,
) -> Result<
    PromisedHandle<Served<S, K, P, C, T, B, R>, Handed<S, K, P, C, T, B, R>>,
    Served<S, K, P, C, T, B, R>,
>
    requires yeses { runner.yeses ≡ 0 }
    requires refusals { runner.refusals ≡ 0 }
    requires fresh { AreFresh runner.setup.limits.copies (ends_told S.tells K.tells ends) }
    ensures runner { IfOk result (λ h. h.promise.runner.value ≡ runner) }
    ensures side { IfOk result (λ h. h.promise.side ≡ side) }
    ensures ends { IfOk result (λ h. h.promise.ends.value ≡ ends) }
    ensures here { IfErr result (λ served. Keeps S.tells K.tells
        runner.setup side ends served
        × KeepsBook S runner.setup side (ends_told S.tells K.tells ends)
        (run_told S.tells K.tells ends.number served.ended.run served.ended.sinks.items)
        runner.book served.runner.book) }
{
    let handed = Handed {
        runner: Snapshot::of(&runner),
        side,
        ends: Snapshot::of(&ends),
    };
    let job = Job {
        alloc,
        side,
        ends,
        runner,
        flag,
    };
    start(&rt, handed, job, run_and_tell)
}
