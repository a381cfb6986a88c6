ghost use Rattle.std.specs.Prelude.{◌≡◌, ◌≤◌, ◌<◌, ◌+◌, ◌||◌, [], Some, None, true, false, ℕ, IfSome, length, is_some};
ghost use Rattle.rd_base.specs.Outside.{Rose};
ghost use Rattle.rd_doors.specs.Visits.{AreFresh, IsFreshOperator, Holds, CameBack, TurnedAway, CameFromOperator, ends_told, run_told};
ghost use Rattle.rd_doors.specs.Calls.{TakesBack, AreLinksOf};

use crate::askers::Asked;
use crate::edge::{Came, Edge, make_edge, next_came};
use crate::ends::{close_all, make_ends};
use crate::flag::Flag;
use crate::links::{TcpSink, TcpSource, make_link};
use rd_base::{OperatorEnd, Side, Sink, Source};
use rd_conf::Settings;
use rd_doors::{DoorFail, Doors, Ends, Run, Visit, take_out};
use std::alloc::Global;
use std::marker::{Model, PhantomData};
use std::net::{Net, TcpListener, TcpStream};
use std::rt::Clock;

/// How long an operator's answer may wait, in milliseconds.
const ANSWER_MS: u64 = 1_000;

/// Doors over TCP. They are Over once the first flag is set. Once the second is, they take no more clients and callers,
/// and are Over as soon as nothing is out. They tell nothing of what was told.
#[derive(Drop)]
pub struct TcpDoors<
    R: Net<Listener = TcpListener, Stream = TcpStream> + Clock + Copy + Send + 'static,
    L: Drop + Send + 'static,
> {
    rt: R,
    stop: Flag,
    drain: Flag,
    edge: Option<Edge>,
    wait_ms: u64,
    out: Vec<u64>,
    is_over: bool,
    faults: u64,
    visits: u64,
    operators: u64,
    asking: u64,
    copies: Option<u8>,
    left: PhantomData<L>,
}

impl<
    R: Net<Listener = TcpListener, Stream = TcpStream> + Clock + Copy + Send + 'static,
    L: Drop + Send + 'static,
> Model for TcpDoors<R, L> {
    ghost use Rattle.std.specs.Prelude.{None};
    ghost use Rattle.rd_doors.specs.Calls.{DoorsTold};

    ghost Value = { DoorsTold L };

    ghost view = { λ d. record {
      told = None;
      out = d.out.items;
      is_over = d.is_over;
      faults = d.faults;
      visits = d.visits;
      operators = d.operators;
      asking = d.asking;
      copies = d.copies;
    } };
}

impl<
    R: Net<Listener = TcpListener, Stream = TcpStream> + Clock + Copy + Send + 'static,
    L: Drop + Send + 'static,
> TcpDoors<R, L> {
    /// Doors without ports.
    pub fn new(rt: R, alloc: Global, stop: Flag, drain: Flag) -> TcpDoors<R, L>
        ensures { result ≡ record {
          told = None;
          out = [];
          is_over = false;
          faults = 0;
          visits = 0;
          operators = 0;
          asking = 0;
          copies = None;
        } }
    {
        TcpDoors {
            rt,
            stop,
            drain,
            edge: None,
            wait_ms: 0,
            out: Vec::new(alloc),
            is_over: false,
            faults: 0,
            visits: 0,
            operators: 0,
            asking: 0,
            copies: None,
            left: PhantomData,
        }
    }
}

/// A count of faults that rose.
fn one_more(faults: u64) -> u64
    ensures rose { Rose faults result }
    ensures more { faults ≤ result }
{
    faults.saturating_add(1)
}

/// The links of a visit for so many copies. None where that fails; then all are closed.
fn make_visit<R: Clock + Copy>(
    rt: R,
    alloc: Global,
    number: u64,
    copies: u8,
    streams: Vec<TcpStream>,
    stop: &Flag,
    wait_ms: u64,
) -> Option<Ends<TcpSource, TcpSink<R>>>
    ensures number { IfSome result (λ e. e.number ≡ number) }
    ensures fresh { IfSome result (λ e. AreFresh copies
        (ends_told ⟦<TcpSource as Source>⟧.tells ⟦<TcpSink<R> as Sink>⟧.tells e)) }
{
    let Ok(ends) = make_ends(rt, alloc, number, streams, stop, wait_ms) else {
        return None;
    };
    if ends.sources.len() == usize::from(copies) + 1 {
        return Some(ends);
    }
    close_all(ends.sinks);
    None
}

/// The links of an operators' visit. None where that fails; then they are closed.
fn make_asked<R: Clock + Copy>(
    rt: R,
    alloc: Global,
    place: u64,
    asked: Asked,
    stop: &Flag,
) -> Option<(TcpSource, TcpSink<R>)>
    ensures { IfSome result (λ link. IsFreshOperator place
        (⟦<TcpSource as Source>⟧.tells link.0) (⟦<TcpSink<R> as Sink>⟧.tells link.1)) }
{
    let Asked {
        stream,
        head,
        is_late,
    } = asked;
    let Ok((source, sink)) = make_link(rt, alloc, stream, stop, 0, place, ANSWER_MS) else {
        return None;
    };
    let mut source = source;
    source.begin_with(head, is_late);
    Some((source, sink))
}

impl<
    R: Net<Listener = TcpListener, Stream = TcpStream> + Clock + Copy + Send + 'static,
    L: Drop + Send + 'static,
> Doors<L> for TcpDoors<R, L> {
    type Give = TcpSource;

    type Take = TcpSink<R>;

    ghost tells = { λ d. d };

    fn make_ports(&mut self, alloc: Global, settings: &Settings) -> Result<(), DoorFail> {
        match make_edge(&self.rt, alloc, settings) {
            Ok(edge) => {
                self.edge = Some(edge);
                self.copies = Some(settings.limits.copies);
                self.wait_ms = settings.limits.request_ms;
                Ok(())
            }
            Err(_) => {
                self.faults = one_more(self.faults);
                Err(DoorFail::Failed)
            }
        }
    }

    fn next_visit(&mut self, alloc: Global) -> Visit<TcpSource, TcpSink<R>> {
        let is_draining = self.drain.is_set();
        let is_idle = is_draining && self.out.is_empty();
        let Some(copies) = self.copies else {
            return Visit::NoMemory;
        };
        let came = match &mut self.edge {
            Some(edge) => {
                if self.stop.is_set() || (is_idle && !edge.is_pending()) {
                    self.is_over = true;
                    return Visit::Over;
                }
                next_came(&self.rt, alloc, edge, is_draining)
            }
            None => Came::Failed,
        };
        match came {
            Came::Quiet => Visit::Quiet,
            Came::Failed => {
                self.faults = one_more(self.faults);
                Visit::Failed
            }
            Came::Links(side, streams) => {
                let number = self.visits.saturating_add(1);
                let made = make_visit(
                    self.rt,
                    alloc,
                    number,
                    copies,
                    streams,
                    &self.stop,
                    self.wait_ms,
                );
                let Some(ends) = made else {
                    self.faults = one_more(self.faults);
                    return Visit::Failed;
                };
                if number == self.visits {
                    close_all(ends.sinks);
                    self.faults = one_more(self.faults);
                    return Visit::Failed;
                }
                match (self.out.push(number), side) {
                    (Ok(()), Side::Incoming) => {
                        self.visits = number;
                        Visit::Client(ends)
                    }
                    (Ok(()), Side::Outgoing) => {
                        self.visits = number;
                        Visit::Callers(ends)
                    }
                    (Err(_), _) => {
                        close_all(ends.sinks);
                        self.faults = one_more(self.faults);
                        Visit::Failed
                    }
                }
            }
            Came::Asked(asked) => {
                let place = self.operators.saturating_add(1);
                let made = make_asked(self.rt, alloc, place, asked, &self.stop);
                let Some((source, sink)) = made else {
                    self.faults = one_more(self.faults);
                    return Visit::Failed;
                };
                if place == self.operators || self.asking == u64::MAX {
                    let mut sink = sink;
                    sink.close();
                    self.faults = one_more(self.faults);
                    return Visit::Failed;
                }
                self.operators = place;
                self.asking += 1;
                Visit::Operator(source, sink)
            }
        }
    }

    fn give_back(&mut self, number: u64, run: Run<TcpSource, L>, sinks: Vec<TcpSink<R>>)
        requires out { Holds number self.old.out }
        requires links { AreLinksOf
            ⟦<TcpSource as Source>⟧.tells ⟦<TcpSink<R> as Sink>⟧.tells number
            run.sources.items sinks.items self.old }
        ensures { TakesBack (CameBack (run_told ⟦<TcpSource as Source>⟧.tells
            ⟦<TcpSink<R> as Sink>⟧.tells number run sinks.items)) self.old self.new }
    {
        let _ = run;
        close_all(sinks);
        take_out(&mut self.out, number);
    }

    fn turn_away(&mut self, ends: Ends<TcpSource, TcpSink<R>>)
        requires out { Holds ends.number self.old.out }
        requires full { length self.old.out ≡ 33 }
        requires fresh { (copies : ℕ) → self.old.copies ≡ Some copies → AreFresh copies
            (ends_told ⟦<TcpSource as Source>⟧.tells ⟦<TcpSink<R> as Sink>⟧.tells ends) }
        ensures { TakesBack (TurnedAway (ends_told ⟦<TcpSource as Source>⟧.tells
            ⟦<TcpSink<R> as Sink>⟧.tells ends)) self.old self.new }
    {
        let number = ends.number;
        close_all(ends.sinks);
        take_out(&mut self.out, number);
    }

    fn operator_back(&mut self, source: TcpSource, sink: TcpSink<R>, end: OperatorEnd) {
        let _ = source;
        let _ = end;
        let mut sink = sink;
        sink.close();
        self.asking -= 1;
    }
}
