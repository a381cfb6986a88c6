use crate::askers::{Asked, Asker, MOST_ASKERS};
use crate::callers::{Queue, close_late, take_group};
use crate::pending::{Pending, Progress, begin};
use crate::ports::{Bound, accept_all, bind};
use mio::{Events, Poll};
use rd_base::Side;
use rd_conf::Settings;
use std::alloc::Global;
use std::io;
use std::net::{Net, TcpListener, TcpStream};
use std::rt::Clock;
use std::time::Duration;

/// How long a turn waits where nobody comes, in milliseconds.
const POLL_MS: u64 = 250;

/// How many visits are connected at once.
const MOST_PENDING: usize = 64;

/// Those who wait at the ports, are being connected, or whose heads are being read.
#[derive(Drop)]
pub struct Edge {
    poll: Poll,
    events: Events,
    bound: Bound,
    pending: Vec<Pending>,
    queues: Vec<Queue>,
    askers: Vec<Asker>,
    gather: Duration,
    failures: u64,
}

/// What came to be.
#[derive(Drop)]
pub enum Came {
    /// A visit with its connections in the order of links.
    Links(Side, Vec<TcpStream>),
    Asked(Asked),
    Failed,
    Quiet,
}

/// Binds the ports of these settings.
pub fn make_edge<R: Net<Listener = TcpListener, Stream = TcpStream>>(
    rt: &R,
    alloc: Global,
    settings: &Settings,
) -> io::Result<Edge> {
    let poll = Poll::new(rt)?;
    let bound = bind(rt, alloc, &poll, &settings.ports)?;
    let mut queues = Vec::with_capacity(alloc, bound.callers.len())?;
    for _ in 0..bound.callers.len() {
        queues.push(Queue::new(alloc))?;
    }
    Ok(Edge {
        poll,
        events: Events::with_capacity(alloc, 64)?,
        bound,
        pending: Vec::new(alloc),
        queues,
        askers: Vec::new(alloc),
        gather: Duration::from_millis(settings.limits.gather_ms),
        failures: 0,
    })
}

impl Edge {
    /// Whether a visit is being connected.
    pub fn is_pending(&self) -> bool {
        !self.pending.is_empty()
    }

    /// Takes no more clients and callers.
    fn close_ports(&mut self) {
        self.bound.clients = None;
        self.bound.callers.clear();
        for queue in self.queues.iter_mut() {
            for _ in 0..u32::MAX {
                match queue.take() {
                    Some(stream) => crate::links::shut(&stream),
                    None => break,
                }
            }
        }
    }

    /// Keeps a visit that is being connected, or counts a failure.
    fn keep(&mut self, pending: Option<Pending>) {
        match pending {
            Some(pending) => match self.pending.push(pending) {
                Ok(()) => (),
                Err(refused) => {
                    refused.value.close();
                    self.failures = self.failures.saturating_add(1);
                }
            },
            None => self.failures = self.failures.saturating_add(1),
        }
    }

    fn accept_clients<R: Net + Clock>(&mut self, rt: &R, alloc: Global) {
        let mut accepted = Vec::new(alloc);
        if let Some(listener) = &self.bound.clients {
            let room = MOST_PENDING.saturating_sub(self.pending.len());
            accept_all(listener, &mut accepted, room);
        }
        for stream in accepted {
            let mut client = Vec::new(alloc);
            match client.push(stream) {
                Ok(()) => {
                    let addresses = self.bound.instances.as_slice();
                    let pending = begin(rt, alloc, &self.poll, Side::Incoming, client, addresses);
                    self.keep(pending);
                }
                Err(refused) => {
                    crate::links::shut(&refused.value);
                    self.failures = self.failures.saturating_add(1);
                }
            }
        }
    }

    fn accept_callers<R: Net + Clock>(&mut self, rt: &R, alloc: Global) {
        for (queue, listener) in self.queues.iter_mut().zip(self.bound.callers.iter()) {
            let mut accepted = Vec::new(alloc);
            accept_all(listener, &mut accepted, MOST_PENDING);
            for stream in accepted {
                queue.push(rt, stream);
            }
        }
    }

    /// Begins to connect the groups of callers that are full, and closes what waits too long for the others.
    fn group_callers<R: Net + Clock>(&mut self, rt: &R, alloc: Global) {
        for _ in 0..MOST_PENDING {
            if self.pending.len() >= MOST_PENDING {
                return;
            }
            let Some(group) = take_group(alloc, self.queues.as_mut_slice()) else {
                break;
            };
            let pending = match &self.bound.backend {
                Some(backend) => {
                    let addresses = [*backend];
                    begin(rt, alloc, &self.poll, Side::Outgoing, group, &addresses)
                }
                None => None,
            };
            self.keep(pending);
        }
        if close_late(rt, self.queues.as_mut_slice(), self.gather) {
            self.failures = self.failures.saturating_add(1);
        }
    }

    fn accept_askers<R: Clock>(&mut self, rt: &R, alloc: Global) {
        let mut accepted = Vec::new(alloc);
        if let Some(listener) = &self.bound.operator {
            let room = MOST_ASKERS.saturating_sub(self.askers.len());
            accept_all(listener, &mut accepted, room);
        }
        for stream in accepted {
            if let Some(asker) = Asker::begin(rt, alloc, &self.poll, stream) {
                if self.askers.push(asker).is_err() {
                    self.failures = self.failures.saturating_add(1);
                }
            }
        }
    }

    /// The first visit whose connections are made, or have failed.
    fn connected<R: Clock>(&mut self, rt: &R, alloc: Global) -> Option<Came> {
        for place in 0..self.pending.len() {
            match self.pending[place].progress(rt) {
                Progress::Waits => (),
                Progress::Failed => {
                    self.pending.remove(place).close();
                    return Some(Came::Failed);
                }
                Progress::Connected => {
                    let pending = self.pending.remove(place);
                    let side = pending.side;
                    return match pending.into_links(alloc, &self.poll) {
                        Some(streams) => Some(Came::Links(side, streams)),
                        None => Some(Came::Failed),
                    };
                }
            }
        }
        None
    }

    /// The first operator whose head is read, or comes too late.
    fn asked<R: Clock>(&mut self, rt: &R) -> Option<Came> {
        for place in 0..self.askers.len() {
            let is_read = self.askers[place].read_on();
            let is_late = self.askers[place].is_late(rt);
            if is_read || is_late {
                let asker = self.askers.remove(place);
                return match asker.into_asked(&self.poll, !is_read) {
                    Some(asked) => Some(Came::Asked(asked)),
                    None => Some(Came::Failed),
                };
            }
        }
        None
    }

    /// What has come to be by now.
    fn came<R: Net + Clock>(&mut self, rt: &R, alloc: Global) -> Option<Came> {
        self.accept_clients(rt, alloc);
        self.accept_callers(rt, alloc);
        self.group_callers(rt, alloc);
        self.accept_askers(rt, alloc);
        if self.failures > 0 {
            self.failures -= 1;
            return Some(Came::Failed);
        }
        match self.connected(rt, alloc) {
            Some(came) => Some(came),
            None => self.asked(rt),
        }
    }
}

/// What comes next. It waits a while where nothing has come.
pub fn next_came<R: Net + Clock>(
    rt: &R,
    alloc: Global,
    edge: &mut Edge,
    is_draining: bool,
) -> Came {
    if is_draining {
        edge.close_ports();
    }
    if let Some(came) = edge.came(rt, alloc) {
        return came;
    }
    let waited = edge
        .poll
        .poll(&mut edge.events, Some(Duration::from_millis(POLL_MS)));
    if waited.is_err() {
        return Came::Quiet;
    }
    match edge.came(rt, alloc) {
        Some(came) => came,
        None => Came::Quiet,
    }
}
