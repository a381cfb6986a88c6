use crate::links::{is_wait, shut};
use std::alloc::Global;
use std::net::TcpStream;
use std::rt::Clock;
use std::time::{Duration, Instant};

/// A caller that waits for those at the other ports.
#[derive(Drop)]
pub struct Waiting {
    stream: TcpStream,
    since: Instant,
}

/// Those who wait at one port, the first that came first.
#[derive(Drop)]
pub struct Queue {
    waiting: Vec<Waiting>,
}

/// Whether the peer has ended the connection, seen without waiting.
fn is_gone(stream: &TcpStream) -> bool {
    let mut byte = [0u8; 1];
    if stream.set_nonblocking(true).is_err() {
        return true;
    }
    match stream.peek(&mut byte) {
        Ok(count) => count == 0,
        Err(error) => !is_wait(error.kind()),
    }
}

impl Queue {
    pub fn new(alloc: Global) -> Queue {
        Queue {
            waiting: Vec::new(alloc),
        }
    }

    /// Adds one that has come now. One that finds no room is closed.
    pub fn push<R: Clock>(&mut self, rt: &R, stream: TcpStream) {
        match Instant::now(rt) {
            Ok(since) => match self.waiting.push(Waiting { stream, since }) {
                Ok(()) => (),
                Err(refused) => shut(&refused.value.stream),
            },
            Err(_) => shut(&stream),
        }
    }

    /// Drops those at the front who have gone.
    pub fn drop_gone(&mut self) {
        for _ in 0..self.waiting.len() {
            let Some(first) = self.waiting.first() else {
                return;
            };
            if !is_gone(&first.stream) {
                return;
            }
            let gone = self.waiting.remove(0);
            shut(&gone.stream);
        }
    }

    pub fn is_empty(&self) -> bool {
        self.waiting.is_empty()
    }

    /// Whether the first has waited longer than this.
    pub fn is_late<R: Clock>(&self, rt: &R, most: Duration) -> bool {
        match self.waiting.first() {
            None => false,
            Some(first) => match first.since.elapsed(rt) {
                Ok(elapsed) => elapsed > most,
                Err(_) => true,
            },
        }
    }

    /// Takes the first.
    pub fn take(&mut self) -> Option<TcpStream> {
        if self.waiting.is_empty() {
            return None;
        }
        let first = self.waiting.remove(0);
        Some(first.stream)
    }
}

/// The first of each queue, where each has one.
pub fn take_group(alloc: Global, queues: &mut [Queue]) -> Option<Vec<TcpStream>> {
    for queue in queues.iter_mut() {
        queue.drop_gone();
    }
    if queues.is_empty() || queues.iter().any(|queue| queue.is_empty()) {
        return None;
    }
    let mut group = Vec::with_capacity(alloc, queues.len()).ok()?;
    for queue in queues.iter_mut() {
        if let Some(stream) = queue.take() {
            if let Err(refused) = group.push(stream) {
                shut(&refused.value);
            }
        }
    }
    Some(group)
}

/// Closes the first of each queue where a group isn't full in time, and says whether one was closed.
pub fn close_late<R: Clock>(rt: &R, queues: &mut [Queue], most: Duration) -> bool {
    let is_late = queues.iter().any(|queue| queue.is_late(rt, most));
    if is_late {
        for queue in queues.iter_mut() {
            if let Some(stream) = queue.take() {
                shut(&stream);
            }
        }
    }
    is_late
}
