ghost use Rattle.std.specs.Prelude.{◌≡◌, ◌≢◌, ◌≤◌, ◌+◌, None, false, true, IfOk, length};
ghost use Rattle.rd_base.specs.Sources.{Gives, IsGive};
ghost use Rattle.rd_base.specs.Outside.{Writes, Closes};

use crate::flag::Flag;
use rd_base::{Bytes, Failed, Give, NoMemory, Sink, Source};
use std::alloc::Global;
use std::io;
use std::io::{ErrorKind, Read, Write};
use std::net::{Shutdown, TcpStream};
use std::rt::Clock;
use std::sync::Arc;
use std::time::{Duration, Instant};

/// How many bytes are read at once.
const PIECE: usize = 16_384;

/// How long a write waits before it looks at the flag that stops, in milliseconds.
const LOOK_MS: u64 = 100;

/// What a connection reads. It tells nothing of what it read.
#[derive(Drop)]
pub struct TcpSource {
    stream: Arc<TcpStream, Global>,
    first: u64,
    second: u64,
    faults: u64,
    head: Bytes,
    is_late: bool,
}

/// What is written to a connection. It tells nothing of what was written.
#[derive(Drop)]
pub struct TcpSink<R: Clock + Copy> {
    rt: R,
    stream: Arc<TcpStream, Global>,
    stop: Flag,
    first: u64,
    second: u64,
    faults: u64,
    is_closed: bool,
    wait_ms: u64,
}

/// A source and a sink over one connection, of this mark. A push waits for its peer so many milliseconds and one more
/// for each 100 bytes, and not past the flag.
pub fn make_link<R: Clock + Copy>(
    rt: R,
    alloc: Global,
    stream: TcpStream,
    stop: &Flag,
    first: u64,
    second: u64,
    wait_ms: u64,
) -> Result<(TcpSource, TcpSink<R>), NoMemory>
    ensures source { IfOk result (λ link. (link.0.first ≡ first) × (link.0.second ≡ second)) }
    ensures sink { IfOk result (λ link. (link.1.first ≡ first) × (link.1.second ≡ second)) }
    ensures is_open { IfOk result (λ link. link.1.is_closed ≡ false) }
{
    let stream = match Arc::new(alloc, stream) {
        Ok(stream) => stream,
        Err(_) => return Err(NoMemory),
    };
    let Ok(theirs) = Arc::try_clone(&stream) else {
        return Err(NoMemory);
    };
    let source = TcpSource {
        stream,
        first,
        second,
        faults: 0,
        head: Bytes::new(alloc),
        is_late: false,
    };
    let sink = TcpSink {
        rt,
        stream: theirs,
        stop: stop.share(),
        first,
        second,
        faults: 0,
        is_closed: false,
        wait_ms,
    };
    Ok((source, sink))
}

/// Readies a connection for a link: blocking, without delay, with a look at the flag while a write waits.
pub fn ready(stream: &TcpStream) -> io::Result<()> {
    stream.set_nonblocking(false)?;
    stream.set_nodelay(true)?;
    stream.set_write_timeout(Some(Duration::from_millis(LOOK_MS)))
}

/// Ends a connection both ways. It may have ended before.
pub fn shut(stream: &TcpStream) {
    let _ended = stream.shutdown(Shutdown::Both);
}

impl TcpSource {
    /// Gives these bytes, which were read before, ahead of what is read. A late one fails behind them.
    pub fn begin_with(&mut self, head: Bytes, is_late: bool)
        ensures first { self.new.first ≡ self.old.first }
        ensures second { self.new.second ≡ self.old.second }
        ensures faults { self.new.faults ≡ self.old.faults }
    {
        self.head = head;
        self.is_late = is_late;
    }
}

/// The first bytes of these, and cuts them off.
fn take_front(alloc: Global, head: &mut Bytes, most: usize) -> Give
    requires { 16384 ≤ most }
    ensures piece { IsGive most result }
    ensures read { result ≢ Give.Failed }
{
    let count = head.len().min(PIECE);
    if count == 0 {
        return Give::End;
    }
    match Bytes::from_slice(alloc, &head.as_slice()[..count]) {
        Ok(bytes) => {
            head.cut_front(count);
            Give::Piece(bytes)
        }
        Err(NoMemory) => Give::NoMemory,
    }
}

/// Reads once.
fn read_piece(alloc: Global, stream: &TcpStream) -> Give
    ensures { IsGive 16384 result }
{
    let mut buffer = [0u8; PIECE];
    let mut stream: &TcpStream = stream;
    'reads: for _ in 0..u64::MAX {
        match stream.read(&mut buffer) {
            Ok(0) => return Give::End,
            Ok(count) => {
                return match Bytes::from_slice(alloc, &buffer[..count]) {
                    Ok(bytes) => Give::Piece(bytes),
                    Err(NoMemory) => Give::NoMemory,
                };
            }
            Err(error) if error.kind() == ErrorKind::Interrupted => (),
            Err(_) => return Give::Failed,
        }
    }
    Give::Failed
}

impl Source for TcpSource {
    ghost use Rattle.std.specs.Prelude.{None};

    ghost tells = { λ s. record { mark = record { first = s.first; second = s.second }; faults = s.faults; given = None } };

    fn give(&mut self, alloc: Global, most: usize) -> Give {
        if self.head.len() > 0 {
            return take_front(alloc, &mut self.head, most);
        }
        let give = if self.is_late {
            Give::Failed
        } else {
            read_piece(alloc, &self.stream)
        };
        if let Give::Failed = &give {
            self.faults = self.faults.saturating_add(1);
        }
        give
    }
}

/// Whether a write may go on: the flag isn't set, and less time than this has gone since the first wait.
fn may_wait<R: Clock + Copy>(
    rt: R,
    stop: &Flag,
    since: &mut Option<Instant>,
    most: Duration,
) -> bool {
    if stop.is_set() {
        return false;
    }
    match *since {
        Some(first) => match first.elapsed(&rt) {
            Ok(elapsed) => elapsed < most,
            Err(_) => false,
        },
        None => match Instant::now(&rt) {
            Ok(now) => {
                *since = Some(now);
                true
            }
            Err(_) => false,
        },
    }
}

/// Writes all these bytes, and says whether that went well. One limit holds for all of them.
fn write_whole<R: Clock + Copy>(
    rt: R,
    stream: &TcpStream,
    stop: &Flag,
    most: Duration,
    bytes: &[u8],
) -> bool {
    let mut stream: &TcpStream = stream;
    let mut since = None;
    let mut rest = bytes;
    for _ in 0..u64::MAX {
        if rest.is_empty() {
            return true;
        }
        match stream.write(rest) {
            Ok(0) => return false,
            Ok(count) => rest = &rest[count..],
            Err(error) if is_wait(error.kind()) => (),
            Err(_) => return false,
        }
        if !rest.is_empty() && !may_wait(rt, stop, &mut since, most) {
            return false;
        }
    }
    false
}

/// Whether a call may be tried again.
pub fn is_wait(kind: ErrorKind) -> bool {
    kind == ErrorKind::Interrupted || kind == ErrorKind::WouldBlock || kind == ErrorKind::TimedOut
}

impl<R: Clock + Copy> TcpSink<R> {
    pub fn is_closed(&self) -> bool
        ensures { result ≡ self.now.is_closed }
    {
        self.is_closed
    }
}

impl<R: Clock + Copy> Sink for TcpSink<R> {
    ghost use Rattle.std.specs.Prelude.{None};

    ghost tells = { λ k. record { mark = record { first = k.first; second = k.second }; faults = k.faults; held = None; is_closed = k.is_closed } };

    fn push(&mut self, bytes: &[u8]) -> Result<(), Failed> {
        let most = Duration::from_millis(self.wait_ms.saturating_add(bytes.len() as u64 / 100));
        if write_whole(self.rt, &self.stream, &self.stop, most, bytes) {
            Ok(())
        } else {
            self.faults = self.faults.saturating_add(1);
            Err(Failed)
        }
    }

    fn close(&mut self) {
        self.is_closed = true;
        shut(&self.stream);
    }
}
