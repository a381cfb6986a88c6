use crate::links::{ready, shut};
use mio::{Interest, Poll, Token};
use rd_base::Bytes;
use std::alloc::Global;
use std::io;
use std::io::{ErrorKind, Read};
use std::net::TcpStream;
use std::rt::Clock;
use std::time::{Duration, Instant};

/// How many operators' heads are read at once.
pub const MOST_ASKERS: usize = 8;

/// How long a head may take, in milliseconds.
const HEAD_MS: u64 = 2_000;

/// One byte more than a head may have.
const HEAD_BYTES: usize = 65_537;

/// How long an answer may wait for a read, in milliseconds.
const READ_MS: u64 = 1_000;

/// An operator whose head is being read, without waiting.
#[derive(Drop)]
pub struct Asker {
    stream: mio::net::TcpStream,
    head: Bytes,
    began: Instant,
}

/// An operator's connection, with what was read of its head, and whether that came too late.
#[derive(Drop)]
pub struct Asked {
    pub stream: TcpStream,
    pub head: Bytes,
    pub is_late: bool,
}

/// Whether the bytes have an empty line that ends at or past this place.
fn has_empty_line(bytes: &[u8], from: usize) -> bool {
    for place in from..bytes.len() {
        if bytes[place] == b'\n' && ends_line(&bytes[..place]) {
            return true;
        }
    }
    false
}

/// Whether a line feed behind these bytes ends an empty line.
fn ends_line(before: &[u8]) -> bool {
    before.ends_with(b"\n") || before.ends_with(b"\n\r")
}

impl Asker {
    /// One that has come now. None where that can't be seen; then it is closed.
    pub fn begin<R: Clock>(rt: &R, alloc: Global, poll: &Poll, stream: TcpStream) -> Option<Asker> {
        let Ok(began) = Instant::now(rt) else {
            shut(&stream);
            return None;
        };
        if stream.set_nonblocking(true).is_err() {
            shut(&stream);
            return None;
        }
        let mut stream = mio::net::TcpStream::from_std(stream);
        if poll
            .registry()
            .register(&mut stream, Token(0), Interest::READABLE)
            .is_err()
        {
            let _ended = stream.shutdown(std::net::Shutdown::Both);
            return None;
        }
        Some(Asker {
            stream,
            head: Bytes::new(alloc),
            began,
        })
    }

    /// Reads what is there, and says whether the head is read: whole, too long, ended, or failed.
    pub fn read_on(&mut self) -> bool {
        let mut buffer = [0u8; 4_096];
        for _ in 0..HEAD_BYTES {
            let before = self.head.len();
            match self.stream.read(&mut buffer) {
                Ok(0) => return true,
                Ok(count) => {
                    if self.head.push_slice(&buffer[..count]).is_err() {
                        return true;
                    }
                }
                Err(error) if error.kind() == ErrorKind::Interrupted => (),
                Err(error) => return error.kind() != ErrorKind::WouldBlock,
            }
            if self.head.len() >= HEAD_BYTES || has_empty_line(self.head.as_slice(), before) {
                return true;
            }
        }
        true
    }

    pub fn is_late<R: Clock>(&self, rt: &R) -> bool {
        match self.began.elapsed(rt) {
            Ok(elapsed) => elapsed > Duration::from_millis(HEAD_MS),
            Err(_) => true,
        }
    }

    /// The connection as it is answered. None where it can't be readied; then it is closed.
    pub fn into_asked(self, poll: &Poll, is_late: bool) -> Option<Asked> {
        let Asker {
            mut stream,
            head,
            began: _,
        } = self;
        let freed = poll.registry().deregister(&mut stream);
        let stream = TcpStream::from(stream);
        match (freed, ready_to_answer(&stream)) {
            (Ok(()), Ok(())) => Some(Asked {
                stream,
                head,
                is_late,
            }),
            _ => {
                shut(&stream);
                None
            }
        }
    }
}

fn ready_to_answer(stream: &TcpStream) -> io::Result<()> {
    ready(stream)?;
    stream.set_read_timeout(Some(Duration::from_millis(READ_MS)))
}
