use crate::links::{ready, shut};
use mio::{Interest, Poll, Token};
use rd_base::Side;
use std::alloc::Global;
use std::io;
use std::net::{Net, SocketAddr, TcpStream};
use std::rt::Clock;
use std::time::{Duration, Instant};

/// How long all connections of a visit may take, in milliseconds.
const CONNECT_MS: u64 = 2_000;

/// A visit whose connections are being made: of a client to all instances, of a group of callers to the backend.
#[derive(Drop)]
pub struct Pending {
    pub side: Side,
    accepted: Vec<TcpStream>,
    links: Vec<mio::net::TcpStream>,
    began: Instant,
}

/// How far the connections of a visit are.
#[derive(Clone, Copy, Debug, PartialEq, Eq)]
pub enum Progress {
    Waits,
    Connected,
    Failed,
}

/// Ends these connections.
pub fn shut_all(streams: &[TcpStream]) {
    for stream in streams {
        shut(stream);
    }
}

fn connect_all<R: Net>(
    rt: &R,
    poll: &Poll,
    links: &mut Vec<mio::net::TcpStream>,
    addresses: &[SocketAddr],
) -> io::Result<()> {
    for address in addresses {
        let mut link = mio::net::TcpStream::connect(rt, *address)?;
        poll.registry()
            .register(&mut link, Token(0), Interest::WRITABLE)?;
        links.push(link)?;
    }
    Ok(())
}

/// Begins to connect all addresses, side by side. None where that fails at once; then the accepted are closed.
pub fn begin<R: Net + Clock>(
    rt: &R,
    alloc: Global,
    poll: &Poll,
    side: Side,
    accepted: Vec<TcpStream>,
    addresses: &[SocketAddr],
) -> Option<Pending> {
    let mut links = Vec::new(alloc);
    let began = Instant::now(rt);
    match (connect_all(rt, poll, &mut links, addresses), began) {
        (Ok(()), Ok(began)) => Some(Pending {
            side,
            accepted,
            links,
            began,
        }),
        _ => {
            shut_all(accepted.as_slice());
            None
        }
    }
}

impl Pending {
    /// How far the connections are. One that has failed is seen once, so the first answer counts.
    pub fn progress<R: Clock>(&self, rt: &R) -> Progress {
        let is_late = match self.began.elapsed(rt) {
            Ok(elapsed) => elapsed > Duration::from_millis(CONNECT_MS),
            Err(_) => true,
        };
        let mut progress = Progress::Connected;
        for link in self.links.as_slice() {
            match link.take_error() {
                Ok(None) => (),
                _ => return Progress::Failed,
            }
            if link.peer_addr().is_err() {
                progress = Progress::Waits;
            }
        }
        if is_late && progress == Progress::Waits {
            return Progress::Failed;
        }
        progress
    }

    /// Ends all its connections.
    pub fn close(self) {
        shut_all(self.accepted.as_slice());
        for link in self.links.as_slice() {
            let _ended = link.shutdown(std::net::Shutdown::Both);
        }
    }

    /// Its connections in the order of links, readied. None where one can't be; then all are closed.
    pub fn into_links(self, alloc: Global, poll: &Poll) -> Option<Vec<TcpStream>> {
        let Pending {
            side,
            accepted,
            links,
            began: _,
        } = self;
        let mut made = Vec::new(alloc);
        let mut is_whole = take_links(poll, links, &mut made);
        let mut streams = Vec::new(alloc);
        is_whole &= match side {
            Side::Incoming => append(&mut streams, made) && append(&mut streams, accepted),
            Side::Outgoing => append(&mut streams, accepted) && append(&mut streams, made),
        };
        for stream in streams.as_slice() {
            is_whole &= ready(stream).is_ok();
        }
        if is_whole {
            return Some(streams);
        }
        shut_all(streams.as_slice());
        None
    }
}

/// Turns these into streams of their own, and says whether all could be.
fn take_links(poll: &Poll, links: Vec<mio::net::TcpStream>, made: &mut Vec<TcpStream>) -> bool {
    let mut is_whole = true;
    for link in links {
        let mut link = link;
        is_whole &= poll.registry().deregister(&mut link).is_ok();
        is_whole &= made.push(TcpStream::from(link)).is_ok();
    }
    is_whole
}

/// Appends these, and says whether all found room.
fn append(streams: &mut Vec<TcpStream>, more: Vec<TcpStream>) -> bool {
    let mut is_whole = true;
    for stream in more {
        is_whole &= streams.push(stream).is_ok();
    }
    is_whole
}
