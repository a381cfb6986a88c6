use mio::net::TcpListener;
use mio::{Interest, Poll, Token};
use rd_base::Words;
use rd_conf::Ports;
use std::alloc::Global;
use std::io;
use std::io::ErrorKind;
use std::net::{Net, SocketAddr, TcpStream, ToSocketAddrs};

/// How many are accepted at one port in one turn.
const AT_ONCE: usize = 64;

/// The ports that are listened at, and the addresses of those who are called.
#[derive(Drop)]
pub struct Bound {
    pub clients: Option<TcpListener>,
    pub callers: Vec<TcpListener>,
    pub operator: Option<TcpListener>,
    pub instances: Vec<SocketAddr>,
    pub backend: Option<SocketAddr>,
}

/// The first address that a text stands for.
fn resolve<R: Net>(rt: &R, text: &[u8]) -> io::Result<SocketAddr> {
    let Ok(name) = std::str::from_utf8(text) else {
        return Err(io::Error::from(ErrorKind::InvalidInput));
    };
    let mut addresses = name.to_socket_addrs(rt)?;
    match addresses.next() {
        Some(address) => Ok(address),
        None => Err(io::Error::from(ErrorKind::NotFound)),
    }
}

fn listen<R: Net<Listener = std::net::TcpListener, Stream = TcpStream>>(
    rt: &R,
    poll: &Poll,
    text: &[u8],
) -> io::Result<TcpListener> {
    let address = resolve(rt, text)?;
    let listener = std::net::TcpListener::bind(rt, address)?;
    listener.set_nonblocking(true)?;
    let mut listener = TcpListener::from_std(listener);
    poll.registry()
        .register(&mut listener, Token(0), Interest::READABLE)?;
    Ok(listener)
}

fn resolve_all<R: Net>(rt: &R, alloc: Global, texts: &Words) -> io::Result<Vec<SocketAddr>> {
    let mut addresses = Vec::new(alloc);
    for place in 0..texts.len() {
        addresses.push(resolve(rt, texts.at(place))?)?;
    }
    Ok(addresses)
}

fn listen_all<R: Net<Listener = std::net::TcpListener, Stream = TcpStream>>(
    rt: &R,
    alloc: Global,
    poll: &Poll,
    texts: &Words,
) -> io::Result<Vec<TcpListener>> {
    let mut listeners = Vec::new(alloc);
    for place in 0..texts.len() {
        listeners.push(listen(rt, poll, texts.at(place))?)?;
    }
    Ok(listeners)
}

/// Binds the ports and resolves the addresses of these settings. A text that is empty stands for nothing.
pub fn bind<R: Net<Listener = std::net::TcpListener, Stream = TcpStream>>(
    rt: &R,
    alloc: Global,
    poll: &Poll,
    ports: &Ports,
) -> io::Result<Bound> {
    let instances = resolve_all(rt, alloc, &ports.instances)?;
    let backend = match ports.backend.len() {
        0 => None,
        _ => Some(resolve(rt, ports.backend.as_slice())?),
    };
    let clients = match ports.listen.len() {
        0 => None,
        _ => Some(listen(rt, poll, ports.listen.as_slice())?),
    };
    let callers = listen_all(rt, alloc, poll, &ports.callers)?;
    let operator = match ports.operator.len() {
        0 => None,
        _ => Some(listen(rt, poll, ports.operator.as_slice())?),
    };
    Ok(Bound {
        clients,
        callers,
        operator,
        instances,
        backend,
    })
}

/// Accepts those who wait at a port, as far as there is room. A failed accept is as if nobody waited.
pub fn accept_all(listener: &TcpListener, accepted: &mut Vec<TcpStream>, most: usize) {
    for _ in 0..AT_ONCE {
        if accepted.len() >= most {
            return;
        }
        let Ok((stream, _)) = listener.accept() else {
            return;
        };
        if accepted.push(TcpStream::from(stream)).is_err() {
            return;
        }
    }
}
