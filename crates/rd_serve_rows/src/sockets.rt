ghost use Rattle.std.specs.Prelude.{IfOk};
ghost use Rattle.rd_base.specs.Limits.{AreLimits};

use crate::tests::{has_notes, runner_of};
use rd_base::{Bytes, MemClock, Words};
use rd_conf::{Settings, default_settings};
use rd_desk::Desk;
use rd_doors::Doors;
use rd_keeper::MemKeeper;
use rd_net_edge::{Flag, TcpDoors};
use rd_serve::serve;
use rd_token_map::NoBook;
use std::alloc::Global;
use std::io::{Read, Write};
use std::net::{Ipv4Addr, SocketAddr, TcpListener, TcpStream};
use std::test::Fail;
use std::{io, thread};

fn listen(rt: &HostRuntime) -> io::Result<TcpListener> {
    TcpListener::bind(rt, SocketAddr::from((Ipv4Addr::LOCALHOST, 0)))
}

/// Where it listens, as settings name it.
fn name_of(alloc: Global, listener: &TcpListener) -> Result<Bytes, Fail> {
    let text = format!(in alloc; "127.0.0.1:{}", listener.local_addr()?.port())?;
    Ok(Bytes::from_slice(alloc, text.as_bytes())?)
}

/// Whether the next five bytes that are read are these.
fn reads(stream: &mut TcpStream, wanted: &[u8]) -> io::Result<bool> {
    let mut bytes = [0u8; 5];
    stream.read_exact(&mut bytes)?;
    Ok(bytes.as_slice() == wanted)
}

/// A client asks, each instance is asked so and answers, and the client is answered. It leaves, and the instances' links
/// end.
fn ask_and_answer(
    rt: HostRuntime,
    front: SocketAddr,
    instances: &[TcpListener],
) -> io::Result<bool> {
    let mut client = TcpStream::connect(&rt, front)?;
    client.write_all(b"ask1\n")?;
    let mut called = Vec::new(rt.alloc());
    let mut all = true;
    for instance in instances {
        let (mut stream, _) = instance.accept()?;
        all = reads(&mut stream, b"ask1\n")? && all;
        stream.write_all(b"ok 1\n")?;
        called.push(stream)?;
    }
    all = reads(&mut client, b"ok 1\n")? && all;
    drop(client);
    for mut stream in called {
        all = stream.read(&mut [0u8; 5])? == 0 && all;
    }
    Ok(all)
}

/// Settings of these instances, and of a port for clients that was free just now.
fn settings_for(
    rt: &HostRuntime,
    alloc: Global,
    instances: &[TcpListener],
) -> Result<(Settings, SocketAddr), Fail>
    ensures { IfOk result (λ s. AreLimits s.0.limits) }
{
    let front = listen(rt)?;
    let mut settings = default_settings(alloc)?;
    let mut names = Words::new(alloc);
    for instance in instances {
        names.push(name_of(alloc, instance)?.as_slice())?;
    }
    settings.ports.instances = names;
    settings.ports.listen = name_of(alloc, &front)?;
    Ok((settings, front.local_addr()?))
}

/// A client over real connections, by a port on this machine, before three instances.
#[test]
fn client_over_sockets(rt: HostRuntime) -> Result<(), Fail> {
    let alloc = rt.alloc();
    let mut instances = Vec::new(alloc);
    for _copy in 0..3 {
        instances.push(listen(&rt)?)?;
    }
    let (settings, front) = settings_for(&rt, alloc, instances.as_slice())?;
    let stop = Flag::new(alloc)?;
    let mut doors = TcpDoors::new(rt, alloc, stop.share(), Flag::new(alloc)?);
    assert!(rt; doors.make_ports(alloc, &settings).is_ok());
    let asking = thread::spawn(&rt, move || {
        let asked = ask_and_answer(rt, front, instances.as_slice());
        stop.set();
        matches!(asked, Ok(true))
    })?;
    let mut runner = runner_of(rt, alloc, settings, NoBook);
    let mut keeper = MemKeeper::new(alloc, Vec::new(alloc));
    let mut clock = MemClock::new(alloc, Vec::new(alloc));
    let Ok(desk) = Desk::open(alloc, &mut keeper) else {
        panic!(rt; "no desk");
    };
    let served = serve(
        rt,
        alloc,
        &mut doors,
        &mut runner,
        desk,
        &mut clock,
        &mut keeper,
    );
    assert!(rt; asking.join(&rt));
    assert!(rt; served.is_ok());
    assert!(rt; has_notes(&mut keeper, 1));
    Ok(())
}
