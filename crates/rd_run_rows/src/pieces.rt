use crate::links::{Script, Trouble, long_links};
use crate::runs::{
    Outcome, call_scripts, is_answered, request_scripts, run_links, run_one, run_scripts,
};
use rd_base::{Ending, Link, NoMemory, Side};
use rd_token_map::NoBook;
use std::alloc::Global;
use std::rt::HostRuntime;
use std::sync::Wait;
use std::test::Fail;
use std::thread::Threads;

/// Whether a session of pieces of the greatest size sends each link all of them.
fn is_long_answered<R: Wait + Threads + Copy + Send + Sync + 'static>(
    rt: R,
    alloc: Global,
) -> Result<bool, NoMemory> {
    let (sources, mut sinks) = long_links(rt, alloc)?;
    let run = run_links(
        rt,
        alloc,
        Side::Incoming,
        sources,
        &mut sinks,
        Trouble::None,
        &mut NoBook,
    )?;
    let is_over = matches!(run.report.ending, Ending::Done | Ending::Closed { .. });
    let mut is_sent = sinks.len() == 4;
    for (link, sink) in sinks.iter().enumerate() {
        let bytes = if link == 3 { 16_384 } else { 32_768 };
        is_sent = is_sent && sink.as_slice().len() == bytes && sink.is_closed();
    }
    Ok(is_over && is_sent && run.report.exchanges == 1)
}

/// A request where the source of this link ends in the midst of its unit.
fn run_cut<R: Wait + Threads + Copy + Send + Sync + 'static>(
    rt: R,
    alloc: Global,
    link: usize,
) -> Result<Outcome, NoMemory> {
    let mut scripts = request_scripts();
    if link < 3 {
        scripts[link] = (&[b"ok"], &[6, 6]);
    } else {
        scripts[3] = (&[b"get"], &[0, 0]);
    }
    let texts: [&[u8]; 4] = [b"get a\n", b"get a\n", b"get a\n", b""];
    run_scripts(
        rt,
        alloc,
        Side::Incoming,
        scripts,
        texts,
        Trouble::None,
        &mut NoBook,
    )
}

/// Three callers in these pieces.
fn run_calls<R: Wait + Threads + Copy + Send + Sync + 'static>(
    rt: R,
    alloc: Global,
    callers: [Script; 3],
) -> Result<Outcome, NoMemory> {
    let texts: [&[u8]; 4] = [b"r\n", b"r\n", b"r\n", b"q 1\n"];
    let scripts = call_scripts(callers);
    run_scripts(
        rt,
        alloc,
        Side::Outgoing,
        scripts,
        texts,
        Trouble::None,
        &mut NoBook,
    )
}

/// Nothing goes wrong, on either side.
#[test]
fn one_exchange(rt: HostRuntime) -> Result<(), Fail> {
    for side in [Side::Incoming, Side::Outgoing] {
        let run = run_one(rt, rt.alloc(), side, Trouble::None)?;
        assert!(rt; is_answered(side, &run));
    }
    Ok(())
}

/// Three callers that make the same call in pieces are one caller to the backend, and each gets its reply.
#[test]
fn merged_calls(rt: HostRuntime) -> Result<(), Fail> {
    let bytes: Script = (&[b"q", b" ", b"1", b"\n"], &[0, 0, 0, 0, 2]);
    let whole: Script = (&[b"q 1\n"], &[0, 2]);
    let last: Script = (&[b"q 1", b"\n"], &[0, 0, 2]);
    for callers in [
        [bytes, bytes, bytes],
        [bytes, whole, bytes],
        [last, bytes, bytes],
        [last, whole, whole],
    ] {
        let run = run_calls(rt, rt.alloc(), callers)?;
        assert!(rt; is_answered(Side::Outgoing, &run));
    }
    Ok(())
}

#[test]
fn pieces_of_the_greatest_size(rt: HostRuntime) -> Result<(), Fail> {
    assert!(rt; is_long_answered(rt, rt.alloc())?);
    Ok(())
}

/// An instance's end in the midst of its reply, and the client's in the midst of its request.
#[test]
fn ends_in_the_midst_of_a_unit(rt: HostRuntime) -> Result<(), Fail> {
    for link in 0..4u8 {
        let run = run_cut(rt, rt.alloc(), usize::from(link))?;
        assert_eq!(rt; run.ending, Ending::Broken { link: Link(link) });
        assert_eq!(rt; run.held[0], if link < 3 { 6 } else { 0 });
        assert!(rt; run.exchanges == 0 && run.whole);
    }
    Ok(())
}
