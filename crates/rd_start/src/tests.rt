ghost use Rattle.std.specs.Prelude.{◌≡◌, ◌≤◌, ◌+◌, [], All, IfOk, vec_len, vec_capacity};
ghost use Rattle.rd_base.specs.MemSource.{IsPiece};

use crate::{
    MemSpawner, NotStarted, Reading, Spawner, ThreadSpawner, join_all, start_all, take_back,
};
use rd_base::{Bytes, Give, Link, MemSource, NoMemory, Source};
use rd_gate::{Item, OwnerPass, make_gate};
use std::alloc::Global;
use std::rt::HostRuntime;
use std::sync::Wait;
use std::test::Fail;
use std::thread::Threads;
use std::time::Duration;

/// A source of 100 pieces of one byte, its link's digit.
fn source_of(alloc: Global, link: u8) -> Result<MemSource, NoMemory> {
    MemSource::new(
        alloc,
        1,
        u64::from(link),
        pieces(alloc, link)?,
        Vec::new(alloc),
    )
}

fn pieces(alloc: Global, link: u8) -> Result<Vec<Bytes>, NoMemory>
    ensures { IfOk result (λ v. All IsPiece v.items) }
{
    let mut pieces = Vec::new(alloc);
    for _count in 0..100u8 {
        let piece = Bytes::from_slice(alloc, &[b'0'.saturating_add(link)])?;
        pieces.push(piece)?;
    }
    Ok(pieces)
}

fn sources(alloc: Global) -> Result<Vec<MemSource>, NoMemory>
    ensures { IfOk result (λ v. vec_len v ≡ 4) }
{
    let mut sources = Vec::new(alloc);
    for link in 0..4u8 {
        sources.push(source_of(alloc, link)?)?;
    }
    Ok(sources)
}

/// How many pieces each link gave, until so many readers have ended.
fn drain<R: Wait + Copy>(owner: &mut OwnerPass<R>, readers: usize) -> [u32; 4]
    ensures { owner.new.gate ≡ owner.old.gate }
{
    let mut counts = [0u32; 4];
    for _ in 0..u64::MAX {
        match owner.take() {
            Some((Link(link), Item::Piece(_))) => {
                if link < 4 {
                    let count = &mut counts[usize::from(link)];
                    *count = count.saturating_add(1);
                }
            }
            Some(_) => (),
            None => {
                if usize::from(owner.lasts()) >= readers {
                    return counts;
                }
                owner.rest(Duration::from_millis(50));
            }
        }
    }
    counts
}

/// What each source gives next.
fn next_of(alloc: Global, sources: &mut Vec<MemSource>) -> Result<String, Fail> {
    let mut text = String::new(alloc);
    for source in sources.iter_mut() {
        let sign = match source.give(alloc, 16_384) {
            Give::Piece(bytes) => match bytes.as_slice().first() {
                Some(digit) => char::from(*digit),
                None => '-',
            },
            Give::End => '.',
            Give::Failed => '!',
            Give::NoMemory => '?',
        };
        text.push(sign)?;
    }
    Ok(text)
}

/// Joins the readers that were started, and gives back those that weren't.
fn close<R: Wait + Threads + Copy>(
    owner: &mut OwnerPass<R>,
    readings: Vec<Reading<MemSource, R>>,
    unread: Vec<NotStarted<MemSource, R>>,
    back: &mut Vec<MemSource>,
)
    requires room { vec_len readings + vec_len unread ≤ vec_capacity back.old }
    requires none { back.old.items ≡ [] }
    requires gates { All (λ r. r.1.gate ≡ owner.old.gate) readings.items }
    requires gates_unread { All (λ n. n.pass.gate ≡ owner.old.gate) unread.items }
{
    join_all(owner, readings, back);
    take_back(owner, unread, back);
}

/// Four readers are started, drained and joined: whether all were started, what each gave, and what is left of each.
fn run<P: Spawner, R: Wait + Threads + Copy + Send + Sync + 'static>(
    rt: R,
    alloc: Global,
    spawner: &mut P,
) -> Result<(bool, [u32; 4], Vec<MemSource>), NoMemory> {
    let sources = sources(alloc)?;
    let mut readings = Vec::with_capacity(alloc, 4)?;
    let mut unread = Vec::with_capacity(alloc, 4)?;
    let mut back = Vec::with_capacity(alloc, 4)?;
    let (mut owner, mut passes) = make_gate(rt, alloc, 4)?;
    let all = start_all(
        spawner,
        rt,
        alloc,
        sources,
        &mut passes,
        &mut readings,
        &mut unread,
    );
    let counts = drain(&mut owner, readings.len());
    close(&mut owner, readings, unread, &mut back);
    Ok((all, counts, back))
}

#[test]
fn readers_that_are_started(rt: HostRuntime) -> Result<(), Fail> {
    let mut spawner = ThreadSpawner::new();
    let alloc = rt.alloc();
    let (all, counts, mut back) = run(rt, alloc, &mut spawner)?;
    let next = next_of(alloc, &mut back)?;
    assert!(rt; all);
    assert_eq!(rt; counts, [100, 100, 100, 100]);
    assert_eq!(rt; next.as_str(), "....");
    Ok(())
}

/// The number of the start that is refused, what each reader gave, and what its source gives next.
#[test]
fn starts_that_are_refused(rt: HostRuntime) -> Result<(), Fail> {
    let alloc = rt.alloc();
    for (start, counts, next) in [
        (0u64, [0u32, 0, 0, 0], "0123"),
        (1, [100, 0, 0, 0], ".123"),
        (2, [100, 100, 0, 0], "..23"),
        (3, [100, 100, 100, 0], "...3"),
        (4, [100, 100, 100, 100], "...."),
    ] {
        let mut spawner = MemSpawner::new(alloc, vec![in alloc; start]?);
        let (all, given, mut back) = run(rt, alloc, &mut spawner)?;
        let left = next_of(alloc, &mut back)?;
        assert_eq!(rt; all, start == 4);
        assert_eq!(rt; given, counts);
        assert_eq!(rt; left.as_str(), next);
        let mut sum = spawner.another();
        sum.join_in(spawner);
        assert_eq!(rt; sum.refusals(), if start < 4 { 1 } else { 0 });
    }
    Ok(())
}
