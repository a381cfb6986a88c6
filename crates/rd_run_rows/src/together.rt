ghost use Rattle.std.specs.Prelude.{◌≡◌, IfOk, None, vec_len};

use crate::links::{Trouble, links};
use crate::runs::{Outcome, is_answered, outcome_of, request_scripts, run_links};
use rd_base::{Give, NoMemory, Side, Source};
use rd_token_map::NoBook;
use rd_wire::WireSource;
use std::alloc::Global;
use std::marker::Model;
use std::rt::HostRuntime;
use std::sync::atomic::{AtomicU32, Ordering};
use std::sync::{Arc, Wait};
use std::test::Fail;
use std::thread::Threads;

/// A source that answers only once all four were asked. Its wait ends by itself, and the source with it.
#[derive(Drop)]
struct Together<R: Wait + Copy> {
    source: WireSource<R>,
    asked: Arc<AtomicU32, Global>,
    is_counted: bool,
}

impl<R: Wait + Copy> Model for Together<R> {
    ghost use Rattle.rd_base.specs.MemSource.{MemSourceView};

    ghost Value = { MemSourceView };

    ghost view = { λ s. s.source };
}

impl<R: Wait + Copy> Source for Together<R> {
    ghost tells = { λ s. record { mark = s.mark; faults = s.faults; given = None } };

    fn give(&mut self, alloc: Global, most: usize) -> Give {
        if !self.is_counted {
            self.is_counted = true;
            self.asked.fetch_add(1, Ordering::SeqCst);
        }
        if all_asked(&self.asked) {
            self.source.give(alloc, most)
        } else {
            Give::End
        }
    }
}

fn all_asked(asked: &AtomicU32) -> bool {
    for _turn in 0..100_000_000u32 {
        if asked.load(Ordering::SeqCst) >= 4 {
            return true;
        }
    }
    false
}

fn tied<R: Wait + Copy>(
    alloc: Global,
    sources: Vec<WireSource<R>>,
) -> Result<Vec<Together<R>>, NoMemory>
    requires { vec_len sources ≡ 4 }
    ensures { IfOk result (λ v. vec_len v ≡ 4) }
{
    let asked = Arc::new(alloc, AtomicU32::new(0))?;
    let mut all = Vec::new(alloc);
    for source in sources {
        all.push(Together {
            source,
            asked: Arc::try_clone(&asked)?,
            is_counted: false,
        })?;
    }
    Ok(all)
}

/// One request, with sources that wait for one another.
fn run_together<R: Wait + Threads + Copy + Send + Sync + 'static>(
    rt: R,
    alloc: Global,
) -> Result<Outcome, NoMemory> {
    let (sources, mut sinks) = links(rt, alloc, request_scripts(), Trouble::None)?;
    let sources = tied(alloc, sources)?;
    let run = run_links(
        rt,
        alloc,
        Side::Incoming,
        sources,
        &mut sinks,
        Trouble::None,
        &mut NoBook,
    )?;
    Ok(outcome_of(
        &run,
        &sinks,
        [b"get a\n", b"get a\n", b"get a\n", b"ok 1\n"],
    ))
}

/// Readers don't wait for one another.
#[test]
fn readers_side_by_side(rt: HostRuntime) -> Result<(), Fail> {
    let run = run_together(rt, rt.alloc())?;
    assert!(rt; is_answered(Side::Incoming, &run));
    Ok(())
}
