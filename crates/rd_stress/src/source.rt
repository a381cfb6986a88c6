ghost use Rattle.std.specs.Prelude.{◌≡◌, None};

use crate::random::Random;
use rd_base::{Give, Link, Source};
use rd_wire::WireSource;
use std::alloc::{AllocError, Global};
use std::marker::Model;
use std::sync::Wait;
use std::thread::Parker;
use std::time::Duration;

/// A source that is late by chance, and keeps what it answered as a script has it.
#[derive(Drop)]
pub struct LateSource<R: Wait + Copy> {
    rt: R,
    link: Link,
    source: WireSource<R>,
    random: Random,
    delays: u32,
    said: Vec<String>,
}

impl<R: Wait + Copy> Model for LateSource<R> {
    ghost use Rattle.rd_base.specs.MemSource.{MemSourceView};

    ghost Value = { MemSourceView };

    ghost view = { λ s. s.source };
}

impl<R: Wait + Copy> LateSource<R> {
    /// One in so many answers is late.
    pub fn new(
        rt: R,
        alloc: Global,
        link: Link,
        source: WireSource<R>,
        random: Random,
        delays: u32,
    ) -> LateSource<R> {
        LateSource {
            rt,
            link,
            source,
            random,
            delays,
            said: Vec::new(alloc),
        }
    }

    /// The answers in order, as a script has them behind their stamps.
    pub fn said(&self) -> &[String] {
        self.said.as_slice()
    }
}

impl<R: Wait + Copy> Source for LateSource<R> {
    ghost tells = { λ s. record { mark = s.mark; faults = s.faults; given = None } };

    fn give(&mut self, alloc: Global, most: usize) -> Give {
        wait_by_chance(&self.rt, &mut self.random, self.delays);
        let answer = self.source.give(alloc, most);
        match keep(alloc, &mut self.said, self.link, &answer) {
            Ok(()) => answer,
            Err(AllocError) => Give::NoMemory,
        }
    }
}

/// Waits up to 250 microseconds, where one of so many chances came.
fn wait_by_chance<R: Wait>(rt: &R, random: &mut Random, chances: u32) {
    if random.hits(chances) {
        let micros = random.below(250);
        Parker::new().park_timeout(rt, Duration::from_micros(u64::from(micros)));
    }
}

fn keep(
    alloc: Global,
    said: &mut Vec<String>,
    link: Link,
    answer: &Give,
) -> Result<(), AllocError> {
    let line = match answer {
        Give::Piece(bytes) => {
            let hex = hex::encode(alloc, bytes.as_slice())?;
            format!(in alloc; "piece {} {hex}\n", link.0)?
        }
        Give::End => format!(in alloc; "end {}\n", link.0)?,
        Give::Failed => format!(in alloc; "readfail {}\n", link.0)?,
        Give::NoMemory => return Err(AllocError),
    };
    Ok(said.push(line)?)
}
