ghost use Rattle.std.specs.Prelude.{◌≡◌, ◌≤◌, true, length};
ghost use Rattle.rd_doors.specs.Visits.{AreFresh, ends_told};
ghost use Rattle.rd_serve_rows.specs.Marked.{AreSources, AreSinks, source_told, sink_told};

use rd_base::{Bytes, Failed, Give, Sink, Source};
use rd_doors::Ends;
use rd_mem_doors::Fresh;
use std::alloc::Global;
use std::rt::Clock;
use std::sync::Arc;
use std::sync::atomic::{AtomicU64, Ordering};
use std::thread;
use std::time::Duration;

/// How many bytes a link was sent; 2^64-1 once its sink was closed.
pub type Sent = Arc<AtomicU64, Global>;

/// A source that gives one piece once a link was sent so many bytes, and its end once a link was. It ends too where it
/// waited in vain.
#[derive(Drop)]
pub struct WaitingSource<R: Clock + Copy> {
    pub rt: R,
    pub first: u64,
    pub second: u64,
    pub text: &'static [u8],
    pub piece_behind: (Sent, u64),
    pub end_behind: (Sent, u64),
    pub gave: bool,
}

/// Waits until a link was sent so many bytes or closed, forty seconds at most. Answers whether it was.
fn wait_for<R: Clock>(rt: &R, sent: &Sent, bytes: u64) -> bool {
    for _ in 0..40_000u32 {
        if sent.load(Ordering::SeqCst) >= bytes {
            return true;
        }
        thread::sleep(rt, Duration::from_millis(1));
    }
    false
}

impl<R: Clock + Copy> Source for WaitingSource<R> {
    ghost use Rattle.rd_serve_rows.specs.Marked.{source_told};

    ghost tells = { source_told };

    fn give(&mut self, alloc: Global, most: usize) -> Give {
        if self.gave || self.text.is_empty() || self.text.len() > most {
            let _ = wait_for(&self.rt, &self.end_behind.0, self.end_behind.1);
            return Give::End;
        }
        self.gave = true;
        if !wait_for(&self.rt, &self.piece_behind.0, self.piece_behind.1) {
            return Give::End;
        }
        match Bytes::from_slice(alloc, self.text) {
            Ok(bytes) => Give::Piece(bytes),
            Err(_) => Give::NoMemory,
        }
    }
}

/// A sink that counts the bytes that it was sent, and sees whether each stands so in those that are wanted.
#[derive(Drop)]
pub struct CountingSink {
    pub first: u64,
    pub second: u64,
    pub wanted: &'static [u8],
    pub is_other: bool,
    pub bytes: usize,
    pub is_closed: bool,
    pub sent: Sent,
}

impl CountingSink {
    /// Whether it was sent what is wanted and no more.
    pub fn is_as_wanted(&self) -> bool {
        !self.is_other && self.bytes == self.wanted.len()
    }
}

impl Sink for CountingSink {
    ghost use Rattle.rd_serve_rows.specs.Marked.{sink_told};

    ghost tells = { sink_told };

    fn push(&mut self, bytes: &[u8]) -> Result<(), Failed> {
        let behind = self.bytes.saturating_add(bytes.len());
        if self.wanted.get(self.bytes..behind).unwrap_or(&[]) != bytes {
            self.is_other = true;
        }
        self.bytes = behind;
        self.sent.store(self.bytes as u64, Ordering::SeqCst);
        Ok(())
    }

    fn close(&mut self) {
        self.is_closed = true;
        self.sent.store(u64::MAX, Ordering::SeqCst);
    }
}

/// Whether these have the marks of this visit's links, in their order.
#[tactic(auto, using(crate::proofs::Marking::sources_more, crate::proofs::Marking::sources_all))]
fn are_sources<R: Clock + Copy>(number: u64, sources: &[WaitingSource<R>]) -> bool
    ensures { result ≡ true → AreSources number (length sources.now) sources.now }
{
    let mut link = 0;
    for source in sources {
        if source.first != number || source.second != link {
            return false;
        }
        link += 1;
    }
    true
}

/// Whether these have the marks of this visit's links, in their order, and are open.
fn are_sinks(number: u64, sinks: &[CountingSink]) -> bool
    ensures { result ≡ true → AreSinks number (length sinks.now) sinks.now }
{
    let mut link = 0;
    for sink in sinks {
        if sink.first != number || sink.second != link || sink.is_closed {
            return false;
        }
        link += 1;
    }
    true
}

/// Whether these are the links of this visit, for so many copies.
fn are_links<R: Clock + Copy>(
    copies: u8,
    number: u64,
    ends: &Ends<WaitingSource<R>, CountingSink>,
) -> bool
    ensures number { result ≡ true → ends.now.number ≡ number }
    ensures fresh { result ≡ true → AreFresh copies (ends_told source_told sink_told ends.now) }
{
    let count = usize::from(copies) + 1;
    ends.number == number
        && ends.sources.len() == count
        && ends.sinks.len() == count
        && are_sources(number, ends.sources.as_slice())
        && are_sinks(number, ends.sinks.as_slice())
}

/// Who sees that the marks are those of the visit.
#[derive(Drop)]
pub struct Marks;

impl<R: Clock + Copy + Send + 'static> Fresh<WaitingSource<R>, CountingSink> for Marks {
    fn are_fresh(copies: u8, number: u64, ends: &Ends<WaitingSource<R>, CountingSink>) -> bool {
        are_links(copies, number, ends)
    }

    fn is_fresh_operator(place: u64, source: &WaitingSource<R>, sink: &CountingSink) -> bool {
        source.first == 0
            && source.second == place
            && sink.first == 0
            && sink.second == place
            && !sink.is_closed
    }
}
