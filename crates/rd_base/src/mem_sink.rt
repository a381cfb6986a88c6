ghost use Rattle.std.specs.Prelude.{◌≡◌, ◌⊎◌, ◌++◌, [], false, true, take, is_some, min, ◌+◌, ◌-◌, ◌^◌};
ghost use Rattle.rd_base.specs.Outside.{Writes, Closes, failed};
ghost use Rattle.rd_base.specs.MemSink.{sink_tells, fault_at, FailsAfter};
ghost use Rattle.rd_base.specs.Counts.{counted};

use crate::bytes::Bytes;
use crate::outside::{Failed, Sink};
use std::alloc::Global;
use std::marker::Model;

/// A push that is to fail: its number, counted from 0, and how many of its bytes are written before.
#[derive(Clone, Copy, Debug, PartialEq, Eq)]
pub struct PushFault {
    pub call: u64,
    pub after: usize,
}

/// A sink in memory, for tests and replays.
#[derive(Drop)]
pub struct MemSink {
    held: Bytes,
    faults: u64,
    is_closed: bool,
    first: u64,
    second: u64,
    calls: u64,
    failing: Vec<PushFault>,
}

impl Model for MemSink {
    ghost use Rattle.rd_base.specs.MemSink.{MemSinkView};

    ghost Value = { MemSinkView };

    ghost view = { λ s. record {
      mark = record { first = s.first; second = s.second };
      faults = s.faults;
      held = s.held;
      is_closed = s.is_closed;
      calls = s.calls;
      failing = s.failing.items;
    } };
}

impl MemSink {
    /// An open sink without bytes, of this mark, and the pushes that are to fail.
    pub fn new(alloc: Global, first: u64, second: u64, failing: Vec<PushFault>) -> MemSink
        ensures { result ≡ record {
          mark = record { first = first; second = second };
          faults = 0;
          held = [];
          is_closed = false;
          calls = 0;
          failing = failing.items;
        } }
    {
        MemSink {
            held: Bytes::new(alloc),
            faults: 0,
            is_closed: false,
            first,
            second,
            calls: 0,
            failing,
        }
    }

    /// The bytes that were written.
    pub fn as_slice(&self) -> &[u8]
        ensures { result.now ≡ self.now.held }
    {
        self.held.as_slice()
    }

    /// The number of pushes that failed.
    pub fn faults(&self) -> u64
        ensures { result ≡ self.now.faults }
    {
        self.faults
    }

    pub fn is_closed(&self) -> bool
        ensures { result ≡ self.now.is_closed }
    {
        self.is_closed
    }
}

impl Sink for MemSink {
    ghost tells = { sink_tells };

    fn push(&mut self, bytes: &[u8]) -> Result<(), Failed>
        requires { (sink_tells self.old).is_closed ≡ false }
        ensures writes { Writes bytes.now failed result (sink_tells self.old)
            (sink_tells self.new) }
        ensures listed { is_some (fault_at self.old.calls self.old.failing) ≡ true
            → result ≡ Err failed }
        ensures after { FailsAfter
            (fault_at self.old.calls self.old.failing) self.old.held bytes.now self.new.held }
        ensures calls { self.new.calls ≡ counted self.old.calls }
        ensures failing { self.new.failing ≡ self.old.failing }
    {
        let call = self.calls;
        self.calls = self.calls.saturating_add(1);
        match fault_of(call, &self.failing) {
            Some(fault) => {
                let written = fault.after.min(bytes.len());
                self.faults = self.faults.saturating_add(1);
                write_front(&mut self.held, &bytes[..written]);
                Err(Failed)
            }
            None => match self.held.push_slice(bytes) {
                Ok(()) => Ok(()),
                Err(_) => {
                    self.faults = self.faults.saturating_add(1);
                    Err(Failed)
                }
            },
        }
    }

    fn close(&mut self)
        ensures closes { Closes (sink_tells self.old) (sink_tells self.new) }
        ensures calls { self.new.calls ≡ self.old.calls }
        ensures failing { self.new.failing ≡ self.old.failing }
    {
        self.is_closed = true;
    }
}

/// The first fault that is listed for this push.
fn fault_of(call: u64, failing: &[PushFault]) -> Option<PushFault>
    ensures { result ≡ fault_at call failing.now }
{
    for fault in failing {
        if fault.call == call {
            return Some(*fault);
        }
    }
    None
}

/// Appends these bytes, or none where memory runs out.
fn write_front(held: &mut Bytes, bytes: &[u8])
    ensures { (held.new ≡ held.old ++ bytes.now) ⊎ (held.new ≡ held.old) }
{
    match held.push_slice(bytes) {
        Ok(()) => (),
        Err(_) => (),
    }
}
