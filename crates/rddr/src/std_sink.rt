ghost use Rattle.std.specs.Prelude.{◌≡◌, None, false, true};

use rd_base::{Failed, Sink};
use std::io::{ErrorKind, Write};

/// Standard output. It tells nothing of what was written.
#[derive(Drop)]
pub struct StdSink<W: Write + Drop> {
    to: W,
    faults: u64,
    is_closed: bool,
}

impl<W: Write + Drop> StdSink<W> {
    pub fn new(to: W) -> StdSink<W>
        ensures { result.is_closed ≡ false }
    {
        StdSink {
            to,
            faults: 0,
            is_closed: false,
        }
    }
}

impl<W: Write + Drop> Sink for StdSink<W> {
    ghost tells = { λ s. record { mark = record { first = 0; second = 0 }; faults = s.faults; held = None; is_closed = s.is_closed } };

    fn push(&mut self, bytes: &[u8]) -> Result<(), Failed> {
        if write_whole(&mut self.to, bytes) {
            Ok(())
        } else {
            self.faults = self.faults.saturating_add(1);
            Err(Failed)
        }
    }

    fn close(&mut self) {
        self.is_closed = true;
    }
}

/// Writes all these bytes, and says whether that went well.
fn write_whole<W: Write>(to: &mut W, bytes: &[u8]) -> bool {
    let mut rest = bytes;
    for _ in 0..u64::MAX {
        if rest.is_empty() {
            return to.flush().is_ok();
        }
        match to.write(rest) {
            Ok(0) => return false,
            Ok(count) => rest = &rest[count..],
            Err(error) if error.kind() == ErrorKind::Interrupted => (),
            Err(_) => return false,
        }
    }
    false
}

#[cfg(test)]
mod tests {
    use super::*;
    use std::io;

    /// It takes three bytes at a time, until its room is full.
    #[derive(Drop)]
    struct Narrow {
        taken: Vec<u8>,
        room: usize,
    }

    impl Write for Narrow {
        fn write(&mut self, bytes: &[u8]) -> io::Result<usize> {
            let count = bytes.len().min(3).min(self.room);
            self.taken.extend_from_slice(&bytes[..count])?;
            self.room -= count;
            Ok(count)
        }

        fn flush(&mut self) -> io::Result<()> {
            Ok(())
        }
    }

    #[test]
    fn writes_all_bytes_or_counts_a_fault(rt: HostRuntime) {
        let narrow = Narrow {
            taken: Vec::new(rt.alloc()),
            room: 8,
        };
        let mut sink = StdSink::new(narrow);
        assert_eq!(rt; sink.push(b"ok 1\n"), Ok(()));
        assert_eq!(rt; sink.faults, 0);
        assert_eq!(rt; sink.push(b"ok 2\n"), Err(Failed));
        assert_eq!(rt; sink.faults, 1);
        assert_eq!(rt; sink.to.taken.as_slice(), b"ok 1\nok ".as_slice());
    }
}
