ghost use Rattle.std.specs.Prelude.{◌≡◌, false};

use crate::serving::run_main;
use rd_base::{Files, NoMemory, Sink};
use rd_keeper::Keeper;
use rd_net_edge::{Flag, RealClock, StopFlag, TcpDoors};
use rd_start::ThreadSpawner;
use std::alloc::Global;
use std::io::{ErrorKind, Read};
use std::net::{Net, TcpListener, TcpStream};
use std::rt::Clock;
use std::sync::Wait;
use std::thread::Threads;

/// The most bytes of a command.
const MOST_BYTES: usize = 5;

/// What lines of standard input set: that sessions stop, and that no more visits are taken.
#[derive(Drop)]
pub struct Commands {
    stop: Flag,
    drain: Flag,
}

impl Commands {
    /// Neither was set yet.
    pub fn new(alloc: Global) -> Result<Commands, NoMemory> {
        Ok(Commands {
            stop: Flag::new(alloc)?,
            drain: Flag::new(alloc)?,
        })
    }

    /// The same commands, for another thread.
    pub fn share(&self) -> Commands {
        Commands {
            stop: self.stop.share(),
            drain: self.drain.share(),
        }
    }

    /// Sets what a line names.
    fn obey(&self, line: &CommandLine) {
        if line.is(b"stop") {
            self.stop.set();
            self.drain.set();
        } else if line.is(b"drain") {
            self.drain.set();
        }
    }
}

/// Answers the words `run SETTINGS` over TCP, and gives the status: serves until a command ends that, or prints why not.
pub fn serve_over_tcp<
    F: Files,
    K: Sink,
    Y: Keeper,
    R: Wait
        + Threads
        + Clock
        + Net<Listener = TcpListener, Stream = TcpStream>
        + Copy
        + Send
        + Sync
        + 'static,
>(
    rt: R,
    alloc: Global,
    words: &[String],
    files: &mut F,
    out: &mut K,
    commands: Commands,
    keeper: &mut Y,
) -> u8
    requires { (K.tells out.old).is_closed ≡ false }
{
    let Ok(mut clock) = RealClock::new(rt) else {
        return 6;
    };
    let Commands { stop, drain } = commands;
    let mut doors = TcpDoors::new(rt, alloc, stop.share(), drain);
    let mut spawner = ThreadSpawner::new();
    let mut stopper = StopFlag::new(stop);
    run_main(
        rt,
        alloc,
        words,
        files,
        out,
        &mut doors,
        &mut spawner,
        &mut clock,
        &mut stopper,
        keeper,
    )
}

/// A line of the operator's as far as it was read. Past the longest command nothing of it is kept.
#[derive(Drop)]
struct CommandLine {
    bytes: [u8; MOST_BYTES],
    length: usize,
}

impl CommandLine {
    fn new() -> CommandLine {
        CommandLine {
            bytes: [0; MOST_BYTES],
            length: 0,
        }
    }

    fn push(&mut self, byte: u8) {
        if self.length < MOST_BYTES {
            self.bytes[self.length] = byte;
        }
        self.length = self.length.saturating_add(1);
    }

    fn is(&self, command: &[u8]) -> bool {
        self.length <= MOST_BYTES && &self.bytes[..self.length] == command
    }
}

/// Reads lines of standard input to its end: `stop` sets both flags, `drain` the second. Other lines, and the end, do
/// nothing.
pub fn read_lines<R: Input + Copy>(rt: R, commands: Commands) {
    let mut input = rt.reader();
    let mut buffer = [0u8; 512];
    let mut line = CommandLine::new();
    for _ in 0..u64::MAX {
        let count = match input.read(&mut buffer) {
            Ok(0) => return,
            Ok(count) => count,
            Err(error) if error.kind() == ErrorKind::Interrupted => 0,
            Err(_) => return,
        };
        for byte in &buffer[..count] {
            if *byte == b'\n' {
                commands.obey(&line);
                line = CommandLine::new();
            } else {
                line.push(*byte);
            }
        }
    }
}
