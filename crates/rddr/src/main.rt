//! Checks settings, replays recorded sessions, and makes and runs generated ones.
#![tactic(auto)]

mod command;
mod disk_files;
#[cfg(test)]
mod http_rows;
#[cfg(test)]
mod pg_rows;
mod refusal;
mod replay;
#[cfg(test)]
mod rows;
mod service;
mod serving;
#[cfg(test)]
mod settings_tests;
mod std_sink;
#[cfg(test)]
mod tests;
mod work;

use disk_files::DiskFiles;
use rd_base::NoMemory;
use rd_keeper::{MemKeeper, SqlKeeper};
use replay::replay_main;
use service::{Commands, read_lines, serve_over_tcp};
use serving::records_of;
use std::alloc::{AllocError, Global};
use std::io::ErrorKind;
use std::process::ExitCode;
use std::{env, io, thread};
use std_sink::StdSink;

fn main(rt: HostRuntime) -> ExitCode {
    let mut files = DiskFiles::new(&rt);
    let mut out = StdSink::new(io::writer(&rt));
    let status = match words(&rt) {
        Ok(words) if is_run(words.as_slice()) => match Commands::new(rt.alloc()) {
            Ok(commands) => {
                // It isn't joined, since it may wait for one more line.
                let theirs = commands.share();
                match thread::spawn(&rt, move || read_lines(rt, theirs)) {
                    Ok(_watching) => match records_of(rt.alloc(), words.as_slice(), &mut files) {
                        Ok(Some(name)) => match open_records(&rt, rt.alloc(), name.as_slice()) {
                            Ok(mut keeper) => serve_over_tcp(
                                rt,
                                rt.alloc(),
                                words.as_slice(),
                                &mut files,
                                &mut out,
                                commands,
                                &mut keeper,
                            ),
                            Err(NoMemory) => 6,
                        },
                        Ok(None) => serve_over_tcp(
                            rt,
                            rt.alloc(),
                            words.as_slice(),
                            &mut files,
                            &mut out,
                            commands,
                            &mut MemKeeper::new(rt.alloc(), Vec::new(rt.alloc())),
                        ),
                        Err(NoMemory) => 6,
                    },
                    Err(_) => 6,
                }
            }
            Err(NoMemory) => 6,
        },
        Ok(words) => replay_main(rt.alloc(), words.as_slice(), &mut files, &mut out),
        Err(AllocError) => 6,
    };
    ExitCode::from(status)
}

/// Opens the file of this name. One whose name is no text is a file that can't be opened.
fn open_records(rt: &HostRuntime, alloc: Global, name: &[u8]) -> Result<SqlKeeper, NoMemory> {
    SqlKeeper::open(rt, alloc, std::str::from_utf8(name).unwrap_or(""))
}

fn is_run(words: &[String]) -> bool {
    match words.first() {
        Some(command) => command.as_str() == "run",
        None => false,
    }
}

/// The words behind the program's name; none where one of them isn't text.
fn words<R: std::rt::Env + AllocGlobal>(rt: &R) -> Result<Vec<String>, AllocError> {
    match env::args(rt) {
        Ok(args) => args.skip(1).collect(rt.alloc()),
        Err(error) if error.kind() == ErrorKind::OutOfMemory => Err(AllocError),
        Err(_) => Ok(Vec::new(rt.alloc())),
    }
}
