//! `jet`: the program over the files and standard streams of the system.
#![tactic(auto)]

ghost use Rattle.std.specs.Prelude.{◌≡◌, ◌<◌};

use jet_cli::{FreeGate, RealOutside, Status, Steps, exit_status, print_status, run_jet};
use std::env;
use std::io::{self, ErrorKind, Write};
use std::marker::Brand;
use std::process::ExitCode;
use std::sync::ledger::{Blank, Ledger};
use std::thread::Threads;

fn main(rt: HostRuntime) -> ExitCode {
    let status = run_words::<HostRuntime, Brand>(&rt, rt, Blank::new(1));
    tell(rt, &status);
    ExitCode::from(exit_status(&status))
}

// Runs the command of the words after the program's name, with a count of steps of its own.
fn run_words<R: Threads + Sync, L: Ledger>(threads: &R, rt: HostRuntime, blank: Blank) -> Status
    requires name { blank.name ≡ L.name }
    requires parts { blank.parts ≡ L.parts }
    requires some { 0 < L.parts }
{
    let mut steps: Steps<L> = Steps::new(blank);
    let words = match words_of(rt) {
        Ok(words) => words,
        Err(fault) if fault.kind() == ErrorKind::InvalidData => return Status::Usage,
        Err(_) => return Status::NoMemory,
    };
    match RealOutside::new(rt) {
        Ok(mut out) => run_jet(threads, rt.alloc(), &words, &mut out, &FreeGate, &mut steps),
        Err(_) => Status::NoMemory,
    }
}

// Words that are no UTF-8 text are InvalidData, and no command.
fn words_of(rt: HostRuntime) -> io::Result<Vec<String>> {
    let mut words = Vec::new(rt.alloc());
    for word in env::args(&rt)?.skip(1) {
        words.push(word)?;
    }
    Ok(words)
}

// The status line goes to standard error, whatever becomes of that write.
fn tell(rt: HostRuntime, status: &Status) {
    let mut line = Vec::new(rt.alloc());
    if print_status(rt.alloc(), status, &mut line).is_ok() {
        let _ = rt.stderr().write_all(&line);
    }
}
