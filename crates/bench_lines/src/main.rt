//! Cuts a generated file into lines and reads their events, for `bench/lines.sh` to count the instructions.
//!
//! The words say how far to go, `make` for the file alone, `cut` for its lines too and else their events, and with
//! `quoted` each key stands between quotation marks. It prints how many lines or events there were.
#![tactic(auto)]

ghost use Rattle.std.specs.Prelude.{◌≡◌};

use jet_lines::{Cut, Entry, Lines, read_line};
use std::alloc::Global;
use std::env;
use std::io::{self, Write};

const LINES: u32 = 10_000;

// As many bytes as one read of a job asks for.
const PIECE: usize = 4096;

// How far to go.
#[derive(Clone, Copy, PartialEq, Eq)]
enum Step {
    Make,
    Cut,
    Read,
}

fn main(rt: HostRuntime) -> io::Result<()> {
    let mut step = Step::Read;
    let mut quoted = false;
    for word in env::args(&rt)?.skip(1) {
        match word.as_str() {
            "make" => step = Step::Make,
            "cut" => step = Step::Cut,
            "quoted" => quoted = true,
            _ => {}
        }
    }
    let file = file_of(rt.alloc(), quoted)?;
    let count = if step == Step::Make {
        LINES
    } else {
        count_lines(rt.alloc(), &file, step)?
    };
    if count != LINES {
        return Err(io::Error::from(io::ErrorKind::InvalidData));
    }
    println!(rt; "{count} lines")?;
    Ok(())
}

// The file: a line each seven milliseconds, of a hundred keys in turn.
fn file_of(alloc: Global, quoted: bool) -> io::Result<Vec<u8>> {
    let mut file = Vec::new(alloc);
    let mark = if quoted { "\"" } else { "" };
    for i in 0..LINES {
        let time = 1_700_000_000_000 + 7 * u64::from(i);
        writeln!(file, "{time},{mark}sensor-{}{mark},{}", i % 100, i % 1000)?;
    }
    Ok(file)
}

// How many lines the file has, or how many events they hold.
fn count_lines(alloc: Global, file: &[u8], step: Step) -> io::Result<u32> {
    let mut lines = Lines::new(alloc, LINES);
    let mut count = 0;
    for piece in file.chunks(PIECE) {
        if lines.put(piece).is_err() {
            return Err(io::Error::from(io::ErrorKind::OutOfMemory));
        }
        count_ready(alloc, &mut lines, step, &mut count);
    }
    Ok(count)
}

// Counts the lines that stand ready, or their events.
fn count_ready(alloc: Global, lines: &mut Lines, step: Step, count: &mut u32)
    ensures { lines.new.ended ≡ lines.old.ended }
{
    'cuts: loop {
        match lines.next() {
            Cut::Line(number) => {
                if step == Step::Cut || has_event(alloc, lines.line(), number) {
                    *count = count.saturating_add(1);
                }
            }
            _ => return,
        }
    }
}

// Whether a line holds an event.
fn has_event(alloc: Global, line: &[u8], number: u32) -> bool {
    matches!(&read_line(alloc, line, 0, number), Ok(Entry::Event(_)))
}
