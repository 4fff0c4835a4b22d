//! Measures what an event costs in a frame vertex, what frames and rows cost in a combine vertex, and a row that is held in
//! order until a mark lets it out.
//!
//! It prints how many frames or rows were given, and that each event stands in one frame or in as many rows as there are
//! slides in a window, and the rows came in order. The words `frames KEYS EVENTS`, `each SLIDES ENDS`, `sixth SLIDES ENDS`
//! and `rows HELD ROWS` choose what is driven, and how far; without words all that stands in the table of bench/README.md
//! is driven once.
#![tactic(auto)]

ghost use Rattle.std.specs.Prelude.{IfSome};
ghost use Rattle.jet_boxes.specs.Calls.{Call, MayCall};
ghost use Rattle.jet_window.specs.Driven.{entry_of, IsNoEnd, IsReady};

use jet_boxes::{Outbox, Port, Processor};
use jet_items::{Acc, Event, Frame, Item, Key, Mark, NoMemory, Row};
use jet_policy::WinPolicy;
use jet_window::{CombineP, FrameP, OrderedRows};
use std::alloc::Global;
use std::env;
use std::io::{self, ErrorKind};

/// What is driven.
#[derive(Clone, Copy)]
enum Run {
    /// Events of so many keys through a frame vertex.
    Frames { keys: u32, events: u32 },
    /// Frames of 100 keys, each of which has one at every so manieth end of a slide, through a combine vertex whose windows
    /// are so many slides long.
    Windows { slides: u32, every: u32, ends: u32 },
    /// Rows through ordered rows, of which so many are held.
    Rows { held: u32, rows: u32 },
}

const ALL: [Run; 6] = [
    Run::Frames {
        keys: 100,
        events: 100_000,
    },
    Run::Frames {
        keys: 10_000,
        events: 100_000,
    },
    Run::Windows {
        slides: 6,
        every: 1,
        ends: 1_000,
    },
    Run::Windows {
        slides: 600,
        every: 6,
        ends: 1_000,
    },
    Run::Rows {
        held: 100,
        rows: 100_000,
    },
    Run::Rows {
        held: 100_000,
        rows: 100_000,
    },
];

fn main(rt: HostRuntime) -> io::Result<()> {
    let mut words = Vec::new(rt.alloc());
    for word in env::args(&rt)?.skip(1) {
        words.push(word)?;
    }
    if let Some(run) = run_of(&words) {
        return show(rt, &run);
    }
    for run in &ALL {
        show(rt, run)?;
    }
    Ok(())
}

fn run_of(words: &[String]) -> Option<Run> {
    let [what, size, count] = words else {
        return None;
    };
    let size = size.as_str().parse::<u32>().ok()?;
    let count = count.as_str().parse::<u32>().ok()?;
    match what.as_str() {
        "frames" => Some(Run::Frames {
            keys: size,
            events: count,
        }),
        "each" => Some(Run::Windows {
            slides: size,
            every: 1,
            ends: count,
        }),
        "sixth" => Some(Run::Windows {
            slides: size,
            every: 6,
            ends: count,
        }),
        "rows" => Some(Run::Rows {
            held: size,
            rows: count,
        }),
        _ => None,
    }
}

fn show(rt: HostRuntime, run: &Run) -> io::Result<()> {
    match run {
        Run::Frames { keys, events } => match frames_of(rt.alloc(), *keys, *events) {
            Some(seen) => println!(rt;
                "{keys} keys: {} frames of {} events",
                seen.frames, seen.events
            ),
            None => Err(io::Error::from(ErrorKind::OutOfMemory)),
        },
        Run::Windows {
            slides,
            every,
            ends,
        } => match windows_of(rt.alloc(), *slides, *every, *ends) {
            Some(seen) => println!(rt;
                "{slides} slides: {} rows of {} events",
                seen.rows, seen.events
            ),
            None => Err(io::Error::from(ErrorKind::OutOfMemory)),
        },
        Run::Rows { held, rows } => match rows_of(rt.alloc(), *held, *rows) {
            Some(given) => println!(rt; "{held} rows held: {given} given in order"),
            None => Err(io::Error::from(ErrorKind::OutOfMemory)),
        },
    }
}

/// The frames and rows that were given, and the events that they count.
#[derive(Clone, Copy)]
struct Seen {
    frames: u64,
    rows: u64,
    events: u64,
}

impl Seen {
    const NONE: Seen = Seen {
        frames: 0,
        rows: 0,
        events: 0,
    };
}

// Counts the items of the box, and empties it.
fn empty(out: &mut Outbox, seen: &mut Seen) {
    while let Some(item) = out.pop() {
        match item {
            Item::Frame(frame) => {
                seen.frames = seen.frames.wrapping_add(1);
                seen.events = seen.events.wrapping_add(frame.acc.count);
            }
            Item::Row(row) => {
                seen.rows = seen.rows.wrapping_add(1);
                seen.events = seen.events.wrapping_add(row.acc.count);
            }
            _ => (),
        }
    }
}

fn call<P: Processor>(processor: &mut P, item: &Item, out: &mut Outbox) -> Result<bool, NoMemory>
    requires { MayCall P.amid (P.takes processor.old) processor.old (entry_of item.now) }
    ensures { Call P.stands P.amid P.same P.frugal processor.old (entry_of item.now) out.old result processor.new out.new }
{
    match item {
        Item::Mark(mark) => processor.mark(*mark, out),
        Item::Done => processor.finish(out),
        _ => processor.accept(Port::Stream, 0, item, out),
    }
}

// Tells an item, and counts what is given. None says that memory, or the number of calls, did not suffice.
fn tell<P: Processor>(
    processor: &mut P,
    item: &Item,
    out: &mut Outbox,
    seen: &mut Seen,
) -> Option<()>
    requires { IsReady P.stands P.takes processor.old }
    ensures { IfSome result (λ u. IsNoEnd item.now → IsReady P.stands P.takes processor.new) }
{
    // Each call but the last fills the box, and no run holds as many frames as that.
    for _ in 0..1024 {
        let Ok(done) = call(processor, item, out) else {
            return None;
        };
        empty(out, seen);
        if done {
            return Some(());
        }
    }
    None
}

// Keys in no order.
fn keys_of(alloc: Global, count: u32) -> Option<Vec<Key>> {
    let mut keys = Vec::new(alloc);
    for number in 0..count {
        let mixed = u64::from(number) * 7919 % u64::from(count);
        let name = format!(in alloc; "sensor-{mixed}").ok()?;
        keys.push(Key::read(name.as_bytes(), 24).ok()?).ok()?;
    }
    Some(keys)
}

// The key of a line: all keys in turn.
fn key_at(keys: &[Key], line: u32) -> Option<Key> {
    if keys.is_empty() {
        return None;
    }
    keys.get(line as usize % keys.len()).copied()
}

fn event(line: u32, key: Key) -> Item
    ensures { IsNoEnd result }
{
    Item::Event(Event {
        part: 0,
        line,
        ts: i64::from(line),
        key,
        v: [i64::from(line), 0, 0, 0],
    })
}

// Tells the event of a line, and at each 256th a mark.
fn tell_line<P: Processor>(
    processor: &mut P,
    line: u32,
    key: Key,
    out: &mut Outbox,
    seen: &mut Seen,
) -> Option<()>
    requires { IsReady P.stands P.takes processor.old }
    ensures { IfSome result (λ u. IsReady P.stands P.takes processor.new) }
{
    tell(processor, &event(line, key), out, seen)?;
    if line % 256 < 255 {
        return Some(());
    }
    let mark = Item::Mark(Mark::new(i64::from(line) - 5_000)?);
    tell(processor, &mark, out, seen)?;
    Some(())
}

// Drives a frame vertex whose frames are 50,000 long.
fn frames_of(alloc: Global, keys: u32, events: u32) -> Option<Seen> {
    let keys = keys_of(alloc, keys)?;
    let mut vertex = FrameP::new(alloc, 1, WinPolicy::new(100_000, 50_000).ok()?);
    let mut out = Outbox::new(alloc, 1024).ok()?;
    let mut seen = Seen::NONE;
    for line in 0..events {
        tell_line(&mut vertex, line, key_at(&keys, line)?, &mut out, &mut seen)?;
    }
    tell(&mut vertex, &Item::Done, &mut out, &mut seen)?;
    Some(seen)
}

fn frame(number: u32, key: Key) -> Item
    ensures { IsNoEnd result }
{
    Item::Frame(Frame {
        vertex: 1,
        end: i64::from(number) * 10,
        key,
        acc: Acc::one(i64::from(number % 7)),
    })
}

// Tells the frames of the end of this number, and the mark there.
fn tell_end<P: Processor>(
    processor: &mut P,
    number: u32,
    every: u32,
    keys: &[Key],
    out: &mut Outbox,
    seen: &mut Seen,
) -> Option<()>
    requires { IsReady P.stands P.takes processor.old }
    ensures { IfSome result (λ u. IsReady P.stands P.takes processor.new) }
{
    let turn = number.checked_rem(every)? as usize;
    for (place, key) in keys.iter().enumerate() {
        if place.checked_rem(every as usize)? == turn {
            tell(processor, &frame(number, *key), out, seen)?;
        }
    }
    let mark = Item::Mark(Mark::new(i64::from(number) * 10)?);
    tell(processor, &mark, out, seen)?;
    Some(())
}

// Drives a combine vertex whose slides are 10 long.
fn windows_of(alloc: Global, slides: u32, every: u32, ends: u32) -> Option<Seen> {
    let keys = keys_of(alloc, 100)?;
    let policy = WinPolicy::new(i64::from(slides) * 10, 10).ok()?;
    let mut vertex = CombineP::new(alloc, 1, policy);
    let mut out = Outbox::new(alloc, 1024).ok()?;
    let mut seen = Seen::NONE;
    for number in 0..ends {
        tell_end(&mut vertex, number, every, &keys, &mut out, &mut seen)?;
    }
    tell(&mut vertex, &Item::Done, &mut out, &mut seen)?;
    Some(seen)
}

fn row(line: u32, key: Key) -> Row {
    Row {
        vertex: 1,
        end: i64::from(line / 100) * 10,
        key,
        acc: Acc::one(1),
    }
}

// Puts rows of 100 keys, a hundred for each end, and takes one for each once so many are held. Answers how many came
// in the order of their ends.
fn rows_of(alloc: Global, held: u32, rows: u32) -> Option<u64> {
    let keys = keys_of(alloc, 100)?;
    let mut ordered = OrderedRows::new(alloc);
    let mut last = 0i64;
    let mut given = 0u64;
    for line in 0..held.saturating_add(rows) {
        ordered.put(row(line, key_at(&keys, line)?)).ok()?;
        if let Some(before) = line.checked_sub(held) {
            ordered.pass(Mark::new(i64::from(before / 100) * 10)?);
            let row = ordered.next()?;
            if last <= row.end {
                given = given.wrapping_add(1);
            }
            last = row.end;
        }
    }
    Some(given)
}
