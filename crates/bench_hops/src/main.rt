//! Measures what an item costs on its way through one tasklet, a mark in a coalescer, an item in a router, and a comparison
//! of two keys.
//!
//! The words `WHAT SIZE COUNT` choose what is driven, how many queues or destinations it has, and how far it is driven:
//! `keys`, `ring`, `filter`, `stamp`, `router`, or a coalescer of which the `first` or the `last` queue alone is behind, or
//! whose queues tell their marks in `turns`. It prints how much came through. Without words each is driven once.
#![tactic(auto)]

ghost use Rattle.std.specs.Prelude.{◌≡◌, ◌<◌, ◌≤◌, ◌^◌, ℕ, [], length, true, IfOk, IfSome};
ghost use Rattle.jet_boxes.specs.declared.port.Port.TheVariants.{Stream};
ghost use Rattle.jet_items.specs.declared.item.Item.{Item};
ghost use Rattle.jet_ring.specs.Ring.{received, sent, tx_ring};
ghost use Rattle.jet_router.specs.Router.{view, IsInHand};
ghost use Rattle.jet_tasklet.specs.Keeps.{IsLawful};
ghost use Rattle.bench_hops.specs.Open.{AreOpen};

use jet_boxes::{Port, Processor};
use jet_coalescer::Coalescer;
use jet_conveyor::Conveyor;
use jet_expr::Expr;
use jet_items::{Event, Item, Key, Mark, NoMemory};
use jet_ring::{Rx, Tx, refresh, ring};
use jet_router::{Given, Router};
use jet_stages::{FilterP, Stamp};
use jet_tasklet::{Input, Progress, Tasklet};
use std::alloc::Global;
use std::env;
use std::io::{self, ErrorKind};

// The slots of a ring of a tasklet: so many items are driven at most.
const SLOTS: usize = 65_536;

// The slots of a destination of a router: 4 of them have room for as many items.
const DEST_SLOTS: usize = 16_384;

const ALL: [(&str, u32); 12] = [
    ("keys", 2),
    ("ring", 1),
    ("filter", 1),
    ("stamp", 1),
    ("first", 4),
    ("first", 1000),
    ("last", 4),
    ("last", 1000),
    ("turns", 4),
    ("turns", 1000),
    ("router", 4),
    ("router", 64),
];

fn main(rt: HostRuntime) -> io::Result<()> {
    let mut words = Vec::new(rt.alloc());
    for word in env::args(&rt)?.skip(1) {
        words.push(word)?;
    }
    if let [what, size, count] = words.as_slice() {
        let size = size.as_str().parse::<u32>().ok().unwrap_or(1);
        let count = count.as_str().parse::<u32>().ok().unwrap_or(0);
        return show(rt, what.as_str(), size, count);
    }
    for (what, size) in &ALL {
        show(rt, *what, *size, 10_000)?;
    }
    Ok(())
}

fn show(rt: HostRuntime, what: &str, size: u32, count: u32) -> io::Result<()> {
    let alloc = rt.alloc();
    let came = match what {
        "keys" => compared(alloc, count),
        "ring" => through_ring(alloc, count),
        "filter" => through_filter(alloc, count),
        "stamp" => through_stamp(alloc, count),
        "first" => through_coalescer(alloc, size, 0, count),
        "last" => through_coalescer(alloc, size, size.saturating_sub(1), count),
        "turns" => by_turns(alloc, size, count),
        "router" => through_router(alloc, size, count),
        _ => None,
    };
    match came {
        Some(came) => println!(rt; "{what} {size}: {came}"),
        None => Err(io::Error::from(ErrorKind::OutOfMemory)),
    }
}

fn compared(alloc: Global, count: u32) -> Option<u32> {
    let one = Key::read(b"sensor-1", 40).ok()?;
    let two = Key::read(b"sensor-2", 40).ok()?;
    let keys = Vec::from_array(alloc, [one, two]).ok()?;
    Some(lesser(&keys, count))
}

// Compares two keys so many times, each with itself and with the other, and answers how often the first was the lesser.
fn lesser(keys: &[Key], count: u32) -> u32
    requires { length keys.now ≡ 2 }
{
    let mut lesser = 0u32;
    for n in 0..count {
        if keys[n as usize % 2] < keys[n as usize / 2 % 2] {
            lesser = lesser.wrapping_add(1);
        }
    }
    lesser
}

fn event() -> Option<Item> {
    let key = Key::read(b"sensor-1", 40).ok()?;
    Some(Item::Event(Event {
        part: 0,
        line: 1,
        ts: 1000,
        key,
        v: [215, 0, 0, 0],
    }))
}

// Offers the item so many times.
fn fill(tx: &mut Tx<Item>, item: &Item, count: u32)
    ensures { tx_ring tx.new ≡ tx_ring tx.old }
{
    for _ in 0..count {
        tx.put(item);
    }
}

// The receiver of a ring into which so many events were sent.
fn filled(alloc: Global, count: u32) -> Option<Rx<Item>>
    ensures { IfSome result (λ rx. received rx ≡ []) }
{
    let Ok((mut tx, mut rx)) = ring::<Item>(alloc, SLOTS) else {
        return None;
    };
    let item = event()?;
    fill(&mut tx, &item, count);
    let _ = refresh(&mut tx, &mut rx);
    Some(rx)
}

// Takes what is there, and answers how many items that were.
fn drain(rx: &mut Rx<Item>) -> u32 {
    for taken in 0..65_536u32 {
        if rx.take().is_none() {
            return taken;
        }
    }
    65_536
}

fn through_ring(alloc: Global, count: u32) -> Option<u32> {
    let mut rx = filled(alloc, count)?;
    Some(drain(&mut rx))
}

// A tasklet of one queue and one destination.
fn single<P: Processor + Drop>(
    alloc: Global,
    processor: P,
    queue: Rx<Item>,
    dest: Tx<Item>,
) -> Result<Tasklet<P>, NoMemory>
    requires new { P.stands processor [] [] }
    requires takes { P.takes processor Stream 0 }
    requires unread { received queue ≡ [] }
    requires unsent { sent dest ≡ [] }
    ensures lawful { IfOk result (λ t. IsLawful P.stands P.amid P.takes t) }
{
    let queues = Vec::from_array(alloc, [queue])?;
    let conveyor = Conveyor::new(alloc, queues)?;
    let input = Input {
        port: Port::Stream,
        conveyor,
    };
    let inputs = Vec::from_array(alloc, [input])?;
    let router = Router::isolated(alloc, dest)?;
    let outputs = Vec::from_array(alloc, [router])?;
    Tasklet::new(alloc, processor, inputs, outputs, 128)
}

// Takes turns until one is idle, and answers how many moved.
fn turn<P: Processor>(tasklet: &mut Tasklet<P>) -> Option<u32>
    requires { IsLawful P.stands P.amid P.takes tasklet.old }
{
    'turns: for turns in 0..10_000u32 {
        match tasklet.turn() {
            Ok(Progress::Moved) => {}
            Ok(_) => return Some(turns),
            Err(_) => return None,
        }
    }
    None
}

fn through<P: Processor + Drop>(alloc: Global, processor: P, count: u32) -> Option<u32>
    requires new { P.stands processor [] [] }
    requires takes { P.takes processor Stream 0 }
{
    let queue = filled(alloc, count)?;
    let Ok((dest, mut sink)) = ring::<Item>(alloc, SLOTS) else {
        return None;
    };
    let Ok(mut tasklet) = single(alloc, processor, queue, dest) else {
        return None;
    };
    turn(&mut tasklet)?;
    Some(drain(&mut sink))
}

fn through_filter(alloc: Global, count: u32) -> Option<u32> {
    through(alloc, FilterP::new(Expr::one()), count)
}

fn through_stamp(alloc: Global, count: u32) -> Option<u32> {
    let Ok(stamp) = Stamp::new(alloc, 1, 1000, 250) else {
        return None;
    };
    through(alloc, stamp, count)
}

// Tells a mark of the first queue, and answers whether the watermark rose.
fn tell(coalescer: &mut Coalescer, queue: u32, t: i64) -> bool
    requires inside { queue < length coalescer.old.queues }
    requires open { AreOpen coalescer.old }
    ensures open { AreOpen coalescer.new }
    ensures count { length coalescer.new.queues ≡ length coalescer.old.queues }
{
    match Mark::new(t) {
        Some(mark) => coalescer.observe(queue, mark).is_some(),
        None => false,
    }
}

// All queues but one are far ahead, so each mark of that raises the watermark.
fn through_coalescer(alloc: Global, queues: u32, behind: u32, count: u32) -> Option<u32> {
    let Ok(mut coalescer) = Coalescer::new(alloc, queues) else {
        return None;
    };
    if behind >= queues {
        return Some(0);
    }
    let mut rises = 0u32;
    'ahead: for queue in 0..queues {
        if queue != behind {
            tell(&mut coalescer, queue, 1_000_000_000);
        }
    }
    'behind: for t in 0..count {
        if tell(&mut coalescer, behind, i64::from(t)) {
            rises = rises.wrapping_add(1);
        }
    }
    Some(rises)
}

// All queues tell the same marks, one after the other, so the watermark rises with the last of them.
fn by_turns(alloc: Global, queues: u32, count: u32) -> Option<u32> {
    let Ok(mut coalescer) = Coalescer::new(alloc, queues) else {
        return None;
    };
    if queues == 0 {
        return Some(0);
    }
    let mut rises = 0u32;
    'turns: for n in 0..count {
        if tell(&mut coalescer, n % queues, i64::from(n / queues)) {
            rises = rises.wrapping_add(1);
        }
    }
    Some(rises)
}

fn dests(alloc: Global, count: u32) -> Option<Vec<Tx<Item>>> {
    let mut dests = Vec::new(alloc);
    for _ in 0..count {
        let Ok((tx, _)) = ring::<Item>(alloc, DEST_SLOTS) else {
            return None;
        };
        dests.push(tx).ok()?;
    }
    Some(dests)
}

fn through_router(alloc: Global, count: u32, items: u32) -> Option<u32> {
    let dests = dests(alloc, count)?;
    if dests.is_empty() || dests.len() > 1024 {
        return None;
    }
    let Ok(mut router) = Router::unicast(alloc, dests) else {
        return None;
    };
    let item = event()?;
    Some(give(&mut router, &item, items))
}

// Gives the item so many times, and answers how often it was taken.
fn give(router: &mut Router, item: &Item, count: u32) -> u32
    requires { (view router.old).busy ≡ true → IsInHand (view router.old) item.now }
{
    let mut given = 0u32;
    for _ in 0..count {
        if matches!(router.give(item), Given::All) {
            given = given.wrapping_add(1);
        }
    }
    given
}
