//! Measures what an item costs that goes through a plain ring, and what through a link between two rings: with both ends on
//! one thread, and with each end on a thread of its own between two meetings.
//!
//! It prints how many items came, and on standard error the time of an item.
#![tactic(auto)]

ghost use Rattle.std.specs.Prelude.{◌≡◌, IfOk};
ghost use Rattle.jet_ring.specs.Ring.{tx_ring, rx_ring, IsPair};
ghost use Rattle.jet_link.specs.Meeting.{IsLink};
ghost use Rattle.jet_link.specs.Receiving.{SameRecv};
ghost use Rattle.jet_link.specs.Sending.{SameSend};
ghost use Rattle.jet_link.specs.Shape.{IsShape};
ghost use Rattle.jet_wire.specs.Edge.{TakesFrom, GivesInto};
ghost use Rattle.jet_wire.specs.Receiver.{receiver_view};
ghost use Rattle.jet_wire.specs.Sender.{sender_view};

use jet_conveyor::Conveyor;
use jet_items::{Event, Item, Key, NoMemory};
use jet_ring::{Rx, Tx, refresh, ring};
use jet_router::Router;
use jet_wire::{LinkShape, Receiver, Sender, link, refresh_link};
use std::alloc::Global;
use std::io::{self, ErrorKind};
use std::thread::{self, Threads};
use std::time::Instant;

// The slots of a ring: more than the items of the greatest packet.
const SLOTS: usize = 2048;

// How many items are offered in a turn, at most.
const TURN: u32 = 64;

// How many turns an end has between two meetings where it is on a thread of its own.
const TURNS: u32 = 32;

// So many meetings are enough for all items of a row.
const ROUNDS: u32 = 1_000_000;

// The least packet and window: one packet is on the way.
const LEAST: LinkShape = LinkShape {
    packet: 256,
    window: 1,
    peak: 1,
    multiplier: 1,
    period: 1,
    buffers: 4,
};

// Packets and windows of 64 KiB.
const WIDE: LinkShape = LinkShape {
    packet: 65_536,
    window: 65_536,
    peak: 65_536,
    multiplier: 3,
    period: 2,
    buffers: 4,
};

fn main(rt: HostRuntime) -> io::Result<()> {
    let alloc = rt.alloc();
    let item = event().ok_or(io::Error::from(ErrorKind::InvalidInput))?;
    let start = Instant::now(&rt)?;
    let came = plain(alloc, &item, 1_000_000).ok().unwrap_or(0);
    tell(rt, "a ring, one thread", came, start)?;
    let start = Instant::now(&rt)?;
    let came = plain_across(&rt, alloc, &item, 1_000_000).ok().unwrap_or(0);
    tell(rt, "a ring, two threads", came, start)?;
    let start = Instant::now(&rt)?;
    let came = linked(alloc, LEAST, &item, 100_000).ok().unwrap_or(0);
    tell(rt, "the least link, one thread", came, start)?;
    let start = Instant::now(&rt)?;
    let came = linked_across(&rt, alloc, LEAST, &item, 10_000)
        .ok()
        .unwrap_or(0);
    tell(rt, "the least link, two threads", came, start)?;
    let start = Instant::now(&rt)?;
    let came = linked(alloc, WIDE, &item, 1_000_000).ok().unwrap_or(0);
    tell(rt, "a link of 64 KiB, one thread", came, start)?;
    let start = Instant::now(&rt)?;
    let came = linked_across(&rt, alloc, WIDE, &item, 1_000_000)
        .ok()
        .unwrap_or(0);
    tell(rt, "a link of 64 KiB, two threads", came, start)
}

// How many items came, and on standard error what each took since the start.
fn tell(rt: HostRuntime, name: &str, came: u64, start: Instant) -> io::Result<()> {
    let nanos = start.elapsed(&rt)?.as_nanos();
    println!(rt; "{name}: {came} items")?;
    if came > 0 && nanos > 0 {
        let each = nanos / u128::from(came);
        let second = u128::from(came) * 1_000_000_000 / nanos;
        eprintln!(rt; "{name}: {each} ns an item, {second} items a second")?;
    }
    Ok(())
}

// An event that a packet spells in 56 bytes.
fn event() -> Option<Item> {
    let key = Key::read(b"sensor-1", 40).ok()?;
    Some(Item::Event(Event {
        part: 0,
        line: 1,
        ts: 1000,
        key,
        v: [215, 0, 0, 0],
    }))
}

// Offers the item as often as is left, at most so often as in one turn, and as long as there is room.
fn fill(tx: &mut Tx<Item>, item: &Item, left: &mut u32)
    ensures { tx_ring tx.new ≡ tx_ring tx.old }
{
    for _ in 0..TURN {
        if *left == 0 || tx.offer(*item).is_err() {
            return;
        }
        *left = left.saturating_sub(1);
    }
}

// Takes what is there, and answers how many items that were.
fn drain(rx: &mut Rx<Item>) -> u64
    ensures { rx_ring rx.new ≡ rx_ring rx.old }
{
    let mut taken = 0u64;
    for _ in 0..SLOTS {
        if rx.take().is_none() {
            return taken;
        }
        taken = taken.saturating_add(1);
    }
    taken
}

fn plain(alloc: Global, item: &Item, count: u32) -> Result<u64, NoMemory> {
    let (mut tx, mut rx) = ring::<Item>(alloc, SLOTS)?;
    let mut left = count;
    let mut came = 0u64;
    for _ in 0..ROUNDS {
        if came >= u64::from(count) {
            return Ok(came);
        }
        fill(&mut tx, item, &mut left);
        let _ = refresh(&mut tx, &mut rx);
        came = came.saturating_add(drain(&mut rx));
        let _ = refresh(&mut tx, &mut rx);
    }
    Ok(came)
}

fn filled(mut tx: Tx<Item>, item: Item, mut left: u32) -> (Tx<Item>, u32)
    ensures { tx_ring result.0 ≡ tx_ring tx }
{
    for _ in 0..TURNS {
        fill(&mut tx, &item, &mut left);
    }
    (tx, left)
}

fn drained(mut rx: Rx<Item>) -> (Rx<Item>, u64)
    ensures { rx_ring result.0 ≡ rx_ring rx }
{
    let came = drain(&mut rx);
    (rx, came)
}

// Fills and drains the ring, each on a thread, until both are done. Then the ends meet.
fn beside<R: Threads + Sync>(
    rt: &R,
    tx: Tx<Item>,
    rx: Rx<Item>,
    item: Item,
    left: u32,
) -> (Tx<Item>, Rx<Item>, u32, u64)
    requires { IsPair tx rx }
    ensures { IsPair result.0 result.1 }
{
    let ((mut tx, left), (mut rx, came)) = thread::join(
        rt,
        move || filled(tx, item, left),
        move || drained(rx),
    );
    let _ = refresh(&mut tx, &mut rx);
    (tx, rx, left, came)
}

fn plain_across<R: Threads + Sync>(
    rt: &R,
    alloc: Global,
    item: &Item,
    count: u32,
) -> Result<u64, NoMemory> {
    let (mut tx, mut rx) = ring::<Item>(alloc, SLOTS)?;
    let mut left = count;
    let mut came = 0u64;
    for _ in 0..ROUNDS {
        if came >= u64::from(count) {
            return Ok(came);
        }
        let (next_tx, next_rx, next_left, more) = beside(rt, tx, rx, *item, left);
        tx = next_tx;
        rx = next_rx;
        left = next_left;
        came = came.saturating_add(more);
    }
    Ok(came)
}

// A sender, the ring that feeds it, and how many items are left for that.
#[derive(Drop)]
struct Near {
    source: Tx<Item>,
    left: u32,
    sender: Sender,
}

// A receiver, and the ring that it gives into.
#[derive(Drop)]
struct Far {
    receiver: Receiver,
    sink: Rx<Item>,
}

fn new_edge(alloc: Global, shape: LinkShape, left: u32) -> Result<(Near, Far), NoMemory>
    requires { IsShape shape }
    ensures near { IfOk result (λ e. TakesFrom (tx_ring e.0.source) (sender_view e.0.sender)) }
    ensures link { IfOk result (λ e. IsLink (sender_view e.0.sender).end (receiver_view e.1.receiver).end) }
    ensures far { IfOk result (λ e. GivesInto (receiver_view e.1.receiver) (rx_ring e.1.sink)) }
{
    let (source, queue) = ring::<Item>(alloc, SLOTS)?;
    let (dest, sink) = ring::<Item>(alloc, SLOTS)?;
    let (near, far) = link(alloc, shape)?;
    let conveyor = Conveyor::new(alloc, Vec::from_array(alloc, [queue])?)?;
    let sender = Sender::new(alloc, conveyor, near)?;
    let receiver = Receiver::new(far, Router::isolated(alloc, dest)?);
    let near = Near {
        source,
        left,
        sender,
    };
    Ok((near, Far { receiver, sink }))
}

// Items are offered, and the sender has a turn.
fn send(near: &mut Near, item: &Item)
    requires { TakesFrom (tx_ring near.old.source) (sender_view near.old.sender) }
    ensures takes { TakesFrom (tx_ring near.new.source) (sender_view near.new.sender) }
    ensures same { SameSend (sender_view near.old.sender).end (sender_view near.new.sender).end }
{
    fill(&mut near.source, item, &mut near.left);
    let _ = near.sender.conveyor().refresh_queue(0, &mut near.source);
    near.sender.turn();
}

// The receiver has a turn, and what came is taken and counted.
fn receive(far: &mut Far) -> u64
    requires { GivesInto (receiver_view far.old.receiver) (rx_ring far.old.sink) }
    ensures gives { GivesInto (receiver_view far.new.receiver) (rx_ring far.new.sink) }
    ensures same { SameRecv (receiver_view far.old.receiver).end (receiver_view far.new.receiver).end }
{
    far.receiver.turn();
    let _ = far.receiver.router().refresh_dest(0, &mut far.sink);
    drain(&mut far.sink)
}

// The link meets.
fn meet(near: &mut Near, far: &mut Far)
    requires near { TakesFrom (tx_ring near.old.source) (sender_view near.old.sender) }
    requires link { IsLink (sender_view near.old.sender).end (receiver_view far.old.receiver).end }
    requires far { GivesInto (receiver_view far.old.receiver) (rx_ring far.old.sink) }
    ensures near { TakesFrom (tx_ring near.new.source) (sender_view near.new.sender) }
    ensures link { IsLink (sender_view near.new.sender).end (receiver_view far.new.receiver).end }
    ensures far { GivesInto (receiver_view far.new.receiver) (rx_ring far.new.sink) }
{
    let _ = refresh_link(&mut near.sender, &mut far.receiver);
}

fn linked(alloc: Global, shape: LinkShape, item: &Item, count: u32) -> Result<u64, NoMemory>
    requires { IsShape shape }
{
    let (mut near, mut far) = new_edge(alloc, shape, count)?;
    let mut came = 0u64;
    for _ in 0..ROUNDS {
        if came >= u64::from(count) {
            return Ok(came);
        }
        send(&mut near, item);
        meet(&mut near, &mut far);
        came = came.saturating_add(receive(&mut far));
        meet(&mut near, &mut far);
    }
    Ok(came)
}

fn sent(mut near: Near, item: Item) -> Near
    requires { TakesFrom (tx_ring near.source) (sender_view near.sender) }
    ensures takes { TakesFrom (tx_ring result.source) (sender_view result.sender) }
    ensures same { SameSend (sender_view near.sender).end (sender_view result.sender).end }
{
    for _ in 0..TURNS {
        send(&mut near, &item);
    }
    near
}

fn received(mut far: Far) -> (Far, u64)
    requires { GivesInto (receiver_view far.receiver) (rx_ring far.sink) }
    ensures gives { GivesInto (receiver_view result.0.receiver) (rx_ring result.0.sink) }
    ensures same { SameRecv (receiver_view far.receiver).end (receiver_view result.0.receiver).end }
{
    let mut came = 0u64;
    for _ in 0..TURNS {
        came = came.saturating_add(receive(&mut far));
    }
    (far, came)
}

// Both ends of the link have their turns, each on a thread. Then they meet.
fn across<R: Threads + Sync>(rt: &R, near: Near, far: Far, item: Item) -> (Near, Far, u64)
    requires near { TakesFrom (tx_ring near.source) (sender_view near.sender) }
    requires link { IsLink (sender_view near.sender).end (receiver_view far.receiver).end }
    requires far { GivesInto (receiver_view far.receiver) (rx_ring far.sink) }
    ensures near { TakesFrom (tx_ring result.0.source) (sender_view result.0.sender) }
    ensures link { IsLink (sender_view result.0.sender).end (receiver_view result.1.receiver).end }
    ensures far { GivesInto (receiver_view result.1.receiver) (rx_ring result.1.sink) }
{
    let (mut near, (mut far, came)) = thread::join(
        rt,
        move || sent(near, item),
        move || received(far),
    );
    meet(&mut near, &mut far);
    (near, far, came)
}

fn linked_across<R: Threads + Sync>(
    rt: &R,
    alloc: Global,
    shape: LinkShape,
    item: &Item,
    count: u32,
) -> Result<u64, NoMemory>
    requires { IsShape shape }
{
    let (mut near, mut far) = new_edge(alloc, shape, count)?;
    let mut came = 0u64;
    for _ in 0..ROUNDS {
        if came >= u64::from(count) {
            return Ok(came);
        }
        let (next_near, next_far, more) = across(rt, near, far, *item);
        near = next_near;
        far = next_far;
        came = came.saturating_add(more);
    }
    Ok(came)
}
