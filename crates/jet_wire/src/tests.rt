// Edges of one queue and one destination: the acknowledgements and grants of a worked case, and a link of the least sizes,
// with both ends on one thread and with each on a thread of its own.
ghost use Rattle.std.specs.Prelude.{◌≡◌, IfOk};
ghost use Rattle.jet_ring.specs.Ring.{tx_ring, rx_ring};
ghost use Rattle.jet_router.specs.Router.{rings};
ghost use Rattle.jet_link.specs.Receiving.{SameRecv};
ghost use Rattle.jet_link.specs.Sending.{SameSend};
ghost use Rattle.jet_link.specs.Shape.{IsShape};
ghost use Rattle.jet_wire.specs.Edge.{IsEdge};
ghost use Rattle.jet_wire.specs.Receiver.{receiver_view, ReceiverIsLawful};
ghost use Rattle.jet_wire.specs.Sender.{sender_view, IsLawful};

use super::*;
use jet_conveyor::Conveyor;
use jet_items::{Event, Item, Key, NoMemory};
use jet_ring::{Rx, Tx, ring};
use jet_router::Router;
use std::alloc::Global;
use std::test::Fail;
use std::thread;
use std::thread::Threads;

// The least packet and window, and a grant that follows three times what was processed in two turns.
const SHAPE: LinkShape = LinkShape {
    packet: 256,
    window: 256,
    peak: 1024,
    multiplier: 3,
    period: 2,
    buffers: 5,
};

const LEAST: LinkShape = LinkShape {
    packet: 256,
    window: 1,
    peak: 1,
    multiplier: 1,
    period: 1,
    buffers: 4,
};

#[derive(Drop)]
struct Edge {
    source: Tx<Item>,
    sender: Sender,
    receiver: Receiver,
    sink: Rx<Item>,
}

fn new_edge(alloc: Global, shape: LinkShape) -> Result<Edge, NoMemory>
    requires { IsShape shape }
    ensures { IfOk result (λ e. IsEdge (tx_ring e.source) (sender_view e.sender) (receiver_view e.receiver) (rx_ring e.sink)) }
{
    let (source, queue) = ring::<Item>(alloc, 16)?;
    let (dest, sink) = ring::<Item>(alloc, 16)?;
    let (near, far) = link(alloc, shape)?;
    let conveyor = Conveyor::new(alloc, Vec::from_array(alloc, [queue])?)?;
    let sender = Sender::new(alloc, conveyor, near)?;
    let receiver = Receiver::new(far, Router::isolated(alloc, dest)?);
    Ok(Edge {
        source,
        sender,
        receiver,
        sink,
    })
}

// All ends meet.
fn meet(edge: &mut Edge)
    requires { IsEdge (tx_ring edge.old.source) (sender_view edge.old.sender) (receiver_view edge.old.receiver) (rx_ring edge.old.sink) }
    ensures { IsEdge (tx_ring edge.new.source) (sender_view edge.new.sender) (receiver_view edge.new.receiver) (rx_ring edge.new.sink) }
{
    let _ = edge.sender.conveyor().refresh_queue(0, &mut edge.source);
    let _ = refresh_link(&mut edge.sender, &mut edge.receiver);
    let _ = edge.receiver.router().refresh_dest(0, &mut edge.sink);
}

fn send(edge: &mut Edge) -> Progress
    requires { IsEdge (tx_ring edge.old.source) (sender_view edge.old.sender) (receiver_view edge.old.receiver) (rx_ring edge.old.sink) }
    ensures { IsEdge (tx_ring edge.new.source) (sender_view edge.new.sender) (receiver_view edge.new.receiver) (rx_ring edge.new.sink) }
{
    meet(edge);
    edge.sender.turn()
}

fn receive(edge: &mut Edge) -> Progress
    requires { IsEdge (tx_ring edge.old.source) (sender_view edge.old.sender) (receiver_view edge.old.receiver) (rx_ring edge.old.sink) }
    ensures { IsEdge (tx_ring edge.new.source) (sender_view edge.new.sender) (receiver_view edge.new.receiver) (rx_ring edge.new.sink) }
{
    meet(edge);
    edge.receiver.turn()
}

// An event that a packet spells in 49 bytes.
fn event(line: u32) -> Result<Item, NoMemory> {
    let key = Key::read(b"a", 24).ok().ok_or(NoMemory)?;
    Ok(Item::Event(Event {
        part: 0,
        line,
        ts: 0,
        key,
        v: [1, 0, 0, 0],
    }))
}

// Offers the events with the lines from `line` on and below `end`, at most 16 of them and as far as there is room.
fn feed(source: &mut Tx<Item>, line: &mut u32, end: u32) -> Result<(), NoMemory>
    ensures { tx_ring source.new ≡ tx_ring source.old }
{
    'events: for _ in 0..16 {
        if *line < end && source.offer(event(*line)?).is_ok() {
            *line += 1;
        }
    }
    Ok(())
}

fn line_of(item: &Item) -> Option<u32> {
    match item {
        Item::Event(event) => Some(event.line),
        _ => None,
    }
}

// Takes what has come, and counts the events as long as their lines follow each other.
fn drain(sink: &mut Rx<Item>, line: &mut u32)
    ensures { rx_ring sink.new ≡ rx_ring sink.old }
{
    'items: for _ in 0..16 {
        let item = sink.take();
        if item.as_ref().and_then(line_of) == Some(*line) {
            *line = line.wrapping_add(1);
        }
    }
}

// So many events in a packet of their own and two turns of the receiver: the bytes acknowledged, the limit and the grant
// after them.
fn round(edge: &mut Edge, events: u32) -> Result<(u64, u64, u32), NoMemory>
    requires { IsEdge (tx_ring edge.old.source) (sender_view edge.old.sender) (receiver_view edge.old.receiver) (rx_ring edge.old.sink) }
    ensures { IsEdge (tx_ring edge.new.source) (sender_view edge.new.sender) (receiver_view edge.new.receiver) (rx_ring edge.new.sink) }
{
    feed(&mut edge.source, &mut 0, events)?;
    send(edge);
    receive(edge);
    receive(edge);
    send(edge);
    let counts = edge.sender.counts();
    Ok((counts.acked, counts.limit, edge.receiver.grant()))
}

#[test]
fn the_grant_follows_what_was_processed(rt: HostRuntime) -> Result<(), Fail> {
    let mut edge = new_edge(rt.alloc(), SHAPE)?;
    assert_eq!(rt; round(&mut edge, 4)?, (196, 452, 588));
    assert_eq!(rt; round(&mut edge, 2)?, (294, 882, 294));
    assert_eq!(rt; round(&mut edge, 2)?, (392, 882, 294));
    assert_eq!(rt; round(&mut edge, 0)?, (392, 882, 256));
    Ok(())
}

// The events with the lines below `end` go in, and those that come out in their order are counted.
fn carried(edge: &mut Edge, end: u32) -> Result<u32, NoMemory>
    requires { IsEdge (tx_ring edge.old.source) (sender_view edge.old.sender) (receiver_view edge.old.receiver) (rx_ring edge.old.sink) }
    ensures { IsEdge (tx_ring edge.new.source) (sender_view edge.new.sender) (receiver_view edge.new.receiver) (rx_ring edge.new.sink) }
{
    let mut fed = 0;
    let mut came = 0;
    'rounds: for _ in 0..end {
        feed(&mut edge.source, &mut fed, end)?;
        send(edge);
        receive(edge);
        drain(&mut edge.sink, &mut came);
    }
    Ok(came)
}

#[test]
fn a_link_of_the_least_sizes_carries_everything(rt: HostRuntime) -> Result<(), Fail> {
    let mut edge = new_edge(rt.alloc(), LEAST)?;
    assert_eq!(rt; carried(&mut edge, 10_000)?, 10_000);
    assert_eq!(rt; send(&mut edge), Progress::Idle);
    assert_eq!(rt; receive(&mut edge), Progress::Idle);
    assert!(rt; edge.source.offer(Item::Done).is_ok());
    assert_eq!(rt; send(&mut edge), Progress::Moved);
    assert_eq!(rt; receive(&mut edge), Progress::Moved);
    assert_eq!(rt; receive(&mut edge), Progress::Done);
    assert_eq!(rt; send(&mut edge), Progress::Moved);
    assert_eq!(rt; send(&mut edge), Progress::Done);
    Ok(())
}

fn sent(mut sender: Sender) -> Sender
    requires { IsLawful (sender_view sender) }
    ensures lawful { IsLawful (sender_view result) }
    ensures rings { (sender_view result).queues.rings ≡ (sender_view sender).queues.rings }
    ensures same { SameSend (sender_view sender).end (sender_view result).end }
{
    sender.turn();
    sender
}

fn given(mut receiver: Receiver) -> Receiver
    requires { ReceiverIsLawful (receiver_view receiver) }
    ensures lawful { ReceiverIsLawful (receiver_view result) }
    ensures rings { rings (receiver_view result).router ≡ rings (receiver_view receiver).router }
    ensures same { SameRecv (receiver_view receiver).end (receiver_view result).end }
{
    receiver.turn();
    receiver
}

// The sender and the receiver have a turn at once, each on a thread of its own.
fn across<R: Threads + Sync>(rt: &R, edge: Edge) -> Edge
    requires { IsEdge (tx_ring edge.source) (sender_view edge.sender) (receiver_view edge.receiver) (rx_ring edge.sink) }
    ensures { IsEdge (tx_ring result.source) (sender_view result.sender) (receiver_view result.receiver) (rx_ring result.sink) }
{
    let Edge {
        source,
        sender,
        receiver,
        sink,
    } = edge;
    let (sender, receiver) = thread::join(rt, move || sent(sender), move || given(receiver));
    Edge {
        source,
        sender,
        receiver,
        sink,
    }
}

// As `carried`, with turns on two threads.
fn carried_across<R: Threads + Sync>(rt: &R, mut edge: Edge, end: u32) -> Result<u32, NoMemory>
    requires { IsEdge (tx_ring edge.source) (sender_view edge.sender) (receiver_view edge.receiver) (rx_ring edge.sink) }
{
    let mut fed = 0;
    let mut came = 0;
    'rounds: for _ in 0..end {
        feed(&mut edge.source, &mut fed, end)?;
        meet(&mut edge);
        edge = across(rt, edge);
        meet(&mut edge);
        drain(&mut edge.sink, &mut came);
    }
    Ok(came)
}

#[test]
fn both_ends_cross_to_threads_and_back(rt: HostRuntime) -> Result<(), Fail> {
    let edge = new_edge(rt.alloc(), LEAST)?;
    assert_eq!(rt; carried_across(&rt, edge, 10_000)?, 10_000);
    Ok(())
}
