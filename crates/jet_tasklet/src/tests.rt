// Tasklets in one list, over rings of two slots, that take turns in several orders.
ghost use Rattle.std.specs.Prelude.{◌≡◌, ◌+◌, ◌<◌, [], length, IfOk, Some};
ghost use Rattle.jet_items.specs.Ranges.{IsWithin, most_time};
ghost use Rattle.jet_boxes.specs.declared.port.Port.TheVariants.{Stream};
ghost use Rattle.jet_ring.specs.Ring.{Ring, received, sent, rx_ring, tx_ring};
ghost use Rattle.jet_tasklet.specs.Inputs.{inputs_view};
ghost use Rattle.jet_tasklet.specs.Outputs.{outputs_view};
ghost use Rattle.jet_tasklet.specs.Keeps.{IsLawful};
ghost use Rattle.jet_tasklet.specs.Any.{AnyIsLawful};
ghost use Rattle.jet_tasklet.specs.inner.Chain.{ring_in, ring_out, ends_of, AreJoined, IsChain};

use super::*;
use jet_boxes::{Outbox, Port, Processor};
use jet_conveyor::Conveyor;
use jet_items::{Event, Item, Key, NoMemory};
use jet_policy::WinPolicy;
use jet_ring::{Rx, Tx, ring};
use jet_router::Router;
use jet_stages::Stamp;
use jet_window::{CombineP, FrameP};
use std::alloc::Global;
use std::test::Fail;

// A tasklet of one queue and one destination.
fn single<P: Processor + Drop>(
    alloc: Global,
    processor: P,
    queue: Rx<Item>,
    dest: Tx<Item>,
) -> Result<Tasklet<P>, NoMemory>
    requires new { P.stands processor [] [] }
    requires takes { P.takes processor Stream 0 }
    requires unread { received queue ≡ [] }
    requires unsent { sent dest ≡ [] }
    ensures lawful { IfOk result (λ t. IsLawful P.stands P.amid P.takes t) }
    ensures takes { IfOk result (λ t. ring_in (inputs_view t.inputs.items) ≡ Some (rx_ring queue)) }
    ensures gives { IfOk result (λ t. ring_out (outputs_view t.outputs.items) ≡ Some (tx_ring dest)) }
{
    let queues = Vec::from_array(alloc, [queue])?;
    let conveyor = Conveyor::new(alloc, queues)?;
    let input = Input {
        port: Port::Stream,
        conveyor,
    };
    let inputs = Vec::from_array(alloc, [input])?;
    let router = Router::isolated(alloc, dest)?;
    let outputs = Vec::from_array(alloc, [router])?;
    Tasklet::new(alloc, processor, inputs, outputs, 2)
}

// Tasklets in a chain, with the ends of the first ring and of the last.
#[derive(Drop)]
struct Chain {
    source: Tx<Item>,
    tasklets: Vec<AnyTasklet>,
    sink: Rx<Item>,
}

// A stamp of lag 3 and grain 5, and the two stages of windows of size 10 and slide 5.
fn window_chain(alloc: Global) -> Result<Chain, NoMemory>
    ensures { IfOk result (λ c. IsChain (tx_ring c.source) c.tasklets.items (rx_ring c.sink)) }
{
    let (source, first) = ring::<Item>(alloc, 2)?;
    let (stamped, second) = ring::<Item>(alloc, 2)?;
    let (framed, third) = ring::<Item>(alloc, 2)?;
    let (combined, sink) = ring::<Item>(alloc, 2)?;
    let policy = WinPolicy::new(10, 5).ok().ok_or(NoMemory)?;
    let stamp = single(alloc, Stamp::new(alloc, 1, 3, 5)?, first, stamped)?;
    let frame = single(alloc, FrameP::new(alloc, 2, policy), second, framed)?;
    let combine = single(alloc, CombineP::new(alloc, 2, policy), third, combined)?;
    let tasklets = [
        AnyTasklet::Stamp(stamp),
        AnyTasklet::Frame(frame),
        AnyTasklet::Combine(combine),
    ];
    Ok(Chain {
        source,
        tasklets: Vec::from_array(alloc, tasklets)?,
        sink,
    })
}

// The ends of the ring between two tasklets meet.
fn meet(giver: &mut AnyTasklet, taker: &mut AnyTasklet)
    requires giver { AnyIsLawful giver.old }
    requires taker { AnyIsLawful taker.old }
    requires joined { AreJoined (ends_of giver.old) (ends_of taker.old) }
    ensures giver { AnyIsLawful giver.new }
    ensures taker { AnyIsLawful taker.new }
    ensures gives { ends_of giver.new ≡ ends_of giver.old }
    ensures takes { ends_of taker.new ≡ ends_of taker.old }
{
    crate::meet(giver, 0, 0, taker, 0, 0);
}

// The ends of the ring between the first of a chain and its source meet.
fn meet_source(source: &mut Tx<Item>, taker: &mut AnyTasklet)
    requires taker { AnyIsLawful taker.old }
    requires joined { (ends_of taker.old).takes ≡ Some (tx_ring source.old) }
    ensures taker { AnyIsLawful taker.new }
    ensures ring { tx_ring source.new ≡ tx_ring source.old }
    ensures takes { ends_of taker.new ≡ ends_of taker.old }
{
    crate::meet_source(source, taker, 0, 0);
}

// The ends of the ring between the last of a chain and its sink meet.
fn meet_sink(giver: &mut AnyTasklet, sink: &mut Rx<Item>)
    requires giver { AnyIsLawful giver.old }
    requires joined { (ends_of giver.old).gives ≡ Some (rx_ring sink.old) }
    ensures giver { AnyIsLawful giver.new }
    ensures ring { rx_ring sink.new ≡ rx_ring sink.old }
    ensures gives { ends_of giver.new ≡ ends_of giver.old }
{
    let _ = giver.output(0).refresh_dest(0, sink);
}

fn meet_next(tasklets: &mut Vec<AnyTasklet>, place: usize)
    requires inside { place + 1 < length tasklets.old.items }
    requires chain { (from : Ring) × (to : Ring) × IsChain from tasklets.old.items to }
    ensures { (from to : Ring) → IsChain from tasklets.old.items to → IsChain from tasklets.new.items to }
{
    let (front, back) = tasklets.split_at_mut(place + 1);
    meet(&mut front[place], &mut back[0]);
}

fn turn_at(tasklets: &mut Vec<AnyTasklet>, place: usize) -> Result<Progress, NoMemory>
    requires inside { place < length tasklets.old.items }
    requires chain { (from : Ring) × (to : Ring) × IsChain from tasklets.old.items to }
    ensures { (from to : Ring) → IsChain from tasklets.old.items to → IsChain from tasklets.new.items to }
{
    tasklets[place].turn()
}

fn meet_all(chain: &mut Chain)
    requires { IsChain (tx_ring chain.old.source) chain.old.tasklets.items (rx_ring chain.old.sink) }
    ensures { IsChain (tx_ring chain.new.source) chain.new.tasklets.items (rx_ring chain.new.sink) }
{
    meet_source(&mut chain.source, &mut chain.tasklets[0]);
    meet_next(&mut chain.tasklets, 0);
    meet_next(&mut chain.tasklets, 1);
    meet_sink(&mut chain.tasklets[2], &mut chain.sink);
}

// A turn of one tasklet, once all ends have met.
fn turn_after_meetings(chain: &mut Chain, place: usize) -> Result<Progress, NoMemory>
    requires inside { place < 3 }
    requires chain { IsChain (tx_ring chain.old.source) chain.old.tasklets.items (rx_ring chain.old.sink) }
    ensures { IsChain (tx_ring chain.new.source) chain.new.tasklets.items (rx_ring chain.new.sink) }
{
    meet_all(chain);
    turn_at(&mut chain.tasklets, place)
}

// Offers the first of the items that are left to the first ring.
fn feed(source: &mut Tx<Item>, left: &mut Outbox)
    ensures { tx_ring source.new ≡ tx_ring source.old }
{
    let Some(item) = left.front().copied() else {
        return;
    };
    if source.offer(item).is_ok() {
        let _ = left.pop();
    }
}

// Feeds the chain, lets one tasklet take a turn, and takes what has come to the end.
fn step(chain: &mut Chain, place: usize, left: &mut Outbox) -> Result<Option<Item>, NoMemory>
    requires inside { place < 3 }
    requires chain { IsChain (tx_ring chain.old.source) chain.old.tasklets.items (rx_ring chain.old.sink) }
    ensures { IsChain (tx_ring chain.new.source) chain.new.tasklets.items (rx_ring chain.new.sink) }
{
    feed(&mut chain.source, left);
    turn_after_meetings(chain, place)?;
    Ok(chain.sink.take())
}

fn event(line: u32, ts: i64) -> Result<Item, NoMemory>
    requires { IsWithin most_time ts }
{
    let key = Key::read(b"a", 24).ok().ok_or(NoMemory)?;
    Ok(Item::Event(Event {
        part: 0,
        line,
        ts,
        key,
        v: [1, 0, 0, 0],
    }))
}

// The four events of the worked windows, and the end.
fn events(alloc: Global) -> Result<Outbox, NoMemory> {
    let mut left = Outbox::new(alloc, 5)?;
    for item in [
        event(1, 7)?,
        event(2, 20)?,
        event(3, 14)?,
        event(4, 15)?,
        Item::Done,
    ] {
        let _ = left.offer(item);
    }
    Ok(left)
}

// The end, count, sum, least and greatest of a row, and the time and the line of a late event.
type Shown = (i64, u64, i128, i64, i64);

fn shown(item: &Item) -> Option<Shown> {
    match item {
        Item::Row(row) => Some((
            row.end,
            row.acc.count,
            row.acc.sum,
            row.acc.min,
            row.acc.max,
        )),
        Item::Late(late) => Some((late.event.ts, 0, i128::from(late.event.line), 0, 0)),
        _ => None,
    }
}

// What comes to the end where the tasklets take turns in this order, over and over.
fn given(alloc: Global, order: &[usize]) -> Result<Vec<Shown>, NoMemory> {
    let mut chain = window_chain(alloc)?;
    let mut left = events(alloc)?;
    let mut rows = Vec::new(alloc);
    'rounds: for _ in 0..60 {
        'turns: for place in order {
            let item = step(&mut chain, *place % 3, &mut left)?;
            if let Some(row) = item.as_ref().and_then(shown) {
                rows.push(row)?;
            }
        }
    }
    Ok(rows)
}

#[test]
fn the_order_of_turns_does_not_matter(rt: HostRuntime) -> Result<(), Fail> {
    let rows = [
        (10, 1, 1, 1, 1),
        (15, 1, 1, 1, 1),
        (14, 0, 3, 0, 0),
        (20, 1, 1, 1, 1),
        (25, 2, 2, 1, 1),
        (30, 1, 1, 1, 1),
    ];
    for order in [
        [0, 1, 2, 2],
        [2, 1, 0, 0],
        [0, 0, 1, 2],
        [1, 0, 2, 0],
        [1, 2, 1, 0],
    ] {
        let given = given(rt.alloc(), &order)?;
        assert_eq!(rt; given.as_slice(), rows.as_slice());
    }
    Ok(())
}

#[test]
fn a_turn_moves_something_or_waits_or_is_the_last(rt: HostRuntime) -> Result<(), Fail> {
    let mut chain = window_chain(rt.alloc())?;
    let mut left = Outbox::new(rt.alloc(), 1)?;
    assert_eq!(rt; turn_after_meetings(&mut chain, 0)?, Progress::Idle);
    assert!(rt; left.offer(Item::Done).is_ok());
    feed(&mut chain.source, &mut left);
    assert_eq!(rt; turn_after_meetings(&mut chain, 0)?, Progress::Moved);
    assert_eq!(rt; turn_after_meetings(&mut chain, 0)?, Progress::Moved);
    assert_eq!(rt; turn_after_meetings(&mut chain, 0)?, Progress::Done);
    Ok(())
}
