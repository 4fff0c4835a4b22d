// Two queues that are polled in turn, in part on another thread.
ghost use Rattle.std.specs.Prelude.{◌≡◌, length, slice_get, IfSome};
ghost use Rattle.jet_ring.specs.Ring.{tx_ring};
ghost use Rattle.jet_conveyor.specs.Conveyor.{view};

use super::*;
use jet_items::{Event, Item, Key};
use jet_ring::{Tx, ring};
use std::alloc::Global;
use std::test::Fail;
use std::thread;
use std::thread::Threads;

struct Made {
    first: Tx<Item>,
    second: Tx<Item>,
    conveyor: Conveyor,
}

// A conveyor over two rings of four slots.
fn two_queues(alloc: Global) -> Option<Made>
    ensures count { IfSome result (λ m. length (view m.conveyor).rings ≡ 2) }
    ensures first { IfSome result (λ m. slice_get (view m.conveyor).rings 0 ≡ Some (tx_ring m.first)) }
    ensures second { IfSome result (λ m. slice_get (view m.conveyor).rings 1 ≡ Some (tx_ring m.second)) }
{
    let (first, a) = ring::<Item>(alloc, 4).ok()?;
    let (second, b) = ring::<Item>(alloc, 4).ok()?;
    let mut queues = Vec::new(alloc);
    queues.push(a).ok()?;
    queues.push(b).ok()?;
    let conveyor = Conveyor::new(alloc, queues).ok()?;
    Some(Made {
        first,
        second,
        conveyor,
    })
}

// The event of a line of file 0.
fn event(line: u32) -> Option<Item> {
    let key = Key::read(b"a", 24).ok()?;
    Some(Item::Event(Event {
        part: 0,
        line,
        ts: 7,
        key,
        v: [0; 4],
    }))
}

fn line_of(event: &Event) -> u32 {
    event.line
}

// The queue and the line of an event that was taken, with line 0 for Done.
fn taken(polled: &Polled) -> Option<(u32, u32)> {
    match polled {
        Polled::Taken(queue, Item::Event(event)) => Some((*queue, line_of(event))),
        Polled::Taken(queue, Item::Done) => Some((*queue, 0)),
        _ => None,
    }
}

fn polled_twice(mut conveyor: Conveyor) -> (Conveyor, Polled, Polled) {
    let first = conveyor.poll();
    let second = conveyor.poll();
    (conveyor, first, second)
}

fn polled_apart<R: Threads + Sync>(rt: &R, conveyor: Conveyor) -> (Conveyor, Polled, Polled) {
    let (polled, _) = thread::join(rt, move || polled_twice(conveyor), || ());
    polled
}

#[test]
fn two_queues_give_in_turn(rt: HostRuntime) -> Result<(), Fail> {
    let Made {
        mut first,
        mut second,
        mut conveyor,
    } = two_queues(rt.alloc()).ok_or("memory")?;
    assert!(rt; first.offer(event(1).ok_or("key")?).is_ok());
    assert!(rt; first.offer(Item::Done).is_ok());
    assert!(rt; second.offer(event(2).ok_or("key")?).is_ok());
    assert!(rt; second.offer(Item::Done).is_ok());
    assert!(rt; conveyor.refresh_queue(0, &mut first).is_ok());
    assert!(rt; conveyor.refresh_queue(1, &mut second).is_ok());
    assert!(rt; !conveyor.all_done());
    let (mut conveyor, x, y) = polled_apart(&rt, conveyor);
    assert_eq!(rt; taken(&x), Some((0, 1)));
    assert_eq!(rt; taken(&y), Some((1, 2)));
    assert_eq!(rt; taken(&conveyor.poll()), Some((0, 0)));
    assert_eq!(rt; taken(&conveyor.poll()), Some((1, 0)));
    assert!(rt; matches!(conveyor.poll(), Polled::Nothing));
    assert!(rt; conveyor.all_done());
    Ok(())
}

#[test]
fn one_queue_is_polled_alone(rt: HostRuntime) -> Result<(), Fail> {
    let Made {
        mut first,
        mut second,
        mut conveyor,
    } = two_queues(rt.alloc()).ok_or("memory")?;
    assert!(rt; first.offer(event(1).ok_or("key")?).is_ok());
    assert!(rt; second.offer(Item::Done).is_ok());
    assert!(rt; conveyor.refresh_queue(0, &mut first).is_ok());
    assert!(rt; conveyor.refresh_queue(1, &mut second).is_ok());
    assert_eq!(rt; conveyor.queues(), 2);
    assert_eq!(rt; taken(&conveyor.poll_of(1)), Some((1, 0)));
    assert!(rt; matches!(conveyor.poll_of(1), Polled::Nothing));
    assert_eq!(rt; taken(&conveyor.poll_of(0)), Some((0, 1)));
    assert!(rt; !conveyor.all_done());
    Ok(())
}

// The queue that is found, and the line at its front, which stays there.
fn found(conveyor: &mut Conveyor) -> Option<(u32, u32)> {
    let queue = conveyor.find()?;
    let line = match conveyor.front(queue) {
        Item::Event(event) => line_of(event),
        _ => 0,
    };
    Some((queue, line))
}

fn skipped(conveyor: &mut Conveyor) -> Option<u32> {
    let queue = conveyor.find()?;
    conveyor.skip(queue);
    Some(queue)
}

#[test]
fn an_item_is_found_until_it_is_skipped(rt: HostRuntime) -> Result<(), Fail> {
    let Made {
        mut first,
        mut second,
        mut conveyor,
    } = two_queues(rt.alloc()).ok_or("memory")?;
    assert!(rt; first.put(&event(1).ok_or("key")?));
    assert!(rt; first.put(&Item::Done));
    assert!(rt; second.put(&event(2).ok_or("key")?));
    assert!(rt; conveyor.refresh_queue(0, &mut first).is_ok());
    assert!(rt; conveyor.refresh_queue(1, &mut second).is_ok());
    for (queue, line) in [(0, 1), (1, 2), (0, 0)] {
        assert_eq!(rt; found(&mut conveyor), Some((queue, line)));
        assert_eq!(rt; found(&mut conveyor), Some((queue, line)));
        assert_eq!(rt; skipped(&mut conveyor), Some(queue));
    }
    assert_eq!(rt; found(&mut conveyor), None);
    Ok(())
}
