// Worked cases of each stage, with outboxes of room 1, so that each second item meets a full box.
ghost use Rattle.std.specs.Prelude.{◌≡◌, ℕ, List, [], OnOk, IfSome};
ghost use Rattle.jet_items.specs.declared.item.Item.{Item};
ghost use Rattle.jet_items.specs.Ranges.{IsWithin, most_time};
ghost use Rattle.jet_boxes.specs.declared.port.Port.TheVariants.{Stream};
ghost use Rattle.jet_boxes.specs.Entry.{CallEntry, Given, IsData};
ghost use Rattle.jet_stages.specs.inner.Running.{IsRunning};

use super::*;
use jet_boxes::{Outbox, Port, Processor};
use jet_expr::{Expr, ExprFault};
use jet_items::{Event, Item, Key, NoMemory, Refused};
use std::alloc::Global;
use std::test::Fail;
use std::thread;
use std::thread::Threads;

// Makes a call for an item again and again until it answers true, as a tasklet does, and each time takes what was put.
// Answers how often it answered false; an Err stands for an end that does not come.
fn give<P: Processor>(
    processor: &mut P,
    queue: u32,
    item: &Item,
    out: &mut Outbox,
    given: &mut Vec<Item>,
) -> Result<u32, NoMemory>
    requires runs { (taken : List CallEntry) × (past : List Item) × P.stands processor.old taken past × IsRunning taken }
    requires takes { P.takes processor.old Stream queue }
    requires plain { IsData item.now }
    ensures runs { OnOk result ((taken : List CallEntry) × (past : List Item) × P.stands processor.new taken past × IsRunning taken) }
    ensures same { OnOk result (P.same processor.old processor.new) }
{
    for tries in 0..10u32 {
        let done = processor.accept(Port::Stream, queue, item, out)?;
        if let Some(put) = out.pop() {
            given.push(put)?;
        }
        if done {
            return Ok(tries);
        }
    }
    Err(NoMemory)
}

fn event(line: u32, ts: i64, v0: i64, v1: i64) -> Option<Item>
    requires time { IsWithin most_time ts }
    requires first { IsWithin most_time v0 }
    requires second { IsWithin most_time v1 }
    ensures { IfSome result IsData }
{
    let key = Key::read(b"a", 24).ok()?;
    Some(Item::Event(Event {
        part: 0,
        line,
        ts,
        key,
        v: [v0, v1, 0, 0],
    }))
}

// How long the key of an event is and its first two values, or 0 and the time of a mark.
fn shown(item: &Item) -> (usize, i64, i64) {
    match item {
        Item::Event(event) => (event.key.bytes().len(), event.v[0], event.v[1]),
        Item::Mark(mark) => (0, mark.t, 0),
        _ => (0, 0, 0),
    }
}

// What a filter, a map or a flat gives for the event 7, `a`, v0 = 2, v1 = 5, and how often it was asked again.
fn given_for<P: Processor + Drop>(
    alloc: Global,
    mut processor: P,
) -> Result<(u32, Vec<Item>), NoMemory>
    requires runs { P.stands processor [] [] }
    requires takes { P.takes processor Stream 0 }
{
    let mut out = Outbox::new(alloc, 1)?;
    let mut given = Vec::new(alloc);
    let again = match event(1, 7, 2, 5) {
        Some(item) => give(&mut processor, 0, &item, &mut out, &mut given)?,
        None => 0,
    };
    Ok((again, given))
}

fn leg(alloc: Global, value: &[u8], tag: Option<Key>) -> Result<Leg, Refused<ExprFault>> {
    Ok(Leg {
        test: Expr::one(),
        value: Expr::read(alloc, value)?,
        tag,
    })
}

fn two_legs(alloc: Global) -> Result<(u32, Vec<Item>), Refused<ExprFault>> {
    let tag = Key::read(b":x", 24).ok();
    let legs = Vec::from_array(alloc, [leg(alloc, b"v0", None)?, leg(alloc, b"v0*2", tag)?])?;
    Ok(given_for(alloc, FlatP::new(legs))?)
}

#[test]
fn a_flat_goes_on_with_its_second_leg(rt: HostRuntime) -> Result<(), Fail> {
    if let Ok((again, given)) = two_legs(rt.alloc()) {
        assert_eq!(rt; again, 1);
        assert_eq!(rt; given.len(), 2);
        assert_eq!(rt; given.first().map(shown), Some((1, 2, 5)));
        assert_eq!(rt; given.last().map(shown), Some((3, 4, 5)));
        return Ok(());
    }
    assert!(rt; false);
    Ok(())
}

// How many items a filter with this test gives.
fn passed(alloc: Global, test: &[u8]) -> Result<usize, Refused<ExprFault>> {
    let (_, given) = given_for(alloc, FilterP::new(Expr::read(alloc, test)?))?;
    Ok(given.len())
}

#[test]
fn a_filter_passes_what_its_test_holds_of(rt: HostRuntime) -> Result<(), Fail> {
    assert_eq!(rt; passed(rt.alloc(), b"v0 > 1").ok(), Some(1));
    assert_eq!(rt; passed(rt.alloc(), b"v0 > 2").ok(), Some(0));
    Ok(())
}

fn swapped(alloc: Global) -> Result<(u32, Vec<Item>), Refused<ExprFault>> {
    let first = Some(Expr::read(alloc, b"v1+1")?);
    let second = Some(Expr::read(alloc, b"v0")?);
    Ok(given_for(alloc, MapP::new([first, second, None, None]))?)
}

#[test]
fn a_map_reads_the_event_that_came_in(rt: HostRuntime) -> Result<(), Fail> {
    if let Ok((_, given)) = swapped(rt.alloc()) {
        assert_eq!(rt; given.len(), 1);
        assert_eq!(rt; given.first().map(shown), Some((1, 6, 2)));
        return Ok(());
    }
    assert!(rt; false);
    Ok(())
}

// The items that a stamp of one queue gives for the times 7 and 20. Its lag is 3 and its grain 5.
fn stamped(alloc: Global) -> Result<Vec<Item>, NoMemory> {
    let mut stamp = Stamp::new(alloc, 1, 3, 5)?;
    let mut out = Outbox::new(alloc, 1)?;
    let mut given = Vec::new(alloc);
    let first = event(1, 7, 0, 0).ok_or(NoMemory)?;
    let second = event(2, 20, 0, 0).ok_or(NoMemory)?;
    give(&mut stamp, 0, &first, &mut out, &mut given)?;
    give(&mut stamp, 0, &second, &mut out, &mut given)?;
    Ok(given)
}

#[test]
fn a_stamp_puts_a_mark_behind_its_event(rt: HostRuntime) -> Result<(), Fail> {
    if let Ok(given) = stamped(rt.alloc()) {
        assert_eq!(rt; given.len(), 4);
        assert_eq!(rt; given.first().map(shown), Some((1, 0, 0)));
        assert_eq!(rt; given.last().map(shown), Some((0, 15, 0)));
        return Ok(());
    }
    assert!(rt; false);
    Ok(())
}

// What a stamp of two queues gives for 20 of the first, 10 of the second, 30 of the first and 26 of the second.
fn stamped_of_two(alloc: Global) -> Result<Vec<Item>, NoMemory> {
    let mut stamp = Stamp::new(alloc, 2, 3, 5)?;
    let mut out = Outbox::new(alloc, 1)?;
    let mut given = Vec::new(alloc);
    let first = event(1, 20, 0, 0).ok_or(NoMemory)?;
    let second = event(1, 10, 0, 0).ok_or(NoMemory)?;
    let third = event(2, 30, 0, 0).ok_or(NoMemory)?;
    let fourth = event(2, 26, 0, 0).ok_or(NoMemory)?;
    give(&mut stamp, 0, &first, &mut out, &mut given)?;
    give(&mut stamp, 1, &second, &mut out, &mut given)?;
    give(&mut stamp, 0, &third, &mut out, &mut given)?;
    give(&mut stamp, 1, &fourth, &mut out, &mut given)?;
    Ok(given)
}

#[test]
fn a_stamp_waits_for_its_slower_queue(rt: HostRuntime) -> Result<(), Fail> {
    if let Ok(given) = stamped_of_two(rt.alloc()) {
        assert_eq!(rt; given.len(), 6);
        assert_eq!(rt; given.get(2).map(shown), Some((0, 5, 0)));
        assert_eq!(rt; given.last().map(shown), Some((0, 20, 0)));
        return Ok(());
    }
    assert!(rt; false);
    Ok(())
}

// What a stamp of two queues gives for 20 of the first, an idle note of the second, 12 of the second and 30 of the first:
// the mark of 20 comes with the idle note, and stays once the second queue has an event again.
fn stamped_while_idle(alloc: Global) -> Result<Vec<Item>, NoMemory> {
    let mut stamp = Stamp::new(alloc, 2, 3, 5)?;
    let mut out = Outbox::new(alloc, 1)?;
    let mut given = Vec::new(alloc);
    let first = event(1, 20, 0, 0).ok_or(NoMemory)?;
    let second = event(2, 12, 0, 0).ok_or(NoMemory)?;
    let third = event(2, 30, 0, 0).ok_or(NoMemory)?;
    give(&mut stamp, 0, &first, &mut out, &mut given)?;
    give(&mut stamp, 1, &Item::Idle, &mut out, &mut given)?;
    give(&mut stamp, 1, &second, &mut out, &mut given)?;
    give(&mut stamp, 0, &third, &mut out, &mut given)?;
    Ok(given)
}

#[test]
fn a_stamp_does_not_wait_for_an_idle_queue(rt: HostRuntime) -> Result<(), Fail> {
    if let Ok(given) = stamped_while_idle(rt.alloc()) {
        assert_eq!(rt; given.len(), 4);
        assert_eq!(rt; given.get(1).map(shown), Some((0, 15, 0)));
        assert_eq!(rt; given.last().map(shown), Some((1, 0, 0)));
        return Ok(());
    }
    assert!(rt; false);
    Ok(())
}

type Stages = (FilterP, MapP, FlatP, Stamp);

fn moved_apart<R: Threads + Sync>(rt: &R, stages: Stages) -> Stages {
    let (stages, _) = thread::join(rt, move || stages, || ());
    stages
}

fn stages(alloc: Global) -> Result<Stages, NoMemory> {
    let leg = Leg {
        test: Expr::one(),
        value: Expr::one(),
        tag: None,
    };
    Ok((
        FilterP::new(Expr::one()),
        MapP::new([None, None, None, None]),
        FlatP::new(Vec::from_array(alloc, [leg])?),
        Stamp::new(alloc, 1, 3, 5)?,
    ))
}

#[test]
fn the_stages_cross_to_a_thread_and_back(rt: HostRuntime) -> Result<(), Fail> {
    let stages = stages(rt.alloc()).ok().ok_or("memory")?;
    let _ = moved_apart(&rt, stages);
    Ok(())
}
