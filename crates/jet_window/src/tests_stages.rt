// Worked cases of the two stages of a window: frames of events, rows of frames, and several instances of each.
ghost use Rattle.std.specs.Prelude.{◌≡◌};
ghost use Rattle.jet_items.specs.Ranges.{IsWithin, most_time, most_frame_end};
ghost use Rattle.jet_window.specs.Driven.{IsReady};

use super::*;
use crate::driven::tell;
use jet_boxes::{Outbox, Processor};
use jet_items::{Acc, Event, Frame, Item, Key, Mark, Row, partition_of};
use jet_policy::WinPolicy;
use std::alloc::Global;
use std::test::Fail;
use std::thread;
use std::thread::Threads;

// What a test sees of an item: its kind, its time or end, and its count.
type Shown = (char, i64, u64);

fn key(name: &[u8]) -> Result<Key, Fail> {
    Ok(Key::read(name, 24).ok().ok_or("no key")?)
}

fn policy(size: i64, slide: i64) -> Result<WinPolicy, Fail> {
    Ok(WinPolicy::new(size, slide)?)
}

fn mark(t: i64) -> Result<Item, Fail> {
    Ok(Item::Mark(Mark::new(t).ok_or("no mark")?))
}

fn event(line: u32, ts: i64, key: Key, value: i64) -> Item
    requires ts { IsWithin most_time ts }
    requires value { IsWithin most_time value }
{
    Item::Event(Event {
        part: 0,
        line,
        ts,
        key,
        v: [value, 0, 0, 0],
    })
}

fn frame(end: i64, key: Key, count: u64) -> Item
    requires { IsWithin most_frame_end end }
{
    let acc = Acc {
        count,
        sum: i128::from(count),
        min: 1,
        max: 1,
    };
    Item::Frame(Frame {
        vertex: 2,
        end,
        key,
        acc,
    })
}

fn shown(item: &Item) -> Shown {
    match item {
        Item::Event(event) => ('e', event.ts, 1),
        Item::Side(_) => ('s', 0, 0),
        Item::Frame(frame) => ('f', frame.end, frame.acc.count),
        Item::Row(row) => ('r', row.end, row.acc.count),
        Item::Late(late) => ('l', late.event.ts, 1),
        Item::Mark(mark) => ('m', mark.t, 0),
        Item::Idle => ('i', 0, 0),
        Item::Done => ('d', 0, 0),
    }
}

// The items that a processor gives when it is told these, and then the end.
fn given<P: Processor + Drop>(
    alloc: Global,
    processor: P,
    items: &[Item],
) -> Result<Vec<Item>, Fail>
    requires { IsReady P.stands P.takes processor }
{
    let mut processor = processor;
    let mut out = Outbox::new(alloc, 1)?;
    let mut given = Vec::new(alloc);
    for item in items {
        if item.is_done() || !tell(&mut processor, item, &mut out, &mut given)? {
            return Err(Fail::from("not told"));
        }
    }
    if !tell(&mut processor, &Item::Done, &mut out, &mut given)? {
        return Err(Fail::from("not ended"));
    }
    Ok(given)
}

fn all_shown(alloc: Global, items: &[Item]) -> Result<Vec<Shown>, Fail> {
    let mut all = Vec::new(alloc);
    for item in items {
        all.push(shown(item))?;
    }
    Ok(all)
}

#[test]
fn frames_are_put_by_marks_and_at_the_end(rt: HostRuntime) -> Result<(), Fail> {
    let a = key(b"a")?;
    let told = [
        event(1, 7, a, 1),
        event(2, 12, a, 1),
        mark(10)?,
        event(3, 9, a, 1),
        event(4, 10, a, 1),
    ];
    let vertex = FrameP::new(rt.alloc(), 2, policy(10, 5)?);
    let given = given(rt.alloc(), vertex, &told)?;
    let want = [('f', 10, 1), ('m', 10, 0), ('l', 9, 1), ('f', 15, 2)];
    assert_eq!(rt; all_shown(rt.alloc(), &given)?.as_slice(), want.as_slice());
    Ok(())
}

#[test]
fn rows_are_put_by_marks_and_at_the_end(rt: HostRuntime) -> Result<(), Fail> {
    let a = key(b"a")?;
    let told = [frame(10, a, 1), mark(10)?, frame(15, a, 2)];
    let vertex = CombineP::new(rt.alloc(), 2, policy(10, 5)?);
    let given = given(rt.alloc(), vertex, &told)?;
    let want = [('r', 10, 1), ('m', 10, 0), ('r', 15, 3), ('r', 20, 2)];
    assert_eq!(rt; all_shown(rt.alloc(), &given)?.as_slice(), want.as_slice());
    Ok(())
}

// The end of a row, the last byte of its key, and its count, sum, least and greatest value.
type Known = ((i64, u8), (u64, i128, i64, i64));

fn known(row: &Row) -> Known {
    let key = row.key.bytes().last().copied().unwrap_or(0);
    let acc = row.acc;
    ((row.end, key), (acc.count, acc.sum, acc.min, acc.max))
}

fn known_rows(alloc: Global, items: &[Item]) -> Result<Vec<Known>, Fail> {
    let mut rows = Vec::new(alloc);
    for item in items {
        if let Item::Row(row) = item {
            rows.push(known(row))?;
        }
    }
    Ok(rows)
}

#[test]
fn the_least_value_goes_with_its_frame(rt: HostRuntime) -> Result<(), Fail> {
    let (first, second) = (key(b"sensor-1")?, key(b"sensor-2")?);
    let events = [
        event(1, 1_700_000_000_000, first, 215),
        event(2, 1_700_000_004_000, second, 198),
        event(3, 1_700_000_012_000, first, 217),
    ];
    let vertex = FrameP::new(rt.alloc(), 0, policy(60_000, 10_000)?);
    let frames = given(rt.alloc(), vertex, &events)?;
    let vertex = CombineP::new(rt.alloc(), 0, policy(60_000, 10_000)?);
    let rows = known_rows(rt.alloc(), &given(rt.alloc(), vertex, &frames)?)?;
    let (both, other) = ((2, 432, 215, 217), (1, 198, 198, 198));
    let want = [
        ((1_700_000_010_000, b'1'), (1, 215, 215, 215)),
        ((1_700_000_010_000, b'2'), other),
        ((1_700_000_020_000, b'1'), both),
        ((1_700_000_020_000, b'2'), other),
        ((1_700_000_030_000, b'1'), both),
        ((1_700_000_030_000, b'2'), other),
        ((1_700_000_040_000, b'1'), both),
        ((1_700_000_040_000, b'2'), other),
        ((1_700_000_050_000, b'1'), both),
        ((1_700_000_050_000, b'2'), other),
        ((1_700_000_060_000, b'1'), both),
        ((1_700_000_060_000, b'2'), other),
        ((1_700_000_070_000, b'1'), (1, 217, 217, 217)),
    ];
    assert_eq!(rt; rows.as_slice(), want.as_slice());
    Ok(())
}

#[test]
fn a_mark_that_jumps_far_ends_at_once(rt: HostRuntime) -> Result<(), Fail> {
    let a = key(b"a")?;
    let told = [
        frame(-5, a, 4),
        frame(15, a, 2),
        mark(1_000_000_000_000_000)?,
    ];
    let vertex = CombineP::new(rt.alloc(), 2, policy(10, 5)?);
    let given = given(rt.alloc(), vertex, &told)?;
    let want = [
        ('r', -5, 4),
        ('r', 0, 4),
        ('r', 15, 2),
        ('r', 20, 2),
        ('m', 1_000_000_000_000_000, 0),
    ];
    assert_eq!(rt; all_shown(rt.alloc(), &given)?.as_slice(), want.as_slice());
    Ok(())
}

#[test]
fn the_extremes_of_the_ranges_are_framed(rt: HostRuntime) -> Result<(), Fail> {
    let a = key(b"a")?;
    let told = [
        event(1, -1_000_000_000_000_000, a, -1_000_000_000_000_000),
        mark(-4_000_000_000_000_000)?,
        event(2, 1_000_000_000_000_000, a, 1_000_000_000_000_000),
        mark(4_000_000_000_000_000)?,
    ];
    let vertex = FrameP::new(
        rt.alloc(),
        255,
        policy(1_000_000_000_000, 1_000_000_000_000)?,
    );
    let given = given(rt.alloc(), vertex, &told)?;
    let want = [
        ('m', -4_000_000_000_000_000, 0),
        ('f', -999_000_000_000_000, 1),
        ('f', 1_001_000_000_000_000, 1),
        ('m', 4_000_000_000_000_000, 0),
    ];
    assert_eq!(rt; all_shown(rt.alloc(), &given)?.as_slice(), want.as_slice());
    Ok(())
}

#[test]
fn the_extremes_of_the_ranges_are_combined(rt: HostRuntime) -> Result<(), Fail> {
    let a = key(b"a")?;
    let told = [
        frame(-1_001_000_000_000_000, a, 1),
        frame(1_001_000_000_000_000, a, u64::MAX),
        mark(4_000_000_000_000_000)?,
    ];
    let vertex = CombineP::new(rt.alloc(), 255, policy(1_000_000_000_000, 500_000_000_000)?);
    let given = given(rt.alloc(), vertex, &told)?;
    let want = [
        ('r', -1_001_000_000_000_000, 1),
        ('r', -1_000_500_000_000_000, 1),
        ('r', 1_001_000_000_000_000, u64::MAX),
        ('r', 1_001_500_000_000_000, u64::MAX),
        ('m', 4_000_000_000_000_000, 0),
    ];
    assert_eq!(rt; all_shown(rt.alloc(), &given)?.as_slice(), want.as_slice());
    Ok(())
}

// The events of the lines that this instance of several reads, and every mark.
fn lines_of(
    alloc: Global,
    items: &[Item],
    instances: u32,
    instance: u32,
) -> Result<Vec<Item>, Fail> {
    let mut mine = Vec::new(alloc);
    for item in items {
        let keeps = match item {
            Item::Event(event) => event.line.checked_rem(instances) == Some(instance),
            _ => true,
        };
        if keeps {
            mine.push(*item)?;
        }
    }
    Ok(mine)
}

// The frames whose keys this instance of several owns.
fn frames_of(
    alloc: Global,
    items: &[Item],
    instances: u32,
    instance: u32,
) -> Result<Vec<Item>, Fail> {
    let mut mine = Vec::new(alloc);
    for item in items {
        if let Item::Frame(frame) = item {
            if partition_of(&frame.key).checked_rem(instances) == Some(instance) {
                mine.push(*item)?;
            }
        }
    }
    Ok(mine)
}

// All that several frame instances give for these events.
fn framed(alloc: Global, events: &[Item], instances: u32) -> Result<Vec<Item>, Fail> {
    let mut all = Vec::new(alloc);
    for instance in 0..instances {
        let mine = lines_of(alloc, events, instances, instance)?;
        let vertex = FrameP::new(alloc, 3, policy(10, 5)?);
        all.extend_from_slice(given(alloc, vertex, &mine)?.as_slice())?;
    }
    Ok(all)
}

// All that several combine instances give for these frames.
fn combined(alloc: Global, frames: &[Item], instances: u32) -> Result<Vec<Item>, Fail> {
    let mut all = Vec::new(alloc);
    for instance in 0..instances {
        let mine = frames_of(alloc, frames, instances, instance)?;
        let vertex = CombineP::new(alloc, 3, policy(10, 5)?);
        all.extend_from_slice(given(alloc, vertex, &mine)?.as_slice())?;
    }
    Ok(all)
}

fn held(alloc: Global, items: &[Item]) -> Result<OrderedRows, Fail> {
    let mut held = OrderedRows::new(alloc);
    held.close();
    for item in items {
        if let Item::Row(row) = item {
            held.put(*row)?;
        }
    }
    Ok(held)
}

// The rows among these items in their order: the end of each, its count and the first byte of its key.
fn in_order(alloc: Global, items: &[Item]) -> Result<Vec<(i64, u64, u8)>, Fail> {
    let mut held = held(alloc, items)?;
    let mut all = Vec::new(alloc);
    for _ in 0..items.len() {
        if let Some(row) = held.next() {
            all.push((
                row.end,
                row.acc.count,
                row.key.bytes().first().copied().unwrap_or(0),
            ))?;
        }
    }
    Ok(all)
}

#[test]
fn several_instances_give_the_rows_of_one(rt: HostRuntime) -> Result<(), Fail> {
    let (a, b, c) = (key(b"a")?, key(b"b")?, key(b"c")?);
    let events = [
        event(1, 7, a, 1),
        event(2, 12, b, 1),
        event(3, 9, a, 1),
        mark(5)?,
        event(4, 21, c, 1),
        event(5, 14, a, 1),
        event(6, 13, b, 1),
    ];
    let want = [
        (10, 2, b'a'),
        (15, 3, b'a'),
        (15, 2, b'b'),
        (20, 1, b'a'),
        (20, 2, b'b'),
        (25, 1, b'c'),
        (30, 1, b'c'),
    ];
    for (frames, combines) in [(1, 1), (2, 1), (1, 2), (2, 3), (3, 2)] {
        let framed = framed(rt.alloc(), &events, frames)?;
        let combined = combined(rt.alloc(), &framed, combines)?;
        let rows = in_order(rt.alloc(), &combined)?;
        assert_eq!(rt;
            rows.as_slice(),
            want.as_slice(),
            "{frames} and {combines} instances"
        );
    }
    Ok(())
}

fn moved_apart<R: Threads + Sync>(rt: &R, stages: (FrameP, CombineP)) -> (FrameP, CombineP) {
    let (stages, _) = thread::join(rt, move || stages, || ());
    stages
}

#[test]
fn the_stages_cross_to_a_thread_and_back(rt: HostRuntime) -> Result<(), Fail> {
    let frame = FrameP::new(rt.alloc(), 2, policy(10, 5)?);
    let combine = CombineP::new(rt.alloc(), 2, policy(10, 5)?);
    let _ = moved_apart(&rt, (frame, combine));
    Ok(())
}
