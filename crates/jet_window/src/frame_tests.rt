// Worked cases of a frame vertex: one that begins where another one stopped, and what it holds.
ghost use Rattle.std.specs.Prelude.{◌≡◌};
ghost use Rattle.jet_items.specs.Ranges.{IsWithin, most_time};
ghost use Rattle.jet_window.specs.Driven.{IsReady};

use super::*;
use crate::driven::tell;
use jet_boxes::{Outbox, Processor};
use jet_items::{Event, Item, Key, Mark};
use jet_policy::WinPolicy;
use std::alloc::Global;
use std::test::Fail;

fn key(name: &[u8]) -> Result<Key, Fail> {
    Ok(Key::read(name, 24).ok().ok_or("no key")?)
}

fn mark(t: i64) -> Result<Mark, Fail> {
    Ok(Mark::new(t).ok_or("no mark")?)
}

fn event(line: u32, ts: i64, key: Key) -> Item
    requires { IsWithin most_time ts }
{
    Item::Event(Event {
        part: 0,
        line,
        ts,
        key,
        v: [1, 0, 0, 0],
    })
}

// The processor, once it was told these items, which it gives here.
fn told<P: Processor + Drop>(
    alloc: Global,
    processor: P,
    items: &[Item],
    given: &mut Vec<Item>,
) -> Result<P, Fail>
    requires { IsReady P.stands P.takes processor }
{
    let mut processor = processor;
    let mut out = Outbox::new(alloc, 1)?;
    for item in items {
        if item.is_done() || !tell(&mut processor, item, &mut out, given)? {
            return Err(Fail::from("not told"));
        }
    }
    Ok(processor)
}

// The kind of each item, and its time or end.
fn shown(alloc: Global, items: &[Item]) -> Result<Vec<(char, i64)>, Fail> {
    let mut all = Vec::new(alloc);
    for item in items {
        all.push(match item {
            Item::Late(late) => ('l', late.event.ts),
            Item::Frame(frame) => ('f', frame.end),
            Item::Mark(mark) => ('m', mark.t),
            _ => ('-', 0),
        })?;
    }
    Ok(all)
}

#[test]
fn the_mark_of_a_start_stays(rt: HostRuntime) -> Result<(), Fail> {
    let a = key(b"a")?;
    let items = [
        event(1, 9, a),
        event(2, 12, a),
        Item::Mark(mark(5)?),
        event(3, 9, a),
        Item::Mark(mark(15)?),
        event(4, 14, a),
    ];
    let policy = WinPolicy::new(10, 5)?;
    let vertex = FrameP::from_mark(rt.alloc(), 2, policy, Some(mark(11)?));
    let mut given = Vec::new(rt.alloc());
    let vertex = told(rt.alloc(), vertex, &items, &mut given)?;
    let want = [
        ('l', 9),
        ('m', 5),
        ('l', 9),
        ('f', 15),
        ('m', 15),
        ('l', 14),
    ];
    assert_eq!(rt; shown(rt.alloc(), &given)?.as_slice(), want.as_slice());
    assert_eq!(rt; vertex.mark_taken().map(|mark| mark.t), Some(15));
    assert_eq!(rt; vertex.frames()?.len(), 0);
    Ok(())
}

#[test]
fn frames_that_are_held_stand_by_end_and_key(rt: HostRuntime) -> Result<(), Fail> {
    let (a, b) = (key(b"a")?, key(b"b")?);
    let items = [
        event(1, 12, b),
        event(2, 7, b),
        event(3, 3, a),
        Item::Mark(mark(5)?),
        event(4, 8, a),
        event(5, 9, a),
    ];
    let vertex = FrameP::new(rt.alloc(), 2, WinPolicy::new(10, 5)?);
    let mut given = Vec::new(rt.alloc());
    let vertex = told(rt.alloc(), vertex, &items, &mut given)?;
    let want = [(10, b'a', 2), (10, b'b', 1), (15, b'b', 1)];
    let frames = vertex.frames()?;
    assert_eq!(rt; frames.len(), want.len());
    for (frame, case) in frames.iter().zip(want.iter()) {
        assert_eq!(rt; frame.vertex, 2);
        assert_eq!(rt; frame.end, case.0);
        assert_eq!(rt; frame.key.bytes().first().copied(), Some(case.1));
        assert_eq!(rt; frame.acc.count, case.2);
    }
    Ok(())
}
