// Joins of a few events, through a box of one place and a wider one.
ghost use Rattle.std.specs.Prelude.{◌≤◌, IfSome};
ghost use Rattle.jet_boxes.specs.Entry.{IsData};
ghost use Rattle.jet_join.specs.inner.Histories.{IsOpen};

use super::*;
use jet_boxes::{Outbox, Port, Processor};
use jet_items::{Event, Item, Key, Mark, Side};
use std::alloc::Global;
use std::test::Fail;
use std::thread;
use std::thread::Threads;

// A side row with this first value.
fn side(key: &[u8], label: &[u8], value: i16) -> Option<Item>
    ensures { IfSome result IsData }
{
    Some(Item::Side(Side {
        line: 1,
        key: Key::read(key, 24).ok()?,
        label: Key::read(label, 24).ok()?,
        v: [i64::from(value), 0, 0, 0],
    }))
}

// An event of time 3 with these values.
fn event(key: &[u8], first: i16, last: i16) -> Option<Item>
    ensures { IfSome result IsData }
{
    Some(Item::Event(Event {
        part: 0,
        line: 1,
        ts: 3,
        key: Key::read(key, 24).ok()?,
        v: [i64::from(first), 0, 0, i64::from(last)],
    }))
}

fn is_event(item: &Item, key: &[u8], first: i64, last: i64) -> bool {
    match item {
        Item::Event(event) => event_is(event, key, first, last),
        _ => false,
    }
}

fn event_is(event: &Event, key: &[u8], first: i64, last: i64) -> bool {
    event.key.bytes() == key && event.v == [first, 0, 0, last] && event.ts == 3
}

// A join, its box and what it gave so far.
#[derive(Drop)]
struct Run {
    join: JoinP,
    out: Outbox,
    given: Vec<Item>,
}

fn start(alloc: Global, mode: Mode, rekey: bool, room: u32) -> Option<Run>
    requires { 1 ≤ room }
    ensures { IfSome result (λ r. IsOpen r.join) }
{
    let fields = [
        Take::Side(0),
        Take::Event(1),
        Take::Event(2),
        Take::Event(3),
    ];
    Some(Run {
        join: JoinP::new(alloc, mode, rekey, fields),
        out: Outbox::new(alloc, room).ok()?,
        given: Vec::new(alloc),
    })
}

// Moves what the box holds behind what was given.
fn empty(out: &mut Outbox, given: &mut Vec<Item>) -> Option<()> {
    for _ in 0..4u32 {
        match out.pop() {
            Some(item) => given.push(item).ok()?,
            None => return Some(()),
        }
    }
    None
}

// Makes a call again until it answers true, with the box emptied in between.
fn take(run: Run, port: Port, item: &Item) -> Option<Run>
    requires open { IsOpen run.join }
    requires data { IsData item.now }
    ensures { IfSome result (λ r. IsOpen r.join) }
{
    let Run {
        mut join,
        mut out,
        mut given,
    } = run;
    for _ in 0..4u32 {
        let Ok(ended) = join.accept(port, 0, item, &mut out) else {
            return None;
        };
        empty(&mut out, &mut given)?;
        if ended {
            return Some(Run { join, out, given });
        }
    }
    None
}

// What a join of two rows of `a` gives for an event of `a` and one of `c`.
fn joined(alloc: Global, mode: Mode, rekey: bool, room: u32) -> Option<Vec<Item>>
    requires { 1 ≤ room }
{
    let run = start(alloc, mode, rekey, room)?;
    let run = take(run, Port::Build, &side(b"a", b"x", 10)?)?;
    let run = take(run, Port::Build, &side(b"a", b"y", 20)?)?;
    let run = take(run, Port::Stream, &event(b"a", 1, 7)?)?;
    let run = take(run, Port::Stream, &event(b"c", 2, 8)?)?;
    Some(run.given)
}

#[test]
fn two_rows_of_a_key(rt: HostRuntime) -> Result<(), Fail> {
    for room in [1, 3] {
        for (mode, rekey, first, second, count) in [
            (Mode::Inner, false, b"a", b"a", 2),
            (Mode::Left, false, b"a", b"a", 3),
            (Mode::Inner, true, b"x", b"y", 2),
            (Mode::Left, true, b"x", b"y", 3),
        ] {
            let given = joined(rt.alloc(), mode, rekey, room).ok_or("none")?;
            assert_eq!(rt; given.len(), count);
            assert!(rt;
                given
                    .get(0)
                    .is_some_and(|item| is_event(item, first, 10, 7))
            );
            assert!(rt;
                given
                    .get(1)
                    .is_some_and(|item| is_event(item, second, 20, 7))
            );
            if mode == Mode::Left {
                assert!(rt; given.get(2).is_some_and(|item| is_event(item, b"c", 2, 8)));
            }
        }
    }
    Ok(())
}

#[test]
fn a_mark_passes_and_the_end_gives_nothing(rt: HostRuntime) -> Result<(), Fail> {
    let mark = Mark::new(5).ok_or("range")?;
    let Run {
        mut join,
        mut out,
        ..
    } = start(rt.alloc(), Mode::Inner, false, 1).ok_or("memory")?;
    assert!(rt; join.mark(mark, &mut out).is_ok());
    assert!(rt; matches!(out.pop(), Some(Item::Mark(_))));
    let Run {
        mut join,
        mut out,
        ..
    } = start(rt.alloc(), Mode::Inner, false, 1).ok_or("memory")?;
    assert!(rt; join.close_queue(Port::Build, 0, &mut out));
    assert!(rt; out.pop().is_none());
    let Run {
        mut join,
        mut out,
        ..
    } = start(rt.alloc(), Mode::Inner, false, 1).ok_or("memory")?;
    assert!(rt; matches!(join.finish(&mut out), Ok(true)));
    assert!(rt; out.pop().is_none());
    Ok(())
}

fn moved_apart<R: Threads + Sync>(rt: &R, join: JoinP) -> JoinP {
    let (join, _) = thread::join(rt, move || join, || ());
    join
}

#[test]
fn a_join_crosses_to_a_thread_and_back(rt: HostRuntime) -> Result<(), Fail> {
    let run = start(rt.alloc(), Mode::Left, true, 1).ok_or("memory")?;
    let _ = moved_apart(&rt, run.join);
    Ok(())
}
