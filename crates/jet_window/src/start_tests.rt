// Worked cases of a combine vertex that goes on where another one stopped.
ghost use Rattle.std.specs.Prelude.{◌≡◌, OnOk, IfOk};
ghost use Rattle.jet_items.specs.Ranges.{IsWithin, most_frame_end};
ghost use Rattle.jet_window.specs.Driven.{IsReady};

use super::*;
use crate::driven::tell;
use jet_boxes::{Outbox, Processor};
use jet_items::{Acc, Frame, Item, Key, Mark};
use jet_policy::WinPolicy;
use std::alloc::Global;
use std::test::Fail;

// What a test sees of an item: its kind, its end, its count and the first byte of its key.
type Shown = (char, i64, u64, u8);

fn key(name: &[u8]) -> Result<Key, Fail> {
    Ok(Key::read(name, 24).ok().ok_or("no key")?)
}

fn policy(size: i64, slide: i64) -> Result<WinPolicy, Fail>
    ensures { IfOk result (λ p. (p.size ≡ size) × (p.slide ≡ slide)) }
{
    Ok(WinPolicy::new(size, slide)?)
}

fn mark(t: i64) -> Result<Mark, Fail>
    ensures { IfOk result (λ m. m ≡ t) }
{
    Ok(Mark::new(t).ok_or("no mark")?)
}

fn frame(end: i64, key: Key, count: u64) -> Frame
    requires { IsWithin most_frame_end end }
    ensures vertex { result.vertex ≡ 2 }
    ensures end { result.end ≡ end }
{
    let acc = Acc {
        count,
        sum: i128::from(count),
        min: 1,
        max: 1,
    };
    Frame {
        vertex: 2,
        end,
        key,
        acc,
    }
}

fn first_byte(key: &Key) -> u8 {
    key.bytes().first().copied().unwrap_or(0)
}

fn shown(item: &Item) -> Shown {
    match item {
        Item::Row(row) => ('r', row.end, row.acc.count, first_byte(&row.key)),
        Item::Mark(mark) => ('m', mark.t, 0, 0),
        _ => ('?', 0, 0, 0),
    }
}

// Tells a processor all these items, and puts what it gives behind `given`.
fn tell_all<P: Processor>(
    processor: &mut P,
    items: &[Item],
    out: &mut Outbox,
    given: &mut Vec<Item>,
) -> Result<(), Fail>
    requires { IsReady P.stands P.takes processor.old }
    ensures { OnOk result (IsReady P.stands P.takes processor.new) }
{
    for item in items {
        if item.is_done() || !tell(processor, item, out, given)? {
            return Err(Fail::from("not told"));
        }
    }
    Ok(())
}

// What a processor gives that is told these items, and then the end.
fn given<P: Processor + Drop>(
    alloc: Global,
    processor: P,
    items: &[Item],
) -> Result<Vec<Shown>, Fail>
    requires { IsReady P.stands P.takes processor }
{
    let mut processor = processor;
    let mut out = Outbox::new(alloc, 1)?;
    let mut given = Vec::new(alloc);
    tell_all(&mut processor, items, &mut out, &mut given)?;
    if !tell(&mut processor, &Item::Done, &mut out, &mut given)? {
        return Err(Fail::from("not ended"));
    }
    let mut all = Vec::new(alloc);
    for item in &given {
        all.push(shown(item))?;
    }
    Ok(all)
}

// What is taken up to the mark 10. The frame that ends at 15 comes from an instance that is ahead.
fn first_part() -> Result<[Item; 4], Fail> {
    let (a, b) = (key(b"a")?, key(b"b")?);
    Ok([
        Item::Frame(frame(5, a, 1)),
        Item::Frame(frame(10, a, 2)),
        Item::Frame(frame(15, b, 4)),
        Item::Mark(mark(10)?),
    ])
}

// What is taken from there on. The lower mark is one of a run that begins its marks anew.
fn second_part() -> Result<[Item; 4], Fail> {
    let (a, b) = (key(b"a")?, key(b"b")?);
    Ok([
        Item::Mark(mark(5)?),
        Item::Frame(frame(15, a, 8)),
        Item::Mark(mark(15)?),
        Item::Frame(frame(20, b, 16)),
    ])
}

#[test]
fn a_vertex_stops_with_its_frames_and_its_mark(rt: HostRuntime) -> Result<(), Fail> {
    let mut vertex = CombineP::new(rt.alloc(), 2, policy(10, 5)?);
    let mut out = Outbox::new(rt.alloc(), 1)?;
    let mut given = Vec::new(rt.alloc());
    tell_all(&mut vertex, &first_part()?, &mut out, &mut given)?;
    let mut held = Vec::new(rt.alloc());
    for frame in &vertex.frames()? {
        held.push((frame.end, frame.acc.count, first_byte(&frame.key)))?;
    }
    assert_eq!(rt; held.as_slice(), [(10, 2, b'a'), (15, 4, b'b')].as_slice());
    assert_eq!(rt; vertex.mark_taken().map(|mark| mark.t), Some(10));
    Ok(())
}

#[test]
fn a_vertex_goes_on_where_another_one_stopped(rt: HostRuntime) -> Result<(), Fail> {
    let start = vec![in rt.alloc(); frame(10, key(b"a")?, 2), frame(15, key(b"b")?, 4)]?;
    let vertex = CombineP::resumed(rt.alloc(), 2, policy(10, 5)?, Some(mark(10)?), start)?;
    let given = given(rt.alloc(), vertex, &second_part()?)?;
    let want = [
        ('m', 5, 0, 0),
        ('r', 15, 10, b'a'),
        ('r', 15, 4, b'b'),
        ('m', 15, 0, 0),
        ('r', 20, 8, b'a'),
        ('r', 20, 20, b'b'),
        ('r', 25, 16, b'b'),
    ];
    assert_eq!(rt; given.as_slice(), want.as_slice());
    Ok(())
}

#[test]
fn the_whole_gives_the_rows_of_both_parts(rt: HostRuntime) -> Result<(), Fail> {
    let mut told = Vec::new(rt.alloc());
    told.extend_from_slice(&first_part()?)?;
    for item in second_part()? {
        // Marks rise over the whole.
        if !matches!(item, Item::Mark(Mark { t: 5 })) {
            told.push(item)?;
        }
    }
    let given = given(
        rt.alloc(),
        CombineP::new(rt.alloc(), 2, policy(10, 5)?),
        &told,
    )?;
    let want = [
        ('r', 5, 1, b'a'),
        ('r', 10, 3, b'a'),
        ('m', 10, 0, 0),
        ('r', 15, 10, b'a'),
        ('r', 15, 4, b'b'),
        ('m', 15, 0, 0),
        ('r', 20, 8, b'a'),
        ('r', 20, 20, b'b'),
        ('r', 25, 16, b'b'),
    ];
    assert_eq!(rt; given.as_slice(), want.as_slice());
    Ok(())
}
