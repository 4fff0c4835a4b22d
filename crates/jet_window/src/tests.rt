// Worked cases: rows that wait for marks, and the rows of a small telemetry, below 0 too.
use super::*;
use jet_items::{Acc, Event, Key, Mark, Row};
use jet_policy::WinPolicy;
use std::alloc::Global;
use std::test::Fail;

fn row(vertex: u8, end: i16, key: Key) -> Row {
    Row {
        vertex,
        end: i64::from(end),
        key,
        acc: Acc::one(1),
    }
}

fn event(line: u32, ts: i16, key: Key, value: i16) -> Event {
    Event {
        part: 0,
        line,
        ts: i64::from(ts),
        key,
        v: [i64::from(value), 0, 0, 0],
    }
}

// Rows are put out of order, and one after the mark that lets it out.
fn held(alloc: Global) -> Option<OrderedRows> {
    let a = Key::read(b"a", 24).ok()?;
    let b = Key::read(b"b", 24).ok()?;
    let mut held = OrderedRows::new(alloc);
    held.put(row(1, 10, a)).ok()?;
    held.put(row(0, 5, b)).ok()?;
    held.put(row(0, 10, b)).ok()?;
    held.pass(Mark::new(5)?);
    held.put(row(0, 5, a)).ok()?;
    Some(held)
}

#[test]
fn rows_are_let_out_in_order(rt: HostRuntime) -> Result<(), Fail> {
    if let Some(mut held) = held(rt.alloc()) {
        assert_eq!(rt;
            held.next().map(|row| row.key.bytes() == b"a".as_slice()),
            Some(true)
        );
        assert_eq!(rt; held.next().map(|row| row.end), Some(5));
        assert_eq!(rt; held.next().map(|row| row.end), None);
        held.close();
        assert_eq!(rt; held.next().map(|row| row.vertex), Some(0));
        assert_eq!(rt; held.next().map(|row| row.vertex), Some(1));
        assert_eq!(rt; held.next().map(|row| row.vertex), None);
    }
    Ok(())
}

// Three rows of one place, and one of the next.
fn alike(alloc: Global) -> Option<OrderedRows> {
    let a = Key::read(b"a", 24).ok()?;
    let b = Key::read(b"b", 24).ok()?;
    let mut held = OrderedRows::new(alloc);
    held.put(row(0, 5, b)).ok()?;
    for _ in 0..3 {
        held.put(row(0, 5, a)).ok()?;
    }
    held.close();
    Some(held)
}

#[test]
fn rows_of_one_place_are_all_given(rt: HostRuntime) -> Result<(), Fail> {
    if let Some(mut held) = alike(rt.alloc()) {
        for name in [b"a", b"a", b"a", b"b"] {
            assert_eq!(rt;
                held.next().map(|row| row.key.bytes() == name.as_slice()),
                Some(true)
            );
        }
        assert_eq!(rt; held.next().is_none(), true);
    }
    Ok(())
}

// The rows of five events: those that the mark 5 closes, and those that are left.
fn telemetry(alloc: Global) -> Option<(Vec<Row>, Vec<Row>)> {
    let a = Key::read(b"a", 24).ok()?;
    let b = Key::read(b"b", 24).ok()?;
    let mut window = PlainWindow::new(alloc, 0, WinPolicy::new(10, 5).ok()?);
    window.accept(event(1, 1, a, 1)).ok()?;
    window.accept(event(2, 4, a, 2)).ok()?;
    window.accept(event(3, 2, b, 3)).ok()?;
    window.accept(event(4, 6, a, 4)).ok()?;
    window.accept(event(5, 3, a, 5)).ok()?;
    let closed = window.close(Mark::new(5)?).ok()?;
    let left = window.finish().ok()?;
    Some((closed, left))
}

#[test]
fn windows_close_with_their_rows(rt: HostRuntime) -> Result<(), Fail> {
    let first = [(5, 3, 8, 1, 5), (5, 1, 3, 3, 3)];
    let second = [(10, 4, 12, 1, 5), (10, 1, 3, 3, 3), (15, 1, 4, 4, 4)];
    if let Some((closed, left)) = telemetry(rt.alloc()) {
        assert_eq!(rt; closed.len() + left.len(), 5);
        for (row, case) in closed
            .iter()
            .chain(left.iter())
            .zip(first.iter().chain(second.iter()))
        {
            assert_eq!(rt; row.end, case.0);
            assert_eq!(rt; row.acc.count, case.1);
            assert_eq!(rt; row.acc.sum, case.2);
            assert_eq!(rt; row.acc.min, case.3);
            assert_eq!(rt; row.acc.max, case.4);
        }
    }
    Ok(())
}
