// Worked lines and files.
ghost use Rattle.std.specs.Prelude.{◌≡◌, OnOk};

use super::*;
use jet_items::{Event, KeyFault, NoMemory, Refused};
use std::alloc::Global;
use std::test::Fail;

// The fault of a line of a source file, if it has one.
fn fault_of(alloc: Global, line: &[u8]) -> Option<LineFault> {
    match read_line(alloc, line, 0, 1) {
        Err(Refused::Fault(fault)) => Some(fault),
        _ => None,
    }
}

// The event of line 7 of file 3, if it has one.
fn event_of(alloc: Global, line: &[u8]) -> Option<Event> {
    match read_line(alloc, line, 3, 7) {
        Ok(entry) => entry.event(),
        Err(_) => None,
    }
}

// Whether line 7 of file 3 holds this event.
fn holds(alloc: Global, line: &[u8], ts: i64, key: &[u8], v: [i64; 4]) -> bool {
    match event_of(alloc, line) {
        Some(event) => {
            (event.part, event.line, event.ts, event.v) == (3, 7, ts, v) && event.key.bytes() == key
        }
        None => false,
    }
}

// The fault of a line of a side file, if it has one.
fn side_fault_of(alloc: Global, line: &[u8]) -> Option<LineFault> {
    match read_side(alloc, line, 1) {
        Err(Refused::Fault(fault)) => Some(fault),
        _ => None,
    }
}

#[test]
fn the_first_fault_counts(rt: HostRuntime) -> Result<(), Fail> {
    let alloc = rt.alloc();
    let long = [b'a'; 513];
    let cases: [(&[u8], LineFault); 22] = [
        (&long, LineFault::TooLong),
        (b"5,\"a\x0d", LineFault::BadByte(4)),
        (b"5,a,1,\xc3\xa4", LineFault::BadByte(6)),
        (b"5,\"a,1", LineFault::Quote),
        (b"5,a\"b,1", LineFault::Quote),
        (b"5,\"a\"b", LineFault::Quote),
        (b"\"\"", LineFault::Fields),
        (b"x,", LineFault::Fields),
        (b"#idle ", LineFault::Fields),
        (b"#IDLE", LineFault::Fields),
        (b"\"#idle\"", LineFault::Fields),
        (b"5,a,1,2,3,4,5", LineFault::Fields),
        (b"1000000000000001,,x", LineFault::Number(0)),
        (b" 5,a,1", LineFault::Number(0)),
        (b"5,,x", LineFault::Key(KeyFault::Empty)),
        (b"5,a b,x", LineFault::Key(KeyFault::BadByte(1))),
        (b"5,\"a\"\"b\",1", LineFault::Key(KeyFault::BadByte(1))),
        (b"5,\"a,b\",1", LineFault::Key(KeyFault::BadByte(1))),
        (b"5,a,", LineFault::Number(1)),
        (b"5,a,1,-,+", LineFault::Number(2)),
        (b"00000000000000005,a,1", LineFault::Number(0)),
        (b"5,a,--1", LineFault::Number(1)),
    ];
    for (line, fault) in cases {
        assert_eq!(rt; fault_of(alloc, line), Some(fault));
    }
    Ok(())
}

#[test]
fn side_lines_have_faults_too(rt: HostRuntime) -> Result<(), Fail> {
    let alloc = rt.alloc();
    let cases: [(&[u8], LineFault); 6] = [
        (b"a", LineFault::Fields),
        (b"#idle", LineFault::Fields),
        (b"a,x,1,2,3,4,5", LineFault::Fields),
        (b",", LineFault::Key(KeyFault::Empty)),
        (b"a,x y", LineFault::Key(KeyFault::BadByte(1))),
        (b"a,x,1,2,3,z", LineFault::Number(4)),
    ];
    for (line, fault) in cases {
        assert_eq!(rt; side_fault_of(alloc, line), Some(fault));
    }
    Ok(())
}

// Each line stands twice, without quotation marks and with some.
#[test]
fn good_lines_are_read(rt: HostRuntime) -> Result<(), Fail> {
    let alloc = rt.alloc();
    let cases: [(&[u8], &[u8], i64, &[u8], [i64; 4]); 4] = [
        (
            b"1700000000000,sensor-1,215",
            b"1700000000000,\"sensor-1\",215",
            1700000000000,
            b"sensor-1",
            [215, 0, 0, 0],
        ),
        (
            b"-0005,a:b,-1,2",
            b"-0005,a:b,\"-1\",2",
            -5,
            b"a:b",
            [-1, 2, 0, 0],
        ),
        (
            b"0,a,1,2,3,-1000000000000000",
            b"\"0\",a,1,2,3,-1000000000000000",
            0,
            b"a",
            [1, 2, 3, -1000000000000000],
        ),
        (
            b"0000000000000007,abcdefghijklmnopqrstuvwx,-0,0000000000000008,9",
            b"0000000000000007,abcdefghijklmnopqrstuvwx,-0,0000000000000008,\"9\"",
            7,
            b"abcdefghijklmnopqrstuvwx",
            [0, 8, 9, 0],
        ),
    ];
    for (plain, quoted, ts, key, v) in cases {
        assert!(rt; holds(alloc, plain, ts, key, v));
        assert!(rt; holds(alloc, quoted, ts, key, v));
    }
    assert!(rt; matches!(&read_line(alloc, b"", 3, 7), Ok(Entry::Nothing)));
    assert!(rt; matches!(&read_line(alloc, b"#idle", 3, 7), Ok(Entry::Idle)));
    Ok(())
}

#[test]
fn side_lines_are_read(rt: HostRuntime) -> Result<(), Fail> {
    let alloc = rt.alloc();
    let cases: [(&[u8], &[u8], [i64; 4]); 2] = [
        (b"a,x,10", b"a,\"x\",10", [10, 0, 0, 0]),
        (b"a,x", b"\"a\",x", [0; 4]),
    ];
    for (plain, quoted, v) in cases {
        for line in [plain, quoted] {
            match read_side(alloc, line, 7) {
                Ok(Some(side)) => {
                    assert_eq!(rt; side.line, 7);
                    assert_eq!(rt; side.key.bytes(), b"a".as_slice());
                    assert_eq!(rt; side.label.bytes(), b"x".as_slice());
                    assert_eq!(rt; side.v, v);
                }
                _ => assert!(rt; false),
            }
        }
    }
    assert!(rt; matches!(&read_side(alloc, b"", 7), Ok(None)));
    Ok(())
}

// The lines that a file gives, each with a bar behind it, and the answer at which it ends.
fn cut_of(alloc: Global, file: &[u8], most: u8, whole: bool) -> Result<(Vec<u8>, Cut), NoMemory> {
    let size = if whole { 4096 } else { 1 };
    let mut lines = Lines::new(alloc, u32::from(most));
    let mut all = Vec::new(alloc);
    for piece in file.chunks(size) {
        lines.put(piece)?;
        take_lines(&mut lines, &mut all)?;
    }
    lines.end();
    let last = take_lines(&mut lines, &mut all)?;
    Ok((all, last))
}

fn take_lines(lines: &mut Lines, all: &mut Vec<u8>) -> Result<Cut, NoMemory>
    ensures { OnOk result (lines.new.ended ≡ lines.old.ended) }
{
    'cuts: loop {
        match lines.next() {
            Cut::Line(_) => {
                all.extend_from_slice(lines.line())?;
                all.push(b'|')?;
            }
            other => return Ok(other),
        }
    }
}

#[test]
fn files_are_cut_into_lines(rt: HostRuntime) -> Result<(), Fail> {
    let long = [b'a'; 513];
    let cases: [(&[u8], u8, &[u8], Cut); 8] = [
        (b"", 0, b"", Cut::End),
        (b"ab\x0d\n\ncd", 9, b"ab||cd|", Cut::End),
        (b"a\x0d\x0d\nb\x0d", 9, b"a\x0d|b|", Cut::End),
        (b"\x0d", 9, b"|", Cut::End),
        (b"a\nb\n", 2, b"a|b|", Cut::End),
        (b"a\nb\nc", 2, b"a|b|", Cut::Bad(3, LineFault::TooMany)),
        (b"a\nb\n\n", 2, b"a|b|", Cut::Bad(3, LineFault::TooMany)),
        (&long, 9, b"", Cut::Bad(1, LineFault::TooLong)),
    ];
    for (file, most, lines, last) in cases {
        for whole in [true, false] {
            match cut_of(rt.alloc(), file, most, whole) {
                Ok((all, cut)) => {
                    assert_eq!(rt; all.as_slice(), lines);
                    assert_eq!(rt; cut, last);
                }
                Err(_) => assert!(rt; false),
            }
        }
    }
    Ok(())
}
