// Worked runs of an outside in memory: calls that fail by number, calls that move few bytes, and the lines.
ghost use Rattle.std.specs.Prelude.{◌≡◌};

use super::*;
use jet_items::{Acc, Event, Key, Late, NoMemory, Row};
use std::alloc::{AllocError, Global};
use std::test::Fail;

// An outside with the one file `p0`.
fn with_file(
    alloc: Global,
    fail: &[u64],
    most: usize,
    content: &[u8],
) -> Result<MemoryOutside, NoMemory> {
    let mut out = MemoryOutside::new(alloc, fail.to_vec(alloc)?, most.max(1))?;
    out.add(b"p0", content.to_vec(alloc)?)?;
    Ok(out)
}

// Reads twice, and writes the first piece to Rows and the second to Notes.
fn copy(out: &mut MemoryOutside, name: &[u8]) -> Result<(), OutFault> {
    let file = out.open_file(name)?;
    let mut buf = [0; 4];
    let count = out.read(file, &mut buf)?;
    write_all(out, Out::Rows, &buf[..count])?;
    let count = out.read(file, &mut buf)?;
    write_all(out, Out::Notes, &buf[..count])
}

#[test]
fn calls_fail_by_number_and_move_few_bytes(rt: HostRuntime) -> Result<(), Fail> {
    use CallNote::{Failed, Opened, Read, Wrote};
    let alloc = rt.alloc();
    let whole = [
        Opened(0),
        Read(0, 4),
        Wrote(Out::Rows, 4),
        Read(0, 2),
        Wrote(Out::Notes, 2),
    ];
    let short = [
        Opened(0),
        Read(0, 1),
        Wrote(Out::Rows, 1),
        Read(0, 1),
        Wrote(Out::Notes, 1),
    ];
    let first = [Failed];
    let second = [Opened(0), Failed];
    let last = [
        Opened(0),
        Read(0, 4),
        Wrote(Out::Rows, 4),
        Read(0, 2),
        Failed,
    ];
    let cases: [(&[u64], usize, &[u8], &[CallNote]); 7] = [
        (&[], 100, b"p0", &whole),
        (&[6], 4, b"p0", &whole),
        (&[], 1, b"p0", &short),
        (&[1], 100, b"p0", &first),
        (&[9, 2], 100, b"p0", &second),
        (&[5], 100, b"p0", &last),
        (&[], 100, b"p1", &first),
    ];
    for (fail, most, name, calls) in cases {
        let mut out = with_file(alloc, fail, most, b"abcdef")?;
        let done = copy(&mut out, name);
        assert_eq!(rt; out.calls(), calls);
        assert_eq!(rt; done.is_err(), calls.last() == Some(&Failed));
    }
    Ok(())
}

#[test]
fn bytes_are_written_in_several_calls(rt: HostRuntime) -> Result<(), Fail> {
    let alloc = rt.alloc();
    let mut out = with_file(alloc, &[], 2, b"")?;
    write_all(&mut out, Out::Rows, b"hello")?;
    write_all(&mut out, Out::Notes, b"")?;
    assert_eq!(rt; out.written(Out::Rows), b"hello".as_slice());
    assert_eq!(rt; out.written(Out::Notes), b"".as_slice());
    let calls = [
        CallNote::Wrote(Out::Rows, 2),
        CallNote::Wrote(Out::Rows, 2),
        CallNote::Wrote(Out::Rows, 1),
    ];
    assert_eq!(rt; out.calls(), calls.as_slice());
    Ok(())
}

// The lines of a row and of a late event of the window `w`.
fn lines(alloc: Global, name: Key) -> Result<Vec<u8>, NoMemory> {
    let mut to = b"#".to_vec(alloc)?;
    let acc = Acc {
        count: 3,
        sum: -8,
        min: -9,
        max: 5,
    };
    let row = Row {
        vertex: 2,
        end: 5,
        key: name,
        acc,
    };
    print_row(alloc, &row, 10, &name, &mut to)?;
    let event = Event {
        part: 0,
        line: 3,
        ts: -14,
        key: name,
        v: [1, 0, -2, 0],
    };
    print_late(alloc, &Late { vertex: 2, event }, &name, &mut to)?;
    Ok(to)
}

#[test]
fn rows_and_late_events_have_their_lines(rt: HostRuntime) -> Result<(), Fail> {
    let alloc = rt.alloc();
    let Ok(name) = Key::read(b"w", 24) else {
        return Err(Fail::new("no key"));
    };
    let wanted = b"#w,-5,5,w,3,-8,-9,5\nlate,w,0,3,-14,w,1,0,-2,0\n";
    assert_eq!(rt; lines(alloc, name)?.as_slice(), wanted.as_slice());
    Ok(())
}
