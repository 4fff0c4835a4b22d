// Worked checks of a job of one file, and of one with a side file as well, over an outside in memory.
ghost use Rattle.std.specs.Prelude.{◌≡◌, ◌≤◌};

use super::*;
use jet_file::{CallNote, MemoryOutside, Out};
use jet_items::{Key, List, NoMemory};
use jet_lines::LineFault;
use jet_plan::{Dag, Edge, Kind, ModeSpec, Plan, Route, Settings, Text, Vertex, check};
use std::alloc::Global;
use std::test::Fail;

fn key(name: &[u8]) -> Result<Key, NoMemory> {
    Key::read(name, 24).map_err(|_| NoMemory)
}

fn text(alloc: Global, name: &[u8]) -> Result<Text, NoMemory> {
    match Text::read(alloc, name)? {
        Some(text) => Ok(text),
        None => Err(NoMemory),
    }
}

fn vertex(name: &[u8], kind: Kind) -> Result<Vertex, NoMemory> {
    Ok(Vertex {
        name: key(name)?,
        parallelism: 1,
        kind,
    })
}

// An edge of the job: its ends, its route, whether it is distributed, and whether it builds.
type Line = (&'static [u8], &'static [u8], Route, bool, bool);

fn edge(line: Line) -> Result<Edge, NoMemory> {
    let (from, to, route, distributed, build) = line;
    Ok(Edge {
        from: key(from)?,
        to: key(to)?,
        route,
        distributed,
        build,
    })
}

fn edges(alloc: Global, lines: &[Line]) -> Result<List<Edge>, NoMemory> {
    let mut edges = List::new(alloc);
    for line in lines {
        edges.push(edge(*line)?)?;
    }
    Ok(edges)
}

fn source(alloc: Global) -> Result<Kind, NoMemory> {
    let mut files = List::new(alloc);
    files.push(text(alloc, b"t.csv")?)?;
    Ok(Kind::Source { files, lag: 3 })
}

const GATHER: Line = (b"a", b"w", Route::Partitioned, true, false);

const WRITE: Line = (b"w", b"z", Route::Unicast, true, false);

// The source of `t.csv`, whose events go to a window of size 10 and slide 5.
fn plain_job(alloc: Global) -> Result<Dag, NoMemory> {
    let mut vertices = List::new(alloc);
    vertices.push(vertex(b"s", source(alloc)?)?)?;
    vertices.push(vertex(b"a", Kind::Accumulate { size: 10, slide: 5 })?)?;
    vertices.push(vertex(b"w", Kind::Combine)?)?;
    vertices.push(vertex(b"z", Kind::Sink)?)?;
    let lines: [Line; 3] = [(b"s", b"a", Route::Unicast, false, false), GATHER, WRITE];
    let edges = edges(alloc, &lines)?;
    Ok(Dag { vertices, edges })
}

// The same, where the events are joined with the rows of `c.csv`.
fn side_job(alloc: Global) -> Result<Dag, NoMemory> {
    let mut vertices = List::new(alloc);
    vertices.push(vertex(b"s", source(alloc)?)?)?;
    let file = text(alloc, b"c.csv")?;
    vertices.push(vertex(b"b", Kind::Side { file })?)?;
    let join = Kind::Join {
        mode: ModeSpec::Inner,
        rekey: false,
        fields: [0, 1, 2, 3],
    };
    vertices.push(vertex(b"j", join)?)?;
    vertices.push(vertex(b"a", Kind::Accumulate { size: 10, slide: 5 })?)?;
    vertices.push(vertex(b"w", Kind::Combine)?)?;
    vertices.push(vertex(b"z", Kind::Sink)?)?;
    let lines: [Line; 5] = [
        (b"s", b"j", Route::Unicast, false, false),
        (b"b", b"j", Route::Broadcast, true, true),
        (b"j", b"a", Route::Unicast, false, false),
        GATHER,
        WRITE,
    ];
    let edges = edges(alloc, &lines)?;
    Ok(Dag { vertices, edges })
}

fn plan(alloc: Global, dag: Dag, lines: i64) -> Result<Plan, NoMemory> {
    let settings = Settings {
        lines,
        ..Settings::default()
    };
    check(alloc, dag, settings).map_err(|_| NoMemory)
}

#[derive(Clone, Copy)]
struct Case {
    // The setting `lines`.
    lines: i64,
    // The file of the source, and the side file of a job that has one.
    events: &'static [u8],
    side: Option<&'static [u8]>,
    // The number of the call that fails, or 0.
    failing: u64,
    // How many bytes a call moves at most.
    most: usize,
    answer: Result<(), Stop>,
    rows: &'static str,
}

fn outside(alloc: Global, case: &Case) -> Result<MemoryOutside, NoMemory> {
    let mut fail = Vec::new(alloc);
    if case.failing > 0 {
        fail.push(case.failing)?;
    }
    let mut out = MemoryOutside::new(alloc, fail, case.most.max(1))?;
    out.add(b"t.csv", case.events.to_vec(alloc)?)?;
    if let Some(side) = case.side {
        out.add(b"c.csv", side.to_vec(alloc)?)?;
    }
    Ok(out)
}

// Whether the check of a case answers and writes as wanted.
fn holds(alloc: Global, case: &Case) -> Result<bool, NoMemory> {
    let dag = match case.side {
        Some(_) => side_job(alloc)?,
        None => plain_job(alloc)?,
    };
    let plan = plan(alloc, dag, case.lines)?;
    let mut out = outside(alloc, case)?;
    let answer = check_files(alloc, &plan, &mut out);
    let is_written = out.written(Out::Rows) == case.rows.as_bytes();
    Ok(answer == case.answer && is_written && out.written(Out::Notes).is_empty())
}

const BASE: Case = Case {
    lines: 100,
    events: b"7,a,1\n20,a,1\n14,a,1\n15,a,1\n",
    side: None,
    failing: 0,
    most: 4096,
    answer: Ok(()),
    rows: "part,0,4,4,1\n",
};

const fn bad(part: u16, line: u32, why: LineFault) -> Result<(), Stop> {
    Err(Stop::BadLine { part, line, why })
}

const fn failed(call: Call, file: Spot) -> Result<(), Stop> {
    Err(Stop::Outside { call, file })
}

#[test]
fn a_file_has_its_line(rt: HostRuntime) -> Result<(), Fail> {
    let plain = |lines, events, answer, rows| Case {
        lines,
        events,
        answer,
        rows,
        ..BASE
    };
    let cases = [
        BASE,
        Case { most: 1, ..BASE },
        plain(100, b"", Ok(()), "part,0,0,0,0\n"),
        plain(
            100,
            b"#idle\n7,a,1\n20,a,1\n#idle\n14,a,1\n15,a,1\n#idle",
            Ok(()),
            "part,0,7,4,1\n",
        ),
        plain(100, b"7,a,1\n#idle \n", bad(0, 2, LineFault::Fields), ""),
        plain(2, b"7,a,1\n\n", Ok(()), "part,0,2,1,0\n"),
        plain(2, b"7,a,1\n8,a,1\n\n", bad(0, 3, LineFault::TooMany), ""),
        plain(2, b"7,a,1\n8\n\n", bad(0, 2, LineFault::Fields), ""),
        Case {
            failing: 1,
            answer: failed(Call::Open, Spot::Part(0)),
            rows: "",
            ..BASE
        },
        Case {
            failing: 3,
            answer: failed(Call::Read, Spot::Part(0)),
            rows: "",
            ..BASE
        },
        Case {
            failing: 4,
            answer: failed(Call::Write, Spot::Rows),
            rows: "",
            ..BASE
        },
    ];
    for case in &cases {
        assert!(rt; holds(rt.alloc(), case)?);
    }
    Ok(())
}

#[test]
fn a_side_file_has_its_line(rt: HostRuntime) -> Result<(), Fail> {
    let sided = |side, answer, rows| Case {
        side: Some(side),
        answer,
        rows,
        ..BASE
    };
    let many =
        b"a,x\na,x\na,x\na,x\na,x\na,x\na,x\na,x\na,x\na,x\na,x\na,x\na,x\na,x\na,x\na,x\nb,x\na,x\n";
    let cases = [
        sided(b"a,x\n\nb,y,1", Ok(()), "part,0,4,4,1\nside,1,3,2\n"),
        sided(many, bad(1, 18, LineFault::KeyFull), "part,0,4,4,1\n"),
        sided(b"a\n", bad(1, 1, LineFault::Fields), "part,0,4,4,1\n"),
        sided(b"#idle\n", bad(1, 1, LineFault::Fields), "part,0,4,4,1\n"),
        Case {
            failing: 2,
            ..sided(b"", failed(Call::Open, Spot::Part(1)), "")
        },
        Case {
            failing: 6,
            ..sided(b"", failed(Call::Read, Spot::Part(1)), "part,0,4,4,1\n")
        },
    ];
    for case in &cases {
        assert!(rt; holds(rt.alloc(), case)?);
    }
    Ok(())
}

// Notes come before rows.
#[test]
fn texts_are_written(rt: HostRuntime) -> Result<(), Fail> {
    let mut out = outside(rt.alloc(), &BASE)?;
    assert_eq!(rt; write_texts(&mut out, b"rows\n", b"note\n"), Ok(()));
    assert_eq!(rt; out.written(Out::Rows), b"rows\n".as_slice());
    let calls = [
        CallNote::Wrote(Out::Notes, 5),
        CallNote::Wrote(Out::Rows, 5),
    ];
    assert_eq!(rt; out.calls(), calls.as_slice());
    Ok(())
}
