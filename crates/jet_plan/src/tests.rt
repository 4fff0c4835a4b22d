// Worked cases: each fault once, and the text of a plan.
use super::*;
use jet_expr::Expr;
use jet_items::{Key, List, NoMemory, Refused};
use jet_policy::PolicyFault;
use std::alloc::Global;
use std::test::Fail;

// What a vertex does in a case. A source reads one file, unless it is `Idle`.
#[derive(Clone, Copy)]
enum Sort {
    Source(i64),
    Idle,
    Side,
    Flat(u32),
    Tagged,
    Join,
    Window(i64, i64),
    Combine,
    Sink,
}

// A vertex by its name, parallelism and sort.
type Point = (&'static [u8], u8, Sort);

// An edge by its ends, its route, and whether it is distributed and a build edge.
type Line = (&'static [u8], &'static [u8], Route, bool, bool);

const SOURCE: Point = (b"s", 1, Sort::Source(3));

const WINDOW: Point = (b"a", 1, Sort::Window(10, 5));

const COMBINE: Point = (b"w", 1, Sort::Combine);

const SINK: Point = (b"z", 1, Sort::Sink);

const READ: Line = (b"s", b"a", Route::Unicast, false, false);

const GATHER: Line = (b"a", b"w", Route::Partitioned, true, false);

const WRITE: Line = (b"w", b"z", Route::Unicast, true, false);

fn text(alloc: Global) -> Result<Text, NoMemory> {
    match Text::read(alloc, b"t.csv")? {
        Some(text) => Ok(text),
        None => Err(NoMemory),
    }
}

fn source(alloc: Global, lag: i64) -> Result<Kind, NoMemory> {
    let mut files = List::new(alloc);
    files.push(text(alloc)?)?;
    Ok(Kind::Source { files, lag })
}

fn leg(tagged: bool) -> LegSpec {
    LegSpec {
        test: Expr::one(),
        value: Expr::one(),
        tag: if tagged {
            Key::read(b"123456789", 16).ok()
        } else {
            None
        },
    }
}

fn flat(alloc: Global, count: u32, tagged: bool) -> Result<Kind, NoMemory> {
    let mut legs = List::new(alloc);
    for _ in 0..count {
        legs.push(leg(tagged))?;
    }
    Ok(Kind::Flat { legs })
}

fn kind(alloc: Global, sort: Sort) -> Result<Kind, NoMemory> {
    match sort {
        Sort::Source(lag) => source(alloc, lag),
        Sort::Idle => Ok(Kind::Source {
            files: List::new(alloc),
            lag: 0,
        }),
        Sort::Side => Ok(Kind::Side { file: text(alloc)? }),
        Sort::Flat(count) => flat(alloc, count, false),
        Sort::Tagged => flat(alloc, 1, true),
        Sort::Join => Ok(Kind::Join {
            mode: ModeSpec::Inner,
            rekey: false,
            fields: [0, 1, 2, 3],
        }),
        Sort::Window(size, slide) => Ok(Kind::Accumulate { size, slide }),
        Sort::Combine => Ok(Kind::Combine),
        Sort::Sink => Ok(Kind::Sink),
    }
}

fn vertex(alloc: Global, point: Point) -> Result<Vertex, NoMemory> {
    let (name, parallelism, sort) = point;
    Ok(Vertex {
        name: Key::read(name, 24).map_err(|_| NoMemory)?,
        parallelism,
        kind: kind(alloc, sort)?,
    })
}

fn edge(line: Line) -> Result<Edge, NoMemory> {
    let (from, to, route, distributed, build) = line;
    Ok(Edge {
        from: Key::read(from, 24).map_err(|_| NoMemory)?,
        to: Key::read(to, 24).map_err(|_| NoMemory)?,
        route,
        distributed,
        build,
    })
}

fn vertices(alloc: Global, points: &[Point]) -> Result<List<Vertex>, NoMemory> {
    let mut vertices = List::new(alloc);
    for point in points {
        vertices.push(vertex(alloc, *point)?)?;
    }
    Ok(vertices)
}

fn edges(alloc: Global, lines: &[Line]) -> Result<List<Edge>, NoMemory> {
    let mut edges = List::new(alloc);
    for line in lines {
        edges.push(edge(*line)?)?;
    }
    Ok(edges)
}

fn plan(
    alloc: Global,
    points: &[Point],
    lines: &[Line],
    members: i64,
    ring: i64,
) -> Result<Plan, Refused<PlanFault>> {
    let dag = Dag {
        vertices: vertices(alloc, points)?,
        edges: edges(alloc, lines)?,
    };
    let mut settings = Settings::default();
    settings.members = members;
    settings.ring = ring;
    check(alloc, dag, settings)
}

// Whether a job on one member is refused for this fault.
fn is_refused(alloc: Global, points: &[Point], lines: &[Line], wanted: PlanFault) -> bool {
    plan(alloc, points, lines, 1, 1024).err() == Some(Refused::Fault(wanted))
}

fn point(name: &'static [u8], sort: Sort) -> Point {
    (name, 1, sort)
}

fn line(
    from: &'static [u8],
    to: &'static [u8],
    route: Route,
    distributed: bool,
    build: bool,
) -> Line {
    (from, to, route, distributed, build)
}

fn pipe(from: &'static [u8], to: &'static [u8]) -> Line {
    (from, to, Route::Unicast, false, false)
}

fn build(from: &'static [u8], to: &'static [u8]) -> Line {
    (from, to, Route::Broadcast, true, true)
}

#[test]
fn sizes_and_names_are_wrong(rt: HostRuntime) -> Result<(), Fail> {
    let alloc = rt.alloc();
    let many = [SOURCE, point(b"f", Sort::Flat(9))];
    let circle = [point(b"f", Sort::Flat(1)), point(b"g", Sort::Flat(1))];
    let back = [pipe(b"f", b"g"), pipe(b"g", b"f")];
    assert!(rt; is_refused(alloc, &[], &[], PlanFault::NoVertex));
    assert!(rt; is_refused(alloc, &many, &[], PlanFault::TooMany(Many::Legs)));
    assert!(rt; is_refused(alloc, &[SOURCE, SOURCE], &[], PlanFault::DoubleName(1)));
    assert!(rt; is_refused(alloc, &[SOURCE], &[READ], PlanFault::UnknownEnd(0)));
    assert!(rt; is_refused(alloc, &circle, &back, PlanFault::Cycle));
    Ok(())
}

#[test]
fn ends_are_wrong(rt: HostRuntime) -> Result<(), Fail> {
    let alloc = rt.alloc();
    let lines = [READ, GATHER, WRITE];
    let idle = [point(b"s", Sort::Idle), WINDOW, COMBINE, SINK];
    let two = [SOURCE, WINDOW, COMBINE, SINK, point(b"r", Sort::Source(0))];
    let fed = [READ, GATHER, WRITE, pipe(b"r", b"s")];
    assert!(rt; is_refused(alloc, &idle, &lines, PlanFault::NoSource));
    assert!(rt; is_refused(alloc, &[SOURCE], &[], PlanFault::SinkCount(0)));
    assert!(rt; is_refused(alloc, &two, &fed, PlanFault::WrongInputs(0)));
    assert!(rt; is_refused(alloc, &two, &lines, PlanFault::WrongOutputs(4)));
    Ok(())
}

#[test]
fn edges_are_wrong(rt: HostRuntime) -> Result<(), Fail> {
    let alloc = rt.alloc();
    let all = [SOURCE, WINDOW, COMBINE, SINK];
    let past = [READ, GATHER, WRITE, pipe(b"s", b"z")];
    let both = [
        line(b"s", b"a", Route::Isolated, true, false),
        GATHER,
        WRITE,
    ];
    let cast = [
        line(b"s", b"a", Route::Broadcast, false, false),
        GATHER,
        WRITE,
    ];
    let loose = [READ, line(b"a", b"w", Route::Unicast, true, false), WRITE];
    assert!(rt; is_refused(alloc, &all, &past, PlanFault::WindowPath(3)));
    assert!(rt; is_refused(alloc, &all, &both, PlanFault::IsolatedDistributed(0)));
    assert!(rt; is_refused(alloc, &all, &cast, PlanFault::BroadcastData(0)));
    assert!(rt; is_refused(alloc, &all, &loose, PlanFault::NotGathered(1)));
    Ok(())
}

// A join fed by one source alone, and two joins fed crosswise by two.
#[test]
fn joins_are_fed_by_side_vertices(rt: HostRuntime) -> Result<(), Fail> {
    let one = [SOURCE, point(b"j", Sort::Join), WINDOW, COMBINE, SINK];
    let doubly = [
        pipe(b"s", b"j"),
        build(b"s", b"j"),
        pipe(b"j", b"a"),
        GATHER,
        WRITE,
    ];
    let two = [
        SOURCE,
        point(b"r", Sort::Source(0)),
        point(b"j", Sort::Join),
        point(b"k", Sort::Join),
        WINDOW,
        COMBINE,
        SINK,
    ];
    let crosswise = [
        pipe(b"s", b"j"),
        build(b"r", b"j"),
        pipe(b"r", b"k"),
        build(b"s", b"k"),
        pipe(b"j", b"a"),
        pipe(b"k", b"a"),
        GATHER,
        WRITE,
    ];
    assert!(rt; is_refused(rt.alloc(), &one, &doubly, PlanFault::SideMixed(0)));
    assert!(rt; is_refused(rt.alloc(), &two, &crosswise, PlanFault::SideMixed(0)));
    Ok(())
}

#[test]
fn keys_sizes_and_lags_are_wrong(rt: HostRuntime) -> Result<(), Fail> {
    let alloc = rt.alloc();
    let lines = [READ, GATHER, WRITE];
    let uneven = [SOURCE, point(b"a", Sort::Window(10, 3)), COMBINE, SINK];
    let early = [point(b"s", Sort::Source(-1)), WINDOW, COMBINE, SINK];
    let tagged = [
        SOURCE,
        point(b"f", Sort::Tagged),
        point(b"g", Sort::Tagged),
        WINDOW,
        COMBINE,
        SINK,
    ];
    let tagging = [
        pipe(b"s", b"f"),
        pipe(b"f", b"g"),
        pipe(b"g", b"a"),
        GATHER,
        WRITE,
    ];
    let lag = PlanFault::Setting(SettingName::Lag(0));
    let size = PlanFault::Policy(1, PolicyFault::NotMultiple);
    assert!(rt; is_refused(alloc, &tagged, &tagging, PlanFault::KeyGrowth(2)));
    assert!(rt; is_refused(alloc, &uneven, &lines, size));
    assert!(rt; is_refused(alloc, &early, &lines, lag));
    Ok(())
}

#[test]
fn seven_flat_vertices_of_eight_legs_grow_too_much(rt: HostRuntime) -> Result<(), Fail> {
    let eight = Sort::Flat(8);
    let points = [
        SOURCE,
        point(b"1", eight),
        point(b"2", eight),
        point(b"3", eight),
        point(b"4", eight),
        point(b"5", eight),
        point(b"6", eight),
        point(b"7", eight),
        WINDOW,
        COMBINE,
        SINK,
    ];
    let lines = [
        pipe(b"s", b"1"),
        pipe(b"1", b"2"),
        pipe(b"2", b"3"),
        pipe(b"3", b"4"),
        pipe(b"4", b"5"),
        pipe(b"5", b"6"),
        pipe(b"6", b"7"),
        pipe(b"7", b"a"),
        GATHER,
        WRITE,
    ];
    let growth = PlanFault::TooLarge(Large::Growth(7));
    assert!(rt; is_refused(rt.alloc(), &points, &lines, growth));
    Ok(())
}

// The base job on some members with rings of some slots and a parallelism of the window.
fn base_fault(
    alloc: Global,
    parallelism: u8,
    gathered: bool,
    members: i64,
    ring: i64,
) -> Option<Refused<PlanFault>> {
    let window: Point = (b"a", parallelism, Sort::Window(10, 5));
    let write: Line = line(b"w", b"z", Route::Unicast, gathered, false);
    let points = [SOURCE, window, COMBINE, SINK];
    let lines = [READ, GATHER, write];
    plan(alloc, &points, &lines, members, ring).err()
}

#[test]
fn the_base_job_is_accepted_or_refused(rt: HostRuntime) -> Result<(), Fail> {
    let members = PlanFault::Setting(SettingName::Members);
    let slots = PlanFault::TooLarge(Large::Slots(5_242_880));
    let instances = PlanFault::TooMany(Many::Instances);
    let cases = [
        (1, true, 2, 1024, None),
        (1, false, 1, 1024, None),
        (1, false, 2, 1024, Some(PlanFault::NotGathered(2))),
        (9, true, 1, 1024, Some(instances)),
        (1, true, 5, 1024, Some(members)),
        (1, true, 4, 65_536, None),
        (3, true, 4, 65_536, Some(slots)),
    ];
    for (parallelism, gathered, members, ring, fault) in cases {
        let found = base_fault(rt.alloc(), parallelism, gathered, members, ring);
        assert_eq!(rt; found, fault.map(Refused::Fault));
    }
    Ok(())
}

// What a plan of the base job on some members says of its buffers, with a packet, a least and a greatest grant.
fn buffers(
    alloc: Global,
    members: i64,
    packet: i64,
    window: i64,
    peak: i64,
) -> Result<u32, Refused<PlanFault>> {
    let settings = Settings {
        members,
        packet,
        window,
        peak,
        ..Settings::default()
    };
    let dag = Dag {
        vertices: vertices(alloc, &[SOURCE, WINDOW, COMBINE, SINK])?,
        edges: edges(alloc, &[READ, GATHER, WRITE])?,
    };
    Ok(check(alloc, dag, settings)?.buffers())
}

#[test]
fn links_have_buffers_for_their_peak(rt: HostRuntime) -> Result<(), Fail> {
    let peak = Err(Refused::Fault(PlanFault::Setting(SettingName::Peak)));
    let cases = [
        (1, 16_384, 49_152, 131_072, Ok(4)),
        (2, 16_384, 49_152, 131_072, Ok(9)),
        (2, 256, 1, 1, Ok(4)),
        (2, 256, 1, 16_777_216, Ok(65_536)),
        (4, 65_536, 1, 16_777_216, Ok(257)),
        (2, 16_384, 49_152, 1000, peak),
        (2, 16_384, 1, 16_777_217, peak),
    ];
    for (members, packet, window, peak, wanted) in cases {
        assert_eq!(rt; buffers(rt.alloc(), members, packet, window, peak), wanted);
    }
    Ok(())
}

const TWO_MEMBERS: &[u8] =
    b"vertex,0,s,source,2\nvertex,1,a,accumulate,2\nvertex,2,w,combine,2\nvertex,3,z,sink,1\nedge,0,s,a,unicast,2,0\nedge,1,a,w,partitioned,6,2\nedge,2,w,z,unicast,3,1\ntotal,12,12,12288,3\n";

#[test]
fn a_plan_is_printed(rt: HostRuntime) -> Result<(), Fail> {
    let points = [SOURCE, WINDOW, COMBINE, SINK];
    let lines = [READ, GATHER, WRITE];
    let mut printed = Vec::new(rt.alloc());
    let two = plan(rt.alloc(), &points, &lines, 2, 1024)?;
    print_plan(rt.alloc(), &two, &mut printed)?;
    assert_eq!(rt; printed.as_slice(), TWO_MEMBERS);
    let one = plan(rt.alloc(), &points, &lines, 1, 1024)?;
    print_plan(rt.alloc(), &one, &mut printed)?;
    assert!(rt; printed.as_slice().ends_with(b"total,3,4,4096,0\n"));
    Ok(())
}

#[test]
fn texts_are_read_or_not(rt: HostRuntime) -> Result<(), Fail> {
    let long = [b'x'; 256];
    let cases: [(&[u8], bool); 5] = [
        (b"t.csv", true),
        (b"", false),
        (&long, false),
        (&long[1..], true),
        (b"\xff", false),
    ];
    for (bytes, wanted) in cases {
        let text = Text::read(rt.alloc(), bytes)?;
        assert_eq!(rt; text.is_some(), wanted);
    }
    Ok(())
}
