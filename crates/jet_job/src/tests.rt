// Worked job files: what they hold, and why others are none.
use super::*;
use jet_expr::ExprFault;
use jet_items::Refused;
use jet_plan::{Kind, ModeSpec, Settings, check, print_plan};
use std::alloc::Global;
use std::test::Fail;

// A source, a window over it, and a sink.
const BASE: &str = r#"{"vertices":[
  {"name":"s","kind":"source","files":["t.csv"],"lag":3},
  {"name":"a","kind":"accumulate","size":10,"slide":5},
  {"name":"w","kind":"combine"},
  {"name":"z","kind":"sink"}],
 "edges":[
  {"from":"s","to":"a","route":"unicast"},
  {"from":"a","to":"w","route":"partitioned","distributed":true},
  {"from":"w","to":"z","route":"unicast","distributed":true}]}"#;

const BASE_PLAN: &[u8] =
    b"vertex,0,s,source,1\nvertex,1,a,accumulate,1\nvertex,2,w,combine,1\nvertex,3,z,sink,1\nedge,0,s,a,unicast,1,0\nedge,1,a,w,partitioned,1,0\nedge,2,w,z,unicast,1,0\ntotal,3,4,4096,0\n";

// Every kind of vertex, two windows, and a value for each member that has a default.
const LARGE: &str = r#"{"vertices":[
  {"name":"s","kind":"source","parallelism":2,"files":["a.csv","b.csv"],"lag":0},
  {"name":"t","kind":"side","file":"names.csv"},
  {"name":"j","kind":"join","mode":"left","rekey":true,"fields":["v0","s0","s3","v3"]},
  {"name":"f","kind":"filter","test":"v0 > 0"},
  {"name":"m","kind":"map","set":{"v3":"v0+1"}},
  {"name":"g","kind":"flat","legs":[{"value":"v0"},{"test":"v1","value":"v1","tag":":x"}]},
  {"name":"a","kind":"accumulate","size":10,"slide":5},
  {"name":"w","kind":"combine","parallelism":8},
  {"name":"b","kind":"accumulate","size":60,"slide":60},
  {"name":"x","kind":"combine"},
  {"name":"z","kind":"sink"}],
 "edges":[
  {"from":"s","to":"j","route":"unicast"},
  {"from":"t","to":"j","route":"broadcast","distributed":true,"build":true},
  {"from":"j","to":"f","route":"isolated"},
  {"from":"f","to":"m","route":"unicast"},
  {"from":"m","to":"g","route":"unicast","distributed":true},
  {"from":"g","to":"a","route":"unicast"},
  {"from":"a","to":"w","route":"partitioned","distributed":true},
  {"from":"w","to":"z","route":"unicast","distributed":true},
  {"from":"f","to":"b","route":"unicast"},
  {"from":"b","to":"x","route":"partitioned","distributed":true},
  {"from":"x","to":"z","route":"unicast","distributed":true}],
 "settings":{"workers":3,"members":2,"ring":16,"packet":256,"window":1000,"turns":5,"ahead":0,"lines":9,
  "peak":2000,"multiplier":4,"period":8}}"#;

// The fault of a text, if it has one.
fn fault_of(alloc: Global, text: &str) -> Option<JobFault> {
    match read_job(alloc, text.as_bytes()) {
        Err(Refused::Fault(fault)) => Some(fault),
        _ => None,
    }
}

fn kind_of(job: &JobText, vertex: usize) -> Option<&Kind> {
    Some(&job.dag.vertices.items().get(vertex)?.kind)
}

fn parallelism_of(job: &JobText, vertex: usize) -> Option<u8> {
    Some(job.dag.vertices.items().get(vertex)?.parallelism)
}

fn is_base_source(kind: Option<&Kind>) -> bool {
    match kind {
        Some(Kind::Source { files, lag: 3 }) => {
            files.items().len() == 1
                && files
                    .items()
                    .iter()
                    .all(|file| file.bytes() == b"t.csv".as_slice())
        }
        _ => false,
    }
}

#[test]
fn the_base_job_is_read_and_accepted(rt: HostRuntime) -> Result<(), Fail> {
    let job = read_job(rt.alloc(), BASE.as_bytes())?;
    assert_eq!(rt; job.settings, Settings::default());
    assert!(rt; is_base_source(kind_of(&job, 0)));
    assert!(rt;
        matches!(
            kind_of(&job, 1),
            Some(Kind::Accumulate { size: 10, slide: 5 })
        )
    );
    assert!(rt; job.dag.edges.items().iter().all(|edge| !edge.build));
    let plan = check(rt.alloc(), job.dag, job.settings)?;
    let mut printed = Vec::new(rt.alloc());
    print_plan(rt.alloc(), &plan, &mut printed)?;
    assert_eq!(rt; printed.as_slice(), BASE_PLAN);
    Ok(())
}

#[test]
fn a_large_job_is_read_and_accepted(rt: HostRuntime) -> Result<(), Fail> {
    let settings = Settings {
        workers: 3,
        members: 2,
        ring: 16,
        packet: 256,
        window: 1000,
        turns: 5,
        ahead: 0,
        lines: 9,
        peak: 2000,
        multiplier: 4,
        period: 8,
    };
    let job = read_job(rt.alloc(), LARGE.as_bytes())?;
    assert_eq!(rt; job.settings, settings);
    assert_eq!(rt; parallelism_of(&job, 0), Some(2));
    assert_eq!(rt; parallelism_of(&job, 7), Some(8));
    assert!(rt; is_left_join(kind_of(&job, 2)));
    assert!(rt; sets_the_last(kind_of(&job, 4)));
    assert!(rt; has_tagged_leg(kind_of(&job, 5)));
    assert!(rt; check(rt.alloc(), job.dag, job.settings).is_ok());
    Ok(())
}

fn is_left_join(kind: Option<&Kind>) -> bool {
    match kind {
        Some(
            Kind::Join {
                mode,
                rekey,
                fields,
            },
        ) => *mode == ModeSpec::Left && *rekey && *fields == [0, 4, 7, 3],
        _ => false,
    }
}

fn sets_the_last(kind: Option<&Kind>) -> bool {
    match kind {
        Some(Kind::Map { set }) => set[0].is_none() && set[3].is_some(),
        _ => false,
    }
}

fn has_tagged_leg(kind: Option<&Kind>) -> bool {
    match kind {
        Some(Kind::Flat { legs }) => match legs.items() {
            [plain, tagged] => plain.tag.is_none() && tagged.tag.is_some(),
            _ => false,
        },
        _ => false,
    }
}

const WRONG_OBJECTS: [(&str, JobFault); 10] = [
    ("{", JobFault::NotJson),
    ("[]", JobFault::WrongKind(Place::Top, Field::Itself)),
    (
        r#"{"edges":[]}"#,
        JobFault::Missing(Place::Top, Field::Vertices),
    ),
    (
        r#"{"vertices":[],"edges":{}}"#,
        JobFault::WrongKind(Place::Top, Field::Edges),
    ),
    (
        r#"{"vertices":1,"edges":[],"more":1}"#,
        JobFault::UnknownField(Place::Top),
    ),
    (
        r#"{"vertices":[1],"edges":[],"settings":1}"#,
        JobFault::WrongKind(Place::Vertex(0), Field::Itself),
    ),
    (
        r#"{"vertices":[],"edges":[{"from":"a","to":"b","route":"any"}]}"#,
        JobFault::WrongKind(Place::Edge(0), Field::Route),
    ),
    (
        r#"{"vertices":[],"edges":[{"from":"a","to":"b","route":"unicast","build":null}]}"#,
        JobFault::WrongKind(Place::Edge(0), Field::Build),
    ),
    (
        r#"{"vertices":[],"edges":[],"settings":null}"#,
        JobFault::WrongKind(Place::Settings, Field::Itself),
    ),
    (
        r#"{"vertices":[],"edges":[],"settings":{"ring":9,"rings":9}}"#,
        JobFault::UnknownField(Place::Settings),
    ),
];

#[test]
fn objects_have_wrong_members(rt: HostRuntime) -> Result<(), Fail> {
    for (text, fault) in WRONG_OBJECTS {
        assert_eq!(rt; fault_of(rt.alloc(), text), Some(fault), "{text}");
    }
    Ok(())
}

// The fault of a job with one vertex, its text between braces.
fn vertex_fault(alloc: Global, vertex: &str) -> Result<Option<JobFault>, Fail> {
    let text = format!(in alloc; r#"{{"vertices":[{{{vertex}}}],"edges":[]}}"#)?;
    Ok(fault_of(alloc, text.as_str()))
}

const AT: Place = Place::Vertex(0);

const SECOND_LEG: Place = Place::Leg(0, 1);

const WRONG_VERTICES: [(&str, JobFault); 13] = [
    (r#""more":1"#, JobFault::Missing(AT, Field::Name)),
    (r#""name":"a","more":1"#, JobFault::Missing(AT, Field::Kind)),
    (
        r#""name":"a b","kind":"maps""#,
        JobFault::WrongKind(AT, Field::Name),
    ),
    (
        r#""name":"a","kind":"source","more":1"#,
        JobFault::UnknownField(AT),
    ),
    (
        r#""name":"a","kind":"sink","parallelism":1"#,
        JobFault::UnknownField(AT),
    ),
    (
        r#""name":"a","kind":"source","files":[],"lag":0"#,
        JobFault::WrongKind(AT, Field::Files),
    ),
    (
        r#""name":"a","kind":"combine","parallelism":9"#,
        JobFault::WrongKind(AT, Field::Parallelism),
    ),
    (
        r#""name":"a","kind":"filter","test":"v0 +""#,
        JobFault::Expr(AT, Field::Test, ExprFault::Expected(4)),
    ),
    (
        r#""name":"a","kind":"map","set":{"v4":"1"}"#,
        JobFault::UnknownField(AT),
    ),
    (
        r#""name":"a","kind":"map","set":{"v1":"v9"}"#,
        JobFault::Expr(AT, Field::Set, ExprFault::Unknown(0)),
    ),
    (
        r#""name":"a","kind":"flat","legs":[{"value":"1"},{"tag":""}]"#,
        JobFault::Missing(SECOND_LEG, Field::Value),
    ),
    (
        r#""name":"a","kind":"flat","legs":[{"value":"1"},{"value":"(","tag":""}]"#,
        JobFault::Expr(SECOND_LEG, Field::Value, ExprFault::Expected(1)),
    ),
    (
        r#""name":"a","kind":"join","mode":"left","fields":["v0","v1","s4","v3"]"#,
        JobFault::WrongKind(AT, Field::Fields),
    ),
];

#[test]
fn vertices_have_wrong_members(rt: HostRuntime) -> Result<(), Fail> {
    for (vertex, fault) in WRONG_VERTICES {
        assert_eq!(rt; vertex_fault(rt.alloc(), vertex)?, Some(fault), "{vertex}");
    }
    Ok(())
}

// Which JSON numbers are whole ones: those of 64 bits, without a point and an exponent, and not `-0`.
#[test]
fn whole_numbers_have_neither_point_nor_exponent(rt: HostRuntime) -> Result<(), Fail> {
    let cases = [
        ("3", true),
        ("-3", true),
        ("9223372036854775807", true),
        ("9223372036854775808", false),
        ("-0", false),
        ("3.0", false),
        ("3e0", false),
        (r#""3""#, false),
        ("null", false),
    ];
    for (number, is_whole) in cases {
        let vertex = format!(in rt.alloc();
            r#""name":"a","kind":"accumulate","slide":1,"size":{number}"#
        )?;
        let fault = JobFault::WrongKind(Place::Vertex(0), Field::Size);
        let wanted = if is_whole { None } else { Some(fault) };
        assert_eq!(rt;
            vertex_fault(rt.alloc(), vertex.as_str())?,
            wanted,
            "{number}"
        );
    }
    Ok(())
}

// Blanks around a job, up to the last byte and one more.
#[test]
fn a_text_has_at_most_1048576_bytes(rt: HostRuntime) -> Result<(), Fail> {
    let mut text = Vec::from_slice(rt.alloc(), br#"{"vertices":[],"edges":[]}"#)?;
    text.resize(1_048_576, b' ')?;
    assert!(rt; read_job(rt.alloc(), text.as_slice()).is_ok());
    text.push(b' ')?;
    let found = read_job(rt.alloc(), text.as_slice()).err();
    assert_eq!(rt; found, Some(Refused::Fault(JobFault::Long)));
    Ok(())
}

// Of a name that stands twice the later member counts.
#[test]
fn the_later_of_two_members_counts(rt: HostRuntime) -> Result<(), Fail> {
    let twice = r#"{"vertices":1,"edges":[],"vertices":[]}"#;
    assert!(rt; read_job(rt.alloc(), twice.as_bytes()).is_ok());
    Ok(())
}
