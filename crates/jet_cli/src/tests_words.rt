// Which words are a command, and the line of each status.
use super::*;
use jet_expr::ExprFault;
use jet_job::{Field, JobFault, Place};
use jet_lines::LineFault;
use jet_plan::{Large, PlanFault, SettingName};
use jet_policy::PolicyFault;
use std::alloc::Global;
use std::process::Abort;
use std::test::Fail;

const BARE: Options = Options {
    workers: None,
    members: None,
    ring: None,
};

fn plan(job: &'static str, options: Options) -> Option<Command<'static>> {
    Some(Command::Plan(JobWords {
        job: job.as_bytes(),
        options,
    }))
}

// The words of a text stand between blanks.
fn check_words(
    rt: &impl Abort,
    alloc: Global,
    text: &str,
    command: Option<Command<'static>>,
) -> Result<(), Fail> {
    let mut words = Vec::new(alloc);
    for word in text.split(' ') {
        words.push(String::from_str(alloc, word)?)?;
    }
    assert_eq!(rt; read_words(&words), command);
    Ok(())
}

#[test]
fn words_that_are_a_command(rt: HostRuntime) -> Result<(), Fail> {
    let all = |workers, members, ring| Options {
        workers: Some(workers),
        members: Some(members),
        ring: Some(ring),
    };
    let workers = Options {
        workers: Some(2),
        ..BARE
    };
    let window = WindowWords {
        size: 10,
        slide: 5,
        lag: 3,
        file: b"t.csv",
    };
    let base = JobWords {
        job: b"j",
        options: BARE,
    };
    let cases = [
        ("window 10 5 3 t.csv", Some(Command::Window(window))),
        ("check j", Some(Command::Check(base))),
        ("run j", Some(Command::Run(base))),
        ("plan j", plan("j", BARE)),
        ("plan ", plan("", BARE)),
        ("plan -", plan("-", BARE)),
        (
            "plan j --workers 8 --members=4 --ring 65536",
            plan("j", all(8, 4, 65536)),
        ),
        (
            "plan --ring=2 j --members 000001 --workers=1",
            plan("j", all(1, 1, 2)),
        ),
        ("plan --workers 2 -- j", plan("j", workers)),
        ("plan j --workers 2 --", plan("j", workers)),
        ("plan -- --workers=2", plan("--workers=2", BARE)),
        ("plan -- --", plan("--", BARE)),
    ];
    for (text, command) in &cases {
        check_words(&rt, rt.alloc(), text, *command)?;
    }
    Ok(())
}

#[test]
fn words_that_are_none(rt: HostRuntime) -> Result<(), Fail> {
    let none: Vec<String> = Vec::new(rt.alloc());
    assert!(rt; read_words(&none).is_none());
    let cases = [
        "",
        "fly",
        "help",
        "--help",
        "-h",
        "--version",
        "run",
        "run j --workers 0",
        "run j --summary --summary",
        "trial 1",
        "plan",
        "plan j k",
        "plan j -- k",
        "plan j --workers",
        "plan j --workers=",
        "plan --workers -- j",
        "plan --workers --ring 2 j",
        "plan j --workers -",
        "plan j --workers 0",
        "plan j --workers=9",
        "plan j --members 5",
        "plan j --ring 1",
        "plan j --ring 65537",
        "plan j --ring 0000002",
        "plan j --workers +2",
        "plan j --workers 2 --workers=2",
        "plan j --worker 2",
        "plan j -w 2",
        "plan j --summary",
        "PLAN j",
        "window 10 5 3 t.csv --workers 2",
        "window 10 5 3 -",
    ];
    for text in &cases {
        check_words(&rt, rt.alloc(), text, None)?;
    }
    Ok(())
}

#[test]
fn each_status_has_its_line(rt: HostRuntime) -> Result<(), Fail> {
    let usage =
        "jet: usage: jet run JOB, jet window SIZE SLIDE LAG FILE, jet plan JOB, jet check JOB, jet trial SEED\n";
    let job = |fault| Status::JobRefused(Refusal::Job(fault));
    let plan = |fault| Status::JobRefused(Refusal::Plan(fault));
    let outside = |call, file| Status::OutsideFault { call, file };
    let bad = Status::BadLine {
        part: 0,
        line: 3,
        why: LineFault::Number(0),
    };
    let lines = [
        (Status::Done, ""),
        (Status::Usage, usage),
        (job(JobFault::Long), "jet: job refused: job fault 1\n"),
        (
            job(JobFault::Missing(Place::Top, Field::Edges)),
            "jet: job refused: job fault 3 top\n",
        ),
        (
            job(JobFault::WrongKind(Place::Settings, Field::Itself)),
            "jet: job refused: job fault 4 settings\n",
        ),
        (
            job(JobFault::UnknownField(Place::Vertex(31))),
            "jet: job refused: job fault 5 vertex 31\n",
        ),
        (
            job(JobFault::UnknownField(Place::Edge(0))),
            "jet: job refused: job fault 5 edge 0\n",
        ),
        (
            job(JobFault::Expr(Place::Leg(2, 7), Field::Value, ExprFault::Deep)),
            "jet: job refused: job fault 6 leg 2 7\n",
        ),
        (plan(PlanFault::Cycle), "jet: job refused: plan fault 5\n"),
        (
            plan(PlanFault::SinkCount(2)),
            "jet: job refused: plan fault 7\n",
        ),
        (
            plan(PlanFault::NotGathered(63)),
            "jet: job refused: plan fault 14 at 63\n",
        ),
        (
            plan(PlanFault::Policy(1, PolicyFault::NotMultiple)),
            "jet: job refused: plan fault 16 at 1\n",
        ),
        (
            plan(PlanFault::Setting(SettingName::Ring)),
            "jet: job refused: plan fault 17\n",
        ),
        (
            plan(PlanFault::Setting(SettingName::Lag(0))),
            "jet: job refused: plan fault 17 at 0\n",
        ),
        (
            plan(PlanFault::TooLarge(Large::Growth(5))),
            "jet: job refused: plan fault 18 at 5\n",
        ),
        (
            plan(PlanFault::TooLarge(Large::Slots(4_000_001))),
            "jet: job refused: plan fault 18\n",
        ),
        (bad, "jet: bad line: part 0 line 3: fault 5\n"),
        (outside(Call::Open, Spot::Job), "jet: fault: open job\n"),
        (
            outside(Call::Read, Spot::Part(255)),
            "jet: fault: read part 255\n",
        ),
        (outside(Call::Write, Spot::Rows), "jet: fault: write rows\n"),
        (
            outside(Call::Write, Spot::Notes),
            "jet: fault: write notes\n",
        ),
        (Status::NoMemory, "jet: no memory\n"),
    ];
    for (status, line) in &lines {
        let mut text = Vec::new(rt.alloc());
        print_status(rt.alloc(), status, &mut text)?;
        assert_eq!(rt; text.as_slice(), line.as_bytes());
    }
    Ok(())
}
