// Worked runs of `plan` and `check` over a job file `j` and a data file `t.csv` in memory, the plans of the examples among
// them.
use super::*;
use crate::tests_case::{Case, check_all};
use crate::tests_examples::{BASE_JOB, BASE_PLAN, SENSORS_JOB, SENSORS_PLAN};
use jet_job::{Field, JobFault, Place};
use jet_lines::LineFault;
use jet_plan::PlanFault;
use std::test::Fail;

const BASE: &str = r#"{"vertices":[
  {"name":"s","kind":"source","files":["t.csv"],"lag":3},
  {"name":"a","kind":"accumulate","size":10,"slide":5},
  {"name":"w","kind":"combine"},
  {"name":"z","kind":"sink"}],
 "edges":[
  {"from":"s","to":"a","route":"unicast"},
  {"from":"a","to":"w","route":"partitioned","distributed":true},
  {"from":"w","to":"z","route":"unicast","distributed":true}]}"#;

#[test]
fn plans_and_checks(rt: HostRuntime) -> Result<(), Fail> {
    let done = |words, rows| Case {
        job: BASE,
        file: b"7,a,1\n20,a,1\n14,a,1\n15,a,1\n",
        rows,
        ..Case::of(words)
    };
    let cases = [
        done(
            "plan j --members 2",
            "vertex,0,s,source,2\nvertex,1,a,accumulate,2\nvertex,2,w,combine,2\nvertex,3,z,sink,1
edge,0,s,a,unicast,2,0\nedge,1,a,w,partitioned,6,2\nedge,2,w,z,unicast,3,1\ntotal,12,12,12288,3\n",
        ),
        done(
            "plan --ring=2 j",
            "vertex,0,s,source,1\nvertex,1,a,accumulate,1\nvertex,2,w,combine,1\nvertex,3,z,sink,1
edge,0,s,a,unicast,1,0\nedge,1,a,w,partitioned,1,0\nedge,2,w,z,unicast,1,0\ntotal,3,4,8,0\n",
        ),
        done("check j", "part,0,4,4,1\n"),
        Case {
            job: BASE_JOB,
            ..done("plan j", BASE_PLAN)
        },
        Case {
            job: SENSORS_JOB,
            ..done("plan j", SENSORS_PLAN)
        },
        Case {
            file: b"7,a,1\n8,a\n",
            status: Status::BadLine {
                part: 0,
                line: 2,
                why: LineFault::Fields,
            },
            ..done("check j", "")
        },
    ];
    check_all(&rt, rt.alloc(), &cases)
}

// The base job run on one worker, on many, and over rings of two slots: the rows are the same.
#[test]
fn runs_on_any_workers(rt: HostRuntime) -> Result<(), Fail> {
    let rows =
        "w,0,10,a,1,1,1,1\nw,5,15,a,1,1,1,1\nw,10,20,a,1,1,1,1\nw,15,25,a,2,2,1,1\nw,20,30,a,1,1,1,1\n";
    let run = |words| Case {
        job: BASE,
        file: b"7,a,1\n20,a,1\n14,a,1\n15,a,1\n",
        rows,
        notes: "late,w,0,3,14,a,1,0,0,0\n",
        ..Case::of(words)
    };
    let bad = |words| Case {
        job: BASE,
        file: b"7,a,1\n8,a\n",
        status: Status::BadLine {
            part: 0,
            line: 2,
            why: LineFault::Fields,
        },
        ..Case::of(words)
    };
    let cases = [
        run("run j --workers 1 --members 1 --ring 4096"),
        run("run j --workers 8 --members 4 --ring 2"),
        run("run j --workers 2 --members 2 --ring 2"),
        bad("run j"),
        Case {
            failing: 4,
            status: Status::OutsideFault {
                call: Call::Open,
                file: Spot::Part(0),
            },
            ..bad("run j")
        },
    ];
    check_all(&rt, rt.alloc(), &cases)
}

const LOCAL: &str = r#"{"vertices":[
  {"name":"s","kind":"source","files":["t.csv"],"lag":3},
  {"name":"a","kind":"accumulate","size":10,"slide":5},
  {"name":"w","kind":"combine"},
  {"name":"z","kind":"sink"}],
 "edges":[
  {"from":"s","to":"a","route":"unicast"},
  {"from":"a","to":"w","route":"partitioned","distributed":true},
  {"from":"w","to":"z","route":"unicast"}]}"#;

#[test]
fn jobs_that_are_refused(rt: HostRuntime) -> Result<(), Fail> {
    let refused = |words, job, why| Case {
        job,
        status: Status::JobRefused(why),
        ..Case::of(words)
    };
    let cases = [
        refused(
            "plan j --members 2",
            LOCAL,
            Refusal::Plan(PlanFault::NotGathered(2)),
        ),
        refused(
            "check j --members=2",
            LOCAL,
            Refusal::Plan(PlanFault::NotGathered(2)),
        ),
        refused("plan j", "", Refusal::Job(JobFault::NotJson)),
        refused(
            "check j",
            "{}",
            Refusal::Job(JobFault::Missing(Place::Top, Field::Vertices)),
        ),
    ];
    check_all(&rt, rt.alloc(), &cases)
}

#[test]
fn calls_that_fail(rt: HostRuntime) -> Result<(), Fail> {
    let failing = |words, failing, call, file| Case {
        job: BASE,
        file: b"7,a,2\n",
        failing,
        status: Status::OutsideFault { call, file },
        ..Case::of(words)
    };
    let cases = [
        failing("plan k", 0, Call::Open, Spot::Job),
        failing("plan j", 2, Call::Read, Spot::Job),
        failing("plan j", 4, Call::Write, Spot::Rows),
        failing("check j", 4, Call::Open, Spot::Part(0)),
        failing("check j", 5, Call::Read, Spot::Part(0)),
    ];
    check_all(&rt, rt.alloc(), &cases)
}
