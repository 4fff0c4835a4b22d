// Worked runs of the top call over an outside in memory, and the real outside at a missing file and a directory.
use super::*;
use crate::tests_case::{Case, check_all};
use jet_file::{OutFault, Outside};
use jet_lines::LineFault;
use jet_plan::PlanFault;
use jet_policy::PolicyFault;
use std::test::Fail;

#[test]
fn windows_of_one_file(rt: HostRuntime) -> Result<(), Fail> {
    let plain = |file, rows| Case {
        file,
        rows,
        ..Case::of("window 10 5 3 t.csv")
    };
    let cases = [
        plain(b"", ""),
        plain(b"7,a,2", "w,0,10,a,1,2,2,2\nw,5,15,a,1,2,2,2\n"),
        plain(b"10,a,4", "w,5,15,a,1,4,4,4\nw,10,20,a,1,4,4,4\n"),
        plain(b"-1,a,4", "w,-10,0,a,1,4,4,4\nw,-5,5,a,1,4,4,4\n"),
        Case {
            notes: "late,w,0,3,14,a,1,0,0,0\n",
            ..plain(
                b"7,a,1\n20,a,1\n14,a,1\n15,a,1\n",
                "w,0,10,a,1,1,1,1\nw,5,15,a,1,1,1,1\nw,10,20,a,1,1,1,1\nw,15,25,a,2,2,1,1\nw,20,30,a,1,1,1,1\n",
            )
        },
        Case {
            notes: "late,w,0,5,14,a,1,0,0,0\n",
            ..plain(
                b"#idle\n7,a,1\n#idle\n20,a,1\n14,a,1\n15,a,1\n",
                "w,0,10,a,1,1,1,1\nw,5,15,a,1,1,1,1\nw,10,20,a,1,1,1,1\nw,15,25,a,2,2,1,1\nw,20,30,a,1,1,1,1\n",
            )
        },
        plain(
            b"1,a,1\n4,a,2\n2,b,3\n6,a,4\n3,a,5\n",
            "w,-5,5,a,3,8,1,5\nw,-5,5,b,1,3,3,3\nw,0,10,a,4,12,1,5\nw,0,10,b,1,3,3,3\nw,5,15,a,1,4,4,4\n",
        ),
        plain(
            b"3,a,5\n3,a,5\n3,a,5\n3,a,5",
            "w,-5,5,a,4,20,5,5\nw,0,10,a,4,20,5,5\n",
        ),
        Case {
            words: "window 1 1 0 t.csv",
            ..plain(
                b"0,a,1\n1000000000000000,a,2\n",
                "w,0,1,a,1,1,1,1\nw,1000000000000000,1000000000000001,a,1,2,2,2\n",
            )
        },
    ];
    check_all(&rt, rt.alloc(), &cases)
}

#[test]
fn words_and_sizes_that_are_refused(rt: HostRuntime) -> Result<(), Fail> {
    let refused = |words, status| Case {
        file: b"7,a,2\n",
        status,
        ..Case::of(words)
    };
    let sizes = |fault| Status::JobRefused(Refusal::Plan(PlanFault::Policy(1, fault)));
    let cases = [
        refused("window 10 3 0 t.csv", sizes(PolicyFault::NotMultiple)),
        refused("window 1025 1 0 t.csv", sizes(PolicyFault::Ratio)),
        refused(
            "window 9999999999999999 5 0 t.csv",
            sizes(PolicyFault::Size),
        ),
        refused("window 10 5 3", Status::Usage),
        refused("window 10 5 3 -t.csv", Status::Usage),
        refused("window 10 5 1000000000000001 t.csv", Status::Usage),
        refused("window 10 +5 3 t.csv", Status::Usage),
        refused("fly", Status::Usage),
        refused("--help", Status::Usage),
    ];
    check_all(&rt, rt.alloc(), &cases)
}

#[test]
fn faults_and_a_bad_line(rt: HostRuntime) -> Result<(), Fail> {
    let failing = |words, failing, call, file| Case {
        file: b"7,a,2\n",
        failing,
        status: Status::OutsideFault { call, file },
        ..Case::of(words)
    };
    let bad = |file, line| Case {
        file,
        status: Status::BadLine {
            part: 0,
            line,
            why: LineFault::Number(0),
        },
        rows: "w,0,10,a,1,2,2,2\nw,5,15,a,1,2,2,2\n",
        ..Case::of("window 10 5 3 t.csv")
    };
    let cases = [
        failing("window 10 5 3 u.csv", 0, Call::Open, Spot::Part(0)),
        failing("window 10 5 3 t.csv", 3, Call::Read, Spot::Part(0)),
        failing("window 10 5 3 t.csv", 4, Call::Write, Spot::Rows),
        bad(b"7,a,2\n30,a,1\nx,a,1\n", 3),
        bad(b"7,a,2\n#idle\n30,a,1\n#idle\nx,a,1\n", 5),
    ];
    check_all(&rt, rt.alloc(), &cases)
}

// The least value of the last window is that of its own event, and not one of an event that has left it.
#[test]
fn sensors_with_quotes_and_returns(rt: HostRuntime) -> Result<(), Fail> {
    let sensors = |file| Case {
        file,
        rows: "w,1699999950000,1700000010000,sensor-1,1,215,215,215
w,1699999950000,1700000010000,sensor-2,1,198,198,198
w,1699999960000,1700000020000,sensor-1,2,432,215,217
w,1699999960000,1700000020000,sensor-2,1,198,198,198
w,1699999970000,1700000030000,sensor-1,2,432,215,217
w,1699999970000,1700000030000,sensor-2,1,198,198,198
w,1699999980000,1700000040000,sensor-1,2,432,215,217
w,1699999980000,1700000040000,sensor-2,1,198,198,198
w,1699999990000,1700000050000,sensor-1,2,432,215,217
w,1699999990000,1700000050000,sensor-2,1,198,198,198
w,1700000000000,1700000060000,sensor-1,2,432,215,217
w,1700000000000,1700000060000,sensor-2,1,198,198,198
w,1700000010000,1700000070000,sensor-1,1,217,217,217
",
        ..Case::of("window 60000 10000 5000 t.csv")
    };
    let cases = [
        sensors(
            b"1700000000000,\"sensor-1\",215\r\n1700000004000,\"sensor-2\",198\r\n1700000012000,\"sensor-1\",217",
        ),
        sensors(
            b"1700000000000,\"sensor-1\",215\r\n#idle\r\n1700000004000,\"sensor-2\",198\r\n#idle\r\n1700000012000,\"sensor-1\",217",
        ),
    ];
    check_all(&rt, rt.alloc(), &cases)
}

#[test]
fn missing_files_and_directories_fail(rt: HostRuntime) -> Result<(), Fail> {
    let mut out = RealOutside::new(rt)?;
    let missing = out.open_file(b"no_file_of_this_name");
    assert_eq!(rt; missing, Err(OutFault::Failed));
    let file = out.open_file(b".")?;
    assert_eq!(rt; file, 0);
    let mut buf = [0u8; 16];
    let directory = out.read(file, &mut buf);
    assert_eq!(rt; directory, Err(OutFault::Failed));
    Ok(())
}
