// A worked run of the top call over an outside in memory.
ghost use Rattle.std.specs.Prelude.{◌≡◌, ◌<◌};

use super::*;
use jet_file::{MemoryOutside, Out};
use std::alloc::Global;
use std::marker::Brand;
use std::process::Abort;
use std::sync::ledger::{Blank, Ledger};
use std::test::Fail;
use std::thread::Threads;

#[derive(Clone, Copy)]
pub(crate) struct Case {
    // The words, between blanks.
    pub(crate) words: &'static str,
    // The job file `j` and the data file `t.csv`.
    pub(crate) job: &'static str,
    pub(crate) file: &'static [u8],
    // The number of the call that fails, or 0.
    pub(crate) failing: u64,
    pub(crate) status: Status,
    pub(crate) rows: &'static str,
    pub(crate) notes: &'static str,
}

impl Case {
    // The words are done, and write nothing.
    pub(crate) const fn of(words: &'static str) -> Case {
        Case {
            words,
            job: "",
            file: b"",
            failing: 0,
            status: Status::Done,
            rows: "",
            notes: "",
        }
    }
}

// Runs the words of a case.
fn check<R: Threads + Abort + Sync, L: Ledger>(
    rt: &R,
    alloc: Global,
    case: &Case,
    blank: Blank,
) -> Result<(), Fail>
    requires name { blank.name ≡ L.name }
    requires parts { blank.parts ≡ L.parts }
    requires some { 0 < L.parts }
{
    let mut words = Vec::new(alloc);
    for word in case.words.split(' ') {
        words.push(String::from_str(alloc, word)?)?;
    }
    let mut fail = Vec::new(alloc);
    if case.failing > 0 {
        fail.push(case.failing)?;
    }
    let mut out = MemoryOutside::new(alloc, fail, 4096)?;
    out.add(b"t.csv", case.file.to_vec(alloc)?)?;
    out.add(b"j", case.job.as_bytes().to_vec(alloc)?)?;
    let mut steps: Steps<L> = Steps::new(blank);
    let status = run_jet(rt, alloc, &words, &mut out, &FreeGate, &mut steps);
    assert_eq!(rt; status, case.status);
    assert_eq!(rt; out.written(Out::Rows), case.rows.as_bytes());
    assert_eq!(rt; out.written(Out::Notes), case.notes.as_bytes());
    Ok(())
}

// Runs the words of each case.
pub(crate) fn check_all<R: Threads + Abort + Sync>(
    rt: &R,
    alloc: Global,
    cases: &[Case],
) -> Result<(), Fail> {
    for case in cases {
        check::<R, Brand>(rt, alloc, case, Blank::new(1))?;
    }
    Ok(())
}
