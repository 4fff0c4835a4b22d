// The opening of all files that a job reads.
ghost use Rattle.std.specs.Prelude.{◌≡◌, ◌≤◌, ◌++◌, ◌∷◌, [], All, true, length, map, IfErr, IfOk, OnOk};
ghost use Rattle.jet_file.specs.Outside.{WhereTold};
ghost use Rattle.jet_flow.specs.DataFiles.{data_files as files_of};
ghost use Rattle.jet_worker.specs.CheckText.{Checks};
ghost use Rattle.jet_worker.specs.Checked.{IsCheckOf, LacksSome, numbered};
ghost use Rattle.jet_worker.specs.Opening.{AreNew, HasLag, HasOpened, StopsOpening, file_in, opened_in, pair_of};
ghost use Rattle.jet_worker.specs.Stopping.{IsForOutside, IsNoBadLine, OpenOutcome};

use crate::feed::open_data;
use crate::files::{DataFile, data_files};
use crate::{Spot, Stop};
use jet_file::{FileNo, Outside};
use jet_plan::Plan;
use std::alloc::Global;

/// A file that was opened.
#[derive(Clone, Copy)]
pub struct OpenFile<'a> {
    /// Its number among the files of the job.
    pub part: u16,
    pub file: DataFile<'a>,
    /// The number under which it is open.
    pub at: FileNo,
}

/// Opens the files of a plan in the order of their numbers. The lag of each source is from 0 to 10^15.
pub fn open_files<'a, O: Outside>(
    alloc: Global,
    plan: &'a Plan,
    out: &mut O,
) -> Result<Vec<OpenFile<'a>>, Stop>
    ensures count { IfOk result (λ opened. length opened.items ≡ length (files_of plan.now.dag)) }
    ensures lags { IfOk result (λ opened. All (λ o. HasLag (file_in o.file)) opened.items) }
    ensures pairs { IfOk result (λ opened. (c : Checks) → IsCheckOf plan.now.dag plan.now.settings c → map pair_of (map opened_in opened.items) ≡ numbered c) }
    ensures numbers { IfOk result (λ opened. AreNew (O.opened out.old) (O.opened out.new) (map opened_in opened.items)) }
    ensures told { IfOk result (λ opened. WhereTold (HasOpened (map opened_in opened.items)) (O.told out.old) (O.told out.new)) }
    ensures stop { IfErr result (λ stop. (c : Checks) → IsCheckOf plan.now.dag plan.now.settings c → WhereTold (StopsOpening c stop) (O.told out.old) (O.told out.new)) }
    ensures no_bad_line { IfErr result IsNoBadLine }
    ensures works { O.steady out.old ≡ true → IfErr result (λ stop. IsForOutside stop → LacksSome (files_of plan.now.dag) (O.told out.old)) }
    ensures outcome { OpenOutcome O.steady O.faults out.old out.new result }
{
    match data_files(alloc, plan.dag()) {
        Ok(files) => open_all(alloc, &files, out),
        Err(_) => Err(Stop::NoMemory),
    }
}

/// Opens all files in the order of their numbers.
pub fn open_all<'a, O: Outside>(
    alloc: Global,
    files: &[DataFile<'a>],
    out: &mut O,
) -> Result<Vec<OpenFile<'a>>, Stop>
    requires { length files.now ≤ 256 }
    ensures pairs { IfOk result (λ opened. (c : Checks) → c.files ≡ map file_in files.now → map pair_of (map opened_in opened.items) ≡ numbered c) }
    ensures numbers { IfOk result (λ opened. AreNew (O.opened out.old) (O.opened out.new) (map opened_in opened.items)) }
    ensures told { IfOk result (λ opened. WhereTold (HasOpened (map opened_in opened.items)) (O.told out.old) (O.told out.new)) }
    ensures stop { IfErr result (λ stop. (c : Checks) → c.files ≡ map file_in files.now → WhereTold (StopsOpening c stop) (O.told out.old) (O.told out.new)) }
    ensures no_bad_line { IfErr result IsNoBadLine }
    ensures works { O.steady out.old ≡ true → IfErr result (λ stop. IsForOutside stop → LacksSome (map file_in files.now) (O.told out.old)) }
    ensures outcome { OpenOutcome O.steady O.faults out.old out.new result }
{
    let mut opened = Vec::new(alloc);
    for (number, file) in files.iter().enumerate() {
        let part = number as u16;
        let at = open_data(out, Spot::Part(part), file.name())?;
        keep(
            &mut opened,
            OpenFile {
                part,
                file: *file,
                at,
            },
        )?;
    }
    Ok(opened)
}

fn keep<'a>(opened: &mut Vec<OpenFile<'a>>, one: OpenFile<'a>) -> Result<(), Stop>
    ensures ok { OnOk result (opened.new.items ≡ opened.old.items ++ one.entry ∷ []) }
    ensures err { IfErr result (λ stop. stop ≡ Stop.NoMemory) }
{
    match opened.push(one) {
        Ok(()) => Ok(()),
        Err(_) => Err(Stop::NoMemory),
    }
}
