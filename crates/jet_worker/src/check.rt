// The check of all lines that a job reads.
ghost use Rattle.std.specs.Prelude.{◌≡◌, ◌≤◌, ◌≤ℤ◌, ℕ, All, length, map, pos, true, IsTrue, OnOk, IfErr, IfOk};
ghost use Rattle.jet_file.specs.Outside.{WhereTold};
ghost use Rattle.jet_lines.specs.Files.{most_lines};
ghost use Rattle.jet_flow.specs.DataFiles.{data_files};
ghost use Rattle.jet_flow.specs.Grain.{IsGrain};
ghost use Rattle.jet_worker.specs.Calls.{Calling};
ghost use Rattle.jet_worker.specs.CheckText.{Checks};
ghost use Rattle.jet_worker.specs.Checked.{CheckStops, IsCheckOf, IsChecked, LacksSome};
ghost use Rattle.jet_worker.specs.inner.FileChecks.{ChecksFile};
ghost use Rattle.jet_worker.specs.Opening.{HasLag, file_in};
ghost use Rattle.jet_worker.specs.Stopping.{IsForOutside, OpenOutcome, Outcome};

use crate::Stop;
use crate::feed::write_text;
use crate::files::{DataFile, data_files};
use crate::laws::laws_of_lines;
use crate::open::{OpenFile, open_all};
use crate::read::tally_lines;
use crate::tally::Tally;
use jet_file::{Out, Outside};
use jet_flow::grain;
use jet_plan::Plan;
use std::alloc::Global;

/// The most lines of a file, and the unit of the watermarks in that of the timestamps.
#[derive(Clone, Copy)]
pub struct Limits {
    /// The most lines.
    pub most: u32,
    /// The unit.
    pub unit: i64,
}

/// Checks all lines that a job reads: opens all its files in the order of their numbers, reads each to its end in that
/// order, and writes for each a line to Rows.
///
/// The line of a source's file is `part,NUMBER,LINES,EVENTS,BEHIND`, where an event is behind when its time is below
/// the watermark of those before it in the file. The line of a side file is `side,NUMBER,LINES,ROWS`.
///
/// It stops at the first bad line, at the first call on the outside that fails, and where no memory is found: then
/// Rows holds the lines of the good files before, or a front of these lines. The line of a file is written before the
/// next file is read.
pub fn check_files<O: Outside>(alloc: Global, plan: &Plan, out: &mut O) -> Result<(), Stop>
    ensures done { OnOk result ((c : Checks) → IsCheckOf plan.now.dag plan.now.settings c
        → WhereTold (Calling (IsChecked c (O.opened out.old) (O.opened out.new))) (O.told out.old) (O.told out.new)) }
    ensures stop { IfErr result (λ stop. (c : Checks) → IsCheckOf plan.now.dag plan.now.settings c
        → WhereTold (Calling (CheckStops c stop)) (O.told out.old) (O.told out.new)) }
    ensures works { O.steady out.old ≡ true → IfErr result (λ stop. IsForOutside stop → LacksSome (data_files plan.now.dag) (O.told out.old)) }
    ensures outcome { OpenOutcome O.steady O.faults out.old out.new result }
{
    let limits = limits_of(plan);
    match data_files(alloc, plan.dag()) {
        Ok(files) => check_all(alloc, &files, limits, out),
        Err(_) => Err(Stop::NoMemory),
    }
}

/// The limits of a plan.
pub fn limits_of(plan: &Plan) -> Limits
    ensures most { plan.now.settings.lines ≡ pos result.most }
    ensures most_bound { result.most ≤ most_lines }
    ensures unit { (unit : ℕ) → IsGrain plan.now.dag unit → result.unit ≡ pos unit }
    ensures checks { (c : Checks) → IsCheckOf plan.now.dag plan.now.settings c → (c.most ≡ result.most) × (result.unit ≡ pos c.unit) }
    ensures unit_bound { (pos 1 ≤ℤ result.unit) × (result.unit ≤ℤ pos 1000000000000) }
{
    let unit = grain(plan.dag());
    let most = plan.settings().lines.unsigned_abs();
    Limits {
        most: most as u32,
        unit: unit as i64,
    }
}

// Opens these files, reads each to its end in their order, and writes their lines.
fn check_all<O: Outside>(
    alloc: Global,
    files: &[DataFile<'_>],
    limits: Limits,
    out: &mut O,
) -> Result<(), Stop>
    requires count { length files.now ≤ 256 }
    requires lags { All HasLag (map file_in files.now) }
    requires most { limits.most ≤ most_lines }
    requires unit { (pos 1 ≤ℤ limits.unit) × (limits.unit ≤ℤ pos 1000000000000) }
    ensures done { OnOk result ((c : Checks) → c.files ≡ map file_in files.now → c.most ≡ limits.most → limits.unit ≡ pos c.unit
        → WhereTold (Calling (IsChecked c (O.opened out.old) (O.opened out.new))) (O.told out.old) (O.told out.new)) }
    ensures stop { IfErr result (λ stop. (c : Checks) → c.files ≡ map file_in files.now → c.most ≡ limits.most → limits.unit ≡ pos c.unit
        → WhereTold (Calling (CheckStops c stop)) (O.told out.old) (O.told out.new)) }
    ensures works { O.steady out.old ≡ true → IfErr result (λ stop. IsForOutside stop → LacksSome (map file_in files.now) (O.told out.old)) }
    ensures outcome { OpenOutcome O.steady O.faults out.old out.new result }
{
    let opened = open_all(alloc, files, out)?;
    for file in &opened {
        check_file(alloc, file, limits, out)?;
    }
    Ok(())
}

// Reads an opened file to its end, and writes its line.
fn check_file<O: Outside>(
    alloc: Global,
    file: &OpenFile<'_>,
    limits: Limits,
    out: &mut O,
) -> Result<(), Stop>
    requires opened { IsTrue (O.opened out.old file.now.at) }
    requires lag { HasLag (file_in file.now.file) }
    requires most { limits.most ≤ most_lines }
    requires unit { (pos 1 ≤ℤ limits.unit) × (limits.unit ≤ℤ pos 1000000000000) }
    ensures told { (c : Checks) → c.most ≡ limits.most → limits.unit ≡ pos c.unit
        → WhereTold (ChecksFile c (file.now.part, file_in file.now.file) file.now.at result) (O.told out.old) (O.told out.new) }
    ensures outcome { Outcome O.opened O.steady O.faults out.old out.new result }
{
    laws_of_lines();
    let mut tally = Tally::new(alloc, file.part, &file.file, limits.unit);
    let lines = tally_lines(alloc, file.part, file.at, limits.most, &mut tally, out)?;
    match tally.text(alloc, file.part, lines) {
        Ok(text) => write_text(out, Out::Rows, text.as_bytes()),
        Err(_) => Err(Stop::NoMemory),
    }
}
