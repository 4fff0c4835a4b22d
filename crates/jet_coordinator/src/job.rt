// The run of a job to its end.
ghost use Rattle.std.specs.Prelude.{◌≡◌, ◌<◌, true, IfErr, IfOk, OnOk};
ghost use Rattle.jet_file.specs.Outside.{WhereTold};
ghost use Rattle.jet_flow.specs.DataFiles.{data_files};
ghost use Rattle.jet_flow.specs.Inflows.{windows};
ghost use Rattle.jet_worker.specs.Calls.{Calling};
ghost use Rattle.jet_worker.specs.CheckText.{Checks};
ghost use Rattle.jet_worker.specs.Checked.{IsCheckOf, LacksSome};
ghost use Rattle.jet_worker.specs.Stopping.{IsForOutside, OpenOutcome, Outcome};
ghost use Rattle.jet_coordinator.specs.Carried.{HasCarried};
ghost use Rattle.jet_coordinator.specs.Going.{CanGo};
ghost use Rattle.jet_coordinator.specs.Progress.{ComesOn, IsAtEnd, StopsFrom};
ghost use Rattle.jet_coordinator.specs.Runs.{HasRun, RunStops};

use crate::{Running, begin, ended_runs_are_whole};
use jet_crew::Gate;
use jet_file::Outside;
use jet_plan::{Plan, valid_jobs_keep_their_ranges};
use jet_worker::Stop;
use std::alloc::Global;
use std::thread::Threads;

// The calls of a tasklet in an epoch.
fn turns_of(plan: &Plan) -> u32
    ensures { 0 < result }
{
    valid_jobs_keep_their_ranges(plan.dag(), plan.settings());
    plan.settings().turns.unsigned_abs() as u32
}

// Goes on until all is done.
fn to_end<R: Threads + Sync, G: Gate + Sync, O: Outside>(
    alloc: Global,
    rt: &R,
    gate: &G,
    turns: u32,
    mut running: Running,
    out: &mut O,
) -> Result<Running, Stop>
    requires fit { CanGo (O.opened out.old) running }
    requires turns { 0 < turns }
    ensures fit { IfOk result (λ r. CanGo (O.opened out.new) r) }
    ensures came { IfOk result (λ r. WhereTold (ComesOn running r) (O.told out.old) (O.told out.new)) }
    ensures over { IfOk result IsAtEnd }
    ensures stop { IfErr result (λ stop. WhereTold (StopsFrom running stop) (O.told out.old) (O.told out.new)) }
    ensures outcome { Outcome O.opened O.steady O.faults out.old out.new result }
{
    match running.finish(alloc, rt, gate, turns, out) {
        Ok(()) => Ok(running),
        Err(stop) => Err(stop),
    }
}

/// Runs the job of a plan, and answers it as it stands at the end. Its files are opened in the order of their numbers before the
/// first is read. A late event is written to Notes, and a row to Rows, once it came to the sink and the watermark there has
/// reached its end.
///
/// It stops at the first bad line that it reads, at the first call on the outside that fails, and where no memory is found.
pub fn run_job<R: Threads + Sync, G: Gate + Sync, O: Outside>(
    alloc: Global,
    rt: &R,
    gate: &G,
    plan: &Plan,
    out: &mut O,
) -> Result<Running, Stop>
    ensures fit { IfOk result (λ r. CanGo (O.opened out.new) r) }
    ensures over { IfOk result IsAtEnd }
    ensures carried { IfOk result (λ r. (c : Checks) → IsCheckOf plan.now.dag plan.now.settings c
        → WhereTold (HasCarried c (windows plan.now.dag) r.job) (O.told out.old) (O.told out.new)) }
    ensures done { OnOk result ((c : Checks) → IsCheckOf plan.now.dag plan.now.settings c
        → WhereTold (Calling (HasRun c (windows plan.now.dag) (O.opened out.old) (O.opened out.new))) (O.told out.old) (O.told out.new)) }
    ensures stop { IfErr result (λ stop. (c : Checks) → IsCheckOf plan.now.dag plan.now.settings c
        → WhereTold (Calling (RunStops c (windows plan.now.dag) stop)) (O.told out.old) (O.told out.new)) }
    ensures works { O.steady out.old ≡ true → IfErr result (λ stop. IsForOutside stop → LacksSome (data_files plan.now.dag) (O.told out.old)) }
    ensures outcome { OpenOutcome O.steady O.faults out.old out.new result }
{
    ended_runs_are_whole();
    match begin(alloc, plan, out) {
        Ok(running) => to_end(alloc, rt, gate, turns_of(plan), running, out),
        Err(stop) => Err(stop),
    }
}

/// Runs the job of a plan as `run_job` does, and drops it at the end.
pub fn run_to_end<R: Threads + Sync, G: Gate + Sync, O: Outside>(
    alloc: Global,
    rt: &R,
    gate: &G,
    plan: &Plan,
    out: &mut O,
) -> Result<(), Stop>
    ensures done { OnOk result ((c : Checks) → IsCheckOf plan.now.dag plan.now.settings c
        → WhereTold (Calling (HasRun c (windows plan.now.dag) (O.opened out.old) (O.opened out.new))) (O.told out.old) (O.told out.new)) }
    ensures stop { IfErr result (λ stop. (c : Checks) → IsCheckOf plan.now.dag plan.now.settings c
        → WhereTold (Calling (RunStops c (windows plan.now.dag) stop)) (O.told out.old) (O.told out.new)) }
    ensures works { O.steady out.old ≡ true → IfErr result (λ stop. IsForOutside stop → LacksSome (data_files plan.now.dag) (O.told out.old)) }
    ensures outcome { OpenOutcome O.steady O.faults out.old out.new result }
{
    match run_job(alloc, rt, gate, plan, out) {
        Ok(_) => Ok(()),
        Err(stop) => Err(stop),
    }
}
