// What each command does.
ghost use Rattle.std.specs.Prelude.{◌≡◌, ◌≤ℤ◌, pos, true, None, OnOk, IfErr};
ghost use Rattle.jet_file.specs.Outside.{WhereTold, LacksFile};
ghost use Rattle.jet_worker.specs.Calls.{Calling};
ghost use Rattle.jet_cli.specs.BaseJob.{base_fault};
ghost use Rattle.jet_cli.specs.CheckedJob.{CheckHalts, IsCheckedJob, LacksFiles};
ghost use Rattle.jet_cli.specs.Done.{IsDone};
ghost use Rattle.jet_cli.specs.inner.Ended.{status_of};
ghost use Rattle.jet_cli.specs.inner.Halting.{HaltOutcome, IsKnown, IsNoBadHalt, IsOutsideHalt, IsRefusal};
ghost use Rattle.jet_cli.specs.LineStops.{BaseHalts};
ghost use Rattle.jet_cli.specs.inner.Meeting.{Meets};
ghost use Rattle.jet_cli.specs.Planned.{IsPlanned, PlanHalts};
ghost use Rattle.jet_cli.specs.Refusals.{text_refusal};
ghost use Rattle.jet_cli.specs.RunJob.{IsRunJob, RunHalts};
ghost use Rattle.jet_cli.specs.WordsView.{AreSmall, IsSmall, command_in, job_read, window_in};

use crate::base::run_window;
use crate::base_job::base_job;
use crate::halt::Halt;
use crate::job_file::read_plan;
use crate::{Command, Gate, JobWords, Status, Stop, WindowWords};
use jet_coordinator::run_to_end;
use jet_file::{Out, Outside};
use jet_laws::none_is_behind;
use jet_plan::{Settings, check, print_plan};
use jet_policy::WinPolicy;
use jet_worker::{a_valid_job_allows_lines, check_files, write_text};
use std::alloc::Global;
use std::thread::Threads;

/// Does what a command says, and answers how that ended.
pub(crate) fn run_command<R: Threads + Sync, O: Outside, G: Gate + Sync>(
    alloc: Global,
    rt: &R,
    gate: &G,
    command: &Command<'_>,
    out: &mut O,
) -> Status
    requires small { IsSmall command.now }
    ensures { Meets O.told O.opened O.steady O.faults (command_in command.now) out.old out.new result }
{
    none_is_behind();
    match command {
        Command::Window(words) => status_of(run_base(alloc, words, out)),
        Command::Run(words) => status_of(run_files(alloc, rt, gate, words, out)),
        Command::Plan(words) => status_of(run_plan(alloc, words, out)),
        Command::Check(words) => status_of(run_check(alloc, words, out)),
    }
}

fn status_of(end: Result<(), Halt>) -> Status
    ensures { result ≡ status_of end }
{
    match end {
        Ok(()) => Status::Done,
        Err(Halt::Refused(why)) => Status::JobRefused(why),
        Err(Halt::Stopped(Stop::BadLine { part, line, why })) => {
            Status::BadLine { part, line, why }
        }
        Err(Halt::Stopped(Stop::Outside { call, file })) => Status::OutsideFault { call, file },
        Err(Halt::Stopped(Stop::NoMemory)) => Status::NoMemory,
    }
}

// Counts the window of the words over their file, if the planner accepts the job that this is.
fn run_base<O: Outside>(alloc: Global, words: &WindowWords<'_>, out: &mut O) -> Result<(), Halt>
    requires small { AreSmall words.now }
    ensures done { OnOk result (WhereTold (IsDone (window_in words.now) (O.opened out.old) (O.opened out.new)) (O.told out.old) (O.told out.new)) }
    ensures valid { OnOk result (base_fault (window_in words.now) ≡ None) }
    ensures slide { OnOk result (pos 1 ≤ℤ pos words.now.slide) }
    ensures halt { IfErr result (BaseHalts (window_in words.now) (O.told out.old) (O.told out.new)) }
    ensures untouched { IfErr result (λ halt. IsRefusal halt → out.new ≡ out.old) }
    ensures outcome { HaltOutcome O.steady O.faults out.old out.new result }
    ensures works { O.steady out.old ≡ true → IfErr result (λ halt. IsOutsideHalt halt → LacksFile words.now.file.now (O.told out.old)) }
{
    let dag = base_job(alloc, words)?;
    check(alloc, dag, Settings::default())?;
    let policy = WinPolicy::new(words.size as i64, words.slide as i64).unwrap();
    run_window(alloc, policy, words, out)?;
    Ok(())
}

// Runs a job from its data files to its rows.
fn run_files<R: Threads + Sync, O: Outside, G: Gate + Sync>(
    alloc: Global,
    rt: &R,
    gate: &G,
    words: &JobWords<'_>,
    out: &mut O,
) -> Result<(), Halt>
    ensures done { OnOk result (WhereTold (Calling (IsRunJob (job_read words.now) (O.opened out.old) (O.opened out.new))) (O.told out.old) (O.told out.new)) }
    ensures halt { IfErr result (λ halt. WhereTold (Calling (RunHalts (job_read words.now) halt)) (O.told out.old) (O.told out.new)) }
    ensures known { IfErr result (λ halt. WhereTold (λ old new. IsKnown (text_refusal words.now.options (old.content words.now.job.now)) halt) (O.told out.old) (O.told out.new)) }
    ensures outcome { HaltOutcome O.steady O.faults out.old out.new result }
    ensures works { O.steady out.old ≡ true → IfErr result (λ halt. IsOutsideHalt halt → LacksFiles (job_read words.now) (O.told out.old)) }
{
    a_valid_job_allows_lines();
    let plan = read_plan(alloc, words, out)?;
    run_to_end(alloc, rt, gate, &plan, out)?;
    Ok(())
}

// Writes the text of the plan of a job file to the rows.
fn run_plan<O: Outside>(alloc: Global, words: &JobWords<'_>, out: &mut O) -> Result<(), Halt>
    ensures done { OnOk result (WhereTold (Calling (IsPlanned (job_read words.now) (O.opened out.old) (O.opened out.new))) (O.told out.old) (O.told out.new)) }
    ensures halt { IfErr result (λ halt. WhereTold (Calling (PlanHalts (job_read words.now) halt)) (O.told out.old) (O.told out.new)) }
    ensures known { IfErr result (λ halt. WhereTold (λ old new. IsKnown (text_refusal words.now.options (old.content words.now.job.now)) halt) (O.told out.old) (O.told out.new)) }
    ensures outcome { HaltOutcome O.steady O.faults out.old out.new result }
    ensures works { O.steady out.old ≡ true → IfErr result (λ halt. IsOutsideHalt halt → LacksFile words.now.job.now (O.told out.old)) }
    ensures no_bad_line { IfErr result IsNoBadHalt }
{
    let plan = read_plan(alloc, words, out)?;
    let mut text = Vec::new(alloc);
    print_plan(alloc, &plan, &mut text)?;
    write_text(out, Out::Rows, &text)?;
    Ok(())
}

// Checks a job and the lines of all its data files, and writes the text of the check to the rows.
fn run_check<O: Outside>(alloc: Global, words: &JobWords<'_>, out: &mut O) -> Result<(), Halt>
    ensures done { OnOk result (WhereTold (Calling (IsCheckedJob (job_read words.now) (O.opened out.old) (O.opened out.new))) (O.told out.old) (O.told out.new)) }
    ensures halt { IfErr result (λ halt. WhereTold (Calling (CheckHalts (job_read words.now) halt)) (O.told out.old) (O.told out.new)) }
    ensures known { IfErr result (λ halt. WhereTold (λ old new. IsKnown (text_refusal words.now.options (old.content words.now.job.now)) halt) (O.told out.old) (O.told out.new)) }
    ensures outcome { HaltOutcome O.steady O.faults out.old out.new result }
    ensures works { O.steady out.old ≡ true → IfErr result (λ halt. IsOutsideHalt halt → LacksFiles (job_read words.now) (O.told out.old)) }
{
    a_valid_job_allows_lines();
    let plan = read_plan(alloc, words, out)?;
    check_files(alloc, &plan, out)?;
    Ok(())
}
