// The job file of a command: its text, and the plan of its job.
ghost use Rattle.std.specs.Prelude.{◌≡◌, true, IfOk, IfErr};
ghost use Rattle.jet_file.specs.Outside.{WhereTold, LacksFile};
ghost use Rattle.jet_plan.specs.Plans.{IsValid};
ghost use Rattle.jet_worker.specs.Calls.{Calling};
ghost use Rattle.jet_worker.specs.Stopping.{IsForOutside, IsNoBadLine, OpenOutcome};
ghost use Rattle.jet_cli.specs.inner.Halting.{HaltOutcome, IsEarly, IsNoBadHalt, IsOutsideHalt};
ghost use Rattle.jet_cli.specs.declared.halt.Halt.TheVariants.{Stopped};
ghost use Rattle.jet_cli.specs.JobFiles.{ReadHalts, ReadsJobFile, ReadsPlan, StopsJob};
ghost use Rattle.jet_cli.specs.WordsView.{job_read};

use crate::halt::Halt;
use crate::lower_laws::laws_of_files;
use crate::options::with_options;
use crate::read_text::read_text;
use crate::{JobWords, Spot, Stop};
use jet_file::Outside;
use jet_job::read_job;
use jet_plan::{Plan, check};
use jet_worker::open_data;
use std::alloc::Global;

// One byte more than a job file may have.
const MOST_TEXT: usize = 1_048_577;

// Opens a job file and reads its text.
fn job_text<O: Outside>(alloc: Global, name: &[u8], out: &mut O) -> Result<Vec<u8>, Stop>
    ensures text { IfOk result (λ text. WhereTold (ReadsJobFile name.now text.items (O.opened out.old) (O.opened out.new)) (O.told out.old) (O.told out.new)) }
    ensures stop { IfErr result (λ stop. WhereTold (Calling (StopsJob name.now stop)) (O.told out.old) (O.told out.new)) }
    ensures outcome { OpenOutcome O.steady O.faults out.old out.new result }
    ensures works { O.steady out.old ≡ true → IfErr result (λ stop. IsForOutside stop → LacksFile name.now (O.told out.old)) }
    ensures early { IfErr result (λ stop. IsEarly (Stopped stop)) }
    ensures no_bad_line { IfErr result IsNoBadLine }
{
    laws_of_files();
    let file = open_data(out, Spot::Job, name)?;
    read_text(alloc, out, Spot::Job, file, MOST_TEXT)
}

/// Reads the job file of a command, and makes the plan of its job with the options put over the settings.
pub(crate) fn read_plan<O: Outside>(
    alloc: Global,
    words: &JobWords<'_>,
    out: &mut O,
) -> Result<Plan, Halt>
    ensures plan { IfOk result (λ plan. WhereTold (ReadsPlan (job_read words.now) plan (O.opened out.old) (O.opened out.new)) (O.told out.old) (O.told out.new)) }
    ensures valid { IfOk result (λ plan. IsValid plan.dag plan.settings) }
    ensures halt { IfErr result (λ halt. WhereTold (Calling (ReadHalts (job_read words.now) halt)) (O.told out.old) (O.told out.new)) }
    ensures outcome { HaltOutcome O.steady O.faults out.old out.new result }
    ensures works { O.steady out.old ≡ true → IfErr result (λ halt. IsOutsideHalt halt → LacksFile words.now.job.now (O.told out.old)) }
    ensures early { IfErr result IsEarly }
    ensures no_bad_line { IfErr result IsNoBadHalt }
{
    let text = job_text(alloc, words.job, out)?;
    let job = read_job(alloc, &text)?;
    let settings = with_options(&words.options, job.settings);
    Ok(check(alloc, job.dag, settings)?)
}
