// The answers of the top call, and why a run stops.
use crate::{Call, Spot};
use jet_job::JobFault;
use jet_lines::LineFault;
use jet_plan::PlanFault;

/// Why a job does not run.
#[derive(Clone, Copy, Debug, PartialEq, Eq)]
pub enum Refusal {
    /// The text of its file is none of a job.
    Job(JobFault),
    /// Its vertices, edges or settings have a fault.
    Plan(PlanFault),
}

/// What the top call answers.
#[derive(Clone, Copy, Debug, PartialEq, Eq)]
pub enum Status {
    /// The command did all its work.
    Done,
    /// The words are no command.
    Usage,
    /// The job was refused, and nothing was written.
    JobRefused(Refusal),
    /// This is the first bad line of its file, by its number from 1 on.
    BadLine {
        part: u16,
        line: u32,
        why: LineFault,
    },
    /// This call on the outside failed.
    OutsideFault {
        call: Call,
        file: Spot,
    },
    /// No memory was found.
    NoMemory,
}
