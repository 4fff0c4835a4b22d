//! The coordinator of a job, which works beside the workers between their epochs.
//!
//! `run_job` runs the job of a plan to its end. `begin` opens its files, makes its workers, tasklets, rings and links, and answers
//! a `Running` job. That lets the ends of all its rings meet, reads its files on and feeds their items into the rings, drains the
//! rings of the sink into the outputs, and has epochs until all is done. How far it has come, or how it stops, is told of all
//! that it did since it began (`specs/Progress.antt`); what that says at the end stands in `specs/Runs.antt` and
//! `specs/Carried.antt`.
#![tactic(auto)]

mod beginning;
mod files;
mod job;
mod laws;
mod run;

pub use beginning::begin;
pub use files::{are_over, feed_all, feeds_of};
pub use job::{run_job, run_to_end};
pub use laws::ended_runs_are_whole;
pub use run::Running;
