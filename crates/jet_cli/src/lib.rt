//! The command words and the top call: `jet window SIZE SLIDE LAG FILE`, `jet run JOB`, `jet plan JOB` and `jet check JOB`.
//!
//! `run_jet` carries the promise of the whole program. Below it there is a function for each command. `window` makes a
//! job of its words that the planner of `jet_plan` accepts, reads one file piece by piece through the lines of
//! `jet_lines`, counts its events with a marker and a plain window, and writes late lines and rows through the outside
//! of `jet_file`. `run`, `plan` and `check` read a job file by `jet_job`, put the options of the words over its settings,
//! and let the planner accept it; then `run` has `jet_coordinator` run the job, `plan` writes the plan's text, and `check`
//! has `jet_worker` check all lines.
//! `RealOutside` is the outside of the program.
#![tactic(auto)]

mod base;
mod base_job;
mod commands;
mod counter;
mod digits;
mod halt;
mod job_file;
mod job_words;
mod laws;
mod lower_laws;
mod options;
mod parts;
mod print;
mod read_text;
mod real;
mod run;
mod status;
mod steps;
mod word_laws;
mod words;

pub use jet_crew::{FreeGate, Gate};
pub use jet_worker::{Call, Spot, Stop};
pub use job_words::{JobWords, Options};
pub use laws::{output_is_one, window_faults_are_of_sizes};
pub use print::{exit_status, print_status};
pub use real::RealOutside;
pub use run::run_jet;
pub use status::{Refusal, Status};
pub use steps::Steps;
pub use word_laws::words_spell_commands;
pub use words::{Command, WindowWords, read_words};

#[cfg(test)]
mod tests;
#[cfg(test)]
mod tests_case;
#[cfg(test)]
mod tests_examples;
#[cfg(test)]
mod tests_jobs;
#[cfg(test)]
mod tests_words;
