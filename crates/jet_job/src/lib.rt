//! Job files: what a JSON text says of a job, or the first fault of it.
//!
//! `read_job` reads a text to a `JobText`, a job and its settings, as `jet_plan` checks them. A `JobFault` tells what is
//! wrong with a text, at which `Place` and in which `Field`. The definition of both is `specs/Jobs.antt`, over a file for
//! each kind of object; what a value has to be stands in `specs/Forms.antt`, and with which fault a member is read in
//! `specs/Members.antt`. Vertices, edges and routes are those of a Hazelcast Jet DAG; the file format is our own.
#![tactic(auto)]

mod edge;
mod expression;
mod fault;
mod field;
mod files;
mod forms;
mod job_text;
mod joint;
mod kind;
mod leg;
mod legs;
mod member;
mod own;
mod place;
mod read;
mod set;
mod settings;
mod sort;
mod vertex;
mod words;

pub use fault::JobFault;
pub use field::Field;
pub use job_text::JobText;
pub use place::Place;
pub use read::read_job;

#[cfg(test)]
mod tests;
