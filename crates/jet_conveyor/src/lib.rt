//! The queues of one consumer, polled in turn.
//!
//! A conveyor owns the receiving ends of its rings. A poll takes the next item of the first queue in turn that has one,
//! beginning after the queue that it last took from, and leaves a queue alone once that gave `Done`. It stands on
//! `jet_ring` by its contracts alone.
#![tactic(auto)]

mod conveyor;

pub use conveyor::{Conveyor, Polled};

#[cfg(test)]
mod tests;
