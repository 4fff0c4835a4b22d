//! The watermark of several queues: the least of the greatest marks of the queues that are neither done nor idle. It
//! never falls: where that least mark does, as when an idle queue wakes up, the watermark stays until it is passed.
//!
//! Contracts see a coalescer as its queues, each with its greatest mark and whether it is done or idle, and the
//! watermark (`specs/View.antt`). What it answers is promised of one list, all that it was told in order: the marks,
//! Dones, idle notes and wakes of its queues (`specs/Notes.antt`). Where no queue was ever idle and one is left, it is
//! what came from each queue that counts, and not in what order the queues came (`specs/Low.antt`, `laws`).
#![tactic(auto)]

mod change;
mod coalescer;
mod laws;
mod queue;
mod queues;
mod standing;
mod tournament;

pub use change::Change;
pub use coalescer::Coalescer;
pub use laws::low_is_least;

#[cfg(test)]
mod tests;
