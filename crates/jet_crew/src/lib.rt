//! Workers behind one list: epochs of all tasks beside each other, and tasks lent out between them.
//!
//! A task takes turns that never wait (`Turns`). Each `Worker` has some tasks, and in an epoch all workers go through theirs
//! beside each other (`epoch`). Between epochs one thread holds all of them: `order` tells for each task where it stands, so
//! that contracts speak of one list (`gather`), whichever worker has which task; `place` adds a task to it, and `trade` takes
//! one out and puts another in.
#![tactic(auto)]

mod beside;
mod end;
mod gate;
mod laws;
mod spot;
mod turns;
mod worker;

pub use beside::epoch;
pub use end::EpochEnd;
pub use gate::{FreeGate, Gate};
pub use laws::one_list_keeps_as_workers_do;
pub use spot::{Spot, place, trade, trade_both};
pub use turns::Turns;
pub use worker::Worker;

#[cfg(test)]
mod tests;
