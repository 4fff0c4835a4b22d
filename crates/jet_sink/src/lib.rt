//! What the sink of a running job does with the items that come to it. The sink is the coordinator itself: between two
//! epochs it drains the queues that lead to it, and writes.
//!
//! `Sink` holds rows until its mark reaches their end, and then prints them in the order of end, vertex and key bytes; a
//! late event it prints as it takes it. Its mark is the greatest watermark that its queues ever had, and it never falls.
//! `Windows` has the name and the size of each window of a plan, for the lines. What a sink holds and has printed is said
//! of all items that were taken since it was made (`specs/Drained.antt`).
#![tactic(auto)]

mod drain;
mod plan;
mod rows;
mod sink;
mod windows;

pub use sink::Sink;
pub use windows::Windows;
