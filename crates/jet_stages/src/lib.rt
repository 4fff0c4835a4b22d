//! The processors without windows that a job is built of: filter, map and flat, and the stamp that makes the marks.
//!
//! Each is a `Processor` of `jet_boxes` and never wants memory. What filter, map and flat make of an event stands in
//! `jet_expr/specs/Flows.antt`, what a stamp makes of its queues in `specs/Stamp.antt`. The vertices are those of
//! Hazelcast Jet's Core API: `filter`, `map` and `flatMap` of its transforms, and the source's event time mapper.
#![tactic(auto)]

mod field;
mod filter;
mod flat;
mod leg;
mod map;
mod stamp;

pub use filter::FilterP;
pub use flat::FlatP;
pub use leg::Leg;
pub use map::MapP;
pub use stamp::Stamp;

#[cfg(test)]
mod tests;
