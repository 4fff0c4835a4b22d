//! The rings of a laid out job, and whose each of their ends is.
//!
//! Each wire of a layout, and each file, has a ring of its own. A `Harness` makes them all, and then lets what gives items
//! take the ends that send, and what takes items the ends that receive: each the ends that are its own, in the order of the
//! wires and then of the files. `every_ring_joins_its_two` tells which place each end has there.
#![tactic(auto)]

mod channel;
mod harness;
mod laws;
mod places;

pub use channel::{Channel, Giver};
pub use harness::Harness;
pub use laws::{every_end_is_of_one_ring, every_ring_joins_its_two};
pub use places::{channels, place_at_giver, place_at_taker};

#[cfg(test)]
mod tests;
