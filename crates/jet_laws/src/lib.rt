//! What follows of the definitions of windows, watermarks and rows alone, for whatever events.
//!
//! Each law is the contract of a function that does nothing. Its statement stands in `specs/`, its proof in `proofs/`.
//! The definitions are those of `jet_items`.
#![tactic(auto)]

mod accs;
mod bags;
mod marks;
mod rows;

pub use accs::{acc_is_one, acc_stays_by_order};
pub use bags::{events_as_bags, lates_as_bags};
pub use marks::none_is_behind;
pub use rows::{rows_are_one, rows_exist, rows_stay_by_order};
