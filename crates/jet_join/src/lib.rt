//! The hash join: events of a stream with the side rows of their key, which come first, through a port of their own.
//!
//! It stands on the items of `jet_items` and the trait of processors of `jet_boxes`. What an event gives over the rows
//! is told by `Joins.antt` among the definitions of `jet_items`.
#![tactic(auto)]

mod join;
mod mode;
mod setting;
mod side_rows;
mod take;

pub use join::JoinP;
pub use mode::Mode;
pub use take::Take;

#[cfg(test)]
mod tests;
