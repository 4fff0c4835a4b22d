//! The boxes that hold a tasklet's items between its rings and its processor, the ports through which they come, and
//! the trait of all processors.
//!
//! Contracts see a box as its room and the list of its items, the first one in first, and a processor by the entries
//! that it has taken and the items that it has given.
#![tactic(auto)]

mod item_box;
mod port;
mod processor;

pub use item_box::{Inbox, ItemBox, Outbox};
pub use port::Port;
pub use processor::Processor;

#[cfg(test)]
mod tests;
