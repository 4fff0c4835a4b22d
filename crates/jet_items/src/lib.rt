//! What passes between the parts of a job: keys, events, side rows, frames, rows, late events, marks and the end of a
//! queue.
//!
//! All but `List` are plain values of fixed size, copied without memory. Contracts see each as a record with the same field
//! names; that its numbers lie in their ranges is the type's invariant. The definitions that several crates cite,
//! of keys, ranges, multiples, windows, watermarks and rows, stand in `specs/` of this crate.
#![tactic(auto)]

mod acc;
mod event;
mod frame;
mod item;
mod key;
mod late;
mod list;
mod mark;
mod no_memory;
mod partition;
mod row;
mod side;

pub use acc::Acc;
pub use event::Event;
pub use frame::Frame;
pub use item::Item;
pub use key::{Key, KeyFault};
pub use late::Late;
pub use list::List;
pub use mark::Mark;
pub use no_memory::{NoMemory, Refused};
pub use partition::partition_of;
pub use row::Row;
pub use side::Side;

#[cfg(test)]
mod tests;
