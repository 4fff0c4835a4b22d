//! Routes from one producer to the rings of its consumers.
//!
//! A router owns the sending ends of its destinations. Data goes to one destination that takes it, to the destination
//! of its key's partition or to each, by the router's route; marks and `Done` go to each. An item that only some
//! destinations could take is owed to the others: the caller gives it again until none is owed it.
#![tactic(auto)]

mod aim;
mod dest;
mod router;

pub use aim::Aim;
pub use router::Router;

/// Whether an item was given whole.
#[derive(Debug, Clone, Copy, PartialEq, Eq)]
pub enum Given {
    /// It was sent where it goes, and is owed to no destination any more.
    All,
    /// It is still owed to a destination, and is to be given again.
    Again,
}

#[cfg(test)]
mod tests;
