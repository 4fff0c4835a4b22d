//! A data file that is fed into its ring, piece by piece.
//!
//! A `Feed` reads an opened source or side file, cuts it into lines, and gives the items of the lines to the ring as far as
//! the ring has slots. A piece is read only when the items of all whole lines before it were given, and of a source only
//! where its mark may go on. What a file's ring is to be sent stands in `specs/`.
#![tactic(auto)]

mod body;
mod feed;
mod laws;
mod leave;
mod rows;

pub use feed::Feed;
pub use laws::{a_feed_stays, what_a_ring_was_sent};
pub use leave::Leave;

#[cfg(test)]
mod tests;
