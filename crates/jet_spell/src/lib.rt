//! How items are spelled as bytes, and read again: what members send each other.
//!
//! Each item has one spelling, a byte that tells its kind and then its fields, and a packet is a list of them. Definitions
//! and laws are in `specs/`; the laws are contracts of functions that do nothing, so that proofs above can rest on them.
#![tactic(auto)]

mod item;
mod laws;
mod packet;
mod read;
mod reader;
mod tag;
mod write;
mod writer;

pub use item::{read_item, write_item};
pub use laws::{
    first_is_read, front_of, is_spelled_so, one_list, one_spelling, reads_back, spelled_on,
    spellings_are_short,
};
pub use packet::{PacketFault, read_packet};

#[cfg(test)]
mod tests;
