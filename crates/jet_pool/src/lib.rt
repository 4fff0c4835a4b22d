//! Buffers of bytes of one size, made once and taken and put back, so that a link has room for a bounded number of
//! packets and wants no memory while it runs.
//!
//! Contracts see a buffer as its room and its bytes, and a stock as its size, the room of its buffers and how many
//! are inside.
#![tactic(auto)]

mod buf;
mod stock;

pub use buf::Buf;
pub use stock::Stock;

#[cfg(test)]
mod tests;
