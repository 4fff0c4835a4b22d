//! The sizes of a sliding window, and the watermark that a source derives from its timestamps.
//!
//! It stands on the values of `jet_items` and takes no memory. `WinPolicy` rounds times to the slide, below 0 too, and
//! `Marker` keeps the greatest timestamp of a source to tell how far event time has come.
#![tactic(auto)]

mod marker;
mod policy;

pub use marker::Marker;
pub use policy::{PolicyFault, WinPolicy};

#[cfg(test)]
mod tests;
