//! The outside of a job: the files that it reads, the two outputs that it writes, and the texts of what it writes.
//!
//! `Outside` is all that a job may do to the world, `MemoryOutside` keeps one in memory and tells all of it, and
//! `print_row` and `print_late` make the lines. Functions that do nothing are laws: what follows from the definitions. The definitions of what an answer of a job promises of its outputs
//! stand in `specs/` of this crate, since they speak of texts and of the outside alone. It stands on `jet_items`.
#![tactic(auto)]

mod laws;
mod line_end;
mod memory;
mod outside;
mod stored;
mod text;
mod trace;
mod write;

pub use laws::{a_file_is_read_whole, calls_add_up, reads_go_on, what_is_left_of_a_file};
pub use memory::MemoryOutside;
pub use outside::{FileNo, Out, OutFault, Outside};
pub use text::{print_late, print_row};
pub use trace::CallNote;
pub use write::write_all;

#[cfg(test)]
mod tests;
