//! The steps of a job on the outside, and the check of all lines that a job reads.
//!
//! `open_all` opens the files of a job (`data_files`); `open_data`, `read_bytes`, `read_piece`, `write_text` and `write_texts` are single steps on the outside. Each tells
//! why it stops, and names the call that failed. `check_files` reads all files of a plan, counts their lines with a
//! tally for each file, and writes the numbers.
#![tactic(auto)]

mod check;
mod feed;
mod files;
mod laws;
mod open;
mod read;
mod side_tally;
mod source_tally;
mod stop;
mod tally;

pub use check::{Limits, check_files, limits_of};
pub use feed::{open_data, read_bytes, read_piece, write_text, write_texts};
pub use files::{DataFile, data_files};
pub use laws::a_valid_job_allows_lines;
pub use open::{OpenFile, open_all, open_files};
pub use stop::{Call, Spot, Stop};

#[cfg(test)]
mod tests;
