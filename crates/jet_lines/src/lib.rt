//! The lines of a job's files: the cut of a file into lines, and what one line holds.
//!
//! `Lines` takes a file in pieces of any size and gives its lines. `read_line` reads what a line of a source
//! file holds and `read_side` the row of a line of a side file, or each tells the line's first fault. What a line is, what
//! its fields and numbers are and which fault comes first stands in `specs/`. Good lines are read in place; of others `csv`
//! reads the fields, for the fault that comes first.
#![tactic(auto)]

mod cut;
mod entry;
mod fault;
mod form;
mod laws;
mod line;
mod lines;
mod number;
mod quick;
mod record;

pub use cut::Cut;
pub use entry::Entry;
pub use fault::LineFault;
pub use laws::{
    a_good_line_more, a_line_is_read_by_its_number, a_line_too_long, a_long_line_has_its_fault,
    all_lines_are_good, an_event_has_its_place, answers_are_settled, csv_reads_the_fields,
    fields_are_of_the_grammar, given_lines_are_whole, lines_of_a_file_rise,
    no_fields_where_the_grammar_has_none, one_line_too_many, side_lines_are_read_in_order,
    the_first_bad_line, whole_lines_end_with_a_line_feed,
};
pub use line::{read_event, read_line, read_side};
pub use lines::Lines;

#[cfg(test)]
mod tests;
