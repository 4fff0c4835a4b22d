// The laws of files and lines as the proofs of this crate take them.
ghost use Rattle.jet_cli.specs.inner.FileLaws.{FileLaws};
ghost use Rattle.jet_cli.specs.inner.LineLaws.{LineLaws};

use jet_file::{reads_go_on, what_is_left_of_a_file};
use jet_lines::{
    a_good_line_more, a_long_line_has_its_fault, all_lines_are_good, an_event_has_its_place,
    given_lines_are_whole, one_line_too_many, the_first_bad_line,
};

/// What holds of the reading of a file, whatever it holds.
pub(crate) fn laws_of_files()
    ensures { FileLaws }
{
    what_is_left_of_a_file();
    reads_go_on();
}

/// What holds of the lines of a file, whatever they are.
pub(crate) fn laws_of_lines()
    ensures { LineLaws }
{
    an_event_has_its_place();
    a_long_line_has_its_fault();
    a_good_line_more();
    the_first_bad_line();
    one_line_too_many();
    all_lines_are_good();
    given_lines_are_whole();
}
