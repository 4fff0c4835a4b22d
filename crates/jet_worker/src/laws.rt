// A law of valid jobs, and the laws of lines as the proofs of this crate take them.
ghost use Rattle.std.specs.Prelude.{◌≡◌, None, pos, unsigned_abs};
ghost use Rattle.jet_plan.specs.declared.dag.Dag.{Dag};
ghost use Rattle.jet_plan.specs.declared.settings.Settings.{Settings};
ghost use Rattle.jet_plan.specs.Faults.{fault};
ghost use Rattle.jet_worker.specs.inner.LineLaws.{LineLaws};

use jet_lines::{
    a_good_line_more, a_line_is_read_by_its_number, a_long_line_has_its_fault, all_lines_are_good,
    an_event_has_its_place, given_lines_are_whole, one_line_too_many, side_lines_are_read_in_order,
    the_first_bad_line,
};

/// A valid job allows a number of lines that is not below zero.
pub fn a_valid_job_allows_lines()
    ensures { (dag : Dag) (settings : Settings) → fault dag settings ≡ None → settings.lines ≡ pos (unsigned_abs settings.lines) }
{}

/// What holds of the lines of files, whatever they are.
pub(crate) fn laws_of_lines()
    ensures { LineLaws }
{
    an_event_has_its_place();
    a_long_line_has_its_fault();
    a_line_is_read_by_its_number();
    a_good_line_more();
    the_first_bad_line();
    one_line_too_many();
    all_lines_are_good();
    side_lines_are_read_in_order();
    given_lines_are_whole();
}
