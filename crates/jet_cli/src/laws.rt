// Laws of `window`: of what Done says to it, and of its job.
ghost use Rattle.jet_cli.specs.Laws.{OutputIsOne, WindowFaultsAreOfSizes};

use jet_laws::{events_as_bags, rows_are_one, rows_stay_by_order};

/// What `window` writes is a function of its words and the file, but for the order of late lines.
pub fn output_is_one()
    ensures { OutputIsOne }
{
    events_as_bags();
    rows_are_one();
    rows_stay_by_order();
}

/// The job of `window` has the fault of its sizes, at the accumulate vertex, and no other.
pub fn window_faults_are_of_sizes()
    ensures { WindowFaultsAreOfSizes }
{}
