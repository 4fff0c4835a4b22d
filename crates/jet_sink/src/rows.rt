// Rows that wait for the sink's mark, and the printing of those that it reached.
ghost use Rattle.std.specs.Prelude.{◌≡◌, ◌||◌, OnOk};
ghost use Rattle.jet_coalescer.specs.Queues.{greater};
ghost use Rattle.jet_sink.specs.inner.LetOut.{LetsOut};

use crate::Windows;
use jet_items::{Mark, NoMemory};
use jet_window::OrderedRows;
use std::alloc::Global;

/// Lets out the rows that end at most at a mark, where there is one.
pub(crate) fn pass(rows: &mut OrderedRows, mark: Option<Mark>)
    ensures { rows.new ≡ record rows.old { passed = greater rows.old.passed mark } }
{
    if let Some(mark) = mark {
        rows.pass(mark);
    }
}

/// Lets out all rows, where nothing more comes.
pub(crate) fn close_if(rows: &mut OrderedRows, all: bool)
    ensures { rows.new ≡ record rows.old { closed = rows.old.closed || all } }
{
    if all {
        rows.close();
    }
}

/// Prints the rows that were let out, in their order, and holds them no longer.
pub(crate) fn print_due(
    alloc: Global,
    windows: &Windows,
    rows: &mut OrderedRows,
    to: &mut Vec<u8>,
) -> Result<(), NoMemory>
    ensures { OnOk result (LetsOut windows.now rows.old rows.new to.old.items to.new.items) }
{
    while let Some(row) = rows.next() {
        windows.print_row(alloc, &row, to)?;
    }
    Ok(())
}
