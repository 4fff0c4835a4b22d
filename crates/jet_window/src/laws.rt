// What a loop over events and marks may rest on: each law is the contract of a function that does nothing.
ghost use Rattle.jet_window.specs.PlainLaws.{ClosedRowsStay, RowsFollow, RowsEnd};

/// An event that is not below the last mark changes no row of a closed window.
pub fn closed_rows_stay()
    ensures { ClosedRowsStay }
{}

/// The rows up to a mark, followed by those between it and a later mark, are the rows up to the later one.
pub fn rows_follow()
    ensures { RowsFollow }
{}

/// The rows up to the last mark, followed by all that are left, are the rows of the window.
pub fn rows_end()
    ensures { RowsEnd }
{}
