// Three laws of rows: windows have a list of rows, no second one, and the same one whatever the order in which each
// window's events came.
ghost use Rattle.jet_laws.specs.RowLaws.{RowsAreOne, RowsExist, RowsStayByOrder};

/// Windows of different numbers have at most one list of rows. Sizes and slides may be any numbers, since a row has an
/// event in its window.
pub fn rows_are_one()
    ensures { RowsAreOne }
{}

/// The rows of windows stay the same in whatever order each window's events come.
pub fn rows_stay_by_order()
    ensures { RowsStayByOrder }
{}

/// Windows that slide by one or more have rows, also where their numbers are not all different.
pub fn rows_exist()
    ensures { RowsExist }
{}
