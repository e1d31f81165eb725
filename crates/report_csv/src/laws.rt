//! What holds of the table.

ghost use Rattle.report_csv.specs.Laws.{RowsAreRead};

/// The text of a report is read by csv as its rows, all of them and no other.
pub fn rows_are_read()
    ensures { RowsAreRead }
{}
