//! What holds of the text of what differs.

ghost use Rattle.report_diff.specs.Laws.{DiffOfSame, NothingDiffers};

/// A report and itself have no difference.
pub fn diff_of_same()
    ensures { DiffOfSame }
{}

/// Where it is printed that nothing differs, all that is compared is the same.
pub fn nothing_differs()
    ensures { NothingDiffers }
{}
