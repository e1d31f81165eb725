//! What holds of the definitions of what a line says.

ghost use Rattle.report_lines.specs.Laws.{BinIsRead, HartIsRead, HistogramIsRead, NodeIsRead, RefusedIsRead};

/// From the line of a hart that hart is read.
pub fn hart_is_read()
    ensures { HartIsRead }
{}

/// From the line of a refused wish that wish is read.
pub fn refused_is_read()
    ensures { RefusedIsRead }
{}

/// From the line of a bin that bin is read.
pub fn bin_is_read()
    ensures { BinIsRead }
{}

/// From the line of a histogram that histogram is read, without its bins, and how many bins follow.
pub fn histogram_is_read()
    ensures { HistogramIsRead }
{}

/// From the line of a node what is printed of that node is read.
pub fn node_is_read()
    ensures { NodeIsRead }
{}
