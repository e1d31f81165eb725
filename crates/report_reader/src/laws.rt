//! What holds of the definitions of reading.

ghost use Rattle.report_reader.specs.Laws.{WrittenIsRead, ReportIsSpelled};

/// Bytes from which a report is read are its text.
pub fn report_is_spelled()
    ensures { ReportIsSpelled }
{}

/// From the text of a report what it prints is read.
pub fn report_is_read()
    ensures { WrittenIsRead }
{}
