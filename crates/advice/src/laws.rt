//! What holds of the definitions of advice.

ghost use Rattle.advice.specs.AdvisedDirectives.{AdviceIsRead, ReportIsAdvised};
ghost use Rattle.advice.specs.Laws.{AnswersStay};
ghost use Rattle.advice.specs.Seams.{CanonicalIsFocus, ReportIsRead};

/// At the advised thresholds the test gives the same result as at earlier thresholds, on each verdict of a
/// hypothesis that isn't pruned.
pub fn answers_stay()
    ensures { AnswersStay }
{}

/// From the text of a report the verdicts on its nodes are read, whatever else the report says.
pub fn report_is_read()
    ensures { ReportIsRead }
{}

/// The foci of a report, which are printed in their canonical form, are read, where the names of the tree are good.
pub fn canonical_is_focus()
    ensures { CanonicalIsFocus }
{}

/// The text of an advice is read as what is advised, each directive on its line, where names are names in a configuration.
pub fn advice_is_read()
    ensures { AdviceIsRead }
{}

/// What a report advises is read as that.
pub fn report_is_advised()
    ensures { ReportIsAdvised }
{}
