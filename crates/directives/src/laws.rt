//! What holds of directives, and of a configuration after them.

ghost use Rattle.directives.specs.Meaning.{OneDirectives, OneFault, DirectivesOrFault, AlwaysMeans};
ghost use Rattle.directives.specs.Laws.{PrunedIsGone, AxisIsGone, LastThresholdHolds, SameHypotheses, OthersStay};

use mdl_check::one_answer;

/// A text spells one list of directives, or it has one fault.
pub fn directives_or_fault()
    ensures directives { OneDirectives }
    ensures fault { OneFault }
    ensures either { DirectivesOrFault }
    ensures always { AlwaysMeans }
{}

/// No hypothesis that was pruned stands any more, and none that had it as an ancestor.
pub fn pruned_is_gone()
    ensures { PrunedIsGone }
{}

/// A hypothesis isn't refined along an axis that was taken from it.
pub fn axis_is_gone()
    ensures { AxisIsGone }
{}

/// A hypothesis has the last threshold that was given to it.
pub fn last_threshold_holds()
    ensures { LastThresholdHolds }
{}

/// The check finds the hypotheses that `apply` begins with.
pub fn same_hypotheses()
    ensures { SameHypotheses }
{}

/// What the check makes of the configuration differs in its hypotheses alone.
pub fn others_stay()
    ensures { OthersStay }
{
    one_answer();
}
