//! What holds of what is owed.

ghost use Rattle.headline.specs.Program.{OwedIsHonest, ToldOnce};
ghost use Rattle.headline.specs.Readable.{SessionIsReadable};
ghost use Rattle.headline.specs.Serving.{OneOwed};
ghost use Rattle.headline.specs.WarmStarts.{WarmIsWhole};

use commands::found_can_run;
use directives::{
    axis_is_gone, directives_or_fault, last_threshold_holds, others_stay, pruned_is_gone,
};
use machine::time_goes_on;
use mdl_check::one_answer;
use mdl_parse::one_meaning;
use outside::Files;
use profile_reader::profile_is_spelled;
use profile_text::lines_add_up;
use quanta_log::spelled_is_read;
use report_reader::report_is_spelled;
use resource_tree::one_reading;
use session::parts_told;
use session_spec::{bins_told, costs_stay, feed_told, runs_told, verdicts_told};
use whole_run::{one_seeded, whole_quanta_fit};

/// For words, and files whose content is told, one answer is owed: the texts that were asked for, or one fault.
pub fn one_owed<F: Files>()
    ensures { OneOwed F.holds F.faults }
{
    one_meaning();
    directives_or_fault();
    one_answer();
    one_reading();
    one_seeded();
}

/// The headline lets a command tell one thing alone of files whose content is told. So where texts are owed, it is met by these alone:
/// by no other number, verdict or line.
pub fn told_once()
    ensures { ToldOnce }
{
    one_meaning();
    directives_or_fault();
    one_answer();
    one_reading();
    one_seeded();
}

/// Where texts are owed for words and files, they tell of these files what the headline says of the command. For one that runs a program
/// there are an image, a configuration that the check accepts, settings, and a whole list of quanta in its order, such that harts and
/// output are those of the program that was never patched, after the ticks of these quanta; each bin is what its metric's
/// plan measures over its ticks; and each verdict is the test on that.
pub fn owed_is_honest<F: Files>()
    ensures { OwedIsHonest F.holds F.faults }
{
    time_goes_on();
    runs_told();
    parts_told();
    verdicts_told();
    costs_stay();
    bins_told();
    feed_told();
    pruned_is_gone();
    axis_is_gone();
    last_threshold_holds();
    others_stay();
    found_can_run();
    spelled_is_read();
    whole_quanta_fit();
    report_is_spelled();
    profile_is_spelled();
    lines_add_up();
}

/// What a session gives at its end can be read: each text in it is a name, a focus or in one line, and what was judged true has ticks.
pub fn session_is_readable()
    ensures { SessionIsReadable }
{
    verdicts_told();
}

/// An instrument that is armed in mid-run begins with the values that the frames of each hart give. Where these are the values that its
/// variables would have if it had been armed at tick 0, it measures what it would have measured then.
pub fn warm_is_whole()
    ensures { WarmIsWhole }
{}
