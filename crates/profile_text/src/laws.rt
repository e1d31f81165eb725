//! Laws of the texts: what holds of the definitions, whatever the profile.

ghost use Rattle.profile_text.specs.Laws.{LinesAddUp};

/// The rows of the procedures are by descending ticks, ties by ascending address. Their ticks, those at words that no procedure has,
/// those outside of the text and the untold ones are all ticks of the profile, and so are the costs in callgrind's format with the last
/// two.
pub fn lines_add_up()
    ensures { LinesAddUp }
{}
