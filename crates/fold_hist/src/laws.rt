//! What holds of every histogram.

ghost use Rattle.fold_hist.specs.Laws.{IsOfAllPushes, HasEachBin};

/// After any list of pushes a histogram is that of the list.
pub fn pushes_are_samples()
    ensures { IsOfAllPushes }
{}

/// Bin i is that of the samples i * w to (i + 1) * w - 1, as far as there are samples.
pub fn each_bin()
    ensures { HasEachBin }
{}
