//! One bin of a histogram.

ghost use Rattle.std.specs.Prelude.{◌≡◌};
ghost use Rattle.fold_hist.specs.Steps.{bins_joined};

/// The sum of samples that follow each other, from the beginning of the first to the end of the last. A sample is a bin of
/// one.
#[derive(Clone, Copy, PartialEq, Eq, Drop)]
pub struct Bin {
    /// The tick at which the first sample begins.
    pub from: u64,
    /// The tick at which the last sample ends.
    pub to: u64,
    /// The sum of the samples, modulo 2^64.
    pub sum: u64,
}

impl Bin {
    /// This bin and the one after it as one.
    pub(crate) fn joined(self, next: Bin) -> Bin
        ensures { result ≡ bins_joined self next }
    {
        Bin {
            from: self.from,
            to: next.to,
            sum: self.sum.wrapping_add(next.sum),
        }
    }
}
