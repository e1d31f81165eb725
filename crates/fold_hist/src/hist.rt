//! Histograms that fold as they grow.

ghost use Rattle.std.specs.Prelude.{◌≡◌, ◌<◌, ◌≤◌, ◌+◌, ◌^◌, ◌++◌, ◌∷◌, [], List, IfOk};
ghost use Rattle.fold_hist.specs.declared.bin.Bin.{Bin as Sample};
ghost use Rattle.fold_hist.specs.Steps.{pushed};
ghost use Rattle.fold_hist.specs.Bins.{hist_of, IsWidth};

use crate::bin::Bin;
use crate::bins::Bins;
use pn_types::NoMemory;
use std::alloc::Global;
use std::marker::Model;

/// A histogram of samples, with a limit on its bins. It keeps the bins alone: each is the sum of `width` samples, as far as
/// there are samples, and the width is the least power of two for which the bins are enough. Contracts see how many bins
/// it has at most, how many samples it has, the width and the bins.
#[derive(Drop)]
pub struct Hist {
    most: u32,
    count: u64,
    bins: Bins,
}

impl Model for Hist {
    ghost use Rattle.std.specs.Prelude.{◌≤◌, vec_capacity};
    ghost use Rattle.fold_hist.specs.Bins.{Histogram, IsHistogram};

    ghost Value = { Histogram };

    ghost view = { λ h. record { most = h.most; count = h.count; width = h.bins.width; bins = h.bins.list.items } };

    ghost invariant = { λ h. (h.most ≤ vec_capacity h.bins.list)
        × IsHistogram (record { most = h.most; count = h.count; width = h.bins.width; bins = h.bins.list.items }) };
}

impl Hist {
    /// Returns the histogram of no samples, with the memory of `bins` bins, at least one.
    ///
    /// # Errors
    ///
    /// `NoMemory` where memory runs out.
    pub fn new(alloc: Global, bins: u32) -> Result<Hist, NoMemory>
        requires { 1 ≤ bins }
        ensures { IfOk result (λ hist. hist ≡ hist_of bins []) }
    {
        Ok(Hist {
            most: bins,
            count: 0,
            bins: Bins {
                width: 1,
                list: Vec::with_capacity(alloc, bins as usize)?,
            },
        })
    }

    /// Puts a sample after the others: its sum, and the ticks at which it begins and ends. There are fewer than 2^32
    /// samples before. Takes no memory.
    pub fn push(&mut self, sum: u64, from: u64, to: u64)
        requires { self.old.count < 2 ^ 32 }

        // Of whatever samples it was made, it is then that of these and the new one.
        ensures samples { (samples : List Sample) → self.old ≡ hist_of self.old.most samples
            → self.new ≡ hist_of self.old.most (samples ++ record { from = from; to = to; sum = sum } ∷ []) }
        ensures pushed { self.new ≡ pushed self.old (record { from = from; to = to; sum = sum }) }
        ensures most { self.new.most ≡ self.old.most }
        ensures count { self.new.count ≡ self.old.count + 1 }
    {
        self.bins.make_room(self.most, self.count);
        self.bins.put(self.count, Bin { from, to, sum });
        self.count += 1;
    }

    /// Returns the bins, in the order of the samples.
    pub fn bins(&self) -> &[Bin]
        ensures { result.now ≡ self.now.bins }
    {
        self.bins.list.as_slice()
    }

    /// Returns how many samples a bin is the sum of; the last one may have fewer.
    pub fn width(&self) -> u64
        ensures value { result ≡ self.now.width }
        ensures least { IsWidth self.now.most self.now.count result }
    {
        self.bins.width
    }
}
