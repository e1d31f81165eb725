//! Histograms that fold: where all bins are full, each two become one of the double width.
#![tactic(auto)]

mod bin;
mod bins;
mod hist;
mod laws;

pub use bin::Bin;
pub use hist::Hist;
pub use laws::{each_bin, pushes_are_samples};
