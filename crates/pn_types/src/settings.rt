//! The settings of a run.

ghost use Rattle.std.specs.Prelude.{◌≡◌, ◌↔◌, ◌<◌, ◌≤◌, IfOk, IsOk};
ghost use Rattle.pn_types.specs.Settings.{AreInRange};

use crate::hart::OutOfRange;
use crate::limits::{
    MAX_BINS, MAX_BUDGET, MAX_HARTS, MAX_INSTRUMENTS, MAX_WIDTH, MIN_BINS, USUAL_INSTRUMENTS,
};

/// What an instrument knows of the procedures that are open when it is armed.
#[derive(Clone, Copy, Drop)]
pub enum Start {
    /// Nothing: its variables begin as the metric says.
    Cold,
    /// What the harts' stacks tell.
    Warm,
}

/// The numbers of a run.
#[derive(Clone, Copy, Drop)]
pub struct Settings {
    /// How many harts, from 1 to [`MAX_HARTS`].
    pub harts: u32,
    /// The ticks that each hart may have, from 1 to [`MAX_BUDGET`].
    pub budget: u64,
    /// How many bins a histogram has at most, from [`MIN_BINS`] to [`MAX_BINS`].
    pub bins: u32,
    /// The ticks of a sample's interval, from 1 to [`MAX_WIDTH`].
    pub width: u64,
    /// How instruments start.
    pub start: Start,
    /// How many instruments there may be at once, from 1 to [`MAX_INSTRUMENTS`].
    pub instruments: u32,
}

impl Settings {
    /// Settings with a cold start and [`USUAL_INSTRUMENTS`].
    ///
    /// # Errors
    ///
    /// `OutOfRange` exactly where one of these numbers is outside its range.
    pub fn new(harts: u32, budget: u64, bins: u32, width: u64) -> Result<Settings, OutOfRange>
        ensures settings { IfOk result (λ s. s ≡ record {
          harts = harts;
          budget = budget;
          bins = bins;
          width = width;
          start = Start.Cold;
          instruments = 64;
        }) }
        ensures in_range { IfOk result AreInRange }
        ensures exactly { IsOk result ↔ ((1 ≤ harts) × (harts ≤ MAX_HARTS) × (1 ≤ budget) × (budget ≤ MAX_BUDGET)
            × (MIN_BINS ≤ bins) × (bins ≤ MAX_BINS) × (1 ≤ width) × (width ≤ MAX_WIDTH)) }
    {
        let is_in_range = (1..=MAX_HARTS).contains(&harts)
            && (1..=MAX_BUDGET).contains(&budget)
            && (MIN_BINS..=MAX_BINS).contains(&bins)
            && (1..=MAX_WIDTH).contains(&width);
        if !is_in_range {
            return Err(OutOfRange);
        }
        Ok(Settings {
            harts,
            budget,
            bins,
            width,
            start: Start::Cold,
            instruments: USUAL_INSTRUMENTS,
        })
    }

    /// The same settings with this start and this number of instruments.
    ///
    /// # Errors
    ///
    /// `OutOfRange` exactly where the number of instruments isn't from 1 to [`MAX_INSTRUMENTS`].
    pub fn with(self, start: Start, instruments: u32) -> Result<Settings, OutOfRange>
        ensures settings { IfOk result (λ s. s ≡ record self { start = start; instruments = instruments }) }
        ensures exactly { IsOk result ↔ ((1 ≤ instruments) × (instruments ≤ MAX_INSTRUMENTS)) }
    {
        if !(1..=MAX_INSTRUMENTS).contains(&instruments) {
            return Err(OutOfRange);
        }
        Ok(Settings {
            start,
            instruments,
            ..self
        })
    }
}
