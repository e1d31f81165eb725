//! The numbers that options give.

ghost use Rattle.std.specs.Prelude.{◌≤◌};

use pn_types::{
    MAX_BINS, MAX_BUDGET, MAX_HARTS, MAX_INSTRUMENTS, MAX_QUANTUM, MAX_WIDTH, MAX_WORKERS, MIN_BINS,
};

/// The most views of a run.
pub const MAX_VIEWS: u32 = 8;

/// An option whose value is a number.
#[derive(Clone, Copy, Drop)]
pub struct NumberOption<'n> {
    pub name: &'n str,
    pub least: u64,
    pub most: u64,
    /// The number that holds where the option isn't given.
    pub default: u64,
    ghost in_range: { (least ≤ default) × (default ≤ most) },
}

/// The harts of a run.
pub const HARTS: NumberOption<'static> = NumberOption {
    name: "harts",
    least: 1,
    most: MAX_HARTS as u64,
    default: 1,
};

/// The workers that share a run.
pub const WORKERS: NumberOption<'static> = NumberOption {
    name: "workers",
    least: 1,
    most: MAX_WORKERS as u64,
    default: 2,
};

/// The seed of the order of quanta.
pub const SEED: NumberOption<'static> = NumberOption {
    name: "seed",
    least: 0,
    most: 4_294_967_295,
    default: 0,
};

/// The most turns of a quantum.
pub const QUANTUM: NumberOption<'static> = NumberOption {
    name: "quantum",
    least: 1,
    most: MAX_QUANTUM as u64,
    default: 50,
};

/// The ticks of each hart.
pub const BUDGET: NumberOption<'static> = NumberOption {
    name: "budget",
    least: 1,
    most: MAX_BUDGET,
    default: 1_000_000,
};

/// The bins of a histogram.
pub const BINS: NumberOption<'static> = NumberOption {
    name: "bins",
    least: MIN_BINS as u64,
    most: MAX_BINS as u64,
    default: 64,
};

/// The ticks of a bin.
pub const WIDTH: NumberOption<'static> = NumberOption {
    name: "width",
    least: 1,
    most: MAX_WIDTH,
    default: 1_000,
};

/// The threads that view a run.
pub const VIEWS: NumberOption<'static> = NumberOption {
    name: "views",
    least: 1,
    most: MAX_VIEWS as u64,
    default: 2,
};

/// The procedures of a table, at most.
pub const TOP: NumberOption<'static> = NumberOption {
    name: "top",
    least: 1,
    most: 1_000_000,
    default: 20,
};

/// The columns in which a report is shown.
pub const COLUMNS: NumberOption<'static> = NumberOption {
    name: "columns",
    least: 20,
    most: 1_000,
    default: 80,
};

/// The tick from which on something is asked for.
pub const FROM: NumberOption<'static> = NumberOption {
    name: "from",
    least: 0,
    most: 2_147_483_647,
    default: 0,
};

/// The instruments that are allowed at once.
pub const INSTRUMENTS: NumberOption<'static> = NumberOption {
    name: "instruments",
    least: 1,
    most: MAX_INSTRUMENTS as u64,
    default: 64,
};
