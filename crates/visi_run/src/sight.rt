//! The rule of the gauge's cell, and its kinds of step.

use crate::dial::Reading;
use atomic_table::{Join, Split};
use crossbeam_utils::atomic::seq_cell;
use crossbeam_utils::atomic::seq_cell::RuledSeqCell;
use crossbeam_utils::rule::{Outcome, Protocol};
use std::collections::LinkedList;

/// What a pass knows: whether it sets, what was set, and what the readers of this pass have read, a list for each. No value of it is
/// made.
pub struct Sight {
    pub sets: bool,
    pub wrote: LinkedList<Reading>,
    pub lists: LinkedList<LinkedList<Reading>>,
}

/// The rule of the cell: it holds the last reading that was set, readings rise, and what was read was set.
pub struct Rising;

impl Protocol<Reading, Sight> for Rising {
    ghost use Rattle.visi_run.specs.Sights.{GaugeRule, opening_sight};

    ghost holds = { GaugeRule };

    ghost first = { opening_sight };
}

/// Splits a reader off.
pub struct Admits;

impl Split<Sight> for Admits {
    ghost use Rattle.visi_run.specs.Sights.{reading};
    ghost use Rattle.std.specs.Prelude.{[]};

    ghost left = { λ v. v };

    ghost right = { λ v. reading [] };
}

/// Moves all that a pass knows to a new pass.
pub struct Leaves;

impl Split<Sight> for Leaves {
    ghost use Rattle.visi_run.specs.Sights.{empty_pass};

    ghost left = { λ v. empty_pass };

    ghost right = { λ v. v };
}

/// Lets the writer take in a reader's lists.
pub struct Meets;

impl Join<Sight> for Meets {
    ghost use Rattle.visi_run.specs.Sights.{together, empty_pass};

    ghost both = { together };

    ghost spent = { empty_pass };
}

/// The step by which the writer sets a reading.
pub struct Sets;

impl Outcome<Reading, Sight> for Sets {
    ghost use Rattle.std.specs.Prelude.{◌≡◌};
    ghost use Rattle.visi_run.specs.Sights.{has_set};

    ghost then = { λ v x y w. w ≡ has_set y v };
}

/// The step by which a reader reads.
pub struct Reads;

impl Outcome<Reading, Sight> for Reads {
    ghost use Rattle.std.specs.Prelude.{◌≡◌};
    ghost use Rattle.visi_run.specs.Sights.{has_read};
    ghost use Rattle.visi_run.specs.Readings.{Rises};
    ghost use Rattle.std.specs.List.{AllByRecursion};

    ghost then = { λ v x y w. (w ≡ has_read y v) × AllByRecursion Rises w.lists };
}

/// The step at the end, by which all readings that were read become known.
pub struct Closes;

impl Outcome<Reading, Sight> for Closes {
    ghost use Rattle.visi_run.specs.Sights.{Settles};

    ghost then = { λ v x y w. Settles v y };
}

/// The cell of the gauge.
pub type Cell = RuledSeqCell<Reading, Sight, Rising, 3>;

/// A pass of the cell.
pub type Pass = seq_cell::Pass<Reading, Sight>;
