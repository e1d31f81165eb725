//! The opening values of a plan's variables.

ghost use Rattle.std.specs.Prelude.{◌≡◌, length};
ghost use Rattle.std.specs.List.{AllByRecursion};
ghost use Rattle.frame_walk.specs.Openings.{opening};
ghost use Rattle.frame_walk.specs.Rooms.{IsSmall};
ghost use Rattle.frame_walk.specs.Walks.{walk_from};

use crate::entering::enter;
use crate::values::Values;
use crate::walk_start::WalkStart;
use pn_types::{Open, Var};
use rv_mem::Mem;

/// The opening values of a plan's variables for a hart: one value for each variable, a counter's value or a timer's number of
/// starts in force. `start` is where the hart's walk starts in this memory; a stopped hart has no walk. It takes no memory.
pub fn open_values<'a>(
    mem: &Mem,
    opens: &[Open],
    start: Option<WalkStart>,
    vars: &'a [Var],
) -> Values<'a>
    requires small { AllByRecursion IsSmall opens.now }
    ensures values { result.values ≡ opening opens.now (walk_from mem.now start) vars.now }
    ensures many { length result.values ≡ length vars.now }
{
    let mut values = Values::new(vars);
    if let Some(start) = start {
        enter(mem, opens, start, &mut values);
    }
    values
}
