//! Cold and warm starts.

ghost use Rattle.std.specs.Prelude.{◌≡◌};
ghost use Rattle.mdl_plan.specs.Starts.{started_plan};

use pn_types::{Plan, Seq, Start};
use std::alloc::Global;

/// Returns the plan of an instrument that starts so: cold it knows of no open procedure, and warm it is the plan itself. No
/// memory is taken.
pub fn start_plan(alloc: Global, plan: Plan, start: Start) -> Plan
    ensures { result ≡ started_plan start plan }
{
    match start {
        Start::Cold => Plan {
            opens: Seq::from_vec(Vec::new(alloc)),
            ..plan
        },
        Start::Warm => plan,
    }
}
