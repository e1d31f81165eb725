//! How harts ended, by how they stopped.

ghost use Rattle.std.specs.Prelude.{◌≡◌, map, IfOk};
ghost use Rattle.word_counts.specs.Stops.{end_of_stop, is_stopped};

use block_count::HartStop;
use pn_types::{NoMemory, StopText};
use std::alloc::Global;
use word_flow::HartEnd;

/// Returns whether a hart stopped: its run wasn't cut, and its budget isn't spent.
fn is_stopped(stop: StopText) -> bool
    ensures { result ≡ is_stopped stop }
{
    !matches!(stop, StopText::Cut | StopText::Budget)
}

/// Returns how harts ended: whether each stopped, and where it was then.
///
/// # Errors
///
/// `NoMemory` where memory runs out.
pub fn hart_ends(alloc: Global, stops: &[HartStop]) -> Result<Vec<HartEnd>, NoMemory>
    ensures { IfOk result (λ ends. ends.items ≡ map end_of_stop stops.now) }
{
    let mut ends = Vec::with_capacity(alloc, stops.len())?;
    for stop in stops {
        ends.push(HartEnd {
            is_stopped: is_stopped(stop.stop),
            pc: stop.pc,
        })?;
    }
    Ok(ends)
}
