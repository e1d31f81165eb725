//! What two programs wrote.

ghost use Rattle.std.specs.Prelude.{◌≡◌, ◌++◌, OnOk};
ghost use Rattle.report_diff.specs.Runs.{output_diff, same_bytes};

use crate::pieces::add_byte_count;
use pn_types::NoMemory;
use std::alloc::Global;

/// Returns how many bytes at the front are the same.
fn same_bytes(old: &[u8], new: &[u8]) -> usize
    ensures { result ≡ same_bytes old.now new.now }
{
    let shorter = old.len().min(new.len());
    for place in 0..shorter {
        if old[place] != new[place] {
            return place;
        }
    }
    shorter
}

/// Adds how long the outputs are and where they begin to differ, where they do.
///
/// # Errors
///
/// `NoMemory` where memory runs out.
#[tactic(auto, unfolding(crate::specs::Runs::output_diff))]
pub fn add_output_diff(
    alloc: Global,
    out: &mut Vec<u8>,
    old: &[u8],
    new: &[u8],
) -> Result<(), NoMemory>
    ensures { OnOk result (out.new.items ≡ out.old.items ++ output_diff old.now new.now) }
{
    if old == new {
        return Ok(());
    }
    let same = same_bytes(old, new);
    out.extend_from_slice(b"output: ")?;
    add_byte_count(alloc, out, old.len())?;
    out.extend_from_slice(b" -> ")?;
    add_byte_count(alloc, out, new.len())?;
    out.extend_from_slice(b", different behind ")?;
    add_byte_count(alloc, out, same)?;
    out.extend_from_slice(b"\n")
}
