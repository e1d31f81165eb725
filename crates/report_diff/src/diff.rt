//! What differs between two reports.

ghost use Rattle.std.specs.Prelude.{◌≡◌, ◌++◌, ◌<◌, ◌^◌, IfOk, OnOk, sum_by};
ghost use Rattle.report_diff.specs.Diff.{diff_text, differences, nodes_of};

use crate::histograms::add_histograms_diff;
use crate::nodes::add_nodes_diff;
use crate::outputs::add_output_diff;
use crate::runs::add_harts_diff;
use crate::wishes::add_wishes_diff;
use pn_types::NoMemory;
use report::{NodePart, ReportParts};
use std::alloc::Global;

/// Returns the nodes of the search, if there was one.
fn nodes_of(parts: &ReportParts) -> &[NodePart]
    ensures { result.now ≡ nodes_of parts.now }
{
    match &parts.search {
        Some(search) => search.nodes.as_slice(),
        None => &[],
    }
}

/// Adds what differs.
#[tactic(auto, unfolding(crate::specs::Diff::differences))]
fn add_differences(
    alloc: Global,
    out: &mut Vec<u8>,
    old: &ReportParts,
    new: &ReportParts,
) -> Result<(), NoMemory>
    requires old { sum_by (λ part. part.ticks) old.now.harts < 2 ^ 64 }
    requires new { sum_by (λ part. part.ticks) new.now.harts < 2 ^ 64 }
    ensures { OnOk result (out.new.items ≡ out.old.items ++ differences old.now new.now) }
{
    add_harts_diff(alloc, out, old.harts.as_slice(), new.harts.as_slice())?;
    add_output_diff(alloc, out, old.output.bytes(), new.output.bytes())?;
    add_histograms_diff(alloc, out, old.shown.as_slice(), new.shown.as_slice())?;
    add_wishes_diff(alloc, out, old.refused.as_slice(), new.refused.as_slice())?;
    add_nodes_diff(alloc, out, nodes_of(old), nodes_of(new))
}

/// Returns what differs between two reports, in lines: the ticks and the ends of the harts, the output, the sums of the
/// histograms, the wishes that were refused, and the states of the nodes of the search; or that nothing differs. The ticks
/// of all harts of a report together are below 2^64.
///
/// # Errors
///
/// `NoMemory` where memory runs out.
#[tactic(auto, unfolding(crate::specs::Diff::diff_text))]
pub fn diff_text(alloc: Global, old: &ReportParts, new: &ReportParts) -> Result<Vec<u8>, NoMemory>
    requires old { sum_by (λ part. part.ticks) old.now.harts < 2 ^ 64 }
    requires new { sum_by (λ part. part.ticks) new.now.harts < 2 ^ 64 }
    ensures { IfOk result (λ text. text.items ≡ diff_text old.now new.now) }
{
    let mut out = Vec::new(alloc);
    add_differences(alloc, &mut out, old, new)?;
    if out.is_empty() {
        return Vec::from_slice(alloc, b"nothing differs\n");
    }
    Ok(out)
}
