//! A report as a person looks at it.

ghost use Rattle.std.specs.Prelude.{◌≡◌, ◌++◌, ◌<◌, ◌^◌, IfOk, OnOk, sum_by};
ghost use Rattle.report_view.specs.View.{report_view, search_view};

use crate::causes::add_causes;
use crate::harts::add_run_view;
use crate::histograms::add_histograms_view;
use crate::node_counts::add_counts;
use crate::tree_lines::add_tree;
use crate::trees::truth_tree;
use pn_types::NoMemory;
use report::{ReportParts, SearchPart};
use std::alloc::Global;

/// Adds how many nodes came to what, the causes, and the tree of what was true.
fn add_search_view(alloc: Global, out: &mut Vec<u8>, part: &SearchPart) -> Result<(), NoMemory>
    ensures { OnOk result (out.new.items ≡ out.old.items ++ search_view part.now) }
{
    let nodes = part.nodes.as_slice();
    let rows = truth_tree(alloc, nodes)?;
    add_counts(alloc, out, part)?;
    add_causes(alloc, out, nodes, &rows)?;
    add_tree(alloc, out, nodes, &rows)
}

/// Returns a report as a person looks at it: the run, the wishes that were refused, what was shown, and the search. The
/// pictures of histograms have so many columns, with bars of ASCII signs or of Unicode's blocks. The ticks of all harts
/// together are below 2^64.
///
/// # Errors
///
/// `NoMemory` where memory runs out.
pub fn report_view(
    alloc: Global,
    ascii: bool,
    columns: u32,
    parts: &ReportParts,
) -> Result<Vec<u8>, NoMemory>
    requires { sum_by (λ part. part.ticks) parts.now.harts < 2 ^ 64 }
    ensures { IfOk result (λ text. text.items ≡ report_view ascii columns parts.now) }
{
    let mut out = Vec::new(alloc);
    add_run_view(alloc, &mut out, parts)?;
    add_histograms_view(alloc, &mut out, ascii, columns, parts)?;
    if let Some(search) = &parts.search {
        add_search_view(alloc, &mut out, search)?;
    }
    Ok(out)
}
