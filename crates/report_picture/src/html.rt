//! A report as one page.

ghost use Rattle.std.specs.Prelude.{◌≡◌, ◌++◌, ◌-◌, [], flat_map, IfOk, OnOk};
ghost use Rattle.std.specs.Option.{option_map, option_map_or};
ghost use Rattle.report_picture.specs.Html.{closing, end_cells, ends, hart_cells, hart_table, hart_table_rows, html_line, node_lines, node_text, opening, page, phase_heading, report_html, search_of, search_part, some_lines_part, time_lines_part};

use crate::escapes::add_escaped;
use crate::labels::{add_node_window, add_number};
use crate::nodes::{add_name, add_share, add_title};
use crate::page_head::add_page_head;
use crate::svg::{add_svg_head, nodes_of};
use crate::time_lines::{add_time_lines, time_lines_height};
use crate::tree_line::TreeLine;
use crate::tree_lines::{node_at, tree_lines};
use pn_types::NoMemory;
use report::{HartPart, NodePart, ReportParts, SearchPart, ShownPart};
use std::alloc::Global;

/// Adds the cells of how and where a hart ended.
#[tactic(auto, unfolding(crate::specs::Html::end_cells))]
fn add_end(alloc: Global, out: &mut Vec<u8>, part: &HartPart) -> Result<(), NoMemory>
    ensures { OnOk result (out.new.items ≡ out.old.items ++ end_cells part.now) }
{
    let stop = part.stop;
    let pc = part.pc;
    out.extend_from_slice(format!(in alloc; "{stop}</td><td>0x{pc:x}")?.as_bytes())
}

/// Adds the row of a hart.
#[tactic(auto, unfolding(crate::specs::Html::hart_cells))]
fn add_hart(
    alloc: Global,
    out: &mut Vec<u8>,
    number: usize,
    part: &HartPart,
) -> Result<(), NoMemory>
    ensures { OnOk result (out.new.items ≡ out.old.items ++ hart_cells number part.now) }
{
    add_number(alloc, out, b"<tr><td>", number as u128)?;
    add_number(alloc, out, b"</td><td>", part.ticks as u128)?;
    out.extend_from_slice(b"</td><td>")?;
    add_end(alloc, out, part)?;
    out.extend_from_slice(b"</td></tr>\n")
}

/// Adds the rows of all harts.
fn add_harts(alloc: Global, out: &mut Vec<u8>, parts: &[HartPart]) -> Result<(), NoMemory>
    ensures { OnOk result (out.new.items ≡ out.old.items ++ hart_table_rows 0 parts.now) }
{
    for (number, part) in parts.iter().enumerate() {
        add_hart(alloc, out, number, part)?;
    }
    Ok(())
}

/// Adds the table of harts.
#[tactic(auto, unfolding(crate::specs::Html::hart_table))]
fn add_hart_table(alloc: Global, out: &mut Vec<u8>, parts: &[HartPart]) -> Result<(), NoMemory>
    ensures { OnOk result (out.new.items ≡ out.old.items ++ hart_table parts.now) }
{
    out.extend_from_slice(
        b"<h2>Harts</h2>\n<table>\n<tr><th>hart</th><th>ticks</th><th>end</th><th>at</th></tr>\n",
    )?;
    add_harts(alloc, out, parts)?;
    out.extend_from_slice(b"</table>\n")
}

/// Adds what is said of a node.
#[tactic(auto, unfolding(crate::specs::Html::node_text))]
fn add_node_text(
    alloc: Global,
    out: &mut Vec<u8>,
    depth: usize,
    part: &NodePart,
) -> Result<(), NoMemory>
    ensures { OnOk result (out.new.items ≡ out.old.items ++ node_text depth part.now) }
{
    out.extend_from_slice(b"<span title=\"")?;
    add_title(out, part)?;
    out.extend_from_slice(b"\">")?;
    add_share(alloc, out, part)?;
    out.extend_from_slice(b" ")?;
    add_name(alloc, out, depth, part)?;
    add_node_window(alloc, out, part)?;
    out.extend_from_slice(b"</span>")
}

/// Adds what is said of a node, if there is one.
fn add_some_node(
    alloc: Global,
    out: &mut Vec<u8>,
    depth: usize,
    part: Option<&NodePart>,
) -> Result<(), NoMemory>
    ensures { OnOk result (out.new.items
        ≡ out.old.items ++ option_map_or (node_text depth) (option_map (λ part. part.now) part.entry) []) }
{
    match part {
        Some(part) => add_node_text(alloc, out, depth, part),
        None => Ok(()),
    }
}

/// Adds what a node at a depth begins with, where the node behind it is at the next.
fn add_opening(out: &mut Vec<u8>, depth: usize, next: usize) -> Result<(), NoMemory>
    ensures { OnOk result (out.new.items ≡ out.old.items ++ opening depth next) }
{
    if depth < next {
        out.extend_from_slice(b"<details open><summary>")
    } else {
        out.extend_from_slice(b"<p>")
    }
}

/// Adds the ends of so many nodes that have nodes below them.
fn add_ends(out: &mut Vec<u8>, count: usize) -> Result<(), NoMemory>
    ensures { OnOk result (out.new.items ≡ out.old.items ++ ends count) }
{
    for _ in 0..count {
        out.extend_from_slice(b"</details>\n")?;
    }
    Ok(())
}

/// Adds what a node at a depth ends with, where the node behind it is at the next.
#[tactic(auto, unfolding(crate::specs::Html::closing))]
fn add_closing(out: &mut Vec<u8>, depth: usize, next: usize) -> Result<(), NoMemory>
    ensures { OnOk result (out.new.items ≡ out.old.items ++ closing depth next) }
{
    if depth < next {
        out.extend_from_slice(b"</summary>\n")?;
    } else {
        out.extend_from_slice(b"</p>\n")?;
    }
    add_ends(out, depth.saturating_sub(next))
}

/// Adds a node.
#[tactic(auto, unfolding(crate::specs::Html::node_lines))]
fn add_node(
    alloc: Global,
    out: &mut Vec<u8>,
    parts: &[NodePart],
    number: usize,
    depth: usize,
    next: usize,
) -> Result<(), NoMemory>
    ensures { OnOk result (out.new.items ≡ out.old.items ++ node_lines parts.now number depth next) }
{
    add_opening(out, depth, next)?;
    add_some_node(alloc, out, depth, node_at(parts, number))?;
    add_closing(out, depth, next)
}

/// Adds the heading of a node's phase, if there is that node.
#[tactic(auto, unfolding(crate::specs::Html::phase_heading))]
fn add_some_phase(out: &mut Vec<u8>, part: Option<&NodePart>) -> Result<(), NoMemory>
    ensures { OnOk result (out.new.items
        ≡ out.old.items ++ option_map_or phase_heading (option_map (λ part. part.now) part.entry) []) }
{
    match part {
        Some(part) => {
            out.extend_from_slice(b"<h3>phase ")?;
            add_escaped(out, part.phase.bytes())?;
            out.extend_from_slice(b"</h3>\n")
        }
        None => Ok(()),
    }
}

/// Adds a line of the tree.
fn add_line(
    alloc: Global,
    out: &mut Vec<u8>,
    parts: &[NodePart],
    line: TreeLine,
) -> Result<(), NoMemory>
    ensures { OnOk result (out.new.items ≡ out.old.items ++ html_line parts.now line) }
{
    match line {
        TreeLine::Phase(number) => add_some_phase(out, node_at(parts, number)),
        TreeLine::Node(number, depth, next) => add_node(alloc, out, parts, number, depth, next),
    }
}

/// Adds the lines of the tree.
fn add_lines(
    alloc: Global,
    out: &mut Vec<u8>,
    parts: &[NodePart],
    lines: &[TreeLine],
) -> Result<(), NoMemory>
    ensures { OnOk result (out.new.items ≡ out.old.items ++ flat_map (html_line parts.now) lines.now) }
{
    for line in lines {
        add_line(alloc, out, parts, *line)?;
    }
    Ok(())
}

/// Adds what was true in a search.
#[tactic(auto, unfolding(crate::specs::Html::search_part))]
fn add_search(
    alloc: Global,
    out: &mut Vec<u8>,
    parts: &[NodePart],
    lines: &[TreeLine],
) -> Result<(), NoMemory>
    ensures { OnOk result (out.new.items ≡ out.old.items ++ search_part parts.now lines.now) }
{
    out.extend_from_slice(b"<h2>What was true, of ")?;
    add_number(alloc, out, b"", parts.len() as u128)?;
    out.extend_from_slice(b" nodes of the search</h2>\n")?;
    add_lines(alloc, out, parts, lines)
}

/// Adds what was true in a search, if there was one.
fn add_some_search(
    alloc: Global,
    out: &mut Vec<u8>,
    search: &Option<SearchPart>,
    lines: &[TreeLine],
) -> Result<(), NoMemory>
    ensures { OnOk result (out.new.items ≡ out.old.items ++ search_of search.now lines.now) }
{
    match search {
        Some(search) => add_search(alloc, out, search.nodes.as_slice(), lines),
        None => Ok(()),
    }
}

/// Adds the picture of the time lines.
#[tactic(auto, unfolding(crate::specs::Html::some_lines_part))]
fn add_some_lines_part(
    alloc: Global,
    out: &mut Vec<u8>,
    parts: &[ShownPart],
) -> Result<(), NoMemory>
    ensures { OnOk result (out.new.items ≡ out.old.items ++ some_lines_part parts.now) }
{
    out.extend_from_slice(b"<h2>Time lines</h2>\n<div>\n")?;
    add_svg_head(alloc, out, time_lines_height(parts))?;
    add_time_lines(alloc, out, parts)?;
    out.extend_from_slice(b"</svg>\n</div>\n")
}

/// Adds the picture of the time lines, if there are any.
#[tactic(auto, unfolding(crate::specs::Html::time_lines_part))]
fn add_lines_part(alloc: Global, out: &mut Vec<u8>, parts: &[ShownPart]) -> Result<(), NoMemory>
    ensures { OnOk result (out.new.items ≡ out.old.items ++ time_lines_part parts.now) }
{
    if parts.is_empty() {
        return Ok(());
    }
    add_some_lines_part(alloc, out, parts)
}

/// Adds the whole page.
#[tactic(auto, unfolding(crate::specs::Html::page))]
fn add_page(
    alloc: Global,
    out: &mut Vec<u8>,
    parts: &ReportParts,
    lines: &[TreeLine],
) -> Result<(), NoMemory>
    ensures { OnOk result (out.new.items ≡ out.old.items ++ page parts.now lines.now) }
{
    add_page_head(out)?;
    add_hart_table(alloc, out, parts.harts.as_slice())?;
    add_lines_part(alloc, out, parts.shown.as_slice())?;
    add_some_search(alloc, out, &parts.search, lines)?;
    out.extend_from_slice(b"</body>\n</html>\n")
}

/// Returns a report as one page in HTML without scripts: a table of the harts, the picture of the time lines, and what was true in the
/// search as a tree whose nodes can be closed.
///
/// # Errors
///
/// `NoMemory` where memory runs out.
pub fn report_html(alloc: Global, parts: &ReportParts) -> Result<Vec<u8>, NoMemory>
    ensures { IfOk result (λ text. text.items ≡ report_html parts.now) }
{
    let lines = tree_lines(alloc, nodes_of(&parts.search))?;
    let mut out = Vec::new(alloc);
    add_page(alloc, &mut out, parts, &lines)?;
    Ok(out)
}
