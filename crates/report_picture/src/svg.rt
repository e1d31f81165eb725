//! A report as one picture.

ghost use Rattle.std.specs.Prelude.{◌≡◌, ◌++◌, ◌+◌, [], map, IfOk, OnOk};
ghost use Rattle.std.specs.Option.{option_map, option_map_or};
ghost use Rattle.report_picture.specs.Svg.{hart_line, hart_lines, harts_height, moved_down, node_row, nodes_of, phase_row, picture, report_svg, nodes_heading, search_of, search_rows, svg_head, tree_row, tree_rows};
ghost use Rattle.report_picture.specs.TimeLines.{time_lines};

use crate::labels::{add_hart_name, add_node_window, add_number};
use crate::nodes::{add_clipped_name, add_phase_name, add_share, add_title};
use crate::time_lines::{add_time_lines, time_lines_height};
use crate::tree_line::TreeLine;
use crate::tree_lines::{node_at, tree_lines};
use pn_types::NoMemory;
use report::{HartPart, NodePart, ReportParts, SearchPart, ShownPart};
use std::alloc::Global;

/// Adds what a picture of some height begins with.
///
/// # Errors
///
/// `NoMemory` where memory runs out.
#[tactic(auto, unfolding(crate::specs::Svg::svg_head))]
pub fn add_svg_head(alloc: Global, out: &mut Vec<u8>, height: u128) -> Result<(), NoMemory>
    ensures { OnOk result (out.new.items ≡ out.old.items ++ svg_head height) }
{
    let view = b"<svg xmlns=\"http://www.w3.org/2000/svg\" viewBox=\"0 0 1000 ";
    let font =
        b"\" font-family=\"monospace\" font-size=\"12\" fill=\"#222\">\n<title>Report of a run</title>\n<rect width=\"1000\" height=\"";
    add_number(alloc, out, view, height)?;
    add_number(alloc, out, font, height)?;
    out.extend_from_slice(b"\" fill=\"#fff\"/>\n")
}

/// Adds the line of a hart.
#[tactic(auto, unfolding(crate::specs::Svg::hart_line))]
fn add_hart(
    alloc: Global,
    out: &mut Vec<u8>,
    number: usize,
    part: &HartPart,
) -> Result<(), NoMemory>
    ensures { OnOk result (out.new.items ≡ out.old.items ++ hart_line number part.now) }
{
    add_number(alloc, out, b"<text x=\"20\" y=\"", number as u128 * 18 + 24)?;
    out.extend_from_slice(b"\">")?;
    add_hart_name(alloc, out, number, part)?;
    out.extend_from_slice(b"</text>\n")
}

/// Adds the lines of all harts.
fn add_harts(alloc: Global, out: &mut Vec<u8>, parts: &[HartPart]) -> Result<(), NoMemory>
    ensures { OnOk result (out.new.items ≡ out.old.items ++ hart_lines 0 parts.now) }
{
    for (number, part) in parts.iter().enumerate() {
        add_hart(alloc, out, number, part)?;
    }
    Ok(())
}

/// Returns how many pixels the lines of harts are high.
fn harts_height(parts: &[HartPart]) -> u128
    ensures { result ≡ harts_height parts.now }
{
    parts.len() as u128 * 18 + 24
}

/// Adds the heading of a phase.
#[tactic(auto, unfolding(crate::specs::Svg::phase_row))]
fn add_phase(
    alloc: Global,
    out: &mut Vec<u8>,
    place: usize,
    part: &NodePart,
) -> Result<(), NoMemory>
    ensures { OnOk result (out.new.items ≡ out.old.items ++ phase_row place part.now) }
{
    add_number(alloc, out, b"<text x=\"20\" y=\"", place as u128 * 18 + 40)?;
    out.extend_from_slice(b"\" font-weight=\"bold\">phase ")?;
    add_phase_name(alloc, out, part)?;
    out.extend_from_slice(b"</text>\n")
}

/// Adds the row of a node.
#[tactic(auto, unfolding(crate::specs::Svg::node_row))]
fn add_node(
    alloc: Global,
    out: &mut Vec<u8>,
    place: usize,
    depth: usize,
    part: &NodePart,
) -> Result<(), NoMemory>
    ensures { OnOk result (out.new.items ≡ out.old.items ++ node_row place depth part.now) }
{
    add_number(
        alloc,
        out,
        b"<g transform=\"translate(20 ",
        place as u128 * 18 + 40,
    )?;
    out.extend_from_slice(b")\"><title>")?;
    add_title(out, part)?;
    out.extend_from_slice(b"</title>\n<text x=\"50\" text-anchor=\"end\">")?;
    add_share(alloc, out, part)?;
    add_number(alloc, out, b"</text>\n<text x=\"", depth as u128 * 12 + 62)?;
    out.extend_from_slice(b"\">")?;
    add_clipped_name(alloc, out, depth, part)?;
    add_node_window(alloc, out, part)?;
    out.extend_from_slice(b"</text></g>\n")
}

/// Adds the heading of a node's phase, if there is that node.
fn add_some_phase(
    alloc: Global,
    out: &mut Vec<u8>,
    place: usize,
    part: Option<&NodePart>,
) -> Result<(), NoMemory>
    ensures { OnOk result (out.new.items
        ≡ out.old.items ++ option_map_or (phase_row place) (option_map (λ part. part.now) part.entry) []) }
{
    match part {
        Some(part) => add_phase(alloc, out, place, part),
        None => Ok(()),
    }
}

/// Adds the row of a node, if there is one.
fn add_some_node(
    alloc: Global,
    out: &mut Vec<u8>,
    place: usize,
    depth: usize,
    part: Option<&NodePart>,
) -> Result<(), NoMemory>
    ensures { OnOk result (out.new.items
        ≡ out.old.items ++ option_map_or (node_row place depth) (option_map (λ part. part.now) part.entry) []) }
{
    match part {
        Some(part) => add_node(alloc, out, place, depth, part),
        None => Ok(()),
    }
}

/// Adds a line of the tree.
fn add_line(
    alloc: Global,
    out: &mut Vec<u8>,
    parts: &[NodePart],
    place: usize,
    line: TreeLine,
) -> Result<(), NoMemory>
    ensures { OnOk result (out.new.items ≡ out.old.items ++ tree_row parts.now place line) }
{
    match line {
        TreeLine::Phase(number) => add_some_phase(alloc, out, place, node_at(parts, number)),
        TreeLine::Node(number, depth, _) => {
            add_some_node(alloc, out, place, depth, node_at(parts, number))
        }
    }
}

/// Adds the lines of the tree.
fn add_lines(
    alloc: Global,
    out: &mut Vec<u8>,
    parts: &[NodePart],
    lines: &[TreeLine],
) -> Result<(), NoMemory>
    ensures { OnOk result (out.new.items ≡ out.old.items ++ tree_rows parts.now 0 lines.now) }
{
    for (place, line) in lines.iter().enumerate() {
        add_line(alloc, out, parts, place, *line)?;
    }
    Ok(())
}

/// Adds how many nodes a search has.
#[tactic(auto, unfolding(crate::specs::Svg::nodes_heading))]
fn add_nodes_heading(alloc: Global, out: &mut Vec<u8>, count: u128) -> Result<(), NoMemory>
    ensures { OnOk result (out.new.items ≡ out.old.items ++ nodes_heading count) }
{
    let label = b"<text x=\"20\" y=\"18\" fill=\"#555\">what was true, of ";
    add_number(alloc, out, label, count)?;
    out.extend_from_slice(b" nodes of the search</text>\n")
}

/// Adds what was true in a search.
#[tactic(auto, unfolding(crate::specs::Svg::search_rows))]
fn add_search(
    alloc: Global,
    out: &mut Vec<u8>,
    parts: &[NodePart],
    lines: &[TreeLine],
) -> Result<(), NoMemory>
    ensures { OnOk result (out.new.items ≡ out.old.items ++ search_rows parts.now lines.now) }
{
    add_nodes_heading(alloc, out, parts.len() as u128)?;
    add_lines(alloc, out, parts, lines)
}

/// Adds what was true in a search, if there was one.
fn add_some_search(
    alloc: Global,
    out: &mut Vec<u8>,
    search: &Option<SearchPart>,
    lines: &[TreeLine],
) -> Result<(), NoMemory>
    ensures { OnOk result (out.new.items ≡ out.old.items ++ search_of search.now lines.now) }
{
    match search {
        Some(search) => add_search(alloc, out, search.nodes.as_slice(), lines),
        None => Ok(()),
    }
}

/// Adds the time lines, so far down.
#[tactic(auto, unfolding(crate::specs::Svg::moved_down))]
fn add_moved_lines(
    alloc: Global,
    out: &mut Vec<u8>,
    y: u128,
    parts: &[ShownPart],
) -> Result<(), NoMemory>
    ensures { OnOk result (out.new.items ≡ out.old.items ++ moved_down y (time_lines parts.now)) }
{
    add_number(alloc, out, b"<g transform=\"translate(0 ", y)?;
    out.extend_from_slice(b")\">\n")?;
    add_time_lines(alloc, out, parts)?;
    out.extend_from_slice(b"</g>\n")
}

/// Adds what was true in a search, so far down.
#[tactic(auto, unfolding(crate::specs::Svg::moved_down))]
fn add_moved_search(
    alloc: Global,
    out: &mut Vec<u8>,
    y: u128,
    search: &Option<SearchPart>,
    lines: &[TreeLine],
) -> Result<(), NoMemory>
    ensures { OnOk result (out.new.items ≡ out.old.items ++ moved_down y (search_of search.now lines.now)) }
{
    add_number(alloc, out, b"<g transform=\"translate(0 ", y)?;
    out.extend_from_slice(b")\">\n")?;
    add_some_search(alloc, out, search, lines)?;
    out.extend_from_slice(b"</g>\n")
}

/// Adds the whole picture.
#[tactic(auto, unfolding(crate::specs::Svg::picture))]
fn add_picture(
    alloc: Global,
    out: &mut Vec<u8>,
    parts: &ReportParts,
    lines: &[TreeLine],
) -> Result<(), NoMemory>
    ensures { OnOk result (out.new.items ≡ out.old.items ++ picture parts.now lines.now) }
{
    let below_harts = harts_height(parts.harts.as_slice());
    let below_lines = below_harts + time_lines_height(parts.shown.as_slice());
    add_svg_head(alloc, out, below_lines + lines.len() as u128 * 18 + 40)?;
    add_harts(alloc, out, parts.harts.as_slice())?;
    add_moved_lines(alloc, out, below_harts, parts.shown.as_slice())?;
    add_moved_search(alloc, out, below_lines, &parts.search, lines)?;
    out.extend_from_slice(b"</svg>\n")
}

/// Returns the nodes of a search, or none.
pub fn nodes_of(search: &Option<SearchPart>) -> &[NodePart]
    ensures { result.now ≡ nodes_of search.now }
{
    match search {
        Some(search) => search.nodes.as_slice(),
        None => &[],
    }
}

/// Returns a report as one picture in SVG, 1,000 pixels wide: the harts, the time lines of all histograms over one axis, and what was
/// true in the search as a tree.
///
/// # Errors
///
/// `NoMemory` where memory runs out.
pub fn report_svg(alloc: Global, parts: &ReportParts) -> Result<Vec<u8>, NoMemory>
    ensures { IfOk result (λ text. text.items ≡ report_svg parts.now) }
{
    let lines = tree_lines(alloc, nodes_of(&parts.search))?;
    let mut out = Vec::new(alloc);
    add_picture(alloc, &mut out, parts, &lines)?;
    Ok(out)
}
