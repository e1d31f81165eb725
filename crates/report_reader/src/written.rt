//! Whether a line is the one that is written of what was read from it.

ghost use Rattle.std.specs.Prelude.{◌≡◌, ◌++◌, ◌∷◌, [], bytes_eq, codes, IfOk};
ghost use Rattle.std.specs.Fmt.{decimal};
ghost use Rattle.report.specs.SearchTexts.{node_line, nodes_line};
ghost use Rattle.report.specs.ShownTexts.{histogram_head, refused_line};
ghost use Rattle.report.specs.Text.{hart_line, numbers_line};

use pn_types::NoMemory;
use report::{
    HartPart, NodePart, RefusedPart, ShownPart, add_hart, add_histogram_head, add_node,
    add_nodes_line, add_numbers, add_refused,
};
use std::alloc::Global;

/// Whether two texts are the same.
pub(crate) fn is_same(one: &[u8], other: &[u8]) -> bool
    ensures { result ≡ bytes_eq one.now other.now }
{
    one == other
}

/// Whether a line with its LF is this text.
pub(crate) fn is_text(line: &[u8], text: &[u8]) -> bool
    ensures { result ≡ bytes_eq (line.now ++ 10 ∷ []) text.now }
{
    match text.split_last() {
        Some((last, front)) => *last == b'\n' && is_same(line, front),
        None => false,
    }
}

/// Whether a line is that of these numbers.
pub(crate) fn is_numbers(
    alloc: Global,
    harts: u64,
    ticks: u64,
    samples: u64,
    skipped: u32,
    line: &[u8],
) -> Result<bool, NoMemory>
    ensures { IfOk result (λ same. same ≡ bytes_eq (line.now ++ 10 ∷ []) (numbers_line harts ticks samples skipped)) }
{
    let mut text = Vec::new(alloc);
    add_numbers(alloc, &mut text, harts as usize, ticks, samples, skipped)?;
    Ok(is_text(line, text.as_slice()))
}

/// Whether a line is that of a hart of this number.
pub(crate) fn is_hart(
    alloc: Global,
    number: u32,
    part: &HartPart,
    line: &[u8],
) -> Result<bool, NoMemory>
    ensures { IfOk result (λ same. same ≡ bytes_eq (line.now ++ 10 ∷ []) (hart_line number part.now)) }
{
    let mut text = Vec::new(alloc);
    add_hart(alloc, &mut text, number, part)?;
    Ok(is_text(line, text.as_slice()))
}

/// Whether a line is that of the length of an output.
pub(crate) fn is_length(alloc: Global, count: u64, line: &[u8]) -> Result<bool, NoMemory>
    ensures { IfOk result (λ same. same ≡ bytes_eq (line.now ++ 10 ∷ []) (codes "output " ++ decimal count ++ codes "\n")) }
{
    let text = format!(in alloc; "output {count}\n")?;
    Ok(is_text(line, text.as_bytes()))
}

/// Whether a line is that of a wish that was refused.
pub(crate) fn is_refused(alloc: Global, part: &RefusedPart, line: &[u8]) -> Result<bool, NoMemory>
    ensures { IfOk result (λ same. same ≡ bytes_eq (line.now ++ 10 ∷ []) (refused_line part.now)) }
{
    let mut text = Vec::new(alloc);
    add_refused(alloc, &mut text, part)?;
    Ok(is_text(line, text.as_slice()))
}

/// Whether a line is the first of a histogram of so many bins.
pub(crate) fn is_histogram(
    alloc: Global,
    bins: u64,
    part: &ShownPart,
    line: &[u8],
) -> Result<bool, NoMemory>
    ensures { IfOk result (λ same. same ≡ bytes_eq (line.now ++ 10 ∷ []) (histogram_head bins part.now)) }
{
    let mut text = Vec::new(alloc);
    add_histogram_head(alloc, &mut text, bins as usize, part)?;
    Ok(is_text(line, text.as_slice()))
}

/// Whether a line is the first of a search of so many nodes.
pub(crate) fn is_search(
    alloc: Global,
    count: u64,
    full: bool,
    line: &[u8],
) -> Result<bool, NoMemory>
    ensures { IfOk result (λ same. same ≡ bytes_eq (line.now ++ 10 ∷ []) (nodes_line count full)) }
{
    let mut text = Vec::new(alloc);
    add_nodes_line(alloc, &mut text, count as usize, full)?;
    Ok(is_text(line, text.as_slice()))
}

/// Whether a line is that of a node of this number.
pub(crate) fn is_node(
    alloc: Global,
    window: u32,
    number: usize,
    part: &NodePart,
    line: &[u8],
) -> Result<bool, NoMemory>
    ensures { IfOk result (λ same. same ≡ bytes_eq (line.now ++ 10 ∷ []) (node_line window number part.now)) }
{
    let mut text = Vec::new(alloc);
    add_node(alloc, &mut text, window, number, part)?;
    Ok(is_text(line, text.as_slice()))
}
