//! What a page and a picture say of a node.

ghost use Rattle.std.specs.Prelude.{◌≡◌, ◌++◌, OnOk};
ghost use Rattle.report_view.specs.Searches.{percent};
ghost use Rattle.report_picture.specs.Escapes.{clipped, escaped, escaped_pair};
ghost use Rattle.report_picture.specs.Labels.{node_name};

use crate::escapes::{add_clipped, add_escaped, add_pair};
use crate::labels::node_name;
use pn_types::NoMemory;
use report::NodePart;
use report_view::percent;
use std::alloc::Global;

/// Adds a node's hypothesis and its whole focus.
///
/// # Errors
///
/// `NoMemory` where memory runs out.
pub fn add_title(out: &mut Vec<u8>, part: &NodePart) -> Result<(), NoMemory>
    ensures { OnOk result (out.new.items ≡ out.old.items ++ escaped_pair part.now.hypothesis part.now.focus) }
{
    add_pair(out, part.hypothesis.bytes(), part.focus.bytes())
}

/// Adds a node's share.
///
/// # Errors
///
/// `NoMemory` where memory runs out.
pub fn add_share(alloc: Global, out: &mut Vec<u8>, part: &NodePart) -> Result<(), NoMemory>
    ensures { OnOk result (out.new.items ≡ out.old.items ++ percent part.now.node.value part.now.node.ticks) }
{
    let share = percent(alloc, part.node.value, part.node.ticks)?;
    out.extend_from_slice(&share)
}

/// Adds a node's name.
///
/// # Errors
///
/// `NoMemory` where memory runs out.
pub fn add_name(
    alloc: Global,
    out: &mut Vec<u8>,
    depth: usize,
    part: &NodePart,
) -> Result<(), NoMemory>
    ensures { OnOk result (out.new.items ≡ out.old.items ++ escaped (node_name depth part.now)) }
{
    let name = node_name(alloc, depth, part)?;
    add_escaped(out, &name)
}

/// Adds a node's name, or the beginning of a long one and dots.
///
/// # Errors
///
/// `NoMemory` where memory runs out.
pub fn add_clipped_name(
    alloc: Global,
    out: &mut Vec<u8>,
    depth: usize,
    part: &NodePart,
) -> Result<(), NoMemory>
    ensures { OnOk result (out.new.items ≡ out.old.items ++ escaped (clipped (node_name depth part.now))) }
{
    let name = node_name(alloc, depth, part)?;
    add_clipped(alloc, out, &name)
}

/// Adds the name of a node's phase, or the beginning of a long one and dots.
///
/// # Errors
///
/// `NoMemory` where memory runs out.
pub fn add_phase_name(alloc: Global, out: &mut Vec<u8>, part: &NodePart) -> Result<(), NoMemory>
    ensures { OnOk result (out.new.items ≡ out.old.items ++ escaped (clipped part.now.phase)) }
{
    add_clipped(alloc, out, part.phase.bytes())
}
