//! The foci of procedures and of modules.

ghost use Rattle.std.specs.Prelude.{◌≡◌, ◌++◌, ◌<◌, ◌≤◌, ◌^◌, ◌∷◌, [], if◌then◌else◌, flat_map, length, map, position, take, IfOk, IfSome, OnOk};
ghost use Rattle.resource_tree.specs.FocusTexts.{is_comma};
ghost use Rattle.first_places.specs.Groups.{first_mentions};
ghost use Rattle.pair_wishes.specs.Foci.{code_len, code_part, focus_at, is_within, module_foci, module_node, other_parts, procedure_foci, procedure_node};

use crate::distinct::add_distinct;
use first_places::FirstPlaces;
use pn_types::{NoMemory, Proc, Text};
use std::alloc::Global;

/// Returns where the first comma stands.
fn first_comma(text: &[u8]) -> Option<usize>
    ensures number { result ≡ position is_comma text.now }
    ensures range { IfSome result (λ place. place < length text.now) }
{
    text.iter().position(|byte| *byte == b',')
}

/// Returns the length of the part of a focus that says of the code.
fn code_len(focus: &[u8]) -> usize
    ensures number { result ≡ code_len focus.now }
    ensures range { result ≤ length focus.now }
{
    first_comma(focus).unwrap_or(focus.len())
}

/// Returns whether a node of the code is the one of a path, or below it.
#[tactic(auto, unfolding(crate::specs::Foci::is_within))]
fn is_within(alloc: Global, path: &[u8], node: &[u8]) -> Result<bool, NoMemory>
    ensures { IfOk result (λ is. is ≡ is_within path.now node.now) }
{
    let mut path = Vec::from_slice(alloc, path)?;
    path.push(b'/')?;
    let mut node = Vec::from_slice(alloc, node)?;
    node.push(b'/')?;
    Ok(node.starts_with(&path))
}

/// Adds the focus of a node of the code, where it is within another focus: with the other parts of that.
#[tactic(auto, unfolding(crate::specs::Foci::focus_at))]
fn add_focus(alloc: Global, foci: &mut Vec<Text>, focus: &[u8], node: &[u8]) -> Result<(), NoMemory>
    ensures { OnOk result (foci.new.items ≡ foci.old.items ++ focus_at focus.now node.now) }
{
    let end = code_len(focus);
    if is_within(alloc, &focus[..end], node)? {
        let mut text = Vec::from_slice(alloc, node)?;
        text.extend_from_slice(&focus[end..])?;
        foci.push(Text::from_vec(text))?;
    }
    Ok(())
}

/// Returns the foci of nodes of the code that are within a focus.
fn foci_at(alloc: Global, focus: &[u8], nodes: &[Text]) -> Result<Vec<Text>, NoMemory>
    ensures { IfOk result (λ foci. foci.items ≡ flat_map (focus_at focus.now) nodes.now) }
{
    let mut foci = Vec::new(alloc);
    for node in nodes {
        add_focus(alloc, &mut foci, focus, node.bytes())?;
    }
    Ok(foci)
}

/// Returns the node of a module.
fn module_node(alloc: Global, proc: &Proc) -> Result<Text, NoMemory>
    ensures { IfOk result (λ node. node ≡ module_node proc.now) }
{
    let mut node = Vec::from_slice(alloc, b"/Code/")?;
    node.extend_from_slice(proc.module.bytes())?;
    Ok(Text::from_vec(node))
}

/// Returns the node of a procedure: `/Code/MODULE/NAME`.
///
/// # Errors
///
/// `NoMemory` where memory runs out.
pub fn procedure_node(alloc: Global, proc: &Proc) -> Result<Text, NoMemory>
    ensures { IfOk result (λ node. node ≡ procedure_node proc.now) }
{
    let mut node = Vec::from_slice(alloc, b"/Code/")?;
    node.extend_from_slice(proc.module.bytes())?;
    node.push(b'/')?;
    node.extend_from_slice(proc.name.bytes())?;
    Ok(Text::from_vec(node))
}

/// Returns the nodes of procedures.
fn procedure_nodes(alloc: Global, procs: &[&Proc]) -> Result<Vec<Text>, NoMemory>
    ensures { IfOk result (λ nodes. nodes.items ≡ map procedure_node (map (λ proc. proc.now) procs.now)) }
{
    let mut nodes = Vec::new(alloc);
    for proc in procs {
        nodes.push(procedure_node(alloc, proc)?)?;
    }
    Ok(nodes)
}

/// Returns the nodes of the modules of procedures, each once.
fn module_nodes(alloc: Global, procs: &[&Proc]) -> Result<Vec<Text>, NoMemory>
    ensures { IfOk result (λ nodes. nodes.items ≡ first_mentions (map module_node (map (λ proc. proc.now) procs.now))) }
{
    let mut seen = FirstPlaces::new(alloc);
    let mut distinct = Vec::new(alloc);
    for proc in procs {
        add_distinct(alloc, &mut seen, &mut distinct, module_node(alloc, proc)?)?;
    }
    Ok(distinct)
}

/// Returns the foci of those of some procedures that are within a focus, in their order.
///
/// # Errors
///
/// `NoMemory` where memory runs out.
pub fn procedure_foci(alloc: Global, focus: &[u8], procs: &[&Proc]) -> Result<Vec<Text>, NoMemory>
    ensures { IfOk result (λ foci. foci.items ≡ procedure_foci focus.now (map (λ proc. proc.now) procs.now)) }
{
    let nodes = procedure_nodes(alloc, procs)?;
    foci_at(alloc, focus, &nodes)
}

/// Returns the foci of their modules, each where its first procedure stands.
///
/// # Errors
///
/// `NoMemory` where memory runs out.
pub fn module_foci(alloc: Global, focus: &[u8], procs: &[&Proc]) -> Result<Vec<Text>, NoMemory>
    ensures { IfOk result (λ foci. foci.items ≡ module_foci focus.now (map (λ proc. proc.now) procs.now)) }
{
    let nodes = module_nodes(alloc, procs)?;
    foci_at(alloc, focus, &nodes)
}
