//! The search.

ghost use Rattle.std.specs.Prelude.{◌≡◌, ◌++◌, ◌∷◌, [], OnOk, codes, map};
ghost use Rattle.json.specs.Token.{key};
ghost use Rattle.json.specs.Tree.{json_tokens};
ghost use Rattle.report_json.specs.Report.{came_to, cause_or_null, node_value, origin, search_or_null, search_value};
ghost use Rattle.report_json.specs.Values.{array_of, named_tokens};

use crate::fields::{bar_cause, of_verdict, parent_of, seen_by, state_word};
use crate::members::{
    add_boolean, add_bytes, add_cause, add_natural, add_null, add_optional, add_string,
    begin_array, begin_object, end_array, end_object,
};
use json::Writer;
use pn_types::{NoMemory, PickCause};
use report::{NodePart, SearchPart};
use std::alloc::Global;
use w3_search::Node;

/// Adds where a node comes from, and its hypothesis and focus.
fn add_origin(alloc: Global, out: &mut Writer, part: &NodePart) -> Result<(), NoMemory>
    ensures before { OnOk result (out.new.before ≡ out.old.before) }
    ensures tokens { OnOk result (out.new.tokens ≡ out.old.tokens ++ named_tokens (origin part.now)) }
{
    add_bytes(alloc, out, "phase", part.phase.bytes())?;
    add_optional(out, "parent", parent_of(&part.node))?;
    add_bytes(alloc, out, "hypothesis", part.hypothesis.bytes())?;
    add_bytes(alloc, out, "focus", part.focus.bytes())
}

/// Adds why a node can't be tested, if it can't.
fn add_bar(alloc: Global, out: &mut Writer, cause: Option<PickCause>) -> Result<(), NoMemory>
    ensures before { OnOk result (out.new.before ≡ out.old.before) }
    ensures tokens { OnOk result (out.new.tokens ≡ out.old.tokens ++ key (codes "cause") ∷ json_tokens (cause_or_null cause)) }
{
    match cause {
        None => add_null(out, "cause"),
        Some(cause) => add_cause(alloc, out, cause),
    }
}

/// Adds what came of a node.
fn add_outcome(alloc: Global, out: &mut Writer, node: &Node) -> Result<(), NoMemory>
    ensures before { OnOk result (out.new.before ≡ out.old.before) }
    ensures tokens { OnOk result (out.new.tokens ≡ out.old.tokens ++ named_tokens (came_to node.now)) }
{
    let state = node.state;
    add_string(out, "state", state_word(state))?;
    add_optional(out, "seen", seen_by(state, node.seen))?;
    add_optional(out, "value", of_verdict(state, node.value))?;
    add_optional(out, "ticks", of_verdict(state, node.ticks))?;
    add_optional(out, "from", of_verdict(state, node.from))?;
    add_optional(out, "to", of_verdict(state, node.to))?;
    add_bar(alloc, out, bar_cause(state))
}

/// Adds a node.
fn add_node(alloc: Global, out: &mut Writer, part: &NodePart) -> Result<(), NoMemory>
    ensures before { OnOk result (out.new.before ≡ out.old.before) }
    ensures tokens { OnOk result (out.new.tokens ≡ out.old.tokens ++ json_tokens (node_value part.now)) }
{
    begin_object(out)?;
    add_origin(alloc, out, part)?;
    add_outcome(alloc, out, &part.node)?;
    end_object(out)
}

/// Adds the nodes, by number.
fn add_nodes(alloc: Global, out: &mut Writer, parts: &[NodePart]) -> Result<(), NoMemory>
    ensures before { OnOk result (out.new.before ≡ out.old.before) }
    ensures tokens { OnOk result (out.new.tokens ≡ out.old.tokens ++ key (codes "nodes") ∷ json_tokens (array_of (map node_value parts.now))) }
{
    begin_array(out, "nodes")?;
    for part in parts {
        add_node(alloc, out, part)?;
    }
    end_array(out)
}

/// Adds a search.
fn add_some_search(alloc: Global, out: &mut Writer, part: &SearchPart) -> Result<(), NoMemory>
    ensures before { OnOk result (out.new.before ≡ out.old.before) }
    ensures tokens { OnOk result (out.new.tokens ≡ out.old.tokens ++ json_tokens (search_value part.now)) }
{
    begin_object(out)?;
    add_boolean(out, "full", part.full)?;
    add_natural(out, "window", part.window as u64)?;
    add_nodes(alloc, out, part.nodes.as_slice())?;
    end_object(out)
}

/// Adds the search, if there was one.
pub(crate) fn add_search(
    alloc: Global,
    out: &mut Writer,
    part: &Option<SearchPart>,
) -> Result<(), NoMemory>
    ensures before { OnOk result (out.new.before ≡ out.old.before) }
    ensures tokens { OnOk result (out.new.tokens ≡ out.old.tokens ++ key (codes "search") ∷ json_tokens (search_or_null part.now)) }
{
    out.key("search")?;
    match part {
        None => out.null(),
        Some(part) => add_some_search(alloc, out, part),
    }
}
