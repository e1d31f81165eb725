//! The place of a node in a search: its phase, hypothesis and focus, as the key of an index.

ghost use Rattle.std.specs.Prelude.{◌≡◌};
ghost use Rattle.w3_search.specs.Nodes.{place};

use pn_types::{CodePart, Focus, HartNo};

/// Where a node stands, in plain numbers: its phase, its hypothesis and the parts of its focus.
#[derive(Clone, Copy, Debug, PartialEq, Eq, Hash, Drop)]
pub(crate) struct NodePlace {
    phase: u32,
    hypothesis: u32,
    code: CodePart,
    hart: Option<u32>,
    object: Option<u32>,
}

/// The number of a hart, if any.
fn number_of(hart: Option<HartNo>) -> Option<u32>
    ensures { result ≡ hart }
{
    match hart {
        Some(hart) => Some(hart.get()),
        None => None,
    }
}

impl NodePlace {
    /// The place of a hypothesis at a focus in a phase.
    pub(crate) fn new(phase: u32, hypothesis: u32, focus: &Focus) -> NodePlace
        ensures { result ≡ place phase hypothesis focus.now }
    {
        NodePlace {
            phase,
            hypothesis,
            code: focus.code,
            hart: number_of(focus.hart),
            object: focus.object,
        }
    }
}
