//! The procedures that sets select.

ghost use Rattle.std.specs.Prelude.{◌≡◌, ◌<◌, ◌==◌, ◌^◌, ℕ, true, IfOk, length};
ghost use Rattle.std.specs.List.{list_any};
ghost use Rattle.resource_tree.specs.Foci.{part};
ghost use Rattle.mdl_plan.specs.Choosing.{in_set};
ghost use Rattle.mdl_plan.specs.Scopes.{scope, ArePassing};

use crate::index::PlanIndex;
use mdl_ast::Set;
use pn_types::{Focus, NoMemory};
use resource_tree::Tree;
use std::alloc::Global;
use std::marker::Model;

/// What tells the procedures of a set: a focus on the nodes of a tree, and the index of all procedures.
#[derive(Drop)]
pub(crate) struct Scope<'a> {
    tree: &'a Tree,
    focus: &'a Focus,
    index: &'a PlanIndex,
}

impl<'a> Model for Scope<'a> {
    ghost use Rattle.resource_tree.specs.Foci.{part};
    ghost use Rattle.mdl_plan.specs.Scopes.{Scope, scope};

    ghost Value = { Scope };

    ghost view = { λ s. scope (part s.tree.now s.focus.now).procs s.index.now.procs };
}

/// The numbers of all procedures, of which there are `procs`.
fn all_procs(alloc: Global, procs: u32) -> Result<Vec<u32>, NoMemory>
    ensures { IfOk result (λ all. (q : ℕ) → q < procs → list_any (λ r. r == q) all.items ≡ true) }
{
    let mut all = Vec::new(alloc);
    for proc_no in 0..procs {
        all.push(proc_no)?;
    }
    Ok(all)
}

impl<'a> Scope<'a> {
    /// The scope of the index's procedures at a focus.
    pub(crate) fn new(tree: &'a Tree, focus: &'a Focus, index: &'a PlanIndex) -> Scope<'a>
        ensures { result ≡ scope (part tree.now focus.now).procs index.now.procs }
    {
        Scope { tree, focus, index }
    }

    /// How many procedures there are.
    pub(crate) fn len(&self) -> usize
        ensures len { result ≡ length self.now.procs }
        ensures few { result < 2 ^ 32 }
    {
        self.index.procs().len()
    }

    /// The numbers of the procedures of a set. One can stand there more than once.
    pub(crate) fn selected(&self, alloc: Global, set: &Set) -> Result<Vec<u32>, NoMemory>
        ensures { IfOk result (λ found. ArePassing self.now.procs (in_set self.now.selected set.now) found.items) }
    {
        let procs = self.len() as u32;
        match set {
            Set::Focus => self.tree.procs(alloc, self.focus),
            Set::All => all_procs(alloc, procs),
            Set::Names(names) => self.index.with_any(alloc, names.as_slice()),
        }
    }
}
