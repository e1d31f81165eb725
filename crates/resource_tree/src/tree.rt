//! The tree of a program's resources.

ghost use Rattle.std.specs.Prelude.{◌≡◌, ◌<◌, ◌≤◌, ◌^◌, ℕ, IfOk, IfSome, OnOk, length, slice_get};
ghost use Rattle.std.specs.List.{AllByRecursion};
ghost use Rattle.std.specs.Option.{option_and_then};
ghost use Rattle.resource_tree.specs.Resources.{tree_of};
ghost use Rattle.resource_tree.specs.Names.{AreNamed, IsNamed};
ghost use Rattle.resource_tree.specs.Foci.{harts_of_node, part};

use crate::code::CodeTree;
use crate::objects::Objects;
use pn_types::{CodePart, Focus, MAX_HARTS, NoMemory, Proc, Symbol, Text};
use std::alloc::Global;
use std::marker::Model;

/// The tree of a program's resources: its modules and procedures, its harts, and its objects.
pub struct Tree {
    pub(crate) code: CodeTree,
    pub(crate) objects: Objects,
    pub(crate) harts: u32,
}

impl Model for Tree {
    ghost use Rattle.resource_tree.specs.Resources.{Resources, IsBounded};

    ghost Value = { Resources };

    ghost view = { λ t. record { code = t.code; objects = t.objects; harts = t.harts } };

    ghost invariant = { λ t. IsBounded (record { code = t.code; objects = t.objects; harts = t.harts }) };
}

// A function of its own, so that what drops it need not prove the drops of all its parts.
impl Drop for Tree {
    fn drop(self) {
        let Tree {
            code: _,
            objects: _,
            harts: _,
        } = self;
    }
}

impl Tree {
    /// Returns the tree of these procedures, object symbols and harts. Modules stand in the order of their first procedures,
    /// and the procedures of each in the order given. The objects are those symbols that have a good name which begins
    /// with one of the prefixes, in the order given, the first of each name.
    ///
    /// # Errors
    ///
    /// `NoMemory` where memory runs out.
    pub fn build(
        alloc: Global,
        procs: &[Proc],
        objects: &[Symbol],
        harts: u32,
        prefixes: &[Text],
    ) -> Result<Tree, NoMemory>
        requires harts { harts ≤ MAX_HARTS }
        requires procs { length procs.now < 2 ^ 32 }
        requires objects { length objects.now < 2 ^ 32 }
        ensures tree { IfOk result (λ tree. tree ≡ tree_of procs.now objects.now harts prefixes.now) }
        ensures named { AreNamed procs.now → IfOk result IsNamed }
        // Objects lie where their symbols do, so below what these are below.
        ensures low { (n : ℕ) → AllByRecursion (λ s. s.at < n) objects.now
            → IfOk result (λ tree. AllByRecursion (λ o. o.at < n) tree.objects) }
    {
        Ok(Tree {
            code: CodeTree::of(alloc, procs)?,
            objects: Objects::of(alloc, objects, prefixes)?,
            harts,
        })
    }

    /// Returns an equal tree.
    ///
    /// # Errors
    ///
    /// `NoMemory` where memory runs out.
    pub fn copy(&self, alloc: Global) -> Result<Tree, NoMemory>
        ensures { IfOk result (λ copy. copy ≡ self.now) }
    {
        Ok(Tree {
            code: self.code.copy(alloc)?,
            objects: self.objects.copy(alloc)?,
            harts: self.harts,
        })
    }

    /// Returns the first hart that the focus selects, and how many it selects.
    pub fn harts(&self, focus: &Focus) -> (u32, u32)
        ensures { result ≡ harts_of_node self.now.harts focus.now.hart }
    {
        match focus.hart {
            None => (0, self.harts),
            Some(hart) => (hart.get(), 1),
        }
    }

    /// Returns the numbers of the procedures that the focus selects, in the order of the tree.
    ///
    /// # Errors
    ///
    /// `NoMemory` where memory runs out.
    pub fn procs(&self, alloc: Global, focus: &Focus) -> Result<Vec<u32>, NoMemory>
        ensures { IfOk result (λ procs. procs.items ≡ (part self.now focus.now).procs) }
    {
        match focus.code {
            CodePart::All => self.code.all(alloc),
            CodePart::Module(module_no) => {
                let members = self.code.members(module_no);
                Ok(Vec::from_slice(alloc, members)?)
            }
            CodePart::Procedure(proc_no) => Ok(vec![in alloc; proc_no]?),
        }
    }

    /// Returns the address of the object that the focus selects. None exactly where it selects none.
    pub fn object_at(&self, focus: &Focus) -> Option<u64>
        ensures { result ≡ (part self.now focus.now).object }
    {
        self.objects.at(focus.object? as usize)
    }
}
