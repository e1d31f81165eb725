//! The children of a focus.

ghost use Rattle.std.specs.Prelude.{◌≡◌, ◌≤◌, IfSome, length, slice_get};
ghost use Rattle.resource_tree.specs.Resources.{HasFewMembers};
ghost use Rattle.resource_tree.specs.Foci.{code_children, children, flat_children, IsFocusOf};

use crate::code::CodeTree;
use crate::tree::Tree;
use pn_types::{Axis, CodePart, Focus, HartNo, MAX_HARTS};

/// The child of a node of the code.
fn code_child(code: &CodeTree, node: CodePart, number: u32) -> Option<CodePart>
    ensures { result ≡ slice_get (code_children code.now node) number }
{
    match node {
        CodePart::All => {
            if number >= code.len() {
                return None;
            }
            Some(CodePart::Module(number))
        }
        CodePart::Module(module_no) => {
            let proc_no = code.members(module_no).get(number as usize)?;
            Some(CodePart::Procedure(*proc_no))
        }
        CodePart::Procedure(_) => None,
    }
}

/// The child of the machine's root, or of a hart.
fn hart_child(harts: u32, node: Option<HartNo>, number: u32) -> Option<Option<HartNo>>
    requires { harts ≤ MAX_HARTS }
    ensures { result ≡ slice_get (flat_children harts node) number }
{
    match node {
        Some(_) => None,
        None => {
            if number >= harts {
                return None;
            }
            Some(Some(HartNo::numbered(number)))
        }
    }
}

/// The child of the root of the objects, or of an object.
fn object_child(objects: u32, node: Option<u32>, number: u32) -> Option<Option<u32>>
    ensures { result ≡ slice_get (flat_children objects node) number }
{
    match node {
        Some(_) => None,
        None => {
            if number >= objects {
                return None;
            }
            Some(Some(number))
        }
    }
}

/// How many children a node of the code has.
fn code_count(code: &CodeTree, node: CodePart) -> u32
    requires { HasFewMembers (length code.now.procs) code.now.modules }
    ensures { result ≡ length (code_children code.now node) }
{
    match node {
        CodePart::All => code.len(),
        CodePart::Module(module_no) => code.member_count(module_no),
        CodePart::Procedure(_) => 0,
    }
}

/// How many children the machine's root, or a hart, has.
fn hart_count(harts: u32, node: Option<HartNo>) -> u32
    ensures { result ≡ length (flat_children harts node) }
{
    match node {
        Some(_) => 0,
        None => harts,
    }
}

/// How many children the root of the objects, or an object, has.
fn object_count(objects: u32, node: Option<u32>) -> u32
    ensures { result ≡ length (flat_children objects node) }
{
    match node {
        Some(_) => 0,
        None => objects,
    }
}

impl Tree {
    /// Returns how many children the focus has on an axis.
    pub fn child_count(&self, focus: &Focus, axis: Axis) -> u32
        ensures { result ≡ length (children self.now focus.now axis) }
    {
        match axis {
            Axis::Code => code_count(&self.code, focus.code),
            Axis::Machine => hart_count(self.harts, focus.hart),
            Axis::SyncObject => object_count(self.objects.len(), focus.object),
        }
    }

    /// Returns the focus's child of this number, from 0, on an axis, in the order of the tree. None exactly where the number
    /// isn't below that of the children.
    pub fn child(&self, focus: &Focus, axis: Axis, number: u32) -> Option<Focus>
        ensures child { result ≡ slice_get (children self.now focus.now axis) number }
        ensures in_tree { IsFocusOf self.now focus.now → IfSome result (IsFocusOf self.now) }
    {
        let mut child = *focus;
        match axis {
            Axis::Code => child.code = code_child(&self.code, focus.code, number)?,
            Axis::Machine => child.hart = hart_child(self.harts, focus.hart, number)?,
            Axis::SyncObject => {
                child.object = object_child(self.objects.len(), focus.object, number)?;
            }
        }
        Some(child)
    }
}
