//! Some of the hierarchies of resources.

ghost use Rattle.std.specs.Prelude.{◌≡◌, ◌<◌, ◌^◌, length, slice_get};
ghost use Rattle.std.specs.List.{list_any};
ghost use Rattle.std.specs.Str.{bytes_eq};
ghost use Rattle.w3_search.specs.Refining.{axes_named, finer, finer_on};

use pn_types::{Axis, Focus, Text};
use resource_tree::Tree;

/// The hierarchies along which a hypothesis is refined.
#[derive(Clone, Copy, Drop)]
pub(crate) struct AxisSet {
    code: bool,
    machine: bool,
    sync_object: bool,
}

/// Whether a name is one of these.
fn is_named(names: &[Text], name: &[u8]) -> bool
    ensures { result ≡ list_any (bytes_eq name.now) names.now }
{
    names.iter().any(|other| name == other.bytes())
}

/// How many foci stand just below on an axis, if it is wanted.
fn count_on(tree: &Tree, focus: &Focus, wanted: bool, axis: Axis) -> u32
    ensures { result ≡ length (finer_on tree.now focus.now wanted axis) }
{
    if wanted {
        tree.child_count(focus, axis)
    } else {
        0
    }
}

/// The focus of this number, from 0, of those just below on an axis that is wanted where the number is within them.
fn focus_on(tree: &Tree, focus: &Focus, wanted: bool, axis: Axis, number: u32) -> Option<Focus>
    requires { number < length (finer_on tree.now focus.now wanted axis) }
    ensures { result ≡ slice_get (finer_on tree.now focus.now wanted axis) number }
{
    tree.child(focus, axis, number)
}

impl AxisSet {
    /// The hierarchies that are named.
    pub(crate) fn named(names: &[Text]) -> AxisSet
        ensures { result ≡ axes_named names.now }
    {
        AxisSet {
            code: is_named(names, b"Code"),
            machine: is_named(names, b"Machine"),
            sync_object: is_named(names, b"SyncObject"),
        }
    }

    /// The focus of this number, from 0, of those just below on these axes, in the order of the axes. None exactly where
    /// the number isn't below that of these foci.
    pub(crate) fn finer(self, tree: &Tree, focus: &Focus, number: usize) -> Option<Focus>
        ensures { result ≡ slice_get (finer tree.now focus.now self) number }
    {
        let in_code = count_on(tree, focus, self.code, Axis::Code) as usize;
        if number < in_code {
            return focus_on(tree, focus, self.code, Axis::Code, number as u32);
        }
        let number = number - in_code;
        let in_machine = count_on(tree, focus, self.machine, Axis::Machine) as usize;
        if number < in_machine {
            return focus_on(tree, focus, self.machine, Axis::Machine, number as u32);
        }
        let number = number - in_machine;
        let objects = count_on(tree, focus, self.sync_object, Axis::SyncObject) as usize;
        if number < objects {
            return focus_on(
                tree,
                focus,
                self.sync_object,
                Axis::SyncObject,
                number as u32,
            );
        }
        None
    }

    /// How many foci stand just below on these axes.
    pub(crate) fn finer_count(self, tree: &Tree, focus: &Focus) -> usize
        ensures count { result ≡ length (finer tree.now focus.now self) }
        ensures few { result < 2 ^ 34 }
    {
        let in_code = count_on(tree, focus, self.code, Axis::Code) as usize;
        let in_machine = count_on(tree, focus, self.machine, Axis::Machine) as usize;
        in_code + in_machine + count_on(tree, focus, self.sync_object, Axis::SyncObject) as usize
    }
}
