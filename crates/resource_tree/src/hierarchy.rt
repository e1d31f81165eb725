//! The three hierarchies of resources.

ghost use Rattle.std.specs.Prelude.{◌≡◌};
ghost use Rattle.resource_tree.specs.FocusTexts.{axis_name, depth, has, without, every_axis};
ghost use Rattle.resource_tree.specs.FormStates.{is_any, lettered};

use pn_types::Axis;

/// How the hierarchy is written.
pub(crate) fn axis_name<'a>(axis: Axis) -> &'a [u8]
    ensures { result.now ≡ axis_name axis }
{
    match axis {
        Axis::Code => b"/Code",
        Axis::Machine => b"/Machine",
        Axis::SyncObject => b"/SyncObject",
    }
}

/// How many names can stand below the hierarchy.
pub(crate) fn depth(axis: Axis) -> u32
    ensures { result ≡ depth axis }
{
    match axis {
        Axis::Code => 2,
        Axis::Machine | Axis::SyncObject => 1,
    }
}

/// Some of the hierarchies.
#[derive(Clone, Copy, Drop)]
pub(crate) struct Axes {
    code: bool,
    machine: bool,
    sync_object: bool,
}

impl Axes {
    /// All three.
    pub(crate) fn every() -> Axes
        ensures { result ≡ every_axis }
    {
        Axes {
            code: true,
            machine: true,
            sync_object: true,
        }
    }

    /// These but one.
    pub(crate) fn without(self, axis: Axis) -> Axes
        ensures { result ≡ without self axis }
    {
        match axis {
            Axis::Code => Axes {
                code: false,
                ..self
            },
            Axis::Machine => Axes {
                machine: false,
                ..self
            },
            Axis::SyncObject => Axes {
                sync_object: false,
                ..self
            },
        }
    }

    /// Whether it is any.
    pub(crate) fn is_any(self) -> bool
        ensures { result ≡ is_any self }
    {
        self.code || self.machine || self.sync_object
    }

    /// The one of these whose name has the byte after its `/`.
    pub(crate) fn lettered(self, byte: u8) -> Option<Axis>
        ensures { result ≡ lettered self byte }
    {
        match byte {
            b'C' if self.code => Some(Axis::Code),
            b'M' if self.machine => Some(Axis::Machine),
            b'S' if self.sync_object => Some(Axis::SyncObject),
            _ => None,
        }
    }
}
