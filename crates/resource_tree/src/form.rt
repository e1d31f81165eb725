//! The form of focus texts.

ghost use Rattle.std.specs.Prelude.{◌≡◌, ◌<◌, IsTrue, MatchOption, length, slice_get};
ghost use Rattle.pn_types.specs.GoodNames.{is_name_byte};
ghost use Rattle.resource_tree.specs.FocusTexts.{IsFocusText, IsFaultAt};
ghost use Rattle.resource_tree.specs.FormStates.{form_after, behind_name, in_hierarchy, is_byte, is_whole};

use crate::hierarchy::{Axes, axis_name, depth};
use pn_types::{Axis, is_good_name};

/// Whether a byte can stand in a good name.
fn is_name_byte(byte: u8) -> bool
    ensures { result ≡ is_name_byte byte }
{
    is_good_name(&[byte])
}

/// The greatest length of a name.
const NAME_LIMIT: usize = 200;

/// What stands before a byte of a focus text.
#[derive(Clone, Copy, Drop)]
enum Stage {
    /// Nothing of the part.
    Start,
    /// The `/` of a hierarchy.
    Slash,
    /// The first bytes of a hierarchy, this many, but not all.
    Hierarchy(Axis, usize),
    /// A whole hierarchy, and how many names can stand below it.
    End(u32),
    /// A `/`, below which this many further names can stand, and this many bytes of a name.
    Name(u32, usize),
}

/// The state after the first bytes of a focus text.
#[derive(Clone, Copy, Drop)]
struct FormState {
    /// The hierarchies that can still come.
    left: Axes,
    stage: Stage,
}

/// The state after the first bytes of a hierarchy, `len` of them.
fn in_hierarchy(left: Axes, axis: Axis, len: usize) -> FormState
    ensures { result ≡ in_hierarchy left axis len }
{
    if len == axis_name(axis).len() {
        return FormState {
            left: left.without(axis),
            stage: Stage::End(depth(axis)),
        };
    }
    FormState {
        left,
        stage: Stage::Hierarchy(axis, len),
    }
}

/// The state after a byte that follows a whole hierarchy or name, below which `levels` names can stand.
fn behind_name(left: Axes, levels: u32, byte: u8) -> Option<FormState>
    ensures { result ≡ behind_name left levels byte }
{
    if byte == b'/' && 0 < levels {
        let stage = Stage::Name(levels - 1, 0);
        return Some(FormState { left, stage });
    }
    if byte == b',' && left.is_any() {
        let stage = Stage::Start;
        return Some(FormState { left, stage });
    }
    None
}

/// Whether the text has this byte at the place.
fn is_byte(text: &[u8], place: usize, byte: u8) -> bool
    ensures found { result ≡ is_byte (slice_get text.now place) byte }
    ensures within { IsTrue result → place < length text.now }
{
    match text.get(place) {
        Some(found) => *found == byte,
        None => false,
    }
}

impl FormState {
    /// The state after one more byte. None where no focus text goes on with it.
    fn after(self, byte: u8) -> Option<FormState>
        ensures { result ≡ form_after self byte }
    {
        let left = self.left;
        match self.stage {
            Stage::Start => {
                let stage = Stage::Slash;
                if byte == b'/' {
                    Some(FormState { left, stage })
                } else {
                    None
                }
            }
            Stage::Slash => {
                let stage = Stage::Hierarchy(left.lettered(byte)?, 2);
                Some(FormState { left, stage })
            }
            Stage::Hierarchy(axis, len) => {
                if !is_byte(axis_name(axis), len, byte) {
                    return None;
                }
                Some(in_hierarchy(left, axis, len + 1))
            }
            Stage::End(levels) => behind_name(left, levels, byte),
            Stage::Name(levels, len) => {
                if is_name_byte(byte) && len < NAME_LIMIT {
                    let stage = Stage::Name(levels, len + 1);
                    return Some(FormState { left, stage });
                }
                if 0 < len {
                    behind_name(left, levels, byte)
                } else {
                    None
                }
            }
        }
    }

    /// Whether a focus text can end here.
    fn is_whole(self) -> bool
        ensures { result ≡ is_whole self.stage }
    {
        match self.stage {
            Stage::Start | Stage::Slash | Stage::Hierarchy(_, _) => false,
            Stage::End(_) => true,
            Stage::Name(_, len) => 0 < len,
        }
    }
}

/// The first byte at which no focus text goes on, or the length of a text that ends too early. None exactly where the
/// text has the form of a focus.
pub(crate) fn form_fault(text: &[u8]) -> Option<usize>
    ensures { MatchOption result (IsFocusText text.now) (IsFaultAt text.now) }
{
    let mut state = FormState {
        left: Axes::every(),
        stage: Stage::Start,
    };
    for (number, byte) in text.iter().enumerate() {
        match state.after(*byte) {
            Some(next) => state = next,
            None => return Some(number),
        }
    }
    if state.is_whole() {
        None
    } else {
        Some(text.len())
    }
}
