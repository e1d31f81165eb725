//! The names of harts.

ghost use Rattle.std.specs.Prelude.{◌≡◌, ◌<◌, ◌≤◌, ◌++◌, OnOk, position};
ghost use Rattle.std.specs.Str.{bytes_eq};
ghost use Rattle.resource_tree.specs.Foci.{hart_name, hart_names, hart_text};

use pn_types::{HartNo, MAX_HARTS, NoMemory};
use std::alloc::Global;

/// Whether the name is that of the hart.
fn is_hart(name: &[u8], number: u32) -> bool
    requires { number < MAX_HARTS }
    ensures { result ≡ bytes_eq name.now (hart_name number) }
{
    let ones = b'0' + (number % 10) as u8;
    if number < 10 {
        return name == [b'h', b'a', b'r', b't', ones].as_slice();
    }
    let tens = b'0' + (number / 10) as u8;
    name == [b'h', b'a', b'r', b't', tens, ones].as_slice()
}

/// The hart of this name, out of `harts` harts.
pub(crate) fn hart_named(name: &[u8], harts: u32) -> Option<HartNo>
    requires { harts ≤ MAX_HARTS }
    ensures { result ≡ position (bytes_eq name.now) (hart_names harts) }
{
    for number in 0..harts {
        if is_hart(name, number) {
            return Some(HartNo::numbered(number));
        }
    }
    None
}

/// Adds a hart's name after a `/`.
pub(crate) fn add_hart(
    alloc: Global,
    text: &mut Vec<u8>,
    hart: Option<HartNo>,
) -> Result<(), NoMemory>
    ensures { OnOk result (text.new.items ≡ text.old.items ++ hart_text hart) }
{
    if let Some(hart) = hart {
        let number = hart.get();
        let name = format!(in alloc; "/hart{number}")?;
        text.extend_from_slice(name.as_bytes())?;
    }
    Ok(())
}
