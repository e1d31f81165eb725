//! Places in a text.

ghost use Rattle.std.specs.Prelude.{◌≡◌, ◌+◌, ◌<◌, ◌≤◌, ◌^◌, length};
ghost use Rattle.pn_text.specs.Places.{behind_byte, after_bytes, IsPlaceWithin};

/// A place in a text.
#[derive(Clone, Copy, Debug, PartialEq, Eq, Drop)]
pub struct Place {
    /// How many bytes stand before it.
    pub at: usize,
    /// The number of its line, from 1. An LF ends a line.
    pub line: u32,
    /// The number of its column in bytes, from 1.
    pub col: u32,
}

/// The number of a line's first column.
const FIRST_COLUMN: u32 = 1;

impl Place {
    /// The place of a text's first byte.
    pub const FIRST: Place = Place {
        at: 0,
        line: 1,
        col: FIRST_COLUMN,
    };
}

/// The place after a byte.
fn behind_byte(place: Place, byte: u8) -> Place
    requires at { place.at + 1 < 2 ^ 64 }
    requires line { place.line + 1 < 2 ^ 32 }
    requires col { place.col + 1 < 2 ^ 32 }
    ensures { result ≡ behind_byte place byte }
{
    if byte == b'\n' {
        Place {
            at: place.at + 1,
            line: place.line + 1,
            col: FIRST_COLUMN,
        }
    } else {
        Place {
            at: place.at + 1,
            line: place.line,
            col: place.col + 1,
        }
    }
}

/// The place after the bytes.
pub(crate) fn behind_bytes(place: Place, bytes: &[u8]) -> Place
    requires within { IsPlaceWithin place }
    requires short { place.at + length bytes.now + 1 < 2 ^ 32 }
    ensures behind { result ≡ after_bytes place bytes.now }
    ensures at { result.at ≡ place.at + length bytes.now }
    ensures within { IsPlaceWithin result }
{
    let mut behind = place;
    for byte in bytes {
        behind = behind_byte(behind, *byte);
    }
    behind
}
