//! Where the parts of a file stand.

ghost use Rattle.std.specs.Prelude.{◌≡◌, ◌+◌, ◌*◌, ◌<◌, ◌^◌, length, sum_by};
ghost use Rattle.elf_write.specs.Fields.{padded};
ghost use Rattle.elf_write.specs.Layout.{segments_bytes, segments_at, place_from};

use crate::fields::padding;
use pn_types::Segment;

/// Where the parts of a file stand, in bytes from its beginning.
#[derive(Clone, Copy, Drop)]
pub struct Places {
    /// The text.
    pub text: u64,
    /// The symbol table.
    pub symbols: u64,
    /// The string table.
    pub strings: u64,
    /// The section headers.
    pub sections: u64,
}

/// Returns the length of a part with the zeros after it.
#[tactic(auto, unfolding(crate::specs::Fields::padded))]
pub fn padded_len(part: &[u8]) -> u64
    requires { length part.now < 2 ^ 63 }
    ensures { result ≡ length (padded part.now) }
{
    part.len() as u64 + padding(part.len() as u64)
}

/// Returns the length of the segments' bytes, each with the zeros after it.
pub fn segments_len(segments: &[Segment]) -> u64
    requires few { length segments.now < 2 ^ 16 }
    requires small { sum_by (λ s. length s.bytes) segments.now < 2 ^ 32 }
    ensures length { result ≡ length (segments_bytes segments.now) }
    ensures bound { result < 2 ^ 33 }
{
    let mut len = 0;
    for segment in segments {
        len += padded_len(segment.bytes.as_slice());
    }
    len
}

/// Returns where the segments' bytes begin.
pub fn segments_at(segments: &[Segment]) -> u64
    requires { length segments.now < 2 ^ 16 }
    ensures { result ≡ segments_at segments.now }
{
    64 + 56 * segments.len() as u64
}

/// Returns the place of an address, where it is in the bytes of a segment, and 0 elsewhere.
pub fn place_of(address: u64, segments: &[Segment]) -> u64
    requires few { length segments.now < 2 ^ 16 }
    requires small { sum_by (λ s. length s.bytes) segments.now < 2 ^ 32 }
    ensures { result ≡ place_from address (segments_at segments.now) segments.now }
{
    let mut place = segments_at(segments);
    for segment in segments {
        let bytes = segment.bytes.as_slice();
        if segment.at <= address && address - segment.at < bytes.len() as u64 {
            return place + (address - segment.at);
        }
        place += padded_len(bytes);
    }
    0
}
