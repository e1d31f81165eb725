//! The objects of a program.

ghost use Rattle.std.specs.Prelude.{◌≡◌, ◌<◌, IfOk};
ghost use Rattle.std.specs.List.{list_any, AllByRecursion};
ghost use Rattle.code_points.specs.Objects.{end_of, holds_range, is_outside, is_data, objects_of};
ghost use Rattle.pn_types.specs.Images.{IsImage};
ghost use Rattle.pn_types.specs.declared.limits.TheConstants.{SEGMENTS_TO};

use pn_types::{Image, NoMemory, Segment, SymKind, Symbol};
use std::alloc::Global;

/// Where the range of a symbol ends. One without a size is its one address.
fn end_of(symbol: &Symbol) -> u128
    ensures { result ≡ end_of symbol.now }
{
    let size = if symbol.size == 0 { 1 } else { symbol.size };
    symbol.at as u128 + size as u128
}

/// Whether the range lies in the segment.
fn holds_range(first: u128, last: u128, segment: &Segment) -> bool
    ensures { result ≡ holds_range first last segment.now }
{
    segment.at as u128 <= first && last <= segment.at as u128 + segment.size as u128
}

/// Whether the range lies in one of the segments.
fn is_mapped(segments: &[Segment], first: u128, last: u128) -> bool
    ensures { result ≡ list_any (holds_range first last) segments.now }
{
    segments
        .iter()
        .any(|segment| holds_range(first, last, segment))
}

/// Whether no byte of the range is one of the text.
fn is_outside(image: &Image, first: u128, last: u128) -> bool
    ensures { result ≡ is_outside image.now first last }
{
    last <= image.text_at as u128 || image.text_at as u128 + image.text_len as u128 <= first
}

/// Whether the symbol is an object that lies in one segment and outside the text.
fn is_data(image: &Image, symbol: &Symbol) -> bool
    ensures { result ≡ is_data image.now symbol.now }
{
    let first = symbol.at as u128;
    let last = end_of(symbol);
    matches!(symbol.kind, SymKind::Object)
        && is_mapped(image.segments.as_slice(), first, last)
        && is_outside(image, first, last)
}

/// Returns the objects of a program, in the order of the image's symbols: the object symbols that lie in one segment and outside
/// the text. One without a size is its one address. So each lies below where segments end.
///
/// # Errors
///
/// `NoMemory` where memory runs out.
pub fn objects(alloc: Global, image: &Image) -> Result<Vec<Symbol>, NoMemory>
    ensures objects { IfOk result (λ objects. objects.items ≡ objects_of image.now) }
    ensures low { IsImage image.now → IfOk result (λ objects. AllByRecursion (λ s. s.at < SEGMENTS_TO) objects.items) }
{
    let mut objects = Vec::new(alloc);
    for symbol in image.symbols.as_slice() {
        if is_data(image, symbol) {
            objects.push(symbol.copy(alloc)?)?;
        }
    }
    Ok(objects)
}
