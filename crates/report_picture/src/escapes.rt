//! Texts as XML and HTML have them.

ghost use Rattle.std.specs.Prelude.{◌≡◌, ◌==◌, ◌++◌, flat_map, length, take, IfOk, OnOk};
ghost use Rattle.std.specs.List.{list_any};
ghost use Rattle.std.specs.Str.Lossy.{utf8_valid_len};
ghost use Rattle.report_picture.specs.Escapes.{clipped, escaped, escaped_byte, escaped_pair, is_allowed};

use pn_types::NoMemory;
use std::alloc::Global;

/// Returns whether a text is UTF-8.
fn is_utf8(text: &[u8]) -> bool
    ensures { result ≡ (utf8_valid_len text.now == length text.now) }
{
    match str::from_utf8(text) {
        Ok(_) => true,
        Err(_) => false,
    }
}

/// Returns whether a text has the byte that begins the characters from U+F000 to U+FFFF.
fn has_last_characters(text: &[u8]) -> bool
    ensures { result ≡ list_any (λ byte. byte == 239) text.now }
{
    text.iter().any(|byte| *byte == 239)
}

/// Returns whether XML allows all characters of a text that are above ASCII.
#[tactic(auto, unfolding(crate::specs::Escapes::is_allowed))]
fn is_allowed(text: &[u8]) -> bool
    ensures { result ≡ is_allowed text.now }
{
    is_utf8(text) && !has_last_characters(text)
}

/// Adds a byte of a text, of which XML allows all characters above ASCII or doesn't.
fn add_escaped_byte(out: &mut Vec<u8>, allowed: bool, byte: u8) -> Result<(), NoMemory>
    ensures { OnOk result (out.new.items ≡ out.old.items ++ escaped_byte allowed byte) }
{
    match byte {
        b'&' => out.extend_from_slice(b"&amp;"),
        b'<' => out.extend_from_slice(b"&lt;"),
        b'>' => out.extend_from_slice(b"&gt;"),
        b'"' => out.extend_from_slice(b"&quot;"),
        b' '..=b'~' => out.extend_from_slice(&[byte]),
        128..=255 if allowed => out.extend_from_slice(&[byte]),
        _ => out.extend_from_slice(b"?"),
    }
}

/// Adds the bytes of a text.
fn add_escaped_bytes(out: &mut Vec<u8>, allowed: bool, text: &[u8]) -> Result<(), NoMemory>
    ensures { OnOk result (out.new.items ≡ out.old.items ++ flat_map (escaped_byte allowed) text.now) }
{
    for byte in text {
        add_escaped_byte(out, allowed, *byte)?;
    }
    Ok(())
}

/// Adds a text so that it neither begins nor ends an element, an entity or an attribute.
///
/// # Errors
///
/// `NoMemory` where memory runs out.
#[tactic(auto, unfolding(crate::specs::Escapes::escaped))]
pub fn add_escaped(out: &mut Vec<u8>, text: &[u8]) -> Result<(), NoMemory>
    ensures { OnOk result (out.new.items ≡ out.old.items ++ escaped text.now) }
{
    add_escaped_bytes(out, is_allowed(text), text)
}

/// Adds a name at a focus.
///
/// # Errors
///
/// `NoMemory` where memory runs out.
#[tactic(auto, unfolding(crate::specs::Escapes::escaped_pair))]
pub fn add_pair(out: &mut Vec<u8>, name: &[u8], focus: &[u8]) -> Result<(), NoMemory>
    ensures { OnOk result (out.new.items ≡ out.old.items ++ escaped_pair name.now focus.now) }
{
    add_escaped(out, name)?;
    out.extend_from_slice(b" ")?;
    add_escaped(out, focus)
}

/// Returns the first so many bytes of a text.
fn first_bytes(text: &[u8], most: usize) -> &[u8]
    ensures { result.now ≡ take most text.now }
{
    text.split_at(text.len().min(most)).0
}

/// Returns a text, or the beginning of a long one and dots.
#[tactic(auto, unfolding(crate::specs::Escapes::clipped))]
fn clipped(alloc: Global, text: &[u8]) -> Result<Vec<u8>, NoMemory>
    ensures { IfOk result (λ clip. clip.items ≡ clipped text.now) }
{
    if text.len() <= 90 {
        return Vec::from_slice(alloc, text);
    }
    let mut clip = Vec::from_slice(alloc, first_bytes(text, 87))?;
    clip.extend_from_slice(b"...")?;
    Ok(clip)
}

/// Adds a text, or the beginning of a long one and dots.
///
/// # Errors
///
/// `NoMemory` where memory runs out.
pub fn add_clipped(alloc: Global, out: &mut Vec<u8>, text: &[u8]) -> Result<(), NoMemory>
    ensures { OnOk result (out.new.items ≡ out.old.items ++ escaped (clipped text.now)) }
{
    let clip = clipped(alloc, text)?;
    add_escaped(out, &clip)
}
