//! Addresses and names as words give them, parted by commas.

ghost use Rattle.std.specs.Prelude.{◌≡◌, ◌+◌, ◌*◌, ◌<◌, ◌∷◌, IfOk, IfSome, length, map, option_map, position};
ghost use Rattle.std.specs.List.{slice_split};
ghost use Rattle.std.specs.Option.{option_and_then};
ghost use Rattle.command_words.specs.Addresses.{hex_digit, hex_from, narrow, address_of, is_comma, parts_left, are_addresses, addresses_of};

use pn_types::NoMemory;
use std::alloc::Global;

/// Returns what a hexadecimal digit counts, in either case.
fn hex_digit(byte: u8) -> Option<u64>
    ensures { result ≡ hex_digit byte }
{
    let digit = match byte {
        b'0'..=b'9' => byte - b'0',
        b'a'..=b'f' => byte - 87,
        b'A'..=b'F' => byte - 55,
        _ => return None,
    };
    Some(digit as u64)
}

/// Returns the number of a number's hexadecimal digits and one more, if it has 64 bits.
fn with_digit(value: u64, byte: u8) -> Option<u64>
    ensures { result ≡ option_and_then (λ digit. narrow (value * 16 + digit)) (hex_digit byte) }
{
    let digit = hex_digit(byte)?;
    value.checked_mul(16)?.checked_add(digit)
}

/// Returns the number of these digits.
fn hex(digits: &[u8]) -> Option<u64>
    ensures { result ≡ hex_from 0 digits.now }
{
    let mut value = 0u64;
    for byte in digits {
        value = with_digit(value, *byte)?;
    }
    Some(value)
}

/// Returns the address that the text spells: `0x` and hexadecimal digits.
fn address(text: &[u8]) -> Option<u64>
    ensures { result ≡ address_of text.now }
{
    if text.starts_with(b"0x") && text.len() > 2 {
        hex(&text[2..])
    } else {
        None
    }
}

/// Returns where the first comma stands.
fn first_comma(text: &[u8]) -> Option<usize>
    ensures { result ≡ position is_comma text.now }
{
    text.iter().position(|byte| *byte == b',')
}

/// Returns the part of the text before its first comma, and what follows the comma.
fn first_part(text: &[u8]) -> (&[u8], Option<&[u8]>)
    ensures parts { slice_split is_comma text.now ≡ result.0.now ∷ parts_left (option_map (λ rest. rest.now) result.1) }
    ensures shorter { IfSome result.1 (λ rest. length rest.now < length text.now) }
{
    match first_comma(text) {
        Some(end) => (&text[..end], Some(&text[end + 1..])),
        None => (text, None),
    }
}

/// Returns whether each part of the text between commas is an address.
pub(crate) fn are_addresses(text: &[u8]) -> bool
    ensures { result ≡ are_addresses text.now }
{
    let mut left = Some(text);
    while let Some(text) = left {
        let (part, rest) = first_part(text);
        if address(part).is_none() {
            return false;
        }
        left = rest;
    }
    true
}

/// Returns the addresses in a text that commas part.
///
/// # Errors
///
/// `NoMemory` where memory runs out.
pub fn addresses(alloc: Global, text: &str) -> Result<Vec<u64>, NoMemory>
    ensures { IfOk result (λ addresses. addresses.items ≡ addresses_of text.now) }
{
    let mut addresses = Vec::new(alloc);
    let mut left = Some(text.as_bytes());
    while let Some(text) = left {
        let (part, rest) = first_part(text);
        if let Some(address) = address(part) {
            addresses.push(address)?;
        }
        left = rest;
    }
    Ok(addresses)
}

/// Returns the names of metrics in a text that commas part.
///
/// # Errors
///
/// `NoMemory` where memory runs out.
pub fn metric_names<'a>(alloc: Global, text: &'a str) -> Result<Vec<&'a [u8]>, NoMemory>
    ensures { IfOk result (λ names. map (λ name. name.now) names.items ≡ slice_split is_comma text.now) }
{
    let mut names = Vec::new(alloc);
    let mut left = Some(text.as_bytes());
    while let Some(text) = left {
        let (part, rest) = first_part(text);
        names.push(part)?;
        left = rest;
    }
    Ok(names)
}
