//! Blanks, words and signs of a line.

ghost use Rattle.std.specs.Prelude.{◌≡◌, ◌≤◌, ◌<◌, false, length, IfSome};
ghost use Rattle.std.specs.Option.{option_map};
ghost use Rattle.std.specs.List.{prefix_len};
ghost use Rattle.rv_asm.specs.Bytes.{is_blank, is_name_byte, is_name, skip_blanks, word_of, after_name};
ghost use Rattle.rv_asm.specs.Tokens.{ends, sign_at, register_at, name_at, sized_at, number_at, pointer_at, string_len, string_at};

use crate::number::{Number, size};
use crate::registers::register_number;

fn is_blank(byte: u8) -> bool
    ensures { result ≡ is_blank byte }
{
    byte == b' ' || byte == b'\t'
}

fn is_name_byte(byte: u8) -> bool
    ensures { result ≡ is_name_byte byte }
{
    matches!(byte, b'a'..=b'z' | b'A'..=b'Z' | b'0'..=b'9' | b'_' | b'.')
}

/// How many blanks stand first.
fn blanks(text: &[u8]) -> usize
    ensures count { result ≡ prefix_len is_blank text.now }
    ensures within { result ≤ length text.now }
{
    text.iter().take_while(|byte| is_blank(**byte)).count()
}

/// How many bytes of names stand first.
fn name_bytes(text: &[u8]) -> usize
    ensures count { result ≡ prefix_len is_name_byte text.now }
    ensures within { result ≤ length text.now }
{
    text.iter().take_while(|byte| is_name_byte(**byte)).count()
}

/// What stands after the blanks.
#[tactic(auto, unfolding(crate::specs::Bytes::skip_blanks))]
pub(crate) fn skip_blanks(text: &[u8]) -> &[u8]
    ensures rest { result.now ≡ skip_blanks text.now }
    ensures shorter { length result.now ≤ length text.now }
{
    &text[blanks(text)..]
}

/// The bytes of names that stand first, and what stands after them.
#[tactic(auto, unfolding(crate::specs::Bytes::word_of, crate::specs::Bytes::after_name))]
pub(crate) fn word(text: &[u8]) -> (&[u8], &[u8])
    ensures word { result.0.now ≡ word_of text.now }
    ensures rest { result.1.now ≡ after_name text.now }
    ensures shorter { length result.1.now ≤ length text.now }
{
    text.split_at(name_bytes(text))
}

/// Whether the bytes of names are a name: they don't begin with a digit.
pub(crate) fn is_name(word: &[u8]) -> bool
    ensures { result ≡ is_name word.now }
{
    match word.first() {
        Some(byte) => *byte < b'0' || *byte > b'9',
        None => false,
    }
}

/// Whether nothing but blanks is left.
#[tactic(auto, unfolding(crate::specs::Tokens::ends))]
pub(crate) fn is_end(text: &[u8]) -> bool
    ensures { result ≡ ends text.now }
{
    skip_blanks(text).is_empty()
}

/// What stands after the sign, and None where another byte stands there.
#[tactic(auto, unfolding(crate::specs::Tokens::sign_at))]
pub(crate) fn sign(sign: u8, text: &[u8]) -> Option<&[u8]>
    ensures { option_map (λ rest. rest.now) result ≡ sign_at sign text.now }
{
    let (first, rest) = skip_blanks(text).split_first()?;
    if *first == sign { Some(rest) } else { None }
}

/// A register by either name.
#[tactic(auto, unfolding(crate::specs::Tokens::register_at))]
pub(crate) fn register(text: &[u8]) -> Option<(u32, &[u8])>
    ensures { option_map (λ found. (found.0, found.1.now)) result ≡ register_at text.now }
{
    let (name, rest) = word(skip_blanks(text));
    let number = register_number(name)?;
    Some((number, rest))
}

/// A name.
#[tactic(auto, unfolding(crate::specs::Tokens::name_at))]
pub(crate) fn name(text: &[u8]) -> Option<(&[u8], &[u8])>
    ensures { option_map (λ found. (found.0.now, found.1.now)) result ≡ name_at text.now }
{
    let (name, rest) = word(skip_blanks(text));
    if is_name(name) {
        Some((name, rest))
    } else {
        None
    }
}

/// The size of a number directly after its sign.
fn sized(negative: bool, text: &[u8]) -> Option<(Number, &[u8])>
    ensures { option_map (λ found. (found.0, found.1.now)) result ≡ sized_at negative text.now }
{
    let (digits, rest) = word(text);
    let size = size(digits)?;
    Some((Number { negative, size }, rest))
}

/// A number.
#[tactic(auto, unfolding(crate::specs::Tokens::number_at))]
pub(crate) fn number(text: &[u8]) -> Option<(Number, &[u8])>
    ensures { option_map (λ found. (found.0, found.1.now)) result ≡ number_at text.now }
{
    let text = skip_blanks(text);
    let (first, rest) = text.split_first()?;
    if *first == b'-' {
        sized(true, rest)
    } else {
        sized(false, text)
    }
}

/// A register in parentheses.
#[tactic(auto, unfolding(crate::specs::Tokens::pointer_at))]
pub(crate) fn pointer(text: &[u8]) -> Option<(u32, &[u8])>
    ensures { option_map (λ found. (found.0, found.1.now)) result ≡ pointer_at text.now }
{
    let opened = sign(b'(', text)?;
    let (base, rest) = register(opened)?;
    let closed = sign(b')', rest)?;
    Some((base, closed))
}

/// How many bytes stand before the quote that closes the string.
fn string_len(text: &[u8]) -> Option<usize>
    ensures len { result ≡ string_len false text.now }
    ensures within { IfSome result (λ len. len < length text.now) }
{
    let mut escaped = false;
    for (i, byte) in text.iter().enumerate() {
        if escaped {
            if !matches!(*byte, b'n' | b'\\' | b'"' | b'0') {
                return None;
            }
            escaped = false;
        } else if *byte == b'"' {
            return Some(i);
        } else {
            escaped = *byte == b'\\';
        }
    }
    None
}

/// A string, as it is written between its quotes.
#[tactic(auto, unfolding(crate::specs::Tokens::string_at))]
pub(crate) fn string(text: &[u8]) -> Option<(&[u8], &[u8])>
    ensures { option_map (λ found. (found.0.now, found.1.now)) result ≡ string_at text.now }
{
    let opened = sign(b'"', text)?;
    let len = string_len(opened)?;
    Some((&opened[..len], &opened[len + 1..]))
}
