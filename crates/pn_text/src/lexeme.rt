//! The token with which a text begins.

ghost use Rattle.std.specs.Prelude.{◌≡◌, ◌≤◌, ◌<◌, ◌∷◌, [], length, IfSome, IfOk, codes};
ghost use Rattle.std.specs.Option.{option_map};
ghost use Rattle.std.specs.List.{prefix_len};
ghost use Rattle.pn_text.specs.Numbers.{is_digit};
ghost use Rattle.pn_text.specs.Bytes.{is_letter, begins_name, is_name_byte, is_string_byte, is_focus_byte, is_white_space, begins_with};
ghost use Rattle.pn_text.specs.Signs.{double_signs, single_signs, with_texts, dollar_words, first_row, signs};
ghost use Rattle.pn_text.specs.Tokens.{digits_value, number_at, string_at, focus_at, dollar_word_at, sign_at, other_at, lexeme_at};

use crate::place::Place;
use crate::token::{LexFault, Sign, TokenKind};

/// The kind of a token, and its length in bytes.
#[derive(Clone, Copy, Drop)]
pub(crate) struct Lexeme {
    pub(crate) kind: TokenKind,
    pub(crate) len: usize,
}

/// The greatest number.
const MOST: u64 = 2_147_483_647;

/// The number of the digits, unless it is above the most.
fn digits_value(digits: &[u8]) -> Option<u32>
    ensures { result ≡ digits_value digits.now }
{
    let mut value = 0u64;
    for byte in digits {
        if *byte < b'0' || *byte > b'9' {
            return None;
        }
        value = value * 10 + (*byte - b'0') as u64;
        if value > MOST {
            return None;
        }
    }
    Some(value as u32)
}

fn is_letter(byte: u8) -> bool
    ensures { result ≡ is_letter byte }
{
    matches!(byte, b'A'..=b'Z' | b'a'..=b'z')
}

fn begins_name(byte: u8) -> bool
    ensures { result ≡ begins_name byte }
{
    is_letter(byte) || byte == b'_'
}

fn is_digit(byte: u8) -> bool
    ensures { result ≡ is_digit byte }
{
    matches!(byte, b'0'..=b'9')
}

fn is_name_byte(byte: u8) -> bool
    ensures { result ≡ is_name_byte byte }
{
    begins_name(byte) || is_digit(byte) || byte == b'.'
}

fn is_string_byte(byte: u8) -> bool
    ensures { result ≡ is_string_byte byte }
{
    byte != b'"' && byte != b'\n'
}

fn is_focus_byte(byte: u8) -> bool
    ensures { result ≡ is_focus_byte byte }
{
    !matches!(byte, b' ' | b'\t' | b'\r' | b'\n' | b';' | b'{')
}

/// How many bytes of a name stand first.
fn name_len(text: &[u8]) -> usize
    ensures count { result ≡ prefix_len is_name_byte text.now }
    ensures within { result ≤ length text.now }
{
    text.iter().take_while(|byte| is_name_byte(**byte)).count()
}

/// How many digits stand first.
fn digit_len(text: &[u8]) -> usize
    ensures count { result ≡ prefix_len is_digit text.now }
    ensures within { result ≤ length text.now }
{
    text.iter().take_while(|byte| is_digit(**byte)).count()
}

/// How many bytes of a string stand before its second quote, an LF or the end.
fn string_len(text: &[u8]) -> usize
    ensures count { result ≡ prefix_len is_string_byte text.now }
    ensures within { result ≤ length text.now }
{
    text.iter()
        .take_while(|byte| is_string_byte(**byte))
        .count()
}

/// How many bytes of a focus stand first.
fn focus_len(text: &[u8]) -> usize
    ensures count { result ≡ prefix_len is_focus_byte text.now }
    ensures within { result ≤ length text.now }
{
    text.iter().take_while(|byte| is_focus_byte(**byte)).count()
}

/// A number: all digits that stand first.
#[tactic(auto, unfolding(crate::specs::Tokens::number_at))]
fn number(text: &[u8]) -> Option<Lexeme>
    ensures { result ≡ number_at text.now }
{
    let len = digit_len(text);
    let value = digits_value(&text[..len])?;
    Some(Lexeme {
        kind: TokenKind::Number(value),
        len,
    })
}

/// A string whose first quote stands before the text.
#[tactic(auto, unfolding(crate::specs::Tokens::string_at))]
fn string(text: &[u8]) -> Option<Lexeme>
    ensures { result ≡ string_at text.now }
{
    let len = string_len(text);
    if text[len..].starts_with(b"\"") {
        Some(Lexeme {
            kind: TokenKind::Quoted,
            len: len + 2,
        })
    } else {
        None
    }
}

/// A focus whose `/` stands before the text.
#[tactic(auto, unfolding(crate::specs::Tokens::focus_at))]
fn focus(text: &[u8]) -> Option<Lexeme>
    ensures { result ≡ focus_at text.now }
{
    if is_letter(*text.first()?) {
        Some(Lexeme {
            kind: TokenKind::Focus,
            len: focus_len(text) + 1,
        })
    } else {
        None
    }
}

/// A word with `$`.
#[tactic(auto, unfolding(crate::specs::Tokens::dollar_word_at))]
fn dollar_word(text: &[u8]) -> Option<Lexeme>
    ensures { result ≡ dollar_word_at text.now }
{
    let (kind, len) = if text.starts_with(b"$focus") {
        (TokenKind::FocusWord, 6)
    } else if text.starts_with(b"$all") {
        (TokenKind::AllWord, 4)
    } else if text.starts_with(b"$metric") {
        (TokenKind::MetricWord, 7)
    } else if text.starts_with(b"$value") {
        (TokenKind::ValueWord, 6)
    } else if text.starts_with(b"$arg") {
        (TokenKind::ArgWord, 4)
    } else {
        return None;
    };
    Some(Lexeme { kind, len })
}

/// The sign of two bytes.
fn double_sign(first: u8, second: u8) -> Option<Sign>
    ensures { result ≡ option_map (λ row. row.1) (first_row (with_texts double_signs) (first ∷ second ∷ [])) }
{
    match (first, second) {
        (b'(', b'*') => Some(Sign::OpenCode),
        (b'*', b')') => Some(Sign::CloseCode),
        (b'+', b'+') => Some(Sign::PlusPlus),
        (b'-', b'-') => Some(Sign::MinusMinus),
        (b'=', b'=') => Some(Sign::Equal),
        (b'!', b'=') => Some(Sign::NotEqual),
        (b'<', b'=') => Some(Sign::LessEqual),
        (b'>', b'=') => Some(Sign::GreaterEqual),
        _ => None,
    }
}

/// The sign of one byte.
fn single_sign(byte: u8) -> Option<Sign>
    ensures { result ≡ option_map (λ row. row.1) (first_row (with_texts single_signs) (byte ∷ [])) }
{
    match byte {
        b'{' => Some(Sign::OpenBrace),
        b'}' => Some(Sign::CloseBrace),
        b'[' => Some(Sign::OpenBracket),
        b']' => Some(Sign::CloseBracket),
        b'(' => Some(Sign::OpenParen),
        b')' => Some(Sign::CloseParen),
        b';' => Some(Sign::Semicolon),
        b',' => Some(Sign::Comma),
        b'=' => Some(Sign::Assign),
        b'<' => Some(Sign::Less),
        b'>' => Some(Sign::Greater),
        _ => None,
    }
}

/// A sign, the longest.
#[tactic(auto, unfolding(crate::specs::Tokens::sign_at))]
fn sign(text: &[u8]) -> Option<Lexeme>
    ensures { result ≡ sign_at text.now }
{
    let first = *text.first()?;
    if let Some(second) = text.get(1)
        && let Some(sign) = double_sign(first, *second)
    {
        return Some(Lexeme {
            kind: TokenKind::Sign(sign),
            len: 2,
        });
    }
    let sign = single_sign(first)?;
    Some(Lexeme {
        kind: TokenKind::Sign(sign),
        len: 1,
    })
}

/// The token with which the text begins. None exactly at the text's end, and a fault has the place. The text doesn't
/// begin with a blank.
#[tactic(auto, unfolding(crate::specs::Tokens::lexeme_at))]
pub(crate) fn first_lexeme(place: Place, text: &[u8]) -> Result<Option<Lexeme>, LexFault>
    ensures first { result ≡ lexeme_at place text.now }
    ensures len { IfOk result (λ found. IfSome found (λ lexeme. (0 < lexeme.len) × (lexeme.len ≤ length text.now))) }
{
    let Some((first, behind)) = text.split_first() else {
        return Ok(None);
    };
    if begins_name(*first) {
        return Ok(Some(Lexeme {
            kind: TokenKind::Name,
            len: name_len(text),
        }));
    }
    if is_digit(*first) {
        return Ok(Some(number(text).ok_or(LexFault::BigNumber(place))?));
    }
    let (found, fault) = match *first {
        b'"' => (string(behind), LexFault::OpenString(place)),
        b'/' => (focus(behind), LexFault::BadByte(place)),
        b'$' => (dollar_word(text), LexFault::BadByte(place)),
        _ => (sign(text), LexFault::BadByte(place)),
    };
    Ok(Some(found.ok_or(fault)?))
}
