//! The lines of a text.

ghost use Rattle.std.specs.Prelude.{◌≡◌, ◌<◌, ◌∷◌, [], MatchOption, IfSome, length, position};
ghost use Rattle.pn_text.specs.Lines.{lines, is_lf, no_cr};

/// Where the first LF stands.
fn first_lf(text: &[u8]) -> Option<usize>
    ensures { result ≡ position is_lf text.now }
{
    text.iter().position(|byte| *byte == b'\n')
}

/// The bytes without one CR at their end.
#[tactic(auto, using(crate::proofs::Cuts::no_cr_last))]
fn without_cr(bytes: &[u8]) -> &[u8]
    ensures { result.now ≡ no_cr bytes.now }
{
    let Some((last, front)) = bytes.split_last() else {
        return bytes;
    };
    if *last == b'\r' { front } else { bytes }
}

/// Returns the first line of the text, and the text after it. None exactly where the text is empty. An LF ends a line, a CR
/// directly before it is dropped, and a rest without LF is a line.
pub fn next_line(text: &[u8]) -> Option<(&[u8], &[u8])>
    ensures line { MatchOption result (lines text.now ≡ []) (λ found. lines text.now ≡ found.0.now ∷ lines found.1.now) }
    ensures shorter { IfSome result (λ found. length found.1.now < length text.now) }
{
    if text.is_empty() {
        return None;
    }
    match first_lf(text) {
        Some(end) => Some((without_cr(&text[..end]), &text[end + 1..])),
        None => Some((text, &text[text.len()..])),
    }
}
