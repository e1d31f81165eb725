//! White space and comments.

ghost use Rattle.std.specs.Prelude.{◌≡◌, ◌≤◌, false, length, codes};
ghost use Rattle.pn_text.specs.Bytes.{is_white_space, begins_with};
ghost use Rattle.pn_text.specs.Blanks.{blank_len};

fn is_white_space(byte: u8) -> bool
    ensures { result ≡ is_white_space byte }
{
    matches!(byte, b' ' | b'\t' | b'\r' | b'\n')
}

fn begins_comment(text: &[u8]) -> bool
    ensures { result ≡ begins_with (codes "//") text.now }
{
    text.starts_with(b"//")
}

/// How many bytes of white space and comments stand first.
pub(crate) fn blank_len(text: &[u8]) -> usize
    ensures count { result ≡ blank_len false text.now }
    ensures within { result ≤ length text.now }
{
    let mut in_comment = false;
    for (i, byte) in text.iter().enumerate() {
        if in_comment {
            in_comment = *byte != b'\n';
        } else if begins_comment(&text[i..]) {
            in_comment = true;
        } else if !is_white_space(*byte) {
            return i;
        }
    }
    text.len()
}
