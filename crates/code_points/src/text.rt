//! The words of the text.

ghost use Rattle.std.specs.Prelude.{◌≡◌};
ghost use Rattle.rv_word.specs.Plain.{program_word, words_from};

use rv_word::split_word;

/// Returns the word at an address of a text that begins at `text_at`, where it has one there.
pub fn word(text: &[u8], text_at: u64, at: u64) -> Option<u32>
    ensures { result ≡ program_word (words_from text_at text.now) at }
{
    if at < text_at || (at - text_at) % 4 != 0 {
        return None;
    }
    let place = (at - text_at) as usize;
    if text.len() / 4 <= place / 4 {
        return None;
    }
    Some(split_word(&text[place..]).0)
}
