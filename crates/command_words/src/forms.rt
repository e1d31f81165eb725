//! What words a command takes.

ghost use Rattle.std.specs.Prelude.{◌≡◌, ◌≤◌, ◌+◌, length};
ghost use Rattle.command_words.specs.declared.forms.TheConstants.{MAX_NAMES};

/// The most names that the positional words and the options of a command have together.
pub const MAX_NAMES: usize = 16;

/// The words that a command takes.
#[derive(Clone, Copy, Drop)]
pub struct Form {
    /// The command's own word.
    pub word: &'static str,
    /// The names of its positional words, in order.
    pub places: &'static [&'static str],
    /// The names of its options.
    pub options: &'static [&'static str],
    ghost few: { length places.now + length options.now ≤ MAX_NAMES },
}
