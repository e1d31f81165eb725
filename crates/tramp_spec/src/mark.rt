//! Marked words.

ghost use Rattle.std.specs.Prelude.{◌≡◌};
ghost use Rattle.tramp_spec.specs.Marks as marks;

/// What a word is to the hart that executes it: whether it is a tick, what its loads and stores reach, and whether the hart is
/// inside a trampoline afterwards.
#[derive(Clone, Copy, PartialEq, Eq, Drop)]
pub enum Mark {
    /// A word of the program: a tick, over the program's memory. Inside, a jump of it leaves the trampoline.
    Own,
    /// The jump at a patched point, which enters its base block. No tick.
    Enter,
    /// A word of the tool, over the hart's bank. No tick.
    Tool,
    /// A jump back to the program. No tick.
    Leave,
}

/// A word with its mark.
#[derive(Clone, Copy, PartialEq, Eq, Drop)]
pub struct MarkedWord {
    /// The word.
    pub word: u32,
    /// Its mark.
    pub mark: Mark,
}

impl MarkedWord {
    /// A word of the program.
    pub fn own(word: u32) -> MarkedWord
        ensures { result ≡ marks.own word }
    {
        MarkedWord {
            word,
            mark: Mark::Own,
        }
    }

    /// A jump that enters.
    pub fn enter(word: u32) -> MarkedWord
        ensures { result ≡ marks.enter word }
    {
        MarkedWord {
            word,
            mark: Mark::Enter,
        }
    }

    /// A word of the tool.
    pub fn tool(word: u32) -> MarkedWord
        ensures { result ≡ marks.tool word }
    {
        MarkedWord {
            word,
            mark: Mark::Tool,
        }
    }

    /// A jump back to the program.
    pub fn leave(word: u32) -> MarkedWord
        ensures { result ≡ marks.leave word }
    {
        MarkedWord {
            word,
            mark: Mark::Leave,
        }
    }
}
