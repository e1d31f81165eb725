//! What the words of the tool text are for.

ghost use Rattle.std.specs.Prelude.{◌≡◌};
ghost use Rattle.code_store.specs.Views.{point_of, freed, put_to};

/// What a word of the tool text is for.
#[derive(Clone, Copy, Drop)]
pub enum WordUse {
    /// No word was ever put here.
    Unwritten,
    /// A word was put here, and belongs to no block.
    Free,
    /// It belongs to a block of the point at this address.
    Block(u64),
}

impl WordUse {
    /// The point of the block to which the word belongs.
    pub fn point(self) -> Option<u64>
        ensures { result ≡ point_of self }
    {
        match self {
            WordUse::Block(point) => Some(point),
            WordUse::Unwritten | WordUse::Free => None,
        }
    }

    /// The same word, once it belongs to no block.
    pub fn freed(self) -> WordUse
        ensures { result ≡ freed self }
    {
        match self {
            WordUse::Unwritten => WordUse::Unwritten,
            WordUse::Free | WordUse::Block(_) => WordUse::Free,
        }
    }

    /// The same word, once something was put there.
    pub fn written(self) -> WordUse
        ensures { result ≡ put_to self }
    {
        match self {
            WordUse::Unwritten | WordUse::Free => WordUse::Free,
            WordUse::Block(point) => WordUse::Block(point),
        }
    }
}
