//! The pc of a hart that goes from word to word.

ghost use Rattle.std.specs.Prelude.{◌≡◌, ◌%◌};

/// A pc as the number of a word, which leads to the word by one index. The address is made of it only where it is asked for.
#[derive(Clone, Copy, Drop)]
pub struct Pc {
    /// The address of word 0, a multiple of 4.
    pub first: u64,
    /// The number of the word; where there is none, the pc is what 64 bits keep of its address.
    pub place: u64,
    ghost aligned: { first % 4 ≡ 0 },
}
