//! How a hart goes on, or why it stops.

/// Why a hart stops. A stop is final, and keeps the pc of the word.
#[derive(Clone, Copy, PartialEq, Eq, Debug, Drop)]
pub enum Cause {
    /// The call exit, with the low eight bits of a0.
    Exit(u8),
    /// The word is no instruction.
    Illegal,
    /// The word is `ebreak`.
    Break,
    /// A taken jump or branch to an address that is no multiple of 4, or an atomic access to one that is no multiple
    /// of its width.
    Misaligned,
    /// An access to memory, of which this byte, the first that may not be touched, is unmapped.
    Access(u64),
    /// An access to memory, of which this byte, the first that may not be touched, is in the text.
    TextAccess(u64),
    /// The pc isn't that of a word of the text.
    FetchOutside,
}

/// What follows a word.
#[derive(Clone, Copy, PartialEq, Eq, Debug, Drop)]
pub enum Next {
    /// The hart goes on at this address.
    Go(u64),
    /// The hart stops.
    Stop(Cause),
}

/// Why an access to memory is refused, with the address of the first byte that may not be touched.
#[derive(Clone, Copy, PartialEq, Eq, Debug, Drop)]
pub enum MemStop {
    /// No memory is there.
    Unmapped(u64),
    /// The text is there.
    InText(u64),
}
