//! What a line says.

use crate::number::Number;
use rv_word::Instr;

/// How many bytes a value has.
#[derive(Clone, Copy)]
pub enum ValueWidth {
    /// One, `.byte`.
    Byte,
    /// Two, `.half`.
    Half,
    /// Four, `.word`.
    Word,
    /// Eight, `.dword`.
    Doubleword,
}

/// What stands after the labels of a line. A name or a string that it has stands beside it.
#[derive(Clone, Copy)]
pub enum Statement {
    /// Nothing.
    Empty,
    /// `.text`
    Text,
    /// `.data`
    Data,
    /// `.proc NAME`
    Procedure,
    /// `.end`
    End,
    /// `.object NAME N`
    Object(Number),
    /// `.module NAME`
    Module,
    /// `.byte N`, `.half N`, `.word N` or `.dword N`
    Value(ValueWidth, Number),
    /// `.zero N`
    Zeros(Number),
    /// `.align N`
    Align(Number),
    /// `.ascii "text"`
    Ascii,
    /// An instruction with all its parts.
    Instruction(Instr),
    /// An instruction in which the number is to stand. There is 0 in its place.
    Numbered(Instr, Number),
    /// A jump or branch to a name. There is 0 in the place of the distance.
    Jump(Instr),
    /// `li rd, N`
    LoadNumber(u32, Number),
    /// `la rd, NAME`
    LoadAddress(u32),
}

/// A part of the program.
#[derive(Clone, Copy)]
pub(crate) enum Section {
    /// The words that are executed.
    Text,
    /// The bytes that they work on.
    Data,
}
