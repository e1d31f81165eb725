//! Laws of the texts.

ghost use Rattle.disassembler.specs.Laws.{LinesAssemble, LinesStandInTexts, WordsAssemble};

/// The assembler reads the text of a word as this word again, where its labels have the name of each jump's target.
pub fn lines_assemble()
    ensures { LinesAssemble }
{}

/// So it does with the comment on an order behind it.
pub fn words_assemble()
    ensures { WordsAssemble }
{
    lines_assemble();
}

/// The assembler takes the text of a word that doesn't name x31 among the lines of a program's text.
pub fn lines_stand_in_texts()
    ensures { LinesStandInTexts }
{}
