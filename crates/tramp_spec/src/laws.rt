//! What holds of the definitions.

ghost use Rattle.tramp_spec.specs.Moves.{WordsMove};
ghost use Rattle.tramp_spec.specs.Routes.{BodiesGoOn};
ghost use Rattle.tramp_spec.specs.Rows.{MovedRows, CodeRows};

/// The moved words of five words: a jalr whose rd is its rs1, a branch, a jal, an auipc, and a branch that can't be moved.
pub fn moved_rows()
    ensures { MovedRows }
{}

/// The words of a base block and of a mini block that counts.
pub fn code_rows()
    ensures { CodeRows }
{}

/// Harmless bodies may follow each other, and may follow guards that lead to them or over them.
pub fn bodies_go_on()
    ensures { BodiesGoOn }
{}

/// Moved words do what the program's word does at its own place: those before the tick build registers, the tick has the word's
/// effect, and those after it lead to where the word itself leads.
pub fn words_move()
    ensures { WordsMove }
{}
