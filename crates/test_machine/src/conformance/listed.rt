//! Rows of what a list says of a word.

ghost use Rattle.std.specs.Prelude.{◌≡◌, ◌↔◌, IsTrue, is_some};
ghost use Rattle.rv_word.specs.Table.{decode_of};
ghost use Rattle.rv_word.specs.Names.{has_scratch};

use crate::conformance::columns::Columns;
use rv_word::{decode, encode, names_x31};

/// What a list says of a word.
#[derive(Clone, Copy, Debug, Drop)]
pub struct Listed {
    /// The word.
    pub word: u32,
    /// It is an instruction.
    pub legal: bool,
    /// It is an instruction that names x31.
    pub names_x31: bool,
}

/// Whether the word is an instruction from which the word can be made again.
pub fn is_instruction(word: u32) -> bool
    ensures { result ≡ is_some (decode_of word) }
{
    match decode(word) {
        Some(instr) => encode(&instr) == word,
        None => false,
    }
}

impl Listed {
    /// Reads the columns: the word, `legal` or `illegal`, a mnemonic, and `31` or `-`.
    pub fn parse(columns: &mut Columns) -> Option<Listed> {
        let word = columns.word()?;
        let legal = match columns.text()? {
            "legal" => true,
            "illegal" => false,
            _ => return None,
        };
        let _mnemonic = columns.text()?;
        let names_x31 = match columns.text()? {
            "31" => true,
            "-" => false,
            _ => return None,
        };
        Some(Listed {
            word,
            legal,
            names_x31,
        })
    }

    /// Whether the word is here what the list says.
    pub fn agrees(&self) -> bool
        ensures { IsTrue result ↔
            ((is_some (decode_of self.now.word) ≡ self.now.legal) × (has_scratch self.now.word ≡ self.now.names_x31)) }
    {
        is_instruction(self.word) == self.legal && names_x31(self.word) == self.names_x31
    }
}
