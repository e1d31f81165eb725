//! The words of the program.

ghost use Rattle.std.specs.Prelude.{◌≡◌, ◌+◌, ◌<◌, ◌≤◌, IfOk, IfSome};
ghost use Rattle.pn_types.specs.Images.{IsImage};
ghost use Rattle.rv_mem.specs.Start.{program_of};
ghost use Rattle.rv_word.specs.Names.{words_of};
ghost use Rattle.rv_word.specs.Plain.{program_word};
ghost use Rattle.tramp_spec.specs.Codes.{tool_at};

use pn_types::{Image, NoMemory, SEGMENTS_TO};
use rv_word::split_word;
use std::alloc::Global;
use std::marker::Model;

/// Returns the words of a text.
fn words(alloc: Global, text: &[u8]) -> Result<Vec<u32>, NoMemory>
    ensures { IfOk result (λ words. words.items ≡ words_of text.now) }
{
    let mut words = Vec::with_capacity(alloc, text.len() / 4)?;
    let mut rest = text;
    for _ in 0..text.len() / 4 {
        let (word, others) = split_word(rest);
        words.push(word)?;
        rest = others;
    }
    Ok(words)
}

/// The program's words, which stay.
#[derive(Drop)]
pub struct Program {
    text_at: u64,
    words: Vec<u32>,
}

impl Model for Program {
    ghost use Rattle.std.specs.Prelude.{◌+◌, ◌*◌, ◌≤◌, length};
    ghost use Rattle.pn_types.specs.declared.limits.TheConstants.{SEGMENTS_TO};
    ghost use Rattle.rv_word.specs.Plain.{Words};

    ghost Value = { Words };

    ghost view = { λ p. record { at = p.text_at; words = p.words.items } };

    ghost invariant = { λ p. p.text_at + 4 * length p.words.items ≤ SEGMENTS_TO };
}

impl Program {
    /// Takes the words of an image's text.
    ///
    /// # Errors
    ///
    /// `NoMemory` where memory runs out.
    pub fn new(alloc: Global, image: &Image) -> Result<Program, NoMemory>
        requires { IsImage image.now }
        ensures { IfOk result (λ program. program ≡ program_of image.now) }
    {
        let words = words(alloc, image.text_bytes())?;
        Ok(Program {
            text_at: image.text_at,
            words,
        })
    }

    /// Returns the word at an address, where the text has one there.
    pub fn word(&self, at: u64) -> Option<u32>
        ensures word { result ≡ program_word self.now at }
        ensures low { IfSome result (λ word. at < SEGMENTS_TO) }
    {
        if at < self.text_at || (at - self.text_at) % 4 != 0 {
            return None;
        }
        let place = ((at - self.text_at) / 4) as usize;
        self.words.get(place).copied()
    }

    /// Returns the first address of the tool text, which follows the program: a multiple of 4,096.
    pub fn tool_at(&self) -> u64
        ensures at { result ≡ tool_at self.now }
        ensures low { result ≤ SEGMENTS_TO + 4095 }
    {
        let end = self.text_at + 4 * self.words.len() as u64;
        end.next_multiple_of(4096)
    }
}
