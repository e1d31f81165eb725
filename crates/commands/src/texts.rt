//! The texts of an answer.

ghost use Rattle.std.specs.Prelude.{◌≡◌};
ghost use Rattle.commands.specs.Output.{output};

use pn_types::Seq;
use std::alloc::Global;

/// The bytes that an answer has for the output and for the log.
#[derive(Drop)]
pub struct Texts {
    pub out: Seq<u8>,
    pub log: Seq<u8>,
}

impl Texts {
    /// Returns a text for the output, and nothing for the log.
    pub fn output(alloc: Global, text: Vec<u8>) -> Texts
        ensures { result ≡ output text.items }
    {
        Texts {
            out: Seq::from_vec(text),
            log: Seq::from_vec(Vec::new(alloc)),
        }
    }
}
