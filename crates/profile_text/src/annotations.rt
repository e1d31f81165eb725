//! What is annotated.

use crate::profiled_text::ProfiledText;
use block_count::BlockHead;
use std::collections::HashSet;

/// A program's text with its profile and its basic blocks.
#[derive(Drop)]
pub struct Annotations<'a> {
    /// The text.
    pub text: &'a ProfiledText<'a>,
    /// The heads of its blocks.
    pub heads: &'a [BlockHead],
    /// Their addresses.
    pub addresses: HashSet<u64>,
    /// The ticks of all harts.
    pub all: u64,
}
