//! The profile of a program by lines of its source.
#![tactic(auto)]

mod files;
mod laws;
mod rows;
mod source;
mod text;
mod text_lines;
mod ticks;

pub use files::SourceLines;
pub use laws::sources_add_up;
pub use source::{Source, SourceTicks};
pub use text::sourced_text;
