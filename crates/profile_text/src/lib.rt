//! The texts of a profile: its lines, a table for a person, annotated instructions, and callgrind's format.
#![tactic(auto)]

mod annotating;
mod annotations;
mod callgrind;
mod columns;
mod finding;
mod jump_lines;
mod laws;
mod lines;
mod names;
mod numbered_word;
mod ordering;
mod pieces;
mod procedure_row;
mod profiled_text;
mod reading;
mod row_lines;
mod run_lines;
mod sums;
mod table;
mod word_lines;

pub use annotating::{add_break, add_numbers, annotated_text, rows_named};
pub use callgrind::callgrind_text;
pub use laws::lines_add_up;
pub use lines::profile_lines;
pub use names::has_procedure;
pub use numbered_word::NumberedWord;
pub use ordering::rows_by_ticks;
pub use pieces::add_number;
pub use procedure_row::ProcedureRow;
pub use profiled_text::ProfiledText;
pub use reading::{profiled_text as text_with_profile, words_of};
pub use row_lines::{add_rest, add_row};
pub use run_lines::{add_run_ticks, add_run_untold, ticks_of};
pub use table::profile_table;
