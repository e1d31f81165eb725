//! What the lines of a report say.
#![tactic(auto)]

mod addresses;
mod causes;
mod histograms;
mod laws;
mod lines;
mod nodes;
mod words;

pub use addresses::address_at;
pub use histograms::{bins_of_line, histogram_of_line};
pub use laws::{bin_is_read, hart_is_read, histogram_is_read, node_is_read, refused_is_read};
pub use lines::{bin_of_line, hart_of_line, refused_of_line};
pub use nodes::{node_of_line, window_of_line};
pub use words::{says, short_at};
