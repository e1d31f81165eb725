//! A report as a person looks at it, in a terminal.
#![tactic(auto)]

mod bars;
mod causes;
mod foci;
mod harts;
mod histograms;
mod laws;
mod node_counts;
mod pieces;
mod signed;
mod tree_lines;
mod tree_row;
mod trees;
mod view;

pub use bars::{bin_values, positive};
pub use foci::short_focus;
pub use laws::{heights_are_shares, tree_has_each, tree_is_of_parents};
pub use signed::{add_quotient, add_signed, greatest, is_negative, least, sum_of};
pub use tree_lines::percent;
pub use tree_row::TreeRow;
pub use trees::{truth_tree, was_true};
pub use view::report_view;
