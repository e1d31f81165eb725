//! The text of a report.
#![tactic(auto)]

mod hart_ends;
mod lines;
mod parts;
mod plan_lines;
mod point_lines;
mod search_lines;
mod shown_lines;

pub use hart_ends::hart_end;
pub use lines::{add_hart, add_harts, add_numbers, report};
pub use parts::{HartPart, NodePart, RefusedPart, ReportParts, SearchPart, ShownPart};
pub use plan_lines::plan_text;
pub use point_lines::points_text;
pub use search_lines::{add_node, add_nodes_line};
pub use shown_lines::{add_bin, add_histogram_head, add_refused};
