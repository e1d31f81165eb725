//! A report as a picture, and as a page.
#![tactic(auto)]

mod axis;
mod escapes;
mod html;
mod labels;
mod laws;
mod nodes;
mod page_head;
mod svg;
mod time_lines;
mod tree_line;
mod tree_lines;

pub use html::report_html;
pub use laws::{details_balance, heights_are_shares, texts_are_escaped};
pub use svg::report_svg;
