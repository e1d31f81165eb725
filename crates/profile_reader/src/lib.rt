//! Reading a profile, for comparing two.
#![tactic(auto)]

mod laws;
mod line_kinds;
mod pairs;
mod profile;
mod read_lines;
mod reading;
mod spelling;

pub use laws::profile_is_spelled;
pub use pairs::profile_parts;
pub use profile::{ReadProcedure, ReadProfile};
pub use reading::read_profile;
