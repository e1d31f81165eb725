//! The first place of each name in a list of names, and all places of each.
#![tactic(auto)]

mod groups;
mod numbers;
mod places;

pub use groups::PlacesByName;
pub use numbers::add_number;
pub use places::FirstPlaces;
