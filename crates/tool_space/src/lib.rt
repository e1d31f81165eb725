//! Rooms of consecutive units: words of the tool text, or slots.
#![tactic(auto)]

mod hole;
mod space;

pub use space::Space;
