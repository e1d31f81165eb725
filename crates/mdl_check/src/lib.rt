//! The check of a configuration: its names, its kinds and its foci.
#![tactic(auto)]

mod ancestors;
mod before;
mod checked;
mod collect;
mod configuration;
mod entry;
mod fault;
mod index;
mod judge;
mod names;
mod places;
mod repeated;
mod sight;
mod uses;
mod wrong;

pub use checked::{Checked, CheckedWish};
pub use configuration::{check, checked_is_sound, one_answer, own_ancestors, prefixes};
pub use fault::{CheckError, CheckFault, CheckKind};
