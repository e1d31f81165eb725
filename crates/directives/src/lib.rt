//! Directives that change the hypotheses of a search before it starts.
//!
//! A text of directives is read, and then applied to a configuration that passed the check.
#![tactic(auto)]

mod applying;
mod change;
mod directive;
mod expansion;
mod fault;
mod hypotheses;
mod laws;
mod name_places;
mod reading;
mod standing;
mod stop;
mod taking;
mod words;

pub use applying::apply;
pub use directive::{Directive, DirectiveAct};
pub use fault::{DirectiveError, DirectiveFault, DirectiveKind};
pub use laws::{
    axis_is_gone, directives_or_fault, last_threshold_holds, others_stay, pruned_is_gone,
    same_hypotheses,
};
pub use reading::read_directives;
