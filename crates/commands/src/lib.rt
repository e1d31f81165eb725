//! What each command gives: the texts that are due for its request and the files that it names, or the first refusal.
#![tactic(auto)]

mod advising;
mod annotating;
mod asking;
mod configuration;
mod counting;
mod differing;
mod directing;
mod files;
mod finding;
mod inputs;
mod laws;
mod line_reading;
mod listing;
mod loading;
mod logs;
mod opening;
mod planning;
mod preparing;
mod profiling;
mod replaying;
mod running;
mod sharing;
mod showing;
mod stressing;
mod texts;
mod viewing;

pub use advising::advise;
pub use annotating::annotate;
pub use asking::ask;
pub use counting::blocks;
pub use differing::{ComparedFile, diff};
pub use directing::direct;
pub use finding::{Found, find};
pub use inputs::{Inputs, read_inputs};
pub use laws::found_can_run;
pub use listing::{asm, points};
pub use planning::plan;
pub use profiling::profile;
pub use replaying::{relog, replay};
pub use running::run;
pub use sharing::live;
pub use showing::show;
pub use stressing::stress;
pub use texts::Texts;
pub use viewing::visi;
