//! The words of the command line: which command they are, and what they ask for.
#![tactic(auto)]

mod address_list;
mod ask_asking;
mod asking;
mod builders;
mod commands;
mod forms;
mod given;
mod logging;
mod matching;
mod names;
mod numbers;
mod requests;
mod show_asking;
mod values;
mod walking;
mod word_kind;

pub use address_list::{addresses, metric_names};
pub use asking::{begin_threaded, read_request};
pub use commands::CommandName;
pub use logging::log_name;
pub use matching::WordFault;
pub use numbers::MAX_VIEWS;
pub use requests::{
    AnnotateRequest, AnnotationUnit, AskInterval, AskRequest, BlocksRequest, DiffRequest,
    DirectRequest, LiveRequest, NodeKind, PlanRequest, ProfileRequest, ProfileShape, ProfileSource,
    ReplayRequest, Request, RunRequest, SessionRequest, ShowRequest, StressRequest, TurnOrder,
    ViewFormat, VisiRequest,
};
