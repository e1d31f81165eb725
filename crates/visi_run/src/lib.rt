//! Runs of programs whose samples are streamed to view threads, which also read a gauge.
#![tactic(auto)]

mod board;
mod dial;
mod lane;
mod line;
mod making;
mod outlet;
mod publisher;
mod run;
mod seats;
mod sight;
mod text;
mod view;

pub use dial::{Gauge, GaugeReader, GaugeWriter, Reading};
pub use making::gauge;
pub use publisher::{Publisher, View, gather, streams};
pub use run::{ViewedCourse, view_run};
