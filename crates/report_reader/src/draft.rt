//! What was read of a report so far.

ghost use Rattle.std.specs.Prelude.{◌≡◌};
ghost use Rattle.report_reader.specs.Drafts.{blank};

use crate::due::Due;
use pn_types::{Seq, Text};
use report::{HartPart, NodePart, RefusedPart, ShownPart};
use std::alloc::Global;

/// What was read of a report's search so far.
#[derive(Drop)]
pub struct SearchDraft {
    /// There was no room for more nodes.
    pub full: bool,
    /// The window, once the line of a node told it.
    pub window: Option<u32>,
    /// The nodes.
    pub nodes: Seq<NodePart>,
}

/// What was read of a report so far.
#[derive(Drop)]
pub struct Draft {
    /// What the next line must be.
    pub due: Due,
    /// The ticks of all harts, as the second line tells them.
    pub ticks: u64,
    /// How many samples were taken.
    pub samples: u64,
    /// How many function symbols are no procedures.
    pub skipped: u32,
    /// The harts.
    pub harts: Seq<HartPart>,
    /// What the program wrote.
    pub output: Text,
    /// The wishes that were refused.
    pub refused: Seq<RefusedPart>,
    /// The histograms that are whole.
    pub shown: Seq<ShownPart>,
    /// The histogram whose bins are read.
    pub begun: Option<ShownPart>,
    /// The search.
    pub search: Option<SearchDraft>,
}

impl Draft {
    /// The draft before the first line.
    pub(crate) fn blank(alloc: Global) -> Draft
        ensures { result ≡ blank }
    {
        Draft {
            due: Due::Title,
            ticks: 0,
            samples: 0,
            skipped: 0,
            harts: Seq::from_vec(Vec::new(alloc)),
            output: Text::from_vec(Vec::new(alloc)),
            refused: Seq::from_vec(Vec::new(alloc)),
            shown: Seq::from_vec(Vec::new(alloc)),
            begun: None,
            search: None,
        }
    }
}
