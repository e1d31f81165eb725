//! The lines of a report on the search.

ghost use Rattle.std.specs.Prelude.{◌≡◌, ◌++◌, ◌∷◌, [], bytes_eq, length, IfOk, IsTrue};
ghost use Rattle.std.specs.Option.{unwrap_or};
ghost use Rattle.report.specs.SearchTexts.{node_line};
ghost use Rattle.report_lines.specs.Lines.{node_of_line};
ghost use Rattle.report_reader.specs.Drafts.{after_node, after_search, blank_search, window_with, with_node_line};
ghost use Rattle.report_reader.specs.Taking.{IsLineTaken};

use crate::draft::{Draft, SearchDraft};
use crate::due::Due;
use crate::written::{is_node, is_search};
use advice::number_at;
use pn_types::{NoMemory, Seq};
use report_lines::{node_of_line, says, window_of_line};
use std::alloc::Global;

/// The greatest number of nodes.
const MOST_NODES: u64 = 4_096;

/// The window, if it was told before or is told in this line.
fn window_with(window: Option<u32>, line: &[u8]) -> Option<u32>
    ensures { result ≡ window_with window line.now }
{
    match window {
        Some(window) => Some(window),
        None => window_of_line(line),
    }
}

impl SearchDraft {
    /// The search before its first node.
    fn blank(alloc: Global, line: &[u8]) -> SearchDraft
        ensures { result ≡ blank_search line.now }
    {
        SearchDraft {
            full: says(3, line, b"full"),
            window: None,
            nodes: Seq::from_vec(Vec::new(alloc)),
        }
    }

    /// Takes a node. Returns whether the line was right.
    fn after_node(&mut self, alloc: Global, line: &[u8]) -> Result<bool, NoMemory>
        ensures right { IfOk result (λ right. right ≡ bytes_eq (line.now ++ 10 ∷ [])
            (node_line (unwrap_or (window_with self.old.window line.now) 0) (length self.old.nodes) (node_of_line line.now))) }
        ensures node { IfOk result (λ right. IsTrue right → self.new ≡ with_node_line self.old line.now) }
    {
        let window = window_with(self.window, line);
        let part = node_of_line(alloc, line)?;
        let number = self.nodes.as_slice().len();
        if !is_node(alloc, window.unwrap_or(0), number, &part, line)? {
            return Ok(false);
        }
        self.nodes.push(part)?;
        self.window = window;
        Ok(true)
    }
}

impl Draft {
    /// Takes the first line of the search. Returns whether the line was right.
    pub(crate) fn after_search(&mut self, alloc: Global, line: &[u8]) -> Result<bool, NoMemory>
        ensures { IfOk result (λ right. IsLineTaken right self.new (after_search self.old line.now)) }
    {
        let count = number_at(2, line);
        if count > MOST_NODES {
            return Ok(false);
        }
        if !is_search(alloc, count, says(3, line, b"full"), line)? {
            return Ok(false);
        }
        self.search = Some(SearchDraft::blank(alloc, line));
        self.due = Due::Nodes(count);
        Ok(true)
    }

    /// Takes a node, after which so many are left. Returns whether the line was right.
    pub(crate) fn after_node(
        &mut self,
        alloc: Global,
        left: u64,
        line: &[u8],
    ) -> Result<bool, NoMemory>
        ensures { IfOk result (λ right. IsLineTaken right self.new (after_node self.old left line.now)) }
    {
        let Some(search) = &mut self.search else {
            return Ok(false);
        };
        if !search.after_node(alloc, line)? {
            return Ok(false);
        }
        self.due = Due::Nodes(left);
        Ok(true)
    }
}
