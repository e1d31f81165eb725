//! From a text to its directives.

ghost use Rattle.std.specs.Prelude.{◌≡◌, ◌≤◌, length, codes, IfOk, IfErr};
ghost use Rattle.mdl_parse.specs.Shapes.{is_keyword};
ghost use Rattle.mdl_parse.specs.Steps.{option_at};
ghost use Rattle.directives.specs.Ahead.{IsAheadRead};
ghost use Rattle.directives.specs.Meaning.{IsDirectives, DirectiveFaults, DirectiveRefuses};
ghost use Rattle.directives.specs.Reading.{axis_at, prune_at, threshold_at, first_at, directive_at, directives_at};

use crate::directive::{Directive, DirectiveAct};
use crate::fault::DirectiveError;
use crate::stop::Stop;
use crate::words::Words;
use pn_types::{Seq, Text};
use std::alloc::Global;

impl<'a> Words<'a> {
    /// Passes the axis of a prune, where it has one.
    #[tactic(auto, unfolding(crate::specs::Reading::axis_at, mdl_parse::specs::Steps::option_at))]
    fn axis(&mut self, alloc: Global) -> Result<Option<Text>, Stop>
        ensures read { IsAheadRead result self.new.words_ahead (option_at (is_keyword (codes "axis")) axis_at self.old.words_ahead) }
        ensures ending { self.new.ending ≡ self.old.ending }
    {
        if self.is_keyword(b"axis") {
            self.keyword(b"axis")?;
            let axis = self.name(alloc)?;
            return Ok(Some(axis));
        }
        Ok(None)
    }

    /// Passes a prune.
    #[tactic(auto, unfolding(crate::specs::Reading::prune_at))]
    fn prune(&mut self, alloc: Global) -> Result<Directive, Stop>
        ensures read { IsAheadRead result self.new.words_ahead (prune_at self.old.words_ahead) }
        ensures ending { self.new.ending ≡ self.old.ending }
    {
        let line = self.start(b"prune")?;
        let name = self.name(alloc)?;
        let axis = self.axis(alloc)?;
        self.semicolon()?;
        let act = match axis {
            Some(axis) => DirectiveAct::PruneAxis(name, axis),
            None => DirectiveAct::Prune(name),
        };
        Ok(Directive { line, act })
    }

    /// Passes a threshold.
    #[tactic(auto, unfolding(crate::specs::Reading::threshold_at))]
    fn threshold(&mut self, alloc: Global) -> Result<Directive, Stop>
        ensures read { IsAheadRead result self.new.words_ahead (threshold_at self.old.words_ahead) }
        ensures ending { self.new.ending ≡ self.old.ending }
    {
        let line = self.start(b"threshold")?;
        let name = self.name(alloc)?;
        let number = self.number()?;
        self.semicolon()?;
        let act = DirectiveAct::Threshold(name, number);
        Ok(Directive { line, act })
    }

    /// Passes a first.
    #[tactic(auto, unfolding(crate::specs::Reading::first_at))]
    fn first(&mut self, alloc: Global) -> Result<Directive, Stop>
        ensures read { IsAheadRead result self.new.words_ahead (first_at self.old.words_ahead) }
        ensures ending { self.new.ending ≡ self.old.ending }
    {
        let line = self.start(b"first")?;
        let name = self.name(alloc)?;
        self.semicolon()?;
        let act = DirectiveAct::First(name);
        Ok(Directive { line, act })
    }

    /// Passes a directive.
    #[tactic(auto, unfolding(crate::specs::Reading::directive_at))]
    fn directive(&mut self, alloc: Global) -> Result<Directive, Stop>
        ensures read { IsAheadRead result self.new.words_ahead (directive_at self.old.words_ahead) }
        ensures ending { self.new.ending ≡ self.old.ending }
    {
        if self.is_keyword(b"prune") {
            return self.prune(alloc);
        }
        if self.is_keyword(b"threshold") {
            return self.threshold(alloc);
        }
        self.first(alloc)
    }

    /// Passes all directives, up to the end.
    #[tactic(auto, using(mdl_parse::proofs::Loops::loop_shorter, mdl_parse::proofs::Loops::loop_more, mdl_parse::proofs::Loops::loop_all, crate::proofs::Rules::loop_stops, crate::proofs::Rules::directives_loop))]
    fn directives(&mut self, alloc: Global) -> Result<Seq<Directive>, Stop>
        ensures read { IsAheadRead result self.new.words_ahead (directives_at self.old.words_ahead) }
        ensures ending { self.new.ending ≡ self.old.ending }
    {
        let mut directives = Vec::new(alloc);
        'directives: while self.has_more() {
            let directive = self.directive(alloc)?;
            directives.push(directive)?;
        }
        Ok(Seq::from_vec(directives))
    }
}

/// Returns the directives that a text spells. The text has at most 1,048,576 bytes.
///
/// Its words are those of configurations, with their white space and comments:
///
/// ```text
/// directives = { "prune" NAME [ "axis" NAME ] ";" | "threshold" NAME NUMBER ";" | "first" NAME ";" } .
/// ```
///
/// # Errors
/// `Unexpected` at the first word with which the words so far begin no directives, or at the text's end, if it comes too
/// early; another kind at the first bytes that are no word, if the words before them begin directives; `NoMemory`.
#[tactic(auto, using(crate::proofs::Exact::directives_end, crate::proofs::Exact::fault_ends, crate::proofs::Exact::fault_stops))]
pub fn read_directives(alloc: Global, text: &[u8]) -> Result<Seq<Directive>, DirectiveError>
    requires { length text.now ≤ 1048576 }
    ensures read { IfOk result (λ directives. IsDirectives text.now directives) }
    ensures fault { IfErr result (λ e. DirectiveRefuses e (λ fault. DirectiveFaults text.now fault)) }
{
    let mut words = Words::new(text);
    match words.directives(alloc) {
        Ok(directives) => match words.unread() {
            Some(fault) => Err(DirectiveError::Fault(fault)),
            None => Ok(directives),
        },
        Err(Stop::NoMemory) => Err(DirectiveError::NoMemory),
        Err(Stop::Unexpected) => Err(DirectiveError::Fault(words.fault())),
    }
}
