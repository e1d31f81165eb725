//! Single words of the grammar.
//!
//! A function that returns Refused leaves the word in view that doesn't fit.

ghost use Rattle.std.specs.Prelude.{◌≡◌, codes, IfOk, IfErr};
ghost use Rattle.mdl_parse.specs.declared.refusal.Stop.TheVariants.{NoMemory};
ghost use Rattle.mdl_parse.specs.Gives.{IsReadResult, var_seen};
ghost use Rattle.mdl_parse.specs.Readers.{start_at, keyword_at, sign_at, arg_at, name_at, number_at, quoted_at, path_at, choice_at, step_at, event_at, var_at, cmp_at, right_at, whole_at};

use crate::change::Change;
use crate::refusal::{Refusal, Stop};
use crate::seen::{Seen, SeenVar};
use crate::words::Words;
use mdl_ast::{EventKind, RightSide, Set, VarName};
use pn_text::Sign;
use pn_types::{Cmp, Text};
use std::alloc::Global;

const UNEXPECTED: Stop = Stop::Refused(Refusal::Unexpected);

/// The text of these bytes.
fn copied(alloc: Global, bytes: &[u8]) -> Result<Text, Stop>
    ensures text { IfOk result (λ text. text ≡ bytes.now) }
    ensures memory { IfErr result (λ fault. fault ≡ NoMemory) }
{
    Ok(Text::from_vec(Vec::from_slice(alloc, bytes)?))
}

/// The variable with a text of its own.
fn var(alloc: Global, seen: SeenVar) -> Result<VarName, Stop>
    ensures var { IfOk result (λ var. var ≡ var_seen seen.entry) }
    ensures memory { IfErr result (λ fault. fault ≡ NoMemory) }
{
    match seen {
        SeenVar::Named(name) => Ok(VarName::Named(copied(alloc, name)?)),
        SeenVar::TheMetric => Ok(VarName::TheMetric),
    }
}

impl<'a> Words<'a> {
    /// Passes the keyword.
    #[tactic(auto, unfolding(crate::specs::Steps::leaf_at))]
    pub(crate) fn keyword(&mut self, text: &[u8]) -> Result<(), Stop>
        ensures { IsReadResult result self.new (keyword_at text.now self.old) }
    {
        if let Some(word) = self.word()
            && word.is_keyword(text)
        {
            self.advance();
            return Ok(());
        }
        Err(UNEXPECTED)
    }

    /// Passes the keyword with which a part begins, and gives its line.
    #[tactic(auto, unfolding(crate::specs::Readers::start_at))]
    pub(crate) fn start(&mut self, text: &[u8]) -> Result<u32, Stop>
        ensures { IsReadResult result self.new (start_at text.now self.old) }
    {
        let line = self.line();
        self.keyword(text)?;
        Ok(line)
    }

    /// Passes the sign.
    #[tactic(auto, unfolding(crate::specs::Steps::leaf_at))]
    pub(crate) fn sign(&mut self, sign: Sign) -> Result<(), Stop>
        ensures { IsReadResult result self.new (sign_at sign self.old) }
    {
        if let Some(word) = self.word()
            && word.is_sign(sign)
        {
            self.advance();
            return Ok(());
        }
        Err(UNEXPECTED)
    }

    /// Passes `$arg`.
    #[tactic(auto, unfolding(crate::specs::Steps::leaf_at))]
    pub(crate) fn arg(&mut self) -> Result<(), Stop>
        ensures { IsReadResult result self.new (arg_at self.old) }
    {
        if let Some(word) = self.word()
            && word.is_arg()
        {
            self.advance();
            return Ok(());
        }
        Err(UNEXPECTED)
    }

    /// Passes a name.
    #[tactic(auto, unfolding(crate::specs::Steps::leaf_at))]
    pub(crate) fn name(&mut self, alloc: Global) -> Result<Text, Stop>
        ensures { IsReadResult result self.new (name_at self.old) }
    {
        let Some(name) = self.word().and_then(Seen::name) else {
            return Err(UNEXPECTED);
        };
        let name = copied(alloc, name)?;
        self.advance();
        Ok(name)
    }

    /// Passes a string, and gives the text between its quotes.
    #[tactic(auto, unfolding(crate::specs::Steps::leaf_at))]
    pub(crate) fn quoted(&mut self, alloc: Global) -> Result<Text, Stop>
        ensures { IsReadResult result self.new (quoted_at self.old) }
    {
        let Some(quoted) = self.word().and_then(Seen::quoted) else {
            return Err(UNEXPECTED);
        };
        let quoted = copied(alloc, quoted)?;
        self.advance();
        Ok(quoted)
    }

    /// Passes a focus.
    #[tactic(auto, unfolding(crate::specs::Steps::leaf_at))]
    pub(crate) fn path(&mut self, alloc: Global) -> Result<Text, Stop>
        ensures { IsReadResult result self.new (path_at self.old) }
    {
        let Some(path) = self.word().and_then(Seen::path) else {
            return Err(UNEXPECTED);
        };
        let path = copied(alloc, path)?;
        self.advance();
        Ok(path)
    }

    /// Passes a number.
    #[tactic(auto, unfolding(crate::specs::Steps::leaf_at))]
    pub(crate) fn number(&mut self) -> Result<u32, Stop>
        ensures { IsReadResult result self.new (number_at self.old) }
    {
        let Some(number) = self.word().and_then(Seen::number) else {
            return Err(UNEXPECTED);
        };
        self.advance();
        Ok(number)
    }

    /// Passes the name of a kind of points.
    #[tactic(auto, unfolding(crate::specs::Steps::leaf_at))]
    pub(crate) fn event(&mut self) -> Result<EventKind, Stop>
        ensures { IsReadResult result self.new (event_at self.old) }
    {
        let Some(event) = self.word().and_then(Seen::event) else {
            return Err(UNEXPECTED);
        };
        self.advance();
        Ok(event)
    }

    /// Passes a comparison.
    #[tactic(auto, unfolding(crate::specs::Steps::leaf_at))]
    pub(crate) fn cmp(&mut self) -> Result<Cmp, Stop>
        ensures { IsReadResult result self.new (cmp_at self.old) }
    {
        let Some(cmp) = self.word().and_then(Seen::cmp) else {
            return Err(UNEXPECTED);
        };
        self.advance();
        Ok(cmp)
    }

    /// Passes the right side of a condition.
    #[tactic(auto, unfolding(crate::specs::Steps::leaf_at))]
    pub(crate) fn right(&mut self) -> Result<RightSide, Stop>
        ensures { IsReadResult result self.new (right_at self.old) }
    {
        let Some(right) = self.word().and_then(Seen::right) else {
            return Err(UNEXPECTED);
        };
        self.advance();
        Ok(right)
    }

    /// Passes `++` or `--`.
    #[tactic(auto, unfolding(crate::specs::Steps::leaf_at))]
    pub(crate) fn step(&mut self) -> Result<Change, Stop>
        ensures { IsReadResult result self.new (step_at self.old) }
    {
        let Some(step) = self.word().and_then(Seen::step) else {
            return Err(UNEXPECTED);
        };
        self.advance();
        Ok(step)
    }

    /// Passes `$focus` or `$all`.
    #[tactic(auto, unfolding(crate::specs::Steps::leaf_at))]
    pub(crate) fn whole(&mut self) -> Result<Set, Stop>
        ensures { IsReadResult result self.new (whole_at self.old) }
    {
        let Some(whole) = self.word().and_then(Seen::whole) else {
            return Err(UNEXPECTED);
        };
        self.advance();
        Ok(whole)
    }

    /// Passes one of two keywords, and says whether it was the first.
    #[tactic(auto, unfolding(crate::specs::Steps::leaf_at))]
    pub(crate) fn choice(&mut self, one: &[u8], other: &[u8]) -> Result<bool, Stop>
        ensures { IsReadResult result self.new (choice_at one.now other.now self.old) }
    {
        let Some(word) = self.word() else {
            return Err(UNEXPECTED);
        };
        let Some(is_one) = word.choice(one, other) else {
            return Err(UNEXPECTED);
        };
        self.advance();
        Ok(is_one)
    }

    /// Passes a variable.
    #[tactic(auto, unfolding(crate::specs::Steps::leaf_at))]
    pub(crate) fn var(&mut self, alloc: Global) -> Result<VarName, Stop>
        ensures { IsReadResult result self.new (var_at self.old) }
    {
        let Some(seen) = self.word().and_then(Seen::var) else {
            return Err(UNEXPECTED);
        };
        let var = var(alloc, seen)?;
        self.advance();
        Ok(var)
    }
}
