//! Conditions and statements.

ghost use Rattle.std.specs.Prelude.{◌≡◌, ◌+◌, ◌<◌, ◌^◌, length};
ghost use Rattle.mdl_parse.specs.Gives.{IsReadResult};
ghost use Rattle.mdl_parse.specs.Parts.{argument_at, variable_at, left_at, condition_at, conditions_at, put_at, change_at, changed_at, timed_at, action_at, statement_at};

use crate::change::{Change, changed, timed};
use crate::refusal::{Refusal, Stop};
use crate::words::Words;
use mdl_ast::{Action, Condition, LeftName, Statement};
use pn_text::Sign;
use pn_types::Seq;
use std::alloc::Global;

impl<'a> Words<'a> {
    /// Passes an argument: `$arg [ NUMBER ]`.
    #[tactic(auto, unfolding(crate::specs::Parts::argument_at))]
    fn argument(&mut self) -> Result<LeftName, Stop>
        ensures { IsReadResult result self.new (argument_at self.old) }
    {
        self.arg()?;
        self.sign(Sign::OpenBracket)?;
        let number = self.number()?;
        self.sign(Sign::CloseBracket)?;
        Ok(LeftName::Argument(number))
    }

    /// Passes the left side of a condition.
    #[tactic(auto, unfolding(crate::specs::Parts::left_at, crate::specs::Parts::variable_at))]
    fn left(&mut self, alloc: Global) -> Result<LeftName, Stop>
        ensures { IsReadResult result self.new (left_at self.old) }
    {
        if self.is_arg() {
            return Ok(self.argument()?);
        }
        let var = self.var(alloc)?;
        Ok(LeftName::Variable(var))
    }

    /// Passes a condition: `if ( left cmp right )`.
    #[tactic(auto, unfolding(crate::specs::Parts::condition_at))]
    fn condition(&mut self, alloc: Global) -> Result<Condition, Stop>
        ensures { IsReadResult result self.new (condition_at self.old) }
    {
        self.keyword(b"if")?;
        self.sign(Sign::OpenParen)?;
        let left = self.left(alloc)?;
        let cmp = self.cmp()?;
        let right = self.right()?;
        self.sign(Sign::CloseParen)?;
        Ok(Condition { left, cmp, right })
    }

    /// Passes what is done with a variable.
    #[tactic(auto, unfolding(crate::specs::Parts::change_at, crate::specs::Parts::put_at))]
    fn change(&mut self) -> Result<Change, Stop>
        ensures { IsReadResult result self.new (change_at self.old) }
    {
        if self.is_sign(Sign::Assign) {
            self.sign(Sign::Assign)?;
            let number = self.number()?;
            return Ok(Change::Put(number));
        }
        Ok(self.step()?)
    }

    /// Passes a change of a variable: `var++;`, `var--;` or `var = NUMBER;`.
    #[tactic(auto, unfolding(crate::specs::Parts::changed_at))]
    fn changed(&mut self, alloc: Global) -> Result<Action, Stop>
        ensures { IsReadResult result self.new (changed_at self.old) }
    {
        let var = self.var(alloc)?;
        let change = self.change()?;
        self.sign(Sign::Semicolon)?;
        Ok(changed(var, change))
    }

    /// Passes the start or the stop of a timer.
    #[tactic(auto, unfolding(crate::specs::Parts::timed_at))]
    fn timed(&mut self, alloc: Global) -> Result<Action, Stop>
        ensures { IsReadResult result self.new (timed_at self.old) }
    {
        let start = self.choice(b"start", b"stop")?;
        self.sign(Sign::OpenParen)?;
        let var = self.var(alloc)?;
        self.sign(Sign::CloseParen)?;
        self.sign(Sign::Semicolon)?;
        Ok(timed(start, var))
    }

    /// Passes what a statement does.
    #[tactic(auto, unfolding(crate::specs::Parts::action_at))]
    fn action(&mut self, alloc: Global) -> Result<Action, Stop>
        ensures { IsReadResult result self.new (action_at self.old) }
    {
        if self.is_timing() {
            Ok(self.timed(alloc)?)
        } else {
            Ok(self.changed(alloc)?)
        }
    }

    /// Passes the conditions of a statement, of which there are at most `most`.
    fn conditions(&mut self, alloc: Global, most: usize) -> Result<Seq<Condition>, Stop>
        ensures { IsReadResult result self.new (conditions_at most self.old) }
    {
        let mut conds = Vec::new(alloc);
        'conditions: while self.is_keyword(b"if") {
            if conds.len() == most {
                return Err(Stop::Refused(Refusal::TooDeep));
            }
            let condition = self.condition(alloc)?;
            conds.push(condition)?;
        }
        Ok(Seq::from_vec(conds))
    }

    /// Passes a statement with at most `most` conditions.
    #[tactic(auto, unfolding(crate::specs::Parts::statement_at))]
    pub(crate) fn statement(&mut self, alloc: Global, most: usize) -> Result<Statement, Stop>
        ensures { IsReadResult result self.new (statement_at most self.old) }
    {
        let line = self.line();
        let conds = self.conditions(alloc, most)?;
        let act = self.action(alloc)?;
        Ok(Statement { line, conds, act })
    }
}
