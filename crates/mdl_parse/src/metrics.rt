//! Metrics, constraints and hypotheses.

ghost use Rattle.std.specs.Prelude.{◌≡◌};
ghost use Rattle.mdl_parse.specs.Gives.{IsReadResult};
ghost use Rattle.mdl_parse.specs.Items.{opened_at, initial_at, initially_at, reference_at, references_at, units_at, base_at, body_at, metric_at, constraint_at, named_field_at, number_field_at, parent_at, axis_names_at, axes_at, hypothesis_at};

use crate::refusal::Stop;
use crate::words::Words;
use mdl_ast::{Block, Constraint, Hypothesis, Metric};
use pn_text::Sign;
use pn_types::{Seq, Text};
use std::alloc::Global;

impl<'a> Words<'a> {
    /// Passes the keyword, a name and `{`, and gives the line of the keyword and the name.
    #[tactic(auto, unfolding(crate::specs::Items::opened_at))]
    fn opened(&mut self, alloc: Global, text: &[u8]) -> Result<(u32, Text), Stop>
        ensures { IsReadResult result self.new (opened_at text.now self.old) }
    {
        let line = self.start(text)?;
        let name = self.name(alloc)?;
        self.sign(Sign::OpenBrace)?;
        Ok((line, name))
    }

    /// Passes the value at first, where it is written.
    #[tactic(auto, unfolding(crate::specs::Items::initial_at, crate::specs::Steps::option_at))]
    fn initially(&mut self) -> Result<Option<u32>, Stop>
        ensures { IsReadResult result self.new (initially_at self.old) }
    {
        if self.is_keyword(b"initially") {
            self.keyword(b"initially")?;
            let number = self.number()?;
            return Ok(Some(number));
        }
        Ok(None)
    }

    /// Passes the name of a constraint that a metric takes.
    #[tactic(auto, unfolding(crate::specs::Items::reference_at))]
    fn reference(&mut self, alloc: Global) -> Result<Text, Stop>
        ensures { IsReadResult result self.new (reference_at self.old) }
    {
        self.keyword(b"constraint")?;
        let name = self.name(alloc)?;
        self.sign(Sign::Semicolon)?;
        Ok(name)
    }

    /// Passes all names of constraints that stand here.
    #[tactic(auto, using(crate::proofs::Loops::loop_shorter, crate::proofs::Loops::loop_more, crate::proofs::Loops::loop_all, crate::proofs::Loops::loop_stops, crate::proofs::ItemRules::references_loop))]
    fn references(&mut self, alloc: Global) -> Result<Seq<Text>, Stop>
        ensures { IsReadResult result self.new (references_at self.old) }
    {
        let mut names = Vec::new(alloc);
        'names: while self.is_keyword(b"constraint") {
            let name = self.reference(alloc)?;
            names.push(name)?;
        }
        Ok(Seq::from_vec(names))
    }

    /// Passes the unit of a metric.
    #[tactic(auto, unfolding(crate::specs::Items::units_at))]
    fn units(&mut self, alloc: Global) -> Result<Text, Stop>
        ensures { IsReadResult result self.new (units_at self.old) }
    {
        self.keyword(b"units")?;
        let units = self.quoted(alloc)?;
        self.sign(Sign::Semicolon)?;
        Ok(units)
    }

    /// Passes what a metric is, and says whether it is a timer.
    #[tactic(auto, unfolding(crate::specs::Items::base_at))]
    fn base(&mut self) -> Result<bool, Stop>
        ensures { IsReadResult result self.new (base_at self.old) }
    {
        self.keyword(b"base")?;
        self.keyword(b"is")?;
        Ok(self.choice(b"timer", b"counter")?)
    }

    /// Passes the value at first and the blocks.
    #[tactic(auto, unfolding(crate::specs::Items::body_at))]
    fn body(&mut self, alloc: Global, most: usize) -> Result<(Option<u32>, Seq<Block>), Stop>
        ensures { IsReadResult result self.new (body_at most self.old) }
    {
        let initially = self.initially()?;
        let blocks = self.blocks(alloc, most)?;
        Ok((initially, blocks))
    }

    /// Passes a metric.
    #[tactic(auto, unfolding(crate::specs::Items::metric_at))]
    pub(crate) fn metric(&mut self, alloc: Global, most: usize) -> Result<Metric, Stop>
        ensures { IsReadResult result self.new (metric_at most self.old) }
    {
        let (line, name) = self.opened(alloc, b"metric")?;
        let units = self.units(alloc)?;
        let constraints = self.references(alloc)?;
        let timer = self.base()?;
        let (initially, blocks) = self.body(alloc, most)?;
        self.sign(Sign::CloseBrace)?;
        Ok(Metric {
            line,
            name,
            units,
            constraints,
            timer,
            initially,
            blocks,
        })
    }

    /// Passes a constraint.
    #[tactic(auto, unfolding(crate::specs::Items::constraint_at))]
    pub(crate) fn constraint(&mut self, alloc: Global, most: usize) -> Result<Constraint, Stop>
        ensures { IsReadResult result self.new (constraint_at most self.old) }
    {
        let line = self.start(b"constraint")?;
        let name = self.name(alloc)?;
        let path = self.path(alloc)?;
        self.keyword(b"is")?;
        let replace = self.choice(b"replace", b"counter")?;
        let (initially, blocks) = self.body(alloc, most)?;
        Ok(Constraint {
            line,
            name,
            path,
            replace,
            initially,
            blocks,
        })
    }

    /// Passes the keyword, a name and `;`.
    #[tactic(auto, unfolding(crate::specs::Items::named_field_at))]
    fn named_field(&mut self, alloc: Global, text: &[u8]) -> Result<Text, Stop>
        ensures { IsReadResult result self.new (named_field_at text.now self.old) }
    {
        self.keyword(text)?;
        let name = self.name(alloc)?;
        self.sign(Sign::Semicolon)?;
        Ok(name)
    }

    /// Passes the keyword, a number and `;`.
    #[tactic(auto, unfolding(crate::specs::Items::number_field_at))]
    pub(crate) fn number_field(&mut self, text: &[u8]) -> Result<u32, Stop>
        ensures { IsReadResult result self.new (number_field_at text.now self.old) }
    {
        self.keyword(text)?;
        let number = self.number()?;
        self.sign(Sign::Semicolon)?;
        Ok(number)
    }

    /// Passes the parent of a hypothesis, where it is written.
    #[tactic(auto, unfolding(crate::specs::Steps::option_at))]
    fn parent(&mut self, alloc: Global) -> Result<Option<Text>, Stop>
        ensures { IsReadResult result self.new (parent_at self.old) }
    {
        if self.is_keyword(b"parent") {
            let name = self.named_field(alloc, b"parent")?;
            return Ok(Some(name));
        }
        Ok(None)
    }

    /// Passes the axes of a hypothesis; none where they aren't written.
    #[tactic(auto, unfolding(crate::specs::Items::axes_at, crate::specs::Items::axis_names_at))]
    fn axes(&mut self, alloc: Global) -> Result<Seq<Text>, Stop>
        ensures { IsReadResult result self.new (axes_at self.old) }
    {
        if self.is_keyword(b"axes") {
            self.keyword(b"axes")?;
            let names = self.names(alloc)?;
            self.sign(Sign::Semicolon)?;
            return Ok(names);
        }
        Ok(Seq::from_vec(Vec::new(alloc)))
    }

    /// Passes a hypothesis.
    #[tactic(auto, unfolding(crate::specs::Items::hypothesis_at))]
    pub(crate) fn hypothesis(&mut self, alloc: Global) -> Result<Hypothesis, Stop>
        ensures { IsReadResult result self.new (hypothesis_at self.old) }
    {
        let (line, name) = self.opened(alloc, b"hypothesis")?;
        let parent = self.parent(alloc)?;
        let metric = self.named_field(alloc, b"metric")?;
        let threshold = self.number_field(b"threshold")?;
        let axes = self.axes(alloc)?;
        self.sign(Sign::CloseBrace)?;
        Ok(Hypothesis {
            line,
            name,
            parent,
            metric,
            threshold,
            axes,
        })
    }
}
