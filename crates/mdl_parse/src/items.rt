//! The items of a configuration.

ghost use Rattle.std.specs.Prelude.{◌≡◌};
ghost use Rattle.mdl_parse.specs.Gives.{IsReadResult};
ghost use Rattle.mdl_parse.specs.Items.{include_at, sync_at, search_at, phase_at, wish_at, item_at, items_at};

use crate::refusal::Stop;
use crate::words::Words;
use mdl_ast::{Conf, Include, Item, PhaseDecl, SearchDecl, SyncDecl, Wish};
use pn_text::Sign;
use pn_types::Seq;
use std::alloc::Global;

impl<'a> Words<'a> {
    /// Passes an include.
    #[tactic(auto, unfolding(crate::specs::Items::include_at))]
    fn include(&mut self) -> Result<Include, Stop>
        ensures { IsReadResult result self.new (include_at self.old) }
    {
        let line = self.start(b"include")?;
        let metrics = self.choice(b"metrics", b"hypotheses")?;
        self.sign(Sign::Semicolon)?;
        Ok(Include { line, metrics })
    }

    /// Passes a beginning of object names.
    #[tactic(auto, unfolding(crate::specs::Items::sync_at))]
    fn sync(&mut self, alloc: Global) -> Result<SyncDecl, Stop>
        ensures { IsReadResult result self.new (sync_at self.old) }
    {
        let line = self.start(b"sync")?;
        let name = self.name(alloc)?;
        self.sign(Sign::Semicolon)?;
        Ok(SyncDecl { line, name })
    }

    /// Passes how the search goes.
    #[tactic(auto, unfolding(crate::specs::Items::search_at))]
    fn search(&mut self) -> Result<SearchDecl, Stop>
        ensures { IsReadResult result self.new (search_at self.old) }
    {
        let line = self.start(b"search")?;
        self.sign(Sign::OpenBrace)?;
        let window = self.number_field(b"window")?;
        let cost = self.number_field(b"cost")?;
        let observed = self.number_field(b"observed")?;
        self.sign(Sign::CloseBrace)?;
        Ok(SearchDecl {
            line,
            window,
            cost,
            observed,
        })
    }

    /// Passes a phase.
    #[tactic(auto, unfolding(crate::specs::Items::phase_at))]
    fn phase(&mut self, alloc: Global) -> Result<PhaseDecl, Stop>
        ensures { IsReadResult result self.new (phase_at self.old) }
    {
        let line = self.start(b"phase")?;
        let name = self.name(alloc)?;
        let at = self.number_field(b"at")?;
        Ok(PhaseDecl { line, name, at })
    }

    /// Passes a wish.
    #[tactic(auto, unfolding(crate::specs::Items::wish_at))]
    fn wish(&mut self, alloc: Global) -> Result<Wish, Stop>
        ensures { IsReadResult result self.new (wish_at self.old) }
    {
        let line = self.start(b"at")?;
        let at = self.number()?;
        let show = self.choice(b"show", b"drop")?;
        let metric = self.name(alloc)?;
        let focus = self.path(alloc)?;
        self.sign(Sign::Semicolon)?;
        Ok(Wish {
            line,
            at,
            show,
            metric,
            focus,
        })
    }

    /// Passes an item.
    #[tactic(auto, unfolding(crate::specs::Items::item_at))]
    fn item(&mut self, alloc: Global, most: usize) -> Result<Item, Stop>
        ensures { IsReadResult result self.new (item_at most self.old) }
    {
        if self.is_keyword(b"include") {
            return Ok(Item::Include(self.include()?));
        }
        if self.is_keyword(b"sync") {
            return Ok(Item::Sync(self.sync(alloc)?));
        }
        if self.is_keyword(b"metric") {
            return Ok(Item::Metric(self.metric(alloc, most)?));
        }
        if self.is_keyword(b"constraint") {
            return Ok(Item::Constraint(self.constraint(alloc, most)?));
        }
        if self.is_keyword(b"hypothesis") {
            return Ok(Item::Hypothesis(self.hypothesis(alloc)?));
        }
        if self.is_keyword(b"search") {
            return Ok(Item::Search(self.search()?));
        }
        if self.is_keyword(b"phase") {
            return Ok(Item::Phase(self.phase(alloc)?));
        }
        Ok(Item::Wish(self.wish(alloc)?))
    }

    /// Passes all items, up to the end.
    #[tactic(auto, using(crate::proofs::Loops::loop_shorter, crate::proofs::Loops::loop_more, crate::proofs::Loops::loop_all, crate::proofs::Loops::loop_stops, crate::proofs::AllItems::items_loop))]
    pub(crate) fn items(&mut self, alloc: Global, most: usize) -> Result<Seq<Item>, Stop>
        ensures { IsReadResult result self.new (items_at most self.old) }
    {
        let mut items = Vec::new(alloc);
        'items: while self.has_more() {
            let item = self.item(alloc, most)?;
            items.push(item)?;
        }
        Ok(Seq::from_vec(items))
    }
}
