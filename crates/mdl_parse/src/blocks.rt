//! Blocks and their insertions.

ghost use Rattle.std.specs.Prelude.{◌≡◌, codes};
ghost use Rattle.mdl_parse.specs.Gives.{IsReadResult};
ghost use Rattle.mdl_parse.specs.Picks.{is_sign, is_var, is_insertion};
ghost use Rattle.mdl_parse.specs.Shapes.{is_keyword};
ghost use Rattle.mdl_parse.specs.Steps.{many_at};
ghost use Rattle.mdl_parse.specs.Parts.{statement_at, flag_at, insertion_at, another_at, names_at, named_at, set_at, block_at, blocks_at};

use crate::refusal::Stop;
use crate::words::Words;
use mdl_ast::{Block, Insertion, Set, Statement};
use pn_text::Sign;
use pn_types::{Seq, Text};
use std::alloc::Global;

impl<'a> Words<'a> {
    /// Passes the keyword if it is in view, and says whether it was.
    #[tactic(auto, unfolding(crate::specs::Parts::flag_at))]
    fn flag(&mut self, text: &[u8]) -> Result<bool, Stop>
        ensures { IsReadResult result self.new (flag_at text.now self.old) }
    {
        if self.is_keyword(text) {
            self.keyword(text)?;
            return Ok(true);
        }
        Ok(false)
    }

    /// Passes all statements that stand here.
    #[tactic(auto, using(crate::proofs::Loops::loop_shorter, crate::proofs::Loops::loop_more, crate::proofs::Loops::loop_all, crate::proofs::Loops::loop_stops, crate::proofs::BlockRules::statements_loop))]
    fn statements(&mut self, alloc: Global, most: usize) -> Result<Seq<Statement>, Stop>
        ensures { IsReadResult result self.new (many_at is_var (statement_at most) self.old) }
    {
        let mut statements = Vec::new(alloc);
        'statements: while self.is_var() {
            let statement = self.statement(alloc, most)?;
            statements.push(statement)?;
        }
        Ok(Seq::from_vec(statements))
    }

    /// Passes an insertion.
    #[tactic(auto, unfolding(crate::specs::Parts::insertion_at))]
    fn insertion(&mut self, alloc: Global, most: usize) -> Result<Insertion, Stop>
        ensures { IsReadResult result self.new (insertion_at most self.old) }
    {
        let line = self.line();
        let prepend = self.choice(b"prepend", b"append")?;
        let kind = self.event()?;
        let constrained = self.flag(b"constrained")?;
        self.sign(Sign::OpenCode)?;
        let stmts = self.statements(alloc, most)?;
        self.sign(Sign::CloseCode)?;
        Ok(Insertion {
            line,
            prepend,
            kind,
            constrained,
            stmts,
        })
    }

    /// Passes all insertions that stand here.
    #[tactic(auto, using(crate::proofs::Loops::loop_shorter, crate::proofs::Loops::loop_more, crate::proofs::Loops::loop_all, crate::proofs::Loops::loop_stops, crate::proofs::BlockRules::insertions_loop))]
    fn insertions(&mut self, alloc: Global, most: usize) -> Result<Seq<Insertion>, Stop>
        ensures { IsReadResult result self.new (many_at is_insertion (insertion_at most) self.old) }
    {
        let mut insertions = Vec::new(alloc);
        'insertions: while self.is_insertion() {
            let insertion = self.insertion(alloc, most)?;
            insertions.push(insertion)?;
        }
        Ok(Seq::from_vec(insertions))
    }

    /// Passes a comma and a name.
    #[tactic(auto, unfolding(crate::specs::Parts::another_at))]
    fn another(&mut self, alloc: Global) -> Result<Text, Stop>
        ensures { IsReadResult result self.new (another_at self.old) }
    {
        self.sign(Sign::Comma)?;
        Ok(self.name(alloc)?)
    }

    /// Passes names between commas, at least one.
    #[tactic(auto, using(crate::proofs::Loops::loop_shorter, crate::proofs::Loops::loop_more, crate::proofs::Loops::loop_all, crate::proofs::Loops::loop_stops, crate::proofs::BlockRules::names_loop, crate::proofs::NameLoop::names_begin, crate::proofs::NameLoop::names_stop))]
    pub(crate) fn names(&mut self, alloc: Global) -> Result<Seq<Text>, Stop>
        ensures { IsReadResult result self.new (names_at self.old) }
    {
        let mut names = Vec::new(alloc);
        let name = self.name(alloc)?;
        names.push(name)?;
        'names: while self.is_sign(Sign::Comma) {
            let name = self.another(alloc)?;
            names.push(name)?;
        }
        Ok(Seq::from_vec(names))
    }

    /// Passes names in brackets.
    #[tactic(auto, unfolding(crate::specs::Parts::named_at))]
    fn named(&mut self, alloc: Global) -> Result<Set, Stop>
        ensures { IsReadResult result self.new (named_at self.old) }
    {
        self.sign(Sign::OpenBracket)?;
        let names = self.names(alloc)?;
        self.sign(Sign::CloseBracket)?;
        Ok(Set::Names(names))
    }

    /// Passes a set of procedures.
    #[tactic(auto, unfolding(crate::specs::Parts::set_at))]
    fn set(&mut self, alloc: Global) -> Result<Set, Stop>
        ensures { IsReadResult result self.new (set_at self.old) }
    {
        if self.is_sign(Sign::OpenBracket) {
            Ok(self.named(alloc)?)
        } else {
            Ok(self.whole()?)
        }
    }

    /// Passes a block.
    #[tactic(auto, unfolding(crate::specs::Parts::block_at))]
    fn block(&mut self, alloc: Global, most: usize) -> Result<Block, Stop>
        ensures { IsReadResult result self.new (block_at most self.old) }
    {
        let line = self.start(b"foreach")?;
        self.keyword(b"func")?;
        self.keyword(b"in")?;
        let set = self.set(alloc)?;
        self.sign(Sign::OpenBrace)?;
        let insertions = self.insertions(alloc, most)?;
        self.sign(Sign::CloseBrace)?;
        Ok(Block {
            line,
            set,
            insertions,
        })
    }

    /// Passes all blocks that stand here.
    #[tactic(auto, using(crate::proofs::Loops::loop_shorter, crate::proofs::Loops::loop_more, crate::proofs::Loops::loop_all, crate::proofs::Loops::loop_stops, crate::proofs::BlockRules::blocks_loop))]
    fn all_blocks(&mut self, alloc: Global, most: usize) -> Result<Seq<Block>, Stop>
        ensures { IsReadResult result self.new (many_at (is_keyword (codes "foreach")) (block_at most) self.old) }
    {
        let mut blocks = Vec::new(alloc);
        'each: while self.is_keyword(b"foreach") {
            let block = self.block(alloc, most)?;
            blocks.push(block)?;
        }
        Ok(Seq::from_vec(blocks))
    }

    /// Passes the blocks of a metric or a constraint, in braces.
    #[tactic(auto, unfolding(crate::specs::Parts::blocks_at))]
    pub(crate) fn blocks(&mut self, alloc: Global, most: usize) -> Result<Seq<Block>, Stop>
        ensures { IsReadResult result self.new (blocks_at most self.old) }
    {
        self.sign(Sign::OpenBrace)?;
        let blocks = self.all_blocks(alloc, most)?;
        self.sign(Sign::CloseBrace)?;
        Ok(blocks)
    }
}
