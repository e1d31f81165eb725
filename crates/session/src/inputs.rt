//! What a session is given.

ghost use Rattle.std.specs.Prelude.{◌≡◌, ◌<◌, ◌^◌, IfOk, length};
ghost use Rattle.session_spec.specs.Inputs.{inputs_of};
ghost use Rattle.session_spec.specs.Searches.{rules_of};
ghost use Rattle.session.specs.NodeCandidates.{first_search};
ghost use Rattle.session.specs.Given.{AreGiven};

use mdl_ast::SearchDecl;
use mdl_check::Checked;
use mdl_plan::PlanIndex;
use pn_types::{Image, NoMemory, Point, Proc, Seq, Settings};
use resource_tree::Tree;
use std::alloc::Global;
use std::marker::Model;
use w3_search::Search;

/// The declaration of a search that has no hypotheses.
const NO_SEARCH: SearchDecl = SearchDecl {
    line: 0,
    window: 1,
    cost: 0,
    observed: 0,
};

/// What a session is given: a program, what its configuration holds, the program's resources, procedures and points, and the
/// numbers of the run. Contracts see the definitions' inputs.
pub struct Inputs {
    /// The program, whose text never names x31.
    pub image: Image,
    /// What the configuration holds.
    pub checked: Checked,
    /// The program's resources on the settings' harts.
    pub tree: Tree,
    /// The numbers of the run.
    pub settings: Settings,
    // The program's procedures in the order of the tree, its points by address, and what plans look up of them.
    pub(crate) index: PlanIndex,
}

impl Model for Inputs {
    ghost use Rattle.session_spec.specs.Inputs.{Inputs};

    ghost Value = { Inputs };

    ghost view = { λ i. record {
      image = i.image;
      checked = i.checked;
      tree = i.tree;
      procs = i.index.procs;
      points = i.index.points;
      settings = i.settings;
    } };
}

// Its drop is a function of its own, so that callers need not prove the drops of all its parts.
impl Drop for Inputs {
    fn drop(self) {
        let Inputs {
            image: _,
            checked: _,
            tree: _,
            settings: _,
            index: _,
        } = self;
    }
}

impl Inputs {
    /// Puts inputs together. The work is linear in the procedures and points.
    ///
    /// # Errors
    ///
    /// `NoMemory` where memory runs out.
    pub fn new(
        alloc: Global,
        image: Image,
        checked: Checked,
        tree: Tree,
        procs: Seq<Proc>,
        points: Seq<Point>,
        settings: Settings,
    ) -> Result<Inputs, NoMemory>
        requires procs { length procs < 2 ^ 32 }
        requires points { length points < 2 ^ 32 }
        ensures { IfOk result (λ inputs. inputs ≡ inputs_of image checked tree procs points settings) }
    {
        let index = PlanIndex::new(alloc, procs, points)?;
        Ok(Inputs {
            image,
            checked,
            tree,
            settings,
            index,
        })
    }

    /// Returns the ticks of a sample's interval.
    pub(crate) fn width(&self) -> u64
        ensures { result ≡ self.now.settings.width }
    {
        self.settings.width
    }

    /// Returns how the search goes. Where none is wanted, it is one without hypotheses.
    pub(crate) fn search_decl(&self) -> SearchDecl
        ensures { result ≡ (rules_of self.now).decl }
    {
        self.checked.search.unwrap_or(NO_SEARCH)
    }

    /// Returns the search, before anything is tested.
    ///
    /// # Errors
    ///
    /// `NoMemory` where memory runs out.
    #[tactic(auto, unfolding(crate::specs::NodeCandidates::first_search))]
    pub(crate) fn search(&self, alloc: Global) -> Result<Search, NoMemory>
        requires { AreGiven self.now }
        ensures { IfOk result (λ search. search ≡ first_search self.now) }
    {
        match &self.checked.search {
            Some(decl) => Search::new(
                alloc,
                self.checked.hypotheses.as_slice(),
                decl,
                self.checked.phases.as_slice(),
                &self.tree,
            ),
            None => Search::new(alloc, &[], &NO_SEARCH, &[], &self.tree),
        }
    }
}
