//! What the admission of a plan needs in memory of its own.

ghost use Rattle.std.specs.Prelude.{◌≡◌, ◌<◌, ◌^◌, IfOk, length};
ghost use Rattle.std.specs.Cmp.Lexicographic.{pointwise};
ghost use Rattle.prim_code.specs.Counts as counts;
ghost use Rattle.instrument.specs.Needs as needs;

use crate::opens::{are_opens, copy_opens};
use crate::site_memory::SiteMemory;
use crate::slots::copy_vars;
use pn_types::{NoMemory, Open, Plan, Seq, Var};
use std::alloc::Global;
use std::marker::Model;

/// Returns whether two variables are the same.
fn is_var(one: &Var, other: &Var) -> bool
    ensures { result ≡ needs.is_var one.now other.now }
{
    one.name.bytes() == other.name.bytes()
        && one.timer == other.timer
        && one.initially == other.initially
}

/// Returns whether variables are the same.
fn are_vars(ones: &[Var], others: &[Var]) -> bool
    ensures { result ≡ pointwise needs.is_var ones.now others.now }
{
    if ones.len() != others.len() {
        return false;
    }
    for place in 0..ones.len() {
        if !is_var(&ones[place], &others[place]) {
            return false;
        }
    }
    true
}

/// The memory that the admission of a plan needs for the plan alone: its variables and its Opens, copied, room for slots, and the
/// memory of its sites. Contracts see the need that it meets.
#[derive(Drop)]
pub struct Kit {
    /// The variables.
    pub vars: Vec<Var>,
    /// No slots, and room for one of each variable.
    pub slots: Vec<u32>,
    /// The memory of the sites.
    pub sites: SiteMemory,
    /// The Opens.
    pub opens: Seq<Open>,
}

impl Model for Kit {
    ghost use Rattle.std.specs.Prelude.{◌≡◌, ◌≤◌, [], length, vec_capacity};
    ghost use Rattle.instrument.specs.Needs.{Need};

    ghost Value = { Need };

    ghost view = { λ k. record { vars = k.vars.items; words = k.sites; opens = k.opens } };

    ghost invariant = { λ k. (k.slots.items ≡ []) × (length k.vars.items ≤ vec_capacity k.slots) };
}

impl Kit {
    /// Takes the memory for a plan.
    ///
    /// # Errors
    ///
    /// `NoMemory` where memory runs out.
    pub fn new(alloc: Global, plan: &Plan) -> Result<Kit, NoMemory>
        requires { counts.predicted plan.now < 2 ^ 32 }
        ensures { IfOk result (λ kit. kit ≡ needs.need_of plan.now) }
    {
        let vars = plan.vars.as_slice();
        Ok(Kit {
            vars: copy_vars(alloc, vars)?,
            slots: Vec::with_capacity(alloc, vars.len())?,
            sites: SiteMemory::new(alloc, plan.sites.as_slice())?,
            opens: copy_opens(alloc, plan.opens.as_slice())?,
        })
    }

    /// Returns for how many sites it is.
    pub fn sites(&self) -> usize
        ensures { result ≡ length self.now.words }
    {
        self.sites.len()
    }

    /// Returns whether it meets the need of the plan.
    pub fn is_for(&self, plan: &Plan) -> bool
        requires { counts.predicted plan.now < 2 ^ 32 }
        ensures { result ≡ needs.is_need (needs.need_of plan.now) self.now }
    {
        are_vars(plan.vars.as_slice(), self.vars.as_slice())
            && self.sites.is_for(plan.sites.as_slice())
            && are_opens(plan.opens.as_slice(), self.opens.as_slice())
    }
}
