//! Plans that are large in slots, or in sites and the range of an Open.

ghost use Rattle.std.specs.Prelude.{◌≡◌, ◌*◌, ◌<◌, ◌^◌, [], ◌∷◌, if◌then◌else◌, IfOk, length};
ghost use Rattle.std.specs.List.{AllByRecursion};
ghost use Rattle.frame_walk.specs.Rooms.{IsSmall};
ghost use Rattle.machine.specs.Cores.{In};
ghost use Rattle.pn_types.specs.declared.plan.Act.TheVariants.{Up};
ghost use Rattle.pn_types.specs.declared.plan.Site.{Site};
ghost use Rattle.prim_code.specs.Counts.{predicted, site_words};
ghost use Rattle.prim_code.specs.Named.{AreBelow};
ghost use Rattle.instrument.specs.Admission.{slot_count};
ghost use Rattle.instrument.specs.Armable.{IsArmable};

use pn_types::{Act, NoMemory, Open, Plan, Seq, Site, Stmt, Text, Var};
use std::alloc::Global;

/// A variable without a name.
fn variable(alloc: Global, timer: bool) -> Var
    ensures { result.timer ≡ timer }
{
    Var {
        name: Text::from_vec(Vec::new(alloc)),
        timer,
        initially: 0,
    }
}

/// A plan of `count` variables, all timers or all counters, and no site.
///
/// # Errors
///
/// `NoMemory` if memory runs out.
pub fn variables(alloc: Global, count: u32, timers: bool) -> Result<Plan, NoMemory>
    ensures slots { IfOk result (λ plan. slot_count plan.vars ≡ (if timers then 2 else 1) * count) }
    ensures sites { IfOk result (λ plan. plan.sites ≡ []) }
    ensures armable { IfOk result (λ plan. IsArmable plan.opens) }
{
    let mut vars = Vec::new(alloc);
    for _ in 0..count {
        vars.push(variable(alloc, timers))?;
    }
    Ok(Plan {
        vars: Seq::from_vec(vars),
        sites: Seq::from_vec(Vec::new(alloc)),
        opens: Seq::from_vec(Vec::new(alloc)),
    })
}

/// The first variable is counted up.
fn counting(alloc: Global) -> Result<Seq<Stmt>, NoMemory>
    ensures { IfOk result (λ stmts. stmts ≡ record { conds = []; act = Up 0 } ∷ []) }
{
    let mut stmts = Vec::new(alloc);
    stmts.push(Stmt {
        conds: Seq::from_vec(Vec::new(alloc)),
        act: Act::Up(0),
    })?;
    Ok(Seq::from_vec(stmts))
}

/// The first variable is counted up at an address.
fn counting_site(alloc: Global, at: u64) -> Result<Site, NoMemory>
    ensures named { IfOk result (λ site. AreBelow 1 site.stmts) }
    ensures words { IfOk result (λ site. site_words site ≡ 5) }
{
    Ok(Site {
        at,
        stmts: counting(alloc)?,
    })
}

/// The first variable is counted up where a hart is inside the `words` words from an address on.
fn counting_opens(alloc: Global, at: u64, words: u32) -> Result<Seq<Open>, NoMemory>
    ensures { IfOk result (AllByRecursion IsSmall) }
{
    let mut opens = Vec::new(alloc);
    opens.push(Open {
        start: at,
        len: 4 * words as u64,
        stmts: counting(alloc)?,
    })?;
    Ok(Seq::from_vec(opens))
}

/// A plan of one counter, which is counted up at each of the `words` words from an address on, and for each hart that is inside
/// them.
///
/// # Errors
///
/// `NoMemory` if memory runs out.
pub fn counted_words(alloc: Global, at: u64, words: u32) -> Result<Plan, NoMemory>
    requires { at < 2 ^ 62 }
    ensures vars { IfOk result (λ plan. length plan.vars ≡ 1) }
    ensures slots { IfOk result (λ plan. slot_count plan.vars ≡ 1) }
    ensures named { IfOk result (λ plan. (s : Site) → In s plan.sites → AreBelow 1 s.stmts) }
    ensures words { IfOk result (λ plan. predicted plan ≡ 5 * words) }
    ensures armable { IfOk result (λ plan. IsArmable plan.opens) }
{
    let mut vars = Vec::new(alloc);
    vars.push(variable(alloc, false))?;
    let mut sites = Vec::new(alloc);
    for word in 0..words {
        sites.push(counting_site(alloc, at + 4 * word as u64)?)?;
    }
    Ok(Plan {
        vars: Seq::from_vec(vars),
        sites: Seq::from_vec(sites),
        opens: counting_opens(alloc, at, words)?,
    })
}
