//! Admits a plan.

ghost use Rattle.std.specs.Prelude.{◌≡◌, ◌+◌, ◌*◌, ◌<◌, ◌≤◌, ◌^◌, [], Ok, Err, IfErr, IfOk, OnOk, length};
ghost use Rattle.machine.specs.Cores.{In};
ghost use Rattle.pn_types.specs.declared.plan.Site.{Site};
ghost use Rattle.prim_code.specs.Counts as table;
ghost use Rattle.prim_code.specs.Named.{AreBelow};
ghost use Rattle.instrument.specs.Admission as admission;
ghost use Rattle.instrument.specs.Needs.{need_of};
ghost use Rattle.instrument.specs.Placements as placements;
ghost use Rattle.instrument.specs.declared.number.State.TheVariants.{Placing};

use crate::instrument::Instrument;
use crate::kit::Kit;
use crate::number::{InstrumentNo, Refused, State};
use crate::slots::slots_from;
use crate::tool_text::ToolText;
use pn_types::{Placed, Plan, Seq};

/// Returns whether the cost in words is above the search's limit, if there is one.
pub fn is_over(limit: Option<u64>, cost: u64) -> bool
    ensures { result ≡ placements.is_over limit cost }
{
    match limit {
        None => false,
        Some(limit) => limit < cost,
    }
}

/// Places the sites of a plan whose slots were found, from `first` on, with the memory of its kit, and returns the instrument.
///
/// # Errors
///
/// Why the first site that is refused has no room. Then nothing was placed.
pub fn place(
    text: &mut ToolText,
    number: InstrumentNo,
    first: u32,
    plan: &Plan,
    kit: Kit,
) -> Result<Instrument, Refused>
    requires rooms { 2 * length plan.now.sites ≤ text.old.spare_rooms }
    requires takes { 2 * length plan.now.sites ≤ text.old.takes }
    requires entries { 7 * length plan.now.sites ≤ text.old.entries }
    requires named { (s : Site) → In s plan.now.sites → AreBelow (length plan.now.vars) s.stmts }
    requires words { table.predicted plan.now < 2 ^ 32 }
    requires slots { first + admission.slot_count plan.now.vars < 2 ^ 32 }
    requires new { placements.sites_of number.n text.old.book.rooms ≡ [] }
    requires kit { kit ≡ need_of plan.now }
    ensures ok { OnOk result (admission.with_sites text.old.program number.n
        (admission.slots_from first plan.now.vars) plan.now.sites text.old.book ≡ Ok text.new.book) }
    ensures instrument { IfOk result (λ i. i ≡ record {
      no = number.n;
      placed = record {
        vars = plan.now.vars;
        slots = admission.slots_from first plan.now.vars;
        sites = placements.sites_of number.n text.new.book.rooms;
        opens = plan.now.opens;
      };
      state = Placing;
    }) }
    ensures refused { IfErr result (λ refused. admission.with_sites text.old.program number.n
        (admission.slots_from first plan.now.vars) plan.now.sites text.old.book ≡ Err refused) }
    ensures unchanged { IfErr result (λ refused. text.new.book ≡ text.old.book) }
    ensures program { text.new.program ≡ text.old.program }
    ensures rooms_left { text.old.spare_rooms ≤ text.new.spare_rooms + 2 * length plan.now.sites }
    ensures takes_left { text.old.takes ≤ text.new.takes + 2 * length plan.now.sites }
    ensures entries_left { text.old.entries ≤ text.new.entries + 7 * length plan.now.sites }
{
    let Kit {
        vars,
        slots,
        sites,
        opens,
    } = kit;
    let slots = slots_from(slots, first, vars.as_slice());
    let sites = text.place_sites(number.n, slots.as_slice(), plan.sites.as_slice(), sites)?;
    Ok(Instrument {
        no: number.n,
        placed: Placed {
            vars: Seq::from_vec(vars),
            slots: Seq::from_vec(slots),
            sites: Seq::from_vec(sites),
            opens,
        },
        state: State::Placing,
    })
}
