//! The configuration of a stress run.

ghost use Rattle.std.specs.Prelude.{◌≡◌, IfOk, string_bytes};
ghost use Rattle.stress_run.specs.Configuration.{configuration_text, wish, wishes};

use pn_types::NoMemory;
use std::alloc::Global;

/// For how many of the first procedures the time is wished for.
const MOST_WISHED: u32 = 8;

/// The ticks from one wish to the next.
const TICKS_BETWEEN: u64 = 2000;

/// Returns the wish for the time of a procedure.
#[tactic(auto, unfolding(crate::specs::Configuration::wish))]
fn wish(alloc: Global, number: u32) -> Result<String, NoMemory>
    ensures { IfOk result (λ text. string_bytes text ≡ wish number) }
{
    let at = TICKS_BETWEEN * (u64::from(number) + 1);
    Ok(format!(in alloc; "at {at} show cpu_inclusive /Code/program/w{number};\n")?)
}

/// Returns the wishes for the first procedures.
#[tactic(auto, using(crate::proofs::Texts::next_wish, std::proofs::Common::append_assoc))]
fn wishes(alloc: Global, count: u32) -> Result<String, NoMemory>
    ensures { IfOk result (λ text. string_bytes text ≡ wishes count 0) }
{
    let mut text = String::new(alloc);
    for number in 0..count {
        text.push_str(wish(alloc, number)?.as_str())?;
    }
    Ok(text)
}

/// Returns the configuration of a stress run with `procs` procedures: a search, a wish for the calls of all procedures at tick 0,
/// and every 2000 ticks a wish for the time of one more procedure, up to the first 8.
///
/// # Errors
///
/// `NoMemory` where memory runs out.
#[tactic(auto, using(crate::proofs::Texts::bytes_of), unfolding(crate::specs::Configuration::configuration_text))]
pub fn configuration_text(alloc: Global, procs: u32) -> Result<Vec<u8>, NoMemory>
    ensures { IfOk result (λ text. text.items ≡ configuration_text procs) }
{
    let wishes = wishes(alloc, procs.min(MOST_WISHED))?;
    let text = format!(in alloc;
        "include metrics;\n\
         include hypotheses;\n\
         search {{ window 4; cost 4000; observed 1000000; }}\n\
         at 0 show procedure_calls /Code;\n\
         {wishes}"
    )?;
    Ok(text.into_bytes())
}
