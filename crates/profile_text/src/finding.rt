//! Which procedure has an address.

ghost use Rattle.std.specs.Prelude.{◌≡◌, ◌==◌, option_map};
ghost use Rattle.rv_word.specs.Memory.{in_range};
ghost use Rattle.profile_text.specs.Finding.{DoAscend, option_if};
ghost use Rattle.profile_text.specs.Names.{procedure_at, procedure_from};

use pn_types::Proc;

/// Returns the last of these procedures that starts at an address or before.
fn last_from(procs: &[Proc], at: u64) -> Option<&Proc>
    requires { DoAscend procs.now }
    ensures has { procedure_at procs.now at ≡ option_if (λ p. in_range p.start p.len at) (option_map (λ p. p.now) result) }
    ensures starts { procedure_from procs.now at ≡ option_if (λ p. p.start == at) (option_map (λ p. p.now) result) }
{
    let place = procs.partition_point(|proc| proc.start <= at);
    if place == 0 {
        return None;
    }
    Some(&procs[place - 1])
}

/// Returns the procedure that has the word at an address.
pub fn procedure_at(procs: &[Proc], at: u64) -> Option<&Proc>
    requires { DoAscend procs.now }
    ensures { option_map (λ p. p.now) result ≡ procedure_at procs.now at }
{
    let proc = last_from(procs, at)?;
    if proc.start <= at && at - proc.start < proc.len {
        Some(proc)
    } else {
        None
    }
}

/// Returns the procedure that starts at an address.
pub fn procedure_from(procs: &[Proc], at: u64) -> Option<&Proc>
    requires { DoAscend procs.now }
    ensures { option_map (λ p. p.now) result ≡ procedure_from procs.now at }
{
    let proc = last_from(procs, at)?;
    if proc.start == at { Some(proc) } else { None }
}
