//! How a hart ended.

ghost use Rattle.std.specs.Prelude.{◌≡◌, count_by};
ghost use Rattle.word_flow.specs.HartEnds.{is_stopped_at, is_waiting_at};

/// How a hart ended: whether it stopped, and where it was then.
#[derive(Clone, Copy, Debug, PartialEq, Eq, Drop)]
pub struct HartEnd {
    /// It stopped. Else its run was cut or its budget is spent, and it waits.
    pub is_stopped: bool,
    /// The address of the last word that it executed where it stopped, and else of the next that it would execute.
    pub pc: u64,
}

/// Returns how many harts stopped at an address.
pub fn harts_stopped_at(ends: &[HartEnd], at: u64) -> usize
    ensures { result ≡ count_by (is_stopped_at at) ends.now }
{
    ends.iter()
        .filter(|end| end.is_stopped && end.pc == at)
        .count()
}

/// Returns how many harts wait at an address.
pub fn harts_waiting_at(ends: &[HartEnd], at: u64) -> usize
    ensures { result ≡ count_by (is_waiting_at at) ends.now }
{
    ends.iter()
        .filter(|end| !end.is_stopped && end.pc == at)
        .count()
}
