//! Arming and reading instruments.

ghost use Rattle.std.specs.Prelude.{◌≡◌, ◌↔◌, if◌then◌else◌, false, map, IsTrue, length};
ghost use Rattle.std.specs.List.{AllByRecursion, list_all};
ghost use Rattle.tramp_spec.specs.Codes.{fetched_at};
ghost use Rattle.frame_walk.specs.Rooms.{IsSmall};
ghost use Rattle.machine.specs.Effects.{after_event, armed_in};
ghost use Rattle.machine.specs.Events.{Arm, IsQuiet, May, MayArm};
ghost use Rattle.machine.specs.Instruments.{reading};
ghost use Rattle.machine.specs.LinkedSites.{enters, is_site_linked};
ghost use Rattle.machine.specs.States.{with_core};

use crate::hart::HartState;
use crate::machine::{Machine, none_inside};
use pn_types::{Placed, PlacedSite, Seq};
use rv_mem::Mem;
use tramp_spec::Mark;

/// The readings of an instrument, one for each hart by number.
#[derive(Drop)]
pub struct Sample {
    pub readings: Seq<u64>,
}

/// Sets the slots of an instrument on each hart to its opening values.
fn arm_harts(harts: &mut [HartState], mem: &Mem, instrument: &Placed)
    requires small { AllByRecursion IsSmall instrument.now.opens }
    ensures { harts.new ≡ map (armed_in mem.now instrument.now) harts.old }
{
    for hart in harts.iter_mut() {
        hart.arm(mem, instrument);
    }
}

/// Reads an instrument on each hart.
fn read_harts(harts: &[HartState], instrument: &Placed, readings: &mut Seq<u64>)
    requires { length readings.old ≡ length harts.now }
    ensures { readings.new ≡ map (reading instrument.now) harts.now }
{
    for number in 0..harts.len() {
        readings.set(number, harts[number].read(instrument));
    }
}

impl Machine {
    /// Arms an instrument: on each hart its variables get their opening values, which tell of the procedures that are open there.
    /// Returns false exactly where a hart is inside a trampoline or a site of the instrument isn't linked; then nothing changes. It
    /// takes no memory.
    pub fn arm(&mut self, instrument: &Placed) -> bool
        requires small { AllByRecursion IsSmall instrument.now.opens }
        ensures may { IsTrue result ↔ May self.old.core (Arm instrument.now) }
        ensures state { self.new ≡ if result then with_core self.old (after_event self.old.core (Arm instrument.now)) else self.old }
    {
        if !self.may_arm(instrument) {
            return false;
        }
        arm_harts(&mut self.harts, &self.shared.mem, instrument);
        true
    }

    /// Reads an instrument on each hart. Returns false exactly where a hart is inside a trampoline; then the sample stays as it is.
    /// There must be as many readings as harts.
    pub fn sample(&self, instrument: &Placed, sample: &mut Sample) -> bool
        requires { length sample.old.readings ≡ length self.now.core.harts }
        ensures quiet { IsTrue result ↔ IsQuiet self.now.core }
        ensures readings { sample.new.readings ≡ if result then map (reading instrument.now) self.now.core.harts else sample.old.readings }
    {
        if !self.quiet() {
            return false;
        }
        read_harts(&self.harts, instrument, &mut sample.readings);
        true
    }

    /// Whether no hart is inside, and each site of the instrument is linked.
    fn may_arm(&self, instrument: &Placed) -> bool
        ensures { IsTrue result ↔ MayArm self.now.core instrument.now }
    {
        none_inside(&self.harts) && self.are_linked(instrument.sites.as_slice())
    }

    /// Whether all sites are linked.
    fn are_linked(&self, sites: &[PlacedSite]) -> bool
        ensures { result ≡ list_all (is_site_linked self.now.core) sites.now }
    {
        sites.iter().all(|site| self.is_linked(*site))
    }

    /// Whether the site's mini block is live, and a jump that enters stands at its point.
    fn is_linked(&self, site: PlacedSite) -> bool
        ensures { result ≡ is_site_linked self.now.core site }
    {
        self.blocks.has_live_mini(site.at, site.mini) && self.enters(site.at)
    }

    /// Whether a jump that enters stands at an address.
    fn enters(&self, at: u64) -> bool
        ensures { result ≡ enters (fetched_at self.now.core.program self.now.core.code at false) }
    {
        matches!(self.store.fetch(at, false), Some((_, Mark::Enter)))
    }
}
