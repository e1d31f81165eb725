//! The patched machine with its instruments.

ghost use Rattle.std.specs.Prelude.{◌≡◌, nat_le, ◌<◌, ◌≤◌, None, Some, IfOk, [], length, slice_get};
ghost use Rattle.std.specs.List.{AllByRecursion};
ghost use Rattle.std.specs.Option.{option_map};
ghost use Rattle.pn_types.specs.Images.{IsImage, text_of};
ghost use Rattle.rv_word.specs.Names.{scratch_in, words_of};
ghost use Rattle.machine.specs.Laws.{IsProgram};
ghost use Rattle.machine.specs.Places.{program_pc};
ghost use Rattle.machine.specs.Turns.{is_runnable};
ghost use Rattle.instrument.specs.Placements.{state_of};
ghost use Rattle.instrumented.specs.Instrumented.{first_instrumented};

use instrument::{InstrumentNo, Placer, State};
use machine::Machine;
use pn_types::{HartNo, Image, MAX_HARTS, MAX_INSTRUMENTS, NoMemory};
use rv_word::Cause;
use std::alloc::Global;
use std::marker::Model;

/// What holds of any bytes: they have 8 bits.
fn have_8_bits(bytes: &[u8])
    ensures { AllByRecursion (λ byte. byte < 256) bytes.now }
{}

/// A patched machine with instruments in it: they are placed in it entry by entry, armed, read, and removed again, while the
/// program runs.
#[derive(Drop)]
pub struct InstrumentedMachine {
    pub(crate) machine: Machine,
    pub(crate) placer: Placer,
}

impl Model for InstrumentedMachine {
    ghost use Rattle.instrumented.specs.Data.{InstrumentedData, AreReached, data_of};
    ghost use Rattle.machine.specs.Codes.{core_code};
    ghost use Rattle.std.specs.Coded.{codes};

    ghost Value = { InstrumentedData };

    ghost coded = { Prim.hlevel (codes, core_code) };

    ghost view = { λ m. data_of m.machine m.placer };

    ghost invariant = { λ m. AreReached m.machine m.placer };
}

impl InstrumentedMachine {
    /// Makes the machine in which an image starts, with this number of harts and budget of ticks for each. It has no instrument,
    /// and at most `instruments` may be in it at once. No word of the text may name x31, which is the tool's; then the image is a
    /// program for which the laws of the machine hold.
    ///
    /// # Errors
    ///
    /// `NoMemory` where memory runs out.
    pub fn new(
        alloc: Global,
        image: &Image,
        harts: u32,
        budget: u64,
        instruments: u32,
    ) -> Result<InstrumentedMachine, NoMemory>
        requires image { IsImage image.now }
        requires unscratched { scratch_in (words_of (text_of image.now)) image.now.text_at ≡ None }
        requires harts { harts ≤ MAX_HARTS }
        requires some { 0 < instruments }
        requires few { instruments ≤ MAX_INSTRUMENTS }
        ensures first { IfOk result (λ m. m ≡ record { state = first_instrumented image.now harts budget instruments; ready = [] }) }
        ensures program { IfOk result (λ m. IsProgram image.now) }
    {
        have_8_bits(image.text_bytes());
        Ok(InstrumentedMachine {
            machine: Machine::new(alloc, image, harts, budget)?,
            placer: Placer::new(alloc, image, instruments)?,
        })
    }

    /// Returns how many entries the agenda has.
    pub fn agenda_len(&self) -> usize
        ensures { result ≡ length self.now.state.placer.book.agenda }
    {
        self.placer.agenda_len()
    }

    /// Returns how far an instrument has come.
    pub fn state(&self, number: InstrumentNo) -> State
        ensures { result ≡ state_of self.now.state.placer number.n }
    {
        self.placer.state(number)
    }

    /// Returns whether there are as many instruments that aren't gone as are allowed at once.
    pub fn is_full(&self) -> bool
        ensures { result ≡ nat_le self.now.state.placer.limit (length self.now.state.placer.instruments) }
    {
        self.placer.is_full()
    }

    /// Returns how many of its words the hart executed.
    pub fn ticks(&self, hart: HartNo) -> u64
        requires { hart < length self.now.state.core.harts }
        ensures { option_map (λ x. x.ticks) (slice_get self.now.state.core.harts hart) ≡ Some result }
    {
        self.machine.ticks(hart)
    }

    /// Returns why the hart stopped, or none where it isn't stopped.
    pub fn stop(&self, hart: HartNo) -> Option<Cause>
        requires { hart < length self.now.state.core.harts }
        ensures { option_map (λ x. x.stop) (slice_get self.now.state.core.harts hart) ≡ Some result }
    {
        self.machine.stop(hart)
    }

    /// Returns where the hart stands in the program: its pc, or inside a trampoline its home. For a stopped hart it is the pc of
    /// its last word.
    pub fn at(&self, hart: HartNo) -> u64
        requires { hart < length self.now.state.core.harts }
        ensures { option_map (program_pc self.now.state.core.code self.now.state.core.rows) (slice_get self.now.state.core.harts hart)
            ≡ Some result }
    {
        self.machine.at(hart)
    }

    /// Returns what the program wrote.
    pub fn output(&self) -> &[u8]
        ensures { result.now ≡ self.now.state.core.prog.out }
    {
        self.machine.output()
    }

    /// Returns whether the hart isn't stopped, and is inside a trampoline or has fewer ticks than the budget.
    pub fn runnable(&self, hart: HartNo) -> bool
        requires { hart < length self.now.state.core.harts }
        ensures { result ≡ is_runnable self.now.state.core hart }
    {
        self.machine.runnable(hart)
    }
}
