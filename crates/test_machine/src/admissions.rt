//! Admits plans up to the first that is refused, and prints how many were admitted, why the next wasn't, and what Opens an admitted
//! one has. A row says what plans these are.
//!
//! - `counters`: 4,095 counters and no site, one more than a bank has slots. `timers`: three timers and no site. `no-site`: nothing
//!   at all.
//! - `sites`: a counter at each word of the program. `open`: the same, of which the first Open is printed.

mod plans;

ghost use Rattle.std.specs.Prelude.{◌≡◌, ◌*◌, ◌<◌, ◌≤◌, ◌^◌, IfOk, length};
ghost use Rattle.machine.specs.Cores.{In};
ghost use Rattle.pn_types.specs.Images.{IsImage};
ghost use Rattle.pn_types.specs.declared.limits.TheConstants.{MAX_INSTRUMENTS};
ghost use Rattle.pn_types.specs.declared.plan.Site.{Site};
ghost use Rattle.prim_code.specs.Counts.{predicted};
ghost use Rattle.prim_code.specs.Named.{AreBelow};
ghost use Rattle.instrument.specs.Admission.{slot_count};
ghost use Rattle.instrument.specs.Armable.{IsArmable};

use instrument::{InstrumentNo, Placer, Refused, State};
use plans::{counted_words, variables};
use pn_types::{Image, NoMemory, Plan, Segment, Seq};
use std::alloc::Global;
use std::io;

/// Where the program's text stands.
const TEXT_AT: u64 = 0x10000;

/// A program of 4,096 words `nop`.
fn image(alloc: Global) -> Result<Image, NoMemory>
    ensures { IfOk result IsImage }
{
    let mut bytes = Vec::with_capacity(alloc, 0x4000)?;
    for _ in 0..0x1000u32 {
        bytes.extend_from_slice(b"\x13\0\0\0")?;
    }
    let mut segments = Vec::new(alloc);
    segments.push(Segment {
        at: TEXT_AT,
        bytes: Seq::from_vec(bytes),
        size: 0x4000,
    })?;
    Ok(Image {
        segments: Seq::from_vec(segments),
        text_at: TEXT_AT,
        text_len: 0x4000,
        entry: TEXT_AT,
        symbols: Seq::from_vec(Vec::new(alloc)),
    })
}

/// How often a plan was admitted, and why it was refused in the end.
#[derive(Debug, Drop)]
struct Filled {
    admitted: u32,
    refused: Option<Refused>,
}

/// Admits a plan over and over, where `instruments` instruments are allowed, up to the first time that it is refused.
fn fill(alloc: Global, instruments: u32, plan: &Plan, cost: Option<u64>) -> Result<Filled, NoMemory>
    requires some { 0 < instruments }
    requires few { instruments ≤ MAX_INSTRUMENTS }
    requires named { (s : Site) → In s plan.now.sites → AreBelow (length plan.now.vars) s.stmts }
    requires words { predicted plan.now < 2 ^ 32 }
    requires slots { slot_count plan.now.vars < 2 ^ 32 }
    requires armable { IsArmable plan.now.opens }
{
    let image = image(alloc)?;
    let mut placer = Placer::new(alloc, &image, instruments)?;
    for admitted in 0..=instruments {
        if let Err(refused) = placer.admit(alloc, plan, cost) {
            return Ok(Filled {
                admitted,
                refused: Some(refused),
            });
        }
    }
    Ok(Filled {
        admitted: instruments,
        refused: None,
    })
}

/// An Open of an instrument: its range, and how many statements it has.
#[derive(Debug, Drop)]
struct Opened {
    start: u64,
    len: u64,
    stmts: usize,
}

/// The first Open of an instrument, where it is there and has one.
fn open_of(placer: &Placer, number: InstrumentNo) -> Option<Opened> {
    if placer.state(number) == State::Gone {
        return None;
    }
    let range = placer.placed(number).opens.as_slice().first()?;
    Some(Opened {
        start: range.start,
        len: range.len,
        stmts: range.stmts.as_slice().len(),
    })
}

/// The first Open of a plan's instrument, where the plan is admitted and has one.
fn first_open(alloc: Global, plan: &Plan) -> Result<Option<Opened>, NoMemory>
    requires named { (s : Site) → In s plan.now.sites → AreBelow (length plan.now.vars) s.stmts }
    requires words { predicted plan.now < 2 ^ 32 }
    requires slots { slot_count plan.now.vars < 2 ^ 32 }
    requires armable { IsArmable plan.now.opens }
{
    let image = image(alloc)?;
    let mut placer = Placer::new(alloc, &image, 1)?;
    match placer.admit(alloc, plan, None) {
        Ok(number) => Ok(open_of(&placer, number)),
        Err(_) => Ok(None),
    }
}

/// Prints how often a plan is admitted, where `instruments` instruments are allowed.
fn print_filled(
    rt: &impl Print,
    alloc: Global,
    what: &str,
    instruments: u32,
    plan: &Plan,
    cost: Option<u64>,
) -> io::Result<()>
    requires some { 0 < instruments }
    requires few { instruments ≤ MAX_INSTRUMENTS }
    requires named { (s : Site) → In s plan.now.sites → AreBelow (length plan.now.vars) s.stmts }
    requires words { predicted plan.now < 2 ^ 32 }
    requires slots { slot_count plan.now.vars < 2 ^ 32 }
    requires armable { IsArmable plan.now.opens }
{
    let filled = fill(alloc, instruments, plan, cost)?;
    println!(rt; "{what}: {filled:?}")
}

fn print_counters(rt: &impl Print, alloc: Global) -> io::Result<()> {
    let many = variables(alloc, 4095, false)?;
    print_filled(rt, alloc, "4095 counters", 64, &many, None)
}

fn print_timers(rt: &impl Print, alloc: Global) -> io::Result<()> {
    let three = variables(alloc, 3, true)?;
    print_filled(rt, alloc, "3 timers, 1024 allowed", 1024, &three, None)
}

fn print_no_site(rt: &impl Print, alloc: Global) -> io::Result<()> {
    let none = variables(alloc, 0, true)?;
    print_filled(rt, alloc, "no site, 64 allowed", 64, &none, None)?;
    print_filled(rt, alloc, "no site, 1024 allowed", 1024, &none, None)
}

fn print_everywhere(rt: &impl Print, alloc: Global) -> io::Result<()> {
    let plan = counted_words(alloc, TEXT_AT, 4096)?;
    print_filled(rt, alloc, "4096 sites", 64, &plan, None)?;
    let what = "4096 sites, 20480 words allowed";
    print_filled(rt, alloc, what, 64, &plan, Some(20_480))?;
    let what = "4096 sites, 20479 words allowed";
    print_filled(rt, alloc, what, 64, &plan, Some(20_479))
}

fn print_first_open(rt: &impl Print, alloc: Global) -> io::Result<()> {
    let plan = counted_words(alloc, TEXT_AT, 4096)?;
    let opened = first_open(alloc, &plan)?;
    println!(rt; "4096 sites, admitted: {opened:?}")
}

/// Prints what comes of the plans of a row.
pub fn answer(rt: &impl Print, alloc: Global, row: &str) -> io::Result<()> {
    match row {
        "counters" => print_counters(rt, alloc),
        "timers" => print_timers(rt, alloc),
        "no-site" => print_no_site(rt, alloc),
        "sites" => print_everywhere(rt, alloc),
        "open" => print_first_open(rt, alloc),
        _ => println!(rt; "no plans"),
    }
}
