//! Runs a session along the quanta of a log.

ghost use Rattle.std.specs.Prelude.{◌≡◌, false};
ghost use Rattle.std.specs.List.{AllByRecursion};
ghost use Rattle.quanta_log.specs.Spelling.{CanSpell, IsQuantum};
ghost use Rattle.quanta_log.specs.declared.version.Version.TheVariants as version;
ghost use Rattle.commands.specs.Given.{inputs_with};
ghost use Rattle.session.specs.Given.{AreGiven};

use code_points::procedures;
use headline::{Found, find, read_inputs};
use outside::MemFiles;
use pn_types::{Image, NoMemory, Quantum, Settings};
use quanta_log::{LogError, read};
use refusals::{Fault, Refusal, bad_log};
use report::report;
use session::{Session, StartFault};
use std::alloc::Global;

/// Lets a session take a quantum that is told. Where memory runs out it is asked for once more, since nothing had changed. Returns
/// whether what was taken, if anything was, is what was told.
fn take(session: &mut Session, told: &Quantum) -> Result<bool, NoMemory>
    requires going { session.old.closed ≡ false }
    requires quantum { IsQuantum session.old.inputs.settings.harts told.now }
    ensures going { session.new.closed ≡ false }
    ensures inputs { session.new.inputs ≡ session.old.inputs }
{
    let (worker, hart, turns) = (told.worker as u32, told.hart as u32, told.turns as u32);
    let taken = match session.quantum(worker, hart, turns) {
        Ok(taken) => taken,
        Err(NoMemory {}) => session.quantum(worker, hart, turns)?,
    };
    Ok(match taken {
        Some(quantum) => quantum == *told,
        None => true,
    })
}

/// Lets a session take the quanta. Those that no hart could take are left out. Returns whether each that was taken is the one that
/// was told.
fn follow(session: &mut Session, quanta: &[Quantum]) -> Result<bool, NoMemory>
    requires going { session.old.closed ≡ false }
    requires quanta { AllByRecursion (IsQuantum session.old.inputs.settings.harts) quanta.now }
    ensures { session.new.closed ≡ false }
{
    let mut same = true;
    'quanta: for told in quanta {
        same &= take(session, told)?;
    }
    Ok(same)
}

/// Returns the text of the report of a session that takes the quanta and is closed: of an image, what was found of it, and
/// settings. Where it takes another quantum than was told, the text is `other`.
fn report_of(
    alloc: Global,
    image: Image,
    found: Found,
    settings: Settings,
    quanta: &[Quantum],
    skipped: u32,
) -> Result<Vec<u8>, Refusal>
    requires given { AreGiven (inputs_with image found settings) }
    requires quanta { CanSpell version.Two settings quanta.now }
{
    let opened = Session::new(
        alloc,
        image,
        found.checked,
        found.tree,
        found.procs,
        found.points,
        settings,
    );
    let mut session = match opened {
        Ok(session) => session,
        Err(StartFault::NoMemory) => return Err(Refusal::NoMemory),
        Err(StartFault::BadPick(metric, focus, cause)) => {
            return Err(Refusal::Fault(Fault::BadPick(metric, focus, cause)));
        }
    };
    if !follow(&mut session, quanta)? {
        return Ok(b"other\n".to_vec(alloc)?);
    }
    session.close();
    let parts = session.parts()?;
    Ok(report(alloc, &parts, skipped)?)
}

/// Returns the text of the report of the files `p` and `c` along quanta with these settings.
fn report_from(
    alloc: Global,
    files: &mut MemFiles,
    settings: Settings,
    quanta: &[Quantum],
) -> Result<Vec<u8>, Refusal>
    requires { CanSpell version.Two settings quanta.now }
{
    let inputs = read_inputs(alloc, files, "p", "c")?;
    let found = find(alloc, &inputs.image, settings.harts, &inputs.conf)?;
    let (_, skipped) = procedures(alloc, &inputs.image)?;
    report_of(alloc, inputs.image, found, settings, quanta, skipped)
}

/// Returns the text of the report of the files `p` and `c` along the quanta of a log.
///
/// # Errors
///
/// The refusal of the log, the program or the configuration; `Refusal::NoMemory` where memory runs out.
pub fn report_along(alloc: Global, files: &mut MemFiles, log: &[u8]) -> Result<Vec<u8>, Refusal> {
    match read(alloc, log) {
        Ok((settings, quanta)) => report_from(alloc, files, settings, &quanta),
        Err(LogError::NoMemory) => Err(Refusal::NoMemory),
        Err(LogError::Fault(fault)) => Err(bad_log(fault)),
    }
}
