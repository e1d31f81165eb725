//! The top call.

ghost use Rattle.std.specs.Prelude.{◌≡◌, ◌≢◌, false, Result, Some, map, string_bytes};
ghost use Rattle.command_words.specs.Requests.{begins_threaded};
ghost use Rattle.headline.specs.Answers.{status_of, texts_of};
ghost use Rattle.headline.specs.Serving.{IsServedCall, AreGained, AreTorn, told_of};
ghost use Rattle.commands.specs.declared.texts.Texts.{Texts as texts};
ghost use Rattle.refusals.specs.declared.fault.Fault.{Fault as fault};

use crate::answering::{answer, answer_words};
use crate::delivery::deliver;
use crate::laws::one_owed;
use crate::replying::reply_to;
use commands::Texts;
use outside::{Files, Gate, Sink};
use refusals::Refusal;
use std::alloc::Global;
use std::sync::Wait;
use std::thread::Threads;
use whole_run::Progress;

/// Writes an answer to the sinks, and returns the status.
fn give<K: Sink, L: Sink>(
    alloc: Global,
    answered: Result<Texts, Refusal>,
    out: &mut K,
    log: &mut L,
) -> u8
    ensures answered { result ≢ 7 → result ≢ 8 → (answer : Result texts fault)
        × (told_of answered ≡ Some answer)
        × (result ≡ status_of answer)
        × AreGained K.has K.faults out.old out.new L.has L.faults log.old log.new (texts_of answer) }
    ensures torn { result ≡ 7 → (answer : Result texts fault)
        × (told_of answered ≡ Some answer)
        × AreTorn K.has K.faults out.old out.new L.has L.faults log.old log.new (texts_of answer) }
    ensures memory { result ≡ 8 → (out.new ≡ out.old) × (log.new ≡ log.old) }
{
    match reply_to(alloc, answered) {
        Err(_) => 8,
        Ok(reply) => match deliver(&reply.texts, out, log) {
            Ok(()) => reply.status,
            Err(_) => 7,
        },
    }
}

/// Does what [`paradyn`] does, for words that begin with neither `live` nor `visi`. It never waits.
pub fn serve<F: Files, K: Sink, L: Sink, P: Progress>(
    alloc: Global,
    words: &[String],
    files: &mut F,
    out: &mut K,
    log: &mut L,
    progress: &P,
) -> u8
    requires { begins_threaded (map string_bytes words.now) ≡ false }
    ensures { IsServedCall F.holds F.faults files.old files.new
        (map string_bytes words.now) K.has K.faults out.old out.new L.has L.faults log.old log.new result }
{
    one_owed::<F>();
    let answered = answer(alloc, words, files, progress);
    give(alloc, answered, out, log)
}

/// Does all that the program does: takes the words of the command line without the program's name, reads the files that they name,
/// and writes to the output and the log. Each quantum is told of to `gate`, which may make workers wait and changes nothing else.
/// Returns the program's status:
///
/// - 0: the output gained what was asked for: the report of the program's whole run in the order of a seed, of one that workers share
///   or of one along the quanta of a log, the plan of a metric, the program's points, the ELF file of an assembly text, a log as it is
///   written now, the line that sums up the run of a program that was made from a seed, how often each basic block of a program was
///   executed, what each view of a run was given, the directives that a report advises, the report of the run under directives, the
///   profile of a program, or its instructions with how often each was executed. The log gained the quanta of a run, or what
///   callgrind's tools read of a profile, where one was asked for.
/// - 2: the words are no command, and the output gained the line of that fault.
/// - 3: a file could not be read, and the output gained a line with its name.
/// - 4: the program is faulty, and the output gained the line of that fault.
/// - 5: the configuration is faulty, and the output gained the line of that fault.
/// - 6: a metric can't be measured at a focus, the plan's or one of the configuration at tick 0, and the output gained the line of
///   that fault.
/// - 7: a sink failed; each sink has a prefix of what was due, and the log came first.
/// - 8: memory ran out; both sinks are as before.
/// - 9: the log is faulty, or its quanta aren't those of a whole run, and the output gained the line of that fault.
/// - 11: more basic blocks have a first word that can be moved than a hart has slots, and the output gained the line of that fault.
/// - 12: the directives are faulty, and the output gained the line of that fault.
/// - 13: the report is faulty, and the output gained the line of that fault.
/// - 14: no procedure of the program has the name, and the output gained the line of that fault.
/// - 15: the program has no line table, or a faulty one, and the output gained the line of that fault.
pub fn paradyn<R: Threads + Wait + Sync, F: Files, K: Sink, L: Sink, G: Gate + Progress + Sync>(
    rt: &R,
    alloc: Global,
    words: &[String],
    files: &mut F,
    out: &mut K,
    log: &mut L,
    gate: &G,
) -> u8
    ensures { IsServedCall F.holds F.faults files.old files.new
        (map string_bytes words.now) K.has K.faults out.old out.new L.has L.faults log.old log.new result }
{
    one_owed::<F>();
    let answered = answer_words(rt, alloc, words, files, gate);
    give(alloc, answered, out, log)
}
