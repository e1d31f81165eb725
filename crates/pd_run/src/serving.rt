//! Serving words for a person.

ghost use Rattle.std.specs.Prelude.{◌≡◌, ◌≢◌, OnErr, OnOk, Result, map, string_bytes};
ghost use Rattle.commands.specs.declared.texts.Texts.{Texts as texts};
ghost use Rattle.headline.specs.Answers.{status_of};
ghost use Rattle.headline.specs.Delivery.{Gained, IsTorn};
ghost use Rattle.headline.specs.Serving.{AreGained, AreTorn, IsReply};
ghost use Rattle.refusals.specs.declared.fault.Fault.{Fault as fault};
ghost use Rattle.pd_run.specs.Screens.{IsAnswerCut, IsAnswerShown, IsShownCall, sinks_of};

use commands::Texts;
use headline::{Progress, Reply, deliver, one_owed, owed_is_honest, reply_for};
use outside::{Failed, Files, Gate, Sink, write_all};
use std::alloc::Global;
use std::sync::Wait;
use std::thread::Threads;

/// Where a person looks: standard output, or the file that stands for it, and standard error.
#[derive(Drop)]
pub struct Screen<K, E> {
    /// Where texts go that were asked for.
    pub out: K,
    /// Where faults go.
    pub err: E,
}

/// How a call ended.
#[derive(Drop)]
pub struct Shown {
    /// Its status.
    pub status: u8,
    /// What was shown: at status 0 the texts that were asked for, and else a fault's line; nothing at 8.
    pub texts: Texts,
}

/// Returns what a status means that has no line of its own, in a line.
pub fn status_meaning(status: u8) -> &'static str {
    match status {
        7 => "pd: could not write all: the disk is full, or there is no such folder\n",
        8 => "pd: out of memory: nothing was written\n",
        _ => "",
    }
}

/// Writes the texts of a reply to standard output and the log, or a fault's line to standard error.
fn write<K: Sink, E: Sink, L: Sink>(
    reply: &Reply,
    screen: &mut Screen<K, E>,
    log: &mut L,
) -> Result<(), Failed>
    ensures texts { reply.now.status ≡ 0 → (screen.new.err ≡ screen.old.err)
        × OnOk result (AreGained K.has K.faults screen.old.out screen.new.out L.has L.faults log.old log.new reply.now.texts)
        × OnErr result (AreTorn K.has K.faults screen.old.out screen.new.out L.has L.faults log.old log.new reply.now.texts) }
    ensures line { reply.now.status ≢ 0 → (screen.new.out ≡ screen.old.out) × (log.new ≡ log.old)
        × OnOk result (Gained E.has E.faults screen.old.err screen.new.err reply.now.texts.out)
        × OnErr result (IsTorn E.has E.faults screen.old.err screen.new.err reply.now.texts.out) }
{
    if reply.status == 0 {
        deliver(&reply.texts, &mut screen.out, log)
    } else {
        write_all(&mut screen.err, reply.texts.out.as_slice())
    }
}

/// Shows a reply. Returns its status, or 7 where a sink failed.
fn show<K: Sink, E: Sink, L: Sink>(reply: &Reply, screen: &mut Screen<K, E>, log: &mut L) -> u8
    ensures shown { (answer : Result texts fault) → IsReply answer reply.now → result ≢ 7 → (result ≡ status_of answer)
        × IsAnswerShown (sinks_of K.has K.faults E.has E.faults L.has L.faults screen.old.out screen.old.err log.old)
        (sinks_of K.has K.faults E.has E.faults L.has L.faults screen.new.out screen.new.err log.new) answer }
    ensures cut { (answer : Result texts fault) → IsReply answer reply.now → result ≡ 7
        → IsAnswerCut (sinks_of K.has K.faults E.has E.faults L.has L.faults screen.old.out screen.old.err log.old)
        (sinks_of K.has K.faults E.has E.faults L.has L.faults screen.new.out screen.new.err log.new) answer }
{
    match write(reply, screen, log) {
        Ok(()) => reply.status,
        Err(_) => 7,
    }
}

/// Serves words as [`headline::paradyn`] does, but shows what is due to a person: texts go to standard output and the log, and a fault's
/// line to standard error. Each quantum is told of to `gate`, as there.
pub fn serve_words<
    R: Threads + Wait + Sync,
    F: Files,
    K: Sink,
    E: Sink,
    L: Sink,
    G: Gate + Progress + Sync,
>(
    rt: &R,
    alloc: Global,
    words: &[String],
    files: &mut F,
    screen: &mut Screen<K, E>,
    log: &mut L,
    gate: &G,
) -> Shown
    ensures { IsShownCall F.holds F.faults files.old files.new (map string_bytes words.now)
        (sinks_of K.has K.faults E.has E.faults L.has L.faults screen.old.out screen.old.err log.old)
        (sinks_of K.has K.faults E.has E.faults L.has L.faults screen.new.out screen.new.err log.new) result.texts result.status }
{
    owed_is_honest::<F>();
    one_owed::<F>();
    match reply_for(rt, alloc, words, files, gate) {
        Ok(reply) => {
            let status = show(&reply, screen, log);
            Shown {
                status,
                texts: reply.texts,
            }
        }
        Err(_) => Shown {
            status: 8,
            texts: Texts::output(alloc, Vec::new(alloc)),
        },
    }
}
