//! What is due for requests and words.

ghost use Rattle.std.specs.Prelude.{◌≡◌, false, Some, map, string_bytes};
ghost use Rattle.command_words.specs.Asked.{asked};
ghost use Rattle.command_words.specs.Requests.{begins_threaded, HasRanges, IsUnthreaded};
ghost use Rattle.commands.specs.Due.{IsDue, IsDueFor};
ghost use Rattle.commands.specs.FileReadings.{reads, Looks};
ghost use Rattle.refusals.specs.Refusals.{Comes};

use command_words::{Request, WordFault, begin_threaded, read_request};
use commands::{
    Texts, advise, annotate, ask, asm, blocks, diff, direct, live, plan, points, profile, relog,
    replay, run, show, stress, visi,
};
use outside::{Files, Gate};
use refusals::{Fault, Refusal};
use std::alloc::Global;
use std::sync::Wait;
use std::thread::Threads;
use whole_run::Progress;

/// Returns what is due for a request that begins no threads.
fn answer_request<F: Files, P: Progress>(
    alloc: Global,
    request: &Request<'_>,
    files: &mut F,
    progress: &P,
) -> Result<Texts, Refusal>
    requires ranges { HasRanges (asked request.now) }
    requires other { IsUnthreaded (asked request.now) }
    ensures due { Comes result (IsDueFor (Some (asked request.now)) (reads (F.holds files.old) (F.faults files.old) (F.faults files.new))) }
    ensures looks { Looks F.holds F.faults files.old files.new result }
{
    match request {
        Request::Run(request) => run(alloc, request, files, progress),
        Request::Live(_) | Request::Visi(_) => unreachable!(),
        Request::Replay(request) => replay(alloc, request, files, progress),
        Request::Plan(request) => plan(alloc, request, files),
        Request::Points(program) => points(alloc, program, files),
        Request::Asm(text) => asm(alloc, text, files),
        Request::Relog(log) => relog(alloc, log, files),
        Request::Stress(request) => stress(alloc, *request),
        Request::Blocks(request) => blocks(alloc, request, files),
        Request::Advise(report) => advise(alloc, report, files),
        Request::Direct(request) => direct(alloc, request, files, progress),
        Request::Profile(request) => profile(alloc, request, files),
        Request::Annotate(request) => annotate(alloc, request, files),
        Request::Show(request) => show(alloc, request, files),
        Request::Diff(request) => diff(alloc, request, files),
        Request::Ask(request) => ask(alloc, request, files),
    }
}

/// Returns what is due for words that begin no threads.
pub(crate) fn answer<F: Files, P: Progress>(
    alloc: Global,
    words: &[String],
    files: &mut F,
    progress: &P,
) -> Result<Texts, Refusal>
    requires { begins_threaded (map string_bytes words.now) ≡ false }
    ensures due { Comes result (IsDue (map string_bytes words.now) (reads (F.holds files.old) (F.faults files.old) (F.faults files.new))) }
    ensures looks { Looks F.holds F.faults files.old files.new result }
{
    match read_request(alloc, words) {
        Ok(request) => answer_request(alloc, &request, files, progress),
        Err(WordFault::Usage) => Err(Refusal::Fault(Fault::Usage)),
        Err(WordFault::NoMemory) => Err(Refusal::NoMemory),
    }
}

/// Returns what is due for words, of which some begin threads.
fn answer_threaded<F: Files, R: Threads + Wait + Sync, G: Gate + Progress + Sync>(
    rt: &R,
    alloc: Global,
    words: &[String],
    files: &mut F,
    gate: &G,
) -> Result<Texts, Refusal>
    ensures due { Comes result (IsDue (map string_bytes words.now) (reads (F.holds files.old) (F.faults files.old) (F.faults files.new))) }
    ensures looks { Looks F.holds F.faults files.old files.new result }
{
    match read_request(alloc, words) {
        Ok(Request::Live(request)) => live(rt, alloc, &request, files, gate),
        Ok(Request::Visi(request)) => visi(rt, alloc, &request, files, gate),
        Ok(request) => answer_request(alloc, &request, files, gate),
        Err(WordFault::Usage) => Err(Refusal::Fault(Fault::Usage)),
        Err(WordFault::NoMemory) => Err(Refusal::NoMemory),
    }
}

/// Returns what is due for words, whether they begin threads or not.
pub(crate) fn answer_words<F: Files, R: Threads + Wait + Sync, G: Gate + Progress + Sync>(
    rt: &R,
    alloc: Global,
    words: &[String],
    files: &mut F,
    gate: &G,
) -> Result<Texts, Refusal>
    ensures due { Comes result (IsDue (map string_bytes words.now) (reads (F.holds files.old) (F.faults files.old) (F.faults files.new))) }
    ensures looks { Looks F.holds F.faults files.old files.new result }
{
    if begin_threaded(words) {
        answer_threaded(rt, alloc, words, files, gate)
    } else {
        answer(alloc, words, files, gate)
    }
}
