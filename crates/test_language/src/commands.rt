//! A row is words between single spaces. Its answer is what they ask of `paradyn`: the command with the values that it has, or
//! `usage`; and after it the name of the log, where they give one.

use crate::starts::start_text;
use command_words::{
    AnnotateRequest, AnnotationUnit, AskRequest, BlocksRequest, DiffRequest, DirectRequest,
    LiveRequest, NodeKind, PlanRequest, ProfileRequest, ProfileShape, ProfileSource, ReplayRequest,
    Request, RunRequest, ShowRequest, StressRequest, ViewFormat, VisiRequest, WordFault, addresses,
    log_name, read_request,
};
use pn_types::{NoMemory, Settings};
use std::alloc::Global;
use std::io;

/// The words of a line.
///
/// # Errors
///
/// `NoMemory` where memory runs out.
pub fn words(alloc: Global, line: &str) -> Result<Vec<String>, NoMemory> {
    let mut words = Vec::new(alloc);
    if !line.is_empty() {
        for word in line.split(' ') {
            words.push(String::from_str(alloc, word)?)?;
        }
    }
    Ok(words)
}

/// The numbers of a run.
fn settings_text(alloc: Global, settings: Settings) -> Result<String, NoMemory> {
    let harts = settings.harts;
    let budget = settings.budget;
    let bins = settings.bins;
    let width = settings.width;
    let start = start_text(settings.start);
    let instruments = settings.instruments;
    let numbers = format!(in alloc; "harts {harts} budget {budget} bins {bins} width {width}")?;
    format!(in alloc; "{numbers} {start} instruments {instruments}")
}

/// What `run` is asked for.
fn run_text(alloc: Global, run: &RunRequest<'_>) -> Result<String, NoMemory> {
    let settings = settings_text(alloc, run.session.settings)?;
    let program = run.session.program;
    let conf = run.session.conf;
    let seed = run.order.seed;
    let quantum = run.order.quantum;
    format!(in alloc; "run [{program}] [{conf}] {settings} seed {seed} quantum {quantum}")
}

/// What `live` is asked for.
fn live_text(alloc: Global, live: &LiveRequest<'_>) -> Result<String, NoMemory> {
    let settings = settings_text(alloc, live.session.settings)?;
    let program = live.session.program;
    let conf = live.session.conf;
    let workers = live.workers;
    let quantum = live.quantum;
    format!(in alloc; "live [{program}] [{conf}] {settings} workers {workers} quantum {quantum}")
}

/// What `replay` is asked for.
fn replay_text(alloc: Global, replay: &ReplayRequest<'_>) -> Result<String, NoMemory> {
    let program = replay.program;
    let conf = replay.conf;
    let log = replay.log;
    format!(in alloc; "replay [{program}] [{conf}] [{log}]")
}

/// What `plan` is asked for.
fn plan_text(alloc: Global, plan: &PlanRequest<'_>) -> Result<String, NoMemory> {
    let program = plan.program;
    let conf = plan.conf;
    let metric = plan.metric;
    let focus = plan.focus;
    let harts = plan.harts;
    format!(in alloc; "plan [{program}] [{conf}] [{metric}] [{focus}] harts {harts}")
}

/// What `stress` is asked for.
fn stress_text(alloc: Global, stress: StressRequest) -> Result<String, NoMemory> {
    let procs = stress.procs;
    let seed = stress.seed;
    format!(in alloc; "stress procs {procs} seed {seed}")
}

/// The run whose blocks a command of this name counts.
fn blocks_text(alloc: Global, name: &str, blocks: &BlocksRequest<'_>) -> Result<String, NoMemory> {
    let program = blocks.program;
    let harts = blocks.harts;
    let budget = blocks.budget;
    let seed = blocks.order.seed;
    let quantum = blocks.order.quantum;
    format!(in alloc;
        "{name} [{program}] harts {harts} budget {budget} seed {seed} quantum {quantum}"
    )
}

/// What a profile is of, for a command of this name.
fn source_text(alloc: Global, name: &str, source: &ProfileSource<'_>) -> Result<String, NoMemory> {
    let blocks = blocks_text(alloc, name, &source.counted)?;
    let also = addresses(alloc, source.also.unwrap_or(""))?;
    format!(in alloc; "{blocks} also {also:?}")
}

/// What `profile` is asked for.
fn profile_text(alloc: Global, profile: &ProfileRequest<'_>) -> Result<String, NoMemory> {
    let source = source_text(alloc, "profile", &profile.source)?;
    let top = profile.top;
    let shape = match profile.shape {
        ProfileShape::Lines => "lines",
        ProfileShape::Words => "words",
        ProfileShape::Table => "table",
    };
    format!(in alloc; "{source} show {shape} top {top}")
}

/// What `annotate` is asked for.
fn annotate_text(alloc: Global, annotate: &AnnotateRequest<'_>) -> Result<String, NoMemory> {
    let source = source_text(alloc, "annotate", &annotate.source)?;
    let unit = match annotate.unit {
        AnnotationUnit::Words => "words",
        AnnotationUnit::Lines => "lines",
    };
    match annotate.procedure {
        Some(name) => format!(in alloc; "{source} by {unit} procedure [{name}]"),
        None => format!(in alloc; "{source} by {unit}"),
    }
}

/// What `show` is asked for.
fn show_text(alloc: Global, show: &ShowRequest<'_>) -> Result<String, NoMemory> {
    let report = show.report;
    let columns = show.columns;
    let format = match show.format {
        ViewFormat::Blocks => "blocks",
        ViewFormat::Ascii => "ascii",
        ViewFormat::Json => "json",
        ViewFormat::Csv => "csv",
        ViewFormat::Svg => "svg",
        ViewFormat::Html => "html",
    };
    format!(in alloc; "show [{report}] columns {columns} format {format}")
}

/// What `diff` is asked for.
fn diff_text(alloc: Global, diff: &DiffRequest<'_>) -> Result<String, NoMemory> {
    let old = diff.old;
    let new = diff.new;
    format!(in alloc; "diff [{old}] [{new}]")
}

/// The nodes that `ask` is asked for.
fn kind_text(kind: Option<NodeKind>) -> &'static str {
    match kind {
        None => "None",
        Some(NodeKind::Procedure) => "procedure",
        Some(NodeKind::Module) => "module",
        Some(NodeKind::Lock) => "lock",
        Some(NodeKind::Hart) => "hart",
    }
}

/// What `ask` is asked for.
fn ask_text(alloc: Global, ask: &AskRequest<'_>) -> Result<String, NoMemory> {
    let program = ask.counted.program;
    let metrics = ask.metrics;
    let harts = ask.counted.harts;
    let budget = ask.counted.budget;
    let seed = ask.counted.order.seed;
    let quantum = ask.counted.order.quantum;
    let each = kind_text(ask.each);
    let under = ask.under;
    let from = ask.interval.from;
    let limit = ask.limit;
    let files = format!(in alloc; "ask [{program}] [{metrics}]")?;
    let run = format!(in alloc; "harts {harts} budget {budget} seed {seed} quantum {quantum}")?;
    let below = format!(in alloc; "each {each} under [{under}] from {from}")?;
    match ask.interval.until {
        Some(until) => {
            format!(in alloc; "{files} {run} {below} until {until} instruments {limit}")
        }
        None => format!(in alloc; "{files} {run} {below} until None instruments {limit}"),
    }
}

/// What `visi` is asked for.
fn visi_text(alloc: Global, visi: &VisiRequest<'_>) -> Result<String, NoMemory> {
    let settings = settings_text(alloc, visi.session.settings)?;
    let program = visi.session.program;
    let conf = visi.session.conf;
    let seed = visi.order.seed;
    let quantum = visi.order.quantum;
    let views = visi.views;
    let files = format!(in alloc; "visi [{program}] [{conf}]")?;
    format!(in alloc; "{files} {settings} seed {seed} quantum {quantum} views {views}")
}

/// What `direct` is asked for.
fn direct_text(alloc: Global, direct: &DirectRequest<'_>) -> Result<String, NoMemory> {
    let settings = settings_text(alloc, direct.session.settings)?;
    let program = direct.session.program;
    let conf = direct.session.conf;
    let directives = direct.directives;
    let seed = direct.order.seed;
    let quantum = direct.order.quantum;
    let files = format!(in alloc; "direct [{program}] [{conf}] [{directives}]")?;
    format!(in alloc; "{files} {settings} seed {seed} quantum {quantum}")
}

/// What words ask for.
fn request_text(alloc: Global, words: &[String]) -> Result<String, NoMemory> {
    match read_request(alloc, words) {
        Ok(Request::Run(run)) => run_text(alloc, &run),
        Ok(Request::Live(live)) => live_text(alloc, &live),
        Ok(Request::Replay(replay)) => replay_text(alloc, &replay),
        Ok(Request::Plan(plan)) => plan_text(alloc, &plan),
        Ok(Request::Asm(text)) => format!(in alloc; "asm [{text}]"),
        Ok(Request::Points(program)) => format!(in alloc; "points [{program}]"),
        Ok(Request::Relog(log)) => format!(in alloc; "relog [{log}]"),
        Ok(Request::Stress(stress)) => stress_text(alloc, stress),
        Ok(Request::Blocks(blocks)) => blocks_text(alloc, "blocks", &blocks),
        Ok(Request::Profile(profile)) => profile_text(alloc, &profile),
        Ok(Request::Annotate(annotate)) => annotate_text(alloc, &annotate),
        Ok(Request::Show(show)) => show_text(alloc, &show),
        Ok(Request::Diff(diff)) => diff_text(alloc, &diff),
        Ok(Request::Ask(ask)) => ask_text(alloc, &ask),
        Ok(Request::Visi(visi)) => visi_text(alloc, &visi),
        Ok(Request::Advise(report)) => format!(in alloc; "advise [{report}]"),
        Ok(Request::Direct(direct)) => direct_text(alloc, &direct),
        Err(WordFault::Usage) => String::from_str(alloc, "usage"),
        Err(WordFault::NoMemory) => Err(NoMemory {}),
    }
}

/// Prints what a row asks for.
///
/// # Errors
///
/// Where the output can't be written, or memory runs out.
pub fn answer(rt: &impl Print, alloc: Global, row: &str) -> io::Result<()> {
    let words = words(alloc, row)?;
    let request = request_text(alloc, &words)?;
    match log_name(&words) {
        Some(log) => println!(rt; "{request} log [{log}]"),
        None => println!(rt; "{request}"),
    }
}
