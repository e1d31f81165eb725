//! What the words ask for.

use pn_types::Settings;

/// What a session is made of.
#[derive(Clone, Copy, Drop)]
pub struct SessionRequest<'a> {
    /// The name of the program's file.
    pub program: &'a str,
    /// The name of the configuration's file.
    pub conf: &'a str,
    /// The numbers of the run.
    pub settings: Settings,
}

/// An order in which harts take their turns.
#[derive(Clone, Copy, Drop)]
pub struct TurnOrder {
    /// The seed from which each next hart is drawn. With 0 the harts take turns by number.
    pub seed: u32,
    /// The most turns of a quantum, from 1 to [`pn_types::MAX_QUANTUM`].
    pub quantum: u32,
}

/// What `run` is asked for.
#[derive(Clone, Copy, Drop)]
pub struct RunRequest<'a> {
    pub session: SessionRequest<'a>,
    pub order: TurnOrder,
    /// The name of the log's file, where one is wanted.
    pub log: Option<&'a str>,
}

/// What `live` is asked for.
#[derive(Clone, Copy, Drop)]
pub struct LiveRequest<'a> {
    pub session: SessionRequest<'a>,
    /// How many workers there are, from 1 to [`pn_types::MAX_WORKERS`].
    pub workers: u32,
    /// The most turns of a quantum, from 1 to [`pn_types::MAX_QUANTUM`].
    pub quantum: u32,
    /// The name of the log's file, where one is wanted.
    pub log: Option<&'a str>,
}

/// What `replay` is asked for.
#[derive(Clone, Copy, Drop)]
pub struct ReplayRequest<'a> {
    /// The name of the program's file.
    pub program: &'a str,
    /// The name of the configuration's file.
    pub conf: &'a str,
    /// The name of the log's file.
    pub log: &'a str,
}

/// What `plan` is asked for.
#[derive(Clone, Copy, Drop)]
pub struct PlanRequest<'a> {
    /// The name of the program's file.
    pub program: &'a str,
    /// The name of the configuration's file.
    pub conf: &'a str,
    /// The name of the metric.
    pub metric: &'a str,
    /// The text of the focus.
    pub focus: &'a str,
    /// The number of harts, from 1 to [`pn_types::MAX_HARTS`].
    pub harts: u32,
}

/// What `stress` is asked for.
#[derive(Clone, Copy, Drop)]
pub struct StressRequest {
    /// How many procedures are drawn, from 1 to 200.
    pub procs: u32,
    /// The seed of the program, and of the order of quanta.
    pub seed: u32,
}

/// What `blocks` is asked for.
#[derive(Clone, Copy, Drop)]
pub struct BlocksRequest<'a> {
    /// The name of the program's file.
    pub program: &'a str,
    /// The number of harts, from 1 to [`pn_types::MAX_HARTS`].
    pub harts: u32,
    /// The ticks of each hart, at most, from 1 to [`pn_types::MAX_BUDGET`].
    pub budget: u64,
    pub order: TurnOrder,
}

/// What a profile is of.
#[derive(Clone, Copy, Drop)]
pub struct ProfileSource<'a> {
    /// The run whose blocks are counted.
    pub counted: BlocksRequest<'a>,
    /// Addresses at which a block begins beside those that the program's words tell, parted by commas.
    pub also: Option<&'a str>,
}

/// The shape in which a profile is shown.
#[derive(Clone, Copy, PartialEq, Eq, Drop)]
pub enum ProfileShape {
    /// A line for each procedure, call and loop.
    Lines,
    /// The lines, and one for each word.
    Words,
    /// A table of the procedures for a person.
    Table,
}

/// What `profile` is asked for.
#[derive(Clone, Copy, Drop)]
pub struct ProfileRequest<'a> {
    pub source: ProfileSource<'a>,
    pub shape: ProfileShape,
    /// How many procedures a table has, at most, from 1 to 1,000,000.
    pub top: u32,
    /// The name of the file for callgrind's tools, where one is wanted.
    pub callgrind: Option<&'a str>,
}

/// What is shown with its numbers.
#[derive(Clone, Copy, PartialEq, Eq, Drop)]
pub enum AnnotationUnit {
    /// Each word.
    Words,
    /// Each line of source.
    Lines,
}

/// What `annotate` is asked for.
#[derive(Clone, Copy, Drop)]
pub struct AnnotateRequest<'a> {
    pub source: ProfileSource<'a>,
    /// The procedure that is shown: its name, or its module's, a slash and its name. All are where none is given.
    pub procedure: Option<&'a str>,
    pub unit: AnnotationUnit,
}

/// How a report is shown.
#[derive(Clone, Copy, PartialEq, Eq, Drop)]
pub enum ViewFormat {
    /// In a terminal, with bars of Unicode's blocks, by eighths.
    Blocks,
    /// In a terminal, with bars of ASCII signs.
    Ascii,
    /// As JSON.
    Json,
    /// As a table of comma-separated values.
    Csv,
    /// As a picture in SVG.
    Svg,
    /// As a page in HTML.
    Html,
}

/// What `show` is asked for.
#[derive(Clone, Copy, Drop)]
pub struct ShowRequest<'a> {
    /// The name of the report's file.
    pub report: &'a str,
    /// How many columns there are in a terminal, from 20 to 1,000.
    pub columns: u32,
    pub format: ViewFormat,
}

/// What `diff` is asked for.
#[derive(Clone, Copy, Drop)]
pub struct DiffRequest<'a> {
    /// The name of the file of the report before.
    pub old: &'a str,
    /// The name of the file of the report after.
    pub new: &'a str,
}

/// Kinds of nodes below a focus.
#[derive(Clone, Copy, PartialEq, Eq, Drop)]
pub enum NodeKind {
    /// Procedures.
    Procedure,
    /// Modules.
    Module,
    /// Data objects, as locks.
    Lock,
    /// Harts.
    Hart,
}

/// When something is asked for.
#[derive(Clone, Copy, Drop)]
pub struct AskInterval {
    /// The tick from which on, below 2^31.
    pub from: u32,
    /// The tick at which it ends, above `from` and below 2^31, where it ends before the run does.
    pub until: Option<u32>,
}

/// What `ask` is asked for.
#[derive(Clone, Copy, Drop)]
pub struct AskRequest<'a> {
    /// The program, and the run that tells which of its parts come first.
    pub counted: BlocksRequest<'a>,
    /// The names of metrics, parted by commas.
    pub metrics: &'a str,
    /// What is asked for: each node of this kind, or the focus alone where none is given.
    pub each: Option<NodeKind>,
    /// The text of the focus below which these are.
    pub under: &'a str,
    pub interval: AskInterval,
    /// How many pairs are asked for, at most, from 1 to [`pn_types::MAX_INSTRUMENTS`].
    pub limit: u32,
}

/// What `visi` is asked for.
#[derive(Clone, Copy, Drop)]
pub struct VisiRequest<'a> {
    pub session: SessionRequest<'a>,
    pub order: TurnOrder,
    /// How many threads view the run, from 1 to [`MAX_VIEWS`](crate::MAX_VIEWS).
    pub views: u32,
}

/// What `direct` is asked for.
#[derive(Clone, Copy, Drop)]
pub struct DirectRequest<'a> {
    pub session: SessionRequest<'a>,
    /// The name of the directives' file.
    pub directives: &'a str,
    pub order: TurnOrder,
}

/// What the words ask for.
#[derive(Clone, Copy, Drop)]
pub enum Request<'a> {
    /// To run a program.
    Run(RunRequest<'a>),
    /// To run a program by several workers.
    Live(LiveRequest<'a>),
    /// To run a program again as its log says.
    Replay(ReplayRequest<'a>),
    /// To show how a metric is measured at a focus.
    Plan(PlanRequest<'a>),
    /// To assemble the text of this name.
    Asm(&'a str),
    /// To list the points of the program of this name.
    Points(&'a str),
    /// To write the log of this name anew.
    Relog(&'a str),
    /// To run a program that is made from a seed, and sum the run up.
    Stress(StressRequest),
    /// To count how often each basic block of a program is executed.
    Blocks(BlocksRequest<'a>),
    /// To run a program that views follow.
    Visi(VisiRequest<'a>),
    /// To print the directives that the report of this name advises.
    Advise(&'a str),
    /// To run a program under search directives.
    Direct(DirectRequest<'a>),
    /// To profile a program.
    Profile(ProfileRequest<'a>),
    /// To show the words of a program with how often each is executed.
    Annotate(AnnotateRequest<'a>),
    /// To show a report to a person.
    Show(ShowRequest<'a>),
    /// To tell what differs between two reports.
    Diff(DiffRequest<'a>),
    /// To write a configuration that asks for metrics.
    Ask(AskRequest<'a>),
}
