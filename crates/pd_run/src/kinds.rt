//! What kinds of files calls write.

ghost use Rattle.std.specs.Prelude.{◌≡◌, map};
ghost use Rattle.command_words.specs.Asked.{asked};
ghost use Rattle.pd_run.specs.Guards.{KindsAreTold, beginnings_of, kind_in_format, kind_in_shape, written_kind, log_kind};

use command_words::{ProfileShape, Request, ViewFormat};

/// Kinds of files that are written.
#[derive(Clone, Copy, Drop)]
pub enum Kind {
    /// A log of quanta.
    Log,
    /// A report.
    Report,
    /// The samples that views of a run were given.
    Samples,
    /// The line that sums up the run of a program that was made from a seed.
    Summary,
    /// A profile, one record a line.
    Profile,
    /// A report or a profile as a person looks at it in a terminal.
    View,
    /// Procedures with their instructions or their lines of source.
    Annotation,
    /// How often basic blocks are executed.
    Blocks,
    /// The points of a program.
    Points,
    /// The plan of a metric.
    Plan,
    /// What differs between two reports or two profiles.
    Difference,
    /// A report as JSON.
    Json,
    /// A report as comma-separated values.
    Csv,
    /// A report as a picture.
    Svg,
    /// A report as a page.
    Html,
    /// A configuration that asks for metrics.
    Configuration,
    /// Directives for a search.
    Directives,
    /// An ELF file.
    Elf,
    /// What callgrind's tools read.
    Callgrind,
}

impl Kind {
    /// Returns how files of the kind begin: in one of these ways. The longest has 32 bytes at most.
    #[tactic(auto, unfolding(crate::specs::Guards::beginnings_of))]
    pub fn beginnings(self) -> &'static [&'static [u8]]
        ensures { map (λ front. front.now) result.now ≡ beginnings_of self }
    {
        match self {
            Kind::Log => &[b"PDYNLOG"],
            Kind::Report => &[b"paradyn report "],
            Kind::Samples => &[b"paradyn visi "],
            Kind::Summary => &[b"stress "],
            Kind::Profile => &[b"profile harts "],
            Kind::View => &[b"ticks "],
            Kind::Annotation => &[b"procedure "],
            Kind::Blocks => &[b"blocks "],
            Kind::Points => &[b"points "],
            Kind::Plan => &[b"plan "],
            Kind::Difference => &DIFFERENCES,
            Kind::Json => &[b"{\"format\":\"paradyn report "],
            Kind::Csv => &[b"record,number,name,"],
            Kind::Svg => &[b"<svg "],
            Kind::Html => &[b"<!DOCTYPE html>"],
            Kind::Configuration => &[b"include metrics;"],
            Kind::Directives => &[b"prune ", b"threshold ", b"first "],
            Kind::Elf => &[b"\x7fELF"],
            Kind::Callgrind => &[b"# callgrind format"],
        }
    }

    /// Returns what files of the kind are called, with an article.
    pub fn what(self) -> &'static str {
        match self {
            Kind::Log => "a log",
            Kind::Report => "a report",
            Kind::Samples => "a list of samples",
            Kind::Summary => "a summary of stress",
            Kind::Profile => "a profile",
            Kind::View => "a report or a profile as it is shown",
            Kind::Annotation => "an annotated program",
            Kind::Blocks => "a list of blocks",
            Kind::Points => "a list of points",
            Kind::Plan => "a plan",
            Kind::Difference => "a table of differences",
            Kind::Json => "a report as JSON",
            Kind::Csv => "a report as CSV",
            Kind::Svg => "a picture of a report",
            Kind::Html => "a page of a report",
            Kind::Configuration => "a configuration by ask",
            Kind::Directives => "a file of directives",
            Kind::Elf => "an ELF file",
            Kind::Callgrind => "a callgrind file",
        }
    }
}

/// How texts on what differs begin.
const DIFFERENCES: [&[u8]; 11] = [
    b"             old",
    b"hart ",
    b"only in ",
    b"output: ",
    b"same sum: ",
    b"same state: ",
    b"true -> ",
    b"false -> ",
    b"barred -> ",
    b"waiting -> ",
    b"nothing differs",
];

/// Returns the kind of a report in a format.
fn kind_in_format(format: ViewFormat) -> Kind
    ensures { result ≡ kind_in_format format }
{
    match format {
        ViewFormat::Blocks | ViewFormat::Ascii => Kind::View,
        ViewFormat::Json => Kind::Json,
        ViewFormat::Csv => Kind::Csv,
        ViewFormat::Svg => Kind::Svg,
        ViewFormat::Html => Kind::Html,
    }
}

/// Returns the kind of a profile in a shape.
fn kind_in_shape(shape: ProfileShape) -> Kind
    ensures { result ≡ kind_in_shape shape }
{
    match shape {
        ProfileShape::Lines | ProfileShape::Words => Kind::Profile,
        ProfileShape::Table => Kind::View,
    }
}

/// Returns what kind of file the text is that is asked for.
pub fn written_kind(request: &Request<'_>) -> Kind
    ensures { result ≡ written_kind (asked request.now) }
{
    match request {
        Request::Run(_) | Request::Live(_) | Request::Replay(_) | Request::Direct(_) => {
            Kind::Report
        }
        Request::Visi(_) => Kind::Samples,
        Request::Stress(_) => Kind::Summary,
        Request::Profile(request) => kind_in_shape(request.shape),
        Request::Annotate(_) => Kind::Annotation,
        Request::Blocks(_) => Kind::Blocks,
        Request::Points(_) => Kind::Points,
        Request::Plan(_) => Kind::Plan,
        Request::Asm(_) => Kind::Elf,
        Request::Relog(_) => Kind::Log,
        Request::Advise(_) => Kind::Directives,
        Request::Show(request) => kind_in_format(request.format),
        Request::Diff(_) => Kind::Difference,
        Request::Ask(_) => Kind::Configuration,
    }
}

/// Returns what kind of file the second text is that is asked for: a log, or what callgrind's tools read.
pub fn log_kind(request: &Request<'_>) -> Kind
    ensures { result ≡ log_kind (asked request.now) }
{
    match request {
        Request::Profile(_) => Kind::Callgrind,
        _ => Kind::Log,
    }
}

/// What a command tells begins as files of its request's kind do, or is empty.
pub fn kinds_are_told()
    ensures { KindsAreTold }
{}
