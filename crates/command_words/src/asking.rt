//! Reads what words ask for.

ghost use Rattle.std.specs.Prelude.{◌≡◌, ◌≤◌, is_some, MatchResult, IfOk, IfSome, Some, None, map, option_map, string_bytes};
ghost use Rattle.command_words.specs.Addresses.{also_told};
ghost use Rattle.command_words.specs.Asked.{asked, asked_blocks, asked_session, asked_source};
ghost use Rattle.command_words.specs.Numbers.{number_between, number_given};
ghost use Rattle.command_words.specs.Requests.{place_in, session_of, settings_of, order_of, start_given, start_named, run_request, live_request, plan_request, stress_request, blocks_of, visi_request, direct_request, profile_source, shape_named, shape_given, unit_named, unit_given, profile_request, annotate_request, request_from, request_of, begins_threaded, HasRanges, IsBlocksInRange, IsOrderInRange};
ghost use Rattle.command_words.specs.Walked.{option_seen};
ghost use Rattle.pn_types.specs.Settings.{AreInRange};

use crate::address_list::are_addresses;
use crate::ask_asking::ask_request;
use crate::commands::CommandName;
use crate::given::Given;
use crate::matching::{WordFault, matches};
use crate::numbers::{
    BINS, BUDGET, HARTS, INSTRUMENTS, NumberOption, QUANTUM, SEED, TOP, VIEWS, WIDTH, WORKERS,
};
use crate::requests::{
    AnnotateRequest, AnnotationUnit, BlocksRequest, DiffRequest, DirectRequest, LiveRequest,
    PlanRequest, ProfileRequest, ProfileShape, ProfileSource, ReplayRequest, Request, RunRequest,
    SessionRequest, StressRequest, TurnOrder, VisiRequest,
};
use crate::show_asking::show_request;
use pn_text::number;
use pn_types::{Settings, Start};
use std::alloc::Global;

/// Returns the positional word of this name.
pub(crate) fn place<'a, G: Given<'a>>(given: &G, name: &str) -> &'a str
    ensures { result.now ≡ place_in (G.given given.now) name.now }
{
    given.value(name).unwrap_or("")
}

/// Reads a number of 1 to 10 digits in a range.
#[tactic(auto, using(crate::proofs::Ranges::number_is_at_most))]
pub(crate) fn number_between(text: &str, least: u64, most: u64) -> Option<u64>
    ensures number { result ≡ number_between least most text.now }
    ensures range { IfSome result (λ n. (least ≤ n) × (n ≤ most)) }
{
    let number = number(text.as_bytes(), most)?;
    if least <= number { Some(number) } else { None }
}

/// Returns the number that an option gives, or its default where it isn't given.
pub(crate) fn number_given<'a, 'n, G: Given<'a>>(given: &G, option: NumberOption<'n>) -> Option<u64>
    ensures number { result ≡ number_given (G.given given.now) (option_seen option.entry) }
    ensures range { IfSome result (λ n. (option.entry.least ≤ n) × (n ≤ option.entry.most)) }
{
    match given.value(option.name) {
        Some(text) => number_between(text, option.least, option.most),
        None => Some(option.default),
    }
}

/// Returns the start of this name.
fn start_named(text: &str) -> Option<Start>
    ensures { result ≡ start_named text.now }
{
    if text == "cold" {
        return Some(Start::Cold);
    }
    if text == "warm" {
        return Some(Start::Warm);
    }
    None
}

/// Returns the start that is given, or `warm` where none is.
fn start_given<'a, G: Given<'a>>(given: &G) -> Option<Start>
    ensures { result ≡ start_given (G.given given.now) }
{
    match given.value("start") {
        Some(text) => start_named(text),
        None => Some(Start::Warm),
    }
}

fn settings<'a, G: Given<'a>>(given: &G) -> Option<Settings>
    ensures settings { result ≡ settings_of (G.given given.now) }
    ensures ranges { IfSome result AreInRange }
{
    let harts = number_given(given, HARTS)?;
    let budget = number_given(given, BUDGET)?;
    let bins = number_given(given, BINS)?;
    let width = number_given(given, WIDTH)?;
    let instruments = number_given(given, INSTRUMENTS)?;
    let start = start_given(given)?;
    Some(Settings {
        harts: harts as u32,
        budget,
        bins: bins as u32,
        width,
        start,
        instruments: instruments as u32,
    })
}

fn session<'a, G: Given<'a>>(given: &G) -> Option<SessionRequest<'a>>
    ensures session { option_map asked_session result ≡ session_of (G.given given.now) }
    ensures ranges { IfSome result (λ session. AreInRange session.settings) }
{
    let settings = settings(given)?;
    Some(SessionRequest {
        program: place(given, "program"),
        conf: place(given, "conf"),
        settings,
    })
}

fn order<'a, G: Given<'a>>(given: &G) -> Option<TurnOrder>
    ensures order { result ≡ order_of (G.given given.now) }
    ensures range { IfSome result IsOrderInRange }
{
    let seed = number_given(given, SEED)?;
    let quantum = number_given(given, QUANTUM)?;
    Some(TurnOrder {
        seed: seed as u32,
        quantum: quantum as u32,
    })
}

fn run_request<'a, G: Given<'a>>(given: &G) -> Option<Request<'a>>
    ensures request { option_map asked result ≡ run_request (G.given given.now) }
    ensures ranges { IfSome result (λ request. HasRanges (asked request)) }
{
    let session = session(given)?;
    let order = order(given)?;
    Some(Request::Run(RunRequest {
        session,
        order,
        log: given.value("log"),
    }))
}

fn live_request<'a, G: Given<'a>>(given: &G) -> Option<Request<'a>>
    ensures request { option_map asked result ≡ live_request (G.given given.now) }
    ensures ranges { IfSome result (λ request. HasRanges (asked request)) }
{
    let session = session(given)?;
    let quantum = number_given(given, QUANTUM)?;
    let workers = number_given(given, WORKERS)?;
    Some(Request::Live(LiveRequest {
        session,
        workers: workers as u32,
        quantum: quantum as u32,
        log: given.value("log"),
    }))
}

fn plan_request<'a, G: Given<'a>>(given: &G) -> Option<Request<'a>>
    ensures request { option_map asked result ≡ plan_request (G.given given.now) }
    ensures ranges { IfSome result (λ request. HasRanges (asked request)) }
{
    let harts = number_given(given, HARTS)?;
    Some(Request::Plan(PlanRequest {
        program: place(given, "program"),
        conf: place(given, "conf"),
        metric: place(given, "metric"),
        focus: place(given, "focus"),
        harts: harts as u32,
    }))
}

fn stress_request<'a, G: Given<'a>>(given: &G) -> Option<Request<'a>>
    ensures request { option_map asked result ≡ stress_request (G.given given.now) }
    ensures ranges { IfSome result (λ request. HasRanges (asked request)) }
{
    let procs = number_between(place(given, "procs"), 1, 200)?;
    let seed = number_between(place(given, "seed"), 0, 4_294_967_295)?;
    Some(Request::Stress(StressRequest {
        procs: procs as u32,
        seed: seed as u32,
    }))
}

pub(crate) fn blocks<'a, G: Given<'a>>(given: &G) -> Option<BlocksRequest<'a>>
    ensures request { option_map asked_blocks result ≡ blocks_of (G.given given.now) }
    ensures ranges { IfSome result (λ request. IsBlocksInRange (asked_blocks request)) }
{
    let harts = number_given(given, HARTS)?;
    let budget = number_given(given, BUDGET)?;
    let order = order(given)?;
    Some(BlocksRequest {
        program: place(given, "program"),
        harts: harts as u32,
        budget,
        order,
    })
}

/// Returns whether each part of the text of `also` is an address, where it is given.
fn is_also_good(also: Option<&str>) -> bool
    ensures { result ≡ is_some (also_told (option_map (λ s. s.now) also.entry)) }
{
    match also {
        Some(text) => are_addresses(text.as_bytes()),
        None => true,
    }
}

fn profile_source<'a, G: Given<'a>>(given: &G) -> Option<ProfileSource<'a>>
    ensures source { option_map asked_source result ≡ profile_source (G.given given.now) }
    ensures ranges { IfSome result (λ source. IsBlocksInRange (asked_source source).counted) }
{
    let counted = blocks(given)?;
    let also = given.value("also");
    if is_also_good(also) {
        Some(ProfileSource { counted, also })
    } else {
        None
    }
}

/// Returns the shape of this name.
fn shape_named(text: &str) -> Option<ProfileShape>
    ensures { result ≡ shape_named text.now }
{
    match text {
        "lines" => Some(ProfileShape::Lines),
        "words" => Some(ProfileShape::Words),
        "table" => Some(ProfileShape::Table),
        _ => None,
    }
}

/// Returns the shape that is given, or lines where none is.
fn shape_given<'a, G: Given<'a>>(given: &G) -> Option<ProfileShape>
    ensures { result ≡ shape_given (G.given given.now) }
{
    match given.value("show") {
        Some(text) => shape_named(text),
        None => Some(ProfileShape::Lines),
    }
}

/// Returns the unit of this name.
fn unit_named(text: &str) -> Option<AnnotationUnit>
    ensures { result ≡ unit_named text.now }
{
    match text {
        "words" => Some(AnnotationUnit::Words),
        "lines" => Some(AnnotationUnit::Lines),
        _ => None,
    }
}

/// Returns the unit that is given, or words where none is.
fn unit_given<'a, G: Given<'a>>(given: &G) -> Option<AnnotationUnit>
    ensures { result ≡ unit_given (G.given given.now) }
{
    match given.value("by") {
        Some(text) => unit_named(text),
        None => Some(AnnotationUnit::Words),
    }
}

fn profile_request<'a, G: Given<'a>>(given: &G) -> Option<Request<'a>>
    ensures request { option_map asked result ≡ profile_request (G.given given.now) }
    ensures ranges { IfSome result (λ request. HasRanges (asked request)) }
{
    let source = profile_source(given)?;
    let shape = shape_given(given)?;
    let top = number_given(given, TOP)?;
    Some(Request::Profile(ProfileRequest {
        source,
        shape,
        top: top as u32,
        callgrind: given.value("callgrind"),
    }))
}

fn annotate_request<'a, G: Given<'a>>(given: &G) -> Option<Request<'a>>
    ensures request { option_map asked result ≡ annotate_request (G.given given.now) }
    ensures ranges { IfSome result (λ request. HasRanges (asked request)) }
{
    let source = profile_source(given)?;
    let unit = unit_given(given)?;
    Some(Request::Annotate(AnnotateRequest {
        source,
        procedure: given.value("procedure"),
        unit,
    }))
}

fn visi_request<'a, G: Given<'a>>(given: &G) -> Option<Request<'a>>
    ensures request { option_map asked result ≡ visi_request (G.given given.now) }
    ensures ranges { IfSome result (λ request. HasRanges (asked request)) }
{
    let session = session(given)?;
    let order = order(given)?;
    let views = number_given(given, VIEWS)?;
    Some(Request::Visi(VisiRequest {
        session,
        order,
        views: views as u32,
    }))
}

fn direct_request<'a, G: Given<'a>>(given: &G) -> Option<Request<'a>>
    ensures request { option_map asked result ≡ direct_request (G.given given.now) }
    ensures ranges { IfSome result (λ request. HasRanges (asked request)) }
{
    let session = session(given)?;
    let order = order(given)?;
    Some(Request::Direct(DirectRequest {
        session,
        directives: place(given, "directives"),
        order,
    }))
}

/// Returns the request that the values of a command give, if each number is in its range.
pub fn request_from<'a, G: Given<'a>>(name: CommandName, given: &G) -> Option<Request<'a>>
    ensures request { option_map asked result ≡ request_from name (G.given given.now) }
    ensures ranges { IfSome result (λ request. HasRanges (asked request)) }
{
    match name {
        CommandName::Run => run_request(given),
        CommandName::Live => live_request(given),
        CommandName::Replay => Some(Request::Replay(ReplayRequest {
            program: place(given, "program"),
            conf: place(given, "conf"),
            log: place(given, "record"),
        })),
        CommandName::Asm => Some(Request::Asm(place(given, "text"))),
        CommandName::Points => Some(Request::Points(place(given, "program"))),
        CommandName::Plan => plan_request(given),
        CommandName::Stress => stress_request(given),
        CommandName::Relog => Some(Request::Relog(place(given, "record"))),
        CommandName::Blocks => Some(Request::Blocks(blocks(given)?)),
        CommandName::Visi => visi_request(given),
        CommandName::Advise => Some(Request::Advise(place(given, "report"))),
        CommandName::Direct => direct_request(given),
        CommandName::Profile => profile_request(given),
        CommandName::Annotate => annotate_request(given),
        CommandName::Show => show_request(given),
        CommandName::Diff => Some(Request::Diff(DiffRequest {
            old: place(given, "old"),
            new: place(given, "new"),
        })),
        CommandName::Ask => ask_request(given),
    }
}

/// Returns whether the first word is that of a command that begins threads: `live` or `visi`.
pub fn begin_threaded(words: &[String]) -> bool
    ensures { result ≡ begins_threaded (map string_bytes words.now) }
{
    match words.first() {
        Some(first) => "live" == first.as_str() || "visi" == first.as_str(),
        None => false,
    }
}

/// Reads what the words of the command line, without the program's name, ask for. They are no command where the first names none,
/// the others aren't the positional words and options of that command, or a number is out of its range.
///
/// # Errors
///
/// `Usage` exactly where the words are no command; `NoMemory` where memory runs out.
pub fn read_request<'a>(alloc: Global, words: &'a [String]) -> Result<Request<'a>, WordFault>
    ensures request { MatchResult result (λ request. request_of (map string_bytes words.entry.now) ≡ Some (asked request))
        (λ fault. fault ≡ WordFault.Usage → request_of (map string_bytes words.entry.now) ≡ None) }
    ensures ranges { IfOk result (λ request. HasRanges (asked request)) }
{
    let Some(first) = words.first() else {
        return Err(WordFault::Usage);
    };
    let Some(name) = CommandName::of_word(first.as_str()) else {
        return Err(WordFault::Usage);
    };
    let matches = matches(alloc, name, words)?;
    match request_from(name, &matches) {
        Some(request) => Ok(request),
        None => Err(WordFault::Usage),
    }
}
