//! What the words of a call name.

use command_words::{Request, SessionRequest};

/// Metrics, parted by commas, and a focus of the command line.
#[derive(Clone, Copy, Drop)]
pub(crate) struct Pick<'a> {
    pub(crate) metric: &'a str,
    pub(crate) focus: &'a str,
}

/// What the words of a call name.
#[derive(Clone, Copy, Drop)]
pub(crate) struct Call<'a> {
    /// The name of the program's file.
    pub(crate) program: Option<&'a str>,
    /// The name of the configuration's file.
    pub(crate) conf: Option<&'a str>,
    /// The name of the directives' file.
    pub(crate) directives: Option<&'a str>,
    /// What `plan` or `ask` is asked for.
    pub(crate) pick: Option<Pick<'a>>,
    /// Whether the configuration is that of the shipped metrics alone.
    pub(crate) is_shipped: bool,
    /// The number of harts, where the words tell it.
    pub(crate) harts: Option<u32>,
}

impl<'a> Call<'a> {
    /// Returns the call of a program alone.
    fn of_program(program: &'a str) -> Call<'a> {
        Call {
            program: Some(program),
            conf: None,
            directives: None,
            pick: None,
            is_shipped: false,
            harts: None,
        }
    }

    /// Returns the call of a program under a configuration.
    fn of_session(session: &SessionRequest<'a>) -> Call<'a> {
        Call {
            conf: Some(session.conf),
            harts: Some(session.settings.harts),
            ..Call::of_program(session.program)
        }
    }

    /// Returns what a request names, if it is about a program.
    pub(crate) fn of(request: &Request<'a>) -> Option<Call<'a>> {
        match request {
            Request::Run(run) => Some(Call::of_session(&run.session)),
            Request::Live(live) => Some(Call::of_session(&live.session)),
            Request::Visi(visi) => Some(Call::of_session(&visi.session)),
            Request::Direct(direct) => Some(Call {
                directives: Some(direct.directives),
                ..Call::of_session(&direct.session)
            }),
            Request::Replay(replay) => Some(Call {
                conf: Some(replay.conf),
                ..Call::of_program(replay.program)
            }),
            Request::Plan(plan) => Some(Call {
                conf: Some(plan.conf),
                pick: Some(Pick {
                    metric: plan.metric,
                    focus: plan.focus,
                }),
                harts: Some(plan.harts),
                ..Call::of_program(plan.program)
            }),
            Request::Asm(name) | Request::Points(name) => Some(Call::of_program(name)),
            Request::Blocks(blocks) => Some(Call::of_program(blocks.program)),
            Request::Profile(profile) => Some(Call::of_program(profile.source.counted.program)),
            Request::Annotate(annotate) => Some(Call::of_program(annotate.source.counted.program)),
            Request::Ask(ask) => Some(Call {
                pick: Some(Pick {
                    metric: ask.metrics,
                    focus: ask.under,
                }),
                is_shipped: true,
                harts: Some(ask.counted.harts),
                ..Call::of_program(ask.counted.program)
            }),
            Request::Relog(_)
            | Request::Stress(_)
            | Request::Advise(_)
            | Request::Show(_)
            | Request::Diff(_) => None,
        }
    }
}
