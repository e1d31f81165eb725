//! The channel of one view, with its rule and its kinds of step.

use crossbeam_channel::protocol::{Join, Lesson, Outcome, Protocol, Split};
use crossbeam_channel::{Pass, RuledReceiver, RuledSender};
use session_spec::LatestSample;
use std::collections::LinkedList;

/// What a pass knows: whether it may send, whether it may take, what it has sent and what it has taken. No value of it is made.
pub struct Log {
    pub sends: bool,
    pub takes: bool,
    pub sent: LinkedList<LatestSample>,
    pub taken: LinkedList<LatestSample>,
}

/// The rule of the channel: what was sent is what was taken and then what the channel holds.
pub struct InOrder;

impl Protocol<LatestSample, Log> for InOrder {
    ghost use Rattle.std.specs.Prelude.{true, []};
    ghost use Rattle.visi_run.specs.Lines.{log, Flows};

    ghost holds = { Flows };

    ghost first = { log true true [] [] };
}

/// Splits the pass into the sender's and the view's, and joins these again.
pub struct Roles;

impl Split<Log> for Roles {
    ghost use Rattle.std.specs.Prelude.{true, false, []};
    ghost use Rattle.visi_run.specs.Lines.{log};

    ghost left = { λ v. log true false v.sent [] };

    ghost right = { λ v. log false true [] v.taken };
}

impl Join<Log> for Roles {
    ghost use Rattle.std.specs.Prelude.{true, false, []};
    ghost use Rattle.visi_run.specs.Lines.{log};

    ghost both = { λ v w. log true true v.sent w.taken };

    ghost spent = { log false false [] [] };
}

/// The step of a send.
pub struct Sends;

impl Outcome<LatestSample, Log> for Sends {
    ghost use Rattle.std.specs.Prelude.{◌≡◌};
    ghost use Rattle.visi_run.specs.Lines.{has_sent};

    ghost then = { λ v x w. w ≡ has_sent v x };
}

impl Lesson<LatestSample, Log> for Sends {
    ghost fact = { λ v items. Unit {0} };
}

/// The step of a receive.
pub struct Takes;

impl Outcome<LatestSample, Log> for Takes {
    ghost use Rattle.std.specs.Prelude.{◌≡◌};
    ghost use Rattle.visi_run.specs.Lines.{has_taken};

    ghost then = { λ v x w. w ≡ has_taken v x };
}

impl Lesson<LatestSample, Log> for Takes {
    ghost fact = { λ v items. Unit {0} };
}

/// The step of a receive by a pass that may also send, and so learns what the channel holds.
pub struct TakesRest;

impl Outcome<LatestSample, Log> for TakesRest {
    ghost use Rattle.std.specs.Prelude.{◌≡◌};
    ghost use Rattle.visi_run.specs.Lines.{has_taken};

    ghost then = { λ v x w. w ≡ has_taken v x };
}

impl Lesson<LatestSample, Log> for TakesRest {
    ghost use Rattle.std.specs.Prelude.{◌≡◌, ◌++◌};

    ghost fact = { λ v items. v.sent ≡ v.taken ++ items };
}

/// A sender of the channel.
pub type Sender = RuledSender<LatestSample, Log, InOrder>;

/// A receiver of the channel.
pub type Receiver = RuledReceiver<LatestSample, Log, InOrder>;

/// A pass of the channel.
pub type LinePass = Pass<LatestSample, Log>;
