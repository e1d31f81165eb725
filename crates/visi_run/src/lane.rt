//! The publisher's end of one view.

ghost use Rattle.std.specs.Prelude.{◌≡◌, ◌≤◌, ◌-◌, ◌++◌, true, length, IfOk, OnOk};
ghost use Rattle.std.specs.VecDeque.{deque_len, deque_capacity};
ghost use Rattle.crossbeam_channel.specs.Claims.{view, IsSeatAt};
ghost use Rattle.crossbeam_channel.specs.Ends.{sends_on, receives_on};
ghost use Rattle.visi_run.specs.Lines.{log};

use crate::line::{LinePass, Receiver, Roles, Sender, Sends, TakesRest};
use crate::publisher::View;
use pn_types::NoMemory;
use session_spec::LatestSample;
use std::collections::VecDeque;
use std::marker::Model;
use std::sync::Wait;

/// A channel, and what waits for it. Contracts see what was published here: what was sent, and then what waits.
#[derive(Drop)]
pub struct Lane {
    pub(crate) sender: Sender,
    pub(crate) pass: LinePass,
    pub(crate) waiting: VecDeque<LatestSample>,
}

impl Model for Lane {
    ghost use Rattle.std.specs.Prelude.{◌-◌, ◌++◌};
    ghost use Rattle.std.specs.VecDeque.{deque_len, deque_capacity};
    ghost use Rattle.crossbeam_channel.specs.Ends.{sends_on};
    ghost use Rattle.visi_run.specs.Lanes.{LaneData, IsSender, sent_by};

    ghost Value = { LaneData };

    ghost view = { λ l. record {
      all = sent_by l.pass ++ l.waiting.items;
      line = sends_on l.sender;
      room = deque_capacity l.waiting - deque_len l.waiting;
    } };

    ghost invariant = { λ l. IsSender (sends_on l.sender) l.pass };
}

impl Lane {
    /// Reserves memory for `count` more items.
    ///
    /// # Errors
    ///
    /// `NoMemory` where memory runs out.
    pub fn reserve(&mut self, count: usize) -> Result<(), NoMemory>
        ensures same { (self.new.all ≡ self.old.all) × (self.new.line ≡ self.old.line) }
        ensures room { OnOk result (count ≤ self.new.room) }
    {
        self.waiting.reserve(count)
    }

    /// Appends the items to those that wait.
    pub fn push_all(&mut self, items: &[LatestSample])
        requires { length items.now ≤ self.old.room }
        ensures all { self.new.all ≡ self.old.all ++ items.now }
        ensures line { self.new.line ≡ self.old.line }
    {
        push_waiting(&mut self.waiting, items);
    }

    /// Sends what waits, in order, until the channel hands an item back.
    pub fn offer<R: Wait>(&mut self, rt: &R)
        ensures { (self.new.all ≡ self.old.all) × (self.new.line ≡ self.old.line) }
    {
        send_waiting(rt, &self.sender, &mut self.pass, &mut self.waiting);
    }

    /// Returns the whole list of the view, once it has ended.
    ///
    /// # Errors
    ///
    /// `NoMemory` where memory runs out.
    pub fn settle<R: Wait>(&mut self, rt: &R, watch: View) -> Result<Vec<LatestSample>, NoMemory>
        requires { watch.line ≡ self.old.line }
        ensures same { (self.new.all ≡ self.old.all) × (self.new.line ≡ self.old.line) }
        ensures list { IfOk result (λ v. v.items ≡ self.old.all) }
    {
        let View {
            receiver,
            pass,
            mut taken,
        } = watch;
        self.sender.absorb::<Roles>(&mut self.pass, pass);
        take_rest(rt, &receiver, &mut self.pass, &mut taken)?;
        taken.extend_from_slice(self.waiting.make_contiguous())?;
        Ok(taken)
    }
}

fn push_waiting(waiting: &mut VecDeque<LatestSample>, items: &[LatestSample])
    requires { length items.now ≤ deque_capacity waiting.old - deque_len waiting.old }
    ensures { waiting.new.items ≡ waiting.old.items ++ items.now }
{
    for item in items {
        waiting.push_back_reserved(*item);
    }
}

/// Moves waiting items into the channel.
fn send_waiting<R: Wait>(
    rt: &R,
    sender: &Sender,
    pass: &mut LinePass,
    waiting: &mut VecDeque<LatestSample>,
)
    requires { IsSeatAt (sends_on sender.now) pass.old × ((view pass.old).sends ≡ true) }
    ensures pass { IsSeatAt (sends_on sender.now) pass.new × ((view pass.new).sends ≡ true) }
    ensures moved { (view pass.new).sent ++ waiting.new.items ≡ (view pass.old).sent ++ waiting.old.items }
{
    'send: for _ in rt.forever() {
        let Some(item) = waiting.front() else {
            break;
        };
        if sender.try_send_as::<Sends, R>(rt, pass, *item).is_err() {
            break;
        }
        waiting.pop_front();
    }
}

/// Receives all that the channel still holds.
fn take_rest<R: Wait>(
    rt: &R,
    receiver: &Receiver,
    pass: &mut LinePass,
    taken: &mut Vec<LatestSample>,
) -> Result<(), NoMemory>
    requires pass { IsSeatAt (receives_on receiver.now) pass.old }
    requires view { view pass.old ≡ log true true (view pass.old).sent taken.old.items }
    ensures pass { IsSeatAt (receives_on receiver.now) pass.new }
    ensures view { view pass.new ≡ log true true (view pass.old).sent taken.new.items }
    ensures all { OnOk result (taken.new.items ≡ (view pass.old).sent) }
{
    'rest: for _ in rt.forever() {
        taken.reserve(1)?;
        match receiver.try_recv_as::<TakesRest, R>(rt, pass) {
            Ok(item) => taken.push_reserved(item),
            Err(_) => return Ok(()),
        }
    }
    unreachable!()
}
