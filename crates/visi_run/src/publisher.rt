//! A list of samples that each of several views takes, in order.
ghost use Rattle.std.specs.Prelude.{◌≡◌, ◌<◌, ◌≤◌, ◌++◌, [], ◌∷◌, length, map, vec_capacity, IfOk, IfSome, IfNone, OnOk, OnErr};
ghost use Rattle.std.specs.List.{AllByRecursion};
ghost use Rattle.visi_run.specs.Streams.{Watch, watch_lines};
ghost use Rattle.visi_run.specs.Lanes.{lines_of, alls_of, HaveOneList, HaveRoom};

use crate::lane::Lane;
use crate::line::{InOrder, LinePass, Log, Receiver, Roles, Takes};
use crossbeam_channel::bounded_with;
use pn_types::NoMemory;
use session_spec::LatestSample;
use std::alloc::Global;
use std::collections::VecDeque;
use std::marker::Model;
use std::sync::Wait;

/// Publishes to all views. Contracts see what was published, and the views' channels.
#[derive(Drop)]
pub struct Publisher {
    lanes: Vec<Lane>,
}

impl Model for Publisher {
    ghost use Rattle.std.specs.Prelude.{◌<◌, length};
    ghost use Rattle.visi_run.specs.Streams.{Published};
    ghost use Rattle.visi_run.specs.Lanes.{first_list, lines_of, HaveOneList};

    ghost Value = { Published };

    ghost view = { λ p. record { items = first_list p.lanes.items; lines = lines_of p.lanes.items } };

    ghost invariant = { λ p. (0 < length p.lanes.items) × HaveOneList p.lanes.items };
}

/// A view's end. Contracts see what it took, and its channel.
#[derive(Drop)]
pub struct View {
    pub(crate) receiver: Receiver,
    pub(crate) pass: LinePass,
    pub(crate) taken: Vec<LatestSample>,
}

impl Model for View {
    ghost use Rattle.crossbeam_channel.specs.Ends.{receives_on};
    ghost use Rattle.visi_run.specs.Streams.{Watch};
    ghost use Rattle.visi_run.specs.Lanes.{IsTaker};

    ghost Value = { Watch };

    ghost view = { λ v. record { taken = v.taken.items; line = receives_on v.receiver } };

    ghost invariant = { λ v. IsTaker (receives_on v.receiver) v.taken.items v.pass };
}

/// Makes a publisher and `views` views, from 1 to 8, each with a channel that has room for `room` items, from 1 to 1,024.
///
/// # Errors
///
/// `NoMemory` where memory runs out.
pub fn streams(alloc: Global, views: u32, room: u32) -> Result<(Publisher, Vec<View>), NoMemory>
    requires views { (1 ≤ views) × (views ≤ 8) }
    requires room { (1 ≤ room) × (room ≤ 1024) }
    ensures none { IfOk result (λ r. r.0.items ≡ []) }
    ensures count { IfOk result (λ r. length r.0.lines ≡ views) }
    ensures lines { IfOk result (λ r. watch_lines r.1.items ≡ r.0.lines) }
    ensures fresh { IfOk result (λ r. AllByRecursion (λ (w : Watch). w.taken ≡ []) r.1.items) }
{
    let mut lanes = Vec::with_capacity(alloc, views as usize)?;
    let mut watches = Vec::with_capacity(alloc, views as usize)?;
    open_all(alloc, views, room, &mut lanes, &mut watches)?;
    Ok((Publisher { lanes }, watches))
}

fn open_all(
    alloc: Global,
    views: u32,
    room: u32,
    lanes: &mut Vec<Lane>,
    watches: &mut Vec<View>,
) -> Result<(), NoMemory>
    requires room { 0 < room }
    requires empty { (lanes.old.items ≡ []) × (watches.old.items ≡ []) }
    ensures count { OnOk result (length lanes.new.items ≡ views) }
    ensures lines { OnOk result (watch_lines watches.new.items ≡ lines_of lanes.new.items) }
    ensures none { OnOk result (AllByRecursion (λ xs. xs ≡ []) (alls_of lanes.new.items)) }
    ensures fresh { OnOk result (AllByRecursion (λ (w : Watch). w.taken ≡ []) watches.new.items) }
{
    for _view in 0..views {
        let (lane, watch) = open(alloc, room)?;
        lanes.push(lane)?;
        watches.push(watch)?;
    }
    Ok(())
}

/// One channel.
fn open(alloc: Global, room: u32) -> Result<(Lane, View), NoMemory>
    requires { 0 < room }
    ensures { IfOk result (λ r. (r.0.all ≡ []) × (r.1.taken ≡ []) × (r.1.line ≡ r.0.line)) }
{
    let (sender, receiver, mut pass) = bounded_with::<LatestSample, Log, InOrder, Global>(
        alloc,
        room as usize,
    )?;
    let other = sender.another::<Roles>(&mut pass);
    let lane = Lane {
        sender,
        pass,
        waiting: VecDeque::new(alloc),
    };
    let watch = View {
        receiver,
        pass: other,
        taken: Vec::new(alloc),
    };
    Ok((lane, watch))
}

impl Publisher {
    /// Appends the items to the published list. They wait for each view.
    ///
    /// # Errors
    ///
    /// `NoMemory` where memory runs out. Then nothing has changed.
    pub fn publish(&mut self, items: &[LatestSample]) -> Result<(), NoMemory>
        ensures ok { OnOk result (self.new.items ≡ self.old.items ++ items.now) }
        ensures err { OnErr result (self.new.items ≡ self.old.items) }
        ensures lines { self.new.lines ≡ self.old.lines }
    {
        reserve_all(&mut self.lanes, items.len())?;
        push_all(&mut self.lanes, items);
        Ok(())
    }

    /// Moves what waits into the channels, in order, as far as there is room. It takes no memory.
    pub fn offer<R: Wait>(&mut self, rt: &R)
        ensures { self.new ≡ self.old }
    {
        offer_all(rt, &mut self.lanes);
    }
}

impl View {
    /// Takes the next item, if one has come, and appends it to what the view took.
    ///
    /// # Errors
    ///
    /// `NoMemory` where memory runs out. Then nothing has changed.
    pub fn take<R: Wait>(&mut self, rt: &R) -> Result<Option<LatestSample>, NoMemory>
        ensures some { IfOk result (λ o. IfSome o (λ x. self.new ≡ record self.old { taken = self.old.taken ++ x ∷ [] })) }
        ensures none { IfOk result (λ o. IfNone o (self.new ≡ self.old)) }
        ensures err { OnErr result (self.new ≡ self.old) }
    {
        self.taken.reserve(1)?;
        match self.receiver.try_recv_as::<Takes, R>(rt, &mut self.pass) {
            Ok(item) => {
                self.taken.push_reserved(item);
                Ok(Some(item))
            }
            Err(_) => Ok(None),
        }
    }

    /// Returns what the view took, in order.
    pub fn taken(&self) -> &[LatestSample]
        ensures { result.now ≡ self.now.taken }
    {
        self.taken.as_slice()
    }
}

/// Returns the whole list of each view, in the order of the views, all of which are the publisher's: what was published, each item
/// once and in order.
///
/// # Errors
///
/// `NoMemory` where memory runs out.
pub fn gather<R: Wait>(
    rt: &R,
    alloc: Global,
    p: Publisher,
    views: Vec<View>,
) -> Result<Vec<Vec<LatestSample>>, NoMemory>
    requires { watch_lines views.items ≡ p.lines }
    ensures count { IfOk result (λ r. length r.items ≡ length p.lines) }
    ensures whole { IfOk result (λ r. AllByRecursion (λ xs. xs ≡ p.items) (map (λ v. v.items) r.items)) }
{
    let Publisher { mut lanes } = p;
    let mut lists = Vec::with_capacity(alloc, views.len())?;
    settle_all(rt, &mut lanes, views, &mut lists)?;
    Ok(lists)
}

fn reserve_all(lanes: &mut Vec<Lane>, count: usize) -> Result<(), NoMemory>
    ensures alls { alls_of lanes.new.items ≡ alls_of lanes.old.items }
    ensures lines { lines_of lanes.new.items ≡ lines_of lanes.old.items }
    ensures room { OnOk result (HaveRoom count lanes.new.items) }
{
    for i in 0..lanes.len() {
        lanes[i].reserve(count)?;
    }
    Ok(())
}

fn push_all(lanes: &mut Vec<Lane>, items: &[LatestSample])
    requires { HaveRoom (length items.now) lanes.old.items }
    ensures alls { alls_of lanes.new.items ≡ map (λ xs. xs ++ items.now) (alls_of lanes.old.items) }
    ensures lines { lines_of lanes.new.items ≡ lines_of lanes.old.items }
{
    for i in 0..lanes.len() {
        lanes[i].push_all(items);
    }
}

fn offer_all<R: Wait>(rt: &R, lanes: &mut Vec<Lane>)
    ensures alls { alls_of lanes.new.items ≡ alls_of lanes.old.items }
    ensures lines { lines_of lanes.new.items ≡ lines_of lanes.old.items }
{
    for i in 0..lanes.len() {
        lanes[i].offer(rt);
    }
}

fn settle_all<R: Wait>(
    rt: &R,
    lanes: &mut Vec<Lane>,
    views: Vec<View>,
    lists: &mut Vec<Vec<LatestSample>>,
) -> Result<(), NoMemory>
    requires lines { watch_lines views.items ≡ lines_of lanes.old.items }
    requires lists { (lists.old.items ≡ []) × (length views.items ≤ vec_capacity lists.old) }
    ensures { OnOk result (map (λ v. v.items) lists.new.items ≡ alls_of lanes.old.items) }
{
    let mut i = 0;
    for watch in views {
        lists.push_reserved(lanes[i].settle(rt, watch)?);
        i += 1;
    }
    Ok(())
}
