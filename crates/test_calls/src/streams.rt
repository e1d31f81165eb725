//! Streams of samples, and a gauge.

ghost use Rattle.std.specs.Prelude.{◌≡◌, IfOk};

use crate::comparison::compare;
use pn_types::NoMemory;
use session_spec::LatestSample;
use std::alloc::Global;
use std::sync::Wait;
use std::sync::atomic::{AtomicU64, Ordering};
use std::thread;
use std::thread::Threads;
use visi_run::{Publisher, Reading, View, gather, gauge, streams};

fn item(n: u64) -> LatestSample {
    LatestSample {
        shown: 0,
        from: n,
        to: n,
        sum: n,
    }
}

const READING: Reading = Reading {
    published: 3,
    ticks: 7,
    ended: true,
};

/// Returns what is read after a set on the same thread, and what the gauge gives at its end.
fn set_and_read<R: Wait>(rt: &R, alloc: Global) -> Result<[Reading; 2], NoMemory> {
    let (dial, mut writer, mut readers) = gauge(alloc, 2)?;
    dial.set(rt, &mut writer, READING);
    let read = dial.read(rt, &mut readers[1]);
    Ok([read, dial.close(rt, writer, readers)])
}

#[test]
fn reads_what_was_set(rt: HostRuntime) {
    compare(&rt, set_and_read(&rt, rt.alloc()), Ok([READING; 2]));
}

/// Returns how many lists there are of three items that went, with room 1 and no take, to two views, and whether each has all.
fn gather_waiting<R: Wait>(rt: &R, alloc: Global) -> Result<(usize, bool), NoMemory> {
    let (mut publisher, views) = streams(alloc, 2, 1)?;
    let items = [item(1), item(2), item(3)];
    publisher.publish(&items)?;
    publisher.offer(rt);
    let lists = gather(rt, alloc, publisher, views)?;
    let whole = lists.iter().all(|list| list.as_slice() == items.as_slice());
    Ok((lists.len(), whole))
}

#[test]
fn gathers_what_waits(rt: HostRuntime) {
    compare(&rt, gather_waiting(&rt, rt.alloc()), Ok((2, true)));
}

/// Publishes the first item, waits until the view took it, for a bounded number of polls, and publishes the second.
fn publish_two<R: Wait>(
    rt: &R,
    flag: &AtomicU64,
    mut publisher: Publisher,
) -> Result<(Publisher, bool), NoMemory>
    ensures { IfOk result (λ r. r.0.lines ≡ publisher.lines) }
{
    publisher.publish(&[item(1)])?;
    publisher.offer(rt);
    let mut came = false;
    for _ in 0..10_000_000 {
        if flag.load(Ordering::SeqCst) == 1 {
            came = true;
            break;
        }
        thread::yield_now();
    }
    publisher.publish(&[item(2)])?;
    publisher.offer(rt);
    Ok((publisher, came))
}

/// Takes two items, and sets the flag at the first.
fn take_two<R: Wait>(rt: &R, flag: &AtomicU64, mut view: View) -> Result<View, NoMemory>
    ensures { IfOk result (λ v. v.line ≡ view.line) }
{
    for _ in 0..10_000_000 {
        if view.taken().len() >= 2 {
            break;
        }
        match view.take(rt)? {
            Some(_) => flag.store(1, Ordering::SeqCst),
            None => thread::yield_now(),
        }
    }
    Ok(view)
}

/// Returns whether the first item was taken before the second was published, how many items the view took, and how many lists are
/// gathered and how long the first is.
fn pass_two<R: Threads + Wait + Sync>(
    rt: &R,
    alloc: Global,
) -> Result<(bool, usize, usize, Option<usize>), NoMemory> {
    let (publisher, mut views) = streams(alloc, 1, 4)?;
    let flag = AtomicU64::new(0);
    let Some(view) = views.pop() else {
        return Ok((false, 0, 0, None));
    };
    let (sent, view) = thread::join(
        rt,
        || publish_two(rt, &flag, publisher),
        || take_two(rt, &flag, view),
    );
    let (publisher, came) = sent?;
    let view = view?;
    let taken = view.taken().len();
    views.push(view)?;
    let lists = gather(rt, alloc, publisher, views)?;
    Ok((
        came,
        taken,
        lists.len(),
        lists.first().map(|list| list.len()),
    ))
}

/// Items pass while the run goes on.
#[test]
fn items_pass(rt: HostRuntime) {
    compare(&rt, pass_two(&rt, rt.alloc()), Ok((true, 2, 1, Some(2))));
}
