//! Turns of harts, and the orders in which they take them.

ghost use Rattle.std.specs.Prelude.{◌≡◌, ◌<◌, length};

use crate::comparison::compare;
use crate::images::image;
use plain_run::PlainMachine;
use pn_types::{HartNo, NoMemory};
use rv_word::Cause;
use std::alloc::Global;
use turn_order::{Order, Ready, generated};

/// Lets the hart take one turn, if it can. Returns whether it could.
fn take_turn(machine: &mut PlainMachine, hart: HartNo) -> bool
    requires { hart < length machine.old.state.harts }
    ensures { length machine.new.state.harts ≡ length machine.old.state.harts }
{
    let may = machine.runnable(hart);
    if may {
        machine.step(hart);
    }
    may
}

/// Returns which of four turns the second of two harts can take; and its ticks, its stop and where it stands, and the bytes of the
/// output, at the end.
fn run_second(alloc: Global) -> Result<([bool; 4], u64, Option<Cause>, u64, usize), NoMemory> {
    let mut machine = PlainMachine::new(alloc, &image(alloc)?, 2, 100)?;
    let last = HartNo::numbered(1);
    let taken = [
        take_turn(&mut machine, last),
        take_turn(&mut machine, last),
        take_turn(&mut machine, last),
        take_turn(&mut machine, last),
    ];
    let (ticks, stop, at) = (machine.ticks(last), machine.stop(last), machine.at(last));
    let len = machine.output().len();
    Ok((taken, ticks, stop, at, len))
}

#[test]
fn runs_to_the_exit(rt: HostRuntime) {
    compare(
        &rt,
        run_second(rt.alloc()),
        Ok((
            [true, true, true, false],
            3,
            Some(Cause::Exit(7)),
            0x1_0008,
            0,
        )),
    );
}

/// Returns the harts that orders pick of two; and once the first of them is gone, how many there are, and the first of all and from
/// 5 on.
fn pick_in_turn(
    alloc: Global,
) -> Result<([Option<HartNo>; 4], usize, [Option<HartNo>; 2]), NoMemory> {
    let (one, four) = (HartNo::numbered(1), HartNo::numbered(4));
    let mut ready = Ready::new(alloc);
    ready.push(one)?;
    ready.push(four)?;
    let round = Order::of_seed(0);
    let picked = [
        round.pick(&ready),
        round.after(one).pick(&ready),
        round.after(four).pick(&ready),
        // The generator begins at 1, and its first value, shifted by 33 bits, is even.
        Order::of_seed(1).pick(&ready),
    ];
    ready.remove(one);
    Ok((picked, ready.count(), [ready.at(0), ready.first_from(5)]))
}

#[test]
fn picks_harts_in_turn(rt: HostRuntime) {
    let (one, four) = (HartNo::numbered(1), HartNo::numbered(4));
    let picked = [Some(one), Some(four), Some(one), Some(one)];
    compare(
        &rt,
        (pick_in_turn(rt.alloc()), generated(1)),
        (
            Ok((picked, 1, [Some(four), None])),
            7_806_831_264_735_756_412,
        ),
    );
}
