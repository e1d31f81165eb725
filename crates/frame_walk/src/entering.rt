//! The statements of Opens act, from the last address of a walk to the first. A walk has at most 66 addresses, and each lets at
//! most 32 statements act, so that no number of starts comes near the end of its range.

ghost use Rattle.std.specs.Prelude.{◌≡◌, ◌<◌, ◌≤◌, ◌+◌, ◌-◌, ◌*◌, nat_lt, if◌then◌else◌, [], true, IfSome, Some};
ghost use Rattle.std.specs.List.{AllByRecursion};
ghost use Rattle.std.specs.Option.{option_copied};
ghost use Rattle.tramp_spec.specs.Values.{values_after};
ghost use Rattle.frame_walk.specs.Frames.{calls};
ghost use Rattle.frame_walk.specs.Walks.{walk_of};
ghost use Rattle.frame_walk.specs.Openings.{entry_statements, holds, of_caller, of_calls, of_pc, open_at, stmts_where};
ghost use Rattle.frame_walk.specs.Rooms.{IsSmall};

use crate::acting::pass_all;
use crate::frame::{call_before, caller_of, frame_at, is_text};
use crate::values::Values;
use crate::walk_start::WalkStart;
use pn_types::Open;
use rv_mem::Mem;

/// The most frames of a walk.
const MOST_FRAMES: u32 = 64;

/// Whether an address lies in the range of an Open.
fn holds(range: &Open, at: u64) -> bool
    ensures { result ≡ holds at range.now }
{
    range.start <= at && at - range.start < range.len
}

/// The first Open in whose range an address lies.
fn find_open(opens: &[Open], at: u64) -> Option<&Open>
    requires { AllByRecursion IsSmall opens.now }
    ensures found { option_copied result ≡ open_at opens.now at }
    ensures small { IfSome result (λ range. IsSmall range.now) }
{
    for range in opens {
        if holds(range, at) {
            return Some(range);
        }
    }
    None
}

/// A call of a frame acts.
fn enter_call(opens: &[Open], at: u64, values: &mut Values)
    requires small { AllByRecursion IsSmall opens.now }
    requires left { values.old.acts + 32 ≤ 2112 }
    ensures values { values.new.values ≡ values_after (stmts_where (λ o. true) (open_at opens.now at)) [] values.old.values }
    ensures acts { values.new.acts ≤ values.old.acts + 32 }
{
    if let Some(range) = find_open(opens, at) {
        pass_all(range.stmts.as_slice(), values);
    }
}

/// The pc acts, where it is above the start of its Open.
fn enter_pc(opens: &[Open], pc: u64, values: &mut Values)
    requires small { AllByRecursion IsSmall opens.now }
    requires left { values.old.acts + 32 ≤ 2112 }
    ensures values { values.new.values ≡ values_after (of_pc opens.now pc) [] values.old.values }
    ensures acts { values.new.acts ≤ values.old.acts + 32 }
{
    if let Some(range) = find_open(opens, pc) {
        if range.start < pc {
            pass_all(range.stmts.as_slice(), values);
        }
    }
}

/// The caller acts, where its Open isn't that of the pc.
fn enter_caller(opens: &[Open], pc: u64, caller: Option<u64>, values: &mut Values)
    requires small { AllByRecursion IsSmall opens.now }
    requires left { values.old.acts + 32 ≤ 2112 }
    ensures values { values.new.values ≡ values_after (of_caller opens.now pc caller) [] values.old.values }
    ensures acts { values.new.acts ≤ values.old.acts + 32 }
{
    if let Some(at) = caller {
        if let Some(range) = find_open(opens, at) {
            if !holds(range, pc) {
                pass_all(range.stmts.as_slice(), values);
            }
        }
    }
}

/// How many frames may follow a frame at `fp`, which is one of at most `n`: none where the next isn't above it.
fn left_of(n: u32, fp: u64, next: u64) -> u32
    requires { 0 < n }
    ensures { result ≡ (if nat_lt fp next then n - 1 else 0) }
{
    if next > fp { n - 1 } else { 0 }
}

/// The calls of at most `n` frames act, the first at `fp`, from the last to the first.
fn enter_calls(mem: &Mem, opens: &[Open], fp: u64, n: u32, values: &mut Values)
    requires small { AllByRecursion IsSmall opens.now }
    requires few { n ≤ 64 }
    requires left { values.old.acts + 32 * n ≤ 2112 }
    ensures values { values.new.values ≡ values_after (of_calls opens.now (calls n mem.now fp)) [] values.old.values }
    ensures acts { values.new.acts ≤ values.old.acts + 32 * n }
{
    if n == 0 {
        return;
    }
    if let Some(frame) = frame_at(mem, fp) {
        let at = call_before(frame.return_address);
        if is_text(mem, at) {
            enter_calls(mem, opens, frame.next, left_of(n, fp, frame.next), values);
            enter_call(opens, at, values);
        }
    }
}

/// The addresses of a walk act: the calls of its frames from the last to the first, then the caller, and then the pc.
pub fn enter(mem: &Mem, opens: &[Open], start: WalkStart, values: &mut Values)
    requires small { AllByRecursion IsSmall opens.now }
    requires left { values.old.acts + 32 * 66 ≤ 2112 }
    ensures values { values.new.values ≡ values_after (entry_statements opens.now (Some (walk_of mem.now start))) [] values.old.values }
    ensures acts { values.new.acts ≤ values.old.acts + 32 * 66 }
{
    enter_calls(mem, opens, start.fp, MOST_FRAMES, values);
    let caller = caller_of(frame_at(mem, start.fp), start.ra);
    enter_caller(opens, start.pc, caller, values);
    enter_pc(opens, start.pc, values);
}
