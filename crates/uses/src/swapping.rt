// A transition with another state for one of its arguments: what its output is, and whether it is still the same.
ghost use Rattle.std.specs.Prelude.{◌&&◌, cond, not, ◌≡◌, ◌*◌, ◌+◌, ◌-◌, ◌<◌, ◌^◌, ◌≤◌, eqb};
ghost use Rattle.sorted.specs.Steps.{step_at};
ghost use Rattle.format.specs.Format.{max_arity, transition_bytes};
ghost use Rattle.packed.specs.Packed.{meta_at, packed_at};
ghost use Rattle.table.specs.Layout.{arg_of, arity_of};
ghost use Rattle.uses.specs.Settings.{swap_agrees_in, place_agrees_in, FramesWithin};

use crate::covering::is_covered;
use crate::setting::{Frames, Setting, recall_bytes};
use fields::{arg_of, out_of};
use format::TRANSITION_BYTES;
use packed::{at_place, seek};

// Packed arguments with y for x at place k.
fn exchanged(args: u64, k: usize, x: u8, y: u8) -> u64
    requires k_lt_max_arity { k < max_arity }
    requires k_bound { x * 2 ^ (8 * (7 - k)) ≤ args }
    requires k_bound_2 { args - x * 2 ^ (8 * (7 - k)) + y * 2 ^ (8 * (7 - k)) < 2 ^ 64 }
    ensures { result ≡ args - x * 2 ^ (8 * (7 - k)) + y * 2 ^ (8 * (7 - k)) }
{
    args - at_place(usize::from(x), k) + at_place(usize::from(y), k)
}

// The output of the transition that is transition i with y for x as argument k; 0 if there is none. `meta` and `args`
// are the two numbers of transition i.
fn swapped_out(
    setting: &Setting<'_>,
    meta: u64,
    args: u64,
    i: usize,
    k: usize,
    x: u8,
    y: u8,
) -> usize
    requires i_lt_count { i < setting.now.count }
    requires k_bound { k < arity_of setting.now.transitions.now (transition_bytes * i) }
    requires meta_value { meta ≡ meta_at setting.now.transitions.now (transition_bytes * i) }
    requires args_value { args ≡ packed_at setting.now.transitions.now (transition_bytes * i) }
    requires x_value { x ≡ arg_of setting.now.transitions.now (transition_bytes * i) k }
    ensures { result ≡ step_at setting.now.transitions.now setting.now.count (transition_bytes * i) k y }
{
    if y == 0 {
        return 0;
    }
    recall_bytes(setting.transitions);
    let sought = exchanged(args, k, x, y);
    let Some(found) = seek(setting.transitions, setting.count, meta, sought) else {
        return 0;
    };
    out_of(setting.transitions, TRANSITION_BYTES * found)
}

// Whether transition i with y for its argument k has the same output, or the slot is covered.
fn swap_agrees(
    setting: &Setting<'_>,
    frames: Frames,
    meta: u64,
    args: u64,
    i: usize,
    k: usize,
    x: u8,
    y: u8,
) -> bool
    requires framed { FramesWithin setting.now.subtrees.now frames }
    requires i_lt_count { i < setting.now.count }
    requires k_bound { k < arity_of setting.now.transitions.now (transition_bytes * i) }
    requires meta_value { meta ≡ meta_at setting.now.transitions.now (transition_bytes * i) }
    requires args_value { args ≡ packed_at setting.now.transitions.now (transition_bytes * i) }
    requires x_value { x ≡ arg_of setting.now.transitions.now (transition_bytes * i) k }
    ensures { result ≡ swap_agrees_in setting.now frames (transition_bytes * i) k y }
{
    let out = swapped_out(setting, meta, args, i, k, x, y);
    let at = TRANSITION_BYTES * i;
    if out == out_of(setting.transitions, at) {
        return true;
    }
    is_covered(
        setting.transitions,
        at,
        k,
        setting.subtrees,
        setting.weights,
        frames,
    )
}

// Whether an argument is neither of two states.
fn is_neither(arg: usize, p: u8, q: u8) -> bool
    ensures { result ≡ (not (eqb arg p) && not (eqb arg q)) }
{
    (arg != usize::from(p)) & (arg != usize::from(q))
}

// `first` if an argument is p, else `second`.
fn either(arg: usize, p: u8, first: u8, second: u8) -> u8
    ensures { result ≡ cond (eqb arg p) first second }
{
    if arg == usize::from(p) {
        return first;
    }
    second
}

// Whether argument k of transition i is neither p nor q, or agrees with the other one in its place. Both cases share
// one call of `swap_agrees`, so that it is inlined.
pub fn place_agrees(
    setting: &Setting<'_>,
    frames: Frames,
    p: u8,
    q: u8,
    meta: u64,
    args: u64,
    i: usize,
    k: usize,
) -> bool
    requires framed { FramesWithin setting.now.subtrees.now frames }
    requires i_lt_count { i < setting.now.count }
    requires k_bound { k < arity_of setting.now.transitions.now (transition_bytes * i) }
    requires meta_value { meta ≡ meta_at setting.now.transitions.now (transition_bytes * i) }
    requires args_value { args ≡ packed_at setting.now.transitions.now (transition_bytes * i) }
    ensures { result ≡ place_agrees_in setting.now frames (transition_bytes * i) p q k }
{
    let arg = arg_of(setting.transitions, TRANSITION_BYTES * i, k);
    if is_neither(arg, p, q) {
        return true;
    }
    let x = either(arg, p, p, q);
    let y = either(arg, p, q, p);
    swap_agrees(setting, frames, meta, args, i, k, x, y)
}
