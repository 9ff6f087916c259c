// The uses of two states walked in step, one argument place after another. If two states are used alike, their uses
// mostly come in pairs, in the same order. Then no use has to be looked up. A walk that stops before its end shows
// nothing.
ghost use Rattle.std.specs.Prelude.{IfSome, true, ◌≡◌, ◌*◌, ◌+◌, ◌-◌, ◌<◌, ◌^◌, ◌≤◌, ℕ, length};
ghost use Rattle.format.specs.Format.{max_arity, transition_bytes};
ghost use Rattle.packed.specs.Packed.{packed_at};
ghost use Rattle.table.specs.Layout.{arity_of};
ghost use Rattle.uses.specs.Walks.{AtUse, NextUse, Paired, Stepped, Walkable};
ghost use Rattle.uses.specs.Settings.{covered_in, transitions_agree_in, WalkedIn, FramesWithin, arrays_in};

use crate::covering::is_covered;
use crate::setting::{Frames, Setting, recall_bytes};
use crate::spans::entry;
use fields::{arity_of, out_of};
use format::{ARGS_AT, TRANSITION_BYTES};
use packed::{args_at, at_place, meta_at};

// The first transition from an index on that has p as argument k; `to` if there is none before it.
fn next_with(transitions: &[u8], k: usize, p: u8, from: usize, to: usize) -> usize
    requires to_in_bounds { transition_bytes * to ≤ length transitions.now }
    requires k_lt_max_arity { k < max_arity }
    requires from_le_to { from ≤ to }
    ensures { NextUse transitions.now k p from to result }
{
    for i in from..to {
        if transitions[TRANSITION_BYTES * i + ARGS_AT + k] == p {
            return i;
        }
    }
    to
}

// The packed arguments of the transition that starts at a byte, without argument k, which is p.
fn args_without(transitions: &[u8], at: usize, k: usize, p: u8) -> u64
    requires transition_bytes_in_bounds { at + transition_bytes ≤ length transitions.now }
    requires k_lt_max_arity { k < max_arity }
    requires k_bound { p * 2 ^ (8 * (7 - k)) ≤ packed_at transitions.now at }
    ensures { result ≡ packed_at transitions.now at - p * 2 ^ (8 * (7 - k)) }
{
    args_at(transitions, at) - at_place(usize::from(p), k)
}

// Whether transitions i and x, which have p and q as argument k, are otherwise the same.
fn pair_agrees(setting: &Setting<'_>, k: usize, p: u8, q: u8, to: usize, i: usize, x: usize) -> bool
    requires walkable { Walkable setting.now.transitions.now setting.now.count setting.now.n k p q to }
    requires at_use { AtUse setting.now.transitions.now k p to i }
    requires at_use_2 { AtUse setting.now.transitions.now k q to x }
    ensures { result ≡ true → Paired setting.now.transitions.now setting.now.count k p q to i x }
{
    if i >= to {
        return false;
    }
    if x >= to {
        return false;
    }
    recall_bytes(setting.transitions);
    let first = TRANSITION_BYTES * i;
    let second = TRANSITION_BYTES * x;
    if meta_at(setting.transitions, first) != meta_at(setting.transitions, second) {
        return false;
    }
    if out_of(setting.transitions, first) != out_of(setting.transitions, second) {
        return false;
    }
    args_without(setting.transitions, first, k, p)
        == args_without(setting.transitions, second, k, q)
}

// Whether the walk is not at its end, and the slot of transition i without argument k is covered.
fn use_covered(setting: &Setting<'_>, frames: Frames, k: usize, to: usize, i: usize) -> bool
    requires framed { FramesWithin setting.now.subtrees.now frames }
    requires to_le_count { to ≤ setting.now.count }
    requires k_bound { i < to → k < arity_of setting.now.transitions.now (transition_bytes * i) }
    ensures i_lt_to { result ≡ true → i < to }
    ensures k_value { result ≡ true → covered_in setting.now frames
        (transition_bytes * i) k ≡ true }
{
    if i >= to {
        return false;
    }
    is_covered(
        setting.transitions,
        TRANSITION_BYTES * i,
        k,
        setting.subtrees,
        setting.weights,
        frames,
    )
}

// One step of the walk: past two uses that are a pair, else past one whose slot is covered. None if it can pass
// neither use.
fn step(
    setting: &Setting<'_>,
    frames: Frames,
    p: u8,
    q: u8,
    k: usize,
    to: usize,
    i: usize,
    x: usize,
) -> Option<(usize, usize)>
    requires framed { FramesWithin setting.now.subtrees.now frames }
    requires walkable { Walkable setting.now.transitions.now setting.now.count setting.now.n k p q to }
    requires at_use { AtUse setting.now.transitions.now k p to i }
    requires at_use_2 { AtUse setting.now.transitions.now k q to x }
    ensures { IfSome result (Stepped (arrays_in setting.now frames)
        setting.now.transitions.now setting.now.count k p q to i x) }
{
    if pair_agrees(setting, k, p, q, to, i, x) {
        return Some((i + 1, x + 1));
    }
    if use_covered(setting, frames, k, to, i) {
        return Some((i + 1, x));
    }
    if use_covered(setting, frames, k, to, x) {
        return Some((i, x + 1));
    }
    None
}

// Whether the walk over the uses of p and q as argument k, from an index on, reaches its end.
fn place_agrees_in_step(
    setting: &Setting<'_>,
    frames: Frames,
    p: u8,
    q: u8,
    k: usize,
    from: usize,
    to: usize,
) -> bool
    requires framed { FramesWithin setting.now.subtrees.now frames }
    requires walkable { Walkable setting.now.transitions.now setting.now.count setting.now.n k p q to }
    requires from_le_to { from ≤ to }
    requires walked { WalkedIn setting.now frames k p q from from }
    ensures { result ≡ true → WalkedIn setting.now frames k p q to to }
{
    let mut i = next_with(setting.transitions, k, p, from, to);
    let mut x = next_with(setting.transitions, k, q, from, to);
    while (i < to) | (x < to) {
        let Some((first, second)) = step(setting, frames, p, q, k, to, i, x) else {
            return false;
        };
        i = next_with(setting.transitions, k, p, first, to);
        x = next_with(setting.transitions, k, q, second, to);
    }
    true
}

// The greatest number of arguments of a transition before an index. It is that of the last, because transitions are
// sorted by their number of arguments first.
fn width(setting: &Setting<'_>, to: usize) -> usize
    requires to_le_count { to ≤ setting.now.count }
    ensures upper_bound { result ≤ max_arity }
    ensures by_index { (i : ℕ) → i < to → arity_of setting.now.transitions.now (transition_bytes * i) ≤ result }
{
    if to == 0 {
        return 0;
    }
    recall_bytes(setting.transitions);
    arity_of(setting.transitions, TRANSITION_BYTES * (to - 1))
}

// Whether the walk reaches its end at each place. Then p and q are used alike; if not, they may still be. False if p
// or q is 0, because 0 stands at each place beyond the arguments.
pub fn walk_agrees(setting: &Setting<'_>, frames: Frames, p: u8, q: u8) -> bool
    requires framed { FramesWithin setting.now.subtrees.now frames }
    ensures { result ≡ true → transitions_agree_in setting.now frames p q ≡ true }
{
    if p == 0 {
        return false;
    }
    if q == 0 {
        return false;
    }
    let to = entry(setting.lasts, p).max(entry(setting.lasts, q));
    let from = entry(setting.lows, p).min(entry(setting.lows, q)).min(to);
    let places = width(setting, to);
    for k in 0..places {
        if !place_agrees_in_step(setting, frames, p, q, k, from, to) {
            return false;
        }
    }
    true
}
