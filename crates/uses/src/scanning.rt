// The uses of two states, one after another. A use agrees if the transition with the other state in its place has the
// same output, or if the slot is covered.
ghost use Rattle.std.specs.Prelude.{◌&&◌, not, ◌≡◌, ◌*◌, ◌+◌, ◌<◌, ◌≤◌, eqb, length};
ghost use Rattle.format.specs.Format.{max_arity, transition_bytes};
ghost use Rattle.lists.specs.Positions.{up_from};
ghost use Rattle.lists.specs.Tests.{every};
ghost use Rattle.uses.specs.Uses.{Hinted, neither_at};
ghost use Rattle.uses.specs.Settings.{transition_agrees_in, transitions_agree_in, FramesWithin, arrays_in};

use crate::setting::{Frames, Setting};
use crate::spans::entry;
use crate::swapping::place_agrees;
use fields::arity_of;
use format::{ARGS_AT, MAX_ARITY, TRANSITION_BYTES};
use packed::{args_at, meta_at};

// Whether a byte is neither of two.
fn is_neither(x: u8, p: u8, q: u8) -> bool
    ensures { result ≡ (not (eqb x p) && not (eqb x q)) }
{
    (x != p) & (x != q)
}

// Whether none of the eight places for arguments of the transition that starts at a byte holds p or q. No early exit,
// so the loop vectorises.
fn has_neither(transitions: &[u8], at: usize, p: u8, q: u8) -> bool
    requires { at + transition_bytes ≤ length transitions.now }
    ensures { result ≡ every (neither_at transitions.now at p q) (up_from 0 max_arity) }
{
    let mut neither = true;
    for k in 0..MAX_ARITY {
        neither = neither & is_neither(transitions[at + ARGS_AT + k], p, q);
    }
    neither
}

// Whether exchanging p and q in any argument of transition i keeps the output, or the slot is covered.
fn transition_agrees(setting: &Setting<'_>, frames: Frames, p: u8, q: u8, i: usize) -> bool
    requires framed { FramesWithin setting.now.subtrees.now frames }
    requires i_lt_count { i < setting.now.count }
    ensures { result ≡ transition_agrees_in setting.now frames p q i }
{
    let at = TRANSITION_BYTES * i;
    let meta = meta_at(setting.transitions, at);
    let args = args_at(setting.transitions, at);
    let arity = arity_of(setting.transitions, at);
    for k in 0..arity {
        if !place_agrees(setting, frames, p, q, meta, args, i, k) {
            return false;
        }
    }
    true
}

// The same with a test first whether transition i has p or q at all. A small function of its own, because most
// transitions of a scan end here.
fn unused_or_agrees(setting: &Setting<'_>, frames: Frames, p: u8, q: u8, i: usize) -> bool
    requires framed { FramesWithin setting.now.subtrees.now frames }
    requires i_lt_count { i < setting.now.count }
    ensures { result ≡ transition_agrees_in setting.now frames p q i }
{
    if has_neither(setting.transitions, TRANSITION_BYTES * i, p, q) {
        return true;
    }
    transition_agrees(setting, frames, p, q, i)
}

// Whether every transition agrees. Only those from the first use of p or q to the last are looked at.
pub fn transitions_agree(setting: &Setting<'_>, frames: Frames, p: u8, q: u8) -> bool
    requires framed { FramesWithin setting.now.subtrees.now frames }
    ensures { result ≡ transitions_agree_in setting.now frames p q }
{
    let from = entry(setting.lows, p).min(entry(setting.lows, q));
    let to = entry(setting.lasts, p).max(entry(setting.lasts, q));
    for i in from..to {
        if !unused_or_agrees(setting, frames, p, q, i) {
            return false;
        }
    }
    true
}

// Whether the last transition that uses state x agrees; true if there is none.
pub fn hint_agrees(setting: &Setting<'_>, frames: Frames, p: u8, q: u8, x: u8) -> bool
    requires framed { FramesWithin setting.now.subtrees.now frames }
    ensures { Hinted (arrays_in setting.now frames) setting.now.transitions.now setting.now.count p q result }
{
    let number = entry(setting.lasts, x);
    if number == 0 {
        return true;
    }
    transition_agrees(setting, frames, p, q, number - 1)
}
