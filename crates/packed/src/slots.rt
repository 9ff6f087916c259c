// Transitions that differ only in the argument at one place. A search finds them between the least and the greatest
// that there can be.
ghost use Rattle.std.specs.Prelude.{false, true, ◌≡◌, ◌*◌, ◌+◌, ◌-◌, ◌<◌, ◌^◌, ◌≤◌, ℕ};
ghost use Rattle.format.specs.Format.{byte_values, max_arity, transition_bytes};
ghost use Rattle.packed.specs.Packed.{Searchable, before, meta_at, packed_at};
ghost use Rattle.packed.specs.Slots.{InSlot, NextInSlot};

use crate::searching::bound;
use crate::{args_at, meta_at};
use fields::{arg_of, out_of};
use format::TRANSITION_BYTES;

// A transition's two numbers with 0 for the argument at a place, and its output.
#[derive(Clone, Copy)]
pub struct Slot {
    pub meta: u64,
    pub args: u64,
    pub place: usize,
    pub out: usize,
}

// The argument q at place k as a summand of packed arguments.
pub fn at_place(q: usize, k: usize) -> u64
    requires q_lt_byte_values { q < byte_values }
    requires k_lt_max_arity { k < max_arity }
    ensures { result ≡ q * 2 ^ (8 * (7 - k)) }
{
    (q as u64) << (8 * (7 - k))
}

// Whether a transition with these numbers comes after every one in the slot.
fn is_past(z: Slot, meta: u64, args: u64) -> bool
    requires { z.place < max_arity }
    ensures { result ≡ true → (q : ℕ) → q < byte_values →
        before z.meta (z.args + q * 2 ^ (8 * (7 - z.place))) meta args ≡ true }
{
    if meta != z.meta {
        return z.meta < meta;
    }
    if args < z.args {
        return false;
    }
    args - z.args > at_place(255, z.place)
}

// Whether transition i, which has these numbers, is in the slot.
fn is_in_slot(transitions: &[u8], count: usize, z: Slot, i: usize, meta: u64, args: u64) -> bool
    requires searchable { Searchable transitions.now count }
    requires place_lt_max_arity { z.place < max_arity }
    requires i_lt_count { i < count }
    requires meta_value { meta ≡ meta_at transitions.now (transition_bytes * i) }
    requires args_value { args ≡ packed_at transitions.now (transition_bytes * i) }
    ensures in_slot { result ≡ true → InSlot transitions.now z i }
    ensures fact { result ≡ false → InSlot transitions.now z i → ⊥ }
{
    if meta != z.meta {
        return false;
    }
    if args < z.args {
        return false;
    }
    let at = TRANSITION_BYTES * i;
    if out_of(transitions, at) != z.out {
        return false;
    }
    let q = arg_of(transitions, at, z.place);
    args - z.args == at_place(q, z.place)
}

// The first transition in the slot from index `from` on.
pub fn next_in_slot(transitions: &[u8], count: usize, z: Slot, from: usize) -> Option<usize>
    requires searchable { Searchable transitions.now count }
    requires place_lt_max_arity { z.place < max_arity }
    ensures { NextInSlot transitions.now count z from result }
{
    for i in from..count {
        let at = TRANSITION_BYTES * i;
        let meta = meta_at(transitions, at);
        let args = args_at(transitions, at);
        if is_past(z, meta, args) {
            return None;
        }
        if is_in_slot(transitions, count, z, i, meta, args) {
            return Some(i);
        }
    }
    None
}

// The first transition in the slot.
pub fn first_in_slot(transitions: &[u8], count: usize, z: Slot) -> Option<usize>
    requires searchable { Searchable transitions.now count }
    requires place_lt_max_arity { z.place < max_arity }
    ensures { NextInSlot transitions.now count z 0 result }
{
    let from = bound(transitions, count, z.meta, z.args);
    next_in_slot(transitions, count, z, from)
}
