// Condition 7: every field of a table is in its range, and every byte that must be 0 is. The places beyond a
// transition's arguments are checked as one number.
ghost use Rattle.std.specs.Prelude.{◌≡◌, ◌*◌, ◌+◌, ◌-◌, ◌≤◌, max, length};
ghost use Rattle.automata.specs.Valid.{in_range};
ghost use Rattle.format.specs.Format.{max_arity, max_states, table_bytes, transition_bytes};
ghost use Rattle.lists.specs.Positions.{up_from};
ghost use Rattle.lists.specs.Tests.{every};
ghost use Rattle.table.specs.Layout.{class_fits, layout_fits, nth_fits, state_count, transition_fits, zero_at};
ghost use Rattle.packed.specs.Places.{arg_empty, arg_in_range, at_most};

use crate::args_at;
use fields::{arg_of, arity_of, label_of, out_of, transition_count};
use format::{COUNT_AT, HEAD_BYTES, MAX_ARITY, MAX_STATES, MAX_TRANSITIONS, TRANSITION_BYTES};

// Whether the bytes from `from` on and below `end` are at most a bound. No early exit, so the loop vectorises. On
// small tables nearly all bytes are checked here.
fn at_most(transitions: &[u8], from: usize, end: usize, bound: u8) -> bool
    requires { end ≤ length transitions.now }
    ensures { result ≡ every (at_most transitions.now bound) (up_from from (end - from)) }
{
    let mut top = 0u8;
    for j in from..end {
        top = top.max(transitions[j]);
    }
    top <= bound
}

// Whether the classes of the states are 0 or 1, and 0 beyond the number of states.
fn classes_fit(table: &[u8], states: usize) -> bool
    requires table_len { length table.now ≡ table_bytes }
    requires states_value { states ≡ state_count table.now }
    requires states_le_max_states { states ≤ max_states }
    ensures { result ≡ every (class_fits table.now) (up_from 1 max_states) }
{
    if !at_most(table, 1, states + 1, 1) {
        return false;
    }
    at_most(table, states + 1, COUNT_AT, 0)
}

// Whether q is one of the states 1 to `states`.
fn in_range(states: usize, q: usize) -> bool
    ensures { result ≡ in_range states q }
{
    1 <= q && q <= states
}

// Whether the arguments of the transition that starts at a byte are states.
fn args_in_range(transitions: &[u8], states: usize, at: usize, arity: usize) -> bool
    requires transition_bytes_in_bounds { at + transition_bytes ≤ length transitions.now }
    requires arity_le_max_arity { arity ≤ max_arity }
    ensures { result ≡ every (arg_in_range transitions.now states at) (up_from 0 arity) }
{
    for k in 0..arity {
        let q = arg_of(transitions, at, k);
        if !in_range(states, q) {
            return false;
        }
    }
    true
}

// Whether the places beyond the arguments are 0. Shifting the arguments out leaves these places.
fn rest_empty(transitions: &[u8], at: usize, arity: usize) -> bool
    requires transition_bytes_in_bounds { at + transition_bytes ≤ length transitions.now }
    requires arity_le_max_arity { arity ≤ max_arity }
    ensures { result ≡ every (arg_empty transitions.now at) (up_from arity (max_arity - arity)) }
{
    if arity >= MAX_ARITY {
        return true;
    }
    let args = args_at(transitions, at);
    args << (8 * arity) == 0
}

// Whether the fields of the transition that starts at a byte are in their ranges.
fn transition_fits(transitions: &[u8], states: usize, at: usize) -> bool
    requires { at + transition_bytes ≤ length transitions.now }
    ensures { result ≡ transition_fits transitions.now states at }
{
    if label_of(transitions, at) < 1 {
        return false;
    }
    let arity = arity_of(transitions, at);
    if arity > MAX_ARITY {
        return false;
    }
    if !args_in_range(transitions, states, at, arity) {
        return false;
    }
    if !rest_empty(transitions, at, arity) {
        return false;
    }
    let out = out_of(transitions, at);
    in_range(states, out)
}

fn transitions_fit(transitions: &[u8], states: usize, count: usize) -> bool
    requires { transition_bytes * count ≤ length transitions.now }
    ensures { result ≡ every (nth_fits transitions.now states) (up_from 0 count) }
{
    for i in 0..count {
        if !transition_fits(transitions, states, TRANSITION_BYTES * i) {
            return false;
        }
    }
    true
}

// Whether the bytes from `start` on are all 0.
fn zeros_from(transitions: &[u8], start: usize) -> bool
    ensures { result ≡ every (zero_at transitions.now) (up_from start (length transitions.now - start)) }
{
    at_most(transitions, start, transitions.len(), 0)
}

// Condition 7: every field of a table is in its range, and every byte that must be 0 is.
pub fn layout_fits(table: &[u8]) -> bool
    requires { length table.now ≡ table_bytes }
    ensures { result ≡ layout_fits table.now }
{
    let states = usize::from(table[0]);
    if states > MAX_STATES {
        return false;
    }
    if !classes_fit(table, states) {
        return false;
    }
    let count = transition_count(table);
    if count > MAX_TRANSITIONS {
        return false;
    }
    if !transitions_fit(&table[HEAD_BYTES..], states, count) {
        return false;
    }
    zeros_from(&table[HEAD_BYTES..], TRANSITION_BYTES * count)
}
