// Numbers that are likely to be right: states from 1 on, each from its transitions and the numbers so far. If every
// output is above its arguments one pass finds them all. Nothing is promised: an exact test follows.
ghost use Rattle.std.specs.Prelude.{IfSome, ◌<◌, ◌≤◌};
ghost use Rattle.fields.specs.Fields.{HoldsTransitions};
ghost use Rattle.format.specs.Format.{byte_values, max_transitions};

use crate::limited::plus;
use crate::numbers::Numbers;
use crate::rounds::product;
use fields::out_of;
use format::{BYTE_VALUES, MAX_TRANSITIONS, TRANSITION_BYTES};

pub const LINKS: usize = BYTE_VALUES + MAX_TRANSITIONS;

// Links the transitions into each state, as numbers from 1; 0 is none. Entry q has the last of them, and entry 256 + i
// the one before transition i.
pub fn link(transitions: &[u8], count: usize, links: &mut [u16; LINKS])
    requires holds_transitions { HoldsTransitions transitions.now count }
    requires count_le_max_transitions { count ≤ max_transitions }
{
    *links = [0u16; LINKS];
    for i in 0..count {
        let out = out_of(transitions, TRANSITION_BYTES * i);
        links[BYTE_VALUES + i] = links[out];
        links[out] = (i + 1) as u16;
    }
}

// The transition that a link leads to, if it is one of the first so many.
fn linked(link: u16, bound: usize) -> Option<usize>
    ensures { IfSome result (λ i. i < bound) }
{
    let i = usize::from(link).checked_sub(1)?;
    if i < bound { Some(i) } else { None }
}

// The number of state q from those of the arguments.
fn settle(transitions: &[u8], count: usize, links: &[u16; LINKS], q: usize, numbers: &mut Numbers)
    requires holds_transitions { HoldsTransitions transitions.now count }
    requires count_le_max_transitions { count ≤ max_transitions }
    requires q_lt_byte_values { q < byte_values }
{
    let mut sum = Some(0);
    let mut next = linked(links[q], count);
    while let Some(i) = next {
        sum = plus(sum, product(transitions, TRANSITION_BYTES * i, numbers));
        next = linked(links[BYTE_VALUES + i], i);
    }
    numbers[q] = sum;
}

pub fn settle_all(
    transitions: &[u8],
    count: usize,
    n: usize,
    links: &[u16; LINKS],
    numbers: &mut Numbers,
)
    requires holds_transitions { HoldsTransitions transitions.now count }
    requires count_le_max_transitions { count ≤ max_transitions }
    requires n_lt_byte_values { n < byte_values }
{
    for q in 1..n + 1 {
        settle(transitions, count, links, q, numbers);
    }
}
