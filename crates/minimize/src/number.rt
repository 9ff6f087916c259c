// States numbered by the rule: of all transitions whose arguments have numbers and whose output has none, the first
// by the order of the new numbers gives its output the next number. The number 0 stands for no number.
ghost use Rattle.std.specs.Prelude.{◌≡◌, List, map, ◌<◌, ◌≤◌, ℕ, length};
ghost use Rattle.std.specs.Option.{ForSome};
ghost use Rattle.automata.specs.Order.{lex, precedes};
ghost use Rattle.automata.specs.Renumber.{best, renumber_by};
ghost use Rattle.fields.specs.Fields.{Readable, HoldsTransitions, first_args};
ghost use Rattle.format.specs.Format.{byte_values, max_arity};
ghost use Rattle.table.specs.Layout.{transition_at, transitions_in};
ghost use Rattle.minimize.specs.Renaming.{name_in};
ghost use Rattle.minimize.specs.Numbering.{NumberingHeld, NumbersOf, Outputs};
ghost use Rattle.minimize.specs.Numbering.{Unnumbered, improves, picked, ready_by};

use fields::{arg_of, arity_of, label_of, out_of};
use format::{BYTE_VALUES, TRANSITION_BYTES};
use validity::args_marked;

// Whether a transition's arguments have numbers and its output has none.
fn ready(transitions: &[u8], at: usize, numbers: &[u8; BYTE_VALUES]) -> bool
    requires { Readable transitions.now at }
    ensures { result ≡ ready_by numbers.now (transition_at transitions.now at) }
{
    let out = out_of(transitions, at);
    if numbers[out] != 0 {
        return false;
    }
    args_marked(transitions, at, numbers)
}

// Whether the numbers of the first n arguments of one transition come before those of another.
fn args_precede(
    transitions: &[u8],
    a: usize,
    b: usize,
    n: usize,
    numbers: &[u8; BYTE_VALUES],
) -> bool
    requires readable { Readable transitions.now a }
    requires readable_2 { Readable transitions.now b }
    requires n_le_max_arity { n ≤ max_arity }
    ensures { result ≡ lex (map (name_in numbers.now) (first_args transitions.now a n))
        (map (name_in numbers.now) (first_args transitions.now b n)) }
{
    for k in 0..n {
        let p = arg_of(transitions, a, k);
        let q = arg_of(transitions, b, k);
        let x = numbers[p];
        let y = numbers[q];
        if x != y {
            return x < y;
        }
    }
    false
}

// Whether one transition comes before another if states are compared by their numbers.
fn precedes_by(transitions: &[u8], a: usize, b: usize, numbers: &[u8; BYTE_VALUES]) -> bool
    requires readable { Readable transitions.now a }
    requires readable_2 { Readable transitions.now b }
    ensures { result ≡ precedes (renumber_by (name_in numbers.now) (transition_at transitions.now a))
        (renumber_by (name_in numbers.now) (transition_at transitions.now b)) }
{
    let n = arity_of(transitions, a);
    let m = arity_of(transitions, b);
    let first = label_of(transitions, a);
    let second = label_of(transitions, b);
    if n != m {
        return n < m;
    }
    if first != second {
        return first < second;
    }
    args_precede(transitions, a, b, n, numbers)
}

// Whether transition i is ready and comes before the first ready one so far, if there is one.
fn improves_on(
    transitions: &[u8],
    count: usize,
    best: Option<usize>,
    i: usize,
    numbers: &[u8; BYTE_VALUES],
) -> bool
    requires holds_transitions { HoldsTransitions transitions.now count }
    requires best_lt_count { ForSome best (λ b. b < count) }
    requires i_lt_count { i < count }
    ensures { (o : List ℕ) → NumbersOf numbers.now o →
        result ≡ improves o transitions.now best i }
{
    if !ready(transitions, TRANSITION_BYTES * i, numbers) {
        return false;
    }
    let Some(first) = best else {
        return true;
    };
    precedes_by(
        transitions,
        TRANSITION_BYTES * i,
        TRANSITION_BYTES * first,
        numbers,
    )
}

// The first ready transition.
fn first_ready(transitions: &[u8], count: usize, numbers: &[u8; BYTE_VALUES]) -> Option<usize>
    requires { HoldsTransitions transitions.now count }
    ensures upper_bound { ForSome result (λ i. i < count) }
    ensures by_index { (o : List ℕ) → NumbersOf numbers.now o →
        picked transitions.now result ≡ best o (transitions_in transitions.now count) }
{
    let mut best = None;
    for i in 0..count {
        if improves_on(transitions, count, best, i, numbers) {
            best = Some(i);
        }
    }
    best
}

// Numbers the states. `order` gets them in the order of their numbers, `numbers` the number of each. Returns how many
// there are.
pub fn number(
    transitions: &[u8],
    count: usize,
    order: &mut [u8; BYTE_VALUES],
    numbers: &mut [u8; BYTE_VALUES],
) -> usize
    requires holds_transitions { HoldsTransitions transitions.now count }
    requires outputs { Outputs transitions.now count }
    requires order_len { length order.old ≡ byte_values }
    requires numbers_len { length numbers.old ≡ byte_values }
    requires unnumbered { Unnumbered numbers.old }
    ensures { NumberingHeld (transitions_in transitions.now count) order.new numbers.new result }
{
    let mut k = 0;
    while let Some(first) = first_ready(transitions, count, numbers) {
        let q = out_of(transitions, TRANSITION_BYTES * first);
        order[k] = q as u8;
        k += 1;
        numbers[q] = k as u8;
    }
    k
}
