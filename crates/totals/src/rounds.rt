// A round: the number of each state from its transitions and the numbers before. `transitions` has `count` transitions
// over the states 1 to n.
ghost use Rattle.std.specs.Prelude.{List, ◌≡◌, ◌<◌, ℕ};
ghost use Rattle.automata.specs.Totals.{product_over};
ghost use Rattle.fields.specs.Fields.{HoldsTransitions, HoldsTransitionsOver, Readable};
ghost use Rattle.fields.specs.View.{viewed};
ghost use Rattle.format.specs.Format.{byte_values};
ghost use Rattle.table.specs.Layout.{out_of, transition_at, transitions_in};
ghost use Rattle.totals.specs.Limited.{total_of};
ghost use Rattle.totals.specs.Numbers.{Added, NumbersOf, Sums, number_in};

use crate::limited::times;
use crate::numbers::{Numbers, add};
use fields::{arg_of, arity_of, out_of};
use format::TRANSITION_BYTES;

// The product of the numbers of the arguments of the transition that starts at a byte.
pub fn product(transitions: &[u8], at: usize, numbers: &Numbers) -> Option<u64>
    requires { Readable transitions.now at }
    ensures { result ≡ total_of (product_over (number_in numbers.now)
        (transition_at transitions.now at).args) }
{
    let arity = arity_of(transitions, at);
    let mut number = Some(1);
    for k in 0..arity {
        let q = arg_of(transitions, at, k);
        number = times(number, numbers[q]);
    }
    number
}

// Adds the product of the transition that starts at a byte to the sum of its output.
fn add_product(transitions: &[u8], at: usize, numbers: &Numbers, sums: &mut Numbers)
    requires { Readable transitions.now at }
    ensures { Added (out_of transitions.now at) (product_over (number_in numbers.now)
        (transition_at transitions.now at).args) sums.old sums.new }
{
    let more = product(transitions, at, numbers);
    add(sums, out_of(transitions, at), more);
}

// The numbers are written to a lent array: one that is returned takes more stack.
pub fn round(transitions: &[u8], count: usize, numbers: &Numbers, sums: &mut Numbers)
    requires { HoldsTransitions transitions.now count }
    ensures { Sums (number_in numbers.now) (transitions_in transitions.now count) sums.new }
{
    sums.fill(Some(0));
    for i in 0..count {
        add_product(transitions, TRANSITION_BYTES * i, numbers, sums);
    }
}

// The numbers after a round for each state, from none on: no tree of a state that has finitely many is deeper. `next`
// is for the numbers of a round.
pub fn rounds(transitions: &[u8], count: usize, n: usize, numbers: &mut Numbers, next: &mut Numbers)
    requires holds_transitions_over { HoldsTransitionsOver transitions.now count n }
    requires n_lt_byte_values { n < byte_values }
    ensures { (cl : List ℕ) → NumbersOf (viewed cl transitions.now n count) numbers.new }
{
    numbers.fill(Some(0));
    for depth in 0..n {
        round(transitions, count, numbers, next);
        *numbers = *next;
    }
}
