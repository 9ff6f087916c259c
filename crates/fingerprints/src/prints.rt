// The fingerprint of each state, from its class and its uses.
ghost use Rattle.std.specs.Prelude.{◌≡◌, ◌*◌, ◌<◌, ◌≤◌, length};
ghost use Rattle.fields.specs.Fields.{HoldsTransitionsOver};
ghost use Rattle.fields.specs.View.{Viewed, viewed};
ghost use Rattle.table.specs.Layout.{nth_transition, transitions_in};
ghost use Rattle.fingerprints.specs.Fingerprints.{ClassPrints, Fingerprinted, Gained, Prints};
ghost use Rattle.fingerprints.specs.Fingerprints.{gain, gains, only};

use crate::values::{salt, scaled, value, xor_args};
use fields::{arg_of, arity_of, label_of, out_of};
use format::{BYTE_VALUES, TRANSITION_BYTES};

// State q gains v.
fn add(prints: &mut [usize; BYTE_VALUES], q: usize, v: usize)
    requires prints { Prints prints.old }
    requires q_bound { q ≤ 255 }
    ensures { Gained (only q v) prints.old prints.new }
{
    prints[q] = prints[q].wrapping_add(v);
}

// The uses in transition i, x for its output. The exclusive or over all arguments takes one out again.
fn add_uses(
    transitions: &[u8],
    count: usize,
    n: usize,
    i: usize,
    x: usize,
    prints: &mut [usize; BYTE_VALUES],
)
    requires holds_transitions_over { HoldsTransitionsOver transitions.now count n }
    requires n_bound { n ≤ 255 }
    requires i_lt_count { i < count }
    requires prints { Prints prints.old }
    ensures { Gained (gain (nth_transition transitions.now i) x) prints.old prints.new }
{
    let arity = arity_of(transitions, TRANSITION_BYTES * i);
    let s = salt(usize::from(label_of(transitions, TRANSITION_BYTES * i)), x);
    let all = xor_args(transitions, TRANSITION_BYTES * i, s);
    for k in 0..arity {
        let q = arg_of(transitions, TRANSITION_BYTES * i, k);
        let others = all ^ scaled(q, k);
        add(prints, q, value(others));
    }
}

// The uses in all transitions. What stands for an output is its number, spread.
fn add_all_uses(transitions: &[u8], count: usize, n: usize, prints: &mut [usize; BYTE_VALUES])
    requires holds_transitions_over { HoldsTransitionsOver transitions.now count n }
    requires n_bound { n ≤ 255 }
    requires prints { Prints prints.old }
    ensures { Gained (gains (transitions_in transitions.now count)) prints.old prints.new }
{
    for i in 0..count {
        let out = out_of(transitions, TRANSITION_BYTES * i);
        add_uses(transitions, count, n, i, out * 50159747054999923, prints);
    }
}

// What fingerprints start from: the class of each state as a number.
pub fn class_prints(classes: &[u8], n: usize) -> [usize; BYTE_VALUES]
    requires n_in_bounds { n < length classes.now }
    requires n_bound { n ≤ 255 }
    ensures { ClassPrints classes.now n result }
{
    let mut prints = [0usize; BYTE_VALUES];
    for q in 1..n + 1 {
        prints[q] = usize::from(classes[q] == 1);
    }
    prints
}

// The fingerprints of the states 0 to n.
pub fn state_prints(
    classes: &[u8],
    transitions: &[u8],
    count: usize,
    n: usize,
) -> [usize; BYTE_VALUES]
    requires { Viewed classes.now transitions.now n count }
    ensures { Fingerprinted (viewed classes.now transitions.now n count) result }
{
    let mut prints = class_prints(classes, n);
    add_all_uses(transitions, count, n, &mut prints);
    prints
}
