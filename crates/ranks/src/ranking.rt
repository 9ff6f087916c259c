// The number of a tree within its state. The nodes are gone through from the last to the first: the states of a node's
// children are on top of a stack, its own state takes their place. A node counts the trees at transitions before its
// own once for each row of trees over the states below its children on the stack, so the first child counts most.
ghost use Rattle.std.specs.Prelude.{◌≡◌, ◌+◌, ◌≤◌, drop, length, take};
ghost use Rattle.automata.specs.Automaton.{Automaton, matches};
ghost use Rattle.automata.specs.Ranks.{rank_in, sum_before};
ghost use Rattle.fields.specs.Fields.{HoldsTransitions, Readable};
ghost use Rattle.format.specs.Format.{max_arity, max_nodes};
ghost use Rattle.running.specs.Running.{HoldsStates};
ghost use Rattle.table.specs.Layout.{transition_at, transitions_in};
ghost use Rattle.totals.specs.Limited.{total_of};
ghost use Rattle.totals.specs.Numbers.{number_in};
ghost use Rattle.trees.specs.Listing.{listing_refusal, read_tree};

use crate::weights::{product_of, trees_into};
use fields::{arg_of, arity_of, label_of};
use format::{MAX_NODES, NODE_BYTES, TRANSITION_BYTES};
use listing::{children_at, label_at};
use totals::{Numbers, plus, times};

// Whether the transition that starts at a byte has this label and the states on top of a stack as its arguments.
fn is_own(
    transitions: &[u8],
    at: usize,
    label: u16,
    stack: &[u8; MAX_NODES],
    top: usize,
    arity: usize,
) -> bool
    requires readable { Readable transitions.now at }
    requires stack_len { length stack.now ≡ max_nodes }
    requires arity_bound { top + arity ≤ max_nodes }
    requires arity_le_max_arity { arity ≤ max_arity }
    ensures { result ≡ matches label (take arity (drop top stack.now))
        (transition_at transitions.now at) }
{
    if label_of(transitions, at) != label {
        return false;
    }
    if arity_of(transitions, at) != arity {
        return false;
    }
    for k in 0..arity {
        if arg_of(transitions, at, k) != usize::from(stack[top + k]) {
            return false;
        }
    }
    true
}

// The number of trees of state q at transitions before the one that has this label and the states on top of a stack as
// its arguments.
fn sum_before(
    transitions: &[u8],
    count: usize,
    label: u16,
    stack: &[u8; MAX_NODES],
    top: usize,
    arity: usize,
    q: usize,
    numbers: &Numbers,
) -> Option<u64>
    requires holds_transitions { HoldsTransitions transitions.now count }
    requires stack_len { length stack.now ≡ max_nodes }
    requires arity_bound { top + arity ≤ max_nodes }
    requires arity_le_max_arity { arity ≤ max_arity }
    ensures { result ≡ total_of (sum_before (number_in numbers.now) q label
        (take arity (drop top stack.now)) (transitions_in transitions.now count)) }
{
    let mut sum = Some(0);
    for i in 0..count {
        let at = TRANSITION_BYTES * i;
        if is_own(transitions, at, label, stack, top, arity) {
            return sum;
        }
        sum = plus(sum, trees_into(transitions, at, q, numbers));
    }
    sum
}

// The number of a tree within its state. `reached` has the states of its nodes.
pub fn rank_within(
    tree: &[u8],
    reached: &[u8; MAX_NODES],
    transitions: &[u8],
    count: usize,
    numbers: &Numbers,
) -> Option<u64>
    requires tree_value { listing_refusal tree.now ≡ 0 }
    requires holds_transitions { HoldsTransitions transitions.now count }
    ensures { (A : Automaton) → A.transitions ≡ transitions_in transitions.now count →
        HoldsStates A (read_tree tree.now) reached.now →
        result ≡ total_of (rank_in A (number_in numbers.now) (read_tree tree.now)) }
{
    let mut number = Some(0);
    let mut stack = [0u8; MAX_NODES];
    let mut top = MAX_NODES;
    for i in (0..tree.len() / NODE_BYTES).rev() {
        let label = label_at(tree, i);
        let arity = usize::from(children_at(tree, i));
        let q = reached[i];
        let before = sum_before(
            transitions,
            count,
            label,
            &stack,
            top,
            arity,
            usize::from(q),
            numbers,
        );
        let weight = product_of(top + arity, MAX_NODES, numbers, |k| usize::from(stack[k]));
        number = plus(times(before, weight), number);
        top = top + arity - 1;
        stack[top] = q;
    }
    number
}
