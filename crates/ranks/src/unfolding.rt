// The listing of a state's tree of a number. Trees still to come are on a stack, each as its state and its number
// within the state, the next one on top. A tree can have far more nodes than a listing holds, so the walk stops as
// soon as the nodes written and the trees to come are more.
ghost use Rattle.std.specs.Prelude.{◌≡◌, ◌*◌, ◌+◌, ◌<◌, ◌≤◌, ℕ, length, replicate, set};
ghost use Rattle.std.proofs.lemmas.List.Edits.{sets};
ghost use Rattle.automata.specs.Totals.{product_over};
ghost use Rattle.fields.specs.Fields.{HoldsTransitionsOver, Readable};
ghost use Rattle.format.specs.Format.{byte_values, label_bytes, label_written, max_arity, max_label, max_listing};
ghost use Rattle.format.specs.Format.{max_nodes, node_bytes};
ghost use Rattle.table.specs.Layout.{arity_of, transition_at};
ghost use Rattle.totals.specs.Numbers.{number_in};
ghost use Rattle.trees.specs.Tree.{Tree};
ghost use Rattle.ranks.specs.Steps.{ChildrenPut, Grows, Lawful, Listed};

use crate::choosing::choose_transition;
use crate::exact::divided;
use crate::weights::product_of;
use fields::{arg_of, arity_of, label_of};
use format::{LABEL_BYTES, MAX_LISTING, MAX_NODES, NODE_BYTES, TRANSITION_BYTES};
use totals::Numbers;

// Writes node `node` of a listing.
fn put_node(bytes: &mut [u8; MAX_LISTING], node: usize, label: u16, arity: usize)
    requires bytes_len { length bytes.old ≡ max_listing }
    requires node_lt_max_nodes { node < max_nodes }
    requires label_le_max_label { label ≤ max_label }
    requires arity_le_max_arity { arity ≤ max_arity }
    ensures { bytes.new ≡ set (sets bytes.old (node_bytes * node) (label_written label))
        (node_bytes * node + label_bytes) arity }
{
    let [high, low] = label.to_be_bytes();
    bytes[NODE_BYTES * node] = high;
    bytes[NODE_BYTES * node + 1] = low;
    bytes[NODE_BYTES * node + LABEL_BYTES] = arity as u8;
}

// Puts the children that have a number together over the arguments of the transition that starts at a byte on a stack,
// the first at `top`.
fn put_children(
    transitions: &[u8],
    at: usize,
    number: u64,
    numbers: &Numbers,
    states: &mut [u8; MAX_NODES],
    lefts: &mut [u64; MAX_NODES],
    top: usize,
)
    requires readable { Readable transitions.now at }
    requires number_bound { number < product_over (number_in numbers.now) (transition_at transitions.now at).args }
    requires states_len { length states.old ≡ max_nodes }
    requires lefts_len { length lefts.old ≡ max_nodes }
    requires at_bound { top + arity_of transitions.now at ≤ max_nodes }
    ensures { ChildrenPut (number_in numbers.now) transitions.now at number top
        states.old lefts.old states.new lefts.new }
{
    let arity = arity_of(transitions, at);
    let mut left = number;
    for k in 0..arity {
        let weight = product_of(k + 1, arity, numbers, |j| arg_of(transitions, at, j));
        let (mine, others) = divided(left, weight);
        states[top + k] = arg_of(transitions, at, k) as u8;
        lefts[top + k] = mine;
        left = others;
    }
}

// Writes the listing of the tree of state q that has a number within it, if it has at most 48 nodes. Returns whether
// it has. `bytes` is all zeros before that.
pub fn list_tree(
    q: usize,
    number: u64,
    transitions: &[u8],
    count: usize,
    n: usize,
    numbers: &Numbers,
    bytes: &mut [u8; MAX_LISTING],
) -> bool
    requires holds_transitions_over { HoldsTransitionsOver transitions.now count n }
    requires n_lt_byte_values { n < byte_values }
    requires lawful { Lawful (number_in numbers.now) transitions.now count n }
    requires le_q { 1 ≤ q }
    requires q_le_n { q ≤ n }
    requires number_bound { number < number_in numbers.now q }
    requires bytes_value { bytes.old ≡ replicate max_listing 0 }
    ensures bytes_len { length bytes.new ≡ max_listing }
    ensures by_index { (T : ℕ → ℕ → Tree) →
        Grows (number_in numbers.now) transitions.now count n T →
        Listed (T q number) result bytes.new }
{
    let mut states = [0u8; MAX_NODES];
    let mut lefts = [0u64; MAX_NODES];
    let mut top = MAX_NODES - 1;
    states[top] = q as u8;
    lefts[top] = number;
    let mut nodes = 0;
    while top < MAX_NODES {
        let choice = choose_transition(
            transitions,
            count,
            usize::from(states[top]),
            lefts[top],
            numbers,
        );
        let at = TRANSITION_BYTES * choice.place;
        let arity = arity_of(transitions, at);
        if nodes + arity > top {
            return false;
        }
        put_node(bytes, nodes, label_of(transitions, at), arity);
        top = top + 1 - arity;
        put_children(
            transitions,
            at,
            choice.left,
            numbers,
            &mut states,
            &mut lefts,
            top,
        );
        nodes += 1;
    }
    true
}
