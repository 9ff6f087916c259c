// A listing run over the transitions of a table (01: the state that a tree leads to), with a byte for the state of
// each node. `transitions` is as in crate fields: the part `&table[203..]` of a table, or a scratch.
#![tactic(auto)]

pub mod stops; // where a tree stops

ghost use Rattle.std.specs.Prelude.{false, [], ◌++◌, ◌≡◌, ◌-◌, ◌≤◌, eqb, get_or, length, replicate, take};
ghost use Rattle.std.proofs.lemmas.List.Edits.{sets};
ghost use Rattle.automata.specs.Automaton.{accepts, run, step};
ghost use Rattle.automata.specs.NodeStates.{forest_states, node_states};
ghost use Rattle.fields.specs.Fields.{InTable};
ghost use Rattle.format.specs.Format.{max_arity, max_nodes};
ghost use Rattle.lists.specs.Tests.{any};
ghost use Rattle.table.specs.Layout.{decode};
ghost use Rattle.trees.specs.Listing.{first_trees, listing_refusal, read_tree, read_trees};
ghost use Rattle.trees.specs.Preorder.{preorder, preorders};
ghost use Rattle.trees.specs.Tree.{Tree};
ghost use Rattle.running.specs.Running.{Ahead, HoldsStates, Joins, Rows, RowsKept, Steps};
ghost use Rattle.running.specs.Running.{child_states, over, ran_state, ran_to};

use fields::{find, transition_count};
use format::{HEAD_BYTES, MAX_ARITY, MAX_NODES, NODE_BYTES};
use listing::{children_at, label_at};

// What a tree runs to.
#[derive(Clone, Copy)]
pub enum Ran {
    State(u8),
    Nothing,
}

// What a node runs to, and how many nodes were run for that.
#[derive(Drop)]
struct Run {
    ran: Ran,
    nodes: usize,
}

// A node whose children are run: its number in the listing, its label and the number of its children.
#[derive(Drop)]
struct Parent {
    node: usize,
    label: u16,
    arity: usize,
}

// The byte for what a tree runs to; 0 for no state.
fn state_byte(ran: Ran) -> u8
    ensures { result ≡ ran_state ran }
{
    let Ran::State(q) = ran else {
        return 0;
    };
    q
}

// What a node with this label runs to, if each of its children has a state.
fn run_node(transitions: &[u8], count: usize, label: u16, arity: usize, row: [u8; MAX_ARITY]) -> Ran
    requires steps { Steps transitions.now count }
    requires arity_le_max_arity { arity ≤ max_arity }
    requires row_value { any (eqb 0) (take arity row) ≡ false }
    ensures { result ≡ ran_to (step (over transitions.now count) label (take arity row)) }
{
    let Some(q) = find(transitions, count, label, arity, row) else {
        return Ran::Nothing;
    };
    Ran::State(q)
}

// Runs the tree that s starts with: a listing, or the part of one that starts at any node. Its root is node `node` of
// the listing. The states of the root's children, at most eight, go to row `node`; the state of each of the tree's
// nodes goes to its byte, also if a node before it has none.
#[cycle(run_children_run_others_run_tree)]
fn run_tree(
    s: &[u8],
    transitions: &[u8],
    count: usize,
    rows: &mut [[u8; MAX_ARITY]; MAX_NODES],
    states: &mut [u8; MAX_NODES],
    node: usize,
) -> Run
    requires steps { Steps transitions.now count }
    requires ahead { Ahead s.now 1 node }
    requires rows { Rows rows.old }
    requires states_len { length states.old ≡ max_nodes }
    ensures nodes_value { result.nodes ≡ length (preorder (read_tree s.now)) }
    ensures ran_value { result.ran ≡ ran_to (run (over transitions.now count) (read_tree s.now)) }
    ensures rows_kept { RowsKept node rows.old rows.new }
    ensures states_after { states.new ≡ sets states.old node
        (node_states (over transitions.now count) (read_tree s.now)) }
{
    let root = Parent {
        node: node,
        label: label_at(s, 0),
        arity: usize::from(children_at(s, 0)),
    };
    let rest = &s[NODE_BYTES..];
    let below = run_children(rest, transitions, count, rows, states, root, node + 1, 0);
    let ran = below.ran;
    states[node] = state_byte(ran);
    Run {
        ran: ran,
        nodes: 1 + below.nodes,
    }
}

// Runs the children of a node from place k on, which s starts with, and then the node. The first of them is node
// `node` of the listing. The children before them have states, which stand in the node's row. A child without a state
// leaves the node without one. Returns what the node runs to, and the number of the nodes of these children.
#[cycle(run_children_run_others_run_tree)]
fn run_children(
    s: &[u8],
    transitions: &[u8],
    count: usize,
    rows: &mut [[u8; MAX_ARITY]; MAX_NODES],
    states: &mut [u8; MAX_NODES],
    parent: Parent,
    node: usize,
    k: usize,
) -> Run
    requires steps { Steps transitions.now count }
    requires ahead { Ahead s.now (parent.arity - k) node }
    requires rows { Rows rows.old }
    requires states_len { length states.old ≡ max_nodes }
    requires joins { Joins parent k node (get_or rows.old parent.node []) }
    ensures nodes_value { result.nodes ≡ length (preorders (first_trees (parent.arity - k) (read_trees s.now))) }
    ensures ran_value { result.ran ≡ ran_to (step (over transitions.now count) parent.label
        (take k (get_or rows.old parent.node []) ++
        child_states transitions.now count s.now (parent.arity - k))) }
    ensures rows_kept { RowsKept parent.node rows.old rows.new }
    ensures states_after { states.new ≡ sets states.old node (forest_states (over transitions.now count) (first_trees (parent.arity - k) (read_trees s.now))) }
{
    let row = parent.node;
    if k == parent.arity {
        let ran = run_node(transitions, count, parent.label, parent.arity, rows[row]);
        return Run { ran: ran, nodes: 0 };
    }
    let child = run_tree(s, transitions, count, rows, states, node);
    let nodes = child.nodes;
    let rest = &s[NODE_BYTES * nodes..];
    let next = node + nodes;
    let ran = child.ran;
    let Ran::State(q) = ran else {
        let left = parent.arity - (k + 1);
        let others = run_others(rest, transitions, count, rows, states, next, left);
        return Run {
            ran: Ran::Nothing,
            nodes: nodes + others,
        };
    };
    rows[row][k] = q;
    let others = run_children(rest, transitions, count, rows, states, parent, next, k + 1);
    let reached = others.ran;
    Run {
        ran: reached,
        nodes: nodes + others.nodes,
    }
}

// Runs the children after one that has no state: their nodes have states of their own. There are `left` of them, which
// s starts with, and the first is node `node` of the listing. Returns the number of their nodes.
#[cycle(run_children_run_others_run_tree)]
fn run_others(
    s: &[u8],
    transitions: &[u8],
    count: usize,
    rows: &mut [[u8; MAX_ARITY]; MAX_NODES],
    states: &mut [u8; MAX_NODES],
    node: usize,
    left: usize,
) -> usize
    requires steps { Steps transitions.now count }
    requires ahead { Ahead s.now left node }
    requires rows { Rows rows.old }
    requires states_len { length states.old ≡ max_nodes }
    ensures value { result ≡ length (preorders (first_trees left (read_trees s.now))) }
    ensures rows_kept { RowsKept node rows.old rows.new }
    ensures states_after { states.new ≡ sets states.old node (forest_states (over transitions.now count) (first_trees left (read_trees s.now))) }
{
    if left == 0 {
        return 0;
    }
    let first = run_tree(s, transitions, count, rows, states, node);
    let nodes = first.nodes;
    let rest = &s[NODE_BYTES * nodes..];
    let next = node + nodes;
    let others = run_others(rest, transitions, count, rows, states, next, left - 1);
    nodes + others
}

// The states of the nodes of a listing; zeros after the last node. The states of each node's children are kept in its
// row.
fn run_listing(
    tree: &[u8],
    transitions: &[u8],
    count: usize,
    mut rows: [[u8; MAX_ARITY]; MAX_NODES],
) -> [u8; MAX_NODES]
    requires steps { Steps transitions.now count }
    requires ahead { Ahead tree.now 1 0 }
    requires rows { Rows rows }
    ensures { result ≡ sets (replicate max_nodes 0) 0
        (node_states (over transitions.now count) (read_tree tree.now)) }
{
    let mut states = [0u8; MAX_NODES];
    run_tree(tree, transitions, count, &mut rows, &mut states, 0);
    states
}

// The state that the tree runs to at each node of its listing (01: leads to), 0 if there is none; zeros after the
// last node.
pub fn node_states(tree: &[u8], table: &[u8]) -> [u8; MAX_NODES]
    requires tree_value { listing_refusal tree.now ≡ 0 }
    requires in_table { InTable table.now }
    ensures { HoldsStates (decode table.now) (read_tree tree.now) result }
{
    let count = transition_count(table);
    run_listing(
        tree,
        &table[HEAD_BYTES..],
        count,
        [[0u8; MAX_ARITY]; MAX_NODES],
    )
}

// Whether a table accepts a tree that runs to q (01: approves it).
pub fn accepts_state(table: &[u8], q: u8) -> bool
    requires { InTable table.now }
    ensures { (t : Tree) → q ≡ run (decode table.now) t →
        result ≡ accepts (decode table.now) t }
{
    let at = usize::from(q);
    if at == 0 {
        return false;
    }
    table[at] == 1
}
