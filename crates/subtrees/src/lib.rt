// The distinct subtrees of a listed tree, each with its state. A pass goes through the nodes from the last to the
// first. The numbers of a node's children are then on top of a stack, and the node's own number takes their place.
#![tactic(auto)]

ghost use Rattle.std.specs.Prelude.{◌≡◌, List, ◌*◌, ◌+◌, ◌<◌, ◌≤◌, length, take};
ghost use Rattle.automata.specs.Automaton.{Automaton, run};
ghost use Rattle.format.specs.Format.{max_arity, max_label, max_nodes};
ghost use Rattle.lists.specs.Positions.{byte_from, up_from};
ghost use Rattle.lists.specs.Tests.{every};
ghost use Rattle.running.specs.Running.{HoldsStates};
ghost use Rattle.trees.specs.Listing.{listing_refusal, read_tree};
ghost use Rattle.trees.specs.Tree.{Tree, node};
ghost use Rattle.subtrees.specs.Steps.{Children, ChildrenStored, Entered, Filled, First, NumberGiven, Sized};
ghost use Rattle.subtrees.specs.Steps.{same_child, same_node};
ghost use Rattle.subtrees.specs.Store.{Held, Lists, Stored, arrays, bottom_up, trees_numbered};

use format::{MAX_ARITY, MAX_NODES, NODE_BYTES};
use listing::{children_at, label_at};

pub const CHILD_NUMBERS: usize = MAX_NODES * MAX_ARITY;

// The distinct subtrees of a tree by number, children first: the label, the number of children and the state of subtree
// j are at index j - 1, its child k at 8 (j - 1) + k, with 0 beyond the number of children.
#[derive(Drop)]
pub struct Subtrees {
    pub count: usize,
    pub labels: [u16; MAX_NODES],
    pub arities: [u8; MAX_NODES],
    pub children: [u8; CHILD_NUMBERS],
    pub states: [u8; MAX_NODES],
}

// The numbers on top of a stack that grows downwards.
fn popped(stack: &[u8; MAX_NODES], top: usize, arity: usize) -> [u8; MAX_ARITY]
    requires arity_bound { top + arity ≤ max_nodes }
    requires arity_le_max_arity { arity ≤ max_arity }
    ensures { Filled (byte_from stack.now top) arity result }
{
    let mut numbers = [0u8; MAX_ARITY];
    numbers[..arity].copy_from_slice(&stack[top..top + arity]);
    numbers
}

// Whether the first `arity` children of the subtree at index j have these numbers.
fn same_children(
    children: &[u8; CHILD_NUMBERS],
    j: usize,
    arity: usize,
    numbers: [u8; MAX_ARITY],
) -> bool
    requires j_lt_max_nodes { j < max_nodes }
    requires arity_le_max_arity { arity ≤ max_arity }
    ensures { result ≡ every (same_child children.now j numbers) (up_from 0 arity) }
{
    for k in 0..arity {
        if children[MAX_ARITY * j + k] != numbers[k] {
            return false;
        }
    }
    true
}

// Whether the subtree at index j has this label and these children.
fn same_node(subtrees: &Subtrees, j: usize, label: u16, arity: u8, numbers: [u8; MAX_ARITY]) -> bool
    requires j_lt_max_nodes { j < max_nodes }
    requires arity_le_max_arity { arity ≤ max_arity }
    ensures { result ≡ same_node subtrees.now.labels subtrees.now.arities subtrees.now.children label arity
        numbers j }
{
    if subtrees.labels[j] != label {
        return false;
    }
    if subtrees.arities[j] != arity {
        return false;
    }
    same_children(&subtrees.children, j, usize::from(arity), numbers)
}

// The index of the subtree with this label and these children.
pub fn search(subtrees: &Subtrees, label: u16, arity: u8, numbers: [u8; MAX_ARITY]) -> Option<usize>
    requires found_le_max_nodes { subtrees.now.count ≤ max_nodes }
    requires arity_le_max_arity { arity ≤ max_arity }
    ensures { First (same_node subtrees.now.labels subtrees.now.arities subtrees.now.children label arity
        numbers) subtrees.now.count result }
{
    for j in 0..subtrees.count {
        if same_node(subtrees, j, label, arity, numbers) {
            return Some(j);
        }
    }
    None
}

fn store_children(children: &mut [u8; CHILD_NUMBERS], j: usize, numbers: [u8; MAX_ARITY])
    requires children_len { length children.old ≡ max_nodes * max_arity }
    requires j_lt_max_nodes { j < max_nodes }
    ensures { ChildrenStored children.old j numbers children.new }
{
    let at = MAX_ARITY * j;
    children[at..at + MAX_ARITY].copy_from_slice(&numbers);
}

// The number of the subtree with this label and these children. If it was not found before, it is stored with its
// state q.
fn enter(subtrees: &mut Subtrees, label: u16, arity: u8, numbers: [u8; MAX_ARITY], q: u8) -> u8
    requires sized { Sized subtrees.old.labels subtrees.old.arities subtrees.old.children subtrees.old.states }
    requires found_lt_max_nodes { subtrees.old.count < max_nodes }
    requires label_le_max_label { label ≤ max_label }
    requires children { Children numbers arity subtrees.old.count }
    ensures sized_2 { Sized subtrees.new.labels subtrees.new.arities subtrees.new.children subtrees.new.states }
    ensures number_given { NumberGiven subtrees.old.count subtrees.new.count result }
    ensures entered { (A : Automaton) (ts : List Tree) → q ≡ run A (node label (trees_numbered ts (take arity numbers))) →
        Stored A ts subtrees.old.count subtrees.old.labels subtrees.old.arities subtrees.old.children subtrees.old.states →
        Entered A ts (node label (trees_numbered ts (take arity numbers))) subtrees.new.count result
        subtrees.new.labels subtrees.new.arities subtrees.new.children subtrees.new.states }
{
    if let Some(j) = search(subtrees, label, arity, numbers) {
        return (j + 1) as u8;
    }
    let found = subtrees.count;
    subtrees.labels[found] = label;
    subtrees.arities[found] = arity;
    store_children(&mut subtrees.children, found, numbers);
    subtrees.states[found] = q;
    subtrees.count = found + 1;
    (found + 1) as u8
}

// Collects the distinct subtrees of the listed tree and their states; `reached` has the states of the tree's nodes.
// Their count is also the number of the tree itself, because children are numbered first.
pub fn collect(tree: &[u8], reached: &[u8; MAX_NODES], subtrees: &mut Subtrees)
    requires tree_value { listing_refusal tree.now ≡ 0 }
    requires held { Held (read_tree tree.now) reached.now }
    requires sized { Sized subtrees.old.labels subtrees.old.arities subtrees.old.children subtrees.old.states }
    ensures { (A : Automaton) → HoldsStates A (read_tree tree.now) reached.now →
        Lists A (read_tree tree.now) (bottom_up (read_tree tree.now)) subtrees.new }
{
    let mut stack = [0u8; MAX_NODES];
    let mut top = MAX_NODES;
    subtrees.count = 0;
    for i in (0..tree.len() / NODE_BYTES).rev() {
        let label = label_at(tree, i);
        let arity = children_at(tree, i);
        let width = usize::from(arity);
        let numbers = popped(&stack, top, width);
        let number = enter(subtrees, label, arity, numbers, reached[i]);
        top = top + width - 1;
        stack[top] = number;
    }
}
