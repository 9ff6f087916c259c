// The state of a node from the states of its children, and its name from the numbers of its children.
ghost use Rattle.std.specs.Prelude.{◌≡◌, List, ◌<◌, ◌≤◌, ℕ, eqb, get_or, take};
ghost use Rattle.automata.specs.Automaton.{Automaton, step};
ghost use Rattle.format.specs.Format.{max_arity, max_nodes};
ghost use Rattle.lists.specs.Tests.{any};
ghost use Rattle.packed.specs.Seeking.{Places};
ghost use Rattle.subtrees.specs.Steps.{Children, Filled};
ghost use Rattle.subtrees.specs.Store.{child_at, trees_numbered};
ghost use Rattle.trees.specs.Tree.{Tree, node};
ghost use Rattle.alike.specs.Agreeing.{state_of};
ghost use Rattle.alike.specs.Settings.{HasTransitions, HoldsSubtrees, NamesKnown};

use format::{MAX_ARITY, MAX_NODES};
use packed::output;
use subtrees::{CHILD_NUMBERS, search};
use uses::Setting;

// The child numbers of the subtree at index i, and zeros after them.
pub fn children_of(children: &[u8; CHILD_NUMBERS], i: usize, arity: usize) -> [u8; MAX_ARITY]
    requires i_lt_max_nodes { i < max_nodes }
    requires arity_le_max_arity { arity ≤ max_arity }
    ensures { Filled (child_at children.now i) arity result }
{
    let mut numbers = [0u8; MAX_ARITY];
    let at = MAX_ARITY * i;
    numbers[..arity].copy_from_slice(&children[at..at + arity]);
    numbers
}

// The states of the subtrees with the first `arity` numbers, and zeros after them.
pub fn states_of(
    states: &[u8; MAX_NODES],
    numbers: [u8; MAX_ARITY],
    arity: usize,
) -> [u8; MAX_ARITY]
    requires { Children numbers arity max_nodes }
    ensures { Filled (state_of states.now numbers) arity result }
{
    let mut qs = [0u8; MAX_ARITY];
    for k in 0..arity {
        let number = usize::from(numbers[k]);
        qs[k] = states[number - 1];
    }
    qs
}

// Whether one of the first `arity` bytes is 0.
fn some_zero(qs: [u8; MAX_ARITY], arity: usize) -> bool
    requires { arity ≤ max_arity }
    ensures { result ≡ any (eqb 0) (take arity qs) }
{
    for k in 0..arity {
        if qs[k] == 0 {
            return true;
        }
    }
    false
}

// The state of a node over children with these states; 0 if one of them has none.
pub fn step_node(setting: &Setting<'_>, label: u16, arity: usize, qs: [u8; MAX_ARITY]) -> u8
    requires places { Places arity qs }
    ensures { (A : Automaton) → HasTransitions A setting.now →
        result ≡ step A label (take arity qs) }
{
    if some_zero(qs, arity) {
        return 0;
    }
    output(setting.transitions, setting.count, label, arity, qs)
}

// The name of a node over the subtrees with these numbers. One of them must be at least j, and the names above j must
// be known. A node that is no subtree has its state as its name.
pub fn node_name(
    setting: &Setting<'_>,
    names: &[u8; MAX_NODES],
    label: u16,
    arity: u8,
    numbers: [u8; MAX_ARITY],
) -> u8
    requires children { Children numbers arity setting.now.subtrees.now.count }
    ensures { (A : Automaton) (t : Tree) (ts : List Tree) (N : Tree → ℕ) (j : ℕ) (k : ℕ) →
        HasTransitions A setting.now →
        HoldsSubtrees A t ts setting.now.subtrees.now →
        NamesKnown A t ts setting.now.subtrees.now j names.now N → k < arity → j ≤ get_or numbers k 0 →
        result ≡ N (node label (trees_numbered ts (take arity numbers))) }
{
    if let Some(i) = search(setting.subtrees, label, arity, numbers) {
        return names[i];
    }
    let width = usize::from(arity);
    let qs = states_of(&setting.subtrees.states, numbers, width);
    step_node(setting, label, width, qs)
}
