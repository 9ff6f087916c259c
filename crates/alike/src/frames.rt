// The frames over a subtree: its parents, each with the place of the subtree among its children. A candidate is a
// state or another subtree. In the subtree's place it must give each parent the name that the parent has.
ghost use Rattle.std.specs.Prelude.{◌≡◌, List, ◌<◌, ◌≤◌, ℕ, get_or};
ghost use Rattle.automata.specs.Automaton.{Automaton};
ghost use Rattle.automata.specs.ContextRun.{step_frame};
ghost use Rattle.lists.specs.Positions.{up_from};
ghost use Rattle.lists.specs.Tests.{every};
ghost use Rattle.subtrees.specs.Store.{tree_numbered};
ghost use Rattle.trees.specs.Context.{fill};
ghost use Rattle.trees.specs.Tree.{Tree};
ghost use Rattle.alike.specs.Agreeing.{name_in};
ghost use Rattle.alike.specs.Known.{FromOn, Numbered};
ghost use Rattle.uses.specs.Settings.{ParentsFrom};
ghost use Rattle.alike.specs.Settings.{HasTransitions, HoldsSubtrees, NamesKnown, frame_in, place_agrees_in, parent_agrees_in};

use crate::nodes::{children_of, node_name, states_of, step_node};
use format::{MAX_ARITY, MAX_NODES};
use uses::Setting;

// What stands in a subtree's place: a state or 0, or the subtree with a number.
#[derive(Clone, Copy)]
pub enum Candidate {
    State(u8),
    Subtree(u8),
}

// The state of the subtree at index i if its child k had state x.
fn frame_step(setting: &Setting<'_>, i: usize, k: usize, x: u8) -> u8
    requires i_lt_m { i < setting.now.subtrees.now.count }
    requires k_bound { k < get_or setting.now.subtrees.now.arities i 0 }
    ensures { (A : Automaton) (t : Tree) (ts : List Tree) →
        HasTransitions A setting.now →
        HoldsSubtrees A t ts setting.now.subtrees.now →
        result ≡ step_frame A (frame_in ts setting.now.subtrees.now i k) x }
{
    let arity = usize::from(setting.subtrees.arities[i]);
    let numbers = children_of(&setting.subtrees.children, i, arity);
    let mut qs = states_of(&setting.subtrees.states, numbers, arity);
    qs[k] = x;
    step_node(setting, setting.subtrees.labels[i], arity, qs)
}

// The name of the subtree at index i if its child k were subtree x.
fn frame_node(setting: &Setting<'_>, names: &[u8; MAX_NODES], i: usize, k: usize, x: u8) -> u8
    requires i_lt_m { i < setting.now.subtrees.now.count }
    requires k_bound { k < get_or setting.now.subtrees.now.arities i 0 }
    requires le_x { 1 ≤ x }
    requires x_le_m { x ≤ setting.now.subtrees.now.count }
    ensures { (A : Automaton) (t : Tree) (ts : List Tree) (N : Tree → ℕ) (j : ℕ) →
        HasTransitions A setting.now →
        HoldsSubtrees A t ts setting.now.subtrees.now →
        NamesKnown A t ts setting.now.subtrees.now j names.now N → j ≤ x →
        result ≡ N (fill (frame_in ts setting.now.subtrees.now i k)
        (tree_numbered ts x)) }
{
    let arity = setting.subtrees.arities[i];
    let mut numbers = children_of(&setting.subtrees.children, i, usize::from(arity));
    numbers[k] = x;
    node_name(setting, names, setting.subtrees.labels[i], arity, numbers)
}

// The name that the subtree at index i would have with the candidate x for its child k.
fn frame_name(
    setting: &Setting<'_>,
    names: &[u8; MAX_NODES],
    i: usize,
    k: usize,
    x: Candidate,
) -> u8
    requires i_lt_m { i < setting.now.subtrees.now.count }
    requires k_bound { k < get_or setting.now.subtrees.now.arities i 0 }
    requires numbered { Numbered setting.now.subtrees.now.count x }
    ensures { (A : Automaton) (t : Tree) (ts : List Tree) (N : Tree → ℕ) (j : ℕ) →
        HasTransitions A setting.now →
        HoldsSubtrees A t ts setting.now.subtrees.now →
        NamesKnown A t ts setting.now.subtrees.now j names.now N → FromOn j x →
        result ≡ name_in A N ts x
        (frame_in ts setting.now.subtrees.now i k) }
{
    match x {
        Candidate::State(q) => frame_step(setting, i, k, q),
        Candidate::Subtree(v) => frame_node(setting, names, i, k, v),
    }
}

// Whether the subtree at index i keeps its name with the candidate for its child k. True if that child is not subtree
// a.
fn place_agrees(
    setting: &Setting<'_>,
    names: &[u8; MAX_NODES],
    i: usize,
    k: usize,
    a: usize,
    x: Candidate,
) -> bool
    requires i_lt_m { i < setting.now.subtrees.now.count }
    requires k_bound { k < get_or setting.now.subtrees.now.arities i 0 }
    requires numbered { Numbered setting.now.subtrees.now.count x }
    ensures { (A : Automaton) (t : Tree) (ts : List Tree) (N : Tree → ℕ) (j : ℕ) →
        HasTransitions A setting.now →
        HoldsSubtrees A t ts setting.now.subtrees.now →
        NamesKnown A t ts setting.now.subtrees.now j names.now N → j ≤ a → FromOn j x →
        result ≡ place_agrees_in A N ts setting.now.subtrees.now a x i k }
{
    if usize::from(setting.subtrees.children[MAX_ARITY * i + k]) != a {
        return true;
    }
    let name = frame_name(setting, names, i, k, x);
    names[i] == name
}

// The same for every child of the subtree at index i.
fn parent_agrees(
    setting: &Setting<'_>,
    names: &[u8; MAX_NODES],
    i: usize,
    a: usize,
    x: Candidate,
) -> bool
    requires i_lt_m { i < setting.now.subtrees.now.count }
    requires numbered { Numbered setting.now.subtrees.now.count x }
    ensures { (A : Automaton) (t : Tree) (ts : List Tree) (N : Tree → ℕ) (j : ℕ) →
        HasTransitions A setting.now →
        HoldsSubtrees A t ts setting.now.subtrees.now →
        NamesKnown A t ts setting.now.subtrees.now j names.now N → j ≤ a → FromOn j x →
        result ≡ parent_agrees_in A N ts setting.now.subtrees.now a x i }
{
    let arity = usize::from(setting.subtrees.arities[i]);
    for k in 0..arity {
        if !place_agrees(setting, names, i, k, a, x) {
            return false;
        }
    }
    true
}

// Whether every parent of subtree a keeps its name with the candidate in a's place. The parents have indices from
// `from` on and below `to`.
pub fn frames_agree(
    setting: &Setting<'_>,
    names: &[u8; MAX_NODES],
    a: usize,
    x: Candidate,
    from: usize,
    to: usize,
) -> bool
    requires parents_within { ParentsFrom setting.now.subtrees.now a from to }
    requires numbered { Numbered setting.now.subtrees.now.count x }
    ensures { (A : Automaton) (t : Tree) (ts : List Tree) (N : Tree → ℕ) (j : ℕ) →
        HasTransitions A setting.now →
        HoldsSubtrees A t ts setting.now.subtrees.now →
        NamesKnown A t ts setting.now.subtrees.now j names.now N → j ≤ a → FromOn j x →
        result ≡ every (parent_agrees_in A N ts setting.now.subtrees.now a x) (up_from 0 setting.now.subtrees.now.count) }
{
    for i in from..to {
        if !parent_agrees(setting, names, i, a, x) {
            return false;
        }
    }
    true
}
