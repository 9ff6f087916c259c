// The local criterion: whether a subtree can stand for a state or for another subtree after a change of the set. The
// names of subtrees with greater numbers are known.
#![tactic(auto)]

mod classed; // the class and the names in the frames
mod frames; // the names in the frames over a subtree
mod nodes; // the name of a node over subtrees
mod slots; // a frame over a subtree as a slot

ghost use Rattle.std.specs.Prelude.{Bool, List, ◌≡◌, ◌-◌, ◌<◌, ◌≤◌, ℕ, eqb, get_or};
ghost use Rattle.automata.specs.Alike.{like_state, like_subtree};
ghost use Rattle.automata.specs.Automaton.{Automaton, accepting};
ghost use Rattle.subtrees.specs.Store.{tree_numbered};
ghost use Rattle.trees.specs.Tree.{Tree};
ghost use Rattle.uses.specs.Settings.{HoldsIn, ParentsFrom};
ghost use Rattle.alike.specs.Settings.{NamesKnown};

use classed::{named_like_state, named_like_subtree};
use format::MAX_NODES;
pub use slots::frame_slot_of;
use uses::{Setting, state_uses_agree, subtree_uses_agree};

// Whether subtree j can stand for q, a state or 0, whose class is `class`. The parents of j have indices
// from `from` on and below `to`.
pub fn like_state(
    setting: &Setting<'_>,
    names: &[u8; MAX_NODES],
    j: u8,
    q: u8,
    class: u8,
    from: usize,
    to: usize,
) -> bool
    requires le_j { 1 ≤ j }
    requires j_le_m { j ≤ setting.now.subtrees.now.count }
    requires parents_within { ParentsFrom setting.now.subtrees.now j from to }
    ensures { (A : Automaton) (t : Tree) (ts : List Tree) (S : Tree → Bool) (N : Tree → ℕ) →
        HoldsIn A t ts setting.now →
        NamesKnown A t ts setting.now.subtrees.now j names.now N →
        eqb (get_or setting.now.classes.now (j - 1) 0) 1 ≡ S (tree_numbered ts j) → eqb class 1 ≡ accepting A q →
        result ≡ like_state A t S N (tree_numbered ts j) q }
{
    if !named_like_state(setting, names, j, q, class, from, to) {
        return false;
    }
    state_uses_agree(setting, from, to, j, q)
}

// Whether subtree j can stand for subtree v, which has a greater number. The parents of both lie between `from` and
// `to`.
pub fn like_subtree(
    setting: &Setting<'_>,
    names: &[u8; MAX_NODES],
    j: u8,
    v: u8,
    from: usize,
    to: usize,
) -> bool
    requires le_j { 1 ≤ j }
    requires j_lt_v { j < v }
    requires v_le_m { v ≤ setting.now.subtrees.now.count }
    requires parents_within { ParentsFrom setting.now.subtrees.now j from to }
    requires parents_within_2 { ParentsFrom setting.now.subtrees.now v from to }
    ensures { (A : Automaton) (t : Tree) (ts : List Tree) (S : Tree → Bool) (N : Tree → ℕ) →
        HoldsIn A t ts setting.now →
        NamesKnown A t ts setting.now.subtrees.now j names.now N →
        eqb (get_or setting.now.classes.now (j - 1) 0) 1 ≡ S (tree_numbered ts j) →
        eqb (get_or setting.now.classes.now (v - 1) 0) 1 ≡ S (tree_numbered ts v) →
        result ≡ like_subtree A t S N (tree_numbered ts j) (tree_numbered ts v) }
{
    if !named_like_subtree(setting, names, j, v, from, to) {
        return false;
    }
    subtree_uses_agree(setting, from, to, j, v)
}
