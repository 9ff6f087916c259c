// The criterion without its part about uses: the class first, then the names in the frames.
ghost use Rattle.std.specs.Prelude.{Bool, List, ◌≡◌, ◌-◌, ◌<◌, ◌≤◌, ℕ, eqb, get_or};
ghost use Rattle.std.specs.Bool.{beq};
ghost use Rattle.automata.specs.Automaton.{Automaton, accepting};
ghost use Rattle.subtrees.specs.Store.{tree_numbered};
ghost use Rattle.trees.specs.Tree.{Tree};
ghost use Rattle.alike.specs.Agreeing.{named_like_state, named_like_subtree};
ghost use Rattle.uses.specs.Settings.{ParentsFrom};
ghost use Rattle.alike.specs.Settings.{HasTransitions, HoldsSubtrees, NamesKnown};

use crate::frames::{Candidate, frames_agree};
use format::MAX_NODES;
use uses::Setting;

// Whether two bytes are the same class; only 1 is accepting.
fn same_class(a: u8, b: u8) -> bool
    ensures { result ≡ beq (eqb a 1) (eqb b 1) }
{
    if a == 1 {
        return b == 1;
    }
    b != 1
}

// Whether subtree j has class `class`, which is that of state q or of 0, and in each of its frames the name that q
// has there. `from` and `to` bound the indices of its parents.
pub fn named_like_state(
    setting: &Setting<'_>,
    names: &[u8; MAX_NODES],
    j: u8,
    q: u8,
    class: u8,
    from: usize,
    to: usize,
) -> bool
    requires le_j { 1 ≤ j }
    requires j_le_m { j ≤ setting.now.subtrees.now.count }
    requires parents_within { ParentsFrom setting.now.subtrees.now j from to }
    ensures { (A : Automaton) (t : Tree) (ts : List Tree) (S : Tree → Bool) (N : Tree → ℕ) →
        HasTransitions A setting.now →
        HoldsSubtrees A t ts setting.now.subtrees.now →
        NamesKnown A t ts setting.now.subtrees.now j names.now N →
        eqb (get_or setting.now.classes.now (j - 1) 0) 1 ≡ S (tree_numbered ts j) → eqb class 1 ≡ accepting A q →
        result ≡ named_like_state A t S N (tree_numbered ts j) q }
{
    let number = usize::from(j);
    if !same_class(setting.classes[number - 1], class) {
        return false;
    }
    frames_agree(setting, names, number, Candidate::State(q), from, to)
}

// Whether subtrees j and v have the same class and, in each frame of either, the same name. `from` and `to` bound the
// indices of the parents of both.
pub fn named_like_subtree(
    setting: &Setting<'_>,
    names: &[u8; MAX_NODES],
    j: u8,
    v: u8,
    from: usize,
    to: usize,
) -> bool
    requires le_j { 1 ≤ j }
    requires j_lt_v { j < v }
    requires v_le_m { v ≤ setting.now.subtrees.now.count }
    requires parents_within { ParentsFrom setting.now.subtrees.now j from to }
    requires parents_within_2 { ParentsFrom setting.now.subtrees.now v from to }
    ensures { (A : Automaton) (t : Tree) (ts : List Tree) (S : Tree → Bool) (N : Tree → ℕ) →
        HasTransitions A setting.now →
        HoldsSubtrees A t ts setting.now.subtrees.now →
        NamesKnown A t ts setting.now.subtrees.now j names.now N →
        eqb (get_or setting.now.classes.now (j - 1) 0) 1 ≡ S (tree_numbered ts j) →
        eqb (get_or setting.now.classes.now (v - 1) 0) 1 ≡ S (tree_numbered ts v) →
        result ≡ named_like_subtree t S N (tree_numbered ts j) (tree_numbered ts v) }
{
    let first = usize::from(j);
    let second = usize::from(v);
    if !same_class(setting.classes[first - 1], setting.classes[second - 1]) {
        return false;
    }
    if !frames_agree(setting, names, first, Candidate::Subtree(v), from, to) {
        return false;
    }
    frames_agree(setting, names, second, Candidate::Subtree(j), from, to)
}
