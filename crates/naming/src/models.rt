// Subtrees with greater numbers and with their own names that a subtree can stand for.
ghost use Rattle.std.specs.Prelude.{Bool, IfSome, List, ◌≡◌, ◌+◌, ◌-◌, ◌<◌, ◌≤◌, ℕ};
ghost use Rattle.automata.specs.Automaton.{Automaton};
ghost use Rattle.trees.specs.Tree.{Tree};
ghost use Rattle.naming.specs.Choice.{SubtreeSought, SubtreeTried};
ghost use Rattle.naming.specs.Settings.{ClassedIn, SpansIn};
ghost use Rattle.alike.specs.Settings.{NamesKnown};
ghost use Rattle.uses.specs.Settings.{HoldsIn};

use crate::parents::Parents;
use alike::like_subtree;
use format::MAX_NODES;
use uses::Setting;

// Whether subtree v has its own name and subtree j is like it. The span that is looked at has the parents of both.
fn fits_subtree(
    setting: &Setting<'_>,
    names: &[u8; MAX_NODES],
    parents: &Parents,
    j: usize,
    v: usize,
) -> bool
    requires spans_of { SpansIn setting.now.subtrees.now parents.now }
    requires le_j { 1 ≤ j }
    requires j_lt_v { j < v }
    requires v_le_m { v ≤ setting.now.subtrees.now.count }
    ensures { (A : Automaton) (t : Tree) (ts : List Tree) (S : (Tree → Bool)) (N : (Tree → ℕ)) →
        HoldsIn A t ts setting.now → ClassedIn S ts setting.now →
        NamesKnown A t ts setting.now.subtrees.now j names.now N → SubtreeTried A t S ts setting.now.n N j v result }
{
    if usize::from(names[v - 1]) != setting.n + v {
        return false;
    }
    let first = j as u8;
    let second = v as u8;
    let from = usize::from(parents.froms[j - 1].min(parents.froms[v - 1]));
    let to = usize::from(parents.tos[j - 1].max(parents.tos[v - 1]));
    like_subtree(setting, names, first, second, from, to)
}

// The first subtree after j that has its own name and that j is like.
pub fn find_subtree(
    setting: &Setting<'_>,
    names: &[u8; MAX_NODES],
    parents: &Parents,
    j: usize,
) -> Option<usize>
    requires spans_of { SpansIn setting.now.subtrees.now parents.now }
    requires le_j { 1 ≤ j }
    requires j_le_m { j ≤ setting.now.subtrees.now.count }
    ensures bounds { IfSome result (λ v. (j < v) × (v ≤ setting.now.subtrees.now.count)) }
    ensures subtree_sought { (A : Automaton) (t : Tree) (ts : List Tree) (S : (Tree → Bool)) (N : (Tree → ℕ)) →
        HoldsIn A t ts setting.now → ClassedIn S ts setting.now →
        NamesKnown A t ts setting.now.subtrees.now j names.now N →
        SubtreeSought A t S ts setting.now.n setting.now.subtrees.now.count N j result }
{
    for v in j + 1..setting.subtrees.count + 1 {
        if fits_subtree(setting, names, parents, j, v) {
            return Some(v);
        }
    }
    None
}
