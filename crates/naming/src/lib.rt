// Names of the distinct subtrees of a tree after that tree is put into the set or taken out. Two trees have the same
// name if and only if they are equivalent for the new set. A name is 0 for a tree that is no subtree of the new set,
// q if the subtree joins the other trees of open state q, or n + j, the own name of subtree j, counted from 1.
#![tactic(auto)]

mod classes; // the class of each subtree after the change
mod models; // subtrees that a subtree can stand for
mod parents; // parents of subtrees, and what their names imply
mod seeking; // the state that a subtree can stand for
mod sought; // a subtree for which a state is sought
mod slots; // slots that hold every state that a subtree is like
mod states; // states that a subtree is compared with

ghost use Rattle.std.specs.Prelude.{Bool, List, ◌≡◌, ◌+◌, ◌<◌, ◌≤◌, ℕ, length};
ghost use Rattle.automata.specs.Automaton.{Automaton};
ghost use Rattle.format.specs.Format.{max_nodes};
ghost use Rattle.trees.specs.Tree.{Tree};
ghost use Rattle.automata.specs.Change.{subtree_number};
ghost use Rattle.automata.specs.Searched.{Searched};
ghost use Rattle.naming.specs.Choice.{Bounded, Chosen, name_in};
ghost use Rattle.naming.specs.Parents.{Marked, Shared};
ghost use Rattle.pairs.specs.Counts.{Open};
ghost use Rattle.naming.specs.Settings.{KnownIn, SpansIn};
ghost use Rattle.alike.specs.Settings.{NamesKnown};
ghost use Rattle.format.specs.Format.{table_bytes};

pub use classes::classify;
use format::{BYTE_VALUES, MAX_NODES};
use models::find_subtree;
use parents::{Parents, anchored, note_parents};
use seeking::find_state;
use sought::Sought;
use uses::Setting;

// The name of subtree j, from the names of the subtrees with greater numbers.
fn name_subtree(
    table: &[u8],
    setting: &Setting<'_>,
    marks: &[u8; BYTE_VALUES],
    names: &[u8; MAX_NODES],
    shared: &[u8; MAX_NODES],
    parents: &Parents,
    j: usize,
) -> u8
    requires table_len { length table.now ≡ table_bytes }
    requires shared { Shared setting.now.n setting.now.subtrees.now.count j names.now shared.now }
    requires spans_of { SpansIn setting.now.subtrees.now parents.now }
    requires le_j { 1 ≤ j }
    requires j_le_m { j ≤ setting.now.subtrees.now.count }
    ensures upper_bound { result ≤ setting.now.n + setting.now.subtrees.now.count }
    ensures chosen { (A : Automaton) (t : Tree) (ts : List Tree) (S : (Tree → Bool)) (N : (Tree → ℕ)) →
        KnownIn A t ts S table.now setting.now → Open A t marks.now →
        NamesKnown A t ts setting.now.subtrees.now j names.now N →
        Chosen A t S ts setting.now.n setting.now.subtrees.now.count N j result }
{
    let from = usize::from(parents.froms[j - 1]);
    let to = usize::from(parents.tos[j - 1]);
    let sought = Sought {
        table: table,
        setting: setting,
        marks: marks,
        names: names,
        j: j,
        from: from,
        to: to,
    };
    if anchored(&sought, shared) {
        return (setting.n + j) as u8;
    }
    if let Some(q) = find_state(&sought) {
        return q as u8;
    }
    if let Some(v) = find_subtree(setting, names, parents, j) {
        return (setting.n + v) as u8;
    }
    (setting.n + j) as u8
}

// Marks subtree i if subtree j has the own name of i and is not i itself.
fn mark_shared(setting: &Setting<'_>, shared: &mut [u8; MAX_NODES], j: usize, name: u8)
    requires j_le_m { j ≤ setting.now.subtrees.now.count }
    requires name_bound { name ≤ setting.now.n + setting.now.subtrees.now.count }
    requires shared_len { length shared.old ≡ max_nodes }
    ensures shared_len_2 { length shared.new ≡ max_nodes }
    ensures marked { Marked setting.now.n j name shared.old shared.new }
{
    let n = setting.n;
    let own = usize::from(name);
    if own <= n {
        return;
    }
    if own == n + j {
        return;
    }
    shared[own - n - 1] = 1;
}

// Fills in the names of the m subtrees, from the last to the first.
pub fn name_all(
    table: &[u8],
    setting: &Setting<'_>,
    marks: &[u8; BYTE_VALUES],
    names: &mut [u8; MAX_NODES],
)
    requires { length table.now ≡ table_bytes }
    ensures bounded { Bounded setting.now.n setting.now.subtrees.now.count names.new }
    ensures searched { (A : Automaton) (t : Tree) (ts : List Tree) (S : (Tree → Bool)) →
        KnownIn A t ts S table.now setting.now → Open A t marks.now →
        Searched A t S (subtree_number ts) (name_in ts names.new) }
{
    let parents = note_parents(setting);
    *names = [0u8; MAX_NODES];
    let mut shared = [0u8; MAX_NODES];
    for j in (1..setting.subtrees.count + 1).rev() {
        let name = name_subtree(table, setting, marks, names, &shared, &parents, j);
        mark_shared(setting, &mut shared, j, name);
        names[j - 1] = name;
    }
}
