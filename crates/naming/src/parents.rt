// The first and the last parent of each subtree, and what the names of its parents imply. A child of a parent whose
// own name is unshared gets its own name. If a parent's name is some subtree's own name, the child can stand for no
// state and not for 0.
ghost use Rattle.std.specs.Prelude.{◌≡◌, ◌*◌, ◌+◌, ◌-◌, ◌<◌, ◌≤◌, length};
ghost use Rattle.format.specs.Format.{max_arity, max_nodes};
ghost use Rattle.lists.specs.Positions.{up_from};
ghost use Rattle.lists.specs.Tests.{any};
ghost use Rattle.naming.specs.Parents.{ChildNoted, is_child};
ghost use Rattle.naming.specs.Settings.{NotedIn, SpansIn, anchors_in, raises_in};
ghost use Rattle.naming.specs.Search.{anchors_for, raises_for};

use crate::sought::Sought;
use format::{MAX_ARITY, MAX_NODES};
use uses::Setting;

// The parents of subtree j have indices from entry j - 1 of `froms` on and below that of `tos`; both are 0 if it has
// none.
#[derive(Drop)]
pub struct Parents {
    pub froms: [u8; MAX_NODES],
    pub tos: [u8; MAX_NODES],
}

// Notes the subtree at index i as the last parent of subtree j so far.
fn note_child(parents: &mut Parents, i: usize, j: usize)
    requires i_lt_max_nodes { i < max_nodes }
    requires le_j { 1 ≤ j }
    requires j_le_max_nodes { j ≤ max_nodes }
    requires froms_len { length parents.old.froms ≡ max_nodes }
    requires tos_len { length parents.old.tos ≡ max_nodes }
    ensures { ChildNoted i j parents.old.froms parents.old.tos parents.new.froms parents.new.tos }
{
    let first = parents.tos[j - 1] == 0;
    parents.tos[j - 1] = (i + 1) as u8;
    if !first {
        return;
    }
    parents.froms[j - 1] = i as u8;
}

// The same for each child of the subtree at index i.
fn note_children(setting: &Setting<'_>, parents: &mut Parents, i: usize)
    requires i_lt_m { i < setting.now.subtrees.now.count }
    requires parents_noted { NotedIn setting.now.subtrees.now i (max_arity * i) parents.old }
    ensures { NotedIn setting.now.subtrees.now (i + 1) (max_arity * (i + 1)) parents.new }
{
    let arity = usize::from(setting.subtrees.arities[i]);
    for k in 0..arity {
        let j = usize::from(setting.subtrees.children[MAX_ARITY * i + k]);
        note_child(parents, i, j);
    }
}

// For each subtree, the index of its first parent and the index of its last parent plus 1.
pub fn note_parents(setting: &Setting<'_>) -> Parents
    ensures { SpansIn setting.now.subtrees.now result }
{
    let mut parents = Parents {
        froms: [0u8; MAX_NODES],
        tos: [0u8; MAX_NODES],
    };
    for i in 0..setting.subtrees.count {
        note_children(setting, &mut parents, i);
    }
    parents
}

// Whether subtree j is a child of subtree i.
fn is_child(setting: &Setting<'_>, i: usize, j: usize) -> bool
    requires le_i { 1 ≤ i }
    requires i_le_m { i ≤ setting.now.subtrees.now.count }
    ensures { result ≡ is_child setting.now.subtrees.now.arities setting.now.subtrees.now.children i j }
{
    let arity = usize::from(setting.subtrees.arities[i - 1]);
    for k in 0..arity {
        if usize::from(setting.subtrees.children[MAX_ARITY * (i - 1) + k]) == j {
            return true;
        }
    }
    false
}

// Whether subtree i is a parent of subtree j, has its own name and no other subtree has that name.
fn anchors_child(
    setting: &Setting<'_>,
    names: &[u8; MAX_NODES],
    shared: &[u8; MAX_NODES],
    i: usize,
    j: usize,
) -> bool
    requires le_i { 1 ≤ i }
    requires i_le_m { i ≤ setting.now.subtrees.now.count }
    ensures { result ≡ anchors_in setting.now names.now shared.now j i }
{
    if usize::from(names[i - 1]) != setting.n + i {
        return false;
    }
    if shared[i - 1] != 0 {
        return false;
    }
    is_child(setting, i, j)
}

// Whether some parent of the subtree has its own name and shares it with no other subtree. `shared` marks the subtrees
// whose own names others have too.
pub fn anchored(sought: &Sought<'_, '_>, shared: &[u8; MAX_NODES]) -> bool
    ensures { result ≡ any (anchors_for sought.now shared.now)
        (up_from (sought.now.j + 1) (sought.now.setting.now.subtrees.now.count - sought.now.j)) }
{
    for i in sought.from..sought.to {
        if anchors_child(sought.setting, sought.names, shared, i + 1, sought.j) {
            return true;
        }
    }
    false
}

// Whether subtree i is a parent of subtree j and its name is some subtree's own name.
fn raises_child(setting: &Setting<'_>, names: &[u8; MAX_NODES], i: usize, j: usize) -> bool
    requires le_i { 1 ≤ i }
    requires i_le_m { i ≤ setting.now.subtrees.now.count }
    ensures { result ≡ raises_in setting.now names.now j i }
{
    if usize::from(names[i - 1]) <= setting.n {
        return false;
    }
    is_child(setting, i, j)
}

// Whether the name of some parent of the subtree is some subtree's own name.
pub fn raised(sought: &Sought<'_, '_>) -> bool
    ensures { result ≡ any (raises_for sought.now)
        (up_from (sought.now.j + 1) (sought.now.setting.now.subtrees.now.count - sought.now.j)) }
{
    for i in sought.from..sought.to {
        if raises_child(sought.setting, sought.names, i + 1, sought.j) {
            return true;
        }
    }
    false
}
