// Subtrees as nodes over own names, as two numbers each: the child count with the label, and the children's own names
// packed.
ghost use Rattle.std.specs.Prelude.{◌≡◌, ◌*◌, ◌+◌, ◌-◌, ◌<◌, ◌^◌, ◌≤◌, ℕ, eqb, get_or, length};
ghost use Rattle.format.specs.Format.{byte_values, max_nodes};
ghost use Rattle.pairs.specs.Counts.{entry};
ghost use Rattle.quotient.specs.Named.{adds, has_own_children, named_in, takes_away};
ghost use Rattle.quotient.specs.Nodes.{EachNode, digit_of, key_of, meta_of};

use crate::named::{NamedSubtrees, Names};
use format::{MAX_ARITY, MAX_NODES};

// The own name of a child, 0 for no child.
fn digit_of(named: &NamedSubtrees<'_>, child: u8) -> usize
    requires { child ≤ max_nodes }
    ensures value { result ≡ digit_of named.now.n child }
    ensures upper_bound { result < byte_values }
{
    if child == 0 {
        return 0;
    }
    named.n + usize::from(child)
}

// The own names of the children of the subtree at index j, packed.
pub fn key_of(named: &NamedSubtrees<'_>, j: usize) -> u64
    requires { j < named.now.subtrees.now.count }
    ensures { result ≡ key_of named.now.n named.now.subtrees.now.children j }
{
    let mut key = 0;
    for k in 0..MAX_ARITY {
        key = 256 * key + digit_of(named, named.subtrees.children[MAX_ARITY * j + k]) as u64;
    }
    key
}

// The child count and the label of the subtree at index j as one number, the child count in the high digits.
pub fn meta_of(named: &NamedSubtrees<'_>, j: usize) -> u64
    requires { j < named.now.subtrees.now.count }
    ensures { result ≡ meta_of named.now.subtrees.now.labels named.now.subtrees.now.arities j }
{
    let arity = usize::from(named.subtrees.arities[j]);
    let label = usize::from(named.subtrees.labels[j]);
    65536 * arity as u64 + label as u64
}

// Fills in a number for each of the first `count` subtrees. The array is lent, because an array that is returned is
// copied.
pub fn number_each<F: Fn(usize) -> u64>(count: usize, numbers: &mut [u64; MAX_NODES], number: F)
    requires count_le_max_nodes { count ≤ max_nodes }
    requires numbers_len { length numbers.old ≡ max_nodes }
    requires callable { (j : ℕ) → j < count → F.pre number j }
    ensures { (f : (ℕ → ℕ)) → ((j : ℕ) → j < count → (x : ℕ) → F.post number j x → x ≡ f j) →
        EachNode f count numbers.new }
{
    for j in 0..count {
        numbers[j] = number(j);
    }
}

// The name of the subtree with these two numbers; `out` if there is none.
pub fn node_name(names: &Names<'_>, meta: u64, key: u64, out: u8) -> u8
    ensures { result ≡ named_in names.now meta key out }
{
    for j in 0..names.named.subtrees.count {
        let same = (names.metas[j] == meta) & (names.keys[j] == key);
        if same {
            return names.named.names[j];
        }
    }
    out
}

// Whether the subtree with a number has its own name.
fn has_own(named: &NamedSubtrees<'_>, child: u8) -> bool
    requires le_child { 1 ≤ child }
    requires child_le_max_nodes { child ≤ max_nodes }
    ensures { result ≡ eqb (entry named.now.names.now (child - 1)) (named.now.n + child) }
{
    let number = usize::from(child);
    usize::from(named.names[number - 1]) == named.n + number
}

// Whether the children of the subtree at index j all have their own names.
fn children_own(named: &NamedSubtrees<'_>, j: usize) -> bool
    requires { j < named.now.subtrees.now.count }
    ensures { result ≡ has_own_children named.now j }
{
    let arity = usize::from(named.subtrees.arities[j]);
    for k in 0..arity {
        if !has_own(named, named.subtrees.children[MAX_ARITY * j + k]) {
            return false;
        }
    }
    true
}

// Whether the subtree at index j runs to no state and has a name, and its children have their own names. It then adds
// a transition.
pub fn is_new(named: &NamedSubtrees<'_>, j: usize) -> bool
    requires { j < named.now.subtrees.now.count }
    ensures { result ≡ adds named.now j }
{
    named.subtrees.states[j] == 0 && named.names[j] != 0 && children_own(named, j)
}

// Whether the subtree at index j runs to a state and has no name, and its children have their own names. It then
// takes a transition away.
pub fn is_gone(named: &NamedSubtrees<'_>, j: usize) -> bool
    requires { j < named.now.subtrees.now.count }
    ensures { result ≡ takes_away named.now j }
{
    named.subtrees.states[j] != 0 && named.names[j] == 0 && children_own(named, j)
}
