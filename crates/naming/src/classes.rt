// The class of each subtree after a change. It is the class of its state, except that the class of the tree itself is
// set or cleared.
ghost use Rattle.std.specs.Prelude.{Bool, List, ◌≡◌, ◌<◌, ◌≤◌, ℕ, eqb, length};
ghost use Rattle.automata.specs.Automaton.{Automaton};
ghost use Rattle.format.specs.Format.{byte_values, max_nodes, table_bytes};
ghost use Rattle.trees.specs.Tree.{Tree};
ghost use Rattle.naming.specs.Classes.{Changed, Classed, ClassesIn, Rooted, class_in, subtree_class};
ghost use Rattle.alike.specs.Known.{Holds};

use format::MAX_NODES;

// The byte of a class.
fn own_class(accepting: bool) -> u8
    ensures { eqb result 1 ≡ accepting }
{
    if accepting {
        return 1;
    }
    0
}

// The class of a state; 0 for none.
pub fn class_in(table: &[u8], q: usize) -> u8
    requires table_len { length table.now ≡ table_bytes }
    requires q_lt_byte_values { q < byte_values }
    ensures { eqb result 1 ≡ class_in table.now q }
{
    if q == 0 {
        return 0;
    }
    table[q]
}

// The class of subtree j.
fn class_of(table: &[u8], states: &[u8; MAX_NODES], root: usize, inserting: bool, j: usize) -> u8
    requires table_len { length table.now ≡ table_bytes }
    requires le_j { 1 ≤ j }
    requires j_le_max_nodes { j ≤ max_nodes }
    ensures { eqb result 1 ≡ subtree_class table.now states.now root inserting j }
{
    if j == root {
        return own_class(inserting);
    }
    class_in(table, usize::from(states[j - 1]))
}

// Fills in the classes of the m subtrees. `root` is the number of the tree itself.
pub fn classify(
    table: &[u8],
    m: usize,
    states: &[u8; MAX_NODES],
    root: usize,
    inserting: bool,
    classes: &mut [u8; MAX_NODES],
)
    requires table_len { length table.now ≡ table_bytes }
    requires m_le_max_nodes { m ≤ max_nodes }
    requires classes_len { length classes.old ≡ max_nodes }
    ensures { (A : Automaton) (t : Tree) (ts : List Tree) (S : Tree → Bool) (l : List ℕ) (r' : List ℕ)
        (c : List ℕ) → Holds A t ts m l r' c states.now → ClassesIn A table.now →
        Rooted t ts m root → Changed inserting A t S → Classed S ts m classes.new }
{
    for j in 0..m {
        classes[j] = class_of(table, states, root, inserting, j + 1);
    }
}
