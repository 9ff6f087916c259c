// The classes of names after a change. Each name has the class of its state, except that the class of the tree itself
// is set or cleared.
ghost use Rattle.std.specs.Prelude.{◌≡◌, ◌+◌, ◌≤◌, eqb, length};
ghost use Rattle.format.specs.Format.{byte_values, max_nodes, max_states, table_bytes};
ghost use Rattle.quotient.specs.Kept.{state_of};
ghost use Rattle.change.specs.Classes.{Classed, class_of_name};

use format::{BYTE_VALUES, MAX_NODES};

// The state of the name p: p itself, or the state of the subtree whose own name p is.
fn state_of(n: usize, states: &[u8; MAX_NODES], p: usize) -> u8
    requires n_le_max_states { n ≤ max_states }
    requires p_bound { p ≤ n + max_nodes }
    ensures { result ≡ state_of n states.now p }
{
    if p <= n {
        return p as u8;
    }
    states[p - n - 1]
}

// The class of the name p.
fn class_of(
    table: &[u8],
    n: usize,
    states: &[u8; MAX_NODES],
    own: usize,
    inserting: bool,
    p: usize,
) -> u8
    requires table_len { length table.now ≡ table_bytes }
    requires n_le_max_states { n ≤ max_states }
    requires p_bound { p ≤ n + max_nodes }
    ensures { eqb result 1 ≡ class_of_name table.now n states.now own inserting p }
{
    if p == own {
        return own_class(inserting);
    }
    let q = usize::from(state_of(n, states, p));
    if q == 0 {
        return 0;
    }
    table[q]
}

// The byte of a class.
fn own_class(accepting: bool) -> u8
    ensures { eqb result 1 ≡ accepting }
{
    if accepting {
        return 1;
    }
    0
}

// Fills in the classes of the names 1 to n + m, each at the byte of its number. The last is that of the tree itself.
pub fn classify_names(
    table: &[u8],
    n: usize,
    m: usize,
    states: &[u8; MAX_NODES],
    inserting: bool,
    classes: &mut [u8; BYTE_VALUES],
)
    requires table_len { length table.now ≡ table_bytes }
    requires n_le_max_states { n ≤ max_states }
    requires m_le_max_nodes { m ≤ max_nodes }
    requires classes_len { length classes.old ≡ byte_values }
    ensures { Classed (class_of_name table.now n states.now (n + m) inserting) (n + m)
        classes.new }
{
    for p in 1..n + m + 1 {
        classes[p] = class_of(table, n, states, n + m, inserting, p);
    }
}
