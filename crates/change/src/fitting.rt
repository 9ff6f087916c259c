// Whether a table has room for the changed automaton, by counting; refusal 17.
ghost use Rattle.std.specs.Prelude.{Bool, true, List, ◌≡◌, ◌≤◌, ℕ, is_some};
ghost use Rattle.automata.specs.NamedChange.{changed_automaton};
ghost use Rattle.format.specs.Format.{max_nodes, max_transitions};
ghost use Rattle.table.specs.Layout.{decode};
ghost use Rattle.trees.specs.Tree.{Tree};
ghost use Rattle.change.specs.Given.{Fits, KeptOf, NamedIn, SomeGivenIn, fits_within, small_transitions};
ghost use Rattle.change.specs.Sizes.{is_small};

use crate::arrays::{LARGE, SMALL};
use format::{BYTE_VALUES, HEAD_BYTES};
use quotient::{NamedSubtrees, table_fits};

// Whether the changed automaton has at most as many states as a table can have, and at most `limit` transitions.
// `sizes` has the number of kept names of each state.
fn fits(
    table: &[u8],
    count: usize,
    named: &NamedSubtrees<'_>,
    opens: &[u8; BYTE_VALUES],
    sizes: &[u8; BYTE_VALUES],
    limit: usize,
) -> bool
    requires some_given { SomeGivenIn table.now count named.now }
    requires max_nodes_le_limit { max_nodes ≤ limit }
    requires limit_le_max_transitions { limit ≤ max_transitions }
    ensures { (inserting : Bool) (t : Tree) (firsts nexts : List ℕ) →
        NamedIn inserting t table.now count opens.now named.now →
        KeptOf opens.now firsts nexts sizes.now named.now →
        result ≡ fits_within limit (changed_automaton inserting t (decode table.now)) }
{
    table_fits(&table[HEAD_BYTES..], count, named, opens, sizes, limit)
}

// The same with `SMALL` as the limit. Also false if the old table has more transitions than that, because one of the
// small arrays has an entry for each of them.
fn fits_small(
    table: &[u8],
    count: usize,
    named: &NamedSubtrees<'_>,
    opens: &[u8; BYTE_VALUES],
    sizes: &[u8; BYTE_VALUES],
) -> bool
    requires { SomeGivenIn table.now count named.now }
    ensures { result ≡ true → (inserting : Bool) (t : Tree) (firsts nexts : List ℕ) →
        NamedIn inserting t table.now count opens.now named.now →
        KeptOf opens.now firsts nexts sizes.now named.now →
        fits_within small_transitions (changed_automaton inserting t (decode table.now)) ≡ true }
{
    if count > SMALL {
        return false;
    }
    fits(table, count, named, opens, sizes, SMALL)
}

// Which arrays are long enough for the transitions of an automaton that a table has room for.
#[derive(Clone, Copy, PartialEq, Eq)]
pub enum Size {
    Small,
    Large,
}

// The size of the changed automaton, if a table has room for it.
pub fn size_of(
    table: &[u8],
    count: usize,
    named: &NamedSubtrees<'_>,
    opens: &[u8; BYTE_VALUES],
    sizes: &[u8; BYTE_VALUES],
) -> Option<Size>
    requires { SomeGivenIn table.now count named.now }
    ensures { (inserting : Bool) (t : Tree) (firsts nexts : List ℕ) →
        NamedIn inserting t table.now count opens.now named.now →
        KeptOf opens.now firsts nexts sizes.now named.now →
        Fits (is_some result) (is_small result) (changed_automaton inserting t (decode table.now)) }
{
    if fits_small(table, count, named, opens, sizes) {
        return Some(Size::Small);
    }
    if fits(table, count, named, opens, sizes, LARGE) {
        return Some(Size::Large);
    }
    None
}
