// Refusal 16 by counting: how many transitions the product of a table's automaton and a tree has, before any of them
// is made. A state is in one pair for each subtree that runs to it, and in one more if it is open.
#![tactic(auto)]

mod opening; // which states are open
mod sums; // products over arguments and their sums

ghost use Rattle.std.specs.Prelude.{◌≡◌, ◌+◌, ◌<◌, ◌≤◌, ℕ, length};
ghost use Rattle.automata.specs.Automaton.{Automaton};
ghost use Rattle.automata.specs.OpenStates.{at_state};
ghost use Rattle.fields.specs.Fields.{HoldsTransitions};
ghost use Rattle.format.specs.Format.{byte_values, max_nodes};
ghost use Rattle.lists.specs.Tests.{bit};
ghost use Rattle.marking.specs.Marks.{nonzero};
ghost use Rattle.trees.specs.Tree.{Tree};
ghost use Rattle.pairs.specs.Counts.{Counted, Numbers, PairsCounted, Setting, entries_with, entry};
ghost use Rattle.pairs.specs.Counts.{weight_of, zeros};

use format::{BYTE_VALUES, MAX_NODES, MAX_PRODUCT};
use opening::open_states;
pub use opening::some_marked;
pub use sums::sum_fits;

// How many of the first m subtrees run to each state. `counts` is all 0 before.
fn count_states(m: usize, states: &[u8; MAX_NODES], counts: &mut [u8; BYTE_VALUES])
    requires m_le_max_nodes { m ≤ max_nodes }
    requires counts_value { counts.old ≡ zeros }
    ensures { Counted states.now m counts.new }
{
    for j in 0..m {
        let q = usize::from(states[j]);
        counts[q] += 1;
    }
}

// The number of pairs of a state with `count` subtrees: one more if it is marked as open.
fn weight(count: u8, mark: u8) -> u8
    requires { count ≤ max_nodes }
    ensures { result ≡ count + bit (nonzero mark) }
{
    count + u8::from(mark != 0)
}

// The number of pairs of each state.
fn weigh(counts: &[u8; BYTE_VALUES], marks: &[u8; BYTE_VALUES], weights: &mut [u8; BYTE_VALUES])
    requires by_index { (q : ℕ) → q < byte_values → entry counts.now q ≤ max_nodes }
    requires weights_len { length weights.old ≡ byte_values }
    ensures { Numbers (weight_of counts.now marks.now) weights.new }
{
    for q in 0..BYTE_VALUES {
        weights[q] = weight(counts[q], marks[q]);
    }
}

// Counts the pairs of an automaton and a tree. Returns whether the product has at most `MAX_PRODUCT` transitions.
// `states` has the states of the m subtrees. `opens` gets marks for the open states, `weights` the number of pairs of
// each state. Both are lent, because an array that is returned is copied.
pub fn count_pairs(
    transitions: &[u8],
    count: usize,
    m: usize,
    states: &[u8; MAX_NODES],
    opens: &mut [u8; BYTE_VALUES],
    weights: &mut [u8; BYTE_VALUES],
) -> bool
    requires holds_transitions { HoldsTransitions transitions.now count }
    requires m_le_max_nodes { m ≤ max_nodes }
    requires opens_len { length opens.old ≡ byte_values }
    requires weights_len { length weights.old ≡ byte_values }
    ensures pairs_counted { (A : Automaton) (t : Tree) → Setting A transitions.now count →
        ((q : ℕ) → entries_with states.now m q ≡ at_state A t q) →
        PairsCounted A t result opens.new weights.new }
    ensures opens_len_2 { length opens.new ≡ byte_values }
    ensures weights_len_2 { length weights.new ≡ byte_values }
{
    let mut counts = [0u8; BYTE_VALUES];
    count_states(m, states, &mut counts);
    open_states(transitions, count, &counts, opens);
    weigh(&counts, opens, weights);
    let stateless = usize::from(counts[0]);
    sum_fits(transitions, count, stateless, MAX_PRODUCT, weights)
}
