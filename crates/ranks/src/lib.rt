// Serial numbers of accepted trees (02, order 4): the number of a tree, and the tree of a number. Both go by how many
// trees each state has, as crate totals finds them.
#![tactic(auto)]

mod choosing; // the place that a number falls in
mod exact; // numbers of 64 bits beside numbers of trees
mod ranking; // the number of a tree within its state
mod unfolding; // the listing of a state's tree
mod weights; // how many trees stand at a transition and over some states

ghost use Rattle.std.specs.Prelude.{cond, true, ◌≡◌, ◌<◌, length};
ghost use Rattle.automata.specs.Automaton.{accepts};
ghost use Rattle.automata.specs.Ranks.{rank, unrank};
ghost use Rattle.automata.specs.Totals.{total};
ghost use Rattle.format.specs.Format.{max_listing, number_limit};
ghost use Rattle.running.specs.Running.{HoldsStates};
ghost use Rattle.table.specs.Intake.{table_refusal};
ghost use Rattle.table.specs.Layout.{decode};
ghost use Rattle.totals.specs.Numbers.{NumbersOf};
ghost use Rattle.trees.specs.Listing.{listing_refusal, read_tree};
ghost use Rattle.calls.specs.Calls.{fits_listing, padded_listing};

use choosing::choose_state;
use fields::transition_count;
use format::{HEAD_BYTES, MAX_LISTING, MAX_NODES};
use ranking::rank_within;
use totals::{Numbers, plus, sum_accepting};
use unfolding::list_tree;

// The number of a tree that the table accepts. `reached` has the states of the tree's nodes, `numbers` the numbers of
// the trees of the table's states.
pub fn rank(tree: &[u8], reached: &[u8; MAX_NODES], table: &[u8], numbers: &Numbers) -> u64
    requires tree_value { listing_refusal tree.now ≡ 0 }
    requires table_value { table_refusal table.now ≡ 0 }
    requires holds_states { HoldsStates (decode table.now) (read_tree tree.now) reached.now }
    requires tree_value_2 { accepts (decode table.now) (read_tree tree.now) ≡ true }
    requires numbers_of { NumbersOf (decode table.now) numbers.now }
    requires table_bound { total (decode table.now) < number_limit }
    ensures { result ≡ rank (decode table.now) (read_tree tree.now) }
{
    let count = transition_count(table);
    let q = usize::from(reached[0]);
    let before = sum_accepting(table, q - 1, numbers);
    let within = rank_within(tree, reached, &table[HEAD_BYTES..], count, numbers);
    plus(before, within).unwrap()
}

// Writes the listing of the tree of a number, and zeros after it, if the tree has at most 48 nodes; else nothing.
// Returns whether it has.
pub fn unrank(number: u64, table: &[u8], numbers: &Numbers, listing: &mut [u8]) -> bool
    requires table_value { table_refusal table.now ≡ 0 }
    requires numbers_of { NumbersOf (decode table.now) numbers.now }
    requires table_bound { total (decode table.now) < number_limit }
    requires number_bound { number < total (decode table.now) }
    requires listing_len { length listing.old ≡ max_listing }
    ensures value { result ≡ fits_listing (unrank (decode table.now) number) }
    ensures listing_after { listing.new ≡
        cond result (padded_listing (unrank (decode table.now) number)) listing.old }
{
    let count = transition_count(table);
    let n = usize::from(table[0]);
    let choice = choose_state(table, n, number, numbers);
    let mut bytes = [0u8; MAX_LISTING];
    if !list_tree(
        choice.place,
        choice.left,
        &table[HEAD_BYTES..],
        count,
        n,
        numbers,
        &mut bytes,
    ) {
        return false;
    }
    listing.copy_from_slice(&bytes);
    true
}
