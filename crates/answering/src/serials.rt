// Serial numbers of the trees of a table's set (02, order 4): tree to number, and number to tree.
ghost use Rattle.std.specs.Prelude.{true, ◌≡◌, length};
ghost use Rattle.automata.specs.Automaton.{accepts};
ghost use Rattle.calls.specs.Calls.{rank_answer, ranked, unrank_result};
ghost use Rattle.format.specs.Format.{max_listing};
ghost use Rattle.format.specs.Refusals.{broken};
ghost use Rattle.running.specs.Running.{HoldsStates};
ghost use Rattle.table.specs.Intake.{table_refusal};
ghost use Rattle.table.specs.Layout.{decode};
ghost use Rattle.trees.specs.Listing.{listing_refusal, read_tree};
ghost use Rattle.answering.specs.Serials.{buffer_refusal, numbered, response_of};

use crate::{asked, check_asked};
use calls::Answer;
use format::{MAX_LISTING, MAX_NODES, Refusal, TABLE_BYTES};
use intake::check_content;
use running::{accepts_state, node_states};
use totals::{state_numbers, total_of};

// The number of a tree that the table's set has, or 18.
fn serial(tree: &[u8], table: &[u8], reached: &[u8; MAX_NODES]) -> Answer
    requires tree_value { listing_refusal tree.now ≡ 0 }
    requires table_value { table_refusal table.now ≡ 0 }
    requires holds_states { HoldsStates (decode table.now) (read_tree tree.now) reached.now }
    requires tree_value_2 { accepts (decode table.now) (read_tree tree.now) ≡ true }
    ensures { result ≡ ranked (decode table.now) (read_tree tree.now) }
{
    let numbers = state_numbers(table);
    let Some(_) = total_of(table, &numbers) else {
        return Answer::from(Refusal::TotalOver);
    };
    Answer::Serial {
        number: ranks::rank(tree, reached, table, &numbers),
    }
}

// The number of the tree, or what ask answers if the table's set does not have it.
pub fn rank(tree: &[u8], table: &[u8]) -> Answer
    ensures { result ≡ rank_answer tree.now table.now }
{
    if let Err(refusal) = check_asked(tree, table) {
        return Answer::from(refusal);
    }
    let reached = node_states(tree, table);
    if accepts_state(table, reached[0]) {
        return serial(tree, table, &reached);
    }
    asked(tree, table, &reached)
}

// Conditions 5 to 13 of a table and a buffer for a listing.
fn check_buffer(table: &[u8], listing: &[u8]) -> Result<(), Refusal>
    ensures { broken result ≡ buffer_refusal table.now listing.now }
{
    if table.len() != TABLE_BYTES {
        return Err(Refusal::TableLength);
    }
    if listing.len() != MAX_LISTING {
        return Err(Refusal::LentLength);
    }
    check_content(table)
}

// The tree of a number, listed in a buffer of the right length: 18 to 20, or finished.
fn list_numbered(number: u64, table: &[u8], listing: &mut [u8]) -> Answer
    requires table_value { table_refusal table.now ≡ 0 }
    requires listing_len { length listing.old ≡ max_listing }
    ensures { response_of result listing.new ≡
        numbered number (decode table.now) listing.old }
{
    let numbers = state_numbers(table);
    let Some(value) = total_of(table, &numbers) else {
        return Answer::from(Refusal::TotalOver);
    };
    if number >= value {
        return Answer::from(Refusal::LargeNumber);
    }
    if ranks::unrank(number, table, &numbers, listing) {
        return Answer::Finished;
    }
    Answer::from(Refusal::LargeTree)
}

// The tree of a number, listed in the buffer.
pub fn unrank(number: u64, table: &[u8], listing: &mut [u8]) -> Answer
    ensures { response_of result listing.new ≡
        unrank_result number table.now listing.old }
{
    if let Err(refusal) = check_buffer(table, listing) {
        return Answer::from(refusal);
    }
    list_numbered(number, table, listing)
}
