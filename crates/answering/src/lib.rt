// The calls on byte slices. No call has a `requires`: any bytes of any length get the answer that document 01 gives.
#![tactic(auto)]

mod serials; // serial numbers of trees

ghost use Rattle.std.specs.Prelude.{◌≡◌};
ghost use Rattle.calls.specs.Calls.{add_result, ask_answer, ask_refusal, asked, change_result, intake_answer};
ghost use Rattle.calls.specs.Calls.{remove_result, total_answer};
ghost use Rattle.change.specs.Changing.{change_of, result_of};
ghost use Rattle.fields.specs.Fields.{InTable};
ghost use Rattle.format.specs.Refusals.{broken};
ghost use Rattle.running.specs.Running.{HoldsStates};
ghost use Rattle.table.specs.Layout.{decode};
ghost use Rattle.trees.specs.Listing.{listing_refusal, read_tree};
ghost use Rattle.trees.specs.Tree.{Tree};
ghost use Rattle.answering.specs.Changes.{input_refusal, presence_refusal};

use calls::Answer;
use fields::transition_count;
use format::{MAX_NODES, Refusal, SCRATCH_BYTES, TABLE_BYTES};
use intake::check_content;
use running::stops::stop_place;
use running::{accepts_state, node_states};
pub use serials::{rank, unrank};

// Conditions 1 to 5 and 7 to 13.
fn check_asked(tree: &[u8], table: &[u8]) -> Result<(), Refusal>
    ensures { broken result ≡ ask_refusal tree.now table.now }
{
    listing::check(tree)?; // the tree decides first
    intake::check(table)
}

// Whether the table's set has the tree whose nodes ran to these states, and if not, what stops the tree.
fn asked(tree: &[u8], table: &[u8], reached: &[u8; MAX_NODES]) -> Answer
    requires tree_value { listing_refusal tree.now ≡ 0 }
    requires in_table { InTable table.now }
    requires holds_states { HoldsStates (decode table.now) (read_tree tree.now) reached.now }
    ensures { result ≡ asked (decode table.now) (read_tree tree.now) }
{
    let q = reached[0];
    if q == 0 {
        return Answer::NotAt {
            place: stop_place(tree, reached),
        };
    }
    if accepts_state(table, q) {
        return Answer::Approved;
    }
    Answer::NotPart
}

// Whether the table's set has the tree, and if not, what stops the tree.
pub fn ask(tree: &[u8], table: &[u8]) -> Answer
    ensures { result ≡ ask_answer tree.now table.now }
{
    if let Err(refusal) = check_asked(tree, table) {
        return Answer::from(refusal);
    }
    let reached = node_states(tree, table);
    asked(tree, table, &reached)
}

// Whether the table is one that these calls leave.
pub fn take_in(table: &[u8]) -> Answer
    ensures { result ≡ intake_answer table.now }
{
    if let Err(refusal) = intake::check(table) {
        return Answer::from(refusal);
    }
    let transitions = transition_count(table);
    Answer::Accepted {
        states: u16::from(table[0]),
        transitions: transitions as u16,
    }
}

// How many trees the table's set has.
pub fn total(table: &[u8]) -> Answer
    ensures { result ≡ total_answer table.now }
{
    if let Err(refusal) = intake::check(table) {
        return Answer::from(refusal);
    }
    match totals::total(table) {
        Some(number) => Answer::Total { number },
        None => Answer::Over,
    }
}

// Condition 14 of an addition, which the tree breaks by being there, or 15 of a removal.
fn check_presence(inserting: bool, present: bool) -> Result<(), Refusal>
    ensures { (t : Tree) → broken result ≡ presence_refusal (change_of inserting t) present }
{
    match (inserting, present) {
        (true, true) => Err(Refusal::TreeInSet),
        (false, false) => Err(Refusal::TreeNotInSet),
        _ => Ok(()),
    }
}

// Conditions 1 to 13 of a change.
fn check_input(tree: &[u8], table: &[u8], scratch: &[u8]) -> Result<(), Refusal>
    ensures { broken result ≡ input_refusal tree.now table.now scratch.now }
{
    listing::check(tree)?;
    if table.len() != TABLE_BYTES {
        return Err(Refusal::TableLength);
    }
    if scratch.len() != SCRATCH_BYTES {
        return Err(Refusal::LentLength);
    }
    check_content(table)
}

// Puts the tree into the table's set or takes it out.
pub fn change(tree: &[u8], table: &mut [u8], scratch: &mut [u8], inserting: bool) -> Answer
    ensures { result_of result table.new scratch.new ≡
        change_result (change_of inserting (read_tree tree.now)) tree.now table.old
        scratch.old }
{
    if let Err(refusal) = check_input(tree, table, scratch) {
        return Answer::from(refusal);
    }
    let reached = node_states(tree, table);
    if let Err(refusal) = check_presence(inserting, accepts_state(table, reached[0])) {
        return Answer::from(refusal);
    }
    change::change(tree, &reached, table, scratch, inserting)
}

// Puts the tree into the table's set.
pub fn add(tree: &[u8], table: &mut [u8], scratch: &mut [u8]) -> Answer
    ensures { result_of result table.new scratch.new ≡
        add_result tree.now table.old scratch.old }
{
    change(tree, table, scratch, true)
}

// Takes the tree out of the table's set.
pub fn remove(tree: &[u8], table: &mut [u8], scratch: &mut [u8]) -> Answer
    ensures { result_of result table.new scratch.new ≡
        remove_result tree.now table.old scratch.old }
{
    change(tree, table, scratch, false)
}
