// A tree put into the set of a table, or taken out. Each distinct subtree of the tree gets a name, which stands for
// its state in the new automaton. The new transitions are made between names, then the names get numbers. Refusals 16
// and 17 are found by counting, before anything is written.
#![tactic(auto)]

mod arrays; // the arrays that a change works in
mod classes; // a class for each name
mod fallback; // the new table by a plain search, as a last resort
mod fitting; // whether a table has room
mod rebuilding; // the new table

ghost use Rattle.std.specs.Prelude.{true, ◌≡◌, length};
ghost use Rattle.calls.specs.declared.Answer.TheVariants.{Done};
ghost use Rattle.format.specs.Format.{scratch_bytes, table_bytes};
ghost use Rattle.pairs.specs.Counts.{PairsCounted};
ghost use Rattle.running.specs.Running.{HoldsStates};
ghost use Rattle.table.specs.Intake.{table_refusal};
ghost use Rattle.table.specs.Layout.{decode, state_count, transition_count};
ghost use Rattle.trees.specs.Listing.{listing_refusal, read_tree};
ghost use Rattle.trees.specs.Tree.{Tree};
ghost use Rattle.change.specs.Changing.{Worked, change_of, changed_outcome, result_of};
ghost use Rattle.change.specs.Given.{Given, Named, SomeGiven};

use calls::Answer;
use classes::classify_names;
use fields::transition_count;
use fitting::size_of;
use format::{BYTE_VALUES, HEAD_BYTES, MAX_NODES, Refusal};
use naming::{classify, name_all};
use pairs::count_pairs;
use quotient::{Candidates, KeptNames, NamedSubtrees, keep};
use rebuilding::replace;
use subtrees::{CHILD_NUMBERS, Subtrees, collect};
use uses::{Setting, note_uses};

// Fills in the names of the subtrees after the change.
fn name(
    table: &[u8],
    count: usize,
    n: usize,
    subtrees: &Subtrees,
    opens: &[u8; BYTE_VALUES],
    weights: &[u8; BYTE_VALUES],
    inserting: bool,
    names: &mut [u8; MAX_NODES],
)
    requires { SomeGiven table.now count n subtrees.now }
    ensures { (t : Tree) → Given t table.now count n subtrees.now →
        PairsCounted (decode table.now) t true opens.now weights.now →
        Named inserting t table.now count n subtrees.now opens.now names.new }
{
    let m = subtrees.count;
    let mut classes = [0u8; MAX_NODES];
    classify(table, m, &subtrees.states, m, inserting, &mut classes);
    let mut lows = [0u16; BYTE_VALUES];
    let mut lasts = [0u16; BYTE_VALUES];
    note_uses(&table[HEAD_BYTES..], count, &mut lows, &mut lasts);
    let setting = Setting {
        transitions: &table[HEAD_BYTES..],
        count,
        n,
        subtrees,
        classes: &classes,
        weights,
        lows: &lows,
        lasts: &lasts,
    };
    name_all(table, &setting, opens, names);
}

// The answer of a change that was done, from the new table.
fn done(table: &[u8]) -> Answer
    requires { length table.now ≡ table_bytes }
    ensures { result ≡ Done (state_count table.now) (transition_count table.now) }
{
    let states = u16::from(table[0]);
    let transitions = transition_count(table) as u16;
    Answer::Done {
        states: states,
        transitions: transitions,
    }
}

// Puts the tree in or takes it out, after refusal 16 was checked.
fn apply(
    table: &mut [u8],
    scratch: &mut [u8],
    count: usize,
    n: usize,
    subtrees: &Subtrees,
    opens: &[u8; BYTE_VALUES],
    weights: &[u8; BYTE_VALUES],
    inserting: bool,
) -> Answer
    requires some_given { SomeGiven table.old count n subtrees.now }
    requires scratch_len { length scratch.old ≡ scratch_bytes }
    requires pairs_counted { (t : Tree) → Given t table.old count n subtrees.now →
        PairsCounted (decode table.old) t true opens.now weights.now }
    ensures { (t : Tree) → Given t table.old count n subtrees.now →
        Worked (change_of inserting t) table.old table.new result }
{
    let m = subtrees.count;
    let mut names = [0u8; MAX_NODES];
    name(
        table, count, n, subtrees, opens, weights, inserting, &mut names,
    );
    let named = NamedSubtrees {
        n,
        subtrees,
        names: &names,
    };
    let mut kept = KeptNames {
        firsts: [0u8; BYTE_VALUES],
        nexts: [0u8; BYTE_VALUES],
        sizes: [0u8; BYTE_VALUES],
    };
    let candidates = Candidates {
        n,
        m,
        opens,
        states: &subtrees.states,
        names: &names,
    };
    keep(&candidates, &mut kept);
    let Some(size) = size_of(table, count, &named, opens, &kept.sizes) else {
        return Answer::from(Refusal::TableFull);
    };
    let mut classes = [0u8; BYTE_VALUES];
    classify_names(table, n, m, &subtrees.states, inserting, &mut classes);
    replace(table, scratch, count, &named, &kept, &classes, size);
    done(table)
}

// Puts the tree in or takes it out. `reached` has the states of the tree's nodes. The scratch holds anything
// afterwards.
fn work(
    tree: &[u8],
    reached: &[u8; MAX_NODES],
    table: &mut [u8],
    scratch: &mut [u8],
    inserting: bool,
) -> Answer
    requires tree_value { listing_refusal tree.now ≡ 0 }
    requires holds_states { HoldsStates (decode table.old) (read_tree tree.now) reached.now }
    requires table_value { table_refusal table.old ≡ 0 }
    requires scratch_len { length scratch.old ≡ scratch_bytes }
    ensures { Worked (change_of inserting (read_tree tree.now)) table.old
        table.new result }
{
    let n = usize::from(table[0]);
    let count = transition_count(table);
    let mut subtrees = Subtrees {
        count: 0,
        labels: [0u16; MAX_NODES],
        arities: [0u8; MAX_NODES],
        children: [0u8; CHILD_NUMBERS],
        states: [0u8; MAX_NODES],
    };
    collect(tree, reached, &mut subtrees);
    let mut opens = [0u8; BYTE_VALUES];
    let mut weights = [0u8; BYTE_VALUES];
    if !count_pairs(
        &table[HEAD_BYTES..],
        count,
        subtrees.count,
        &subtrees.states,
        &mut opens,
        &mut weights,
    ) {
        return Answer::from(Refusal::LargeProduct);
    }
    apply(
        table, scratch, count, n, &subtrees, &opens, &weights, inserting,
    )
}

// Puts the tree in or takes it out. `reached` has the states of the tree's nodes. The scratch is all zeros
// afterwards, whatever the answer is.
pub fn change(
    tree: &[u8],
    reached: &[u8; MAX_NODES],
    table: &mut [u8],
    scratch: &mut [u8],
    inserting: bool,
) -> Answer
    requires tree_value { listing_refusal tree.now ≡ 0 }
    requires holds_states { HoldsStates (decode table.old) (read_tree tree.now) reached.now }
    requires table_value { table_refusal table.old ≡ 0 }
    requires scratch_len { length scratch.old ≡ scratch_bytes }
    ensures { result_of result table.new scratch.new ≡
        changed_outcome (change_of inserting (read_tree tree.now)) table.old scratch.old }
{
    let answer = work(tree, reached, table, scratch, inserting);
    scratch.fill(0);
    answer
}
