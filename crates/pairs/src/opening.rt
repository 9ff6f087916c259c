// Open states: a state is open if some tree that is no subtree runs to it. It is open at once if no subtree runs to
// it, or if more nodes over subtrees run to it than it has subtrees. If an argument is open, so is the output.
ghost use Rattle.std.specs.Prelude.{◌||◌, not, ◌≡◌, eqb, length};
ghost use Rattle.automata.specs.Automaton.{Automaton};
ghost use Rattle.fields.specs.Fields.{HoldsTransitions, Readable};
ghost use Rattle.format.specs.Format.{byte_values};
ghost use Rattle.lists.specs.Tests.{any};
ghost use Rattle.marking.specs.Marks.{marked, nonzero};
ghost use Rattle.marking.specs.Spread.{Spread, UpTo};
ghost use Rattle.table.specs.Layout.{transition_at};
ghost use Rattle.trees.specs.Tree.{Tree};
ghost use Rattle.pairs.specs.Counts.{MarkedBy, Open, Setting, SomeUp, Subtrees, nth_some_up, starts_at};

use crate::sums::sums_into;
use fields::{arg_of, arity_of, out_of};
use format::{BYTE_VALUES, TRANSITION_BYTES};
use marking::sweep;

// The mark of a state to which `count` subtrees and `sum` nodes over subtrees run.
fn opens(count: u8, sum: u8) -> u8
    ensures { nonzero result ≡ (eqb count 0 || not (eqb sum count)) }
{
    u8::from(count == 0 || sum != count)
}

// Marks for the states that are open at once.
fn open_at_once(counts: &[u8; BYTE_VALUES], sums: &[u8; BYTE_VALUES], marks: &mut [u8; BYTE_VALUES])
    requires { length marks.old ≡ byte_values }
    ensures { MarkedBy (starts_at counts.now sums.now) marks.new }
{
    for q in 0..BYTE_VALUES {
        marks[q] = opens(counts[q], sums[q]);
    }
}

// Whether some argument of the transition that starts at a byte is marked.
pub fn some_marked(transitions: &[u8], at: usize, marks: &[u8; BYTE_VALUES]) -> bool
    requires { Readable transitions.now at }
    ensures { result ≡ any (marked marks.now) (transition_at transitions.now at).args }
{
    let arity = arity_of(transitions, at);
    for k in 0..arity {
        let q = arg_of(transitions, at, k);
        if marks[q] != 0 {
            return true;
        }
    }
    false
}

// Marks the output of the transition that starts at a byte, if some argument is marked. Returns whether the mark is
// new.
fn mark_output(transitions: &[u8], at: usize, marks: &mut [u8; BYTE_VALUES]) -> bool
    requires readable { Readable transitions.now at }
    requires marks_len { length marks.old ≡ byte_values }
    ensures { Spread (SomeUp transitions.now at) marks.old marks.new result }
{
    let out = out_of(transitions, at);
    if marks[out] != 0 {
        return false;
    }
    if !some_marked(transitions, at, marks) {
        return false;
    }
    marks[out] = 1;
    true
}

// One round over the transitions. Returns whether a mark is new.
fn mark_outputs(transitions: &[u8], count: usize, marks: &mut [u8; BYTE_VALUES]) -> bool
    requires holds_transitions { HoldsTransitions transitions.now count }
    requires marks_len { length marks.old ≡ byte_values }
    ensures { Spread (UpTo (nth_some_up transitions.now) count) marks.old marks.new result }
{
    sweep(count, marks, |i, marks| {
        mark_output(transitions, TRANSITION_BYTES * i, marks)
    })
}

// Marks for the open states, from the number of subtrees of each state.
pub fn open_states(
    transitions: &[u8],
    count: usize,
    counts: &[u8; BYTE_VALUES],
    marks: &mut [u8; BYTE_VALUES],
)
    requires holds_transitions { HoldsTransitions transitions.now count }
    requires marks_len { length marks.old ≡ byte_values }
    ensures fact { (A : Automaton) (t : Tree) → Setting A transitions.now count →
        Subtrees A t counts.now → Open A t marks.new }
    ensures marks_len_2 { length marks.new ≡ byte_values }
{
    let mut sums = [0u8; BYTE_VALUES];
    sums_into(transitions, count, counts, &mut sums);
    open_at_once(counts, &sums, marks);
    while mark_outputs(transitions, count, marks) {}
}
