// Whether transitions rise and number their outputs by the rule, in two passes.
ghost use Rattle.std.specs.Prelude.{true, ◌≡◌, ◌+◌, ◌<◌, ◌≤◌, ℕ, length, map};
ghost use Rattle.automata.specs.Numbered.{Passed, top};
ghost use Rattle.automata.specs.Order.{rising};
ghost use Rattle.format.specs.Format.{byte_values, max_arity, max_states};
ghost use Rattle.lists.specs.Positions.{up_from};
ghost use Rattle.marking.specs.Marks.{marked};
ghost use Rattle.validity.specs.Rules.{Spans};
ghost use Rattle.packed.specs.Heads.{packed_in, place_of};
ghost use Rattle.numbering.specs.Steps.{AllSeen, Read, Ruled, Sound};

use crate::lent::Transitions;
use crate::reading::{arity_of, is_before, out_of, place_of};
use format::BYTE_VALUES;
use validity::{all_seen, leads_to};

// Whether each transition comes before the next.
fn rises(transitions: &Transitions<'_>) -> bool
    ensures { result ≡ true → rising (packed_in transitions.now.heads.now transitions.now.args.now
        transitions.now.count) ≡ true }
{
    let heads = transitions.heads;
    let args = transitions.args;
    for i in 1..transitions.count {
        if !is_before(heads[i - 1], args[i - 1], heads[i], args[i]) {
            return false;
        }
    }
    true
}

// The greatest of the first `arity` arguments; 0 for none.
fn top_place(args: u64, arity: usize) -> usize
    requires { arity ≤ max_arity }
    ensures { result ≡ top (map (place_of args) (up_from 0 arity)) }
{
    let mut t = 0;
    for k in 0..arity {
        t = t.max(place_of(args, k));
    }
    t
}

// Reads transition i. Returns whether every state strictly between its greatest argument and its output has been
// seen. If so, an output above its arguments is seen too, and its mark is the state after the greatest argument: all
// states from the mark up to the output have been seen. A lower mark is kept.
fn read(transitions: &Transitions<'_>, i: usize, seen: &mut [u8; BYTE_VALUES]) -> bool
    requires i_lt_count { i < transitions.now.count }
    requires passed { Passed (packed_in transitions.now.heads.now transitions.now.args.now i) (marked seen.old) }
    requires spans { Spans seen.old }
    ensures { Read transitions.now.heads.now transitions.now.args.now i seen.old seen.new result }
{
    let head = transitions.heads[i];
    let out = out_of(head);
    let t = top_place(transitions.args[i], arity_of(head));
    if out <= t {
        return true;
    }
    if leads_to(seen[out] as usize, t + 1) {
        return true;
    }
    if !all_seen(seen, t + 1, out) {
        return false;
    }
    seen[out] = (t + 1) as u8;
    true
}

// The greatest state up to which all have been seen; all up to `low` have.
fn seen_up_to(seen: &[u8; BYTE_VALUES], low: usize, states: usize) -> usize
    requires low_le_states { low ≤ states }
    requires states_le_max_states { states ≤ max_states }
    requires all_seen { AllSeen seen.now low }
    ensures upper_bound { result ≤ states }
    ensures all_seen_2 { AllSeen seen.now result }
{
    for q in low..states {
        if seen[q + 1] == 0 {
            return q;
        }
    }
    states
}

// Whether the transitions give each of the numbers by the rule. A transition is skipped if all states up to its
// output have been seen.
fn ruled(transitions: &Transitions<'_>, states: usize) -> bool
    requires { states ≤ max_states }
    ensures { result ≡ true → Ruled transitions.now.heads.now transitions.now.args.now transitions.now.count states }
{
    let mut seen = [0u8; BYTE_VALUES];
    let mut low = 0;
    for i in 0..transitions.count {
        if out_of(transitions.heads[i]) <= low {
            continue;
        }
        if !read(transitions, i, &mut seen) {
            return false;
        }
        low = seen_up_to(&seen, low, states);
    }
    low == states
}

// Whether the transitions rise and are numbered by the rule.
pub fn sound(transitions: &Transitions<'_>, states: usize) -> bool
    requires { states ≤ max_states }
    ensures { result ≡ true → Sound transitions.now.heads.now transitions.now.args.now transitions.now.count states }
{
    rises(transitions) && ruled(transitions, states)
}
