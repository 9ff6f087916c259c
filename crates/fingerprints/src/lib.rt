// Fingerprints of states: states of one class that every slot takes to one state have the same. So in an automaton
// without loops whose fingerprints all differ no two states are equivalent.
// `transitions` has `count` sorted transitions over the states 1 to n; `classes` has the class of state q at byte q.
// 0, "no state", takes part.
#![tactic(auto)]

mod values; // what a use adds
mod prints; // the fingerprints of all states
mod differing; // whether all differ

ghost use Rattle.std.specs.Prelude.{◌≡◌, true};
ghost use Rattle.automata.specs.Order.{rising};
ghost use Rattle.fields.specs.View.{Viewed, viewed};
ghost use Rattle.fingerprints.specs.Fingerprints.{Settled};
ghost use Rattle.table.specs.Layout.{transitions_in};

use differing::{all_differ, all_some};
pub use prints::class_prints;
use prints::state_prints;

// Conditions 10 and 12 of an automaton without loops, by fingerprints. If this returns false, nothing is known: a
// state has neither a class nor a use, or two share a fingerprint.
pub fn settled(classes: &[u8], transitions: &[u8], count: usize, n: usize) -> bool
    requires viewed { Viewed classes.now transitions.now n count }
    requires count_value { rising (transitions_in transitions.now count) ≡ true }
    ensures { result ≡ true → Settled (viewed classes.now transitions.now n count) }
{
    let prints = state_prints(classes, transitions, count, n);
    if !all_some(&prints, n) {
        return false;
    }
    all_differ(&prints, n)
}
