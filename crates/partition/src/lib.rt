// Condition 12, with loops or without, by parts of states that only split for a reason. States that nothing separates
// are in one part at every moment. When no slot splits a part, states of one part are equivalent.
// `parts[q]` is the least state of q's part, its leader. `transitions` has `count` sorted transitions over the states
// 1 to n; `classes` has the class of state q at byte q.
#![tactic(auto)]

mod grouping; // a split by keys
mod repairing; // a split by slots

ghost use Rattle.std.specs.Prelude.{true, ◌≡◌, ◌<◌, ◌≤◌, length};
ghost use Rattle.automata.specs.Coaccessible.{all_coaccessible};
ghost use Rattle.automata.specs.Distinguishable.{all_distinguishable};
ghost use Rattle.automata.specs.Order.{rising};
ghost use Rattle.fields.specs.View.{Viewed, viewed};
ghost use Rattle.partition.specs.Parts.{Whole, all_lead};
ghost use Rattle.partition.specs.Splits.{ByClass};
ghost use Rattle.table.specs.Layout.{transitions_in};

use fingerprints::class_prints;
use format::BYTE_VALUES;
use grouping::regroup;
use repairing::repair;

// All states in one part.
fn one_part(n: usize) -> [u8; BYTE_VALUES]
    requires { n ≤ 255 }
    ensures { Whole n result }
{
    let mut parts = [0u8; BYTE_VALUES];
    parts[1..n + 1].fill(1);
    parts
}

// The states of each class in one part.
fn class_parts(classes: &[u8], n: usize) -> [u8; BYTE_VALUES]
    requires n_in_bounds { n < length classes.now }
    requires n_bound { n ≤ 255 }
    ensures { ByClass classes.now n result }
{
    let keys = class_prints(classes, n);
    let mut parts = one_part(n);
    regroup(n, &keys, &mut parts);
    parts
}

// Whether every state has its part for itself.
fn all_lead(n: usize, parts: &[u8; BYTE_VALUES]) -> bool
    requires { n ≤ 255 }
    ensures { result ≡ all_lead parts.now n }
{
    for q in 1..n + 1 {
        if usize::from(parts[q]) != q {
            return false;
        }
    }
    true
}

// Condition 12, if condition 10 holds: no two different states are equivalent.
pub fn all_apart(classes: &[u8], transitions: &[u8], count: usize, n: usize) -> bool
    requires viewed { Viewed classes.now transitions.now n count }
    requires count_value { rising (transitions_in transitions.now count) ≡ true }
    requires count_value_2 { all_coaccessible (viewed classes.now transitions.now n count) ≡ true }
    ensures { result ≡ all_distinguishable (viewed classes.now transitions.now n count) }
{
    let mut parts = class_parts(classes, n);
    while repair(transitions, count, n, &mut parts) {}
    all_lead(n, &parts)
}
