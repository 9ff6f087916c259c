// The output of a transition with another state for one of its arguments.
ghost use Rattle.std.specs.Prelude.{◌++◌, ◌∷◌, ◌≡◌, ◌*◌, ◌<◌};
ghost use Rattle.automata.specs.Automaton.{lookup};
ghost use Rattle.fields.specs.Fields.{Readable, HoldsTransitionsOver};
ghost use Rattle.format.specs.Format.{transition_bytes};
ghost use Rattle.table.specs.Layout.{arity_of, label_of, transitions_in};
ghost use Rattle.sorted.specs.Sorted.{Sorted};
ghost use Rattle.sorted.specs.Steps.{slot_at, step_at};

use crate::output;
use fields::{entry_at, put_arg};
use format::TRANSITION_BYTES;

// The output of the transition that is the one at a byte with q for its argument k; 0 if there is none.
fn replaced(transitions: &[u8], count: usize, at: usize, k: usize, q: u8) -> u8
    requires sorted { Sorted transitions.now count }
    requires readable { Readable transitions.now at }
    requires k_bound { k < arity_of transitions.now at }
    ensures { result ≡ lookup (label_of transitions.now at) ((slot_at transitions.now at k).before ++ (q ∷
        (slot_at transitions.now at k).after)) (transitions_in transitions.now count) }
{
    let mut entry = entry_at(transitions, at);
    put_arg(&mut entry, k, q);
    output(transitions, count, entry)
}

// The same for transition i, and 0 if q is 0, which is no state.
pub fn stepped(transitions: &[u8], count: usize, n: usize, i: usize, k: usize, q: u8) -> u8
    requires sorted { Sorted transitions.now count }
    requires holds_transitions_over { HoldsTransitionsOver transitions.now count n }
    requires i_lt_count { i < count }
    requires k_bound { k < arity_of transitions.now (transition_bytes * i) }
    ensures { result ≡ step_at transitions.now count (transition_bytes * i) k q }
{
    if q == 0 {
        return 0;
    }
    replaced(transitions, count, TRANSITION_BYTES * i, k, q)
}
