// Fields of a table and of its transitions. `transitions` has transition i at byte 12 i: the part `&table[203..]` of a
// table, or a scratch.
#![tactic(auto)]

mod transition; // fields of one transition

ghost use Rattle.std.specs.Prelude.{◌≡◌, ◌<◌, ◌≤◌, is_some, length, take};
ghost use Rattle.std.specs.Option.{unwrap_or};
ghost use Rattle.automata.specs.Automaton.{lookup, matches};
ghost use Rattle.format.specs.Format.{max_arity, table_bytes};
ghost use Rattle.lists.specs.Tests.{any};
ghost use Rattle.table.specs.Layout.{transition_count, transitions_in};
ghost use Rattle.fields.specs.Fields.{HoldsTransitions};

use format::{COUNT_AT, MAX_ARITY, TRANSITION_BYTES};
pub use transition::{
    arg_of, arity_of, blank_entry, entry_at, label_of, out_of, put_arg, put_arity, put_label,
    put_out,
};

// The number of transitions of a table.
pub fn transition_count(table: &[u8]) -> usize
    requires { length table.now ≡ table_bytes }
    ensures value { result ≡ transition_count table.now }
    ensures upper_bound { result < 65536 }
{
    usize::from(u16::from_be_bytes([table[COUNT_AT], table[COUNT_AT + 1]]))
}

// The output of the first transition that has this label and these arguments, if any.
pub fn find(
    transitions: &[u8],
    count: usize,
    label: u16,
    arity: usize,
    args: [u8; MAX_ARITY],
) -> Option<u8>
    requires holds_transitions { HoldsTransitions transitions.now count }
    requires arity_le_max_arity { arity ≤ max_arity }
    ensures result_value { unwrap_or result 0 ≡ lookup label (take arity args) (transitions_in transitions.now count) }
    ensures result_value_2 { is_some result ≡ any (matches label (take arity args)) (transitions_in transitions.now count) }
{
    let mut i = 0;
    let answer = 'search: loop {
        if i >= count {
            break 'search None;
        }
        let at = TRANSITION_BYTES * i;
        i += 1;
        if label_of(transitions, at) != label {
            continue 'search;
        }
        if arity_of(transitions, at) != arity {
            continue 'search;
        }
        for k in 0..arity {
            if arg_of(transitions, at, k) != usize::from(args[k]) {
                continue 'search;
            }
        }
        break 'search Some(out_of(transitions, at) as u8);
    };
    answer
}
