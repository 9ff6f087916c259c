// The few transitions that are placed first. The giver of a state is the transition that gave it its number in the
// old table. Placed are the transitions made from givers, and all into outputs that have no such transition. Mostly
// they number every output. Nothing is proved of the choice.
ghost use Rattle.std.specs.Prelude.{◌≡◌, ◌*◌, ◌+◌, ◌<◌, ◌≤◌, length};
ghost use Rattle.fields.specs.Fields.{HoldsTransitions};
ghost use Rattle.format.specs.Format.{byte_values, max_nodes, transition_bytes};

use crate::lent::{OldTable, Transitions};
use crate::placing::Placing;
use crate::reading::{arity_of, out_of};
use fields::arg_of;
use format::{BYTE_VALUES, MAX_ARITY, MAX_NODES, TRANSITION_BYTES};

// The greatest argument of the transition that starts at a byte. Places beyond the arguments are 0.
fn top_argument(transitions: &[u8], at: usize) -> usize
    requires { at + transition_bytes ≤ length transitions.now }
{
    let mut top = 0;
    for k in 0..MAX_ARITY {
        top = top.max(arg_of(transitions, at, k));
    }
    top
}

// Notes transition i as the giver of its output, if it is the first into it with all arguments below the output.
fn note_giver(transitions: &[u8], i: usize, givers: &mut [u16; BYTE_VALUES])
    requires transition_bytes_in_bounds { transition_bytes * i + transition_bytes ≤ length transitions.now }
    requires i_bound { i < 65535 }
{
    let at = TRANSITION_BYTES * i;
    let out = fields::out_of(transitions, at);
    if givers[out] != 0 {
        return;
    }
    if top_argument(transitions, at) >= out {
        return;
    }
    givers[out] = (i + 1) as u16;
}

// Forgets the giver of each state that is now the name of a subtree of another state. Such a subtree merged into this
// state, and its transition may come first.
fn forget_givers(
    m: usize,
    states: &[u8; MAX_NODES],
    names: &[u8; MAX_NODES],
    givers: &mut [u16; BYTE_VALUES],
)
    requires { m ≤ max_nodes }
{
    for j in 0..m {
        if (states[j] != 0) & (names[j] != states[j]) {
            givers[names[j] as usize] = 0;
        }
    }
}

// For each state the number, from 1, of the first transition into it whose arguments are all below it; 0 if there is
// none or if another may come before it now. `states` has the states of the m subtrees, `names` their names.
pub fn givers_of(
    transitions: &[u8],
    count: usize,
    m: usize,
    states: &[u8; MAX_NODES],
    names: &[u8; MAX_NODES],
) -> [u16; BYTE_VALUES]
    requires holds_transitions { HoldsTransitions transitions.now count }
    requires m_le_max_nodes { m ≤ max_nodes }
{
    let mut givers = [0u16; BYTE_VALUES];
    for i in 0..count {
        note_giver(transitions, i, &mut givers);
    }
    forget_givers(m, states, names, &mut givers);
    givers
}

// Places the entries from `start` to `end` whose output is q, except leaves, and notes in `given` if there are any.
fn place_given(
    placing: &mut Placing,
    transitions: &Transitions<'_>,
    q: usize,
    start: usize,
    end: usize,
    next: &mut [u16],
    given: &mut [bool; BYTE_VALUES],
)
    requires end_in_bounds { end ≤ length transitions.now.heads.now }
    requires next_len { length next.old ≡ length transitions.now.heads.now }
    requires q_lt_byte_values { q < byte_values }
    ensures { placing.exit.now.numbers ≡ placing.entry.now.numbers }
{
    for i in start..end {
        let head = transitions.heads[i];
        if out_of(head) != q {
            continue;
        }
        given[q] = true;
        if arity_of(head) == 0 {
            continue;
        }
        placing.place(transitions, i, next);
    }
}

// Whether an entry is placed whatever it was made from: it is a leaf, its output is a subtree's own name, or no entry
// into its output was made from a giver.
fn stands_alone(head: u64, n: usize, given: &[bool; BYTE_VALUES]) -> bool {
    (arity_of(head) == 0) | (out_of(head) > n) | !given[out_of(head)]
}

// Places the entries that stand alone, and those of subtrees, which come after the first `made`. No entry that
// `place_given` placed is placed again: linking an entry twice makes the list cyclic.
fn place_others(
    placing: &mut Placing,
    transitions: &Transitions<'_>,
    made: usize,
    n: usize,
    next: &mut [u16],
    given: &[bool; BYTE_VALUES],
)
    requires { length next.old ≡ length transitions.now.heads.now }
    ensures { placing.exit.now.numbers ≡ placing.entry.now.numbers }
{
    for i in 0..transitions.count {
        if !stands_alone(transitions.heads[i], n, given) & (i < made) {
            continue;
        }
        placing.place(transitions, i, next);
    }
}

// Places the few transitions.
fn place_few(
    placing: &mut Placing,
    transitions: &Transitions<'_>,
    next: &mut [u16],
    old: &OldTable<'_>,
)
    requires { length next.old ≡ length transitions.now.heads.now }
    ensures { placing.exit.now.numbers ≡ placing.entry.now.numbers }
{
    let made = old.made(transitions.count);
    let mut given = [false; BYTE_VALUES];
    for q in 1..old.states + 1 {
        let g = old.givers[q] as usize;
        let start = old.start_of(g, made);
        let end = old.end_of(g, made);
        place_given(placing, transitions, q, start, end, next, &mut given);
    }
    place_others(placing, transitions, made, old.states, next, &given);
}

// Places the few transitions if `few`, else all.
pub fn place_first(
    placing: &mut Placing,
    transitions: &Transitions<'_>,
    next: &mut [u16],
    old: &OldTable<'_>,
    few: bool,
)
    requires { length next.old ≡ length transitions.now.heads.now }
    ensures { placing.exit.now.numbers ≡ placing.entry.now.numbers }
{
    if few {
        place_few(placing, transitions, next, old);
        return;
    }
    placing.place_all(transitions, next);
}
