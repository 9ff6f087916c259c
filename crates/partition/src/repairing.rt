// Parts split by slots: an argument's part, where the slot takes its states to more than one part.
ghost use Rattle.std.specs.Prelude.{true, ◌≢◌, ◌≡◌, ◌*◌, ◌<◌, ◌≤◌, length};
ghost use Rattle.fields.specs.Fields.{HoldsTransitionsOver};
ghost use Rattle.format.specs.Format.{byte_values, transition_bytes};
ghost use Rattle.marking.specs.Marks.{Below};
ghost use Rattle.partition.specs.Parts.{Grouped, part_of};
ghost use Rattle.partition.specs.Splits.{Mates, Noted, PartKeys, Split, Stable, StableLine, part_key, part_to};
ghost use Rattle.sorted.specs.Sorted.{Sorted};
ghost use Rattle.table.specs.Layout.{arg_of, arity_of, out_of};

use crate::grouping::regroup;
use fields::{arg_of, arity_of, out_of};
use format::{BYTE_VALUES, TRANSITION_BYTES};
use marking::sweep;
use sorted::stepped;

// Marks q and its leader, if they differ.
fn note_mate(parts: &[u8; BYTE_VALUES], q: usize, mated: &mut [u8; BYTE_VALUES])
    requires mated_len { length mated.old ≡ byte_values }
    requires q_bound { q ≤ 255 }
    requires q_bound_2 { part_of parts.now q ≤ q }
    ensures { Noted q parts.now mated.old mated.new }
{
    let lead = usize::from(parts[q]);
    if lead == q {
        return;
    }
    mated[q] = 1;
    mated[lead] = 1;
}

// The states that share their part, marked.
fn mated_states(n: usize, parts: &[u8; BYTE_VALUES]) -> [u8; BYTE_VALUES]
    requires { Grouped n parts.now }
    ensures { Mates n parts.now result }
{
    let mut mated = [0u8; BYTE_VALUES];
    for q in 1..n + 1 {
        note_mate(parts, q, &mut mated);
    }
    mated
}

// The part that slot (i, k) takes q to. The argument itself needs no search.
fn part_to(
    transitions: &[u8],
    count: usize,
    n: usize,
    i: usize,
    k: usize,
    q: usize,
    parts: &[u8; BYTE_VALUES],
) -> u8
    requires sorted { Sorted transitions.now count }
    requires holds_transitions_over { HoldsTransitionsOver transitions.now count n }
    requires n_bound { n ≤ 255 }
    requires i_lt_count { i < count }
    requires k_bound { k < arity_of transitions.now (transition_bytes * i) }
    requires q_bound { q ≤ 255 }
    ensures { result ≡ part_to transitions.now count parts.now i k q }
{
    if arg_of(transitions, TRANSITION_BYTES * i, k) == q {
        return parts[out_of(transitions, TRANSITION_BYTES * i)];
    }
    parts[usize::from(stepped(transitions, count, n, i, k, q as u8))]
}

// The same for a state of this leader's part, 0 for others.
fn part_key(
    transitions: &[u8],
    count: usize,
    n: usize,
    i: usize,
    k: usize,
    lead: usize,
    q: usize,
    parts: &[u8; BYTE_VALUES],
) -> usize
    requires sorted { Sorted transitions.now count }
    requires holds_transitions_over { HoldsTransitionsOver transitions.now count n }
    requires n_bound { n ≤ 255 }
    requires i_lt_count { i < count }
    requires k_bound { k < arity_of transitions.now (transition_bytes * i) }
    requires q_bound { q ≤ 255 }
    ensures { result ≡ part_key transitions.now count parts.now i k lead q }
{
    if usize::from(parts[q]) != lead {
        return 0;
    }
    usize::from(part_to(transitions, count, n, i, k, q, parts))
}

// The keys of the states 0 to n: all are known before one state moves.
fn part_keys(
    transitions: &[u8],
    count: usize,
    n: usize,
    i: usize,
    k: usize,
    lead: usize,
    parts: &[u8; BYTE_VALUES],
) -> [usize; BYTE_VALUES]
    requires sorted { Sorted transitions.now count }
    requires holds_transitions_over { HoldsTransitionsOver transitions.now count n }
    requires n_bound { n ≤ 255 }
    requires i_lt_count { i < count }
    requires k_bound { k < arity_of transitions.now (transition_bytes * i) }
    ensures { PartKeys transitions.now n count parts.now i k lead result }
{
    let mut keys = [0usize; BYTE_VALUES];
    for q in 0..n + 1 {
        keys[q] = part_key(transitions, count, n, i, k, lead, q, parts);
    }
    keys
}

// Whether the argument at a place has a leader other than itself, which agrees with it.
fn leader_agrees(
    transitions: &[u8],
    count: usize,
    n: usize,
    i: usize,
    k: usize,
    lead: usize,
    parts: &[u8; BYTE_VALUES],
) -> bool
    requires sorted { Sorted transitions.now count }
    requires holds_transitions_over { HoldsTransitionsOver transitions.now count n }
    requires n_bound { n ≤ 255 }
    requires i_lt_count { i < count }
    requires k_bound { k < arity_of transitions.now (transition_bytes * i) }
    requires lead_bound { lead ≤ 255 }
    ensures k_nonzero { result ≡ true → arg_of transitions.now (transition_bytes * i) k ≢ lead }
    ensures lead_value { result ≡ true → part_to transitions.now count parts.now i k lead ≡
        part_of parts.now (out_of transitions.now (transition_bytes * i)) }
{
    if arg_of(transitions, TRANSITION_BYTES * i, k) == lead {
        return false;
    }
    let to = part_to(transitions, count, n, i, k, lead, parts);
    to == parts[out_of(transitions, TRANSITION_BYTES * i)]
}

// Argument k of transition i. Returns whether its part was split. If the leader agrees with another argument, the
// others of the part are looked at where the leader itself is the argument.
fn repair_at(
    transitions: &[u8],
    count: usize,
    n: usize,
    i: usize,
    k: usize,
    mated: &[u8; BYTE_VALUES],
    parts: &mut [u8; BYTE_VALUES],
) -> bool
    requires sorted { Sorted transitions.now count }
    requires holds_transitions_over { HoldsTransitionsOver transitions.now count n }
    requires i_lt_count { i < count }
    requires k_bound { k < arity_of transitions.now (transition_bytes * i) }
    requires grouped { Grouped n parts.old }
    requires mates { Mates n parts.old mated.now }
    ensures { Split transitions.now n count (Stable transitions.now n count i k) parts.old parts.new result }
{
    let a = arg_of(transitions, TRANSITION_BYTES * i, k);
    if mated[a] == 0 {
        return false;
    }
    let lead = usize::from(parts[a]);
    if leader_agrees(transitions, count, n, i, k, lead, parts) {
        return false;
    }
    let keys = part_keys(transitions, count, n, i, k, lead, parts);
    regroup(n, &keys, parts)
}

// Every argument of transition i.
fn repair_line(
    transitions: &[u8],
    count: usize,
    n: usize,
    i: usize,
    mated: &[u8; BYTE_VALUES],
    parts: &mut [u8; BYTE_VALUES],
) -> bool
    requires sorted { Sorted transitions.now count }
    requires holds_transitions_over { HoldsTransitionsOver transitions.now count n }
    requires i_lt_count { i < count }
    requires grouped { Grouped n parts.old }
    requires mates { Mates n parts.old mated.now }
    ensures { Split transitions.now n count (StableLine transitions.now n count i) parts.old parts.new result }
{
    let arity = arity_of(transitions, TRANSITION_BYTES * i);
    sweep(arity, parts, |k, parts| {
        repair_at(transitions, count, n, i, k, mated, parts)
    })
}

// Every transition. Returns whether a part was split; if none was, the parts are stable.
pub fn repair(transitions: &[u8], count: usize, n: usize, parts: &mut [u8; BYTE_VALUES]) -> bool
    requires sorted { Sorted transitions.now count }
    requires holds_transitions_over { HoldsTransitionsOver transitions.now count n }
    requires grouped { Grouped n parts.old }
    ensures { Split transitions.now n count (Below (StableLine transitions.now n count)
        count) parts.old parts.new result }
{
    let mated = mated_states(n, parts);
    sweep(count, parts, |i, parts| {
        repair_line(transitions, count, n, i, &mated, parts)
    })
}
