// Binary search in rising transitions, compared by their two numbers.
ghost use Rattle.std.specs.Prelude.{true, List, ◌≡◌, ◌+◌, ◌*◌, ◌<◌, ◌≤◌, ℕ, length, take};
ghost use Rattle.std.specs.Option.{ForSome};
ghost use Rattle.automata.specs.Automaton.{lookup};
ghost use Rattle.format.specs.Format.{AllBytes, byte_pairs, byte_values, max_arity, transition_bytes};
ghost use Rattle.sorted.specs.Sorted.{LowerBound};
ghost use Rattle.table.specs.Layout.{transitions_in};
ghost use Rattle.packed.specs.Packed.{Searchable, comes_before, packed};
ghost use Rattle.packed.specs.Seeking.{Packs, Places, SoughtAt, sought};

use crate::{args_at, comes_before, meta_at};
use fields::out_of;
use format::{MAX_ARITY, TRANSITION_BYTES};
use sorted::partition_point;

// Whether transition i comes before one with the numbers meta and args.
fn precedes(transitions: &[u8], i: usize, meta: u64, args: u64) -> bool
    requires { transition_bytes * i + transition_bytes ≤ length transitions.now }
    ensures { result ≡ comes_before transitions.now meta args i }
{
    let at = TRANSITION_BYTES * i;
    comes_before(
        meta_at(transitions, at),
        args_at(transitions, at),
        meta,
        args,
    )
}

// The number of transitions that come before one with the numbers meta and args.
pub fn bound(transitions: &[u8], count: usize, meta: u64, args: u64) -> usize
    requires { Searchable transitions.now count }
    ensures upper_bound { result ≤ count }
    ensures by_index { (b : ℕ) (qs : List ℕ) → Packs meta args b qs →
        LowerBound transitions.now count (sought b qs) result }
    ensures by_index_2 { (i : ℕ) → i < result → comes_before transitions.now meta args i ≡ true }
{
    partition_point(count, |i| precedes(transitions, i, meta, args))
}

// The transition with the numbers meta and args.
pub fn seek(transitions: &[u8], count: usize, meta: u64, args: u64) -> Option<usize>
    requires { Searchable transitions.now count }
    ensures upper_bound { ForSome result (λ i. i < count) }
    ensures by_index { (b : ℕ) (qs : List ℕ) → Packs meta args b qs →
        SoughtAt transitions.now count b qs result }
{
    let i = bound(transitions, count, meta, args);
    if i >= count {
        return None;
    }
    let at = TRANSITION_BYTES * i;
    if meta_at(transitions, at) != meta {
        return None;
    }
    if args_at(transitions, at) != args {
        return None;
    }
    Some(i)
}

// Eight bytes as one number, the first the highest.
pub fn pack(qs: [u8; MAX_ARITY]) -> u64
    ensures value { result ≡ packed qs }
    ensures all_bytes { AllBytes qs }
{
    u64::from_be_bytes(qs)
}

// The child count and the label as one number, the child count in the high digits.
pub fn meta_of(arity: usize, label: u16) -> u64
    requires { arity < byte_values }
    ensures { result ≡ byte_pairs * arity + label }
{
    65536 * arity as u64 + label as u64
}

// The output of the transition with this label and these arguments; 0 if there is none.
pub fn output(
    transitions: &[u8],
    count: usize,
    label: u16,
    arity: usize,
    args: [u8; MAX_ARITY],
) -> u8
    requires searchable { Searchable transitions.now count }
    requires places { Places arity args }
    ensures { result ≡ lookup label (take arity args) (transitions_in transitions.now count) }
{
    let meta = meta_of(arity, label);
    let Some(i) = seek(transitions, count, meta, pack(args)) else {
        return 0;
    };
    out_of(transitions, TRANSITION_BYTES * i) as u8
}
