// Transitions as two numbers, read from their bytes each time. So comparing two transitions takes two comparisons of
// numbers.
#![tactic(auto)]

mod layout; // condition 7
mod filling; // digits padded with zeros
mod searching; // binary search
mod slots; // transitions that differ in one argument

ghost use Rattle.std.specs.Prelude.{◌≡◌, ◌*◌, ◌+◌, ◌<◌, ◌^◌, ◌≤◌, length};
ghost use Rattle.automata.specs.Order.{rising};
ghost use Rattle.format.specs.Format.{byte_values, max_arity, transition_bytes};
ghost use Rattle.table.specs.Layout.{arg_of, transitions_in};
ghost use Rattle.packed.specs.Packed.{HoldsPadded, before, meta_at, packed_at};

use fields::{arity_of, label_of};
pub use filling::padded;
use format::{ARGS_AT, MAX_ARITY, OUT_AT, TRANSITION_BYTES};
pub use layout::layout_fits;
pub use searching::{meta_of, output, pack, seek};
pub use slots::{Slot, at_place, first_in_slot, next_in_slot};

// The eight places for arguments of the transition that starts at a byte as one number, the first the highest.
pub fn args_at(transitions: &[u8], at: usize) -> u64
    requires { at + transition_bytes ≤ length transitions.now }
    ensures { result ≡ packed_at transitions.now at }
{
    let mut places = [0u8; MAX_ARITY];
    places.copy_from_slice(&transitions[at + ARGS_AT..at + OUT_AT]);
    pack(places)
}

// The child count and the label of the transition that starts at a byte as one number, the child count in the high
// digits.
pub fn meta_at(transitions: &[u8], at: usize) -> u64
    requires { at + transition_bytes ≤ length transitions.now }
    ensures { result ≡ meta_at transitions.now at }
{
    meta_of(arity_of(transitions, at), label_of(transitions, at))
}

// Whether a transition with the numbers m and a comes before one with the numbers n and b.
pub fn comes_before(m: u64, a: u64, n: u64, b: u64) -> bool
    ensures { result ≡ before m a n b }
{
    (m, a) < (n, b)
}

// Condition 8: each transition comes before the next.
pub fn rises(transitions: &[u8], count: usize) -> bool
    requires { HoldsPadded transitions.now count }
    ensures { result ≡ rising (transitions_in transitions.now count) }
{
    if count == 0 {
        return true;
    }
    let mut meta = meta_at(transitions, 0);
    let mut args = args_at(transitions, 0);
    for i in 0..count - 1 {
        let next = TRANSITION_BYTES * (i + 1);
        let next_meta = meta_at(transitions, next);
        let next_args = args_at(transitions, next);
        if !comes_before(meta, args, next_meta, next_args) {
            return false;
        }
        meta = next_meta;
        args = next_args;
    }
    true
}
