// Plain transitions, as most are after a change: every argument is a state that keeps its name and has no other. Such
// a transition has one entry, with its old arguments.
ghost use Rattle.std.specs.Prelude.{false, true, ◌≡◌, ◌+◌, ◌≤◌, length, replicate};
ghost use Rattle.fields.specs.Fields.{Readable};
ghost use Rattle.format.specs.Format.{byte_values};
ghost use Rattle.lists.specs.Tests.{any};
ghost use Rattle.marking.specs.Marks.{marked};
ghost use Rattle.packed.specs.Packed.{Padded};
ghost use Rattle.table.specs.Layout.{arity_of, transition_at};
ghost use Rattle.quotient.specs.Entries.{AppendedTo, RoomFor, SameArrays};
ghost use Rattle.quotient.specs.Named.{OddIn, choices_at};

use crate::choosing::choose_names;
use crate::entries::Entries;
use crate::named::Names;
use fields::{arity_of, out_of};
use format::BYTE_VALUES;
use packed::{args_at, meta_at};
use pairs::some_marked;

// Takes the mark off the state q if its only name is q itself.
fn unmark(names: &Names<'_>, q: usize, odd: &mut [u8; BYTE_VALUES])
    requires le_q { 1 ≤ q }
    requires q_le_n { q ≤ names.now.named.now.n }
    requires odd_len { length odd.old ≡ byte_values }
    requires odd_marked { OddIn names.now odd.old }
    ensures odd_len_2 { length odd.new ≡ byte_values }
    ensures odd_marked_2 { OddIn names.now odd.new }
{
    if usize::from(names.kept.firsts[q]) != q {
        return;
    }
    if names.kept.nexts[q] != 0 {
        return;
    }
    odd[q] = 0;
}

// The same for all states. At first all are marked.
pub fn mark_odd(names: &Names<'_>, odd: &mut [u8; BYTE_VALUES])
    requires { odd.old ≡ replicate byte_values 1 }
    ensures { OddIn names.now odd.new }
{
    for q in 1..=names.named.n {
        unmark(names, q, odd);
    }
}

// Whether the transition that starts at a byte has arguments, and none is marked.
fn is_plain(transitions: &[u8], at: usize, odd: &[u8; BYTE_VALUES]) -> bool
    requires { Readable transitions.now at }
    ensures bound { result ≡ true → 1 ≤ arity_of transitions.now at }
    ensures at_value { result ≡ true → any (marked odd.now) (transition_at transitions.now at).args ≡
        false }
{
    if arity_of(transitions, at) == 0 {
        return false;
    }
    !some_marked(transitions, at, odd)
}

// Appends the entries of all choices for the arguments of the transition that starts at a byte. The test may miss a
// plain transition; that costs only time.
pub fn choose_at(
    transitions: &[u8],
    at: usize,
    names: &Names<'_>,
    odd: &[u8; BYTE_VALUES],
    entries: &mut Entries<'_>,
)
    requires readable { Readable transitions.now at }
    requires padded { Padded transitions.now at }
    requires odd_marked { OddIn names.now odd.now }
    requires room { RoomFor entries.old (length (choices_at names.now transitions.now at)) }
    ensures same_arrays { SameArrays entries.old entries.new }
    ensures appended { AppendedTo entries.old (choices_at names.now transitions.now at) entries.new }
{
    if is_plain(transitions, at, odd) {
        let out = out_of(transitions, at) as u8;
        entries.emit(meta_at(transitions, at), args_at(transitions, at), out);
        return;
    }
    choose_names(transitions, at, names, entries);
}
