// All transitions between names: first those from the table's transitions, then those of subtrees that run to no
// state.
ghost use Rattle.std.specs.Prelude.{List, ◌≡◌, ◌+◌, ◌<◌, ◌≤◌, ℕ, length};
ghost use Rattle.automata.specs.Automaton.{Automaton};
ghost use Rattle.automata.specs.Quotient.{quotient_list};
ghost use Rattle.format.specs.Format.{max_transitions};
ghost use Rattle.packed.specs.Heads.{HoldsEntries};
ghost use Rattle.packed.specs.Packed.{HoldsPadded};
ghost use Rattle.subtrees.specs.Store.{bottom_up};
ghost use Rattle.trees.specs.Tree.{Tree};
ghost use Rattle.quotient.specs.Entries.{AppendedTo, RoomFor, SameArrays};
ghost use Rattle.quotient.specs.Making.{Room};
ghost use Rattle.quotient.specs.Named.{ChosenIn, FewChosenIn, OddIn, added_at, added_in, choices_in};

use crate::entries::Entries;
use crate::kept::index;
use crate::named::{KeptNames, NamedSubtrees, Names};
use crate::nodes::{is_new, key_of, meta_of, number_each};
use crate::plain::{choose_at, mark_odd};
use format::{BYTE_VALUES, MAX_NODES, TRANSITION_BYTES};

// Notes how many entries there are after transition i, if the array has a place for i.
fn note_end(ends: &mut [u16], i: usize, made: usize)
    requires { made ≤ max_transitions }
{
    if i < ends.len() {
        ends[i] = made as u16;
    }
}

// Appends the entries of all transitions of the table.
fn choose_all(
    transitions: &[u8],
    count: usize,
    names: &Names<'_>,
    odd: &[u8; BYTE_VALUES],
    entries: &mut Entries<'_>,
    ends: &mut [u16],
)
    requires holds_padded { HoldsPadded transitions.now count }
    requires odd_marked { OddIn names.now odd.now }
    requires room { RoomFor entries.old (length (choices_in names.now transitions.now count)) }
    ensures same_arrays { SameArrays entries.old entries.new }
    ensures appended { AppendedTo entries.old (choices_in names.now transitions.now count) entries.new }
{
    for i in 0..count {
        choose_at(transitions, TRANSITION_BYTES * i, names, odd, entries);
        note_end(ends, i, entries.count);
    }
}

// Appends the entry of the subtree at index j, if it runs to no state and has a name, and its children have their own
// names.
fn add_new(names: &Names<'_>, j: usize, entries: &mut Entries<'_>)
    requires j_lt_m { j < names.now.named.now.subtrees.now.count }
    requires room { RoomFor entries.old (length (added_at names.now j)) }
    ensures same_arrays { SameArrays entries.old entries.new }
    ensures appended { AppendedTo entries.old (added_at names.now j) entries.new }
{
    if !is_new(names.named, j) {
        return;
    }
    let name = index(names.named.names[j]);
    entries.push(256 * names.metas[j] + name as u64, names.keys[j]);
}

// The same for all subtrees.
fn add_lost(names: &Names<'_>, entries: &mut Entries<'_>)
    requires { RoomFor entries.old (length (added_in names.now)) }
    ensures same_arrays { SameArrays entries.old entries.new }
    ensures appended { AppendedTo entries.old (added_in names.now) entries.new }
{
    for j in 0..names.named.subtrees.count {
        add_new(names, j, entries);
    }
}

// Puts the entries of all transitions between names into arrays that have none.
fn add_all(
    transitions: &[u8],
    count: usize,
    named: &NamedSubtrees<'_>,
    kept: &KeptNames,
    entries: &mut Entries<'_>,
    ends: &mut [u16],
)
    requires holds_padded { HoldsPadded transitions.now count }
    requires none { entries.old.count ≡ 0 }
    requires room { RoomFor entries.old 0 }
    requires few_chosen { FewChosenIn transitions.now count named.now kept.now (length entries.old.heads.now) }
    ensures same_arrays { SameArrays entries.old entries.new }
    ensures room_2 { Room entries.new.heads.now entries.new.args.now entries.new.count }
    ensures holds_entries { (A : Automaton) (t : Tree) (ν : (Tree → ℕ)) (o : List ℕ) →
        ChosenIn A t ν transitions.now count o named.now kept.now →
        HoldsEntries entries.new.heads.now entries.new.args.now entries.new.count
        (quotient_list A t (bottom_up t) ν) }
{
    let mut metas = [0u64; MAX_NODES];
    number_each(named.subtrees.count, &mut metas, |j| meta_of(named, j));
    let mut keys = [0u64; MAX_NODES];
    number_each(named.subtrees.count, &mut keys, |j| key_of(named, j));
    let names = Names {
        kept,
        named,
        metas: &metas,
        keys: &keys,
    };
    let mut odd = [1u8; BYTE_VALUES];
    mark_odd(&names, &mut odd);
    choose_all(transitions, count, &names, &odd, entries, ends);
    add_lost(&names, entries);
}

// Makes the transitions between names. Returns how many there are.
pub fn make(
    transitions: &[u8],
    count: usize,
    named: &NamedSubtrees<'_>,
    kept: &KeptNames,
    heads: &mut [u64],
    args: &mut [u64],
    ends: &mut [u16],
) -> usize
    requires holds_padded { HoldsPadded transitions.now count }
    requires room { Room heads.old args.old 0 }
    requires few_chosen { FewChosenIn transitions.now count named.now kept.now (length heads.old) }
    ensures room_2 { Room heads.new args.new result }
    ensures holds_entries { (A : Automaton) (t : Tree) (ν : (Tree → ℕ)) (o : List ℕ) →
        ChosenIn A t ν transitions.now count o named.now kept.now →
        HoldsEntries heads.new args.new result (quotient_list A t (bottom_up t) ν) }
{
    let mut entries = Entries {
        heads,
        args,
        count: 0,
    };
    add_all(transitions, count, named, kept, &mut entries, ends);
    entries.count
}
