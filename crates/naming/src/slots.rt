// Slots that hold every state that a subtree is like, and the search among the states in such a slot.
ghost use Rattle.std.specs.Prelude.{Bool, IfSome, List, ◌≡◌, ◌<◌, ◌≤◌, ℕ};
ghost use Rattle.automata.specs.Automaton.{Automaton};
ghost use Rattle.format.specs.Format.{max_arity};
ghost use Rattle.trees.specs.Tree.{Tree};
ghost use Rattle.uses.specs.Settings.{HoldsIn};
ghost use Rattle.naming.specs.Search.{KnownFor, OpenFor, NamesFor, FoundFor, SlottedFor};

use crate::sought::Sought;
use crate::states::fits_state;
use alike::frame_slot_of;
use fields::arg_of;
use format::TRANSITION_BYTES;
use packed::{Slot, first_in_slot, next_in_slot};
use uses::{Used, use_slot};

// The first state in slot z that the subtree is like.
pub fn state_in_slot(sought: &Sought<'_, '_>, z: Slot) -> Option<usize>
    requires place_lt_max_arity { z.place < max_arity }
    ensures upper_bound { IfSome result (λ q. q ≤ sought.now.setting.now.n) }
    ensures state_sought { (A : Automaton) (t : Tree) (ts : List Tree) (S : Tree → Bool) (N : Tree → ℕ) →
        KnownFor A t ts S sought.now → OpenFor A t sought.now → NamesFor A t ts N sought.now →
        SlottedFor A t S ts N sought.now z →
        FoundFor A t S ts N sought.now result }
{
    let setting = sought.setting;
    let mut next = first_in_slot(setting.transitions, setting.count, z);
    while let Some(i) = next {
        let q = arg_of(setting.transitions, TRANSITION_BYTES * i, z.place);
        if fits_state(sought, q) {
            return Some(q);
        }
        next = next_in_slot(setting.transitions, setting.count, z, i + 1);
    }
    None
}

// A slot that holds every state that the subtree is like. It is the slot of a frame whose parent has a name other than
// 0, else a slot in which the subtree's state is used and which its frames do not cover. None if neither is found.
pub fn slot_of(sought: &Sought<'_, '_>) -> Option<Slot>
    ensures place_lt_max_arity { IfSome result (λ z. z.place < max_arity) }
    ensures states_slotted { (A : Automaton) (t : Tree) (ts : List Tree) (S : Tree → Bool) (N : Tree → ℕ) →
        HoldsIn A t ts sought.now.setting.now → NamesFor A t ts N sought.now →
        IfSome result (SlottedFor A t S ts N sought.now) }
{
    let setting = sought.setting;
    if let Some(z) = frame_slot_of(
        setting.subtrees,
        sought.names,
        sought.j,
        sought.from,
        sought.to,
    ) {
        return Some(z);
    }
    let used = Used {
        transitions: setting.transitions,
        count: setting.count,
        n: setting.n,
        subtrees: setting.subtrees,
        weights: setting.weights,
        lasts: setting.lasts,
    };
    use_slot(&used, sought.from, sought.to, sought.j as u8)
}
