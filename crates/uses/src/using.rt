// A slot in which a subtree's state is used and which the subtree's frames do not cover. Every state that is used
// alike has the same output in this slot.
ghost use Rattle.std.specs.Prelude.{IfSome, List, true, ◌≡◌, ◌*◌, ◌-◌, ◌<◌, ◌^◌, ◌≤◌, ℕ};
ghost use Rattle.automata.specs.Alike.{frames_of, uses_agree};
ghost use Rattle.automata.specs.Automaton.{Automaton, run};
ghost use Rattle.format.specs.Format.{max_arity, transition_bytes};
ghost use Rattle.packed.specs.Packed.{Searchable, meta_at, packed_at};
ghost use Rattle.packed.specs.Slots.{SlotTakes};
ghost use Rattle.subtrees.specs.Store.{tree_numbered};
ghost use Rattle.table.specs.Layout.{arg_of, arity_of, out_of};
ghost use Rattle.trees.specs.Tree.{Tree};
ghost use Rattle.uses.specs.Uses.{Holds, SlotUsed};
ghost use Rattle.uses.specs.Settings.{FramesWithin, ParentsFrom, arrays_of, frames_of_one};

use crate::covering::is_covered;
use crate::setting::{Frames, Used};
use crate::spans::entry;
use fields::{arg_of, arity_of, out_of};
use format::TRANSITION_BYTES;
use packed::{Slot, args_at, at_place, meta_at};

// The slot of transition i without its argument k, which is p.
fn slot_at(transitions: &[u8], count: usize, i: usize, k: usize, p: u8) -> Slot
    requires searchable { Searchable transitions.now count }
    requires i_lt_count { i < count }
    requires k_bound { k < arity_of transitions.now (transition_bytes * i) }
    requires p_value { p ≡ arg_of transitions.now (transition_bytes * i) k }
    ensures meta_value { result.meta ≡ meta_at transitions.now (transition_bytes * i) }
    ensures args_value { result.args ≡ packed_at transitions.now (transition_bytes * i) - p * 2 ^ (8 * (7 - k)) }
    ensures place_value { result.place ≡ k }
    ensures out_value { result.out ≡ out_of transitions.now (transition_bytes * i) }
{
    let at = TRANSITION_BYTES * i;
    let meta = meta_at(transitions, at);
    let args = args_at(transitions, at) - at_place(usize::from(p), k);
    let out = out_of(transitions, at);
    Slot {
        meta: meta,
        args: args,
        place: k,
        out: out,
    }
}

// The same, but None if argument k is not p or the frames of subtree j cover the slot.
fn place_slot(
    used: &Used<'_>,
    start: usize,
    end: usize,
    j: u8,
    p: u8,
    i: usize,
    k: usize,
) -> Option<Slot>
    requires framed { FramesWithin used.now.subtrees.now (frames_of_one j start end) }
    requires i_lt_count { i < used.now.count }
    requires k_bound { k < arity_of used.now.transitions.now (transition_bytes * i) }
    ensures { IfSome result (SlotUsed (arrays_of used.now.subtrees.now used.now.weights.now j 0)
        used.now.transitions.now used.now.count p) }
{
    let at = TRANSITION_BYTES * i;
    if arg_of(used.transitions, at, k) != usize::from(p) {
        return None;
    }
    if is_covered(
        used.transitions,
        at,
        k,
        used.subtrees,
        used.weights,
        Frames {
            first: j,
            second: 0,
            start: start,
            end: end,
        },
    ) {
        return None;
    }
    Some(slot_at(used.transitions, used.count, i, k, p))
}

// The slot of the first place of transition i that gives one.
fn transition_slot(
    used: &Used<'_>,
    start: usize,
    end: usize,
    j: u8,
    p: u8,
    i: usize,
) -> Option<Slot>
    requires framed { FramesWithin used.now.subtrees.now (frames_of_one j start end) }
    requires i_lt_count { i < used.now.count }
    ensures { IfSome result (SlotUsed (arrays_of used.now.subtrees.now used.now.weights.now j 0)
        used.now.transitions.now used.now.count p) }
{
    let arity = arity_of(used.transitions, TRANSITION_BYTES * i);
    for k in 0..arity {
        if let Some(z) = place_slot(used, start, end, j, p, i, k) {
            return Some(z);
        }
    }
    None
}

// A slot in which the state of subtree j is used and which the frames of j do not cover. Only the last transition
// that uses the state is tried.
pub fn use_slot(used: &Used<'_>, start: usize, end: usize, j: u8) -> Option<Slot>
    requires le_j { 1 ≤ j }
    requires j_le_m { j ≤ used.now.subtrees.now.count }
    requires parents_within { ParentsFrom used.now.subtrees.now j start end }
    ensures place_lt_max_arity { IfSome result (λ z. z.place < max_arity) }
    ensures slot_takes { (A : Automaton) (t : Tree) (ts : List Tree) →
        Holds A t ts used.now.transitions.now used.now.count used.now.n used.now.subtrees.now.labels
        used.now.subtrees.now.arities used.now.subtrees.now.children used.now.subtrees.now.states used.now.weights.now
        used.now.subtrees.now.count → IfSome result (λ z. (q : ℕ) →
        uses_agree A t (frames_of t (tree_numbered ts j)) (run A (tree_numbered ts j)) q ≡ true →
        SlotTakes used.now.transitions.now used.now.count z q) }
{
    let p = used.subtrees.states[usize::from(j) - 1];
    let number = entry(used.lasts, p);
    if number == 0 {
        return None;
    }
    if number > used.count {
        return None;
    }
    transition_slot(used, start, end, j, p, number - 1)
}
