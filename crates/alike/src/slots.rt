// A frame over a subtree as a slot. A state that the subtree is like steps to the parent's name there, so it is the
// argument of a transition in the slot.
ghost use Rattle.std.specs.Prelude.{IfSome, ◌<◌, ◌≤◌, get_or};
ghost use Rattle.subtrees.specs.Store.{child_at};
ghost use Rattle.uses.specs.Frames.{Shaped};
ghost use Rattle.alike.specs.Settings.{SlotIn};

use crate::nodes::{children_of, states_of};
use format::{MAX_ARITY, MAX_NODES};
use packed::{Slot, meta_of, pack};
use subtrees::Subtrees;

// The slot of place k of the subtree at index i, with the subtree's name as its output.
fn frame_slot(subtrees: &Subtrees, names: &[u8; MAX_NODES], i: usize, k: usize) -> Slot
    requires shaped { Shaped subtrees.now.count subtrees.now.arities subtrees.now.children }
    requires i_lt_m { i < subtrees.now.count }
    requires name_some { 1 ≤ get_or names.now i 0 }
    requires k_bound { k < get_or subtrees.now.arities i 0 }
    ensures { SlotIn subtrees.now (child_at subtrees.now.children i k) names.now result }
{
    let arity = usize::from(subtrees.arities[i]);
    let numbers = children_of(&subtrees.children, i, arity);
    let mut qs = states_of(&subtrees.states, numbers, arity);
    qs[k] = 0;
    let meta = meta_of(arity, subtrees.labels[i]);
    let args = pack(qs);
    let name = usize::from(names[i]);
    Slot {
        meta: meta,
        args: args,
        place: k,
        out: name,
    }
}

// The slot of subtree j in the subtree at index i; None if j is not its child or if its name is 0.
fn parent_slot(subtrees: &Subtrees, names: &[u8; MAX_NODES], i: usize, j: usize) -> Option<Slot>
    requires shaped { Shaped subtrees.now.count subtrees.now.arities subtrees.now.children }
    requires i_lt_m { i < subtrees.now.count }
    ensures { IfSome result (SlotIn subtrees.now j names.now) }
{
    if names[i] == 0 {
        return None;
    }
    let arity = usize::from(subtrees.arities[i]);
    for k in 0..arity {
        if usize::from(subtrees.children[MAX_ARITY * i + k]) == j {
            return Some(frame_slot(subtrees, names, i, k));
        }
    }
    None
}

// The slot of a frame over subtree j whose parent has a name other than 0. The parents of j
// have indices from `from` on and below `to`.
pub fn frame_slot_of(
    subtrees: &Subtrees,
    names: &[u8; MAX_NODES],
    j: usize,
    from: usize,
    to: usize,
) -> Option<Slot>
    requires shaped { Shaped subtrees.now.count subtrees.now.arities subtrees.now.children }
    requires to_le_m { to ≤ subtrees.now.count }
    ensures { IfSome result (SlotIn subtrees.now j names.now) }
{
    for i in from..to {
        if let Some(z) = parent_slot(subtrees, names, i, j) {
            return Some(z);
        }
    }
    None
}
