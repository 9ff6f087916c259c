// Whether two states are used alike: every slot of a transition takes both to the same state, unless the frames of
// the given subtrees cover the slot.
#![tactic(auto)]

mod setting; // what uses are compared in and found in
mod spans; // for each state, its first and last use
mod frames; // frames over a slot, counted
mod covering; // covered slots
mod swapping; // a transition with another state for an argument
mod scanning; // each use of a state
mod walking; // the uses of two states in step
mod using; // a use as a slot

ghost use Rattle.std.specs.Prelude.{List, ◌++◌, ◌≡◌, ◌*◌, ◌≤◌};
ghost use Rattle.automata.specs.Alike.{frames_of, uses_agree};
ghost use Rattle.automata.specs.Automaton.{Automaton, run};
ghost use Rattle.subtrees.specs.Store.{tree_numbered};
ghost use Rattle.trees.specs.Context.{Frame};
ghost use Rattle.trees.specs.Tree.{Tree};
ghost use Rattle.uses.specs.Uses.{FramesOf};
ghost use Rattle.uses.specs.Settings.{FramesWithin, ParentsFrom, HoldsIn};

use scanning::{hint_agrees, transitions_agree};
pub use setting::{Frames, Setting, Used, recall_bytes};
pub use spans::note_uses;
pub use using::use_slot;
use walking::walk_agrees;

// Whether p and q, each a state or 0, are used alike but for the slots that the frames of subtrees j and v cover; v
// is 0 for none. The last use of each is tried first, because most states that differ do so there. Then the uses are
// walked in step. Only if the walk fails, each use is looked up.
fn uses_agree(setting: &Setting<'_>, frames: Frames, p: u8, q: u8) -> bool
    requires framed { FramesWithin setting.now.subtrees.now frames }
    ensures { (A : Automaton) (t : Tree) (ts : List Tree) (F : List Frame) →
        HoldsIn A t ts setting.now → FramesOf t ts setting.now.subtrees.now.count frames.first frames.second F →
        result ≡ uses_agree A t F p q }
{
    if p == q {
        return true;
    }
    if !hint_agrees(setting, frames, p, q, q) {
        return false;
    }
    if !hint_agrees(setting, frames, p, q, p) {
        return false;
    }
    if walk_agrees(setting, frames, p, q) {
        return true;
    }
    transitions_agree(setting, frames, p, q)
}

// The same for the state of subtree j and q, but for the slots that the frames of j cover.
pub fn state_uses_agree(setting: &Setting<'_>, start: usize, end: usize, j: u8, q: u8) -> bool
    requires le_j { 1 ≤ j }
    requires j_le_m { j ≤ setting.now.subtrees.now.count }
    requires parents_within { ParentsFrom setting.now.subtrees.now j start end }
    ensures { (A : Automaton) (t : Tree) (ts : List Tree) →
        HoldsIn A t ts setting.now →
        result ≡ uses_agree A t (frames_of t (tree_numbered ts j)) (run A (tree_numbered ts j)) q }
{
    let p = setting.subtrees.states[usize::from(j) - 1];
    uses_agree(
        setting,
        Frames {
            first: j,
            second: 0,
            start: start,
            end: end,
        },
        p,
        q,
    )
}

// The same for the states of subtrees j and v, but for the slots that the frames of both cover.
pub fn subtree_uses_agree(setting: &Setting<'_>, start: usize, end: usize, j: u8, v: u8) -> bool
    requires le_j { 1 ≤ j }
    requires j_le_m { j ≤ setting.now.subtrees.now.count }
    requires le_v { 1 ≤ v }
    requires v_le_m { v ≤ setting.now.subtrees.now.count }
    requires fact { j ≡ v → ⊥ }
    requires parents_within { ParentsFrom setting.now.subtrees.now j start end }
    requires parents_within_2 { ParentsFrom setting.now.subtrees.now v start end }
    ensures { (A : Automaton) (t : Tree) (ts : List Tree) →
        HoldsIn A t ts setting.now →
        result ≡ uses_agree A t (frames_of t (tree_numbered ts j) ++ frames_of t (tree_numbered ts v))
        (run A (tree_numbered ts j)) (run A (tree_numbered ts v)) }
{
    let p = setting.subtrees.states[usize::from(j) - 1];
    let q = setting.subtrees.states[usize::from(v) - 1];
    uses_agree(
        setting,
        Frames {
            first: j,
            second: v,
            start: start,
            end: end,
        },
        p,
        q,
    )
}
