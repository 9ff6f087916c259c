// Frames at a transition's slot. A frame is a node i of the arrays that hold the subtrees, with child k left out.
ghost use Rattle.std.specs.Prelude.{◌≡◌, ◌*◌, ◌+◌, ◌<◌, ◌≤◌, get_or};
ghost use Rattle.fields.specs.Fields.{Readable};
ghost use Rattle.format.specs.Format.{max_arity, max_nodes};
ghost use Rattle.lists.specs.Positions.{up_from};
ghost use Rattle.lists.specs.Tests.{any, bit, every};
ghost use Rattle.subtrees.specs.Store.{child_at};
ghost use Rattle.table.specs.Layout.{arity_of};
ghost use Rattle.uses.specs.Frames.{Nodes, same_child, same_sibling, twin};
ghost use Rattle.uses.specs.Settings.{in_slot_in, frame_of_in, framed_in, frame_count_in, FramesWithin};

use crate::setting::Frames;
use fields::{arg_of, arity_of, label_of};
use format::{MAX_ARITY, MAX_NODES};
use subtrees::Subtrees;

const CHILD_NUMBERS: usize = MAX_NODES * MAX_ARITY;

// Whether child x of node i is left out or runs to argument x.
fn same_sibling(
    transitions: &[u8],
    at: usize,
    k: usize,
    children: &[u8; CHILD_NUMBERS],
    states: &[u8; MAX_NODES],
    i: usize,
    x: usize,
) -> bool
    requires readable { Readable transitions.now at }
    requires i_lt_max_nodes { i < max_nodes }
    requires x_lt_max_arity { x < max_arity }
    requires bound { 1 ≤ child_at children.now i x }
    requires x_bound { child_at children.now i x ≤ max_nodes }
    ensures { result ≡ same_sibling transitions.now at k children.now states.now i x }
{
    if x == k {
        return true;
    }
    let child = usize::from(children[MAX_ARITY * i + x]);
    usize::from(states[child - 1]) == arg_of(transitions, at, x)
}

// Whether each child of node i other than child k runs to the transition's argument at its place.
fn same_siblings(transitions: &[u8], at: usize, k: usize, subtrees: &Subtrees, i: usize) -> bool
    requires readable { Readable transitions.now at }
    requires nodes { Nodes subtrees.now.count subtrees.now.arities subtrees.now.children }
    requires i_lt_m { i < subtrees.now.count }
    requires i_value { get_or subtrees.now.arities i 0 ≡ arity_of transitions.now at }
    ensures { result ≡ every (same_sibling transitions.now at k subtrees.now.children subtrees.now.states i)
        (up_from 0 (arity_of transitions.now at)) }
{
    let arity = arity_of(transitions, at);
    for x in 0..arity {
        if !same_sibling(
            transitions,
            at,
            k,
            &subtrees.children,
            &subtrees.states,
            i,
            x,
        ) {
            return false;
        }
    }
    true
}

// Whether node i with child k left out runs to the slot of the transition with argument k left out.
fn in_slot(transitions: &[u8], at: usize, k: usize, subtrees: &Subtrees, i: usize) -> bool
    requires readable { Readable transitions.now at }
    requires nodes { Nodes subtrees.now.count subtrees.now.arities subtrees.now.children }
    requires i_lt_m { i < subtrees.now.count }
    ensures { result ≡ in_slot_in transitions.now subtrees.now at k i }
{
    if subtrees.labels[i] != label_of(transitions, at) {
        return false;
    }
    if usize::from(subtrees.arities[i]) != arity_of(transitions, at) {
        return false;
    }
    same_siblings(transitions, at, k, subtrees, i)
}

// Whether child x is left out or is the same in nodes i and h.
fn same_child(children: &[u8; CHILD_NUMBERS], k: usize, i: usize, h: usize, x: usize) -> bool
    requires i_lt_max_nodes { i < max_nodes }
    requires h_lt_max_nodes { h < max_nodes }
    requires x_lt_max_arity { x < max_arity }
    ensures { result ≡ same_child children.now k i h x }
{
    if x == k {
        return true;
    }
    children[MAX_ARITY * h + x] == children[MAX_ARITY * i + x]
}

// Whether the first `arity` children of nodes i and h are the same, child k left out.
fn same_children(children: &[u8; CHILD_NUMBERS], k: usize, i: usize, h: usize, arity: usize) -> bool
    requires i_lt_max_nodes { i < max_nodes }
    requires h_lt_max_nodes { h < max_nodes }
    requires arity_le_max_arity { arity ≤ max_arity }
    ensures { result ≡ every (same_child children.now k i h) (up_from 0 arity) }
{
    for x in 0..arity {
        if !same_child(children, k, i, h, x) {
            return false;
        }
    }
    true
}

// Whether node h has subtree j as child k and is otherwise the same as node i.
fn is_twin(subtrees: &Subtrees, j: u8, k: usize, i: usize, h: usize) -> bool
    requires k_lt_max_arity { k < max_arity }
    requires i_lt_max_nodes { i < max_nodes }
    requires h_lt_max_nodes { h < max_nodes }
    requires i_bound { get_or subtrees.now.arities i 0 ≤ max_arity }
    ensures { result ≡ twin subtrees.now.labels subtrees.now.arities subtrees.now.children j k i h }
{
    if subtrees.children[MAX_ARITY * h + k] != j {
        return false;
    }
    if subtrees.labels[h] != subtrees.labels[i] {
        return false;
    }
    if subtrees.arities[h] != subtrees.arities[i] {
        return false;
    }
    same_children(
        &subtrees.children,
        k,
        i,
        h,
        usize::from(subtrees.arities[i]),
    )
}

// Whether some node has subtree j as child k and is otherwise the same as node i. Then the frame at place k of node i
// is a frame of subtree j.
fn has_twin(subtrees: &Subtrees, j: u8, k: usize, i: usize) -> bool
    requires m_le_max_nodes { subtrees.now.count ≤ max_nodes }
    requires k_lt_max_arity { k < max_arity }
    requires i_lt_max_nodes { i < max_nodes }
    requires i_bound { get_or subtrees.now.arities i 0 ≤ max_arity }
    ensures { result ≡ any (twin subtrees.now.labels subtrees.now.arities subtrees.now.children j k i)
        (up_from 0 subtrees.now.count) }
{
    for h in 0..subtrees.count {
        if is_twin(subtrees, j, k, i, h) {
            return true;
        }
    }
    false
}

// Whether the frame at place k of node i counts: it is one of the first subtree, or one of the second
// and not of the first.
fn frame_of(subtrees: &Subtrees, frames: Frames, k: usize, i: usize) -> bool
    requires nodes { Nodes subtrees.now.count subtrees.now.arities subtrees.now.children }
    requires k_lt_max_arity { k < max_arity }
    requires i_lt_m { i < subtrees.now.count }
    ensures { result ≡ frame_of_in subtrees.now frames k i }
{
    let child = subtrees.children[MAX_ARITY * i + k];
    if child == frames.first {
        return true;
    }
    if child != frames.second {
        return false;
    }
    !has_twin(subtrees, frames.first, k, i)
}

// 1 if the frame at place k of node i counts and runs to the transition's slot, else 0.
fn framed_at(
    transitions: &[u8],
    at: usize,
    k: usize,
    subtrees: &Subtrees,
    frames: Frames,
    i: usize,
) -> usize
    requires readable { Readable transitions.now at }
    requires nodes { Nodes subtrees.now.count subtrees.now.arities subtrees.now.children }
    requires k_lt_max_arity { k < max_arity }
    requires i_lt_m { i < subtrees.now.count }
    ensures { result ≡ bit (framed_in transitions.now subtrees.now frames at k i) }
{
    if !frame_of(subtrees, frames, k, i) {
        return 0;
    }
    if !in_slot(transitions, at, k, subtrees, i) {
        return 0;
    }
    1
}

// The number of the frames at the slot of the transition with argument k left out.
pub fn frame_count(
    transitions: &[u8],
    at: usize,
    k: usize,
    subtrees: &Subtrees,
    frames: Frames,
) -> usize
    requires readable { Readable transitions.now at }
    requires nodes { Nodes subtrees.now.count subtrees.now.arities subtrees.now.children }
    requires k_bound { k < arity_of transitions.now at }
    requires framed { FramesWithin subtrees.now frames }
    ensures value { result ≡ frame_count_in transitions.now subtrees.now frames at k }
    ensures upper_bound { result ≤ max_nodes }
{
    let mut found = 0;
    for i in frames.start..frames.end {
        found = found + framed_at(transitions, at, k, subtrees, frames, i);
    }
    found
}
