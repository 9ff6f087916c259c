// Covered slots. A slot is covered if there are as many frames at it as choices of pairs for its arguments. The
// frames then take all choices.
ghost use Rattle.std.specs.Prelude.{◌≡◌, ◌*◌, ◌<◌, ◌≤◌, min};
ghost use Rattle.fields.specs.Fields.{Readable};
ghost use Rattle.format.specs.Format.{max_arity};
ghost use Rattle.table.specs.Layout.{arity_of};
ghost use Rattle.uses.specs.Frames.{Nodes};
ghost use Rattle.uses.specs.Uses.{covered_at, factor_at, product_at, product_cap};
ghost use Rattle.uses.specs.Settings.{FramesWithin, arrays_of};

use crate::frames::frame_count;
use crate::setting::Frames;
use fields::{arg_of, arity_of};
use format::{BYTE_VALUES, MAX_NODES};
use subtrees::Subtrees;

// The number of pairs of argument x; 1 if it is left out.
fn factor(transitions: &[u8], at: usize, k: usize, weights: &[u8; BYTE_VALUES], x: usize) -> usize
    requires readable { Readable transitions.now at }
    requires x_lt_max_arity { x < max_arity }
    ensures value { result ≡ factor_at weights.now transitions.now at k x }
    ensures upper_bound { result ≤ 255 }
{
    if x == k {
        return 1;
    }
    let q = arg_of(transitions, at, x);
    usize::from(weights[q])
}

// A product, at most one more than there can be frames.
fn capped(product: usize) -> usize
    ensures { result ≡ min product_cap product }
{
    if product > MAX_NODES {
        return MAX_NODES + 1;
    }
    product
}

// The number of choices of pairs for the arguments other than argument k, up to that cap.
fn choices(transitions: &[u8], at: usize, k: usize, weights: &[u8; BYTE_VALUES]) -> usize
    requires { Readable transitions.now at }
    ensures { result ≡ min product_cap (product_at weights.now transitions.now at k) }
{
    let arity = arity_of(transitions, at);
    let mut product = 1;
    for x in 0..arity {
        product = capped(product * factor(transitions, at, k, weights, x));
    }
    product
}

// Whether the slot of the transition with argument k left out is covered by the frames.
pub fn is_covered(
    transitions: &[u8],
    at: usize,
    k: usize,
    subtrees: &Subtrees,
    weights: &[u8; BYTE_VALUES],
    frames: Frames,
) -> bool
    requires readable { Readable transitions.now at }
    requires nodes { Nodes subtrees.now.count subtrees.now.arities subtrees.now.children }
    requires k_bound { k < arity_of transitions.now at }
    requires framed { FramesWithin subtrees.now frames }
    ensures { result ≡ covered_at (arrays_of subtrees.now weights.now frames.first frames.second) transitions.now at k }
{
    let found = frame_count(transitions, at, k, subtrees, frames);
    choices(transitions, at, k, weights) == found
}
