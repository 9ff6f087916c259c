// What the uses of states are compared in and found in, and the frames that are left out of account.
ghost use Rattle.std.specs.Prelude.{◌≤◌};
ghost use Rattle.fields.specs.Fields.{HoldsTransitionsOver};
ghost use Rattle.format.specs.Format.{AllBytes, max_states};
ghost use Rattle.packed.specs.Packed.{Searchable};
ghost use Rattle.uses.specs.Frames.{Nodes, Shaped};
ghost use Rattle.uses.specs.Spans.{UsesWithin};

use format::{BYTE_VALUES, MAX_NODES};
use subtrees::Subtrees;

// A table's sorted transitions over the states 1 to n, the subtrees of the tree that is put in or taken out, the class
// of each subtree, the number of pairs of each state, and the bounds of each state's uses: they lie between its entries
// of `lows` and `lasts`.
#[derive(Clone, Copy)]
pub struct Setting<'a> {
    pub transitions: &'a [u8],
    pub count: usize,
    pub n: usize,
    pub subtrees: &'a Subtrees,
    pub classes: &'a [u8; MAX_NODES],
    pub weights: &'a [u8; BYTE_VALUES],
    pub lows: &'a [u16; BYTE_VALUES],
    pub lasts: &'a [u16; BYTE_VALUES],
    pub ghost searchable: { Searchable transitions.now count },
    pub ghost over: { HoldsTransitionsOver transitions.now count n },
    pub ghost states: { n ≤ max_states },
    pub ghost shaped: { Shaped subtrees.now.count subtrees.now.arities subtrees.now.children },
    pub ghost uses: { UsesWithin transitions.now count lows.now lasts.now },
}

// What a use of a subtree's state is found in. The entry of `lasts` for a state says where its last use is looked for;
// any number will do.
#[derive(Clone, Copy)]
pub struct Used<'a> {
    pub transitions: &'a [u8],
    pub count: usize,
    pub n: usize,
    pub subtrees: &'a Subtrees,
    pub weights: &'a [u8; BYTE_VALUES],
    pub lasts: &'a [u16; BYTE_VALUES],
    pub ghost searchable: { Searchable transitions.now count },
    pub ghost over: { HoldsTransitionsOver transitions.now count n },
    pub ghost nodes: { Nodes subtrees.now.count subtrees.now.arities subtrees.now.children },
}

// The frames of two subtrees, the second 0 for none. Their parents have indices from `start` on and below `end`.
#[derive(Clone, Copy)]
pub struct Frames {
    pub first: u8,
    pub second: u8,
    pub start: usize,
    pub end: usize,
}

// Says of a field's slice what a proof knows of a parameter's: a slice of bytes has only bytes.
pub fn recall_bytes(transitions: &[u8])
    ensures { AllBytes transitions.now }
{}
