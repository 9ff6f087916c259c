// The subtrees with their names, the names that are kept, and what the transitions between names are made from.
ghost use Rattle.std.specs.Prelude.{◌≤◌};
ghost use Rattle.format.specs.Format.{max_nodes, max_states};
ghost use Rattle.quotient.specs.Kept.{Rises};
ghost use Rattle.quotient.specs.Nodes.{EachNode, Nodes, key_of, meta_of};
ghost use Rattle.quotient.specs.Rising.{rises-prop};

use format::{BYTE_VALUES, MAX_NODES};
use subtrees::Subtrees;

// The subtrees of the tree that is put in or taken out, over the states 1 to n, and the name that each has after the
// change, 0 for none.
#[derive(Clone, Copy)]
pub struct NamedSubtrees<'a> {
    pub n: usize,
    pub subtrees: &'a Subtrees,
    pub names: &'a [u8; MAX_NODES],
    pub ghost few: { n ≤ max_states },
    pub ghost nodes: { Nodes subtrees.now.count subtrees.now.labels subtrees.now.arities subtrees.now.children },
}

// The names that may be kept: those of the states 1 to n and the own names of m subtrees. `opens` marks the open
// states; `states` and `names` are those of the subtrees.
#[derive(Clone, Copy)]
pub struct Candidates<'a> {
    pub n: usize,
    pub m: usize,
    pub opens: &'a [u8; BYTE_VALUES],
    pub states: &'a [u8; MAX_NODES],
    pub names: &'a [u8; MAX_NODES],
    pub ghost few_states: { n ≤ max_states },
    pub ghost few_nodes: { m ≤ max_nodes },
}

// The kept names as one chain for each state: the first name of each state, the name after each name, 0 for none, and
// how many names each state has.
#[derive(Drop)]
pub struct KeptNames {
    pub firsts: [u8; BYTE_VALUES],
    pub nexts: [u8; BYTE_VALUES],
    pub sizes: [u8; BYTE_VALUES],
}

// What transitions between names are made from: the names to choose for a state, and the subtrees as nodes over own
// names, with two numbers for each (`nodes`).
#[derive(Clone, Copy)]
pub struct Names<'a> {
    pub kept: &'a KeptNames,
    pub named: &'a NamedSubtrees<'a>,
    pub metas: &'a [u64; MAX_NODES],
    pub keys: &'a [u64; MAX_NODES],
    pub ghost rises: { Rises kept.now.nexts } by { rises-prop kept.now.nexts },
    pub ghost each_meta: { EachNode (meta_of named.now.subtrees.now.labels named.now.subtrees.now.arities)
        named.now.subtrees.now.count metas.now },
    pub ghost each_key: { EachNode (key_of named.now.n named.now.subtrees.now.children)
        named.now.subtrees.now.count keys.now },
}
